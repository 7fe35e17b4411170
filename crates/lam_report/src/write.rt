// A report, written.

ghost use Rattle.std.specs.Prelude.{◌≡◌, ◌≤◌, ◌<◌, ◌+◌, ◌*◌, ◌/◌, ◌%◌, ◌++◌, ◌∷◌, [], ℕ, List, length, map, codes, decimal, All, IsErrOf};
ghost use Rattle.lam_outside.specs.Counts.{Rose};
ghost use Rattle.lam_outside.specs.Told.{Delivers};
ghost use Rattle.lam_job.specs.Schedule.{wall_of};
ghost use Rattle.lam_stock.specs.Stock.{IsKnown};
ghost use Rattle.lam_tree.specs.Lines.{line_of, node_line, spaced, spot_words};
ghost use Rattle.lam_tree.specs.ReportRanges.{IsBlock, IsNode, IsReport, IsSpot};
ghost use Rattle.lam_report.specs.LineText.{text_of};
ghost use Rattle.lam_report.specs.ReportText.{answer_line, best_lines, name_of, names_line, near_lines, number_line, numbered, panel_line, ratio_line, ratio_text, report_text, tree_lines};
ghost use Rattle.lam_report.specs.inside.Named.{IsNamed};
ghost use Rattle.lam_report.specs.inside.Pieces.{PutsText};

use crate::pieces::Pieces;
use crate::wall::wall_plies;
use crate::words::{line_of_number, line_of_panel, line_of_ratio, ratio_word};
use lam_job::Job;
use lam_outside::{Sink, WriteFault};
use lam_stock::{Stack, Stock};
use lam_tree::{Answer, Best, Line, Near, Node, Report, write_line};

/// Writes the text of a report, in pieces of 64 bytes, the last with what is left. It takes no
/// memory.
pub fn write_report<K: Sink>(
    job: &Job,
    stock: &Stock,
    report: &Report,
    sink: &mut K,
) -> Result<(), WriteFault>
    requires report { IsReport stock.now job.now report.now }
    requires liner { IsKnown stock.now job.now.liner }
    ensures faults_never_fall { K.faults sink.old ≤ K.faults sink.new }
    ensures stalls_never_fall { K.stalls sink.old ≤ K.stalls sink.new }
    ensures failed { IsErrOf result WriteFault.Failed
        → Rose (K.faults sink.old) (K.faults sink.new) }
    ensures took_none { IsErrOf result WriteFault.TookNone
        → Rose (K.stalls sink.old) (K.stalls sink.new) }
    ensures stalls_only_there { ¬ (IsErrOf result WriteFault.TookNone)
        → K.stalls sink.new ≡ K.stalls sink.old }
    ensures terms { K.terms sink.new ≡ K.terms sink.old }
    ensures written { Delivers (K.written sink.old) (K.written sink.new) result
        (report_text stock.now job.now report.now) }
{
    let mut pieces = Pieces::new();
    put_heading(&mut pieces, sink, report);
    put_block(&mut pieces, sink, job, stock, report);
    put_near(&mut pieces, sink, stock, &report.answer);
    let _items = stock.items(); // at most 64
    put_tree(&mut pieces, sink, report.tree.nodes());
    pieces.finish(sink)
}

fn put_heading<K: Sink>(pieces: &mut Pieces, sink: &mut K, report: &Report)
    ensures { PutsText K.written K.faults K.stalls K.terms sink.old pieces.old sink.new pieces.new
        (text_of (codes "laminate report 1" ∷ number_line (codes "budget") report.now.budget
        ∷ answer_line report.now.answer ∷ [])) }
{
    pieces.line(sink, b"laminate report 1".as_slice());
    let budget = line_of_number(b"budget".as_slice(), u64::from(report.budget));
    pieces.line(sink, budget.bytes());
    put_answer(pieces, sink, &report.answer);
}

fn put_answer<K: Sink>(pieces: &mut Pieces, sink: &mut K, answer: &Answer)
    ensures { PutsText K.written K.faults K.stalls K.terms sink.old pieces.old sink.new pieces.new
        (text_of (answer_line answer.now ∷ [])) }
{
    match answer {
        Answer::Least => pieces.line(sink, b"answer least".as_slice()),
        Answer::NoneMeets => pieces.line(sink, b"answer none".as_slice()),
        Answer::OpenBudget => pieces.line(sink, b"answer open budget".as_slice()),
        Answer::OpenStraddle(_) => pieces.line(sink, b"answer open straddle".as_slice()),
    }
}

// the lines of the best schedule, if there is one
fn put_block<K: Sink>(pieces: &mut Pieces, sink: &mut K, job: &Job, stock: &Stock, report: &Report)
    requires block { IsBlock stock.now job.now report.now.best report.now.ratios report.now.panels }
    requires liner { IsKnown stock.now job.now.liner }
    ensures { PutsText K.written K.faults K.stalls K.terms sink.old pieces.old sink.new pieces.new
        (text_of (best_lines stock.now job.now report.now.best report.now.ratios
        report.now.panels)) }
{
    if let Some(best) = &report.best {
        let plies = wall_plies(job, &best.plies);
        put_best(pieces, sink, stock, best);
        put_ratios(pieces, sink, plies, report.ratios.items());
        put_panels(pieces, sink, report.panels.items());
    }
}

fn put_best<K: Sink>(pieces: &mut Pieces, sink: &mut K, stock: &Stock, best: &Best)
    requires { IsKnown stock.now best.now.plies }
    ensures { PutsText K.written K.faults K.stalls K.terms sink.old pieces.old sink.new pieces.new
        (text_of (number_line (codes "cost") best.now.cost
        ∷ names_line (codes "schedule") stock.now best.now.plies ∷ [])) }
{
    let cost = line_of_number(b"cost".as_slice(), best.cost);
    pieces.line(sink, cost.bytes());
    put_names(pieces, sink, b"schedule".as_slice(), stock, &best.plies);
}

// the line of a word and the names of plies
fn put_names<K: Sink>(pieces: &mut Pieces, sink: &mut K, word: &[u8], stock: &Stock, plies: &Stack)
    requires { IsKnown stock.now plies.now }
    ensures { PutsText K.written K.faults K.stalls K.terms sink.old pieces.old sink.new pieces.new
        (text_of (names_line word.now stock.now plies.now ∷ [])) }
{
    pieces.text(sink, word);
    for ply in plies.items() {
        put_name(pieces, sink, stock.items()[ply.0 as usize].name.as_bytes());
    }
    pieces.text(sink, b"\n".as_slice());
}

// a blank and a name
fn put_name<K: Sink>(pieces: &mut Pieces, sink: &mut K, name: &[u8])
    ensures { PutsText K.written K.faults K.stalls K.terms sink.old pieces.old sink.new pieces.new
        (spaced (name.now ∷ [])) }
{
    pieces.text(sink, b" ".as_slice());
    pieces.text(sink, name);
}

// ratio number i is that of ply i % plies under case i / plies
fn put_ratios<K: Sink>(pieces: &mut Pieces, sink: &mut K, plies: usize, ratios: &[u16])
    requires some { 1 ≤ plies }
    requires few { plies ≤ 64 }
    requires many { length ratios.now ≤ 16 * plies }
    ensures { PutsText K.written K.faults K.stalls K.terms sink.old pieces.old sink.new pieces.new
        (text_of (numbered (λ i r. ratio_line (i / plies) (i % plies) r) 0 ratios.now)) }
{
    for (i, ratio) in ratios.iter().enumerate() {
        let line = line_of_ratio((i / plies) as u8, (i % plies) as u8, *ratio);
        pieces.line(sink, line.bytes());
    }
}

fn put_panels<K: Sink>(pieces: &mut Pieces, sink: &mut K, panels: &[u16])
    requires { length panels.now ≤ 8 }
    ensures { PutsText K.written K.faults K.stalls K.terms sink.old pieces.old sink.new pieces.new
        (text_of (numbered (λ k r. panel_line k (ratio_text r)) 0 panels.now)) }
{
    for (k, ratio) in panels.iter().enumerate() {
        let line = line_of_panel(k as u8, ratio_word(*ratio).bytes());
        pieces.line(sink, line.bytes());
    }
}

// the schedule that straddles, if the answer names one
fn put_near<K: Sink>(pieces: &mut Pieces, sink: &mut K, stock: &Stock, answer: &Answer)
    requires { IsNamed stock.now answer.now }
    ensures { PutsText K.written K.faults K.stalls K.terms sink.old pieces.old sink.new pieces.new
        (text_of (near_lines stock.now answer.now)) }
{
    match answer {
        Answer::Least => {}
        Answer::NoneMeets => {}
        Answer::OpenBudget => {}
        Answer::OpenStraddle(near) => {
            let line = line_of_near(near);
            pieces.line(sink, line.bytes());
            put_names(pieces, sink, b"named".as_slice(), stock, &near.plies);
        }
    }
}

// the line of its cost and of where it straddles
fn line_of_near(near: &Near) -> Line
    requires { IsSpot near.now.at }
    ensures { result ≡ line_of (codes "near" ∷ decimal near.now.cost ∷ spot_words near.now.at) }
{
    let mut line = Line::new();
    line.word(b"near".as_slice());
    line.whole(near.cost);
    line.spot(&near.at);
    line
}

fn put_tree<K: Sink>(pieces: &mut Pieces, sink: &mut K, nodes: &[Node])
    requires { All (IsNode 64) nodes.now }
    ensures { PutsText K.written K.faults K.stalls K.terms sink.old pieces.old sink.new pieces.new
        (text_of (tree_lines nodes.now)) }
{
    let count = line_of_number(b"nodes".as_slice(), nodes.len() as u64);
    pieces.line(sink, count.bytes());
    for node in nodes {
        put_node(pieces, sink, node);
    }
    pieces.line(sink, b"end".as_slice());
}

fn put_node<K: Sink>(pieces: &mut Pieces, sink: &mut K, node: &Node)
    requires { IsNode 64 node.now }
    ensures { PutsText K.written K.faults K.stalls K.terms sink.old pieces.old sink.new pieces.new
        (text_of (node_line node.now ∷ [])) }
{
    let mut line = [0; 64];
    let long = write_line(node, &mut line);
    pieces.line(sink, &line[..long]);
}
