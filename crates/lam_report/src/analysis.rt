// An analysis, written.

ghost use Rattle.std.specs.Prelude.{◌≡◌, ◌≤◌, ◌<◌, ◌+◌, ◌*◌, ◌/◌, ◌%◌, ◌∷◌, [], ℕ, List, Option, codes, length, IfSome, IsErrOf};
ghost use Rattle.std.specs.Option.{option_map};
ghost use Rattle.lam_judge.specs.Judgements.{IsSchedule};
ghost use Rattle.lam_judge.specs.Printed.{ArePrinted, panel_of, ratio_of};
ghost use Rattle.lam_job.specs.Schedule.{cost_of};
ghost use Rattle.lam_outside.specs.Counts.{Rose};
ghost use Rattle.lam_outside.specs.Told.{Delivers};
ghost use Rattle.lam_report.specs.LineText.{text_of};
ghost use Rattle.lam_report.specs.ReportText.{IsAnalysis, counted, number_line, panel_line, panel_value, ratio_line, rules_line};
ghost use Rattle.lam_report.specs.inside.Pieces.{PutsText};

use crate::pieces::Pieces;
use crate::wall::{cost, wall_plies};
use crate::words::{line_of_number, line_of_panel, line_of_ratio, ratio_word};
use lam_job::Job;
use lam_judge::Room;
use lam_outside::{Sink, WriteFault};
use lam_rules::{RuleNo, breaks};
use lam_stock::{Stack, Stock};
use lam_tree::Line;

/// Writes the analysis of a schedule, in pieces of 64 bytes, the last with what is left: its cost,
/// the least rule that it breaks, and the ratios that the room holds of it. It takes no memory.
pub fn write_analysis<K: Sink>(
    job: &Job,
    stock: &Stock,
    listed: &Stack,
    room: &Room,
    sink: &mut K,
) -> Result<(), WriteFault>
    requires schedule { IsSchedule stock.now job.now listed.now }
    requires printed { ArePrinted stock.now job.now listed.now room.now }
    ensures faults_never_fall { K.faults sink.old ≤ K.faults sink.new }
    ensures stalls_never_fall { K.stalls sink.old ≤ K.stalls sink.new }
    ensures failed { IsErrOf result WriteFault.Failed
        → Rose (K.faults sink.old) (K.faults sink.new) }
    ensures took_none { IsErrOf result WriteFault.TookNone
        → Rose (K.stalls sink.old) (K.stalls sink.new) }
    ensures stalls_only_there { ¬ (IsErrOf result WriteFault.TookNone)
        → K.stalls sink.new ≡ K.stalls sink.old }
    ensures terms { K.terms sink.new ≡ K.terms sink.old }
    ensures written { (text : List ℕ)
        × IsAnalysis stock.now job.now listed.now (ratio_of room.now) (panel_of room.now) text
        × Delivers (K.written sink.old) (K.written sink.new) result text }
{
    let mut pieces = Pieces::new();
    let broken = breaks(job, stock, listed);
    put_opening(&mut pieces, sink, cost(job, stock, listed), broken);
    let plies = wall_plies(job, listed);
    put_ratios(&mut pieces, sink, job.cases.items().len(), plies, room);
    put_panels(&mut pieces, sink, job.panels.items().len(), room);
    pieces.line(sink, b"end".as_slice());
    pieces.finish(sink)
}

fn put_opening<K: Sink>(pieces: &mut Pieces, sink: &mut K, cost: u64, broken: Option<RuleNo>)
    ensures { PutsText K.written K.faults K.stalls K.terms sink.old pieces.old sink.new pieces.new
        (text_of (codes "laminate analysis 1" ∷ number_line (codes "cost") cost
        ∷ rules_line (option_map (λ rule. rule.0) broken) ∷ [])) }
{
    pieces.line(sink, b"laminate analysis 1".as_slice());
    pieces.line(sink, line_of_number(b"cost".as_slice(), cost).bytes());
    pieces.line(sink, line_of_rules(broken).bytes());
}

fn line_of_rules(broken: Option<RuleNo>) -> Line
    ensures { result ≡ rules_line (option_map (λ rule. rule.0) broken) }
{
    let mut line = Line::new();
    line.word(b"rules".as_slice());
    match broken {
        None => line.add(b"kept".as_slice()),
        Some(rule) => {
            line.add(b"broken".as_slice());
            line.whole(u64::from(rule.0));
        }
    }
    line
}

// each case in order, and each wall ply in order
fn put_ratios<K: Sink>(pieces: &mut Pieces, sink: &mut K, cases: usize, plies: usize, room: &Room)
    requires some { 1 ≤ plies }
    requires few { plies ≤ 64 }
    requires cases { cases ≤ 16 }
    requires own { room.now.plies ≡ plies }
    requires many { length room.now.ratios ≡ cases * plies }
    ensures { PutsText K.written K.faults K.stalls K.terms sink.old pieces.old sink.new pieces.new
        (text_of (counted (λ i. ratio_line (i / plies) (i % plies)
        (ratio_of room.now (i / plies) (i % plies))) 0 (cases * plies))) }
{
    for i in 0..cases * plies {
        let case = (i / plies) as u8;
        let ply = (i % plies) as u8;
        let line = line_of_ratio(case, ply, room.ratio(case, ply));
        pieces.line(sink, line.bytes());
    }
}

fn put_panels<K: Sink>(pieces: &mut Pieces, sink: &mut K, panels: usize, room: &Room)
    requires few { panels ≤ 8 }
    requires many { IfSome room.now.panels (λ ratios. length ratios ≡ panels) }
    ensures { PutsText K.written K.faults K.stalls K.terms sink.old pieces.old sink.new pieces.new
        (text_of (counted (λ k. panel_line k (panel_value (panel_of room.now k))) 0 panels)) }
{
    for k in 0..panels {
        let line = line_of_result(k as u8, room.panel(k as u8));
        pieces.line(sink, line.bytes());
    }
}

// the line of a panel with its ratio, if it has one
fn line_of_result(panel: u8, ratio: Option<u16>) -> Line
    requires { panel < 99 }
    ensures { result ≡ panel_line panel (panel_value ratio) }
{
    match ratio {
        None => line_of_panel(panel, b"unfit".as_slice()),
        Some(ratio) => line_of_panel(panel, ratio_word(ratio).bytes()),
    }
}
