// The lines of a report, taken one after the other. A reader that answers None stays at the faulty
// line.

ghost use Rattle.std.specs.Prelude.{◌≡◌, ◌≤◌, ◌<◌, ◌*◌, ◌/◌, ◌%◌, codes, length, IfSome};
ghost use Rattle.lam_tree.specs.ReportRanges.{AreListed};
ghost use Rattle.lam_tree.specs.inside.LineReading.{first_named, node_of};
ghost use Rattle.lam_report.specs.inside.HeadReading.{is_text, kinds, names_in, near_in, number_in, panel_in, ratio_in};
ghost use Rattle.lam_report.specs.inside.Gives.{ReadsLine};
ghost use Rattle.lam_report.specs.inside.Reading.{line_at};

use crate::lines::Lines;
use crate::spelled::{
    AnswerKind, kind_in, names_of_line, near_of_line, number_of_line, ratio_of_line,
    ratio_of_panel_line,
};
use lam_stock::{Stack, Stock};
use lam_tree::{Node, Spot, read_line};
use std::alloc::Global;

pub(crate) fn take_text(lines: &mut Lines, text: &[u8]) -> Option<()>
    ensures { ReadsLine result lines.old lines.new (line_at (is_text text.now) lines.old.lines) }
{
    let (line, rest) = lines.next()?;
    if line != text {
        return None;
    }
    lines.go_on(rest);
    Some(())
}

pub(crate) fn take_number(lines: &mut Lines, word: &[u8], low: u64, high: u64) -> Option<u64>
    ensures read { ReadsLine result lines.old lines.new
        (line_at (number_in word.now low high) lines.old.lines) }
    ensures most { IfSome result (λ n. n ≤ high) }
{
    let (line, rest) = lines.next()?;
    let n = number_of_line(word, low, high, line)?;
    lines.go_on(rest);
    Some(n)
}

pub(crate) fn take_kind(lines: &mut Lines) -> Option<AnswerKind>
    ensures { ReadsLine result lines.old lines.new (line_at (first_named kinds) lines.old.lines) }
{
    let (line, rest) = lines.next()?;
    let kind = kind_in(line)?;
    lines.go_on(rest);
    Some(kind)
}

pub(crate) fn take_names(
    lines: &mut Lines,
    word: &[u8],
    stock: &Stock,
    alloc: Global,
) -> Option<Stack>
    ensures read { ReadsLine result lines.old lines.new
        (line_at (names_in word.now stock.now) lines.old.lines) }
    ensures range { IfSome result (AreListed stock.now) }
{
    let (line, rest) = lines.next()?;
    let plies = names_of_line(word, stock, alloc, line)?;
    lines.go_on(rest);
    Some(plies)
}

pub(crate) fn take_ratio(lines: &mut Lines, case: u64, ply: u64) -> Option<u16>
    requires case { case < 100 }
    requires ply { ply < 100 }
    ensures { ReadsLine result lines.old lines.new (line_at (ratio_in case ply) lines.old.lines) }
{
    let (line, rest) = lines.next()?;
    let ratio = ratio_of_line(case, ply, line)?;
    lines.go_on(rest);
    Some(ratio)
}

pub(crate) fn take_panel(lines: &mut Lines, panel: u64) -> Option<u16>
    requires { panel < 100 }
    ensures { ReadsLine result lines.old lines.new (line_at (panel_in panel) lines.old.lines) }
{
    let (line, rest) = lines.next()?;
    let ratio = ratio_of_panel_line(panel, line)?;
    lines.go_on(rest);
    Some(ratio)
}

pub(crate) fn take_near(lines: &mut Lines) -> Option<(u64, Spot)>
    ensures { ReadsLine result lines.old lines.new (line_at near_in lines.old.lines) }
{
    let (line, rest) = lines.next()?;
    let near = near_of_line(line)?;
    lines.go_on(rest);
    Some(near)
}

pub(crate) fn take_node(lines: &mut Lines, items: u8) -> Option<Node>
    ensures { ReadsLine result lines.old lines.new (line_at (node_of items) lines.old.lines) }
{
    let (line, rest) = lines.next()?;
    let node = node_of_line(line, items)?;
    lines.go_on(rest);
    Some(node)
}

// the node whose line this is
fn node_of_line(line: &[u8], items: u8) -> Option<Node>
    ensures { result ≡ node_of items line.now }
{
    read_line(line, items).ok()
}
