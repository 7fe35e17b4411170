// A report, read.

ghost use Rattle.std.specs.Prelude.{◌≡◌, ◌≤◌, ◌+◌, ◌-◌, length};
ghost use Rattle.lam_stock.specs.Stock.{IsKnown};
ghost use Rattle.lam_tree.specs.declared.report.Report.{Report};
ghost use Rattle.lam_report.specs.LineText.{whole_lines};
ghost use Rattle.lam_report.specs.ReportGrammar.{AnswersIt, IsNotRefused, Reads, Scans, Spells};
ghost use Rattle.lam_report.specs.inside.Gives.{Gives, Passes};
ghost use Rattle.lam_report.specs.inside.ReportReading.{nodes_at, report_at, tree_at};

use crate::fault::{ReportError, ReportFault};
use crate::head::{ReadError, read_opening};
use crate::lines::{Lines, count_lines};
use crate::steps::{take_node, take_text};
use lam_job::Job;
use lam_stock::Stock;
use lam_tree::{Head, MOST_NODES, Report, Tree};
use std::alloc::Global;

/// The most bytes of a report.
pub const MOST_BYTES: usize = 67_108_864;

/// Reads the report of this job and catalogue that bytes spell. There is at most one. Where there
/// is none, the fault is at the first line with which no report goes on.
pub fn read_report(
    bytes: &[u8],
    job: &Job,
    stock: &Stock,
    alloc: Global,
) -> Result<Report, ReportError>
    requires liner { IsKnown stock.now job.now.liner }
    requires short { length bytes.now ≤ MOST_BYTES }
    ensures answers { Reads stock.now job.now bytes.now result }
    ensures only { (report : Report) → Spells stock.now job.now report bytes.now
        → AnswersIt report result }
{
    let _items = stock.items(); // names of their own
    let _cases = job.cases.items(); // at most 16
    let mut lines = Lines::of(bytes);
    match report(&mut lines, job, stock, alloc) {
        Ok(report) => {
            if lines.len() > 0 {
                return Err(ReportError::Refused(fault_at(bytes, &lines)));
            }
            Ok(report)
        }
        Err(ReadError::Refused) => Err(ReportError::Refused(fault_at(bytes, &lines))),
        Err(ReadError::Memory) => Err(ReportError::Memory),
    }
}

/// The same, but for the nodes of the tree, which are not kept: it takes memory for the lists of
/// its head alone.
pub fn scan_report(
    bytes: &[u8],
    job: &Job,
    stock: &Stock,
    alloc: Global,
) -> Result<Head, ReportError>
    requires liner { IsKnown stock.now job.now.liner }
    requires short { length bytes.now ≤ MOST_BYTES }
    ensures answers { Scans stock.now job.now bytes.now result }
    ensures only { (report : Report) → Spells stock.now job.now report bytes.now
        → IsNotRefused result }
{
    let _items = stock.items(); // names of their own
    let _cases = job.cases.items(); // at most 16
    let mut lines = Lines::of(bytes);
    match read_opening(&mut lines, job, stock, alloc) {
        Ok(opening) => {
            let at = bytes.len().saturating_sub(lines.len());
            if !passes_tree(&mut lines, stock, opening.nodes) {
                return Err(ReportError::Refused(fault_at(bytes, &lines)));
            }
            if lines.len() > 0 {
                return Err(ReportError::Refused(fault_at(bytes, &lines)));
            }
            Ok(Head {
                budget: opening.budget,
                answer: opening.answer,
                best: opening.best,
                ratios: opening.ratios,
                panels: opening.panels,
                nodes: opening.nodes,
                first: count_lines(&bytes[..at]) as u32 + 1,
                at,
            })
        }
        Err(ReadError::Refused) => Err(ReportError::Refused(fault_at(bytes, &lines))),
        Err(ReadError::Memory) => Err(ReportError::Memory),
    }
}

// the line at which reading stopped
fn fault_at(bytes: &[u8], lines: &Lines) -> ReportFault
    requires { length bytes.now ≤ MOST_BYTES }
    ensures { result.line ≡ length (whole_lines bytes.now) - length lines.now.lines + 1 }
{
    let passed = count_lines(bytes).saturating_sub(lines.count());
    ReportFault {
        line: passed as u32 + 1,
    }
}

// the whole report
#[tactic(auto, unfolding(crate::specs::inside::ReportReading::report_at))]
fn report(lines: &mut Lines, job: &Job, stock: &Stock, alloc: Global) -> Result<Report, ReadError>
    requires { IsKnown stock.now job.now.liner }
    ensures { Gives result lines.old lines.new (report_at stock.now job.now lines.old.lines) }
{
    let opening = match read_opening(lines, job, stock, alloc) {
        Ok(opening) => opening,
        Err(ReadError::Refused) => return Err(ReadError::Refused),
        Err(ReadError::Memory) => return Err(ReadError::Memory),
    };
    match tree(lines, stock, opening.nodes, alloc) {
        Ok(tree) => Ok(Report {
            budget: opening.budget,
            answer: opening.answer,
            best: opening.best,
            ratios: opening.ratios,
            panels: opening.panels,
            tree,
        }),
        Err(ReadError::Refused) => Err(ReadError::Refused),
        Err(ReadError::Memory) => Err(ReadError::Memory),
    }
}

// so many nodes, and the last line
#[tactic(auto, unfolding(crate::specs::inside::ReportReading::tree_at))]
fn tree(lines: &mut Lines, stock: &Stock, count: u32, alloc: Global) -> Result<Tree, ReadError>
    requires { count ≤ MOST_NODES }
    ensures { Gives result lines.old lines.new (tree_at stock.now count lines.old.lines) }
{
    let tree = match nodes(lines, stock, count, alloc) {
        Ok(tree) => tree,
        Err(ReadError::Refused) => return Err(ReadError::Refused),
        Err(ReadError::Memory) => return Err(ReadError::Memory),
    };
    match take_text(lines, b"end".as_slice()) {
        Some(()) => Ok(tree),
        None => Err(ReadError::Refused),
    }
}

fn nodes(lines: &mut Lines, stock: &Stock, count: u32, alloc: Global) -> Result<Tree, ReadError>
    requires { count ≤ MOST_NODES }
    ensures { Gives result lines.old lines.new (nodes_at stock.now count lines.old.lines) }
{
    let mut tree = Tree::new(alloc);
    let items = stock.items().len() as u8;
    for _place in 0..count {
        let Some(node) = take_node(lines, items) else {
            return Err(ReadError::Refused);
        };
        match tree.push(node) {
            Ok(()) => {}
            Err(_) => return Err(ReadError::Memory),
        }
    }
    Ok(tree)
}

// tells whether so many nodes and the last line stand there
#[tactic(auto, unfolding(crate::specs::inside::ReportReading::tree_at))]
fn passes_tree(lines: &mut Lines, stock: &Stock, count: u32) -> bool
    ensures { Passes result lines.old lines.new (tree_at stock.now count lines.old.lines) }
{
    if !passes_nodes(lines, stock, count) {
        return false;
    }
    match take_text(lines, b"end".as_slice()) {
        Some(()) => true,
        None => false,
    }
}

fn passes_nodes(lines: &mut Lines, stock: &Stock, count: u32) -> bool
    ensures { Passes result lines.old lines.new (nodes_at stock.now count lines.old.lines) }
{
    let items = stock.items().len() as u8;
    for _place in 0..count {
        let Some(_node) = take_node(lines, items) else {
            return false;
        };
    }
    true
}
