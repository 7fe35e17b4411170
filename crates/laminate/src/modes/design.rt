//! The cheapest schedule that meets a job, with the report of the search for it.

ghost use Rattle.std.specs.Prelude.{◌≡◌, ◌≤◌, ◌<◌, ◌+◌, ◌^◌, length, IfOk, Some};
ghost use Rattle.lam_job.specs.Schedule.{IsJobFor};
ghost use Rattle.lam_report.specs.ReportText.{report_text};
ghost use Rattle.lam_tree.specs.ReportRanges.{IsReport};
ghost use Rattle.lam_words.specs.Reading.{design};
ghost use Rattle.lam_words.specs.declared.order.GuideName.{GuideName};
ghost use Rattle.laminate.specs.Design.{IsDesign, status_of as status_spec};
ghost use Rattle.laminate.specs.Outside.{IsSteady, SinkStays, outside, sink_seen};
ghost use Rattle.laminate.specs.inside.Budgets.{IsBudget};
ghost use Rattle.laminate.specs.inside.Steps.{Does, WritesText};

use crate::fault::Stop;
use crate::input::{Input, take_input};
use crate::printed::{Printed, printed_of_best};
use crate::status::Status;
use lam_guide::Guide;
use lam_outside::{Files, Sink};
use lam_report::write_report;
use lam_search::{Found, search};
use lam_tree::{Answer, Report};
use std::alloc::{AllocError, Global};

/// A design, before it is written: what it is for, and the report of the search.
#[derive(Drop)]
pub struct Design {
    pub input: Input,
    pub report: Report,
}

/// Takes the files of an order, searches in a budget of nodes for the cheapest schedule that meets
/// the job, and writes the report. The guide hears of each node, and of no more than the budget.
pub fn answer<F: Files, K: Sink>(
    alloc: Global,
    files: &mut F,
    sink: &mut K,
    job: &str,
    catalogue: &str,
    nodes: u32,
    guide: &mut Box<dyn Guide>,
) -> Result<Status, Stop>
    requires budget { IsBudget nodes }
    requires quiet { heard_count guide.old < 2 ^ 62 }
    ensures steady { IsSteady (outside F.contents F.faults K.written K.faults K.stalls K.terms
        files.old files.new sink.old sink.new) }
    ensures does { (name : GuideName) → Does (outside F.contents F.faults K.written K.faults
        K.stalls K.terms files.old files.new sink.old sink.new)
        (Some (design job.now catalogue.now (record { guide = name; nodes = nodes }))) result }
    ensures rose { heard_count guide.old ≤ heard_count guide.new }
    ensures bounded { heard_count guide.new ≤ heard_count guide.old + nodes }
{
    match take_input(alloc, files, job, catalogue) {
        Err(stop) => Err(stop),
        Ok(input) => match design_of(alloc, input, nodes, guide) {
            Err(_) => Err(Stop::Memory),
            Ok(design) => Ok(write(&design, sink)),
        },
    }
}

/// Searches for the cheapest schedule that meets a job, and reports what was found. The guide hears
/// of each node of the report.
pub fn design_of(
    alloc: Global,
    input: Input,
    nodes: u32,
    guide: &mut Box<dyn Guide>,
) -> Result<Design, AllocError>
    requires job_for { IsJobFor input.stock input.job }
    requires budget { IsBudget nodes }
    requires quiet { heard_count guide.old < 2 ^ 62 }
    ensures same { IfOk result (λ design. design.input ≡ input) }
    ensures so { IfOk result (λ design. IsDesign input.stock input.job nodes design.report) }
    ensures few { IfOk result (λ design. length design.report.tree ≤ nodes) }
    ensures heard { IfOk result (λ design. heard_count guide.new
        ≡ heard_count guide.old + length design.report.tree) }
    ensures rose { heard_count guide.old ≤ heard_count guide.new }
    ensures bounded { heard_count guide.new ≤ heard_count guide.old + nodes }
{
    let Found { answer, best, tree } = search(alloc, &input.job, &input.stock, nodes, guide)?;
    let Printed { ratios, panels } = printed_of_best(alloc, &input, &best)?;
    Ok(Design {
        input,
        report: Report {
            budget: nodes,
            answer,
            best,
            ratios,
            panels,
            tree,
        },
    })
}

/// Writes a design, and says how the run ends.
fn write<K: Sink>(design: &Design, sink: &mut K) -> Status
    requires job_for { IsJobFor design.now.input.stock design.now.input.job }
    requires report { IsReport design.now.input.stock design.now.input.job design.now.report }
    ensures steady { SinkStays (sink_seen K.written K.faults K.stalls K.terms sink.old)
        (sink_seen K.written K.faults K.stalls K.terms sink.new) }
    ensures writes { WritesText (status_spec design.now.report.answer)
        (report_text design.now.input.stock design.now.input.job design.now.report) result
        (sink_seen K.written K.faults K.stalls K.terms sink.old)
        (sink_seen K.written K.faults K.stalls K.terms sink.new) }
{
    let Design { input, report } = design;
    match write_report(&input.job, &input.stock, report, sink) {
        Ok(()) => status_of(&report.answer),
        Err(_) => Status::WriteFault,
    }
}

/// The status of an answer.
pub fn status_of(answer: &Answer) -> Status
    ensures { result ≡ status_spec answer.now }
{
    match answer {
        Answer::Least | Answer::NoneMeets => Status::Done,
        Answer::OpenBudget | Answer::OpenStraddle(_) => Status::Open,
    }
}
