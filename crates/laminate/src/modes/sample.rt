//! A sample: a job and a catalogue that are made from a number, a design for them, and a check of its report.

ghost use Rattle.std.specs.Prelude.{◌≡◌, ◌≤◌, ◌<◌, ◌+◌, ◌^◌, length, Ok, Some};
ghost use Rattle.lam_job.specs.JobOf.{job_of as job_spec};
ghost use Rattle.lam_sample.specs.SampleJob.{sample_job};
ghost use Rattle.lam_sample.specs.SampleStock.{sample_stock};
ghost use Rattle.lam_stock.specs.Catalogue.{stock_of as stock_spec};
ghost use Rattle.lam_tree.specs.Checks.{best_cost};
ghost use Rattle.lam_tree.specs.declared.limits.TheConstants.{MOST_NODES};
ghost use Rattle.lam_report.specs.ReportText.{report_text};
ghost use Rattle.lam_check.specs.Says.{Says};
ghost use Rattle.laminate.specs.Outside.{SinkStays, sink_seen};
ghost use Rattle.laminate.specs.inside.Budgets.{IsBudget, IsNumber};
ghost use Rattle.laminate.specs.Sampling.{summary_text};
ghost use Rattle.laminate.specs.inside.Sampled.{HasRoom, IsDesignOf, IsDesigned, IsMade, IsOwn, IsSaid, IsSummary, IsWordOf, SamplesTo, word_text};

use crate::fault::Stop;
use crate::input::{Input, job_of, stock_of};
use crate::modes::design::{Design, design_of, status_of};
use crate::status::Status;
use crate::top::write_text;
use lam_check::Accepted;
use lam_guide::Guide;
use lam_judge::Room;
use lam_outside::{MemorySink, Sink};
use lam_report::{MOST_BYTES, reports_are_short, reports_are_spelled_once, write_report};
use lam_sample::sample_texts;
use lam_stream::{Refusal, check_bytes};
use lam_tree::{Answer, Report};
use std::alloc::Global;
use std::fmt;

/// Makes the job and the catalogue of a number, searches in a budget of nodes for the cheapest schedule that meets the job,
/// writes the report into memory and checks it there, and writes one line. The guide hears of each node, and of no more
/// than the budget.
pub fn answer<K: Sink>(
    alloc: Global,
    sink: &mut K,
    number: u32,
    nodes: u32,
    guide: &mut Box<dyn Guide>,
) -> Result<Status, Stop>
    requires number { IsNumber number }
    requires budget { IsBudget nodes }
    requires quiet { heard_count guide.old < 2 ^ 62 }
    ensures steady { SinkStays (sink_seen K.written K.faults K.stalls K.terms sink.old)
        (sink_seen K.written K.faults K.stalls K.terms sink.new) }
    ensures samples { SamplesTo number nodes result
        (sink_seen K.written K.faults K.stalls K.terms sink.old)
        (sink_seen K.written K.faults K.stalls K.terms sink.new) sink.old sink.new }
    ensures rose { heard_count guide.old ≤ heard_count guide.new }
    ensures bounded { heard_count guide.new ≤ heard_count guide.old + nodes }
{
    match designed(alloc, number, nodes, guide) {
        Err(stop) => Err(stop),
        Ok(design) => match checked_line(alloc, number, nodes, &design) {
            Err(stop) => Err(stop),
            Ok(line) => Ok(write_text(status_of(&design.report.answer), line.as_bytes(), sink)),
        },
    }
}

/// The design of the job and the catalogue of a number.
fn designed(
    alloc: Global,
    number: u32,
    nodes: u32,
    guide: &mut Box<dyn Guide>,
) -> Result<Design, Stop>
    requires number { IsNumber number }
    requires budget { IsBudget nodes }
    requires quiet { heard_count guide.old < 2 ^ 62 }
    ensures so { IsDesigned number nodes result }
    ensures rose { heard_count guide.old ≤ heard_count guide.new }
    ensures bounded { heard_count guide.new ≤ heard_count guide.old + nodes }
{
    match sample_of(alloc, number) {
        Err(stop) => Err(stop),
        Ok(input) => match design_of(alloc, input, nodes, guide) {
            Ok(design) => Ok(design),
            Err(_) => Err(Stop::Memory),
        },
    }
}

/// The job and the catalogue of a number, read of their texts.
fn sample_of(alloc: Global, number: u32) -> Result<Input, Stop>
    requires { IsNumber number }
    ensures { IsMade number result }
{
    match sample_texts(alloc, number) {
        Err(_) => Err(Stop::Memory),
        Ok((job, catalogue)) => made_of(alloc, number, job.as_bytes(), catalogue.as_bytes()),
    }
}

/// The same, of the two texts.
fn made_of(alloc: Global, number: u32, job: &[u8], catalogue: &[u8]) -> Result<Input, Stop>
    requires catalogue { stock_spec catalogue.now ≡ Ok (sample_stock number) }
    requires job { job_spec job.now (sample_stock number) ≡ Ok (sample_job number) }
    ensures { IsMade number result }
{
    match stock_of(alloc, catalogue) {
        Err(stop) => Err(stop),
        Ok(stock) => match job_of(alloc, job, &stock) {
            Err(stop) => Err(stop),
            Ok(job) => Ok(Input { stock, job }),
        },
    }
}

/// Checks the report of a design, and gives the line that says so.
fn checked_line(alloc: Global, number: u32, nodes: u32, design: &Design) -> Result<String, Stop>
    requires budget { IsBudget nodes }
    requires design { IsDesignOf number nodes design.now }
    ensures { IsSummary number design.now.report result }
{
    let Design { input, report } = design;
    match check_again(alloc, nodes, input, report) {
        Err(stop) => Err(stop),
        Ok(said) => line_of(alloc, number, report, said),
    }
}

/// Writes a report into memory, and checks what stands there.
fn check_again(alloc: Global, nodes: u32, input: &Input, report: &Report) -> Result<Accepted, Stop>
    requires budget { IsBudget nodes }
    requires few { length report.now.tree ≤ nodes }
    requires own { IsOwn input.now report.now }
    ensures { IsSaid report.now result }
{
    let room = 64 * nodes as usize + 65_536;
    match MemorySink::new(alloc, room, room) {
        Err(_) => Err(Stop::Memory),
        Ok(mut memory) => check_in(alloc, input, report, &mut memory),
    }
}

/// The same, in an empty sink with room for the report.
fn check_in(
    alloc: Global,
    input: &Input,
    report: &Report,
    memory: &mut MemorySink,
) -> Result<Accepted, Stop>
    requires own { IsOwn input.now report.now }
    requires room { HasRoom report.now memory.old }
    ensures { IsSaid report.now result }
{
    reports_are_short(&input.job, &input.stock, report);
    let outcome = write_report(&input.job, &input.stock, report, memory);
    let text = memory.written();
    match outcome {
        Ok(()) => check_text(alloc, input, report, text),
        Err(_) => unreachable!(),
    }
}

/// Checks the text of a report, which is accepted.
fn check_text(alloc: Global, input: &Input, report: &Report, text: &[u8]) -> Result<Accepted, Stop>
    requires own { IsOwn input.now report.now }
    requires text { text.now ≡ report_text input.now.stock input.now.job report.now }
    requires short { length text.now ≤ MOST_BYTES }
    ensures { IsSaid report.now result }
{
    reports_are_spelled_once(&input.job, &input.stock);
    match Room::new(alloc) {
        Err(_) => Err(Stop::Memory),
        Ok(mut room) => match check_bytes(alloc, &input.job, &input.stock, text, &mut room) {
            Ok(said) => Ok(said),
            Err(Refusal::Memory) => Err(Stop::Memory),
            Err(_) => unreachable!(),
        },
    }
}

/// What a sample found, in short.
#[derive(Clone, Copy)]
enum Word {
    Least(u64),
    NoneMeets,
    OpenBudget,
    OpenStraddle,
}

/// The line on a sample.
#[derive(Clone, Copy)]
struct Summary {
    number: u32,
    word: Word,
    nodes: u32,
}

impl fmt::Display for Word {
    ghost output = { λ word. Some (word_text word) };

    fn fmt<W: fmt::Write>(&self, f: &mut fmt::Formatter<W>) -> fmt::Result {
        match self {
            Word::Least(cost) => write!(f, "least {cost}"),
            Word::NoneMeets => write!(f, "none"),
            Word::OpenBudget => write!(f, "open budget"),
            Word::OpenStraddle => write!(f, "open straddle"),
        }
    }
}

impl fmt::Display for Summary {
    ghost output = { λ s. Some (summary_text s.number (word_text s.word) s.nodes) };

    fn fmt<W: fmt::Write>(&self, f: &mut fmt::Formatter<W>) -> fmt::Result {
        let Summary {
            number,
            word,
            nodes,
        } = *self;
        write!(f, "sample {number} {word} nodes {nodes} accepted")
    }
}

/// The line on a report, of which the checker said so much.
fn line_of(alloc: Global, number: u32, report: &Report, said: Accepted) -> Result<String, Stop>
    requires said { Says report.now said }
    requires few { length report.now.tree ≤ MOST_NODES }
    ensures { IsSummary number report.now result }
{
    let summary = Summary {
        number,
        word: word_of(report, said),
        nodes: report.tree.nodes().len() as u32,
    };
    match format!(in alloc; "{summary}\n") {
        Ok(line) => Ok(line),
        Err(_) => Err(Stop::Memory),
    }
}

/// The word of a report, of which the checker said so much.
fn word_of(report: &Report, said: Accepted) -> Word
    requires { Says report.now said }
    ensures { IsWordOf report.now.answer (best_cost report.now.best) result }
{
    match said {
        Accepted::Least(cost) => Word::Least(cost),
        Accepted::NoneMeets => Word::NoneMeets,
        Accepted::Open => match report.answer {
            Answer::OpenBudget => Word::OpenBudget,
            Answer::OpenStraddle(_) => Word::OpenStraddle,
            Answer::Least | Answer::NoneMeets => unreachable!(),
        },
    }
}
