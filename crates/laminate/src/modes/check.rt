//! The check of the report in a file.

ghost use Rattle.std.specs.Prelude.{◌≡◌, Ok, Some};
ghost use Rattle.lam_job.specs.Schedule.{IsJobFor};
ghost use Rattle.lam_words.specs.Reading.{check};
ghost use Rattle.laminate.specs.Checking.{accepted_text};
ghost use Rattle.laminate.specs.Input.{within_length};
ghost use Rattle.laminate.specs.Outside.{FilesStay, IsSteady, files_seen, outside};
ghost use Rattle.laminate.specs.inside.Checked.{ChecksTaken, ChecksTo, TellsAccepted, stop_for};
ghost use Rattle.laminate.specs.inside.Steps.{Does};

use crate::fault::{Fault, ReportRefusal, Source, Stop};
use crate::input::{Input, take, take_input};
use crate::status::Status;
use crate::top::write_text;
use lam_check::Accepted;
use lam_judge::Room;
use lam_outside::{Files, Sink};
use lam_stream::{Refusal, check_bytes};
use std::alloc::Global;
use std::fmt;

/// Takes the files of an order, and checks the report.
pub fn answer<F: Files, K: Sink>(
    alloc: Global,
    files: &mut F,
    sink: &mut K,
    job: &str,
    catalogue: &str,
    report: &str,
) -> Result<Status, Stop>
    ensures steady { IsSteady (outside F.contents F.faults K.written K.faults K.stalls K.terms
        files.old files.new sink.old sink.new) }
    ensures does { Does (outside F.contents F.faults K.written K.faults K.stalls K.terms
        files.old files.new sink.old sink.new)
        (Some (check job.now catalogue.now report.now)) result }
{
    match take_input(alloc, files, job, catalogue) {
        Err(stop) => Err(stop),
        Ok(input) => match check_file(alloc, files, &input, report) {
            Err(stop) => Err(stop),
            Ok(line) => Ok(write_text(Status::Done, line.as_bytes(), sink)),
        },
    }
}

/// Takes the file of a report, and checks it; the line that says that it is accepted.
fn check_file<F: Files>(
    alloc: Global,
    files: &mut F,
    input: &Input,
    report: &str,
) -> Result<String, Stop>
    requires { IsJobFor input.now.stock input.now.job }
    ensures steady { FilesStay
        (files_seen F.contents F.faults files.old) (files_seen F.contents F.faults files.new) }
    ensures checks { ChecksTaken input.now (F.contents files.old report.now)
        (F.faults files.old report.now) (F.faults files.new report.now) result }
{
    match take(alloc, files, report, Source::Report) {
        Err(stop) => Err(stop),
        Ok(bytes) => check_report(alloc, input, bytes.items()),
    }
}

/// Checks the report that bytes spell; the line that says that it is accepted.
fn check_report(alloc: Global, input: &Input, bytes: &[u8]) -> Result<String, Stop>
    requires job_for { IsJobFor input.now.stock input.now.job }
    requires short { within_length Source.Report bytes.now ≡ Ok bytes.now }
    ensures { ChecksTo input.now bytes.now result }
{
    match Room::new(alloc) {
        Ok(mut room) => check_in(alloc, input, bytes, &mut room),
        Err(_) => Err(Stop::Memory),
    }
}

/// The same, in a room for the ratios of its best schedule.
fn check_in(alloc: Global, input: &Input, bytes: &[u8], room: &mut Room) -> Result<String, Stop>
    requires job_for { IsJobFor input.now.stock input.now.job }
    requires short { within_length Source.Report bytes.now ≡ Ok bytes.now }
    ensures { ChecksTo input.now bytes.now result }
{
    match check_bytes(alloc, &input.job, &input.stock, bytes, room) {
        Ok(said) => line_of(alloc, said),
        Err(refusal) => Err(stop_of(refusal)),
    }
}

/// What a refusal stops the order with.
fn stop_of(refusal: Refusal) -> Stop
    ensures { result ≡ stop_for refusal }
{
    match refusal {
        Refusal::Memory => Stop::Memory,
        Refusal::Form(fault) => Stop::Fault(Fault::Report(ReportRefusal::Form(fault))),
        Refusal::Cause(fault) => Stop::Fault(Fault::Report(ReportRefusal::Cause(fault))),
    }
}

/// What an accepted report says.
#[derive(Clone, Copy)]
struct Acceptance(Accepted);

impl fmt::Display for Acceptance {
    ghost output = { λ said. Some (accepted_text said.0) };

    fn fmt<W: fmt::Write>(&self, f: &mut fmt::Formatter<W>) -> fmt::Result {
        match self.0 {
            Accepted::Least(cost) => write!(f, "accepted least {cost}"),
            Accepted::NoneMeets => write!(f, "accepted none"),
            Accepted::Open => write!(f, "accepted open"),
        }
    }
}

/// The line of what an accepted report says.
fn line_of(alloc: Global, said: Accepted) -> Result<String, Stop>
    ensures { TellsAccepted said result }
{
    let said = Acceptance(said);
    match format!(in alloc; "{said}\n") {
        Ok(line) => Ok(line),
        Err(_) => Err(Stop::Memory),
    }
}
