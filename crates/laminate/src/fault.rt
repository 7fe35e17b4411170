//! The faults that end a run, with their lines and their statuses.

ghost use Rattle.std.specs.Prelude.{◌≡◌, Some};
ghost use Rattle.laminate.specs.Faults.{fault_status, fault_text, job_text, report_text, schedule_text, stock_text};

use crate::status::Status;
use lam_check::CheckFault;
use lam_job::JobFault;
use lam_report::ReportFault;
use lam_stock::StockFault;
use std::fmt;

// The words of causes, files and places.
mod cause_words;

use cause_words::{
    Key, Number, job_cause_word, number_shown, report_cause_word, report_line, source_word,
    stock_cause_word, table_word,
};

/// A file that a run takes.
#[derive(Clone, Copy, Debug, PartialEq, Eq)]
pub enum Source {
    Job,
    Catalogue,
    Report,
}

/// Why a schedule word is refused. Names and cases are counted from 1.
#[derive(Clone, Copy, Debug, PartialEq, Eq)]
pub enum ScheduleFault {
    /// It is empty.
    Empty,
    /// It has more names than a schedule may list plies.
    Many,
    /// A name is that of no item of the catalogue.
    Name(u8),
    /// A load is out of range for the wall.
    Range(u8),
}

/// Why a report is refused, with its line, counted from 1.
#[derive(Clone, Copy, Debug, PartialEq, Eq)]
pub enum ReportRefusal {
    /// It stops being a report of the job and the catalogue.
    Form(ReportFault),
    /// It is one, and something that it says is wrong.
    Cause(CheckFault),
}

/// Why an order has no answer.
#[derive(Clone, Copy, Debug)]
pub enum Fault {
    /// The words have no reading.
    Usage,
    /// The file could not be read.
    CannotRead(Source),
    /// The file is longer than its limit.
    TooLong(Source),
    /// The catalogue has a first cause to be refused.
    Catalogue(StockFault),
    /// The job has a first cause to be refused.
    Job(JobFault),
    /// The schedule word is refused.
    Schedule(ScheduleFault),
    /// The report is refused.
    Report(ReportRefusal),
}

/// What ends the work on an order: a fault that is written, or want of memory.
#[derive(Clone, Copy, Debug)]
pub enum Stop {
    Fault(Fault),
    Memory,
}

impl Fault {
    /// The status that a run ends with at this fault.
    pub fn status(&self) -> Status
        ensures { result ≡ fault_status self.now }
    {
        match self {
            Fault::Usage => Status::Usage,
            Fault::CannotRead(_) => Status::ReadFault,
            Fault::TooLong(_) | Fault::Catalogue(_) | Fault::Job(_) | Fault::Schedule(_) => {
                Status::Refused
            }
            Fault::Report(_) => Status::ReportRefused,
        }
    }
}

impl fmt::Display for Fault {
    ghost output = { λ f. Some (fault_text f) };

    /// The fault's line, without its end.
    fn fmt<W: fmt::Write>(&self, f: &mut fmt::Formatter<W>) -> fmt::Result {
        match self {
            Fault::Usage => write!(
                f,
                "usage: laminate design JOB CATALOGUE | analyse JOB CATALOGUE SCHEDULE | check JOB CATALOGUE REPORT | sample N; options of design and sample: --guide cheapest|thickest|learner, --nodes N"
            ),
            Fault::CannotRead(file) => {
                let file = source_word(*file);
                write!(f, "cannot read {file}")
            }
            Fault::TooLong(file) => {
                let file = source_word(*file);
                write!(f, "refused {file}: too long")
            }
            Fault::Catalogue(fault) => {
                let why = StockLine(*fault);
                write!(f, "refused catalogue: {why}")
            }
            Fault::Job(fault) => {
                let why = JobLine(*fault);
                write!(f, "refused job: {why}")
            }
            Fault::Schedule(fault) => write!(f, "refused schedule: {fault}"),
            Fault::Report(refusal) => {
                let why = ReportLine(*refusal);
                write!(f, "refused report: {why}")
            }
        }
    }
}

/// What a line says of a catalogue's fault.
#[derive(Clone, Copy)]
struct StockLine(StockFault);

impl fmt::Display for StockLine {
    ghost output = { λ line. Some (stock_text line.0) };

    fn fmt<W: fmt::Write>(&self, f: &mut fmt::Formatter<W>) -> fmt::Result {
        let row = self.0.row;
        let cause = stock_cause_word(self.0.cause);
        write!(f, "record {row} {cause}")
    }
}

/// What a line says of a job's fault.
#[derive(Clone, Copy)]
struct JobLine(JobFault);

impl fmt::Display for JobLine {
    ghost output = { λ line. Some (job_text line.0) };

    fn fmt<W: fmt::Write>(&self, f: &mut fmt::Formatter<W>) -> fmt::Result {
        let JobFault { place, cause } = self.0;
        let table = table_word(place.table);
        let number = Number(number_shown(place.table, place.number));
        let key = Key(place.key);
        let cause = job_cause_word(cause);
        write!(f, "{table}{number}{key} {cause}")
    }
}

/// What a line says of why a report is refused.
#[derive(Clone, Copy)]
struct ReportLine(ReportRefusal);

impl fmt::Display for ReportLine {
    ghost output = { λ line. Some (report_text line.0) };

    fn fmt<W: fmt::Write>(&self, f: &mut fmt::Formatter<W>) -> fmt::Result {
        let line = report_line(self.0);
        let cause = report_cause_word(self.0);
        write!(f, "line {line} {cause}")
    }
}

impl fmt::Display for ScheduleFault {
    ghost output = { λ fault. Some (schedule_text fault) };

    fn fmt<W: fmt::Write>(&self, f: &mut fmt::Formatter<W>) -> fmt::Result {
        match self {
            ScheduleFault::Empty => write!(f, "empty"),
            ScheduleFault::Many => write!(f, "many"),
            ScheduleFault::Name(number) => write!(f, "name {number}"),
            ScheduleFault::Range(number) => write!(f, "range {number}"),
        }
    }
}
