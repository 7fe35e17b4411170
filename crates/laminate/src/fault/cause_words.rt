//! The words of causes, files and places in a fault's line.

ghost use Rattle.std.specs.Prelude.{◌≡◌, Some};
ghost use Rattle.lam_job.specs.Keys as keys;
ghost use Rattle.laminate.specs.Faults as spec;

use crate::fault::{ReportRefusal, Source};
use lam_check::CheckCause;
use lam_job::{JobCause, JobKey, JobTable};
use lam_stock::StockCause;
use std::fmt;

/// The word of a file.
pub fn source_word(file: Source) -> &'static str
    ensures { result.now ≡ spec.source_text file }
{
    match file {
        Source::Job => "job",
        Source::Catalogue => "catalogue",
        Source::Report => "report",
    }
}

/// The word that a catalogue's cause is printed as.
pub fn stock_cause_word(cause: StockCause) -> &'static str
    ensures { result.now ≡ spec.cause_text cause }
{
    match cause {
        StockCause::Empty => "empty",
        StockCause::Header => "header",
        StockCause::Many => "many",
        StockCause::Fields => "fields",
        StockCause::Name => "name",
        StockCause::Twice => "twice",
        StockCause::Kind => "kind",
        StockCause::Number => "number",
        StockCause::Range => "range",
        StockCause::Poisson => "poisson",
        StockCause::Ratio => "ratio",
        StockCause::Cross => "f12",
        StockCause::Slack => "slack",
        StockCause::Unit => "unit",
        StockCause::Half => "half",
        StockCause::NoItem => "none",
        StockCause::Spread => "spread",
    }
}

/// The word that a job's cause is printed as.
pub fn job_cause_word(cause: JobCause) -> &'static str
    ensures { result.now ≡ spec.job_cause_text cause }
{
    match cause {
        JobCause::Text => "text",
        JobCause::Missing => "missing",
        JobCause::Kind => "kind",
        JobCause::Range => "range",
        JobCause::Item => "item",
        JobCause::Unknown => "unknown",
    }
}

/// The number of the line of a report at which it is refused.
pub fn report_line(refusal: ReportRefusal) -> u32
    ensures { result ≡ spec.report_line refusal }
{
    match refusal {
        ReportRefusal::Form(fault) => fault.line,
        ReportRefusal::Cause(fault) => fault.line,
    }
}

/// The word that the cause of a report's refusal is printed as.
pub fn report_cause_word(refusal: ReportRefusal) -> &'static str
    ensures { result.now ≡ spec.report_cause_text refusal }
{
    match refusal {
        ReportRefusal::Form(_) => "form",
        ReportRefusal::Cause(fault) => check_cause_word(fault.cause),
    }
}

fn check_cause_word(cause: CheckCause) -> &'static str
    ensures { result.now ≡ spec.check_cause_text cause }
{
    match cause {
        CheckCause::Cost => "cost",
        CheckCause::Best => "best",
        CheckCause::Ratio => "ratio",
        CheckCause::Near => "near",
        CheckCause::Order => "order",
        CheckCause::Unlawful => "unlawful",
        CheckCause::Leaf => "leaf",
        CheckCause::Budget => "budget",
        CheckCause::Answer => "answer",
    }
}

/// The word of a table of a job.
pub fn table_word(table: JobTable) -> &'static str
    ensures { result.now ≡ keys.table_text table }
{
    match table {
        JobTable::Top => "top",
        JobTable::Liner => "liner",
        JobTable::Rules => "rules",
        JobTable::Counts => "counts",
        JobTable::Case => "case",
        JobTable::Panel => "panel",
    }
}

/// The number that a place is printed with: that of a case or a panel, and else 0.
pub fn number_shown(table: JobTable, number: u16) -> u16
    ensures { result ≡ spec.number_shown table number }
{
    match table {
        JobTable::Case | JobTable::Panel => number,
        JobTable::Top | JobTable::Liner | JobTable::Rules | JobTable::Counts => 0,
    }
}

/// A number behind a blank, or nothing where it is 0.
#[derive(Clone, Copy)]
pub struct Number(pub u16);

impl fmt::Display for Number {
    ghost output = { λ number. Some (spec.number_text number.0) };

    fn fmt<W: fmt::Write>(&self, f: &mut fmt::Formatter<W>) -> fmt::Result {
        let number = self.0;
        if number == 0 {
            return Ok(());
        }
        write!(f, " {number}")
    }
}

/// The word of a key of a job behind a blank, or nothing where there is no key.
#[derive(Clone, Copy)]
pub struct Key(pub JobKey);

impl fmt::Display for Key {
    ghost output = { λ key. Some (spec.after_blank (keys.key_text key.0)) };

    fn fmt<W: fmt::Write>(&self, f: &mut fmt::Formatter<W>) -> fmt::Result {
        let word = key_word(self.0);
        if word.is_empty() {
            return Ok(());
        }
        write!(f, " {word}")
    }
}

/// The word of a key of a job, empty where there is no key.
fn key_word(key: JobKey) -> &'static str
    ensures { result.now ≡ keys.key_text key }
{
    match key {
        JobKey::Other => "",
        JobKey::Version => "version",
        JobKey::Limit => "limit",
        JobKey::Plies => "plies",
        JobKey::InWall => "in_wall",
        JobKey::Inner => "inner",
        JobKey::Outer => "outer",
        JobKey::Symmetric => "symmetric",
        JobKey::Balanced => "balanced",
        JobKey::Run => "run",
        JobKey::Fewest => "fewest",
        JobKey::Thickness => "thickness",
        JobKey::Count => "count",
        JobKey::Kind => "kind",
        JobKey::Nx => "nx",
        JobKey::Ny => "ny",
        JobKey::Nxy => "nxy",
        JobKey::Mx => "mx",
        JobKey::My => "my",
        JobKey::Mxy => "mxy",
        JobKey::Pressure => "pressure",
        JobKey::Diameter => "diameter",
        JobKey::Ends => "ends",
        JobKey::Axial => "axial",
        JobKey::Factor => "factor",
        JobKey::Length => "length",
        JobKey::Width => "width",
        JobKey::Load => "load",
    }
}
