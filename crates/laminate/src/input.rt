//! The job and the catalogue of an order, taken and read once for all modes.

ghost use Rattle.std.specs.Prelude.{◌≡◌, Ok, Some, Option, List, ℕ};
ghost use Rattle.lam_job.specs.JobOf.{job_of as job_spec};
ghost use Rattle.lam_stock.specs.Catalogue.{stock_of as stock_spec};
ghost use Rattle.laminate.specs.Input.{as_fault, input_of, most_bytes, within_length};
ghost use Rattle.laminate.specs.Outside.{FilesStay, files_seen};
ghost use Rattle.laminate.specs.declared.fault.Fault.TheVariants as fault;
ghost use Rattle.laminate.specs.inside.Steps.{Gives, Takes, TakesInput};

use crate::fault::{Fault, Source, Stop};
use lam_job::{Job, JobError, read_job};
use lam_outside::{Bytes, Files, TakeFault, Taken};
use lam_stock::{Stock, StockError, read_stock};
use std::alloc::Global;

/// The greatest length of a job or a catalogue, in bytes.
pub const GREATEST_INPUT: u64 = 1_048_576;

/// The greatest length of a report, in bytes.
pub const GREATEST_REPORT: u64 = 67_108_864;

/// What the job and the catalogue of an order say.
#[derive(Drop)]
pub struct Input {
    pub stock: Stock,
    pub job: Job,
}

/// Takes the job and the catalogue of an order by their names, and reads them.
pub fn take_input<F: Files>(
    alloc: Global,
    files: &mut F,
    job: &str,
    catalogue: &str,
) -> Result<Input, Stop>
    ensures steady { FilesStay
        (files_seen F.contents F.faults files.old) (files_seen F.contents F.faults files.new) }
    ensures takes { (report : Option (List ℕ)) → TakesInput
        (files_seen F.contents F.faults files.old) (files_seen F.contents F.faults files.new)
        (record { job = Some job.now; catalogue = Some catalogue.now; report = report }) result }
{
    match take(alloc, files, job, Source::Job) {
        Err(stop) => Err(stop),
        Ok(job) => match take(alloc, files, catalogue, Source::Catalogue) {
            Err(stop) => Err(stop),
            Ok(catalogue) => read_input(alloc, job.items(), catalogue.items()),
        },
    }
}

/// Takes a file within its greatest length.
pub fn take<F: Files>(alloc: Global, files: &mut F, name: &str, file: Source) -> Result<Bytes, Stop>
    ensures steady { FilesStay
        (files_seen F.contents F.faults files.old) (files_seen F.contents F.faults files.new) }
    ensures takes { Takes file (F.contents files.old name.now)
        (F.faults files.old name.now) (F.faults files.new name.now) result }
{
    match files.take(alloc, name, greatest_length(file)) {
        Ok(Taken::Whole(bytes)) => Ok(bytes),
        Ok(Taken::TooLong) => Err(Stop::Fault(Fault::TooLong(file))),
        Err(TakeFault::Failed) => Err(Stop::Fault(Fault::CannotRead(file))),
        Err(TakeFault::Memory) => Err(Stop::Memory),
    }
}

/// The greatest length of a file.
fn greatest_length(file: Source) -> u64
    ensures { result ≡ most_bytes file }
{
    match file {
        Source::Job | Source::Catalogue => GREATEST_INPUT,
        Source::Report => GREATEST_REPORT,
    }
}

/// Reads the bytes of a catalogue and of a job, in this order.
fn read_input(alloc: Global, job: &[u8], catalogue: &[u8]) -> Result<Input, Stop>
    requires job { within_length Source.Job job.now ≡ Ok job.now }
    requires catalogue { within_length Source.Catalogue catalogue.now ≡ Ok catalogue.now }
    ensures { Gives (input_of job.now catalogue.now) result }
{
    match stock_of(alloc, catalogue) {
        Err(stop) => Err(stop),
        Ok(stock) => match job_of(alloc, job, &stock) {
            Err(stop) => Err(stop),
            Ok(job) => Ok(Input { stock, job }),
        },
    }
}

/// The items of a catalogue, of its bytes.
pub fn stock_of(alloc: Global, bytes: &[u8]) -> Result<Stock, Stop>
    ensures { Gives (as_fault fault.Catalogue (stock_spec bytes.now)) result }
{
    match read_stock(alloc, bytes) {
        Ok(stock) => Ok(stock),
        Err(StockError::Refused(fault)) => Err(Stop::Fault(Fault::Catalogue(fault))),
        Err(StockError::Memory) => Err(Stop::Memory),
    }
}

/// The job, of its bytes.
pub fn job_of(alloc: Global, bytes: &[u8], stock: &Stock) -> Result<Job, Stop>
    ensures { Gives (as_fault fault.Job (job_spec bytes.now stock.now)) result }
{
    match read_job(alloc, bytes, stock) {
        Ok(job) => Ok(job),
        Err(JobError::Refused(fault)) => Err(Stop::Fault(Fault::Job(fault))),
        Err(JobError::Memory) => Err(Stop::Memory),
    }
}
