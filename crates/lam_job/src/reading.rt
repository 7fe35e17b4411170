// How the bytes of a job are read.

ghost use Rattle.std.specs.Prelude.{unsigned_abs, IfOk};
ghost use Rattle.toml.specs.View.{table_view};
ghost use Rattle.lam_job.specs.JobOf as spec;
ghost use Rattle.lam_job.specs.JobOf.{GivesJob};
ghost use Rattle.lam_job.specs.Keys as rows;
ghost use Rattle.lam_job.specs.Ranges.{IsPlyNumber};
ghost use Rattle.lam_job.specs.inside.Tells.{Tells, TellsJob};

use crate::fault::{JobCause, JobError, JobFault, JobKey, JobTable};
use crate::job::Job;
use crate::reading::cases::cases_at;
use crate::reading::liner::liner_at;
use crate::reading::panels::panels_at;
use crate::reading::ruling::rules_at;
use crate::reading::tables::{only, under};
use crate::reading::texts::{fault_at, the};
use crate::reading::values::{VERSIONS, plies_at, whole_at};
use lam_stock::Stock;
use std::alloc::Global;
use toml::Table;

// the texts of keys, and faults at places
mod texts;
// what stands at the keys of a table
mod tables;
// numbers, truth values, texts and lists of names
mod values;
// the liner
mod liner;
// the counts of the rules
mod counts;
// the rules
mod ruling;
// the cases of load
mod cases;
// the panels
mod panels;

/// Reads a job from the bytes of its file, beside a catalogue. Answers the job, or the first fault that it is refused
/// for, or want of memory.
pub fn read_job(alloc: Global, bytes: &[u8], stock: &Stock) -> Result<Job, JobError>
    ensures { GivesJob result (spec.job_of bytes.now stock.now) }
{
    match toml::table_from_slice(alloc, bytes) {
        Ok(table) => job_in(alloc, &table, stock),
        Err(error) => {
            if error.is_memory() {
                return Err(JobError::Memory);
            }
            Err(JobError::Refused(fault_at(the(JobTable::Top), JobKey::Other, JobCause::Text)))
        }
    }
}

// the job that the table of a document is
fn job_in(alloc: Global, table: &Table, stock: &Stock) -> Result<Job, JobError>
    ensures { TellsJob result (spec.job_fault stock.now (table_view table.now))
        (spec.data_of stock.now (table_view table.now)) }
{
    let limit = limit_in(table)?;
    let (liner, liner_in_wall) = liner_at(alloc, under(table, JobTable::Liner), stock)?;
    let rules = rules_at(alloc, under(table, JobTable::Rules), stock)?;
    let cases = cases_at(alloc, under(table, JobTable::Case))?;
    let panels = panels_at(alloc, under(table, JobTable::Panel))?;
    Ok(Job {
        limit,
        liner,
        liner_in_wall,
        rules,
        cases,
        panels,
    })
}

// the limit that a document states, at its top
fn limit_in(table: &Table) -> Result<u8, JobFault>
    ensures tells { Tells result
        (spec.table_fault (spec.the JobTable.Top) rows.top_rows rows.top_tables (table_view table.now))
        (unsigned_abs (spec.number JobKey.Limit (table_view table.now))) }
    ensures range { IfOk result IsPlyNumber }
{
    let place = the(JobTable::Top);
    whole_at(table, place, JobKey::Version, &VERSIONS)?;
    let limit = plies_at(table, place, JobKey::Limit)?;
    only(
        table,
        place,
        &[JobKey::Version, JobKey::Limit],
        &[
            JobTable::Liner,
            JobTable::Rules,
            JobTable::Case,
            JobTable::Panel,
        ],
    )?;
    Ok(limit)
}

#[cfg(test)]
mod tests;
