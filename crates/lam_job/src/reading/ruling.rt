// The rules of a job.

ghost use Rattle.std.specs.Prelude.{◌<◌, length, map, option_map, All, IfOk, IfSome};
ghost use Rattle.std.specs.Option.{option_or};
ghost use Rattle.toml.specs.View.{table_view, view};
ghost use Rattle.lam_job.specs.JobOf as spec;
ghost use Rattle.lam_job.specs.Keys as rows;
ghost use Rattle.lam_job.specs.inside.Tells.{Tells, TellsJob};

use crate::entries::Entries;
use crate::fault::{JobCause, JobError, JobFault, JobKey, JobPlace, JobTable};
use crate::limits::{GREATEST_ASKED_THICKNESS, MOST_NAMES};
use crate::reading::counts::counts_at;
use crate::reading::tables::{only, under};
use crate::reading::texts::{fault_at, the};
use crate::reading::values::{
    Range, Sizes, has_few_items, items_if, plies_if, set_of, truth_at, whole_if,
};
use crate::rules::{ItemSet, RuleSet};
use lam_stock::Stock;
use std::alloc::Global;
use toml::{Table, Value};

/// The numbers of names of a set of items.
const SETS: Sizes = Sizes {
    least: 1,
    most: MOST_NAMES,
};

/// The thicknesses that may be asked for, in µm.
const THICKNESSES: Range = Range {
    least: 1,
    greatest: GREATEST_ASKED_THICKNESS,
};

/// The rules, with their counts.
pub fn rules_at(alloc: Global, value: Option<&Value>, stock: &Stock) -> Result<RuleSet, JobError>
    ensures { TellsJob result
        (spec.optional (spec.rules_fault stock.now) (option_map (λ v. view v.now) value.entry))
        (spec.rules_of stock.now (spec.table_in (option_map (λ v. view v.now) value.entry))) }
{
    match value {
        None => Ok(RuleSet {
            inner: None,
            outer: None,
            symmetric: false,
            balanced: false,
            run: None,
            fewest: None,
            thickness: None,
            counts: Entries::of(Vec::new(alloc)),
        }),
        Some(value) => match value.as_table() {
            None => Err(JobError::Refused(fault_at(
                the(JobTable::Rules),
                JobKey::Other,
                JobCause::Kind,
            ))),
            Some(table) => rules_in(alloc, table, stock),
        },
    }
}

// the rules that a table is
fn rules_in(alloc: Global, table: &Table, stock: &Stock) -> Result<RuleSet, JobError>
    ensures { TellsJob result (spec.rules_in_fault stock.now (table_view table.now))
        (spec.rules_of stock.now (table_view table.now)) }
{
    let place = the(JobTable::Rules);
    let inner = set_if(alloc, table, place, JobKey::Inner, stock)?;
    let outer = set_if(alloc, table, place, JobKey::Outer, stock)?;
    let symmetric = truth_at(table, place, JobKey::Symmetric)?;
    let balanced = truth_at(table, place, JobKey::Balanced)?;
    let run = plies_if(table, place, JobKey::Run)?;
    let fewest = plies_if(table, place, JobKey::Fewest)?;
    let thickness = whole_if(table, place, JobKey::Thickness, &THICKNESSES)?;
    only(
        table,
        place,
        &[
            JobKey::Inner,
            JobKey::Outer,
            JobKey::Symmetric,
            JobKey::Balanced,
            JobKey::Run,
            JobKey::Fewest,
            JobKey::Thickness,
        ],
        &[JobTable::Counts],
    )?;
    let counts = counts_at(alloc, under(table, JobTable::Counts), stock)?;
    Ok(RuleSet {
        inner,
        outer,
        symmetric,
        balanced,
        run,
        fewest,
        thickness,
        counts,
    })
}

// the set of items that the list at a key names, where the key is there
fn set_if(
    alloc: Global,
    table: &Table,
    place: JobPlace,
    key: JobKey,
    stock: &Stock,
) -> Result<Option<ItemSet>, JobFault>
    ensures tells { Tells result
        (spec.row_fault place (rows.may key (rows.some_items stock.now)) (table_view table.now))
        (spec.set_if stock.now key (table_view table.now)) }
    ensures some { IfOk result (λ found. IfSome found (λ set. 0 < set.0)) }
{
    has_few_items(stock);
    match items_if(alloc, table, place, key, stock, &SETS)? {
        Some(items) => Ok(Some(set_of(items.items()))),
        None => Ok(None),
    }
}
