// The counts of the rules of a job.

ghost use Rattle.std.specs.Prelude.{◌≡◌, ◌<◌, length, map, filter_map, option_map, Some, All, IfOk};
ghost use Rattle.toml.specs.View.{table_view, view};
ghost use Rattle.lam_stock.specs.Stock.{IsKnown};
ghost use Rattle.lam_job.specs.JobOf as spec;
ghost use Rattle.lam_job.specs.Ranges.{IsPlyNumber};
ghost use Rattle.lam_job.specs.inside.Tells.{Takes, TellsJob};

use crate::entries::Entries;
use crate::fault::{JobCause, JobError, JobKey, JobTable};
use crate::reading::texts::{fault_at, numbered, the};
use crate::reading::values::{PLIES, has_few_items, item_named, whole};
use lam_stock::{ItemNo, Stock};
use std::alloc::Global;
use toml::{Table, Value};

/// The counts, in the order of their keys' bytes.
pub fn counts_at(
    alloc: Global,
    value: Option<&Value>,
    stock: &Stock,
) -> Result<Entries<(ItemNo, u8)>, JobError>
    ensures tells { TellsJob result
        (spec.optional (spec.counts_fault stock.now) (option_map (λ v. view v.now) value.entry))
        (spec.counts_of stock.now (spec.table_in (option_map (λ v. view v.now) value.entry))) }
    ensures range { IfOk result (All (λ count. IsPlyNumber count.1)) }
    ensures known { IfOk result (All (λ count. count.0.0 < length stock.now)) }
{
    match value {
        None => Ok(Entries::of(Vec::new(alloc))),
        Some(value) => match value.as_table() {
            None => Err(JobError::Refused(fault_at(
                the(JobTable::Counts),
                JobKey::Other,
                JobCause::Kind,
            ))),
            Some(table) => counts_in(alloc, table, stock),
        },
    }
}

// the counts that a table has
fn counts_in(alloc: Global, table: &Table, stock: &Stock) -> Result<Entries<(ItemNo, u8)>, JobError>
    ensures tells { TellsJob result (spec.counts_from stock.now 1 (table_view table.now))
        (spec.counts_of stock.now (table_view table.now)) }
    ensures range { IfOk result (All (λ count. IsPlyNumber count.1)) }
    ensures known { IfOk result (All (λ count. count.0.0 < length stock.now)) }
{
    has_few_items(stock);
    let mut counts = Vec::new(alloc);
    for (key, value) in table.iter() {
        match count_of(key.as_str(), value, stock) {
            Ok(count) => counts.push(count)?,
            Err(cause) => {
                let place = numbered(JobTable::Counts, counts.len() as u16 + 1);
                return Err(JobError::Refused(fault_at(place, JobKey::Count, cause)));
            }
        }
    }
    Ok(Entries::of(counts))
}

// the count that a name and a value are
fn count_of(name: &str, value: &Value, stock: &Stock) -> Result<(ItemNo, u8), JobCause>
    ensures takes { Takes result (spec.count_cause stock.now (name.now, view value.now))
        (spec.count_of stock.now (name.now, view value.now)) }
    ensures range { IfOk result (λ count. IsPlyNumber count.1) }
    ensures known { IfOk result (λ count. count.0.0 < length stock.now) }
    ensures named { IfOk result (λ count. spec.item_named stock.now name.now ≡ Some count.0) }
{
    match whole(value, &PLIES) {
        Err(cause) => Err(cause),
        Ok(plies) => match item_named(name, stock) {
            None => Err(JobCause::Item),
            Some(item) => Ok((item, plies as u8)),
        },
    }
}
