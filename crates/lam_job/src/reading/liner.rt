// The liner of a job.

ghost use Rattle.std.specs.Prelude.{◌≤◌, [], length, option_map, IfOk};
ghost use Rattle.toml.specs.View.{table_view, view};
ghost use Rattle.lam_stock.specs.Stock.{IsKnown};
ghost use Rattle.lam_job.specs.JobOf as spec;
ghost use Rattle.lam_job.specs.Keys as rows;
ghost use Rattle.lam_job.specs.inside.Tells.{Tells};

use crate::fault::{JobCause, JobFault, JobKey, JobTable};
use crate::limits::MOST_LINER_PLIES;
use crate::reading::tables::only;
use crate::reading::texts::{fault_at, the};
use crate::reading::values::{Sizes, items_if, truth_at};
use lam_stock::{Stack, Stock};
use std::alloc::Global;
use toml::{Table, Value};

/// The numbers of plies of a liner.
const LINERS: Sizes = Sizes {
    least: 0,
    most: MOST_LINER_PLIES,
};

/// The plies of the liner, and whether it carries load.
pub fn liner_at(
    alloc: Global,
    value: Option<&Value>,
    stock: &Stock,
) -> Result<(Stack, bool), JobFault>
    ensures tells { Tells result
        (spec.optional (spec.liner_fault stock.now) (option_map (λ v. view v.now) value.entry))
        (spec.liner_of stock.now (spec.table_in (option_map (λ v. view v.now) value.entry))) }
    ensures few { IfOk result (λ liner. length liner.0 ≤ 8) }
    ensures known { IfOk result (λ liner. IsKnown stock.now liner.0) }
{
    match value {
        None => Ok((Stack::new(alloc), false)),
        Some(value) => match value.as_table() {
            None => Err(fault_at(the(JobTable::Liner), JobKey::Other, JobCause::Kind)),
            Some(table) => liner_in(alloc, table, stock),
        },
    }
}

// the liner that a table is
fn liner_in(alloc: Global, table: &Table, stock: &Stock) -> Result<(Stack, bool), JobFault>
    ensures tells { Tells result
        (spec.table_fault (spec.the JobTable.Liner) (rows.liner_rows stock.now) [] (table_view table.now))
        (spec.liner_of stock.now (table_view table.now)) }
    ensures few { IfOk result (λ liner. length liner.0 ≤ 8) }
    ensures known { IfOk result (λ liner. IsKnown stock.now liner.0) }
{
    let place = the(JobTable::Liner);
    let plies = items_if(alloc, table, place, JobKey::Plies, stock, &LINERS)?;
    let in_wall = truth_at(table, place, JobKey::InWall)?;
    only(table, place, &[JobKey::Plies, JobKey::InWall], &[])?;
    match plies {
        Some(plies) => Ok((plies, in_wall)),
        None => Ok((Stack::new(alloc), in_wall)),
    }
}
