// The panels of a job.

ghost use Rattle.std.specs.Prelude.{◌≡◌, ◌≤◌, length, map, filter_map, option_map, All, IfOk};
ghost use Rattle.toml.specs.Data.{as_table};
ghost use Rattle.toml.specs.View.{table_view, view};
ghost use Rattle.lam_job.specs.JobOf as spec;
ghost use Rattle.lam_job.specs.Ranges.{IsPanel};
ghost use Rattle.lam_job.specs.inside.Tells.{Takes, Tells, TellsJob};

use crate::entries::Entries;
use crate::fault::{JobCause, JobError, JobFault, JobKey, JobPlace, JobTable};
use crate::limits::{GREATEST_PANEL_LOAD, GREATEST_SIDE, LEAST_SIDE, MOST_PANELS};
use crate::panel::Panel;
use crate::reading::tables::{list, only};
use crate::reading::texts::{fault_at, numbered, the};
use crate::reading::values::{FACTORS, Range, whole_at};
use std::alloc::Global;
use toml::{Table, Value};

/// The lengths and widths, in mm.
const SIDES: Range = Range {
    least: LEAST_SIDE,
    greatest: GREATEST_SIDE,
};

/// The loads, in N/m.
const LOADS: Range = Range {
    least: 1,
    greatest: GREATEST_PANEL_LOAD,
};

/// The panels.
pub fn panels_at(alloc: Global, value: Option<&Value>) -> Result<Entries<Panel>, JobError>
    ensures tells { TellsJob result
        (spec.optional spec.panels_fault (option_map (λ v. view v.now) value.entry))
        (spec.tables_in spec.panel_of (option_map (λ v. view v.now) value.entry)) }
    ensures few { IfOk result (λ panels. length panels ≤ 8) }
    ensures ranges { IfOk result (All IsPanel) }
{
    let place = the(JobTable::Panel);
    match value {
        None => Ok(Entries::of(Vec::new(alloc))),
        Some(value) => match list(value) {
            None => Err(JobError::Refused(fault_at(place, JobKey::Other, JobCause::Kind))),
            Some(tables) => {
                if tables.len() > MOST_PANELS {
                    return Err(JobError::Refused(fault_at(place, JobKey::Other, JobCause::Range)));
                }
                panels_of(alloc, tables)
            }
        },
    }
}

// the panels that some values are
fn panels_of(alloc: Global, tables: &[Value]) -> Result<Entries<Panel>, JobError>
    requires { length tables.now ≤ 8 }
    ensures tells { TellsJob result (spec.tables_from JobTable.Panel spec.panel_fault 1 (map view tables.now))
        (filter_map (λ t. option_map spec.panel_of (as_table t)) (map view tables.now)) }
    ensures number { IfOk result (λ panels. length panels ≡ length tables.now) }
    ensures ranges { IfOk result (All IsPanel) }
{
    let mut panels = Vec::new(alloc);
    for value in tables {
        let place = numbered(JobTable::Panel, panels.len() as u16 + 1);
        let panel = panel_at(value, place)?;
        panels.push(panel)?;
    }
    Ok(Entries::of(panels))
}

// the panel that a value is, at a place
fn panel_at(value: &Value, place: JobPlace) -> Result<Panel, JobFault>
    ensures takes { Takes result (spec.in_table place (spec.panel_fault place) (as_table (view value.now)))
        (option_map spec.panel_of (as_table (view value.now))) }
    ensures range { IfOk result IsPanel }
{
    match value.as_table() {
        None => Err(fault_at(place, JobKey::Other, JobCause::Kind)),
        Some(table) => panel_in(table, place),
    }
}

// the panel that a table is, at a place
fn panel_in(table: &Table, place: JobPlace) -> Result<Panel, JobFault>
    ensures tells { Tells result (spec.panel_fault place (table_view table.now)) (spec.panel_of (table_view table.now)) }
    ensures range { IfOk result IsPanel }
{
    let length = whole_at(table, place, JobKey::Length, &SIDES)?;
    let width = whole_at(table, place, JobKey::Width, &SIDES)?;
    let load = whole_at(table, place, JobKey::Load, &LOADS)?;
    let factor = whole_at(table, place, JobKey::Factor, &FACTORS)?;
    only(
        table,
        place,
        &[JobKey::Length, JobKey::Width, JobKey::Load, JobKey::Factor],
        &[],
    )?;
    Ok(Panel {
        length,
        width,
        load,
        factor,
    })
}
