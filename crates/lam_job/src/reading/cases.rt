// The cases of load of a job.

ghost use Rattle.std.specs.Prelude.{◌≡◌, ◌≤◌, length, map, filter_map, option_map, All, IfOk};
ghost use Rattle.toml.specs.Data.{as_table};
ghost use Rattle.toml.specs.View.{table_view, view};
ghost use Rattle.lam_job.specs.JobOf as spec;
ghost use Rattle.lam_job.specs.Keys as rows;
ghost use Rattle.lam_job.specs.Ranges.{IsCase};
ghost use Rattle.lam_job.specs.inside.Tells.{Takes, Tells, TellsJob, rest_fault};

use crate::case::{Case, CaseKind};
use crate::entries::Entries;
use crate::fault::{JobCause, JobError, JobFault, JobKey, JobPlace, JobTable};
use crate::limits::{
    GREATEST_DIAMETER, GREATEST_FORCE, GREATEST_MOMENT, GREATEST_PRESSURE, MOST_CASES,
};
use crate::reading::tables::{list, only};
use crate::reading::texts::{fault_at, numbered, the};
use crate::reading::values::{FACTORS, Range, is_first, whole_at, whole_or_zero};
use std::alloc::Global;
use toml::{Table, Value};

/// The forces, in N/m.
const FORCES: Range = Range {
    least: -GREATEST_FORCE,
    greatest: GREATEST_FORCE,
};

/// The moments, in mN.
const MOMENTS: Range = Range {
    least: -GREATEST_MOMENT,
    greatest: GREATEST_MOMENT,
};

/// The pressures, in kPa.
const PRESSURES: Range = Range {
    least: 0,
    greatest: GREATEST_PRESSURE,
};

/// The diameters, in mm.
const DIAMETERS: Range = Range {
    least: 1,
    greatest: GREATEST_DIAMETER,
};

/// The cases.
pub fn cases_at(alloc: Global, value: Option<&Value>) -> Result<Entries<Case>, JobError>
    ensures tells { TellsJob result
        (spec.cases_fault (option_map (λ v. view v.now) value.entry))
        (spec.tables_in spec.case_of (option_map (λ v. view v.now) value.entry)) }
    ensures some { IfOk result (λ cases. 1 ≤ length cases) }
    ensures few { IfOk result (λ cases. length cases ≤ 16) }
    ensures ranges { IfOk result (All IsCase) }
{
    let place = the(JobTable::Case);
    match value {
        None => Err(JobError::Refused(fault_at(place, JobKey::Other, JobCause::Missing))),
        Some(value) => match list(value) {
            None => Err(JobError::Refused(fault_at(place, JobKey::Other, JobCause::Kind))),
            Some(tables) => {
                if tables.is_empty() {
                    return Err(JobError::Refused(fault_at(place, JobKey::Other, JobCause::Range)));
                }
                if tables.len() > MOST_CASES {
                    return Err(JobError::Refused(fault_at(place, JobKey::Other, JobCause::Range)));
                }
                cases_of(alloc, tables)
            }
        },
    }
}

// the cases that some values are
fn cases_of(alloc: Global, tables: &[Value]) -> Result<Entries<Case>, JobError>
    requires { length tables.now ≤ 16 }
    ensures tells { TellsJob result (spec.tables_from JobTable.Case spec.case_fault 1 (map view tables.now))
        (filter_map (λ t. option_map spec.case_of (as_table t)) (map view tables.now)) }
    ensures number { IfOk result (λ cases. length cases ≡ length tables.now) }
    ensures ranges { IfOk result (All IsCase) }
{
    let mut cases = Vec::new(alloc);
    for value in tables {
        let place = numbered(JobTable::Case, cases.len() as u16 + 1);
        let case = case_at(value, place)?;
        cases.push(case)?;
    }
    Ok(Entries::of(cases))
}

// the case that a value is, at a place
fn case_at(value: &Value, place: JobPlace) -> Result<Case, JobFault>
    ensures takes { Takes result (spec.in_table place (spec.case_fault place) (as_table (view value.now)))
        (option_map spec.case_of (as_table (view value.now))) }
    ensures range { IfOk result IsCase }
{
    match value.as_table() {
        None => Err(fault_at(place, JobKey::Other, JobCause::Kind)),
        Some(table) => case_in(table, place),
    }
}

// the case that a table is, at a place
fn case_in(table: &Table, place: JobPlace) -> Result<Case, JobFault>
    ensures tells { Tells result (spec.case_fault place (table_view table.now)) (spec.case_of (table_view table.now)) }
    ensures range { IfOk result IsCase }
{
    match is_first(table, place, JobKey::Kind, "cylinder", "resultants") {
        Ok(true) => cylinder_in(table, place),
        Ok(false) => resultants_in(table, place),
        Err(fault) => Err(fault),
    }
}

// the case of resultants that a table is, after its kind
fn resultants_in(table: &Table, place: JobPlace) -> Result<Case, JobFault>
    ensures tells { Tells result (rest_fault place rows.resultants_rows (table_view table.now))
        (record { kind = spec.resultants_of (table_view table.now); factor = spec.number JobKey.Factor (table_view table.now) }) }
    ensures range { IfOk result IsCase }
{
    let nx = whole_or_zero(table, place, JobKey::Nx, &FORCES)?;
    let ny = whole_or_zero(table, place, JobKey::Ny, &FORCES)?;
    let nxy = whole_or_zero(table, place, JobKey::Nxy, &FORCES)?;
    let mx = whole_or_zero(table, place, JobKey::Mx, &MOMENTS)?;
    let my = whole_or_zero(table, place, JobKey::My, &MOMENTS)?;
    let mxy = whole_or_zero(table, place, JobKey::Mxy, &MOMENTS)?;
    let factor = whole_at(table, place, JobKey::Factor, &FACTORS)?;
    only(
        table,
        place,
        &[
            JobKey::Kind,
            JobKey::Nx,
            JobKey::Ny,
            JobKey::Nxy,
            JobKey::Mx,
            JobKey::My,
            JobKey::Mxy,
            JobKey::Factor,
        ],
        &[],
    )?;
    Ok(Case {
        kind: CaseKind::Resultants {
            nx,
            ny,
            nxy,
            mx,
            my,
            mxy,
        },
        factor,
    })
}

// the case of pressure on a cylinder that a table is, after its kind
fn cylinder_in(table: &Table, place: JobPlace) -> Result<Case, JobFault>
    ensures tells { Tells result (rest_fault place rows.cylinder_rows (table_view table.now))
        (record { kind = spec.cylinder_of (table_view table.now); factor = spec.number JobKey.Factor (table_view table.now) }) }
    ensures range { IfOk result IsCase }
{
    let mx = whole_or_zero(table, place, JobKey::Mx, &MOMENTS)?;
    let my = whole_or_zero(table, place, JobKey::My, &MOMENTS)?;
    let pressure = whole_at(table, place, JobKey::Pressure, &PRESSURES)?;
    let diameter = whole_at(table, place, JobKey::Diameter, &DIAMETERS)?;
    let closed = is_first(table, place, JobKey::Ends, "closed", "open")?;
    let axial = whole_or_zero(table, place, JobKey::Axial, &FORCES)?;
    let factor = whole_at(table, place, JobKey::Factor, &FACTORS)?;
    only(
        table,
        place,
        &[
            JobKey::Kind,
            JobKey::Mx,
            JobKey::My,
            JobKey::Pressure,
            JobKey::Diameter,
            JobKey::Ends,
            JobKey::Axial,
            JobKey::Factor,
        ],
        &[],
    )?;
    Ok(Case {
        kind: CaseKind::Cylinder {
            pressure,
            diameter,
            closed,
            axial,
            mx,
            my,
        },
        factor,
    })
}
