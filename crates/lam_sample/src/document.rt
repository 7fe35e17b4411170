// The document of a sample's job.

ghost use Rattle.std.specs.Prelude.{◌≡◌, ◌<◌, ◌^◌, pos, codes, IfOk, OnOk, string_bytes};
ghost use Rattle.toml.specs.Data.{boolean, integer, string};
ghost use Rattle.toml.specs.View.{table_view, view};
ghost use Rattle.lam_sample.specs.inside.Bounds.{AreLoads};
ghost use Rattle.lam_sample.specs.inside.Document.{cases_data, cylinder_members, job_members, resultants_members, rules_members, with_member};

use crate::loads::Loads;
use std::alloc::{AllocError, Global};
use toml::{Table, Value};

/// The table of a job with these loads.
pub(crate) fn job_table(alloc: Global, loads: &Loads) -> Result<Table, AllocError>
    requires { AreLoads loads.now }
    ensures { IfOk result (λ t. table_view t ≡ job_members loads.now) }
{
    let mut table = Table::new(alloc);
    put(alloc, &mut table, "version", whole(1))?;
    put(alloc, &mut table, "limit", whole(10))?;
    put(alloc, &mut table, "rules", Value::Table(rules(alloc)?))?;
    put(alloc, &mut table, "case", cases(alloc, loads)?)?;
    Ok(table)
}

// puts a value at a key
fn put(alloc: Global, table: &mut Table, key: &str, value: Value) -> Result<(), AllocError>
    ensures { OnOk result (table_view table.new ≡ with_member key.now (view value) (table_view table.old)) }
{
    let key = String::from_str(alloc, key)?;
    table.insert(key, value)?;
    Ok(())
}

// a whole number
fn whole(number: u64) -> Value
    requires { number < 2 ^ 63 }
    ensures { view result ≡ integer (pos number) }
{
    Value::Integer(number as i64)
}

// a text
fn text(alloc: Global, text: &str) -> Result<Value, AllocError>
    ensures { IfOk result (λ v. view v ≡ string text.now) }
{
    Ok(Value::String(String::from_str(alloc, text)?))
}

// the rules
fn rules(alloc: Global) -> Result<Table, AllocError>
    ensures { IfOk result (λ t. table_view t ≡ rules_members) }
{
    let mut table = Table::new(alloc);
    put(alloc, &mut table, "symmetric", Value::Boolean(true))?;
    Ok(table)
}

// the cases
fn cases(alloc: Global, loads: &Loads) -> Result<Value, AllocError>
    requires { AreLoads loads.now }
    ensures { IfOk result (λ v. view v ≡ cases_data loads.now) }
{
    let mut tables = Vec::new(alloc);
    tables.push(Value::Table(cylinder(alloc, loads)?))?;
    tables.push(Value::Table(resultants(alloc, loads)?))?;
    Ok(Value::Array(tables))
}

// the case of a cylinder
fn cylinder(alloc: Global, loads: &Loads) -> Result<Table, AllocError>
    requires { AreLoads loads.now }
    ensures { IfOk result (λ t. table_view t ≡ cylinder_members loads.now) }
{
    let mut table = Table::new(alloc);
    put(alloc, &mut table, "kind", text(alloc, "cylinder")?)?;
    put(alloc, &mut table, "pressure", whole(loads.pressure))?;
    put(alloc, &mut table, "diameter", whole(loads.diameter))?;
    put(alloc, &mut table, "ends", text(alloc, "closed")?)?;
    put(alloc, &mut table, "factor", whole(4000))?;
    Ok(table)
}

// the case of resultants
fn resultants(alloc: Global, loads: &Loads) -> Result<Table, AllocError>
    requires { AreLoads loads.now }
    ensures { IfOk result (λ t. table_view t ≡ resultants_members loads.now) }
{
    let mut table = Table::new(alloc);
    put(alloc, &mut table, "kind", text(alloc, "resultants")?)?;
    put(alloc, &mut table, "nx", whole(loads.nx))?;
    put(alloc, &mut table, "nxy", whole(loads.nxy))?;
    put(alloc, &mut table, "factor", whole(3000))?;
    Ok(table)
}
