// What stands at the keys of a table.

ghost use Rattle.std.specs.Prelude.{◌≡◌, map, option_map, bytes_eq};
ghost use Rattle.std.specs.List.{list_all, list_any};
ghost use Rattle.toml.specs.Data.{get_member};
ghost use Rattle.toml.specs.View.{table_view, view};
ghost use Rattle.lam_job.specs.JobOf as spec;
ghost use Rattle.lam_job.specs.Keys as rows;
ghost use Rattle.lam_job.specs.inside.Tells.{Tells};

use crate::fault::{JobCause, JobFault, JobKey, JobPlace, JobTable};
use crate::reading::texts::{fault_at, key_text, table_text};
use toml::{Table, Value};

/// The value at a key.
pub fn value_at<'a>(table: &'a Table, key: JobKey) -> Option<&'a Value>
    ensures { option_map (λ v. view v.now) result ≡ spec.value_at key (table_view table.now) }
{
    find(table, key_text(key))
}

/// The value at the key of a table.
pub fn under<'a>(table: &'a Table, of: JobTable) -> Option<&'a Value>
    ensures { option_map (λ v. view v.now) result ≡ spec.under of (table_view table.now) }
{
    find(table, table_text(of))
}

// the value at a text
fn find<'a>(table: &'a Table, text: &str) -> Option<&'a Value>
    ensures { option_map (λ v. view v.now) result ≡ get_member text.now (table_view table.now) }
{
    table.get(text)
}

/// The members of a value, where it is a list.
pub fn list(value: &Value) -> Option<&[Value]>
    ensures { option_map (λ vs. map view vs.now) result ≡ spec.as_list (view value.now) }
{
    match value.as_array() {
        Some(list) => Some(list.as_slice()),
        None => None,
    }
}

#[tactic(auto, unfolding(crate::specs::JobOf::unknown_fault))]
/// Refuses a table that has another key than those of some keys and tables.
pub fn only(
    table: &Table,
    place: JobPlace,
    keys: &[JobKey],
    tables: &[JobTable],
) -> Result<(), JobFault>
    ensures { Tells result (spec.unknown_fault place keys.now tables.now (table_view table.now)) tt }
{
    if has_only(table, keys, tables) {
        Ok(())
    } else {
        Err(fault_at(place, JobKey::Other, JobCause::Unknown))
    }
}

// tells whether each key of a table is one of some keys and tables
fn has_only(table: &Table, keys: &[JobKey], tables: &[JobTable]) -> bool
    ensures { result ≡ list_all (λ entry. spec.is_known keys.now tables.now entry.0)
        (spec.entries_of (table_view table.now)) }
{
    for (key, _) in table.iter() {
        if !is_known(keys, tables, key.as_str()) {
            return false;
        }
    }
    true
}

// tells whether a text is that of one of some keys, or of one of some tables
fn is_known(keys: &[JobKey], tables: &[JobTable], text: &str) -> bool
    ensures { result ≡ spec.is_known keys.now tables.now text.now }
{
    is_key(keys, text) || is_table(tables, text)
}

// tells whether a text is that of one of some keys
fn is_key(keys: &[JobKey], text: &str) -> bool
    ensures { result ≡ list_any (λ key. bytes_eq (rows.key_text key) text.now) keys.now }
{
    keys.iter().any(|key| key_text(*key) == text)
}

// tells whether a text is that of one of some tables
fn is_table(tables: &[JobTable], text: &str) -> bool
    ensures { result ≡ list_any (λ table. bytes_eq (rows.table_text table) text.now) tables.now }
{
    tables.iter().any(|table| table_text(*table) == text)
}
