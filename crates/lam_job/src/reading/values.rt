// The values at the keys of a table.

ghost use Rattle.std.specs.Prelude.{◌≡◌, ◌≤◌, ◌<◌, ◌∷◌, [], pos, length, map, filter_map, option_map, unsigned_abs, All, IfOk, IfSome};
ghost use Rattle.std.specs.List.{list_all};
ghost use Rattle.std.specs.Option.{is_some};
ghost use Rattle.toml.specs.Data.{as_integer, as_str};
ghost use Rattle.toml.specs.View.{table_view, view};
ghost use Rattle.lam_stock.specs.Stock.{IsKnown};
ghost use Rattle.lam_job.specs.JobOf as spec;
ghost use Rattle.lam_job.specs.Keys as rows;
ghost use Rattle.lam_job.specs.Ranges.{IsFrom, IsPlyNumber};
ghost use Rattle.lam_job.specs.inside.Tells.{Takes, Tells, first_text};

use crate::fault::{JobCause, JobFault, JobKey, JobPlace};
use crate::limits::{GREATEST_FACTOR, LEAST_FACTOR, MOST_PLIES};
use crate::reading::tables::{list, value_at};
use crate::reading::texts::fault_at;
use crate::rules::ItemSet;
use lam_stock::{ItemNo, Stack, Stock};
use std::alloc::Global;
use toml::{Table, Value};

/// The least and the greatest number that may stand at a key.
pub struct Range {
    pub least: i64,
    pub greatest: i64,
}

/// The least and the greatest number of members of a list.
pub struct Sizes {
    pub least: usize,
    pub most: usize,
}

/// The strength ratios and numbers of loads that may be asked for, in thousandths.
pub const FACTORS: Range = Range {
    least: LEAST_FACTOR,
    greatest: GREATEST_FACTOR,
};

/// The version.
pub const VERSIONS: Range = Range {
    least: 1,
    greatest: 1,
};

/// The numbers of plies.
pub const PLIES: Range = Range {
    least: 1,
    greatest: MOST_PLIES as i64,
};

/// A whole number from the least to the greatest.
pub fn whole(value: &Value, range: &Range) -> Result<i64, JobCause>
    ensures takes { Takes result (spec.form_cause (rows.whole range.now.least range.now.greatest) (view value.now))
        (as_integer (view value.now)) }
    ensures range { IfOk result (IsFrom range.now.least range.now.greatest) }
{
    match value.as_integer() {
        None => Err(JobCause::Kind),
        Some(number) => {
            if range.least <= number && number <= range.greatest {
                Ok(number)
            } else {
                Err(JobCause::Range)
            }
        }
    }
}

/// The whole number at a key that may be absent.
pub fn whole_if(
    table: &Table,
    place: JobPlace,
    key: JobKey,
    range: &Range,
) -> Result<Option<i64>, JobFault>
    ensures tells { Tells result
        (spec.row_fault place (rows.may key (rows.whole range.now.least range.now.greatest)) (table_view table.now))
        (spec.number_if key (table_view table.now)) }
    ensures range { IfOk result (λ found. IfSome found (IsFrom range.now.least range.now.greatest)) }
{
    match value_at(table, key) {
        None => Ok(None),
        Some(value) => match whole(value, range) {
            Ok(number) => Ok(Some(number)),
            Err(cause) => Err(fault_at(place, key, cause)),
        },
    }
}

/// The whole number at a key, 0 where the key is absent.
pub fn whole_or_zero(
    table: &Table,
    place: JobPlace,
    key: JobKey,
    range: &Range,
) -> Result<i64, JobFault>
    requires { IsFrom range.now.least range.now.greatest (pos 0) }
    ensures tells { Tells result
        (spec.row_fault place (rows.may key (rows.whole range.now.least range.now.greatest)) (table_view table.now))
        (spec.number key (table_view table.now)) }
    ensures range { IfOk result (IsFrom range.now.least range.now.greatest) }
{
    match whole_if(table, place, key, range)? {
        Some(number) => Ok(number),
        None => Ok(0),
    }
}

/// The whole number at a key that has to be there.
pub fn whole_at(table: &Table, place: JobPlace, key: JobKey, range: &Range) -> Result<i64, JobFault>
    ensures tells { Tells result
        (spec.row_fault place (rows.must key (rows.whole range.now.least range.now.greatest)) (table_view table.now))
        (spec.number key (table_view table.now)) }
    ensures range { IfOk result (IsFrom range.now.least range.now.greatest) }
{
    match value_at(table, key) {
        None => Err(fault_at(place, key, JobCause::Missing)),
        Some(value) => match whole(value, range) {
            Ok(number) => Ok(number),
            Err(cause) => Err(fault_at(place, key, cause)),
        },
    }
}

/// The number of plies at a key that may be absent.
pub fn plies_if(table: &Table, place: JobPlace, key: JobKey) -> Result<Option<u8>, JobFault>
    ensures tells { Tells result
        (spec.row_fault place (rows.may key rows.ply_number) (table_view table.now))
        (option_map unsigned_abs (spec.number_if key (table_view table.now))) }
    ensures range { IfOk result (λ found. IfSome found IsPlyNumber) }
{
    match whole_if(table, place, key, &PLIES)? {
        Some(number) => Ok(Some(number as u8)),
        None => Ok(None),
    }
}

/// The number of plies at a key that has to be there.
pub fn plies_at(table: &Table, place: JobPlace, key: JobKey) -> Result<u8, JobFault>
    ensures tells { Tells result
        (spec.row_fault place (rows.must key rows.ply_number) (table_view table.now))
        (unsigned_abs (spec.number key (table_view table.now))) }
    ensures range { IfOk result IsPlyNumber }
{
    let number = whole_at(table, place, key, &PLIES)?;
    Ok(number as u8)
}

/// The truth value at a key, false where the key is absent.
pub fn truth_at(table: &Table, place: JobPlace, key: JobKey) -> Result<bool, JobFault>
    ensures { Tells result (spec.row_fault place (rows.may key rows.truth) (table_view table.now))
        (spec.truth_at key (table_view table.now)) }
{
    match value_at(table, key) {
        None => Ok(false),
        Some(value) => match value.as_bool() {
            None => Err(fault_at(place, key, JobCause::Kind)),
            Some(truth) => Ok(truth),
        },
    }
}

/// Tells whether the text at a key, one of two, is the first.
pub fn is_first(
    table: &Table,
    place: JobPlace,
    key: JobKey,
    first: &str,
    second: &str,
) -> Result<bool, JobFault>
    ensures { Tells result
        (spec.row_fault place (rows.must key (rows.one_of (first.now ∷ second.now ∷ []))) (table_view table.now))
        (spec.says first.now (spec.value_at key (table_view table.now))) }
{
    match value_at(table, key) {
        None => Err(fault_at(place, key, JobCause::Missing)),
        Some(value) => match first_of_two(value, first, second) {
            Some(is_first) => Ok(is_first),
            None => Err(fault_at(place, key, JobCause::Kind)),
        },
    }
}

// tells whether a value is the first of two texts, where it is one of them
fn first_of_two(value: &Value, first: &str, second: &str) -> Option<bool>
    ensures { result ≡ first_text first.now second.now (as_str (view value.now)) }
{
    let text = value.as_str()?;
    if first == text {
        return Some(true);
    }
    if second == text {
        return Some(false);
    }
    None
}

/// The items that the list at a key names, where the key is there.
pub fn items_if(
    alloc: Global,
    table: &Table,
    place: JobPlace,
    key: JobKey,
    stock: &Stock,
    sizes: &Sizes,
) -> Result<Option<Stack>, JobFault>
    requires { sizes.now.most ≤ 64 }
    ensures tells { Tells result
        (spec.row_fault place (rows.may key (rows.names stock.now sizes.now.least sizes.now.most)) (table_view table.now))
        (spec.items_if stock.now key (table_view table.now)) }
    ensures least { IfOk result (λ found. IfSome found (λ items. sizes.now.least ≤ length items)) }
    ensures most { IfOk result (λ found. IfSome found (λ items. length items ≤ sizes.now.most)) }
    ensures known { IfOk result (λ found. IfSome found (IsKnown stock.now)) }
{
    match value_at(table, key) {
        None => Ok(None),
        Some(value) => match items_in(alloc, value, stock, sizes) {
            Ok(items) => Ok(Some(items)),
            Err(cause) => Err(fault_at(place, key, cause)),
        },
    }
}

// the items that a list of so many names gives
fn items_in(alloc: Global, value: &Value, stock: &Stock, sizes: &Sizes) -> Result<Stack, JobCause>
    requires { sizes.now.most ≤ 64 }
    ensures takes { Takes result
        (spec.form_cause (rows.names stock.now sizes.now.least sizes.now.most) (view value.now))
        (option_map (filter_map (spec.item_of stock.now)) (spec.as_list (view value.now))) }
    ensures least { IfOk result (λ items. sizes.now.least ≤ length items) }
    ensures most { IfOk result (λ items. length items ≤ sizes.now.most) }
    ensures known { IfOk result (IsKnown stock.now) }
{
    match list(value) {
        None => Err(JobCause::Kind),
        Some(names) => items_of(alloc, names, stock, sizes),
    }
}

// the items of so many names
fn items_of(alloc: Global, names: &[Value], stock: &Stock, sizes: &Sizes) -> Result<Stack, JobCause>
    requires { sizes.now.most ≤ 64 }
    ensures tells { Tells result
        (spec.names_cause stock.now sizes.now.least sizes.now.most (map view names.now))
        (filter_map (spec.item_of stock.now) (map view names.now)) }
    ensures least { IfOk result (λ items. sizes.now.least ≤ length items) }
    ensures most { IfOk result (λ items. length items ≤ sizes.now.most) }
    ensures known { IfOk result (IsKnown stock.now) }
{
    if !are_texts(names) {
        return Err(JobCause::Kind);
    }
    if names.len() < sizes.least {
        return Err(JobCause::Range);
    }
    if names.len() > sizes.most {
        return Err(JobCause::Range);
    }
    match named(alloc, names, stock) {
        Some(items) => Ok(items),
        None => Err(JobCause::Item),
    }
}

// tells whether each value is a text
fn are_texts(values: &[Value]) -> bool
    ensures { result ≡ list_all spec.is_text (map view values.now) }
{
    for value in values {
        if !value.is_str() {
            return false;
        }
    }
    true
}

// the items that values name, where each names one
fn named(alloc: Global, names: &[Value], stock: &Stock) -> Option<Stack>
    requires { length names.now ≤ 64 }
    ensures all { is_some result ≡ list_all (λ d. is_some (spec.item_of stock.now d)) (map view names.now) }
    ensures items { IfSome result (λ items. items ≡ filter_map (spec.item_of stock.now) (map view names.now)) }
    ensures number { IfSome result (λ items. length items ≡ length names.now) }
    ensures known { IfSome result (IsKnown stock.now) }
{
    let mut items = Stack::new(alloc);
    for name in names {
        let item = item_of(name, stock)?;
        items.push(item);
    }
    Some(items)
}

// the item that a value names
fn item_of(value: &Value, stock: &Stock) -> Option<ItemNo>
    ensures item { result ≡ spec.item_of stock.now (view value.now) }
    ensures known { IfSome result (λ item. item.0 < length stock.now) }
{
    item_named(value.as_str()?, stock)
}

/// The item of a name.
pub fn item_named(name: &str, stock: &Stock) -> Option<ItemNo>
    ensures item { result ≡ spec.item_named stock.now name.now }
    ensures known { IfSome result (λ item. item.0 < length stock.now) }
{
    stock.find(name.as_bytes())
}

/// A catalogue has at most 64 items, so that their numbers are bits of a set.
pub fn has_few_items(stock: &Stock)
    ensures { length stock.now ≤ 64 }
{
    stock.items();
}

/// The set of some items.
pub fn set_of(items: &[ItemNo]) -> ItemSet
    requires { All (λ item. item.0 < 64) items.now }
    ensures { result ≡ spec.set_of items.now }
{
    let mut bits = 0;
    for item in items {
        bits |= 1 << item.0;
    }
    ItemSet(bits)
}
