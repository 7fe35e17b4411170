// How the records of a catalogue are read as items.

ghost use Rattle.std.specs.Prelude.{◌≡◌, ◌≤◌, ◌++◌, ◌∷◌, [], length, All, OnOk, IfErr};
ghost use Rattle.lam_stock.specs.Catalogue.{GivesCatalogue, ended, items_read, stock_of};
ghost use Rattle.lam_stock.specs.LimitNumbers.{most_items};
ghost use Rattle.lam_stock.specs.Stock.{HaveNames, WithinLimits};
ghost use Rattle.lam_stock.specs.inside.Rows.{IsRowReader, rows_of};

use crate::fault::{StockCause, StockError, StockFault};
use crate::item::Item;
use crate::reading::header::is_header;
use crate::reading::record::item;
use crate::rows::{next_row, open_rows};
use crate::stock::Stock;
use csv::{ByteRecord, Reader};
use std::alloc::Global;

// the names of the columns
mod header;
// the numbers of a record
mod numbers;
// one record as an item
mod record;

/// Reads a catalogue: a first record with the names of the columns, and then one record for each
/// item. Answers the catalogue, or the first cause that it is refused for with the number of its
/// record, or want of memory.
pub fn read_stock(alloc: Global, bytes: &[u8]) -> Result<Stock, StockError>
    ensures { GivesCatalogue result (stock_of bytes.now) }
{
    let mut reader = open_rows(alloc, bytes);
    let mut row = ByteRecord::new(alloc);
    if !next_row(&mut reader, &mut row)? {
        return refused(0, StockCause::Empty);
    }
    if !is_header(&row) {
        return refused(1, StockCause::Header);
    }
    read_items(alloc, &mut reader, &mut row)
}

// reads the records left as items
fn read_items(
    alloc: Global,
    reader: &mut Reader<&[u8]>,
    row: &mut ByteRecord,
) -> Result<Stock, StockError>
    requires { IsRowReader reader.old }
    ensures { GivesCatalogue result (items_read [] (rows_of reader.old)) }
{
    let mut items = Vec::new(alloc);
    while next_row(reader, row)? {
        match item(&items, row) {
            Ok(item) => keep(&mut items, item)?,
            Err(cause) => return refused(items.len() as u32 + 2, cause),
        }
    }
    finish(items)
}

// puts an item after the others
fn keep(items: &mut Vec<Item>, item: Item) -> Result<(), StockError>
    ensures ok { OnOk result (items.new.items ≡ items.old.items ++ item ∷ []) }
    ensures memory { IfErr result (λ e. e ≡ StockError.Memory) }
{
    match items.push(item) {
        Ok(()) => Ok(()),
        Err(_) => Err(StockError::Memory),
    }
}

// ends the reading of a catalogue with these items
fn finish(items: Vec<Item>) -> Result<Stock, StockError>
    requires few { length items.items ≤ most_items }
    requires limits { All WithinLimits items.items }
    requires names { HaveNames items.items }
    ensures { GivesCatalogue result (ended items.items) }
{
    if items.is_empty() {
        return refused(1, StockCause::NoItem);
    }
    let row = items.len() as u32 + 1;
    match Stock::of_items(items) {
        Some(stock) => Ok(stock),
        None => refused(row, StockCause::Spread),
    }
}

// the refusal of a catalogue for a cause at a record
fn refused(row: u32, cause: StockCause) -> Result<Stock, StockError>
    ensures { result ≡ Err (StockError.Refused (record { row = row; cause = cause })) }
{
    Err(StockError::Refused(StockFault { row, cause }))
}

#[cfg(test)]
mod tests;
