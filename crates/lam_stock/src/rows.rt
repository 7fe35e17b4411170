// The records of a catalogue.

ghost use Rattle.std.specs.Prelude.{◌≡◌, ◌<◌, length, OnOk, IfOk, IfErr};
ghost use Rattle.csv.specs.Reading.{default_config, records, strip_bom};
ghost use Rattle.csv.specs.Records.{fields_of};
ghost use Rattle.lam_stock.specs.Catalogue as spec;
ghost use Rattle.lam_stock.specs.Catalogue.{columns_of};
ghost use Rattle.lam_stock.specs.inside.Rows.{IsRowReader, TakesRow, rows_of};

use crate::fault::StockError;
use crate::field::without_blanks;
use csv::{ByteRecord, ErrorKind, Reader, ReaderBuilder};
use std::alloc::Global;

/// The number of fields of a record.
pub const COLUMNS: usize = 17;

/// A reader of the records of some bytes.
pub fn open_rows(alloc: Global, bytes: &[u8]) -> Reader<&[u8]>
    ensures reader { IsRowReader result }
    ensures rows { rows_of result ≡ records default_config (strip_bom bytes.now) }
{
    ReaderBuilder::new()
        .has_headers(false)
        .flexible(true)
        .from_reader(alloc, bytes)
}

/// Reads the next record, and tells whether there was one. A slice of bytes does not fail to be
/// read, so the only error is want of memory.
pub fn next_row(reader: &mut Reader<&[u8]>, row: &mut ByteRecord) -> Result<bool, StockError>
    requires { IsRowReader reader.old }
    ensures row { IfOk result (λ found.
        TakesRow found (rows_of reader.old) (fields_of row.new) (rows_of reader.new)) }
    ensures reader { OnOk result (IsRowReader reader.new) }
    ensures memory { IfErr result (λ e. e ≡ StockError.Memory) }
{
    match reader.read_byte_record(row) {
        Ok(found) => Ok(found),
        Err(e) => match e.into_kind() {
            ErrorKind::OutOfMemory | ErrorKind::Io(_) => Err(StockError::Memory),
            _ => unreachable!(),
        },
    }
}

/// The field in a column, with no blank at either end.
pub fn field(row: &ByteRecord, at: usize) -> &[u8]
    requires { at < length (fields_of row.now) }
    ensures { result.now ≡ spec.column (columns_of (fields_of row.now)) at }
{
    match row.get(at) {
        Some(field) => without_blanks(field),
        None => unreachable!(),
    }
}
