// The first record of a catalogue: the names of the columns.

ghost use Rattle.std.specs.Prelude.{◌≡◌, ◌<◌, ◌↔◌, IsTrue};
ghost use Rattle.csv.specs.Records.{fields_of};
ghost use Rattle.lam_stock.specs.Catalogue as spec;
ghost use Rattle.lam_stock.specs.Catalogue.{columns_of};

use crate::rows::{COLUMNS, field};
use csv::ByteRecord;

/// Tells whether a record is the names of the columns.
pub fn is_header(row: &ByteRecord) -> bool
    ensures { IsTrue result ↔ (columns_of (fields_of row.now) ≡ spec.column_names) }
{
    if row.len() != COLUMNS {
        return false;
    }
    for k in 0..COLUMNS {
        if !same_bytes(field(row, k), column_name(k)) {
            return false;
        }
    }
    true
}

// tells whether two texts are the same
fn same_bytes(a: &[u8], b: &[u8]) -> bool
    ensures { IsTrue result ↔ (a.now ≡ b.now) }
{
    a == b
}

// the name of a column
fn column_name(at: usize) -> &'static [u8]
    requires { at < 17 }
    ensures { result.now ≡ spec.column spec.column_names at }
{
    match at {
        0 => b"name",
        1 => b"kind",
        2 => b"e1",
        3 => b"e2",
        4 => b"n12",
        5 => b"g12",
        6 => b"xt",
        7 => b"xc",
        8 => b"yt",
        9 => b"yc",
        10 => b"s",
        11 => b"f12",
        12 => b"t",
        13 => b"p",
        14 => b"q",
        15 => b"h",
        _ => b"cost",
    }
}
