// The numbers of a record.

ghost use Rattle.std.specs.Prelude.{◌≡◌, length, drop};
ghost use Rattle.csv.specs.Records.{fields_of};
ghost use Rattle.lam_stock.specs.Catalogue as spec;
ghost use Rattle.lam_stock.specs.Catalogue.{columns_of};

use crate::field::number;
use crate::item::Lamina;
use crate::rows::field;
use csv::ByteRecord;

/// The fields from the third on as numbers, if they all are.
pub fn numbers_of(row: &ByteRecord) -> Option<[i64; 15]>
    requires { length (fields_of row.now) ≡ 17 }
    ensures { result ≡ spec.numbers_of (drop 2 (columns_of (fields_of row.now))) }
{
    let mut numbers = [0; 15];
    for k in 0..15 {
        match number(field(row, k + 2)) {
            None => return None,
            Some(number) => numbers[k] = number,
        }
    }
    Some(numbers)
}

/// The lamina of the numbers of an item.
pub fn lamina_of(numbers: &[i64; 15]) -> Lamina
    ensures { result ≡ spec.lamina_of numbers.now }
{
    let [
        e1,
        e2,
        n12,
        g12,
        xt,
        xc,
        yt,
        yc,
        s,
        f12,
        t,
        _p,
        _q,
        _h,
        _cost,
    ] = *numbers;
    Lamina {
        e1,
        e2,
        n12,
        g12,
        xt,
        xc,
        yt,
        yc,
        s,
        f12,
        t,
    }
}
