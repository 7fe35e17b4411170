// How one record of a catalogue is read as an item.

ghost use Rattle.std.specs.Prelude.{◌≡◌, ◌<◌, length, drop, IfOk, OnOk};
ghost use Rattle.std.specs.List.{list_any};
ghost use Rattle.csv.specs.Records.{fields_of};
ghost use Rattle.lam_direction.specs.Circle.{IsDirection};
ghost use Rattle.lam_direction.specs.Reading.{direction_of as spec_direction_of};
ghost use Rattle.lam_stock.specs.Catalogue as spec;
ghost use Rattle.lam_stock.specs.Field.{kind_of};
ghost use Rattle.lam_stock.specs.Likeness.{has_name as spec_has_name};
ghost use Rattle.lam_stock.specs.Stock.{WithinLimits};
ghost use Rattle.lam_stock.specs.Tests.{limits_of};

use crate::fault::StockCause;
use crate::field::kind;
use crate::item::{Item, Kind};
use crate::limit_numbers::MOST_ITEMS;
use crate::limits::check;
use crate::moduli::size;
use crate::name::Name;
use crate::reading::numbers::{lamina_of, numbers_of};
use crate::rows::{COLUMNS, field};
use crate::stock::has_name;
use csv::ByteRecord;
use lam_direction::{Direction, DirectionFault};

/// Reads a record as an item, where others were read before it.
pub fn item(earlier: &[Item], row: &ByteRecord) -> Result<Item, StockCause>
    ensures reads { result ≡ spec.item_of earlier.now (spec.columns_of (fields_of row.now)) }
    ensures room { OnOk result (length earlier.now < 64) }
    ensures limits { IfOk result (λ i. WithinLimits i) }
{
    if earlier.len() >= MOST_ITEMS {
        return Err(StockCause::Many);
    }
    if row.len() != COLUMNS {
        return Err(StockCause::Fields);
    }
    match Name::read(field(row, 0)) {
        None => Err(StockCause::Name),
        Some(name) => {
            if has_item(earlier, name.as_bytes()) {
                return Err(StockCause::Twice);
            }
            described(name, row)
        }
    }
}

// tells whether one of some items has a name
fn has_item(items: &[Item], name: &[u8]) -> bool
    ensures { result ≡ list_any (spec_has_name name.now) items.now }
{
    items.iter().any(|item| has_name(item, name))
}

// reads the kind and the numbers of an item of a name
fn described(name: Name, row: &ByteRecord) -> Result<Item, StockCause>
    requires { length (fields_of row.now) ≡ 17 }
    ensures reads { result ≡ (let fields = spec.columns_of (fields_of row.now) in
        spec.described name (kind_of (spec.column fields 1)) (spec.numbers_of (drop 2 fields))) }
    ensures limits { IfOk result (λ i. WithinLimits i) }
{
    match kind(field(row, 1)) {
        None => Err(StockCause::Kind),
        Some(kind) => match numbers_of(row) {
            None => Err(StockCause::Number),
            Some(numbers) => measured(name, kind, &numbers),
        },
    }
}

// reads the lamina, the direction and the cost of an item
fn measured(name: Name, kind: Kind, numbers: &[i64; 15]) -> Result<Item, StockCause>
    ensures reads { result ≡ (let ns = numbers.now in
        spec.limited name kind ns (limits_of (spec.lamina_of ns) (spec.at ns 14))) }
    ensures limits { IfOk result (λ i. WithinLimits i) }
{
    let lamina = lamina_of(numbers);
    let cost = &numbers[14];
    match check(&lamina, cost) {
        Err(cause) => Err(cause),
        Ok(()) => match direction_of(&numbers[11], &numbers[12], &numbers[13]) {
            Ok(dir) => Ok(Item {
                name,
                kind,
                lamina,
                dir,
                cost: size(cost),
            }),
            Err(DirectionFault::Size) => Err(StockCause::Unit),
            Err(DirectionFault::NotUnit) => Err(StockCause::Unit),
            Err(DirectionFault::NotFirstHalf) => Err(StockCause::Half),
        },
    }
}

// reads a direction
fn direction_of(p: &i64, q: &i64, h: &i64) -> Result<Direction, DirectionFault>
    ensures reads { result ≡ spec_direction_of p.now q.now h.now }
    ensures direction { IfOk result (λ d. IsDirection d) }
{
    Direction::read(*p, *q, *h)
}
