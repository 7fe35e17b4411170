// What is made once for a catalogue.

ghost use Rattle.std.specs.Prelude.{◌≡◌, ℕ, ◌<◌, Some, slice_get};
ghost use Rattle.lam_number.specs.inside.FixNumbers.{fix_numbers};
ghost use Rattle.lam_stock.specs.Stock.{IsStock};
ghost use Rattle.lam_stock.specs.declared.item.Item.{Item};
ghost use Rattle.lam_tsai.specs.Listed.{IsItemOf};
ghost use Rattle.lam_tsai.specs.inside.Values as by;

use crate::extents::{thickest, thinnest};
use lam_lamina::Stiffnesses;
use lam_number::Fix;
use lam_stock::{Item, Scale, Stock};
use lam_tsai::Criterion;

/// What boxes of strains ask of a catalogue alone, made once for many partial schedules: the stiffness and the criterion
/// of each item. It takes about 40 KB.
#[derive(Clone, Copy)]
pub struct BoxTables {
    pub(crate) stiffnesses: Stiffnesses<Fix<60>>,
    pub(crate) criteria: [Criterion<Fix<60>>; 64],
    pub(crate) thickest: i64,
    pub(crate) thinnest: i64,
}

impl BoxTables {
    ghost use Rattle.lam_boxes.specs.inside.Tables.{AreBoxTablesOf};

    /// The tables of a catalogue.
    pub fn of(stock: &Stock) -> BoxTables
        ensures { AreBoxTablesOf stock.now result }
    {
        let scale = stock.scale();
        let items = stock.items();
        BoxTables {
            stiffnesses: Stiffnesses::of(stock),
            criteria: each_criterion(items, &scale),
            thickest: thickest(items),
            thinnest: thinnest(items),
        }
    }
}

// the criteria of the items of a catalogue, each at its item's place
fn each_criterion(items: &[Item], scale: &Scale) -> [Criterion<Fix<60>>; 64]
    requires { IsStock items.now scale.now }
    ensures { (k : ℕ) (i : Item) → slice_get items.now k ≡ Some i
        → slice_get result k ≡ Some (by.criterion (fix_numbers 60) scale.now i) }
{
    let mut criteria = [Criterion::of(&items[0], scale); 64];
    for k in 0..items.len() {
        criteria[k] = Criterion::of(&items[k], scale);
    }
    criteria
}
