// What depends on a catalogue alone.

ghost use Rattle.std.specs.Prelude.{◌≡◌, ℕ, ◌<◌, Some, slice_get};
ghost use Rattle.lam_stock.specs.Stock.{IsStock};
ghost use Rattle.lam_stock.specs.declared.item.Item.{Item};
ghost use Rattle.lam_tsai.specs.Listed.{IsItemOf};
ghost use Rattle.lam_judge.specs.inside.Tables as by;
ghost use Rattle.lam_judge.specs.inside.Tables.{AreTablesOf};

use lam_lamina::Stiffnesses;
use lam_number::Fix;
use lam_stock::{Item, ItemNo, Scale, Stock};
use lam_tsai::Criterion;

/// The criterion of an item over both scales of fixed point.
#[derive(Clone, Copy)]
pub(crate) struct Criteria {
    pub(crate) coarse: Criterion<Fix<28>>,
    pub(crate) fine: Criterion<Fix<60>>,
}

impl Criteria {
    fn of(item: &Item, scale: &Scale) -> Criteria
        requires { IsItemOf scale.now item.now }
        ensures { result ≡ by.criteria scale.now item.now }
    {
        Criteria {
            coarse: Criterion::of(item, scale),
            fine: Criterion::of(item, scale),
        }
    }
}

/// What depends on a catalogue alone, made once for many schedules: the stiffness and the criterion of each item, over
/// both scales of fixed point.
#[derive(Drop)]
pub struct Tables {
    pub(crate) coarse: Stiffnesses<Fix<28>>,
    pub(crate) fine: Stiffnesses<Fix<60>>,
    criteria: [Criteria; 64],
}

impl Tables {
    /// The tables of a catalogue.
    pub fn of(stock: &Stock) -> Tables
        ensures { AreTablesOf stock.now result }
    {
        let scale = stock.scale();
        Tables {
            coarse: Stiffnesses::of(stock),
            fine: Stiffnesses::of(stock),
            criteria: each_criteria(stock.items(), &scale),
        }
    }

    /// The criterion of an item.
    pub(crate) fn criteria(&self, no: ItemNo) -> &Criteria
        requires { no.0 < 64 }
        ensures { slice_get self.now.criteria no.0 ≡ Some result.now }
    {
        &self.criteria[no.0 as usize]
    }
}

// the criteria of the items of a catalogue, each at its item's place
fn each_criteria(items: &[Item], scale: &Scale) -> [Criteria; 64]
    requires { IsStock items.now scale.now }
    ensures { (k : ℕ) (i : Item) → slice_get items.now k ≡ Some i
        → slice_get result k ≡ Some (by.criteria scale.now i) }
{
    let mut criteria = [Criteria::of(&items[0], scale); 64];
    for k in 0..items.len() {
        criteria[k] = Criteria::of(&items[k], scale);
    }
    criteria
}
