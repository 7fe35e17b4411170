// The stiffnesses of a catalogue's items, each made once.

ghost use Rattle.std.specs.Prelude.{◌≡◌, ℕ, ◌+◌, ◌<◌, ◌≤◌, Some, slice_get};
ghost use Rattle.lam_stock.specs.Scale.{scale_of};
ghost use Rattle.lam_stock.specs.declared.item.Item.{Item};
ghost use Rattle.lam_lamina.specs.Held.{HoldsMatrix, NarrowMatrix};
ghost use Rattle.lam_lamina.specs.Stiffness.{stiffness_over, IsBounded};
ghost use Rattle.lam_lamina.specs.inside.Eighths.{eight_of};
ghost use Rattle.lam_lamina.specs.inside.Table.{IsTableOf, entry_at, place_value};

use crate::eight::Eight;
use crate::item::item_stiffness;
use crate::stiffness::{Sym3, zeros};
use lam_number::Enclosure;
use lam_stock::{ItemNo, Stock};

/// The stiffnesses of the items of a catalogue, at most 64, each at its item's place.
#[derive(Clone, Copy)]
pub struct Stiffnesses<N> {
    rows: Eight<Eight<Sym3<N>>>,
}

impl<N: Enclosure> Stiffnesses<N> {
    /// The table of a catalogue.
    pub fn of(stock: &Stock) -> Stiffnesses<N>
        ensures table { IsTableOf N.numbers stock.now result }
        ensures held { (k : ℕ) (i : Item) → slice_get stock.now k ≡ Some i
            → HoldsMatrix N.numbers (entry_at result k)
            (stiffness_over (scale_of stock.now).q0 i.kind i.lamina i.dir) }
        ensures narrow { (k : ℕ) (i : Item) → slice_get stock.now k ≡ Some i
            → NarrowMatrix 32 N.numbers (entry_at result k) }
        ensures bounded { (k : ℕ) (i : Item) → slice_get stock.now k ≡ Some i
            → IsBounded (stiffness_over (scale_of stock.now).q0 i.kind i.lamina i.dir) }
    {
        let _items = stock.items();
        let _scale = stock.scale();
        Stiffnesses {
            rows: Eight {
                e0: row(stock, 0),
                e1: row(stock, 8),
                e2: row(stock, 16),
                e3: row(stock, 24),
                e4: row(stock, 32),
                e5: row(stock, 40),
                e6: row(stock, 48),
                e7: row(stock, 56),
            },
        }
    }

    /// The stiffness of an item.
    pub fn get(&self, no: ItemNo) -> &Sym3<N>
        requires { no.0 < 64 }
        ensures { result.now ≡ entry_at self.now no.0 }
    {
        let place = no.0 as usize;
        let row = self.rows.get(place / 8);
        row.get(place % 8)
    }
}

// the entries from a place on
fn row<N: Enclosure>(stock: &Stock, start: usize) -> Eight<Sym3<N>>
    requires { start ≤ 56 }
    ensures { result ≡ eight_of (λ k. place_value N.numbers.calc stock.now (start + k)) }
{
    Eight {
        e0: entry(stock, start),
        e1: entry(stock, start + 1),
        e2: entry(stock, start + 2),
        e3: entry(stock, start + 3),
        e4: entry(stock, start + 4),
        e5: entry(stock, start + 5),
        e6: entry(stock, start + 6),
        e7: entry(stock, start + 7),
    }
}

// the stiffness of the item at a place, and zeros past the last one
fn entry<N: Enclosure>(stock: &Stock, place: usize) -> Sym3<N>
    ensures { result ≡ place_value N.numbers.calc stock.now place }
{
    let scale = stock.scale();
    match stock.items().get(place) {
        Some(item) => item_stiffness(item, &scale),
        None => zeros(),
    }
}
