// The children of a split in the order of a guide's ranks.

ghost use Rattle.std.specs.Prelude.{◌≡◌, ℕ, ◌<◌, length, map, get_or};
ghost use Rattle.lam_search.specs.inside.Ordered.{IsEachOnce};

use lam_guide::{Choice, Guide};
use lam_stock::{ItemNo, Stock};
use std::marker::Model;

// the most items of a catalogue
const TABLE: usize = 64;

/// The items of a catalogue, each once, by ascending rank, ties by number.
#[derive(Drop)]
pub struct Order {
    items: [ItemNo; TABLE],
    count: usize,
}

impl Model for Order {
    ghost use Rattle.std.specs.Prelude.{◌≡◌, ◌≤◌, List, length, take};
    ghost use Rattle.lam_stock.specs.declared.item.ItemNo.{ItemNo};

    ghost Value = { List ItemNo };

    ghost view = { λ o. take o.count o.items };

    ghost invariant = { λ o. (length o.items ≡ 64) × (o.count ≤ 64) };
}

impl Order {
    /// The children of a node whose prefix has so many items. Each rank is asked once.
    pub fn of<G: Guide>(stock: &Stock, guide: &mut G, depth: u8) -> Order
        ensures once { IsEachOnce (length stock.now) result }
        ensures heard { G.heard_count guide.new ≡ G.heard_count guide.old }
    {
        let count = stock.items().len();
        let mut keys = ranked(stock, guide, depth);
        keys[..count].sort_unstable();
        Order {
            items: items_of(&keys),
            count,
        }
    }

    /// The items, in order.
    pub fn items(&self) -> &[ItemNo]
        ensures { result.now ≡ self.now }
    {
        &self.items[..self.count]
    }
}

// the rank and the number of each item
fn ranked<G: Guide>(stock: &Stock, guide: &mut G, depth: u8) -> [(u32, u8); TABLE]
    ensures long { length result ≡ 64 }
    ensures numbers { (k : ℕ) → k < length stock.now → (get_or result k (0, 0)).1 ≡ k }
    ensures heard { G.heard_count guide.new ≡ G.heard_count guide.old }
{
    let items = stock.items();
    let mut keys = [(0, 0); TABLE];
    for k in 0..items.len() {
        let choice = Choice {
            item: k as u8,
            cost: items[k].cost,
            t: items[k].lamina.t,
        };
        keys[k] = (guide.rank(depth, &choice), k as u8);
    }
    keys
}

// the numbers alone
fn items_of(keys: &[(u32, u8); TABLE]) -> [ItemNo; TABLE]
    ensures { result ≡ map (λ key. record { 0 = key.1 }) keys.now }
{
    let mut items = [ItemNo(0); TABLE];
    for k in 0..TABLE {
        items[k] = ItemNo(keys[k].1);
    }
    items
}
