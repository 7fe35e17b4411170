// What the items of a catalogue carry of one weighted force.

ghost use Rattle.std.specs.Prelude.{◌≡◌, ℕ, ◌*◌, ◌<◌, nat_lt, []};
ghost use Rattle.lam_bounds.specs.inside.Computed.{capacity_value};
ghost use Rattle.lam_stock.specs.declared.item.Item.{Item};

use lam_stock::Stock;
use lam_support::{Weight, capacity};

/// The capacities of a catalogue's items under one weight, in N/m.
#[derive(Clone, Copy)]
pub struct Carriers {
    /// Of each item.
    pub capacities: [u64; 64],
    /// The greatest of them.
    pub greatest: u64,
    /// No item's is below it.
    pub least: u64,
    /// The cost of the item that costs least for what it carries.
    pub cost: u64,
    /// The capacity of that item.
    pub capacity: u64,
}

impl Carriers {
    ghost use Rattle.lam_bounds.specs.inside.Tables.{AreCarriers, with_item};

    /// What the items of a catalogue carry.
    pub fn of(stock: &Stock, w: &Weight) -> Carriers
        ensures { AreCarriers (λ i. capacity_value i w.now) stock.now result }
    {
        let items = stock.items();
        let mut carriers = Carriers::none();
        for k in 0..items.len() {
            let item = &items[k];
            carriers.add(k, item.cost, capacity(item, w));
        }
        carriers
    }

    // what no items carry
    fn none() -> Carriers
        ensures { (capacity : Item → ℕ) → AreCarriers capacity [] result }
    {
        Carriers {
            capacities: [0; 64],
            greatest: 0,
            least: u64::MAX,
            cost: 0,
            capacity: 1,
        }
    }

    // takes the next item in
    fn add(&mut self, k: usize, cost: u64, capacity: u64)
        requires { k < 64 }
        ensures { self.new ≡ with_item self.old k cost capacity }
    {
        let better = k == 0 || is_better(cost, capacity, self.cost, self.capacity);
        self.capacities[k] = capacity;
        self.greatest = self.greatest.max(capacity);
        self.least = self.least.min(capacity);
        if better {
            self.cost = cost;
            self.capacity = capacity;
        }
    }
}

// tells whether an item costs less for what it carries than another
fn is_better(cost: u64, capacity: u64, other_cost: u64, other_capacity: u64) -> bool
    ensures { result ≡ nat_lt (cost * other_capacity) (other_cost * capacity) }
{
    u128::from(cost) * u128::from(other_capacity) < u128::from(other_cost) * u128::from(capacity)
}
