// The sums over the plies that are fixed, as a walk keeps them.

ghost use Rattle.std.specs.Prelude.{◌≡◌, ℕ, ◌+◌, ◌-◌, ◌*◌, ◌^◌, ◌<◌, ◌≤◌, length, All, Some, slice_get, slice_index};
ghost use Rattle.lam_job.specs.Partial.{child, half};
ghost use Rattle.lam_rules.specs.Conditions.{IsPartial};
ghost use Rattle.lam_bounds.specs.declared.bounds.Tried.{Tried};
ghost use Rattle.lam_bounds.specs.inside.Tables.{AreBoundsOf};

use crate::bounds::Bounds;
use crate::sums::{open_places, places, so_many, whole_sum};
use lam_job::Job;
use lam_rules::Partial;
use lam_stock::{ItemNo, Stock};

/// The sums over the plies that every completion of a partial schedule has: what they cost with the
/// liner, what those that carry load carry under each tried weight, and how many places are open.
#[derive(Clone, Copy)]
pub struct Fixed {
    pub(crate) cost: u64,
    pub(crate) carried: [u128; 12],
    pub(crate) open_places: u8,
}

impl Fixed {
    ghost use Rattle.lam_bounds.specs.inside.RunningSums.{AreSumsOf};

    /// The sums of a partial schedule.
    pub fn of(job: &Job, stock: &Stock, bounds: &Bounds, partial: &Partial) -> Fixed
        requires partial { IsPartial stock.now job.now partial.now }
        requires bounds { AreBoundsOf stock.now job.now bounds.now }
        ensures { AreSumsOf stock.now job.now partial.now result }
    {
        let cost = whole_sum(&bounds.costs, job, true, partial);
        let mut carried = [0; 12];
        for k in 0..12 {
            let capacities = &bounds.tried[k].carriers.capacities;
            carried[k] = whole_sum(capacities, job, job.liner_in_wall, partial);
        }
        Fixed {
            cost: cost as u64,
            carried,
            open_places: open_places(job, partial),
        }
    }

    /// What the fixed plies cost, with the liner.
    pub fn cost(&self) -> u64
        ensures { result ≡ self.now.cost }
    {
        self.cost
    }

    /// The sums with one ply more: from a partial schedule to its child.
    pub fn push(
        &mut self,
        job: &Job,
        stock: &Stock,
        bounds: &Bounds,
        partial: &Partial,
        item: ItemNo,
    )
        requires partial { IsPartial stock.now job.now partial.now }
        requires bounds { AreBoundsOf stock.now job.now bounds.now }
        requires sums { AreSumsOf stock.now job.now partial.now self.old }
        requires more { length partial.now.prefix < half job.now partial.now.n }
        requires item { item.0 < length stock.now }
        ensures { AreSumsOf stock.now job.now (child partial.now item) self.new }
    {
        let places = places(job, partial.n, partial.prefix.items().len());
        self.add(bounds, item, places);
        self.cost += u64::from(places) * bounds.costs[item.0 as usize];
        self.open_places -= places;
    }

    /// The sums with the last ply taken off: from a child of a partial schedule back to it.
    pub fn pop(
        &mut self,
        job: &Job,
        stock: &Stock,
        bounds: &Bounds,
        partial: &Partial,
        item: ItemNo,
    )
        requires partial { IsPartial stock.now job.now partial.now }
        requires bounds { AreBoundsOf stock.now job.now bounds.now }
        requires sums { AreSumsOf stock.now job.now (child partial.now item) self.old }
        requires more { length partial.now.prefix < half job.now partial.now.n }
        requires item { item.0 < length stock.now }
        ensures { AreSumsOf stock.now job.now partial.now self.new }
    {
        let places = places(job, partial.n, partial.prefix.items().len());
        self.take(bounds, item, places);
        self.cost -= u64::from(places) * bounds.costs[item.0 as usize];
        self.open_places += places;
    }

    // adds what an item carries at so many places
    fn add(&mut self, bounds: &Bounds, item: ItemNo, places: u8)
        requires item { item.0 < 64 }
        requires long { length bounds.now.tried ≡ 12 }
        requires room { All (λ sum. sum ≤ 2 ^ 100) self.old.carried }
        ensures cost { self.new.cost ≡ self.old.cost }
        ensures places { self.new.open_places ≡ self.old.open_places }
        ensures long { length self.new.carried ≡ 12 }
        ensures carried { (k : ℕ) (t : Tried) → slice_get bounds.now.tried k ≡ Some t
            → slice_index self.new.carried k
            ≡ slice_index self.old.carried k + places * slice_index t.carriers.capacities item.0 }
    {
        for k in 0..12 {
            let capacity = bounds.tried[k].carriers.capacities[item.0 as usize];
            self.carried[k] += so_many(places, capacity);
        }
    }

    // takes back what an item carries at so many places
    fn take(&mut self, bounds: &Bounds, item: ItemNo, places: u8)
        requires item { item.0 < 64 }
        requires long { length bounds.now.tried ≡ 12 }
        requires had { (k : ℕ) (t : Tried) → slice_get bounds.now.tried k ≡ Some t
            → places * slice_index t.carriers.capacities item.0 ≤ slice_index self.old.carried k }
        ensures cost { self.new.cost ≡ self.old.cost }
        ensures places { self.new.open_places ≡ self.old.open_places }
        ensures long { length self.new.carried ≡ 12 }
        ensures carried { (k : ℕ) (t : Tried) → slice_get bounds.now.tried k ≡ Some t
            → slice_index self.new.carried k
            ≡ slice_index self.old.carried k - places * slice_index t.carriers.capacities item.0 }
    {
        for k in 0..12 {
            let capacity = bounds.tried[k].carriers.capacities[item.0 as usize];
            self.carried[k] -= so_many(places, capacity);
        }
    }
}
