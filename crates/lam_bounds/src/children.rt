// All children of a partial schedule at once: what a demand can lack for any of them is known from
// their parent.

ghost use Rattle.std.specs.Prelude.{◌≡◌, ℕ, ◌<◌, length, All, Some, slice_get, IsTrue};
ghost use Rattle.lam_stock.specs.declared.item.ItemNo.{ItemNo};
ghost use Rattle.lam_job.specs.JobData.{CaseData};
ghost use Rattle.lam_job.specs.Partial.{child, half};
ghost use Rattle.lam_rules.specs.Conditions.{IsPartial};
ghost use Rattle.lam_tree.specs.ForceBalance.{IsShort, net_cost as net_spec};
ghost use Rattle.lam_tree.specs.TriedWeights.{tried_weights};
ghost use Rattle.lam_bounds.specs.inside.Computed.{capacity_value};
ghost use Rattle.lam_bounds.specs.inside.RunningSums.{AreSumsOf};
ghost use Rattle.lam_bounds.specs.inside.Tables.{AreBoundsOf};

use crate::bounds::Bounds;
use crate::fixed::Fixed;
use crate::running::{cost_with, is_short, net_floor};
use crate::sums::{places, so_many};
use lam_job::Job;
use lam_rules::Partial;
use lam_stock::Stock;

/// Tells that no child of a partial schedule is short in any case with any tried weight. Where it is
/// false, a child may be.
pub fn no_child_is_short(
    job: &Job,
    stock: &Stock,
    bounds: &Bounds,
    fixed: &Fixed,
    partial: &Partial,
) -> bool
    requires partial { IsPartial stock.now job.now partial.now }
    requires bounds { AreBoundsOf stock.now job.now bounds.now }
    requires sums { AreSumsOf stock.now job.now partial.now fixed.now }
    requires more { length partial.now.prefix < half job.now partial.now.n }
    ensures { IsTrue result → (item : ItemNo) → item.0 < length stock.now
        → (n : ℕ) (c : CaseData) → slice_get job.now.cases n ≡ Some c
        → All (λ w. ¬ IsShort stock.now job.now (child partial.now item) c w
        (λ i. capacity_value i w)) tried_weights }
{
    let places = places(job, partial.n, partial.prefix.items().len());
    let rest = fixed.open_places - places;
    for k in 0..12 {
        let tried = &bounds.tried[k];
        let least = so_many(places, tried.carriers.least);
        let demand = tried.greatest_demand;
        if is_short(&tried.carriers, fixed.carried[k] + least, rest, demand) {
            return false;
        }
    }
    true
}

/// Tells that for no child of a partial schedule a balance of forces with a tried weight shows that
/// what carries the load of a case costs no less than a limit. Where it is false, it may for a
/// child.
pub fn no_child_is_dear(
    job: &Job,
    stock: &Stock,
    bounds: &Bounds,
    fixed: &Fixed,
    partial: &Partial,
    limit: u64,
) -> bool
    requires partial { IsPartial stock.now job.now partial.now }
    requires bounds { AreBoundsOf stock.now job.now bounds.now }
    requires sums { AreSumsOf stock.now job.now partial.now fixed.now }
    requires more { length partial.now.prefix < half job.now partial.now.n }
    ensures { IsTrue result → (item : ItemNo) → item.0 < length stock.now
        → (n : ℕ) (c : CaseData) → slice_get job.now.cases n ≡ Some c
        → All (λ w. net_spec stock.now job.now (child partial.now item) c w
        (λ i. capacity_value i w) < limit) tried_weights }
{
    let places = places(job, partial.n, partial.prefix.items().len());
    let rest = fixed.open_places - places;
    let cost = cost_with(fixed.cost, places, bounds.dearest);
    let floor = cost_with(cost, rest, bounds.cheapest);
    for k in 0..12 {
        let tried = &bounds.tried[k];
        let least = so_many(places, tried.carriers.least);
        let demand = tried.greatest_demand;
        if net_floor(
            &tried.carriers,
            floor,
            cost,
            fixed.carried[k] + least,
            demand,
        ) >= limit
        {
            return false;
        }
    }
    true
}
