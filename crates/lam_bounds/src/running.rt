// The three bounds, from what is made once and from running sums.

ghost use Rattle.std.specs.Prelude.{◌≡◌, ◌+◌, ◌*◌, ◌-◌, ◌^◌, ◌<◌, ◌≤◌, ◌↔◌, length, Some, slice_get, IsTrue, IsSomeAnd, min, max};
ghost use Rattle.lam_job.specs.Schedule.{cost_of};
ghost use Rattle.lam_job.specs.Partial.{ForEveryCompletion, cost_floor as floor_spec};
ghost use Rattle.lam_rules.specs.Conditions.{IsPartial};
ghost use Rattle.lam_support.specs.declared.weight.Weight.{Weight};
ghost use Rattle.lam_tree.specs.ForceBalance.{IsShort, greatest_cost, net_cost as net_spec};
ghost use Rattle.lam_tree.specs.TriedWeights.{tried_weights};
ghost use Rattle.lam_tree.specs.Words.{NoneMayBeBuilt, NoneIsCheaper};
ghost use Rattle.lam_bounds.specs.inside.Computed.{capacity_value};
ghost use Rattle.lam_bounds.specs.inside.Demands as by;
ghost use Rattle.lam_bounds.specs.inside.RunningSums.{AreSumsOf};
ghost use Rattle.lam_bounds.specs.inside.Tables.{AreBoundsOf};

use crate::bounds::Bounds;
use crate::carriers::Carriers;
use crate::fixed::Fixed;
use crate::sums::so_many;
use lam_job::Job;
use lam_rules::Partial;
use lam_stock::Stock;

/// The least that a completion can cost: the liner and the fixed plies, with the cheapest item at
/// each open place.
pub fn cost_floor_at(
    job: &Job,
    stock: &Stock,
    bounds: &Bounds,
    fixed: &Fixed,
    partial: &Partial,
) -> u64
    requires partial { IsPartial stock.now job.now partial.now }
    requires bounds { AreBoundsOf stock.now job.now bounds.now }
    requires sums { AreSumsOf stock.now job.now partial.now fixed.now }
    ensures value { result ≡ floor_spec stock.now job.now partial.now }
    ensures so { ForEveryCompletion stock.now job.now partial.now
        (λ listed. result ≤ cost_of stock.now job.now listed) }
    ensures small { result ≤ 10 ^ 12 }
{
    cost_with(fixed.cost, fixed.open_places, bounds.cheapest)
}

/// Tells whether the plies of no completion can carry the load of a case, as a balance of forces
/// with a tried weight shows: not even with the strongest item at each open place.
pub fn net_short_at(
    job: &Job,
    stock: &Stock,
    bounds: &Bounds,
    fixed: &Fixed,
    partial: &Partial,
    case: u8,
    weight: u8,
) -> bool
    requires partial { IsPartial stock.now job.now partial.now }
    requires bounds { AreBoundsOf stock.now job.now bounds.now }
    requires sums { AreSumsOf stock.now job.now partial.now fixed.now }
    requires case { case < length job.now.cases }
    requires weight { weight < 12 }
    ensures value { (w : Weight) → slice_get tried_weights weight ≡ Some w
        → IsTrue result ↔ IsSomeAnd (slice_get job.now.cases case) (λ c.
        IsShort stock.now job.now partial.now c w (λ i. capacity_value i w)) }
    ensures so { IsTrue result → NoneMayBeBuilt stock.now job.now partial.now }
{
    let tried = &bounds.tried[weight as usize];
    let carried = fixed.carried[weight as usize];
    let demand = tried.demands[case as usize];
    is_short(&tried.carriers, carried, fixed.open_places, demand)
}

/// The least that a completion costs that carries the load of a case, as a balance of forces with a
/// tried weight shows. Where that passes 64 bits it is the greatest number that they hold.
pub fn net_cost_at(
    job: &Job,
    stock: &Stock,
    bounds: &Bounds,
    fixed: &Fixed,
    partial: &Partial,
    case: u8,
    weight: u8,
) -> u64
    requires partial { IsPartial stock.now job.now partial.now }
    requires bounds { AreBoundsOf stock.now job.now bounds.now }
    requires sums { AreSumsOf stock.now job.now partial.now fixed.now }
    requires case { case < length job.now.cases }
    requires weight { weight < 12 }
    ensures value { (w : Weight) → slice_get tried_weights weight ≡ Some w
        → IsSomeAnd (slice_get job.now.cases case) (λ c.
        result ≡ net_spec stock.now job.now partial.now c w (λ i. capacity_value i w)) }
    ensures so { NoneIsCheaper stock.now job.now partial.now result }
{
    let tried = &bounds.tried[weight as usize];
    let carried = fixed.carried[weight as usize];
    let demand = tried.demands[case as usize];
    let floor = cost_with(fixed.cost, fixed.open_places, bounds.cheapest);
    net_floor(&tried.carriers, floor, fixed.cost, carried, demand)
}

/// A cost, with so many items of one cost more.
pub fn cost_with(cost: u64, places: u8, each: u64) -> u64
    requires cost { cost ≤ 10 ^ 12 }
    requires each { each ≤ 10 ^ 12 }
    ensures { result ≡ cost + places * each }
{
    cost + u64::from(places) * each
}

/// Tells whether a demand is above what the fixed plies carry with the strongest item at each open
/// place.
pub fn is_short(carriers: &Carriers, carried: u128, open_places: u8, demand: u128) -> bool
    requires { carried ≤ 2 ^ 80 }
    ensures { IsTrue result
        ↔ (4000 * carried + 4000 * open_places * carriers.now.greatest < demand) }
{
    let strongest = so_many(open_places, carriers.greatest);
    4000 * (carried + strongest) < demand
}

/// The least cost where the fixed plies and others carry a demand.
pub fn net_floor(carriers: &Carriers, floor: u64, cost: u64, carried: u128, demand: u128) -> u64
    requires carried { carried ≤ 2 ^ 80 }
    requires cost { cost ≤ floor }
    requires some { 1 ≤ carriers.now.capacity }
    requires best { carriers.now.cost ≤ 1000000000 }
    requires demand { demand ≤ 2 ^ 90 }
    ensures { result ≡ by.net_floor floor cost (demand - 4000 * carried)
        carriers.now.cost carriers.now.capacity }
{
    let lacking = demand.saturating_sub(4000 * carried);
    if lacking == 0 {
        return floor;
    }
    let best = (lacking * u128::from(carriers.cost)).div_ceil(4000 * u128::from(carriers.capacity));
    greater_cost(floor, u128::from(cost) + best)
}

// the greater of two costs, up to the greatest that is told
fn greater_cost(floor: u64, cost: u128) -> u64
    ensures { result ≡ min greatest_cost (max floor cost) }
{
    if cost > u128::from(u64::MAX) {
        return u64::MAX;
    }
    floor.max(cost as u64)
}
