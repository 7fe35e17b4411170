// The three bounds of a partial schedule by itself.

ghost use Rattle.std.specs.Prelude.{◌≡◌, ◌+◌, ◌^◌, ◌<◌, ◌≤◌, ◌↔◌, length, slice_get, sum_by, IsTrue, IsSomeAnd};
ghost use Rattle.lam_stock.specs.Scale.{scale_of};
ghost use Rattle.lam_stock.specs.Stock.{IsKnown, IsStock};
ghost use Rattle.lam_job.specs.Schedule.{cost_of, wall_of};
ghost use Rattle.lam_job.specs.Partial.{ForEveryCompletion, cost_floor as floor_spec, fixed_plies};
ghost use Rattle.lam_rules.specs.Conditions.{IsPartial};
ghost use Rattle.lam_support.specs.declared.weight.Weight.{Weight};
ghost use Rattle.lam_tree.specs.ForceBalance.{IsShort, net_cost as net_spec};
ghost use Rattle.lam_tree.specs.Words.{NoneMayBeBuilt, NoneIsCheaper};
ghost use Rattle.lam_bounds.specs.declared.carriers.Carriers.{Carriers};
ghost use Rattle.lam_bounds.specs.inside.Computed.{capacity_value};
ghost use Rattle.lam_bounds.specs.inside.Tables.{AreCarriers};

use crate::bounds::{cheapest, costs};
use crate::carriers::Carriers;
use crate::demands::demand;
use crate::running::{cost_with, is_short, net_floor};
use crate::sums::{open_places, whole_sum};
use lam_job::Job;
use lam_rules::Partial;
use lam_stock::Stock;
use lam_support::Weight;

/// The least that a completion can cost: the liner and the fixed plies, with the cheapest item at
/// each open place.
pub fn cost_floor(job: &Job, stock: &Stock, partial: &Partial) -> u64
    requires liner { IsKnown stock.now job.now.liner }
    requires partial { IsPartial stock.now job.now partial.now }
    ensures value { result ≡ floor_spec stock.now job.now partial.now }
    ensures so { ForEveryCompletion stock.now job.now partial.now
        (λ listed. result ≤ cost_of stock.now job.now listed) }
    ensures small { result ≤ 10 ^ 12 }
{
    kept(job, stock);
    let cost = fixed_cost(job, stock, partial);
    cost_with(cost, open_places(job, partial), cheapest(stock))
}

/// Tells whether the plies of no completion can carry the load of a case, as a balance of weighted
/// forces shows: not even with the strongest item at each open place.
pub fn net_short(job: &Job, stock: &Stock, partial: &Partial, case: u8, w: &Weight) -> bool
    requires liner { IsKnown stock.now job.now.liner }
    requires partial { IsPartial stock.now job.now partial.now }
    requires case { case < length job.now.cases }
    ensures value { IsTrue result ↔ IsSomeAnd (slice_get job.now.cases case) (λ c.
        IsShort stock.now job.now partial.now c w.now (λ i. capacity_value i w.now)) }
    ensures so { IsTrue result → NoneMayBeBuilt stock.now job.now partial.now }
{
    short_by(job, stock, &Carriers::of(stock, w), partial, case, w)
}

/// The same, by what the items carry.
pub(crate) fn short_by(
    job: &Job,
    stock: &Stock,
    carriers: &Carriers,
    partial: &Partial,
    case: u8,
    w: &Weight,
) -> bool
    requires liner { IsKnown stock.now job.now.liner }
    requires partial { IsPartial stock.now job.now partial.now }
    requires case { case < length job.now.cases }
    requires carriers { AreCarriers (λ i. capacity_value i w.now) stock.now carriers.now }
    ensures value { IsTrue result ↔ IsSomeAnd (slice_get job.now.cases case) (λ c.
        IsShort stock.now job.now partial.now c w.now (λ i. capacity_value i w.now)) }
    ensures so { IsTrue result → NoneMayBeBuilt stock.now job.now partial.now }
{
    kept(job, stock);
    let carried = carried(job, stock, carriers, partial);
    let demand = demand(&job.cases.items()[case as usize], w);
    is_short(carriers, carried, open_places(job, partial), demand)
}

/// The least that a completion costs that carries the load of a case, as a balance of weighted
/// forces shows. Where that passes 64 bits it is the greatest number that they hold.
pub fn net_cost(job: &Job, stock: &Stock, partial: &Partial, case: u8, w: &Weight) -> u64
    requires liner { IsKnown stock.now job.now.liner }
    requires partial { IsPartial stock.now job.now partial.now }
    requires case { case < length job.now.cases }
    ensures value { IsSomeAnd (slice_get job.now.cases case) (λ c.
        result ≡ net_spec stock.now job.now partial.now c w.now (λ i. capacity_value i w.now)) }
    ensures so { NoneIsCheaper stock.now job.now partial.now result }
{
    cost_by(job, stock, &Carriers::of(stock, w), partial, case, w)
}

/// The same, by what the items carry.
pub(crate) fn cost_by(
    job: &Job,
    stock: &Stock,
    carriers: &Carriers,
    partial: &Partial,
    case: u8,
    w: &Weight,
) -> u64
    requires liner { IsKnown stock.now job.now.liner }
    requires partial { IsPartial stock.now job.now partial.now }
    requires case { case < length job.now.cases }
    requires carriers { AreCarriers (λ i. capacity_value i w.now) stock.now carriers.now }
    ensures value { IsSomeAnd (slice_get job.now.cases case) (λ c.
        result ≡ net_spec stock.now job.now partial.now c w.now (λ i. capacity_value i w.now)) }
    ensures so { NoneIsCheaper stock.now job.now partial.now result }
{
    kept(job, stock);
    let carried = carried(job, stock, carriers, partial);
    let demand = demand(&job.cases.items()[case as usize], w);
    let cost = fixed_cost(job, stock, partial);
    let floor = cost_with(cost, open_places(job, partial), cheapest(stock));
    net_floor(carriers, floor, cost, carried, demand)
}

// the cost of the liner and the fixed plies
fn fixed_cost(job: &Job, stock: &Stock, partial: &Partial) -> u64
    requires liner { IsKnown stock.now job.now.liner }
    requires partial { IsPartial stock.now job.now partial.now }
    ensures value { result ≡ cost_of stock.now job.now (fixed_plies job.now partial.now) }
    ensures small { result ≤ 120000000000 }
{
    kept(job, stock);
    whole_sum(&costs(stock), job, true, partial) as u64
}

// what the fixed plies carry, with the liner where that carries load
fn carried(job: &Job, stock: &Stock, carriers: &Carriers, partial: &Partial) -> u128
    requires liner { IsKnown stock.now job.now.liner }
    requires partial { IsPartial stock.now job.now partial.now }
    ensures value { (w : Weight) → AreCarriers (λ i. capacity_value i w) stock.now carriers.now
        → result ≡ sum_by (λ i. capacity_value i w)
        (wall_of stock.now job.now (fixed_plies job.now partial.now)) }
    ensures small { result ≤ 2 ^ 80 }
{
    kept(job, stock);
    whole_sum(&carriers.capacities, job, job.liner_in_wall, partial)
}

// what every catalogue and every job keep
fn kept(job: &Job, stock: &Stock)
    ensures catalogue { IsStock stock.now (scale_of stock.now) }
    ensures thin { length job.now.liner ≤ 64 }
{
    let _scale = stock.scale();
    let _limit = job.limit;
}
