// What schedules cost.

ghost use Rattle.std.specs.Prelude.{◌≡◌, ◌<◌, ◌≤◌, ◌↔◌, length, slice_get, sum_by, Some, IsTrue};
ghost use Rattle.lam_stock.specs.declared.item.Item.{Item};
ghost use Rattle.lam_stock.specs.Stock.{IsKnown};
ghost use Rattle.lam_job.specs.Schedule.{items_of, cost_of as cost_spec};
ghost use Rattle.lam_tree.specs.Closings.{IsBelow, Reaches};

use lam_job::Job;
use lam_stock::{ItemNo, Stack, Stock};

/// The cost of a schedule, with the liner, in whole units.
pub fn schedule_cost(job: &Job, stock: &Stock, listed: &Stack) -> u64
    requires liner { IsKnown stock.now job.now.liner }
    requires known { IsKnown stock.now listed.now }
    ensures { result ≡ cost_spec stock.now job.now listed.now }
{
    plies_cost(stock, job.liner.items()) + plies_cost(stock, listed.items())
}

// the cost of some plies
fn plies_cost(stock: &Stock, plies: &[ItemNo]) -> u64
    requires known { IsKnown stock.now plies.now }
    requires few { length plies.now ≤ 64 }
    ensures value { result ≡ sum_by (λ i. i.cost) (items_of stock.now plies.now) }
    ensures small { result ≤ 64000000000 }
{
    let mut sum = 0;
    for ply in plies {
        sum += item_cost(stock, *ply);
    }
    sum
}

// the cost of an item
fn item_cost(stock: &Stock, no: ItemNo) -> u64
    requires { no.0 < length stock.now }
    ensures value { (i : Item) → slice_get stock.now no.0 ≡ Some i → i.cost ≡ result }
    ensures small { result ≤ 1000000000 }
{
    stock.items()[no.0 as usize].cost
}

/// Tells whether a cost is below a limit, or there is none.
pub fn is_below(cost: u64, limit: Option<u64>) -> bool
    ensures { IsTrue result ↔ IsBelow cost limit }
{
    match limit {
        Some(most) => cost < most,
        None => true,
    }
}

/// Tells whether there is a limit and a cost is not below it.
pub fn reaches(cost: u64, limit: Option<u64>) -> bool
    ensures { IsTrue result ↔ Reaches cost limit }
{
    match limit {
        Some(most) => most <= cost,
        None => false,
    }
}
