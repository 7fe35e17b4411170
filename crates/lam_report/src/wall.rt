// How many plies of a schedule carry load, and what all of them cost.

ghost use Rattle.std.specs.Prelude.{◌≡◌, ◌≤◌, ◌<◌, ◌+◌, List, length, slice_get, sum_by, IfSome};
ghost use Rattle.lam_job.specs.Schedule.{cost_of, items_of, wall_of};
ghost use Rattle.lam_stock.specs.Stock.{IsKnown};
ghost use Rattle.lam_stock.specs.declared.item.Item.{Item};

use lam_job::Job;
use lam_stock::{ItemNo, Stack, Stock};

/// The number of wall plies of a schedule.
pub(crate) fn wall_plies(job: &Job, listed: &Stack) -> usize
    ensures value { (stock : List Item) → IsKnown stock job.now.liner → IsKnown stock listed.now
        → result ≡ length (wall_of stock job.now listed.now) }
    ensures some { length listed.now ≤ result }
    ensures few { result ≤ length listed.now + 8 }
    ensures cases { length job.now.cases ≤ 16 }
    ensures panels { length job.now.panels ≤ 8 }
{
    let plies = listed.items().len();
    if job.liner_in_wall {
        job.liner.items().len() + plies
    } else {
        plies
    }
}

/// The cost of a schedule, with the liner.
pub(crate) fn cost(job: &Job, stock: &Stock, listed: &Stack) -> u64
    requires liner { IsKnown stock.now job.now.liner }
    requires listed { IsKnown stock.now listed.now }
    ensures { result ≡ cost_of stock.now job.now listed.now }
{
    cost_of_plies(stock, &job.liner) + cost_of_plies(stock, listed)
}

fn cost_of_plies(stock: &Stock, plies: &Stack) -> u64
    requires { IsKnown stock.now plies.now }
    ensures value { result ≡ sum_by (λ i. i.cost) (items_of stock.now plies.now) }
    ensures small { result ≤ 64000000000 }
{
    let mut total = 0;
    for ply in plies.items() {
        total += cost_of_ply(stock, *ply);
    }
    total
}

fn cost_of_ply(stock: &Stock, ply: ItemNo) -> u64
    requires { ply.0 < length stock.now }
    ensures value { IfSome (slice_get stock.now ply.0) (λ i. result ≡ i.cost) }
    ensures small { result ≤ 1000000000 }
{
    stock.items()[ply.0 as usize].cost
}
