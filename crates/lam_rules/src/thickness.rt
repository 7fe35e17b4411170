// How thick a wall is.

ghost use Rattle.std.specs.Prelude.{◌≡◌, ◌*◌, ◌≤◌, ◌≤ℤ◌, pos, length, All};
ghost use Rattle.std.specs.Int.{int_max};
ghost use Rattle.lam_stock.specs.declared.item.Item.{Item};
ghost use Rattle.lam_stock.specs.Stock.{IsKnown, WithinLimits};
ghost use Rattle.lam_job.specs.Schedule.{items_of, wall_of};
ghost use Rattle.lam_job.specs.Wall.{wall_thickness};
ghost use Rattle.lam_job.specs.Partial.{thickest as thickest_spec};

use lam_job::Job;
use lam_stock::{Item, ItemNo, Stock};

/// The thickness of the wall of a schedule, in µm: that of the listed plies, with the liner where
/// it carries load.
pub fn thickness(job: &Job, stock: &Stock, listed: &[ItemNo]) -> i64
    requires liner { IsKnown stock.now job.now.liner }
    requires known { IsKnown stock.now listed.now }
    requires few { length listed.now ≤ 64 }
    ensures value { result ≡ wall_thickness (wall_of stock.now job.now listed.now) }
    ensures least { pos 0 ≤ℤ result }
    ensures greatest { result ≤ℤ pos 2560000 }
{
    let own = thickness_of(stock.items(), listed);
    if !job.liner_in_wall {
        return own;
    }
    thickness_of(stock.items(), job.liner.items()) + own
}

/// The thickness of the thickest item of a catalogue, in µm.
pub fn thickest(stock: &Stock) -> i64
    ensures value { result ≡ thickest_spec stock.now }
    ensures least { pos 0 ≤ℤ result }
    ensures greatest { result ≤ℤ pos 20000 }
{
    let mut most = 0;
    for item in stock.items() {
        most = greater(most, item.lamina.t);
    }
    most
}

// the greater of two numbers
fn greater(a: i64, b: i64) -> i64
    ensures { result ≡ int_max a b }
{
    if b < a { a } else { b }
}

// the sum of the thicknesses of the items of some numbers
fn thickness_of(items: &[Item], numbers: &[ItemNo]) -> i64
    requires limits { All WithinLimits items.now }
    requires known { IsKnown items.now numbers.now }
    requires few { length numbers.now ≤ 64 }
    ensures value { result ≡ wall_thickness (items_of items.now numbers.now) }
    ensures least { pos (50 * length numbers.now) ≤ℤ result }
    ensures greatest { result ≤ℤ pos (20000 * length numbers.now) }
{
    let mut sum = 0;
    for ply in numbers {
        sum += items[ply.0 as usize].lamina.t;
    }
    sum
}
