// The plies of a wall.

ghost use Rattle.std.specs.Prelude.{◌≡◌, ℕ, ◌+◌, ◌<◌, ◌≤◌, ◌*◌, ◌≤ℤ◌, pos, neg_ℤ, List, ◌++◌, length, slice_get, Some, All, IsSomeAnd, if◌then◌else◌};
ghost use Rattle.lam_stock.specs.declared.item.Item.{Item};
ghost use Rattle.lam_stock.specs.Stock.{IsKnown, WithinLimits};
ghost use Rattle.lam_job.specs.Schedule.{IsJobFor, items_of, wall_of};
ghost use Rattle.lam_job.specs.Wall.{placed_plies, wall_thickness};
ghost use Rattle.lam_wall.specs.Faces.{faces};

use lam_job::Job;
use lam_stock::{Item, ItemNo, Stack, Stock};

/// The thickness of a wall of these plies, in µm.
pub fn thickness(stock: &Stock, wall: &Stack) -> i64
    requires known { IsKnown stock.now wall.now }
    ensures value { result ≡ wall_thickness (items_of stock.now wall.now) }
    ensures least { pos (50 * length wall.now) ≤ℤ result }
    ensures greatest { result ≤ℤ pos (20000 * length wall.now) }
{
    thickness_of(stock.items(), wall.items())
}

/// z of a face of a wall of these plies, in half µm outwards of the mid-plane. Face 0 is the inner surface of the wall,
/// and face k the outer one of its k-th ply.
pub fn face(stock: &Stock, wall: &Stack, k: u8) -> i64
    requires known { IsKnown stock.now wall.now }
    requires within { k ≤ length wall.now }
    ensures value { slice_get (faces (items_of stock.now wall.now)) k ≡ Some result }
    ensures inner { k < length wall.now
        → IsSomeAnd (slice_get (placed_plies (items_of stock.now wall.now)) k) (λ p. result ≡ p.inner) }
    ensures outer { (n : ℕ) → k ≡ n + 1
        → IsSomeAnd (slice_get (placed_plies (items_of stock.now wall.now)) n) (λ p. result ≡ p.outer) }
    ensures least { neg_ℤ (wall_thickness (items_of stock.now wall.now)) ≤ℤ result }
    ensures greatest { result ≤ℤ wall_thickness (items_of stock.now wall.now) }
{
    let items = stock.items();
    let numbers = wall.items();
    let below = thickness_of(items, &numbers[..usize::from(k)]);
    2 * below - thickness_of(items, numbers)
}

/// The plies that carry load: the listed ones, on those of the liner if it counts as a part of the wall.
pub fn wall_plies(job: &Job, listed: &Stack) -> Stack
    requires { length listed.now ≤ 56 }
    ensures plies { result ≡ (if job.now.liner_in_wall then job.now.liner ++ listed.now else listed.now) }
    ensures wall { (stock : List Item) → items_of stock result ≡ wall_of stock job.now listed.now }
    ensures known { (stock : List Item)
        → IsJobFor stock job.now → IsKnown stock listed.now → IsKnown stock result }
{
    if !job.liner_in_wall {
        return listed.copied();
    }
    let mut plies = job.liner.copied();
    for ply in listed.items() {
        plies.push(*ply);
    }
    plies
}

// the sum of the thicknesses of the items of some numbers
fn thickness_of(items: &[Item], numbers: &[ItemNo]) -> i64
    requires limits { All WithinLimits items.now }
    requires known { IsKnown items.now numbers.now }
    requires few { length numbers.now ≤ 64 }
    ensures value { result ≡ wall_thickness (items_of items.now numbers.now) }
    ensures least { pos (50 * length numbers.now) ≤ℤ result }
    ensures greatest { result ≤ℤ pos (20000 * length numbers.now) }
{
    let mut sum = 0;
    for ply in numbers {
        sum += items[ply.0 as usize].lamina.t;
    }
    sum
}
