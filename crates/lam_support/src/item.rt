// The capacity of an item.

ghost use Rattle.std.specs.Prelude.{◌≡◌, ◌+◌, ◌*◌, ◌/◌, ◌^◌, ◌<◌, ◌≤◌, pos, unsigned_abs};
ghost use Rattle.lam_fraction.specs.Fraction.{ℚ, whole, fraction, ◌+ℚ◌, ◌*ℚ◌, ◌≤ℚ◌};
ghost use Rattle.lam_fraction.specs.inside.Size.{AtMost};
ghost use Rattle.lam_direction.specs.Squares.{AreWithinSize};
ghost use Rattle.lam_stock.specs.Limits.{KeepsStrengths};
ghost use Rattle.lam_stock.specs.Stock.{WithinLimits};
ghost use Rattle.lam_number.specs.inside.FixNumbers.{fix_numbers};
ghost use Rattle.lam_support.specs.Carried.{CarriesAtMost};
ghost use Rattle.lam_support.specs.inside.Formulas as by;
ghost use Rattle.lam_support.specs.inside.Known.{OnCircle, ReachSurface};

use crate::reach::reach;
use crate::slopes::{at_strengths, greatest, ply_weight, slopes_of};
use crate::surface::{Surface, surface_of};
use crate::weight::Weight;
use lam_direction::DirectionSquares;
use lam_number::{Enclosure, Fix};
use lam_stock::{Item, Kind, Lamina};

/// The greatest weighted force, in N/m, that the item's layer carries while its stresses stay
/// inside its Tsai-Wu surface (Jones, the strength of a lamina under biaxial stress), rounded up by
/// at most a thousandth and two. `x` times the force along the wall, `y` times the force round it
/// and `s` times the shear force is at most this in every layer that keeps its strength.
pub fn capacity(item: &Item, w: &Weight) -> u64
    requires { WithinLimits item.now }
    ensures least { 1 ≤ result }
    ensures bound { CarriesAtMost item.now.kind item.now.lamina item.now.dir w.now
        (whole (pos result)) }
    ensures near { (v : ℚ)
        → CarriesAtMost item.now.kind item.now.lamina item.now.dir w.now v
        → whole (pos result) ≤ℚ fraction (pos 1001) (pos 1000) *ℚ v +ℚ whole (pos 2) }
    ensures value { result
        ≡ by.capacity (fix_numbers 60) item.now.kind item.now.lamina item.now.dir w.now }
{
    let surface = surface_of(&item.lamina);
    let squares = item.dir.squares();
    let other = other_side(item.kind, &squares);
    let first = side(&surface, &item.lamina, &squares, w);
    let second = side(&surface, &item.lamina, &other, w);
    force(
        carried(item.lamina.t, first, second),
        divisor(squares.size, surface.rest.low()),
    )
}

// the squares of the direction of a pair's other side, and of a ply's only one
fn other_side(kind: Kind, squares: &DirectionSquares) -> DirectionSquares
    requires { AreWithinSize squares.now }
    ensures value { result ≡ by.other_side kind squares.now }
    ensures within { AreWithinSize result }
{
    match kind {
        Kind::Ply => *squares,
        Kind::Pair => DirectionSquares {
            product: -squares.product,
            ..*squares
        },
    }
}

// the steepest slope times the reach along the slopes, over 2^10 units
fn side(surface: &Surface<Fix<60>>, lamina: &Lamina, squares: &DirectionSquares, w: &Weight) -> u128
    requires strengths { KeepsStrengths lamina.now }
    requires surface { surface.now ≡ by.surface (fix_numbers 60).calc lamina.now }
    requires reach { ReachSurface (fix_numbers 60) surface.now }
    requires squares { AreWithinSize squares.now }
    requires circle { OnCircle squares.now }
    ensures value { result ≡ by.side (fix_numbers 60) lamina.now squares.now w.now }
    ensures small { result ≤ 2 ^ 104 }
    ensures part { result ≤ ((600 * unsigned_abs squares.now.size) * 5000000) * 2 ^ 52 }
{
    let weight = ply_weight(squares, w);
    let steep = at_strengths(lamina, &weight);
    let most = greatest(&steep);
    let slopes = slopes_of(&steep, most);
    let far = reach(surface, &slopes);
    product(most, shortened(far))
}

// the reach over 2^10 units, rounded up
fn shortened(reach: i64) -> u64
    requires { AtMost (2 ^ 62) reach }
    ensures value { result ≡ by.up (unsigned_abs reach) 1024 }
    ensures small { result ≤ 2 ^ 52 }
{
    reach.unsigned_abs().div_ceil(1024)
}

fn product(a: u64, b: u64) -> u128
    requires first { a ≤ 2 ^ 52 }
    requires second { b ≤ 2 ^ 52 }
    ensures value { result ≡ a * b }
    ensures small { result ≤ 2 ^ 104 }
{
    u128::from(a) * u128::from(b)
}

// the thickness times both sides
fn carried(thickness: i64, first: u128, second: u128) -> u128
    requires thickness { unsigned_abs thickness ≤ 20000 }
    requires first { first ≤ 2 ^ 104 }
    requires second { second ≤ 2 ^ 104 }
    ensures { result ≡ unsigned_abs thickness * (first + second) }
{
    u128::from(thickness.unsigned_abs()) * (first + second)
}

// a thousand times the size of the direction, times g/16 over 2^10 units, rounded down
fn divisor(size: i64, rest: i64) -> u128
    requires { unsigned_abs size ≤ 1000000 }
    ensures { result ≡ 1000 * unsigned_abs size * (unsigned_abs rest / 1024) }
{
    1000 * u128::from(size.unsigned_abs()) * u128::from(rest.unsigned_abs() / 1024)
}

// the whole force, rounded up
fn force(carried: u128, divisor: u128) -> u64
    requires positive { 0 < divisor }
    requires small { carried ≤ 2 ^ 60 * divisor }
    ensures { result ≡ by.up carried divisor }
{
    carried.div_ceil(divisor) as u64
}
