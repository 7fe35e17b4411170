//! The calls of balls, with their values.
//!
//! Each works on middles and radii. What a middle loses by rounding, the radius takes in.

ghost use Rattle.std.specs.Prelude.{◌≡◌, ◌+◌, ◌*◌, ◌^◌, ◌<◌, ◌≤◌, pos, ◌+ℤ◌, ◌-ℤ◌, ◌≤ℤ◌, unsigned_abs, FitsSigned};
ghost use Rattle.std.specs.Int.{w64};
ghost use Rattle.lam_fraction.specs.numbers.Ends.{reach};
ghost use Rattle.lam_fraction.specs.numbers.Numbers.{RatioRoom, SumRoom, ProductRoom, MultipleRoom, SquareRoom, RootRoom, HullRoom};
ghost use Rattle.lam_fraction.specs.numbers.Rounding.{floor_over, ceil_over};
ghost use Rattle.lam_number.specs.inside.BallNumbers.{ball_numbers};
ghost use Rattle.lam_number.specs.inside.BallNumbers as by;

use crate::arithmetic::{end_floor, end_times, half_sum, high_quotient, ratio_floor};
use crate::ball::Ball;
use crate::wide::{scaled_root, shift_down, shift_up};
use lam_fraction::machine::{narrow, size, wide_product};

/// The power of two under a middle and a radius.
const SCALE: u32 = 60;

/// The middle less the radius.
pub(crate) fn low_end(x: Ball) -> i64
    ensures { result ≡ ball_numbers.low x }
{
    x.middle - x.radius
}

/// The middle and the radius.
pub(crate) fn high_end(x: Ball) -> i64
    ensures { result ≡ ball_numbers.high x }
{
    x.middle + x.radius
}

/// A ratio of whole numbers, rounded down, and one to each side.
pub(crate) fn ratio(num: i128, den: i128) -> Ball
    requires { RatioRoom num den }
    ensures { result ≡ ball_numbers.calc.ratio num den }
{
    Ball {
        middle: ratio_floor(num, den, SCALE),
        radius: 1,
    }
}

/// The sums of the middles and of the radii.
pub(crate) fn sum(x: Ball, y: Ball) -> Ball
    requires { SumRoom ball_numbers x y }
    ensures { result ≡ ball_numbers.calc.sum x y }
{
    Ball {
        middle: x.middle + y.middle,
        radius: x.radius + y.radius,
    }
}

/// The difference of the middles, and the sum of the radii.
pub(crate) fn difference(x: Ball, y: Ball) -> Ball
    requires { SumRoom ball_numbers x y }
    ensures { result ≡ ball_numbers.calc.difference x y }
{
    Ball {
        middle: x.middle - y.middle,
        radius: x.radius + y.radius,
    }
}

/// How far a product of two numbers lies from the product of their middles at most, from the sizes
/// of the middles and the radii.
fn spread_round(middle: u128, radius: u128, other_middle: u128, other_radius: u128) -> u128
    requires reach { other_middle + other_radius < 2 ^ 128 }
    requires room { middle * other_radius + radius * (other_middle + other_radius) < 2 ^ 128 }
    ensures { result ≡ middle * other_radius + radius * (other_middle + other_radius) }
{
    let other_reach = other_middle + other_radius;
    middle * other_radius + radius * other_reach
}

/// The same, of two balls.
fn spread(x: Ball, y: Ball) -> u128
    requires { ProductRoom ball_numbers x y }
    ensures value { result ≡ by.spread x y }
    ensures bound { result ≤ 6 * 2 ^ 120 }
{
    spread_round(
        size(x.middle),
        size(x.radius),
        size(y.middle),
        size(y.radius),
    )
}

/// A number over a unit, rounded down.
fn units_below(value: i128) -> i64
    requires { FitsSigned w64 (floor_over value (2 ^ 60)) }
    ensures { result ≡ floor_over value (2 ^ 60) }
{
    narrow(shift_down(value, SCALE))
}

/// A number over a unit, rounded up.
fn units_above(value: i128) -> i64
    requires negatable { unsigned_abs value < 2 ^ 127 }
    requires room { FitsSigned w64 (ceil_over value (2 ^ 60)) }
    ensures { result ≡ ceil_over value (2 ^ 60) }
{
    narrow(shift_up(value, SCALE))
}

/// The product of the middles over a unit, rounded down.
fn product_middle(x: Ball, y: Ball) -> i64
    requires { ProductRoom ball_numbers x y }
    ensures { result ≡ by.product_middle x y }
{
    units_below(wide_product(x.middle, y.middle))
}

/// The spread over a unit, rounded up, and one for what the middle loses.
fn product_radius(x: Ball, y: Ball) -> i64
    requires { ProductRoom ball_numbers x y }
    ensures { result ≡ by.product_radius x y }
{
    units_above(spread(x, y) as i128) + 1
}

/// The product, round that of the middles.
pub(crate) fn product(x: Ball, y: Ball) -> Ball
    requires { ProductRoom ball_numbers x y }
    ensures { result ≡ ball_numbers.calc.product x y }
{
    Ball {
        middle: product_middle(x, y),
        radius: product_radius(x, y),
    }
}

/// The square, as the product with itself.
pub(crate) fn squared(x: Ball) -> Ball
    requires { SquareRoom ball_numbers x }
    ensures { result ≡ ball_numbers.calc.square x }
{
    product(x, x)
}

/// The products of middle and radius with a whole number; the radius with its size.
pub(crate) fn whole_multiple(x: Ball, k: i64) -> Ball
    requires { MultipleRoom ball_numbers x k }
    ensures { result ≡ ball_numbers.calc.multiple x k }
{
    Ball {
        middle: end_times(x.middle, k, SCALE),
        radius: end_times(x.radius, k, SCALE).abs(),
    }
}

/// What is left of a middle by a quotient, and the radius, over a whole number, rounded up.
fn quotient_radius(middle: i64, radius: i64, k: i64, quotient: i64) -> i64
    requires positive { pos 1 ≤ℤ k }
    requires radius { (pos 0 ≤ℤ radius) × (radius ≤ℤ pos (7 * 2 ^ 60)) }
    requires quotient { quotient ≡ floor_over middle (unsigned_abs k) }
    ensures { result ≡ by.quotient_radius middle radius k quotient }
{
    let rest = middle as i128 - wide_product(quotient, k);
    high_quotient(rest + radius as i128, k as i128)
}

/// The quotient of the middle by a positive whole number, rounded down; the radius takes in what
/// it leaves.
pub(crate) fn whole_quotient(x: Ball, k: i64) -> Ball
    requires { pos 1 ≤ℤ k }
    ensures { result ≡ ball_numbers.calc.quotient x k }
{
    let middle = end_floor(x.middle, k);
    Ball {
        middle,
        radius: quotient_radius(x.middle, x.radius, k, middle),
    }
}

/// From 0 to one or two above the whole root of the high end.
pub(crate) fn root(x: Ball) -> Ball
    requires { RootRoom ball_numbers x }
    ensures { result ≡ ball_numbers.root x }
{
    let high = high_end(x);
    let half = (scaled_root(high, SCALE) as i64 + 2) / 2;
    Ball {
        middle: half,
        radius: half,
    }
}

/// Round half the sum of two ends, as far as the high one.
fn between(low: i64, high: i64) -> Ball
    requires order { low ≤ℤ high }
    requires room { reach low high ≤ 6 * 2 ^ 60 }
    ensures { result ≡ by.hull_of low high }
{
    let middle = half_sum(low, high);
    Ball {
        middle,
        radius: high - middle,
    }
}

/// From the lesser low end to the greater high end.
pub(crate) fn joined(x: Ball, y: Ball) -> Ball
    requires { HullRoom ball_numbers x y }
    ensures { result ≡ ball_numbers.hull x y }
{
    between(low_end(x).min(low_end(y)), high_end(x).max(high_end(y)))
}

/// The middle, which is half the sum of the ends.
pub(crate) fn middle_of(x: Ball) -> i64
    ensures { result ≡ floor_over (ball_numbers.low x +ℤ ball_numbers.high x) 2 }
{
    x.middle
}
