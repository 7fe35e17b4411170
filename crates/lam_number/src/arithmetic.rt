//! The calls of fixed point, with their values.
//!
//! The functions are shared by all scales from 28 to 60. Each rounds its low end down and its high
//! end up, and works in 128 bits inside.

ghost use Rattle.std.specs.Prelude.{◌≡◌, ◌+◌, ◌-◌, ◌*◌, ◌^◌, ◌<◌, ◌≤◌, ℤ, pos, neg_ℤ, ◌+ℤ◌, ◌-ℤ◌, ◌*ℤ◌, ◌≤ℤ◌, ◌<ℤ◌, unsigned_abs, FitsSigned};
ghost use Rattle.std.specs.Int.{w64, w128, int_min, int_max};
ghost use Rattle.lam_fraction.specs.numbers.Ends.{reach, width};
ghost use Rattle.lam_fraction.specs.inside.FixedEnds.{IsScale, product_centre, product_spread, product_low, product_high, ratio_low, ratio_high};
ghost use Rattle.lam_number.specs.Signs.{sign_of};
ghost use Rattle.lam_number.specs.inside.FixNumbers.{fix_numbers};
ghost use Rattle.lam_fraction.specs.numbers.Rounding.{floor_over, ceil_over, root_floor};

use crate::enclosure::Sign;
use crate::fix::Fix;
use crate::wide::{
    ceil_quotient, end_difference, end_sum, floor_quotient, scaled_root, shift_down, shift_up,
    spread, spread_sum, sum_size,
};
use lam_fraction::machine::{narrow, product_of_wide, two_to, wide_product};

/// The sum, end by end.
pub(crate) fn sum<const S: u32>(x: Fix<S>, y: Fix<S>) -> Fix<S>
    requires scale { IsScale S }
    requires room { reach x.low x.high + reach y.low y.high ≤ 6 * 2 ^ S }
    ensures { result ≡ (fix_numbers S).calc.sum x.entry y.entry }
{
    Fix {
        low: narrow(end_sum(x.low, y.low)),
        high: narrow(end_sum(x.high, y.high)),
    }
}

/// The difference: the low end less the other's high end, and the high end less its low end.
pub(crate) fn difference<const S: u32>(x: Fix<S>, y: Fix<S>) -> Fix<S>
    requires scale { IsScale S }
    requires room { reach x.low x.high + reach y.low y.high ≤ 6 * 2 ^ S }
    ensures { result ≡ (fix_numbers S).calc.difference x.entry y.entry }
{
    Fix {
        low: narrow(end_difference(x.low, y.high)),
        high: narrow(end_difference(x.high, y.low)),
    }
}

/// The product of the doubled middles.
fn centre_of_product<const S: u32>(x: Fix<S>, y: Fix<S>) -> i128
    requires room { reach x.low x.high * reach y.low y.high ≤ 6 * (2 ^ S * 2 ^ S) }
    requires scale { IsScale S }
    ensures { result ≡ product_centre x.entry.low x.entry.high y.entry.low y.entry.high }
{
    product_of_wide(end_sum(x.low, x.high), end_sum(y.low, y.high))
}

/// How far four times a product of held numbers lies from the product of the doubled middles.
fn spread_of_product<const S: u32>(x: Fix<S>, y: Fix<S>) -> u128
    requires room { reach x.low x.high * reach y.low y.high ≤ 6 * (2 ^ S * 2 ^ S) }
    requires scale { IsScale S }
    ensures { result ≡ product_spread x.entry.low x.entry.high y.entry.low y.entry.high }
{
    spread_sum(
        sum_size(x.low, x.high),
        spread(x.low, x.high),
        sum_size(y.low, y.high),
        spread(y.low, y.high),
    )
}

/// The low end of what lies within a spread of a centre, over four units.
fn low_within(centre: i128, spread: u128, scale: u32) -> i64
    requires scale { IsScale scale }
    requires room { unsigned_abs centre + spread ≤ 24 * (2 ^ scale * 2 ^ scale) }
    ensures { result ≡ floor_over (centre -ℤ pos spread) (2 ^ (scale + 2)) }
{
    narrow(shift_down(centre - spread as i128, scale + 2))
}

/// The high end of what lies within a spread of a centre, over four units.
fn high_within(centre: i128, spread: u128, scale: u32) -> i64
    requires scale { IsScale scale }
    requires room { unsigned_abs centre + spread ≤ 24 * (2 ^ scale * 2 ^ scale) }
    ensures { result ≡ ceil_over (centre +ℤ pos spread) (2 ^ (scale + 2)) }
{
    narrow(shift_up(centre + spread as i128, scale + 2))
}

/// The product, round the doubled middles.
pub(crate) fn multiple<const S: u32>(x: Fix<S>, y: Fix<S>) -> Fix<S>
    requires scale { IsScale S }
    requires room { reach x.low x.high * reach y.low y.high ≤ 6 * (2 ^ S * 2 ^ S) }
    ensures { result ≡ (fix_numbers S).calc.product x.entry y.entry }
{
    let centre = centre_of_product(x, y);
    let spread = spread_of_product(x, y);
    Fix {
        low: low_within(centre, spread, S),
        high: high_within(centre, spread, S),
    }
}

/// The square, as the product with itself.
pub(crate) fn squared<const S: u32>(x: Fix<S>) -> Fix<S>
    requires scale { IsScale S }
    requires room { reach x.low x.high ≤ 2 * 2 ^ S }
    ensures { result ≡ (fix_numbers S).calc.square x.entry }
{
    multiple(x, x)
}

/// The end times a whole number.
pub(crate) fn end_times(end: i64, k: i64, scale: u32) -> i64
    requires scale { IsScale scale }
    requires room { unsigned_abs end * unsigned_abs k ≤ 6 * 2 ^ scale }
    ensures { result ≡ end *ℤ k }
{
    narrow(wide_product(end, k))
}

/// The product with a whole number, from the lesser of the ends' products to the greater.
pub(crate) fn whole_multiple<const S: u32>(x: Fix<S>, k: i64) -> Fix<S>
    requires scale { IsScale S }
    requires room { reach x.low x.high * unsigned_abs k ≤ 6 * 2 ^ S }
    ensures { result ≡ (fix_numbers S).calc.multiple x.entry k }
{
    let from_low = end_times(x.low, k, S);
    let from_high = end_times(x.high, k, S);
    Fix {
        low: from_low.min(from_high),
        high: from_low.max(from_high),
    }
}

/// The low end of a number over a positive one.
fn low_quotient(value: i128, over: i128) -> i64
    requires positive { pos 0 <ℤ over }
    requires room { FitsSigned w64 (floor_over value (unsigned_abs over)) }
    ensures { result ≡ floor_over value (unsigned_abs over) }
{
    narrow(floor_quotient(value, over))
}

/// The high end of a number over a positive one.
pub(crate) fn high_quotient(value: i128, over: i128) -> i64
    requires positive { pos 0 <ℤ over }
    requires negatable { unsigned_abs value < 2 ^ 127 }
    requires room { FitsSigned w64 (ceil_over value (unsigned_abs over)) }
    ensures { result ≡ ceil_over value (unsigned_abs over) }
{
    narrow(ceil_quotient(value, over))
}

/// A numerator in units of a scale.
fn in_units(num: i128, scale: u32) -> i128
    requires scale { IsScale scale }
    requires num { unsigned_abs num ≤ 2 ^ 66 }
    ensures value { result ≡ num *ℤ pos (2 ^ scale) }
    ensures bound { unsigned_abs result ≤ 2 ^ 126 }
{
    product_of_wide(num, two_to(scale) as i128)
}

/// The low end of a ratio.
pub(crate) fn ratio_floor(num: i128, den: i128, scale: u32) -> i64
    requires scale { IsScale scale }
    requires positive { pos 0 <ℤ den }
    requires num { unsigned_abs num ≤ 2 ^ 66 }
    requires room { unsigned_abs num ≤ 6 * unsigned_abs den }
    ensures { result ≡ ratio_low scale num den }
{
    low_quotient(in_units(num, scale), den)
}

/// The high end of a ratio.
fn ratio_ceil(num: i128, den: i128, scale: u32) -> i64
    requires scale { IsScale scale }
    requires positive { pos 0 <ℤ den }
    requires num { unsigned_abs num ≤ 2 ^ 66 }
    requires room { unsigned_abs num ≤ 6 * unsigned_abs den }
    ensures { result ≡ ratio_high scale num den }
{
    high_quotient(in_units(num, scale), den)
}

/// A ratio of whole numbers.
pub(crate) fn ratio<const S: u32>(num: i128, den: i128) -> Fix<S>
    requires scale { IsScale S }
    requires positive { pos 0 <ℤ den }
    requires num { unsigned_abs num ≤ 2 ^ 66 }
    requires room { unsigned_abs num ≤ 6 * unsigned_abs den }
    ensures { result ≡ (fix_numbers S).calc.ratio num den }
{
    Fix {
        low: ratio_floor(num, den, S),
        high: ratio_ceil(num, den, S),
    }
}

/// An end over a positive whole number, rounded down.
pub(crate) fn end_floor(end: i64, k: i64) -> i64
    requires { pos 1 ≤ℤ k }
    ensures { result ≡ floor_over end (unsigned_abs k) }
{
    low_quotient(end as i128, k as i128)
}

/// An end over a positive whole number, rounded up.
fn end_ceil(end: i64, k: i64) -> i64
    requires { pos 1 ≤ℤ k }
    ensures { result ≡ ceil_over end (unsigned_abs k) }
{
    high_quotient(end as i128, k as i128)
}

/// The quotient by a positive whole number.
pub(crate) fn whole_quotient<const S: u32>(x: Fix<S>, k: i64) -> Fix<S>
    requires { pos 1 ≤ℤ k }
    ensures { result ≡ (fix_numbers S).calc.quotient x.entry k }
{
    Fix {
        low: end_floor(x.low, k),
        high: end_ceil(x.high, k),
    }
}

/// From 0 to one above the whole root of the high end.
pub(crate) fn root<const S: u32>(x: Fix<S>) -> Fix<S>
    requires scale { IsScale S }
    requires sign { pos 0 ≤ℤ x.high }
    ensures { result ≡ (fix_numbers S).root x.entry }
{
    Fix {
        low: 0,
        high: scaled_root(x.high, S) as i64 + 1,
    }
}

/// From the lesser low end to the greater high end.
pub(crate) fn joined<const S: u32>(x: Fix<S>, y: Fix<S>) -> Fix<S>
    ensures { result ≡ (fix_numbers S).hull x.entry y.entry }
{
    Fix {
        low: x.low.min(y.low),
        high: x.high.max(y.high),
    }
}

/// Where the ends lie to a margin round 0.
pub(crate) fn sign_of_ends(low: i64, high: i64, margin: i64) -> Sign
    requires { pos 0 ≤ℤ margin }
    ensures { result ≡ sign_of low high margin }
{
    if high < -margin {
        Sign::Below
    } else if low > margin {
        Sign::Above
    } else {
        Sign::Mixed
    }
}

/// Half the sum of the ends, rounded down.
#[tactic(auto, unfolding(lam_fraction::specs::numbers::Rounding::floor_over))]
pub(crate) fn half_sum(low: i64, high: i64) -> i64
    ensures { result ≡ floor_over (low +ℤ high) 2 }
{
    narrow(shift_down(end_sum(low, high), 1))
}
