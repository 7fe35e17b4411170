//! Exact steps in 128 bits. Each contract speaks of whole numbers and not of their bits.

ghost use Rattle.std.specs.Prelude.{◌≡◌, ◌+◌, ◌*◌, ◌^◌, ◌<◌, ◌≤◌, ℤ, pos, neg_ℤ, ◌+ℤ◌, ◌-ℤ◌, ◌*ℤ◌, ◌≤ℤ◌, ◌<ℤ◌, unsigned_abs, FitsSigned};
ghost use Rattle.std.specs.Int.{w64, w128};
ghost use Rattle.lam_fraction.specs.numbers.Ends.{width};
ghost use Rattle.lam_fraction.specs.numbers.Rounding.{floor_over, ceil_over, root_floor};

use lam_fraction::machine::two_to;

/// The sum of two ends.
pub(crate) fn end_sum(a: i64, b: i64) -> i128
    ensures { result ≡ a +ℤ b }
{
    a as i128 + b as i128
}

/// The difference of two ends.
pub(crate) fn end_difference(a: i64, b: i64) -> i128
    ensures { result ≡ a -ℤ b }
{
    a as i128 - b as i128
}

/// The width between two ends.
pub(crate) fn spread(low: i64, high: i64) -> u128
    ensures value { result ≡ width low high }
    ensures bound { result < 2 ^ 64 }
{
    high.abs_diff(low) as u128
}

/// A number over a power of two, rounded down.
#[tactic(auto, unfolding(lam_fraction::specs::numbers::Rounding::floor_over))]
pub(crate) fn shift_down(value: i128, bits: u32) -> i128
    requires { bits < 128 }
    ensures { result ≡ floor_over value (2 ^ bits) }
{
    value >> bits
}

/// A number over a power of two, rounded up.
#[tactic(auto, unfolding(lam_fraction::specs::numbers::Rounding::floor_over, lam_fraction::specs::numbers::Rounding::ceil_over))]
pub(crate) fn shift_up(value: i128, bits: u32) -> i128
    requires bits { bits < 128 }
    requires negatable { FitsSigned w128 (neg_ℤ value) }
    ensures { result ≡ ceil_over value (2 ^ bits) }
{
    -shift_down(-value, bits)
}

/// A number over a positive one, rounded down.
#[tactic(auto, unfolding(lam_fraction::specs::numbers::Rounding::floor_over))]
pub(crate) fn floor_quotient(value: i128, over: i128) -> i128
    requires { pos 0 <ℤ over }
    ensures { result ≡ floor_over value (unsigned_abs over) }
{
    value.div_euclid(over)
}

/// A number over a positive one, rounded up.
#[tactic(auto, unfolding(lam_fraction::specs::numbers::Rounding::floor_over, lam_fraction::specs::numbers::Rounding::ceil_over))]
pub(crate) fn ceil_quotient(value: i128, over: i128) -> i128
    requires positive { pos 0 <ℤ over }
    requires negatable { FitsSigned w128 (neg_ℤ value) }
    ensures { result ≡ ceil_over value (unsigned_abs over) }
{
    -floor_quotient(-value, over)
}

/// The whole root of an end over a power of two, rounded down, over the same power.
pub(crate) fn scaled_root(end: i64, scale: u32) -> u128
    requires { scale ≤ 60 }
    ensures value { result ≡ root_floor (unsigned_abs end * 2 ^ scale) }
    ensures bound { result < 2 ^ 62 }
{
    (end.unsigned_abs() as u128 * two_to(scale)).isqrt()
}

/// The size of the sum of two ends.
pub(crate) fn sum_size(a: i64, b: i64) -> u128
    ensures { result ≡ unsigned_abs (a +ℤ b) }
{
    end_sum(a, b).unsigned_abs()
}

/// How far a product of two numbers lies from the product of their middles at most, from the sizes
/// of the middles and the distances to them.
pub(crate) fn spread_sum(middle: u128, spread: u128, other_middle: u128, other_spread: u128) -> u128
    requires { middle * other_spread + other_middle * spread + spread * other_spread < 2 ^ 128 }
    ensures { result ≡ middle * other_spread + other_middle * spread + spread * other_spread }
{
    let crossed = middle * other_spread + other_middle * spread;
    crossed + spread * other_spread
}
