// Exact steps in 64 and in 128 bits. Each contract speaks of whole numbers and not of their bits.

ghost use Rattle.std.specs.Prelude.{◌≡◌, ◌*◌, ◌^◌, ◌+◌, ◌-◌, ◌/◌, ◌<◌, ◌≤◌, pos, neg_ℤ, ◌<ℤ◌, ◌≤ℤ◌, unsigned_abs};
ghost use Rattle.lam_fraction.specs.numbers.Numbers.{unit};
ghost use Rattle.lam_fraction.specs.numbers.Rounding.{floor_over};
ghost use Rattle.lam_fraction.specs.inside.Size.{AtMost};
ghost use Rattle.lam_solve.specs.inside.Steps.{cut, over_up};

use lam_fraction::machine::{narrow, size, two_to};
use lam_number::Enclosure;

/// One, in units of an enclosure.
pub(crate) fn one<N: Enclosure>() -> i64
    ensures value { result ≡ pos (unit N.numbers) }
    ensures least { pos 1 ≤ℤ result }
    ensures small { AtMost (2 ^ 60) result }
{
    1i64 << N::SCALE
}

/// Four, in units.
pub(crate) fn four<N: Enclosure>() -> i64
    ensures value { result ≡ pos (4 * unit N.numbers) }
    ensures sign { pos 0 ≤ℤ result }
    ensures small { AtMost (2 ^ 62) result }
{
    4 * one::<N>()
}

/// Two to the power of some bits.
pub(crate) fn power(bits: u32) -> i64
    requires { bits ≤ 60 }
    ensures value { result ≡ pos (2 ^ bits) }
    ensures small { AtMost (2 ^ 60) result }
{
    1i64 << bits
}

/// One, in bits in which sizes can be added and multiplied.
pub(crate) fn one_wide<N: Enclosure>() -> u128
    ensures value { result ≡ unit N.numbers }
    ensures least { 2 ^ 28 ≤ result }
    ensures small { result ≤ 2 ^ 60 }
{
    two_to(N::SCALE)
}

/// So many slops.
pub(crate) fn slops<N: Enclosure>(count: u32) -> u128
    requires { count ≤ 4096 }
    ensures { result ≡ count * N.numbers.slop }
{
    u128::from(count) * size(N::SLOP)
}

/// A number over a power of two, rounded down.
#[tactic(auto, unfolding(lam_fraction::specs::numbers::Rounding::floor_over))]
pub(crate) fn shift_down(value: i128, bits: u32) -> i128
    requires { bits < 128 }
    ensures { result ≡ floor_over value (2 ^ bits) }
{
    value >> bits
}

/// A number over a positive one, rounded down.
#[tactic(auto, unfolding(lam_fraction::specs::numbers::Rounding::floor_over))]
pub(crate) fn floor_quotient(value: i128, over: i128) -> i128
    requires { pos 0 <ℤ over }
    ensures { result ≡ floor_over value (unsigned_abs over) }
{
    value.div_euclid(over)
}

/// A size over another, rounded up.
pub(crate) fn quotient_up(value: u128, over: u128) -> u128
    requires over { 1 ≤ over }
    requires room { value + over < 2 ^ 128 }
    ensures { result ≡ over_up value over }
{
    (value + (over - 1)) / over
}

/// A number, or the nearest that is at most so large.
pub(crate) fn cut_wide(most: i128, z: i128) -> i128
    requires sign { pos 0 ≤ℤ most }
    requires small { AtMost (2 ^ 126) most }
    ensures value { result ≡ cut most z }
    ensures least { neg_ℤ most ≤ℤ result }
    ensures greatest { result ≤ℤ most }
{
    z.min(most).max(-most)
}

/// The same in 64 bits.
pub(crate) fn cut_narrow(most: i64, z: i128) -> i64
    requires sign { pos 0 ≤ℤ most }
    requires small { AtMost (2 ^ 62) most }
    ensures value { result ≡ cut most z }
    ensures size { AtMost (2 ^ 62) result }
{
    narrow(cut_wide(i128::from(most), z))
}
