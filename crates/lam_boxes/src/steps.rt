// Exact steps in 64 and in 128 bits. Each contract speaks of whole numbers and not of their bits.

ghost use Rattle.std.specs.Prelude.{◌≡◌, ◌*◌, ◌^◌, ◌+◌, ◌-◌, ◌/◌, ◌<◌, ◌≤◌, pos, neg_ℤ, ◌*ℤ◌, ◌<ℤ◌, ◌≤ℤ◌, unsigned_abs};
ghost use Rattle.lam_fraction.specs.numbers.Numbers.{unit};
ghost use Rattle.lam_fraction.specs.numbers.Rounding.{floor_over};
ghost use Rattle.lam_fraction.specs.inside.Size.{AtMost};
ghost use Rattle.lam_solve.specs.inside.Elimination as by;
ghost use Rattle.lam_solve.specs.inside.Steps.{cut, over_up};

use lam_fraction::machine::{narrow, two_to, wide_product};
use lam_number::Enclosure;

/// No number of an elimination is larger.
pub(crate) const LARGEST: i64 = 1 << 62;

/// One, in units of an enclosure.
pub(crate) fn one<N: Enclosure>() -> i64
    ensures value { result ≡ pos (unit N.numbers) }
    ensures least { pos 1 ≤ℤ result }
    ensures small { AtMost (2 ^ 60) result }
{
    1i64 << N::SCALE
}

/// One, in bits in which sizes can be added and multiplied.
pub(crate) fn one_wide<N: Enclosure>() -> u128
    ensures value { result ≡ unit N.numbers }
    ensures least { 2 ^ 28 ≤ result }
    ensures small { result ≤ 2 ^ 60 }
{
    two_to(N::SCALE)
}

/// A size over another, rounded up.
pub(crate) fn quotient_up(value: u128, over: u128) -> u128
    requires over { 1 ≤ over }
    requires room { value + over < 2 ^ 128 }
    ensures { result ≡ over_up value over }
{
    (value + (over - 1)) / over
}

/// A number less a share of another, over two to the power of some bits.
pub(crate) fn less(value: i64, share: i64, other: i64, bits: u32) -> i64
    requires { bits ≤ 60 }
    ensures { result ≡ by.less bits value share other }
{
    let part = scaled_product(share, other, bits);
    let value = i128::from(value);
    cut_narrow(LARGEST, value - part)
}

/// A number over another, times two to the power of some bits, and at most so large; 0 where the other is not above 0.
pub(crate) fn quotient(value: i64, over: i64, bits: u32, most: i64) -> i64
    requires bits { bits ≤ 60 }
    requires sign { pos 0 ≤ℤ most }
    requires most { AtMost (5 * 2 ^ 60) most }
    ensures value { result ≡ by.quotient bits most value over }
    ensures small { AtMost (5 * 2 ^ 60) result }
{
    if over <= 0 {
        return 0;
    }
    let scale = power(bits);
    let raised = wide_product(value, scale);
    let over = i128::from(over);
    let quotient = floor_quotient(raised, over);
    cut_narrow(most, quotient)
}

// a product over two to the power of some bits, rounded down
fn scaled_product(a: i64, b: i64, bits: u32) -> i128
    requires { bits ≤ 60 }
    ensures value { result ≡ floor_over (a *ℤ b) (2 ^ bits) }
    ensures small { AtMost (2 ^ 126) result }
{
    let product = wide_product(a, b);
    shift_down(product, bits)
}

// two to the power of some bits
fn power(bits: u32) -> i64
    requires { bits ≤ 60 }
    ensures value { result ≡ pos (2 ^ bits) }
    ensures small { AtMost (2 ^ 60) result }
{
    1i64 << bits
}

// a number over a power of two, rounded down
#[tactic(auto, unfolding(lam_fraction::specs::numbers::Rounding::floor_over))]
fn shift_down(value: i128, bits: u32) -> i128
    requires { bits < 128 }
    ensures { result ≡ floor_over value (2 ^ bits) }
{
    value >> bits
}

// a number over a positive one, rounded down
#[tactic(auto, unfolding(lam_fraction::specs::numbers::Rounding::floor_over))]
fn floor_quotient(value: i128, over: i128) -> i128
    requires { pos 0 <ℤ over }
    ensures { result ≡ floor_over value (unsigned_abs over) }
{
    value.div_euclid(over)
}

// a number, or the nearest that is at most so large
fn cut_wide(most: i128, z: i128) -> i128
    requires sign { pos 0 ≤ℤ most }
    requires small { AtMost (2 ^ 126) most }
    ensures value { result ≡ cut most z }
    ensures least { neg_ℤ most ≤ℤ result }
    ensures greatest { result ≤ℤ most }
{
    z.min(most).max(-most)
}

// the same in 64 bits
fn cut_narrow(most: i64, z: i128) -> i64
    requires sign { pos 0 ≤ℤ most }
    requires small { AtMost (5 * 2 ^ 60) most }
    ensures value { result ≡ cut most z }
    ensures size { AtMost (5 * 2 ^ 60) result }
{
    narrow(cut_wide(i128::from(most), z))
}
