// Stresses at a factor, over the strengths of an item.

ghost use Rattle.std.specs.Prelude.{◌≡◌, ℕ, ◌+◌, ◌*◌, ◌^◌, ◌≤◌, ◌<◌, ◌-◌, pos, neg_ℤ, ◌*ℤ◌, ◌+ℤ◌, ◌≤ℤ◌, unsigned_abs, IfSome};
ghost use Rattle.lam_fraction.specs.numbers.Numbers.{reach, unit};
ghost use Rattle.lam_fraction.specs.inside.Reaches.{Reaches, sixteenths};
ghost use Rattle.lam_stock.specs.Limits.{IsStrength};
ghost use Rattle.lam_tsai.specs.inside.Reach.{ReachRound};
ghost use Rattle.lam_tsai.specs.inside.Values as by;

use lam_fraction::machine::{product, two_to};
use lam_number::Enclosure;

/// A stress times a factor, over 16 times a strength and two to the power of a shift.
#[derive(Clone, Copy)]
pub struct Loaded<N> {
    /// What is enclosed, at most as large as the stress.
    pub value: N,
    /// The least shift by which it is no larger, and at most 24.
    pub shift: u32,
}

/// A number by a middle and its distance from it.
#[derive(Clone, Copy)]
pub struct Round<N> {
    /// The middle.
    pub middle: N,
    /// All that the distance may be.
    pub spread: N,
}

/// A stress of an eighth over `q0`, at a load of `q0` times the factor.
pub fn bear<N: Enclosure>(stress: N, load: i64, strength: i64) -> Loaded<N>
    requires stress { Reaches N.numbers (sixteenths 72 + 256) stress }
    requires strength { IsStrength strength }
    requires least { pos 0 ≤ℤ load }
    requires greatest { load ≤ℤ pos (2 ^ 37) }
    requires room { load ≤ℤ (pos (2 ^ 25) *ℤ strength) }
    ensures value { result ≡ by.loaded N.numbers stress load strength }
    ensures shift { result.shift ≤ 24 }
{
    let bound = 2 * strength;
    let shift = shift(load, bound);
    let share = share(load, bearing(bound, shift));
    let value = stress.mul(share);
    Loaded { value, shift }
}

// a share of at most one
fn share<N: Enclosure>(load: i64, bearing: i64) -> N
    requires positive { pos 1 ≤ℤ bearing }
    requires small { bearing ≤ℤ pos (2 ^ 48) }
    requires least { pos 0 ≤ℤ load }
    requires most { load ≤ℤ bearing }
    ensures value { result ≡ N.numbers.calc.ratio load bearing }
    ensures reach { Reaches N.numbers (sixteenths 16 + 4) result }
{
    N::of_ratio(i128::from(load), i128::from(bearing))
}

// a bound times two to the power of a shift
fn bearing(bound: i64, shift: u32) -> i64
    requires least { pos 1 ≤ℤ bound }
    requires greatest { bound ≤ℤ pos (2 ^ 24) }
    requires shift { shift ≤ 24 }
    ensures value { result ≡ bound *ℤ pos (2 ^ shift) }
    ensures positive { pos 1 ≤ℤ result }
    ensures small { result ≤ℤ pos (2 ^ 48) }
{
    product(bound, power(shift))
}

// the least shift by which a bound bears a load, and at most 24
fn shift(load: i64, bound: i64) -> u32
    requires least { pos 1 ≤ℤ bound }
    requires greatest { bound ≤ℤ pos (2 ^ 24) }
    requires load { load ≤ℤ (bound *ℤ pos (2 ^ 24)) }
    ensures value { result ≡ by.shift_of load bound }
    ensures small { result ≤ 24 }
    ensures bears { load ≤ℤ (bound *ℤ pos (2 ^ result)) }
{
    let mut shift: u32 = 0;
    while shift < 24 && bearing(bound, shift) < load {
        shift += 1;
    }
    shift
}

// two to the power of a number of at most 60
fn power(exponent: u32) -> i64
    requires { exponent ≤ 60 }
    ensures value { result ≡ pos (2 ^ exponent) }
    ensures greatest { result ≤ℤ pos (2 ^ 60) }
{
    two_to(exponent) as i64
}

/// U over two to the power of a number of at most 28.
pub fn unit_over<N: Enclosure>(places: u32) -> i64
    requires { places ≤ 28 }
    ensures value { result ≡ pos (2 ^ (N.numbers.scale - places)) }
    ensures least { pos 1 ≤ℤ result }
    ensures greatest { result ≤ℤ pos (2 ^ 60) }
{
    power(N::SCALE - places)
}

/// Tells whether all that is held is above 16 times the strength in size, on one side of 0.
pub fn is_beyond<N: Enclosure>(z: &Loaded<N>) -> bool
    requires { z.now.shift ≤ 24 }
    ensures { result ≡ by.beyond N.numbers z.now }
{
    is_outside(z.value, unit_over::<N>(z.shift))
}

// tells whether all that is held is above a size, on one side of 0
fn is_outside<N: Enclosure>(value: N, limit: i64) -> bool
    requires least { pos 0 ≤ℤ limit }
    ensures { result ≡ by.outside N.numbers value limit }
{
    limit < value.low() || value.high() < -limit
}

// tells whether nothing that is held is above a size
fn is_within<N: Enclosure>(value: N, limit: i64) -> bool
    requires least { pos 0 ≤ℤ limit }
    ensures { result ≡ by.within N.numbers value limit }
{
    -limit <= value.low() && value.high() <= limit
}

// nine eighths of U, over two to the power of a shift
fn nine_eighths<N: Enclosure>(shift: u32) -> i64
    requires { shift ≤ 24 }
    ensures value { result ≡ pos (by.nine_eighths N.numbers shift) }
    ensures least { pos 0 ≤ℤ result }
{
    unit_over::<N>(shift) + unit_over::<N>(3 + shift)
}

/// The stress times the factor over 16 times the strength, by its middle: where it reaches at most
/// nine eighths, and half its width is at most a sixteenth.
pub fn rounded<N: Enclosure>(z: &Loaded<N>) -> Option<Round<N>>
    requires { z.now.shift ≤ 24 }
    ensures value { result ≡ by.rounded N.numbers z.now }
    ensures reach { IfSome result (λ y. ReachRound N.numbers y) }
{
    if is_within(z.value, nine_eighths::<N>(z.shift)) {
        let y = z.value.times_whole(power(z.shift));
        stretched(y)
    } else {
        None
    }
}

// a number of at most nine eighths, by its middle, where half its width is at most a sixteenth
fn stretched<N: Enclosure>(y: N) -> Option<Round<N>>
    requires { Reaches N.numbers (sixteenths 18 + 4) y }
    ensures value { result ≡ by.stretched N.numbers y }
    ensures reach { IfSome result (λ r. ReachRound N.numbers r) }
{
    let middle = y.middle();
    let half = y.high() - middle;
    if unit_over::<N>(4) < half {
        return None;
    }
    Some(about(middle, half))
}

// a middle, and the distances of at most half
fn about<N: Enclosure>(middle: i64, half: i64) -> Round<N>
    requires middle { unsigned_abs middle ≤ 2 * unit N.numbers }
    requires half { unsigned_abs half ≤ 2 * unit N.numbers }
    ensures { result ≡ by.round N.numbers middle half }
{
    let up = parts::<N>(half);
    let down = parts::<N>(-half);
    Round {
        middle: parts(middle),
        spread: up.hull(down),
    }
}

// so many parts, of which U make one
fn parts<N: Enclosure>(number: i64) -> N
    requires { unsigned_abs number ≤ 2 * unit N.numbers }
    ensures value { result ≡ N.numbers.calc.ratio number (pos (unit N.numbers)) }
    ensures reach { reach N.numbers result ≤ 6 * unit N.numbers }
{
    N::of_ratio(i128::from(number), i128::from(unit_over::<N>(0)))
}
