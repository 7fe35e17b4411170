// The verdict on a level.

ghost use Rattle.std.specs.Prelude.{◌≡◌, ◌≤◌, ◌^◌, pos, ◌≤ℤ◌};
ghost use Rattle.lam_fraction.specs.numbers.Numbers.{unit};
ghost use Rattle.lam_tsai.specs.Levels as spec;

use crate::place::Level;
use lam_fraction::machine::two_to;
use lam_number::{Enclosure, Sign, Verdict};

/// The verdict on a level: it Meets where all that is held is below 0 by more than a margin, Fails
/// where all is above 0 by more than the margin, or far above, and else Straddles. The margin is
/// 2⁻³⁶ of U, rounded down, so at 60 bits 2⁻²⁴ of the Tsai-Wu value. An exact tie always straddles.
pub fn verdict<N: Enclosure>(level: &Level<N>) -> Verdict
    ensures { result ≡ spec.verdict_of N.numbers level.now }
{
    match level {
        Level::Near(value) => by_sign(value.sign(margin::<N>())),
        Level::Far => Verdict::Fails,
    }
}

// below is met, above has failed
fn by_sign(sign: Sign) -> Verdict
    ensures { result ≡ spec.by_sign sign }
{
    match sign {
        Sign::Below => Verdict::Meets,
        Sign::Above => Verdict::Fails,
        Sign::Mixed => Verdict::Straddles,
    }
}

// 2⁻³⁶ of U, rounded down
fn margin<N: Enclosure>() -> i64
    ensures value { result ≡ spec.margin_of N.numbers }
    ensures least { pos 0 ≤ℤ result }
{
    (unit_of::<N>() >> 36) as i64
}

// U, two to the power of the scale
fn unit_of<N: Enclosure>() -> u128
    ensures value { result ≡ unit N.numbers }
    ensures bound { result ≤ 2 ^ 60 }
{
    two_to(N::SCALE)
}
