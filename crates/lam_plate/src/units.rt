// The load of a panel and the stiffness of its wall as whole numbers, whose quotient is compared. Their units make
// the quotient that of a quarter of the formula: 11236 is the square of 106, and 110889 that of 333.

ghost use Rattle.std.specs.Prelude.{◌≡◌, ◌*◌, ◌^◌, ◌≤◌, pos, ◌*ℤ◌, ◌≤ℤ◌, ◌<ℤ◌};
ghost use Rattle.lam_plate.specs.inside.Formulas as by;

use lam_fraction::machine::{narrow, wide_product};
use lam_job::Panel;

/// A thousandth of the load of a panel, in the units of `stiffness_units`.
pub(crate) fn load_units(panel: &Panel) -> i128
    ensures value { result ≡ by.load_units panel.now }
    ensures least { pos 0 ≤ℤ result }
    ensures most { result ≤ℤ pos 4494400000000000000000000 }
{
    wide_product(panel.load, panel.width * panel.width) * 11_236_000
}

/// The stiffness h³ q0 of a wall, in the same units.
pub(crate) fn stiffness_units(q0: i64, h: i64) -> i128
    requires some_h { pos 1 ≤ℤ h }
    requires few_h { h ≤ℤ pos 1280000 }
    requires some_q0 { pos 1 ≤ℤ q0 }
    requires few_q0 { q0 ≤ℤ pos 2097152 }
    ensures value { result ≡ by.stiffness_units q0 h }
    ensures least { pos 1 ≤ℤ result }
    ensures most { result ≤ℤ pos (2 ^ 99) }
{
    110_889 * wide_product(h * h, h * q0)
}

/// By how many bits two numbers are shifted down, so that 62 hold them.
pub(crate) fn shift_for(load: i128, stiffness: i128) -> u32
    requires load { pos 0 ≤ℤ load }
    requires stiffness { pos 0 ≤ℤ stiffness }
    ensures value { result ≡ by.shift_for load stiffness }
    ensures few { result ≤ 66 }
    ensures load { load <ℤ pos (2 ^ 62 * 2 ^ result) }
    ensures stiffness { stiffness <ℤ pos (2 ^ 62 * 2 ^ result) }
{
    66u32.saturating_sub(load.max(stiffness).unsigned_abs().leading_zeros())
}

/// A number that is shifted down.
pub(crate) fn shifted(z: i128, shift: u32) -> i64
    requires least { pos 0 ≤ℤ z }
    requires most { z <ℤ pos (2 ^ 62 * 2 ^ shift) }
    requires few { shift ≤ 66 }
    ensures value { result ≡ by.shifted z shift }
    ensures least { pos 0 ≤ℤ result }
    ensures most { result <ℤ pos (2 ^ 62) }
{
    narrow(shift_down(z, shift))
}

// a number over a power of two, rounded down
#[tactic(auto, unfolding(lam_fraction::specs::numbers::Rounding::floor_over))]
fn shift_down(z: i128, shift: u32) -> i128
    requires { shift ≤ 66 }
    ensures { result ≡ by.shifted z shift }
{
    z >> shift
}
