// The first case whose loads are out of range for a wall.

ghost use Rattle.std.specs.Prelude.{◌≡◌, ◌≤◌, length};
ghost use Rattle.lam_judge.specs.inside.Kept.{first_out_from};

use lam_job::{Case, resultants};
use lam_stock::Scale;
use lam_wall::in_range;

/// The first case whose loads are out of range for a wall of thickness `h` in µm, counted from 0.
pub(crate) fn first_out(scale: &Scale, h: i64, cases: &[Case]) -> Option<u8>
    requires { length cases.now ≤ 16 }
    ensures { result ≡ first_out_from scale.now.floor h 0 cases.now }
{
    for number in 0..cases.len() {
        let load = resultants(&cases[number]);
        if !in_range(scale, h, &load) {
            return Some(number as u8);
        }
    }
    None
}
