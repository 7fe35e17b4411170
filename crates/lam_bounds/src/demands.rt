// What a case demands of a weighted force.

ghost use Rattle.std.specs.Prelude.{◌≡◌, ◌≤◌, ◌^◌, ◌+ℤ◌, ◌*ℤ◌};
ghost use Rattle.lam_fraction.specs.inside.Size.{AtMost};
ghost use Rattle.lam_tree.specs.ForceBalance.{need as need_spec};
ghost use Rattle.lam_bounds.specs.inside.Demands as by;

use lam_fraction::machine::wide_product;
use lam_job::{Case, Load, resultants};
use lam_support::Weight;

/// How much of a weighted force the plies of a wall have to carry under a case: the weighted force
/// times the factor, in quarters of N/m and thousandths, and 0 where that is below 0.
pub fn demand(case: &Case, w: &Weight) -> u128
    ensures value { result ≡ by.demand case.now w.now }
    ensures small { result ≤ 2 ^ 90 }
{
    natural(need(case, w))
}

// the weighted force times the factor
fn need(case: &Case, w: &Weight) -> i128
    ensures value { result ≡ need_spec case.now w.now }
    ensures small { AtMost (2 ^ 90) result }
{
    let load = resultants(case);
    i128::from(case.factor) * weighted(w, &load)
}

// a weighted force, in quarters of N/m
fn weighted(w: &Weight, load: &Load) -> i128
    ensures value { result
        ≡ w.now.x *ℤ load.now.nx +ℤ w.now.y *ℤ load.now.ny +ℤ w.now.s *ℤ load.now.nxy }
    ensures small { AtMost (2 ^ 72) result }
{
    wide_product(w.x, load.nx) + wide_product(w.y, load.ny) + wide_product(w.s, load.nxy)
}

// a number, and 0 where it is below 0
fn natural(z: i128) -> u128
    requires { AtMost (2 ^ 90) z }
    ensures value { result ≡ by.natural_part z }
    ensures small { result ≤ 2 ^ 90 }
{
    if z < 0 { 0 } else { z.unsigned_abs() }
}
