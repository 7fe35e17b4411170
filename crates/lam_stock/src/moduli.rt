// The stiffness bounds of a lamina: its cap and its floor.

ghost use Rattle.std.specs.Prelude.{◌≡◌, ◌^◌, ◌<◌, ◌≤ℤ◌, pos, ◌*ℤ◌, ◌+ℤ◌, int_div};
ghost use Rattle.lam_stock.specs.Limits.{ModuliInRange};
ghost use Rattle.lam_stock.specs.Moduli as spec;

use crate::item::Lamina;

/// The greatest modulus that the scale has to cover: the greater of 2(E1 + E2) and 2 G12.
pub fn stiffness_cap(lamina: &Lamina) -> i64
    requires { ModuliInRange lamina.now }
    ensures value { result ≡ spec.stiffness_cap lamina.now }
    ensures least { pos 4000 ≤ℤ result }
    ensures greatest { result ≤ℤ pos 1600000 }
{
    let sum = doubled_sum(lamina);
    let shear = doubled_shear(lamina);
    if shear < sum { sum } else { shear }
}

/// The least modulus that the scale has to keep apart from 0: the lesser of the whole part of
/// E1 E2 / (E1 + E2) and of 2 G12.
pub fn stiffness_floor(lamina: &Lamina) -> i64
    requires { ModuliInRange lamina.now }
    ensures value { result ≡ spec.stiffness_floor lamina.now }
    ensures least { pos 500 ≤ℤ result }
    ensures greatest { result ≤ℤ pos 400000 }
{
    let harmonic = harmonic(lamina);
    let shear = doubled_shear(lamina);
    if shear < harmonic { shear } else { harmonic }
}

// 2(E1 + E2)
fn doubled_sum(lamina: &Lamina) -> i64
    requires { ModuliInRange lamina.now }
    ensures { result ≡ pos 2 *ℤ (lamina.now.e1 +ℤ lamina.now.e2) }
{
    2 * (lamina.e1 + lamina.e2)
}

// 2 G12
fn doubled_shear(lamina: &Lamina) -> i64
    requires { ModuliInRange lamina.now }
    ensures { result ≡ pos 2 *ℤ lamina.now.g12 }
{
    2 * lamina.g12
}

// the whole part of E1 E2 / (E1 + E2)
fn harmonic(lamina: &Lamina) -> i64
    requires { ModuliInRange lamina.now }
    ensures value { result ≡ (let l = lamina.now in int_div (l.e1 *ℤ l.e2) (l.e1 +ℤ l.e2)) }
    ensures least { pos 500 ≤ℤ result }
    ensures greatest { result ≤ℤ pos 400000 }
{
    let e1 = size(&lamina.e1);
    let e2 = size(&lamina.e2);
    (e1 * e2 / (e1 + e2)) as i64
}

/// A number that is not negative.
pub fn size(x: &i64) -> u64
    requires { pos 0 ≤ℤ x.now }
    ensures value { pos result ≡ x.now }
    ensures small { result < 2 ^ 63 }
{
    *x as u64
}
