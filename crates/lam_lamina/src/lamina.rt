// The reduced stiffness of a lamina (Jones, the stress-strain relations for plane stress in an
// orthotropic material).

ghost use Rattle.std.specs.Prelude.{◌≡◌, ◌≤◌, pos, ◌*ℤ◌, ◌<ℤ◌, ◌≤ℤ◌, unsigned_abs};
ghost use Rattle.lam_stock.specs.Limits.{ModuliInRange, KeepsPoisson};
ghost use Rattle.lam_stock.specs.PlyLaw as law;
ghost use Rattle.lam_lamina.specs.Covered.{IsCovered};
ghost use Rattle.lam_lamina.specs.Held.{HoldsModuli, NarrowModuli};
ghost use Rattle.lam_lamina.specs.Stiffness.{moduli_over};
ghost use Rattle.lam_lamina.specs.inside.Formulas as by;
ghost use Rattle.lam_lamina.specs.inside.Known.{ReachModuli};

use crate::stiffness::Reduced;
use lam_fraction::machine::product;
use lam_number::Enclosure;
use lam_stock::{Lamina, Scale};

/// The reduced stiffness of a lamina, over the scale's `q0`: with `n21 = n12 E2/E1`,
/// `Q11 = E1/(1 - n12 n21)`, `Q12 = n12 E2/(1 - n12 n21)`, `Q22 = E2/(1 - n12 n21)` and
/// `Q66 = G12`.
pub fn reduced<N: Enclosure>(lamina: &Lamina, scale: &Scale) -> Reduced<N>
    requires { IsCovered scale.now.q0 lamina.now }
    ensures held { HoldsModuli N.numbers result (moduli_over scale.now.q0 lamina.now) }
    ensures narrow { NarrowModuli 1 N.numbers result }
    ensures reach { ReachModuli N.numbers result }
    ensures value { result ≡ by.reduced N.numbers.calc scale.now.q0 lamina.now }
{
    let denominator = product(poisson_rest(lamina), scale.q0);
    Reduced {
        q11: modulus(q11_numerator(lamina), denominator),
        q12: modulus(q12_numerator(lamina), denominator),
        q22: modulus(q22_numerator(lamina), denominator),
        q66: modulus(lamina.g12, scale.q0),
    }
}

// a fraction of no more than 1
fn modulus<N: Enclosure>(num: i64, den: i64) -> N
    requires positive { pos 0 <ℤ den }
    requires small { unsigned_abs num ≤ unsigned_abs den }
    ensures { result ≡ N.numbers.calc.ratio num den }
{
    N::of_ratio(num as i128, den as i128)
}

// a million times 1 - n12 n21, times E1
fn poisson_rest(lamina: &Lamina) -> i64
    requires range { ModuliInRange lamina.now }
    requires poisson { KeepsPoisson lamina.now }
    ensures value { result ≡ law.poisson_rest lamina.now }
    ensures least { pos 1 ≤ℤ result }
    ensures greatest { result ≤ℤ pos 1000000000000 }
{
    1_000_000 * lamina.e1 - product(product(lamina.n12, lamina.n12), lamina.e2)
}

// a million times E1²
fn q11_numerator(lamina: &Lamina) -> i64
    requires { ModuliInRange lamina.now }
    ensures { result ≡ pos 1000000 *ℤ (lamina.now.e1 *ℤ lamina.now.e1) }
{
    1_000_000 * product(lamina.e1, lamina.e1)
}

// a million times n12 E1 E2, with n12 as a fraction
fn q12_numerator(lamina: &Lamina) -> i64
    requires { ModuliInRange lamina.now }
    ensures { result ≡ pos 1000 *ℤ (lamina.now.n12 *ℤ (lamina.now.e1 *ℤ lamina.now.e2)) }
{
    1000 * product(lamina.n12, product(lamina.e1, lamina.e2))
}

// a million times E1 E2
fn q22_numerator(lamina: &Lamina) -> i64
    requires { ModuliInRange lamina.now }
    ensures { result ≡ pos 1000000 *ℤ (lamina.now.e1 *ℤ lamina.now.e2) }
{
    1_000_000 * product(lamina.e1, lamina.e2)
}
