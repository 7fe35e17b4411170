// The formulas of the transformed stiffness (Jones, the transformed reduced stiffnesses), from the
// reduced stiffness of a ply and the powers of its cosine c and sine s.

ghost use Rattle.std.specs.Prelude.{◌≡◌, ◌+◌};
ghost use Rattle.lam_fraction.specs.inside.Reaches.{Reaches, sixteenths};
ghost use Rattle.lam_lamina.specs.inside.Formulas as by;
ghost use Rattle.lam_lamina.specs.inside.Known.{ReachModuli, ReachPowers};

use crate::powers::Powers;
use crate::stiffness::{Reduced, Sym3};
use lam_number::Enclosure;

/// All six.
pub fn by_powers<N: Enclosure>(reduced: &Reduced<N>, powers: &Powers<N>) -> Sym3<N>
    requires moduli { ReachModuli N.numbers reduced.now }
    requires powers { ReachPowers N.numbers powers.now }
    ensures { result ≡ by.by_powers N.numbers.calc reduced.now powers.now }
{
    let between = between(reduced, powers.squares);
    Sym3 {
        xx: normal(reduced, between, powers.cosine_fourth, powers.sine_fourth),
        xy: mixed(normal_difference(reduced), reduced.q12, powers),
        yy: normal(reduced, between, powers.sine_fourth, powers.cosine_fourth),
        xs: skew(reduced, powers.cosine_third, powers.sine_third),
        ys: skew(reduced, powers.sine_third, powers.cosine_third),
        ss: mixed(shear_difference(reduced), reduced.q66, powers),
    }
}

// Q11 x + between + Q22 y
fn normal<N: Enclosure>(reduced: &Reduced<N>, between: N, x: N, y: N) -> N
    requires moduli { ReachModuli N.numbers reduced.now }
    requires between { Reaches N.numbers (sixteenths 12 + 64) between }
    requires x { Reaches N.numbers (sixteenths 16 + 4) x }
    requires y { Reaches N.numbers (sixteenths 16 + 4) y }
    ensures { result ≡ by.normal N.numbers.calc reduced.now between x y }
{
    let first = reduced.q11.mul(x);
    let sum = first.add(between);
    let second = reduced.q22.mul(y);
    sum.add(second)
}

// a difference times s²c², and a modulus times s⁴ + c⁴
fn mixed<N: Enclosure>(difference: N, modulus: N, powers: &Powers<N>) -> N
    requires difference { Reaches N.numbers (sixteenths 64 + 64) difference }
    requires modulus { Reaches N.numbers (sixteenths 8 + 4) modulus }
    requires powers { ReachPowers N.numbers powers.now }
    ensures { result ≡ by.mixed N.numbers.calc difference modulus powers.now }
{
    let first = difference.mul(powers.squares);
    let fourth = powers.sine_fourth.add(powers.cosine_fourth);
    let second = modulus.mul(fourth);
    first.add(second)
}

// (Q11 - Q12 - 2 Q66) x + (Q12 + 2 Q66 - Q22) y
fn skew<N: Enclosure>(reduced: &Reduced<N>, x: N, y: N) -> N
    requires moduli { ReachModuli N.numbers reduced.now }
    requires x { Reaches N.numbers (sixteenths 8 + 4) x }
    requires y { Reaches N.numbers (sixteenths 8 + 4) y }
    ensures { result ≡ by.skew N.numbers.calc reduced.now x y }
{
    let coupling = coupling(reduced);
    let before = reduced.q11.sub(coupling);
    let first = before.mul(x);
    let behind = coupling.sub(reduced.q22);
    let second = behind.mul(y);
    first.add(second)
}

// 2 (Q12 + 2 Q66) x
fn between<N: Enclosure>(reduced: &Reduced<N>, x: N) -> N
    requires moduli { ReachModuli N.numbers reduced.now }
    requires x { Reaches N.numbers (sixteenths 4 + 4) x }
    ensures { result ≡ by.between N.numbers.calc reduced.now x }
{
    let coupling = coupling(reduced);
    let twice = coupling.times_whole(2);
    twice.mul(x)
}

// Q12 + 2 Q66
fn coupling<N: Enclosure>(reduced: &Reduced<N>) -> N
    requires { ReachModuli N.numbers reduced.now }
    ensures { result ≡ by.coupling N.numbers.calc reduced.now }
{
    let twice = reduced.q66.times_whole(2);
    reduced.q12.add(twice)
}

// Q11 + Q22 - 4 Q66
fn normal_difference<N: Enclosure>(reduced: &Reduced<N>) -> N
    requires { ReachModuli N.numbers reduced.now }
    ensures { result ≡ by.normal_difference N.numbers.calc reduced.now }
{
    let sum = reduced.q11.add(reduced.q22);
    let shear = reduced.q66.times_whole(4);
    sum.sub(shear)
}

// Q11 + Q22 - 2 Q12 - 2 Q66
fn shear_difference<N: Enclosure>(reduced: &Reduced<N>) -> N
    requires { ReachModuli N.numbers reduced.now }
    ensures { result ≡ by.shear_difference N.numbers.calc reduced.now }
{
    let sum = reduced.q11.add(reduced.q22);
    let half = reduced.q12.add(reduced.q66);
    let twice = half.times_whole(2);
    sum.sub(twice)
}
