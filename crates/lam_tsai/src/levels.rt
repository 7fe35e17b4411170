// What is known of the Tsai-Wu value at a face, on a side and at a factor.

ghost use Rattle.std.specs.Prelude.{◌≡◌, ◌+◌, ◌*◌, ◌^◌, ◌≤◌, pos, ◌*ℤ◌, ◌≤ℤ◌};
ghost use Rattle.lam_fraction.specs.Fraction.{whole};
ghost use Rattle.lam_fraction.specs.inside.Reaches.{Reaches, sixteenths};
ghost use Rattle.lam_stock.specs.PlyLaw.{OffAxis};
ghost use Rattle.lam_stock.specs.declared.item.Item.{Item};
ghost use Rattle.lam_stock.specs.declared.scale.Scale.{Scale};
ghost use Rattle.lam_tsai.specs.FaceStrains.{HoldsStrain, IsWithinSix};
ghost use Rattle.lam_tsai.specs.Levels.{IsLevel, side_of, value_at};
ghost use Rattle.lam_tsai.specs.Listed.{IsItemOf};
ghost use Rattle.lam_tsai.specs.inside.Reach.{ReachCoefficients, ReachCriterion, ReachStress};
ghost use Rattle.lam_tsai.specs.inside.Values as by;

use crate::coefficients::Coefficients;
use crate::components::{Components, strain_on_axis, stress_on_axis};
use crate::criterion::Criterion;
use crate::loaded::{Loaded, bear, is_beyond, rounded, unit_over};
use crate::place::{Level, Side};
use crate::value::round_point;
use lam_fraction::machine::product;
use lam_number::{Enclosure, FaceStrain};
use lam_stock::{Item, Scale};

/// What is known of the Tsai-Wu value f of an item at the strains of a face, on a side, at a factor
/// in thousandths.
pub fn level<N: Enclosure>(
    item: &Item,
    side: Side,
    scale: &Scale,
    at: &FaceStrain<N>,
    factor: i64,
) -> Level<N>
    requires item { IsItemOf scale.now item.now }
    requires six { IsWithinSix N.numbers at.now }
    requires least { pos 0 ≤ℤ factor }
    requires greatest { factor ≤ℤ pos 20000 }
    ensures held { (e : OffAxis) → HoldsStrain N.numbers at.now e
        → IsLevel N.numbers result (value_at item.now (side_of side) e (whole factor)) }
    ensures value { result ≡ by.level N.numbers item.now side scale.now at.now factor }
{
    let criterion = Criterion::of(item, scale);
    criterion.level(side, at, factor)
}

impl<N: Enclosure> Criterion<N> {
    /// The same by a criterion that was made before.
    pub fn level(&self, side: Side, at: &FaceStrain<N>, factor: i64) -> Level<N>
        requires made { ReachCriterion N.numbers self.now }
        requires six { IsWithinSix N.numbers at.now }
        requires least { pos 0 ≤ℤ factor }
        requires greatest { factor ≤ℤ pos 20000 }
        ensures held { (s : Scale) (i : Item) → IsItemOf s i
            → self.now ≡ by.criterion N.numbers s i
            → (e : OffAxis) → HoldsStrain N.numbers at.now e
            → IsLevel N.numbers result (value_at i (side_of side) e (whole factor)) }
        ensures value { result ≡ by.level_by N.numbers self.now side at.now factor }
    {
        let stress = self.stress(side, at);
        self.at_factor(&stress, factor)
    }

    /// The first step, the same whatever the factor: the stresses in the axes of a side, of an eighth
    /// of the strains and over `q0`.
    pub fn stress(&self, side: Side, at: &FaceStrain<N>) -> Components<N>
        requires made { ReachCriterion N.numbers self.now }
        requires six { IsWithinSix N.numbers at.now }
        ensures value { result ≡ by.stress N.numbers self.now side at.now }
        ensures reach { ReachStress N.numbers result }
    {
        let strain = match side {
            Side::Plus => strain_on_axis(&self.plus, at),
            Side::Minus => strain_on_axis(&self.minus, at),
        };
        stress_on_axis(&self.reduced, &strain)
    }

    /// The second step: what is known of the value at such stresses times a factor.
    pub fn at_factor(&self, stress: &Components<N>, factor: i64) -> Level<N>
        requires made { ReachCriterion N.numbers self.now }
        requires stress { ReachStress N.numbers stress.now }
        requires least { pos 0 ≤ℤ factor }
        requires greatest { factor ≤ℤ pos 20000 }
        ensures { result ≡ by.at_factor N.numbers self.now stress.now factor }
    {
        let load = load_of(self.q0, factor);
        let along = bear(stress.along, load, self.along);
        let across = bear(stress.across, load, self.across);
        let shear = bear(stress.shear, load, self.shear);
        level_between(&self.coefficients, &along, &across, &shear)
    }
}

// the scale times a factor
fn load_of(q0: i64, factor: i64) -> i64
    requires least { pos 0 ≤ℤ q0 }
    requires greatest { q0 ≤ℤ pos 4194304 }
    requires from { pos 0 ≤ℤ factor }
    requires to { factor ≤ℤ pos 20000 }
    ensures value { result ≡ q0 *ℤ factor }
    ensures positive { pos 0 ≤ℤ result }
    ensures small { result ≤ℤ pos (2 ^ 37) }
    ensures most { result ≤ℤ (q0 *ℤ pos 20000) }
{
    product(q0, factor)
}

// above 2 where one stress is beyond what any strength bears, whatever the others are
fn level_between<N: Enclosure>(
    coefficients: &Coefficients<N>,
    along: &Loaded<N>,
    across: &Loaded<N>,
    shear: &Loaded<N>,
) -> Level<N>
    requires coefficients { ReachCoefficients N.numbers coefficients.now }
    requires along { along.now.shift ≤ 24 }
    requires across { across.now.shift ≤ 24 }
    requires shear { shear.now.shift ≤ 24 }
    ensures { result ≡ by.level_between N.numbers coefficients.now along.now across.now shear.now }
{
    if is_beyond(along) || is_beyond(across) || is_beyond(shear) {
        Level::Far
    } else {
        near(coefficients, along, across, shear)
    }
}

// by the middles of the three stresses
fn near<N: Enclosure>(
    coefficients: &Coefficients<N>,
    along: &Loaded<N>,
    across: &Loaded<N>,
    shear: &Loaded<N>,
) -> Level<N>
    requires coefficients { ReachCoefficients N.numbers coefficients.now }
    requires along { along.now.shift ≤ 24 }
    requires across { across.now.shift ≤ 24 }
    requires shear { shear.now.shift ≤ 24 }
    ensures { result ≡ by.near N.numbers coefficients.now (by.rounded N.numbers along.now)
        (by.rounded N.numbers across.now) (by.rounded N.numbers shear.now) }
{
    let Some(x) = rounded(along) else {
        return unknown();
    };
    let Some(y) = rounded(across) else {
        return unknown();
    };
    let Some(s) = rounded(shear) else {
        return unknown();
    };
    let middle = Components {
        along: x.middle,
        across: y.middle,
        shear: s.middle,
    };
    let spread = Components {
        along: x.spread,
        across: y.spread,
        shear: s.spread,
    };
    settled(round_point(coefficients, &middle, &spread))
}

// far where the value is above 2, and else near it
fn settled<N: Enclosure>(value: N) -> Level<N>
    requires { Reaches N.numbers (sixteenths 90) value }
    ensures { result ≡ by.settled N.numbers value }
{
    let two = unit_over::<N>(12);
    if two < value.low() {
        Level::Far
    } else if two < value.high() {
        Level::Near(value.hull(N::of_ratio(1, 4096)))
    } else {
        Level::Near(value)
    }
}

// every value that the criterion can have: f is at least -56.25, and g at most 2
fn unknown<N: Enclosure>() -> Level<N>
    ensures { result ≡ by.unknown N.numbers }
{
    let least = N::of_ratio(-58, 4096);
    let greatest = N::of_ratio(1, 4096);
    Level::Near(least.hull(greatest))
}
