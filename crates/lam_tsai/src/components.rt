// The components of a strain and of a stress in ply axes.

ghost use Rattle.std.specs.Prelude.{◌≡◌, ◌+◌};
ghost use Rattle.lam_fraction.specs.inside.Reaches.{Reaches, sixteenths};
ghost use Rattle.lam_lamina.specs.inside.Known.{ReachModuli};
ghost use Rattle.lam_tsai.specs.FaceStrains.{IsWithinSix};
ghost use Rattle.lam_tsai.specs.inside.Formulas as by;
ghost use Rattle.lam_tsai.specs.inside.Reach.{ReachAngle, ReachStrain, ReachStress};

use crate::angle::Angle;
use lam_lamina::Reduced;
use lam_number::{Enclosure, FaceStrain};

/// Three numbers in the axes of a ply, of a strain or a stress.
#[derive(Clone, Copy)]
pub struct Components<N> {
    /// Along the fibres.
    pub along: N,
    /// Across the fibres.
    pub across: N,
    /// The shear; of a strain the engineering one.
    pub shear: N,
}

/// An eighth of a strain of the wall, transformed to ply axes (Jones, strain transformation).
pub fn strain_on_axis<N: Enclosure>(angle: &Angle<N>, at: &FaceStrain<N>) -> Components<N>
    requires angle { ReachAngle N.numbers angle.now }
    requires six { IsWithinSix N.numbers at.now }
    ensures value { result ≡ by.strain N.numbers.calc angle.now at.now }
    ensures reach { ReachStrain N.numbers result }
{
    let x = at.ex.over_positive(8);
    let y = at.ey.over_positive(8);
    let g = at.g.over_positive(8);
    Components {
        along: along(angle, x, y, g),
        across: across(angle, x, y, g),
        shear: shear(angle, x, y, g),
    }
}

// c² x + s² y + sc g
fn along<N: Enclosure>(angle: &Angle<N>, x: N, y: N, g: N) -> N
    requires angle { ReachAngle N.numbers angle.now }
    requires x { Reaches N.numbers (sixteenths 12 + 4) x }
    requires y { Reaches N.numbers (sixteenths 12 + 4) y }
    requires g { Reaches N.numbers (sixteenths 12 + 4) g }
    ensures { result ≡ by.along_strain N.numbers.calc angle.now x y g }
{
    let first = angle.cosine_square.mul(x);
    let second = angle.sine_square.mul(y);
    let normal = first.add(second);
    let third = angle.product.mul(g);
    normal.add(third)
}

// s² x + c² y - sc g
fn across<N: Enclosure>(angle: &Angle<N>, x: N, y: N, g: N) -> N
    requires angle { ReachAngle N.numbers angle.now }
    requires x { Reaches N.numbers (sixteenths 12 + 4) x }
    requires y { Reaches N.numbers (sixteenths 12 + 4) y }
    requires g { Reaches N.numbers (sixteenths 12 + 4) g }
    ensures { result ≡ by.across_strain N.numbers.calc angle.now x y g }
{
    let first = angle.sine_square.mul(x);
    let second = angle.cosine_square.mul(y);
    let normal = first.add(second);
    let third = angle.product.mul(g);
    normal.sub(third)
}

// 2 sc (y - x) + (c² - s²) g
fn shear<N: Enclosure>(angle: &Angle<N>, x: N, y: N, g: N) -> N
    requires angle { ReachAngle N.numbers angle.now }
    requires x { Reaches N.numbers (sixteenths 12 + 4) x }
    requires y { Reaches N.numbers (sixteenths 12 + 4) y }
    requires g { Reaches N.numbers (sixteenths 12 + 4) g }
    ensures { result ≡ by.shear_strain N.numbers.calc angle.now x y g }
{
    let twice = angle.product.times_whole(2);
    let between = y.sub(x);
    let first = twice.mul(between);
    let second = angle.difference.mul(g);
    first.add(second)
}

/// An eighth of the stress over the scale's `q0`, from an eighth of the strain (Jones, the
/// stress-strain relations for plane stress).
pub fn stress_on_axis<N: Enclosure>(reduced: &Reduced<N>, strain: &Components<N>) -> Components<N>
    requires reduced { ReachModuli N.numbers reduced.now }
    requires strain { ReachStrain N.numbers strain.now }
    ensures value { result ≡ by.stress N.numbers.calc reduced.now strain.now }
    ensures reach { ReachStress N.numbers result }
{
    let shear = reduced.q66.mul(strain.shear);
    Components {
        along: normal(reduced.q11, strain.along, reduced.q12, strain.across),
        across: normal(reduced.q12, strain.along, reduced.q22, strain.across),
        shear,
    }
}

// a x + b y
fn normal<N: Enclosure>(a: N, x: N, b: N, y: N) -> N
    requires a { Reaches N.numbers (sixteenths 16 + 4) a }
    requires x { Reaches N.numbers (sixteenths 36 + 64) x }
    requires b { Reaches N.numbers (sixteenths 16 + 4) b }
    requires y { Reaches N.numbers (sixteenths 36 + 64) y }
    ensures { result ≡ by.normal N.numbers.calc a x b y }
{
    let first = a.mul(x);
    let second = b.mul(y);
    first.add(second)
}
