// A weight in the axes of a ply.

ghost use Rattle.std.specs.Prelude.{◌≡◌, ◌^◌, ◌≤◌, unsigned_abs, pos, ◌*ℤ◌};
ghost use Rattle.std.specs.Int.{int_min};
ghost use Rattle.lam_fraction.specs.inside.Size.{AtMost};
ghost use Rattle.lam_direction.specs.Squares.{AreWithinSize};
ghost use Rattle.lam_stock.specs.Limits.{IsStrength, StrengthsInRange};
ghost use Rattle.lam_support.specs.inside.Formulas as by;
ghost use Rattle.lam_support.specs.inside.Known.{ReachSlopes, AreSmall};

use crate::weight::Weight;
use lam_direction::DirectionSquares;
use lam_number::Enclosure;
use lam_stock::Lamina;

/// The weights of the stresses in the axes of a ply.
#[derive(Clone, Copy)]
pub struct PlyWeight {
    /// Of the normal stress along the fibres.
    pub along: i64,
    /// Of the normal stress across them.
    pub across: i64,
    /// Of the shear stress.
    pub shear: i64,
}

/// How steep a weighted stress is along the axes of the surface, over the steepest of the three.
#[derive(Clone, Copy)]
pub struct Slopes<N> {
    pub along: N,
    pub across: N,
    pub shear: N,
}

/// A weight in the axes of a ply, times the size of its direction: a stress in the axes of the
/// wall, weighted, is its stress in the axes of the ply with these weights.
pub fn ply_weight(squares: &DirectionSquares, w: &Weight) -> PlyWeight
    requires { AreWithinSize squares.now }
    ensures value { result ≡ by.ply_weight squares.now w.now }
    ensures small { AreSmall 600000000 result }
{
    PlyWeight {
        along: normal(
            squares.cosine_square,
            squares.sine_square,
            squares.product,
            w,
        ),
        across: normal(
            squares.sine_square,
            squares.cosine_square,
            -squares.product,
            w,
        ),
        shear: shear(
            squares.cosine_square,
            squares.sine_square,
            squares.product,
            w,
        ),
    }
}

// a x + b y + c s
fn normal(a: i64, b: i64, c: i64, w: &Weight) -> i64
    requires first { AtMost 1000000 a }
    requires second { AtMost 1000000 b }
    requires third { AtMost 1000000 c }
    ensures value { result ≡ by.normal a b c w.now }
    ensures small { AtMost 600000000 result }
{
    a * w.x + b * w.y + c * w.s
}

// 2 c (y - x) + (a - b) s
fn shear(a: i64, b: i64, c: i64, w: &Weight) -> i64
    requires first { AtMost 1000000 a }
    requires second { AtMost 1000000 b }
    requires third { AtMost 1000000 c }
    ensures value { result ≡ by.shear a b c w.now }
    ensures small { AtMost 600000000 result }
{
    2 * c * (w.y - w.x) + (a - b) * w.s
}

/// The same where the stresses are counted in the lesser strengths of their axes.
pub fn at_strengths(lamina: &Lamina, weight: &PlyWeight) -> PlyWeight
    requires strengths { StrengthsInRange lamina.now }
    requires small { AreSmall 600000000 weight.now }
    ensures { result ≡ by.at_strengths lamina.now weight.now }
{
    PlyWeight {
        along: at_strength(weight.along, lesser(lamina.xt, lamina.xc)),
        across: at_strength(weight.across, lesser(lamina.yt, lamina.yc)),
        shear: at_strength(weight.shear, lamina.s),
    }
}

// a weight times a strength
fn at_strength(weight: i64, strength: i64) -> i64
    requires small { AtMost 600000000 weight }
    requires strength { IsStrength strength }
    ensures { result ≡ weight *ℤ strength }
{
    weight * strength
}

/// The lesser of two strengths.
pub fn lesser(a: i64, b: i64) -> i64
    requires first { IsStrength a }
    requires second { IsStrength b }
    ensures value { result ≡ int_min a b }
    ensures strength { IsStrength result }
{
    a.min(b)
}

/// The greatest size of the three.
pub fn greatest(weight: &PlyWeight) -> u64
    ensures { result ≡ by.greatest weight.now }
{
    let normal = weight
        .along
        .unsigned_abs()
        .max(weight.across.unsigned_abs());
    normal.max(weight.shear.unsigned_abs())
}

/// Each of the three over the greatest size.
pub fn slopes_of<N: Enclosure>(weight: &PlyWeight, greatest: u64) -> Slopes<N>
    requires some { 1 ≤ greatest }
    requires small { greatest ≤ 2 ^ 62 }
    requires within { AreSmall greatest weight.now }
    ensures value { result ≡ by.slopes N.numbers.calc weight.now (pos greatest) }
    ensures reach { ReachSlopes N.numbers result }
{
    Slopes {
        along: slope(weight.along, greatest),
        across: slope(weight.across, greatest),
        shear: slope(weight.shear, greatest),
    }
}

// a number of at most the greatest size, over that size
fn slope<N: Enclosure>(weight: i64, greatest: u64) -> N
    requires some { 1 ≤ greatest }
    requires within { unsigned_abs weight ≤ greatest }
    ensures { result ≡ N.numbers.calc.ratio weight (pos greatest) }
{
    N::of_ratio(i128::from(weight), i128::from(greatest))
}
