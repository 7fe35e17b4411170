// The Tsai-Wu surface of a lamina, with stresses counted in the lesser strengths of their axes.

ghost use Rattle.std.specs.Prelude.{◌≡◌, ◌+◌, ◌≤◌, pos, ◌*ℤ◌, ◌<ℤ◌, unsigned_abs};
ghost use Rattle.std.specs.Int.{int_max};
ghost use Rattle.lam_fraction.specs.inside.Size.{AtMost};
ghost use Rattle.lam_fraction.specs.inside.Reaches.{Reaches, sixteenths};
ghost use Rattle.lam_stock.specs.Limits.{AreWithinSixteen, IsStrength, KeepsStrengths};
ghost use Rattle.lam_support.specs.inside.Formulas as by;
ghost use Rattle.lam_support.specs.inside.Known.{ReachSurface};

use crate::slopes::lesser;
use lam_fraction::machine::wide_product;
use lam_number::Enclosure;
use lam_stock::Lamina;

/// The units of F12 times two stresses in kPa.
const INTERACTION_UNIT: i128 = 1_000_000_000_000_000_000;

/// The surface u²/σ + v²/τ + w² + 2c uv + b u + d v = 1, with u, v and w the stresses along and
/// across the fibres and the shear stress over the lesser strengths of their axes.
#[derive(Clone, Copy)]
pub struct Surface<N> {
    /// σ/64: the greater over the lesser strength along the fibres.
    pub along: N,
    /// τ/64: the greater over the lesser strength across them.
    pub across: N,
    /// c σ τ/64
    pub coupling: N,
    /// (1 - c² σ τ)/16
    pub rest: N,
    /// b
    pub shift_along: N,
    /// d
    pub shift_across: N,
}

/// The surface of a lamina.
pub fn surface_of<N: Enclosure>(lamina: &Lamina) -> Surface<N>
    requires strengths { KeepsStrengths lamina.now }
    requires interaction { AtMost 1000000000000 lamina.now.f12 }
    ensures value { result ≡ by.surface N.numbers.calc lamina.now }
    ensures reach { ReachSurface N.numbers result }
{
    let greater_coupling = coupling(lamina);
    Surface {
        along: ratio(lamina.xt, lamina.xc),
        across: ratio(lamina.yt, lamina.yc),
        coupling: greater_coupling,
        rest: rest(lesser_coupling(lamina), greater_coupling),
        shift_along: shift(lamina.xt, lamina.xc),
        shift_across: shift(lamina.yt, lamina.yc),
    }
}

// the greater strength over 64 times the lesser
fn ratio<N: Enclosure>(tension: i64, compression: i64) -> N
    requires tension { IsStrength tension }
    requires compression { IsStrength compression }
    requires near { AreWithinSixteen tension compression }
    ensures { result ≡ by.ratio N.numbers.calc tension compression }
{
    let least = 64 * lesser(tension, compression);
    over(greater(tension, compression), least)
}

// the linear term: the excess in compression over the greater strength
fn shift<N: Enclosure>(tension: i64, compression: i64) -> N
    requires tension { IsStrength tension }
    requires compression { IsStrength compression }
    ensures { result ≡ by.shift N.numbers.calc tension compression }
{
    let excess = compression - tension;
    over(excess, greater(tension, compression))
}

// the greater of two strengths
fn greater(a: i64, b: i64) -> i64
    requires first { IsStrength a }
    requires second { IsStrength b }
    ensures value { result ≡ int_max a b }
    ensures strength { IsStrength result }
{
    a.max(b)
}

// a number over one of at least its size
fn over<N: Enclosure>(num: i64, den: i64) -> N
    requires positive { pos 0 <ℤ den }
    requires within { unsigned_abs num ≤ unsigned_abs den }
    ensures { result ≡ N.numbers.calc.ratio num den }
{
    N::of_ratio(num as i128, den as i128)
}

// F12 times the greater strengths
fn coupling<N: Enclosure>(lamina: &Lamina) -> N
    requires strengths { KeepsStrengths lamina.now }
    requires interaction { AtMost 1000000000000 lamina.now.f12 }
    ensures { result ≡ by.coupling N.numbers.calc lamina.now }
{
    let along = greater(lamina.xt, lamina.xc);
    let across = greater(lamina.yt, lamina.yc);
    N::of_ratio(
        interaction(lamina.f12, along, across),
        64 * INTERACTION_UNIT,
    )
}

// F12 times the lesser strengths
fn lesser_coupling<N: Enclosure>(lamina: &Lamina) -> N
    requires strengths { KeepsStrengths lamina.now }
    requires interaction { AtMost 1000000000000 lamina.now.f12 }
    ensures { result ≡ by.lesser_coupling N.numbers.calc lamina.now }
{
    let along = lesser(lamina.xt, lamina.xc);
    let across = lesser(lamina.yt, lamina.yc);
    N::of_ratio(interaction(lamina.f12, along, across), INTERACTION_UNIT)
}

// F12 times two strengths
fn interaction(f12: i64, along: i64, across: i64) -> i128
    requires small { AtMost 1000000000000 f12 }
    requires along { IsStrength along }
    requires across { IsStrength across }
    ensures { result ≡ f12 *ℤ (along *ℤ across) }
{
    f12 as i128 * wide_product(along, across)
}

// (1 - c² σ τ)/16
fn rest<N: Enclosure>(lesser: N, greater: N) -> N
    requires lesser { Reaches N.numbers (sixteenths 16 + 4) lesser }
    requires greater { Reaches N.numbers (sixteenths 4 + 4) greater }
    ensures { result ≡ by.rest N.numbers.calc lesser greater }
{
    let square = lesser.mul(greater);
    let taken = square.times_whole(4);
    let one = N::of_ratio(1, 16);
    one.sub(taken)
}
