// The coefficients of the Tsai-Wu criterion in plane stress (Jones, on the biaxial strength of a
// lamina).
//
// With y a stress times the factor over the greater strength of its axis, each variable is y/16, and
// the value is (f - 1)/4096, so that every term is of moderate size.

ghost use Rattle.std.specs.Prelude.{◌≡◌, ◌*ℤ◌, ◌-ℤ◌};
ghost use Rattle.std.specs.Int.{int_min, int_max};
ghost use Rattle.lam_stock.specs.Limits.{AreWithinSixteen, IsStrength, KeepsStrengths};
ghost use Rattle.lam_tsai.specs.inside.Formulas as by;
ghost use Rattle.lam_tsai.specs.inside.Reach.{ReachCoefficients};

use lam_fraction::machine::wide_product;
use lam_number::Enclosure;
use lam_stock::Lamina;

/// The coefficients of the value.
#[derive(Clone, Copy)]
pub struct Coefficients<N> {
    /// Of the stress along the fibres.
    pub along: N,
    /// Of the stress across the fibres.
    pub across: N,
    /// Of the square of the stress along the fibres.
    pub along_square: N,
    /// Of the square of the stress across the fibres.
    pub across_square: N,
    /// Of the product of both.
    pub mixed: N,
    /// What is subtracted.
    pub one: N,
}

/// The coefficients at a lamina.
pub fn coefficients_of<N: Enclosure>(lamina: &Lamina) -> Coefficients<N>
    requires { KeepsStrengths lamina.now }
    ensures value { result ≡ by.coefficients N.numbers.calc lamina.now }
    ensures reach { ReachCoefficients N.numbers result }
{
    Coefficients {
        along: linear(lamina.xt, lamina.xc),
        across: linear(lamina.yt, lamina.yc),
        along_square: quadratic(lamina.xt, lamina.xc),
        across_square: quadratic(lamina.yt, lamina.yc),
        mixed: mixed(lamina),
        one: N::of_ratio(1, 4096),
    }
}

// the coefficient of y/16 along an axis: (C - T)/(256 m), with m the lesser of the strengths T and C
fn linear<N: Enclosure>(tension: i64, compression: i64) -> N
    requires tension { IsStrength tension }
    requires compression { IsStrength compression }
    requires near { AreWithinSixteen tension compression }
    ensures { result ≡ by.linear N.numbers.calc tension compression }
{
    N::of_ratio(
        excess(compression, tension),
        times_lesser(256, tension, compression),
    )
}

// how far a number is above another
fn excess(a: i64, b: i64) -> i128
    ensures { result ≡ a -ℤ b }
{
    i128::from(a) - i128::from(b)
}

// a factor times the lesser of two numbers
fn times_lesser(factor: i64, a: i64, b: i64) -> i128
    ensures { result ≡ factor *ℤ int_min a b }
{
    wide_product(factor, a.min(b))
}

// the coefficient of (y/16)²: M/(16 m), with M the greater of the strengths
fn quadratic<N: Enclosure>(tension: i64, compression: i64) -> N
    requires tension { IsStrength tension }
    requires compression { IsStrength compression }
    requires near { AreWithinSixteen tension compression }
    ensures { result ≡ by.quadratic N.numbers.calc tension compression }
{
    N::of_ratio(
        i128::from(tension.max(compression)),
        times_lesser(16, tension, compression),
    )
}

// the coefficient of the product of both variables: F12 X Y/(8·10¹⁸), with X and Y the greater strengths
fn mixed<N: Enclosure>(lamina: &Lamina) -> N
    requires { KeepsStrengths lamina.now }
    ensures { result ≡ by.mixed N.numbers.calc lamina.now }
{
    N::of_ratio(interaction(lamina), 8_000_000_000_000_000_000)
}

// F12 X Y, the numerator of that coefficient
fn interaction(lamina: &Lamina) -> i128
    requires { KeepsStrengths lamina.now }
    ensures { result ≡ by.interaction lamina.now }
{
    let x = lamina.xt.max(lamina.xc);
    let y = lamina.yt.max(lamina.yc);
    i128::from(lamina.f12) * wide_product(x, y)
}
