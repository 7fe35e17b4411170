// How far a surface reaches along a slope: the greatest value of a weighted stress round the
// middle of the surface, by the inverse of its quadratic form.

ghost use Rattle.std.specs.Prelude.{◌≡◌, ◌+◌, ◌^◌, ◌≤◌, pos, ◌-ℤ◌, ◌≤ℤ◌};
ghost use Rattle.lam_fraction.specs.inside.Reaches.{Reaches, sixteenths};
ghost use Rattle.lam_fraction.specs.inside.Size.{AtMost};
ghost use Rattle.lam_support.specs.inside.Formulas as by;
ghost use Rattle.lam_support.specs.inside.Known.{ReachSurface, ReachSlopes};

use crate::slopes::Slopes;
use crate::surface::Surface;
use lam_number::Enclosure;

/// 2 g/64 times the greatest value of a slope over the surface, over one unit and rounded up, with
/// g = 1 - c² σ τ.
pub fn reach<N: Enclosure>(surface: &Surface<N>, slopes: &Slopes<N>) -> i64
    requires surface { ReachSurface N.numbers surface.now }
    requires slopes { ReachSlopes N.numbers slopes.now }
    requires sign { pos 0 ≤ℤ N.numbers.high (by.square N.numbers.calc surface.now slopes.now) }
    ensures value { result ≡ by.reach N.numbers surface.now slopes.now }
    ensures small { AtMost (2 ^ 62) result }
{
    let lean = lean(surface, slopes);
    let square = square(surface, slopes);
    let root = square.root_up();
    difference(root.high(), lean.low())
}

// twice the slope's value in the middle of the surface, downwards
fn lean<N: Enclosure>(surface: &Surface<N>, slopes: &Slopes<N>) -> N
    requires surface { ReachSurface N.numbers surface.now }
    requires slopes { ReachSlopes N.numbers slopes.now }
    ensures { result ≡ by.lean N.numbers.calc surface.now slopes.now }
{
    form(
        surface,
        slopes.along,
        slopes.across,
        surface.shift_along,
        surface.shift_across,
    )
}

// the square of the distance from the middle
fn square<N: Enclosure>(surface: &Surface<N>, slopes: &Slopes<N>) -> N
    requires surface { ReachSurface N.numbers surface.now }
    requires slopes { ReachSlopes N.numbers slopes.now }
    ensures { result ≡ by.square N.numbers.calc surface.now slopes.now }
{
    let extent = extent(surface);
    let spread = spread(surface, slopes);
    extent.mul(spread)
}

// how large the surface is round its middle
fn extent<N: Enclosure>(surface: &Surface<N>) -> N
    requires { ReachSurface N.numbers surface.now }
    ensures { result ≡ by.extent N.numbers.calc surface.now }
{
    let shifted = form(
        surface,
        surface.shift_along,
        surface.shift_across,
        surface.shift_along,
        surface.shift_across,
    );
    surface.rest.add(shifted)
}

// how large the square of the slope is over it
fn spread<N: Enclosure>(surface: &Surface<N>, slopes: &Slopes<N>) -> N
    requires surface { ReachSurface N.numbers surface.now }
    requires slopes { ReachSlopes N.numbers slopes.now }
    ensures { result ≡ by.spread N.numbers.calc surface.now slopes.now }
{
    let normal = form(
        surface,
        slopes.along,
        slopes.across,
        slopes.along,
        slopes.across,
    );
    let steep = slopes.shear.square();
    let sheared = surface.rest.mul(steep);
    let shear = sheared.over_positive(4);
    normal.add(shear)
}

// the form that is inverse to the surface's: σ ax - c σ τ (ay + bx) + τ by
fn form<N: Enclosure>(surface: &Surface<N>, a: N, b: N, x: N, y: N) -> N
    requires surface { ReachSurface N.numbers surface.now }
    requires first { Reaches N.numbers (sixteenths 16 + 4) a }
    requires second { Reaches N.numbers (sixteenths 16 + 4) b }
    requires third { Reaches N.numbers (sixteenths 16 + 4) x }
    requires fourth { Reaches N.numbers (sixteenths 16 + 4) y }
    ensures { result ≡ by.form N.numbers.calc surface.now a b x y }
{
    let first = a.mul(x);
    let along = surface.along.mul(first);
    let one = a.mul(y);
    let other = b.mul(x);
    let mixed = one.add(other);
    let coupled = surface.coupling.mul(mixed);
    let second = b.mul(y);
    let across = surface.across.mul(second);
    let normal = along.sub(coupled);
    normal.add(across)
}

// the difference of two ends
fn difference(a: i64, b: i64) -> i64
    requires first { AtMost (2 ^ 61) a }
    requires second { AtMost (2 ^ 61) b }
    ensures value { result ≡ a -ℤ b }
    ensures small { AtMost (2 ^ 62) result }
{
    a - b
}
