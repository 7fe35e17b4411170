// What forces leave of their equations at a guess, and how far the strains can be from the guess by its length.

ghost use Rattle.std.specs.Prelude.{◌≡◌, ◌*◌, ◌≤◌, ◌<◌, ◌^◌, pos, unsigned_abs};
ghost use Rattle.lam_fraction.specs.numbers.Numbers.{unit};
ghost use Rattle.lam_fraction.specs.inside.Reaches.{Reaches};
ghost use Rattle.lam_solve.specs.inside.Parts.{IsPosed, IsScaled};
ghost use Rattle.lam_boxes.specs.inside.Parts.{IsThickness, MatrixReaches, NearCentre, ThreeReach, eighth_reach, extension_reach, force_reach, small_reach};
ghost use Rattle.lam_boxes.specs.inside.Residuals as by;

use crate::steps::{one_wide, quotient_up};
use crate::three::Three;
use lam_fraction::machine::{size, wide_product};
use lam_job::Load;
use lam_lamina::Sym3;
use lam_number::Enclosure;
use lam_stock::Scale;

/// The forces of a load over `h q0`.
pub(crate) fn forces<N: Enclosure>(load: &Load, scale: &Scale, h: i64) -> Three<N>
    requires { IsPosed scale.now h load.now }
    ensures value { result ≡ by.forces N.numbers.calc scale.now.q0 h load.now }
    ensures reach { ThreeReach N.numbers force_reach result }
{
    let whole = wide_product(h, scale.q0);
    let for_forces = 4 * whole;
    let nx = i128::from(load.nx);
    let ny = i128::from(load.ny);
    let nxy = i128::from(load.nxy);
    Three {
        x: N::of_ratio(nx, for_forces),
        y: N::of_ratio(ny, for_forces),
        s: N::of_ratio(nxy, for_forces),
    }
}

/// An eighth of a guess.
pub(crate) fn eighths<N: Enclosure>(centre: &Three<i64>) -> Three<N>
    requires { NearCentre N.numbers centre.now }
    ensures value { result ≡ by.eighths N.numbers.calc (unit N.numbers) centre.now }
    ensures reach { ThreeReach N.numbers eighth_reach result }
{
    Three {
        x: eighth(centre.x),
        y: eighth(centre.y),
        s: eighth(centre.s),
    }
}

// an eighth of one strain
fn eighth<N: Enclosure>(strain: i64) -> N
    requires { unsigned_abs strain ≤ 4 * unit N.numbers }
    ensures value { result ≡ N.numbers.calc.ratio strain (pos (8 * unit N.numbers)) }
    ensures reach { Reaches N.numbers eighth_reach result }
{
    let whole = 8 * one_wide::<N>();
    N::of_ratio(i128::from(strain), whole as i128)
}

/// An eighth of what the forces leave of their equations.
pub(crate) fn residual<N: Enclosure>(
    extension: &Sym3<N>,
    loads: &Three<N>,
    eighths: &Three<N>,
) -> Three<N>
    requires extension { MatrixReaches N.numbers extension_reach extension.now }
    requires loads { ThreeReach N.numbers force_reach loads.now }
    requires eighths { ThreeReach N.numbers eighth_reach eighths.now }
    ensures { result ≡ by.residual N.numbers.calc extension.now loads.now eighths.now }
{
    Three {
        x: row(loads.x, extension.xx, extension.xy, extension.xs, eighths),
        y: row(loads.y, extension.xy, extension.yy, extension.ys, eighths),
        s: row(loads.s, extension.xs, extension.ys, extension.ss, eighths),
    }
}

// an eighth of what a force leaves of an equation
fn row<N: Enclosure>(load: N, p: N, q: N, r: N, eighths: &Three<N>) -> N
    requires load { Reaches N.numbers force_reach load }
    requires p { Reaches N.numbers extension_reach p }
    requires q { Reaches N.numbers extension_reach q }
    requires r { Reaches N.numbers extension_reach r }
    requires eighths { ThreeReach N.numbers eighth_reach eighths.now }
    ensures { result ≡ by.row N.numbers.calc load p q r eighths.now }
{
    let x = p.mul(eighths.x);
    let y = q.mul(eighths.y);
    let s = r.mul(eighths.s);
    let normal = x.add(y);
    let sum = normal.add(s);
    let part = load.over_positive(8);
    part.sub(sum)
}

/// Tells whether each is at most an eighth in size.
pub(crate) fn are_small<N: Enclosure>(rest: &Three<N>) -> bool
    ensures { result ≡ by.are_small N.numbers rest.now }
{
    is_small(rest.x) && is_small(rest.y) && is_small(rest.s)
}

// tells whether both ends are at most an eighth in size
fn is_small<N: Enclosure>(z: N) -> bool
    ensures { result ≡ by.is_small N.numbers z }
{
    let unit = one_wide::<N>();
    8 * size(z.low()) <= unit && 8 * size(z.high()) <= unit
}

/// How far the strains lie from the guess at most, in units, for walls from one thickness to another.
pub(crate) fn radius<N: Enclosure>(scale: &Scale, most: i64, least: i64, rest: &Three<N>) -> u128
    requires scale { IsScaled scale.now }
    requires most { IsThickness most }
    requires least { IsThickness least }
    requires rest { ThreeReach N.numbers small_reach rest.now }
    ensures { result ≡ by.radius N.numbers scale.now most least rest.now }
{
    let length = size(lengths(rest).high());
    let over = size(scale.q0) * size(most);
    let under = size(scale.floor) * size(least);
    quotient_up(8 * length * over, under)
}

// all lengths up to that of an eighth of what is left
fn lengths<N: Enclosure>(rest: &Three<N>) -> N
    requires { ThreeReach N.numbers small_reach rest.now }
    ensures { result ≡ by.lengths N.numbers rest.now }
{
    let square = length_square(rest);
    let squares = square.hull(N::of_ratio(0, 1));
    squares.root_up()
}

// the square of the length
fn length_square<N: Enclosure>(rest: &Three<N>) -> N
    requires { ThreeReach N.numbers small_reach rest.now }
    ensures value { result ≡ by.length_square N.numbers.calc rest.now }
    ensures reach { Reaches N.numbers small_reach result }
{
    let x = rest.x.square();
    let y = rest.y.square();
    let normal = x.add(y);
    let s = rest.s.square();
    normal.add(s.times_whole(2))
}
