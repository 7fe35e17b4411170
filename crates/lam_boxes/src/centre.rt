// A guess of the strains under forces, by elimination on the middles of the three equations, in fixed point. Nothing rests
// on these numbers, which are cut to what 64 bits hold at each step.

ghost use Rattle.std.specs.Prelude.{◌≡◌, ◌^◌, ◌*◌, ◌≤◌, pos, ◌≤ℤ◌};
ghost use Rattle.lam_fraction.specs.numbers.Numbers.{unit};
ghost use Rattle.lam_fraction.specs.inside.Size.{AtMost};
ghost use Rattle.lam_boxes.specs.inside.Centres as by;

use crate::steps::{LARGEST, less, one, one_wide, quotient};
use crate::three::{Left, Three};
use lam_fraction::machine::size;
use lam_lamina::Sym3;
use lam_number::Enclosure;

/// A guess of the strains.
#[tactic(auto, unfolding(crate::specs::inside::Centres::guess))]
pub(crate) fn guess<N: Enclosure>(extension: &Sym3<N>, loads: &Three<N>) -> Three<i64>
    ensures { result ≡ by.guess N.numbers extension.now loads.now }
{
    let matrix = middles(extension);
    let loads = middle_loads(loads);
    let left = without_x(&matrix, &loads, N::SCALE - 4);
    strains_by(&matrix, &loads, &left, N::SCALE - 4, N::SCALE, five::<N>())
}

/// Tells whether each strain of a guess is at most 4 in size.
pub(crate) fn is_near<N: Enclosure>(centre: &Three<i64>) -> bool
    ensures { result ≡ by.is_near N.numbers centre.now }
{
    let most = 4 * one_wide::<N>();
    size(centre.x) <= most && size(centre.y) <= most && size(centre.s) <= most
}

// five, in units
fn five<N: Enclosure>() -> i64
    ensures value { result ≡ pos (5 * unit N.numbers) }
    ensures sign { pos 0 ≤ℤ result }
    ensures small { AtMost (5 * 2 ^ 60) result }
{
    5 * one::<N>()
}

// the middles of a matrix
fn middles<N: Enclosure>(matrix: &Sym3<N>) -> Sym3<i64>
    ensures { result ≡ by.middles N.numbers matrix.now }
{
    Sym3 {
        xx: matrix.xx.middle(),
        xy: matrix.xy.middle(),
        yy: matrix.yy.middle(),
        xs: matrix.xs.middle(),
        ys: matrix.ys.middle(),
        ss: matrix.ss.middle(),
    }
}

// the middles of the forces
fn middle_loads<N: Enclosure>(loads: &Three<N>) -> Three<i64>
    ensures { result ≡ by.middle_loads N.numbers loads.now }
{
    Three {
        x: loads.x.middle(),
        y: loads.y.middle(),
        s: loads.s.middle(),
    }
}

// the equations of y and of the shear without the strain in x
#[tactic(auto, unfolding(crate::specs::inside::Centres::without_x))]
fn without_x(matrix: &Sym3<i64>, loads: &Three<i64>, bits: u32) -> Left
    requires { bits ≤ 60 }
    ensures { result ≡ by.without_x bits matrix.now loads.now }
{
    let y = quotient(matrix.xy, matrix.xx, bits, LARGEST);
    let s = quotient(matrix.xs, matrix.xx, bits, LARGEST);
    Left {
        yy: less(matrix.yy, y, matrix.xy, bits),
        ys: less(matrix.ys, y, matrix.xs, bits),
        ss: less(matrix.ss, s, matrix.xs, bits),
        y: less(loads.y, y, loads.x, bits),
        s: less(loads.s, s, loads.x, bits),
    }
}

// the shear, by its equation without the strain in y
#[tactic(auto, unfolding(crate::specs::inside::Centres::shear_by))]
fn shear_by(left: &Left, bits: u32, scale: u32, most: i64) -> i64
    requires bits { bits ≤ 60 }
    requires scale { scale ≤ 60 }
    requires sign { pos 0 ≤ℤ most }
    requires small { AtMost (5 * 2 ^ 60) most }
    ensures { result ≡ by.shear_by bits scale most left.now }
{
    let share = quotient(left.ys, left.yy, bits, LARGEST);
    let ss = less(left.ss, share, left.ys, bits);
    let s = less(left.s, share, left.y, bits);
    quotient(s, ss, scale, most)
}

// the strains, the last one first
#[tactic(auto, unfolding(crate::specs::inside::Centres::strains_by))]
fn strains_by(
    matrix: &Sym3<i64>,
    loads: &Three<i64>,
    left: &Left,
    bits: u32,
    scale: u32,
    most: i64,
) -> Three<i64>
    requires bits { bits ≤ 60 }
    requires scale { scale ≤ 60 }
    requires sign { pos 0 ≤ℤ most }
    requires small { AtMost (5 * 2 ^ 60) most }
    ensures { result ≡ by.strains_by bits scale most matrix.now loads.now left.now }
{
    let s = shear_by(left, bits, scale, most);
    let y = quotient(less(left.y, left.ys, s, scale), left.yy, scale, most);
    let rest = less(loads.x, matrix.xy, y, scale);
    let x = quotient(less(rest, matrix.xs, s, scale), matrix.xx, scale, most);
    Three { x, y, s }
}
