// The unknowns of a wall's equations eliminated one after the other, in fixed point. The centre that it gives is a guess:
// nothing rests on these numbers, which are cut to what 64 bits hold at each step.

ghost use Rattle.std.specs.Prelude.{◌≡◌, ◌^◌, ◌≤◌, pos, ◌*ℤ◌, ◌≤ℤ◌};
ghost use Rattle.lam_fraction.specs.numbers.Rounding.{floor_over};
ghost use Rattle.lam_fraction.specs.inside.Size.{AtMost};
ghost use Rattle.lam_solve.specs.inside.Elimination as by;
ghost use Rattle.lam_solve.specs.inside.Elimination.{IsEliminationOf};
ghost use Rattle.lam_solve.specs.inside.Parts.{SmallGuess};

use crate::residual::{row_s, row_x, row_y};
use crate::six::Six;
use crate::steps::{cut_narrow, floor_quotient, four, power, shift_down};
use crate::strains::Guess;
use lam_fraction::machine::wide_product;
use lam_number::Enclosure;
use lam_wall::Wall;

/// No number of an elimination is larger.
const LARGEST: i64 = 1 << 62;

/// Six numbers in a row.
#[derive(Clone, Copy)]
pub(crate) struct Row {
    pub(crate) first: i64,
    pub(crate) second: i64,
    pub(crate) third: i64,
    pub(crate) fourth: i64,
    pub(crate) fifth: i64,
    pub(crate) sixth: i64,
}

/// An equation from which unknowns were eliminated.
#[derive(Clone, Copy)]
pub(crate) struct Equation {
    /// The coefficients of the unknowns that are left, in their order, and 0 past the last.
    pub(crate) rest: Row,
    /// The shares of earlier equations that were taken off, the last one first, over a sixteenth of a unit.
    pub(crate) shares: Row,
}

/// What is left of a wall's equations when its unknowns are eliminated. It depends on the wall alone, so that it is made
/// once for a wall and serves each load.
#[derive(Clone, Copy)]
pub struct Elimination {
    ex: Equation,
    ey: Equation,
    g: Equation,
    kx: Equation,
    ky: Equation,
    kg: Equation,
}

impl Elimination {
    /// The elimination of a wall.
    #[tactic(auto, unfolding(crate::specs::inside::Elimination::eliminated))]
    pub fn of<N: Enclosure>(wall: &Wall<N>) -> Elimination
        ensures { IsEliminationOf N.numbers wall.now result }
    {
        let bits = N::SCALE - 4;
        let ex = middles(&row_x(&wall.a, &wall.b));
        let ey = without_first(&middles(&row_y(&wall.a, &wall.b)), &ex.rest, bits);
        let g = without_first(&middles(&row_s(&wall.a, &wall.b)), &ex.rest, bits);
        let g = without_first(&g, &ey.rest, bits);
        let kx = without_first(&middles(&row_x(&wall.b, &wall.d)), &ex.rest, bits);
        let kx = without_first(&kx, &ey.rest, bits);
        let kx = without_first(&kx, &g.rest, bits);
        let ky = without_first(&middles(&row_y(&wall.b, &wall.d)), &ex.rest, bits);
        let ky = without_first(&ky, &ey.rest, bits);
        let ky = without_first(&ky, &g.rest, bits);
        let ky = without_first(&ky, &kx.rest, bits);
        let kg = without_first(&middles(&row_s(&wall.b, &wall.d)), &ex.rest, bits);
        let kg = without_first(&kg, &ey.rest, bits);
        let kg = without_first(&kg, &g.rest, bits);
        let kg = without_first(&kg, &kx.rest, bits);
        let kg = without_first(&kg, &ky.rest, bits);
        Elimination {
            ex,
            ey,
            g,
            kx,
            ky,
            kg,
        }
    }

    /// A guess of the strains under a load.
    #[tactic(auto, unfolding(crate::specs::inside::Elimination::guess))]
    pub(crate) fn guess<N: Enclosure>(&self, loads: &Six<N>) -> Guess
        ensures value { result ≡ by.guess N.numbers self.now loads.now }
        ensures small { SmallGuess result }
    {
        let left = self.loads_left(loads);
        let found = none();
        let kg = unknown::<N>(left.first, self.kg.rest, found);
        let found = pushed(found, kg);
        let ky = unknown::<N>(left.second, self.ky.rest, found);
        let found = pushed(found, ky);
        let kx = unknown::<N>(left.third, self.kx.rest, found);
        let found = pushed(found, kx);
        let g = unknown::<N>(left.fourth, self.g.rest, found);
        let found = pushed(found, g);
        let ey = unknown::<N>(left.fifth, self.ey.rest, found);
        let found = pushed(found, ey);
        let ex = unknown::<N>(left.sixth, self.ex.rest, found);
        Guess {
            ex,
            ey,
            g,
            kx,
            ky,
            kg,
        }
    }

    // the middles of a load, with the same shares taken off, the last one first
    #[tactic(auto, unfolding(crate::specs::inside::Elimination::loads_left))]
    fn loads_left<N: Enclosure>(&self, loads: &Six<N>) -> Row
        ensures { result ≡ by.loads_left N.numbers self.now loads.now }
    {
        let bits = N::SCALE - 4;
        let found = pushed(none(), loads.ex.middle());
        let ey = left_of(loads.ey.middle(), self.ey.shares, found, bits);
        let found = pushed(found, ey);
        let g = left_of(loads.g.middle(), self.g.shares, found, bits);
        let found = pushed(found, g);
        let kx = left_of(loads.kx.middle(), self.kx.shares, found, bits);
        let found = pushed(found, kx);
        let ky = left_of(loads.ky.middle(), self.ky.shares, found, bits);
        let found = pushed(found, ky);
        let kg = left_of(loads.kg.middle(), self.kg.shares, found, bits);
        pushed(found, kg)
    }
}

// no numbers yet
fn none() -> Row
    ensures { result ≡ by.none }
{
    Row {
        first: 0,
        second: 0,
        third: 0,
        fourth: 0,
        fifth: 0,
        sixth: 0,
    }
}

// a number before those of a row, whose last is dropped
fn pushed(row: Row, number: i64) -> Row
    ensures { result ≡ by.pushed row number }
{
    Row {
        first: number,
        second: row.first,
        third: row.second,
        fourth: row.third,
        fifth: row.fourth,
        sixth: row.fifth,
    }
}

// an equation before any unknown is eliminated: the middles of its coefficients
#[tactic(auto, unfolding(crate::specs::inside::Elimination::middles))]
fn middles<N: Enclosure>(row: &Six<N>) -> Equation
    ensures { result ≡ by.middles N.numbers row.now }
{
    Equation {
        rest: Row {
            first: row.ex.middle(),
            second: row.ey.middle(),
            third: row.g.middle(),
            fourth: row.kx.middle(),
            fifth: row.ky.middle(),
            sixth: row.kg.middle(),
        },
        shares: none(),
    }
}

// an equation less such a share of another that its first unknown is eliminated
#[tactic(auto, unfolding(crate::specs::inside::Elimination::without_first))]
fn without_first(equation: &Equation, other: &Row, bits: u32) -> Equation
    requires { bits ≤ 60 }
    ensures { result ≡ by.without_first bits equation.now other.now }
{
    let share = quotient(equation.rest.first, other.first, bits, LARGEST);
    Equation {
        rest: rest_left(equation.rest, share, *other, bits),
        shares: pushed(equation.shares, share),
    }
}

// the numbers of a row past its first, each less a share of another row's
fn rest_left(rest: Row, share: i64, other: Row, bits: u32) -> Row
    requires { bits ≤ 60 }
    ensures { result ≡ by.rest_left bits rest share other }
{
    Row {
        first: less(rest.second, share, other.second, bits),
        second: less(rest.third, share, other.third, bits),
        third: less(rest.fourth, share, other.fourth, bits),
        fourth: less(rest.fifth, share, other.fifth, bits),
        fifth: less(rest.sixth, share, other.sixth, bits),
        sixth: 0,
    }
}

// the unknown of an equation from those that follow it, at most 4 in size
fn unknown<N: Enclosure>(load: i64, rest: Row, found: Row) -> i64
    ensures value { result ≡ by.unknown N.numbers load rest found }
    ensures small { AtMost (2 ^ 62) result }
{
    let most = four::<N>();
    let left = left_of(load, past_first(rest), found, N::SCALE);
    quotient(left, rest.first, N::SCALE, most)
}

// the numbers of a row past its first
fn past_first(row: Row) -> Row
    ensures { result ≡ by.past_first row }
{
    Row {
        first: row.second,
        second: row.third,
        third: row.fourth,
        fourth: row.fifth,
        fifth: row.sixth,
        sixth: 0,
    }
}

// a number less shares of the first five of a row
fn left_of(value: i64, shares: Row, of: Row, bits: u32) -> i64
    requires { bits ≤ 60 }
    ensures { result ≡ by.left_of bits value shares of }
{
    let left = less(value, shares.first, of.first, bits);
    let left = less(left, shares.second, of.second, bits);
    let left = less(left, shares.third, of.third, bits);
    let left = less(left, shares.fourth, of.fourth, bits);
    less(left, shares.fifth, of.fifth, bits)
}

// a number less a share of another, over two to the power of some bits
fn less(value: i64, share: i64, other: i64, bits: u32) -> i64
    requires { bits ≤ 60 }
    ensures { result ≡ by.less bits value share other }
{
    let part = scaled_product(share, other, bits);
    let value = i128::from(value);
    cut_narrow(LARGEST, value - part)
}

// a product over two to the power of some bits, rounded down
fn scaled_product(a: i64, b: i64, bits: u32) -> i128
    requires { bits ≤ 60 }
    ensures value { result ≡ floor_over (a *ℤ b) (2 ^ bits) }
    ensures small { AtMost (2 ^ 126) result }
{
    let product = wide_product(a, b);
    shift_down(product, bits)
}

// a number over another, times two to the power of some bits, and at most so large; 0 where the other is not above 0
fn quotient(value: i64, over: i64, bits: u32, most: i64) -> i64
    requires bits { bits ≤ 60 }
    requires sign { pos 0 ≤ℤ most }
    requires most { AtMost (2 ^ 62) most }
    ensures value { result ≡ by.quotient bits most value over }
    ensures small { AtMost (2 ^ 62) result }
{
    if over <= 0 {
        return 0;
    }
    let scale = power(bits);
    let raised = wide_product(value, scale);
    let over = i128::from(over);
    let quotient = floor_quotient(raised, over);
    cut_narrow(most, quotient)
}
