// The squares of a side's cosine and sine.

ghost use Rattle.std.specs.Prelude.{◌≡◌, ◌≤◌, pos, ◌≤ℤ◌, ◌-ℤ◌, unsigned_abs};
ghost use Rattle.lam_direction.specs.Circle.{IsDirection};
ghost use Rattle.lam_direction.specs.Squares.{squares_of};
ghost use Rattle.lam_tsai.specs.inside.Formulas as by;
ghost use Rattle.lam_tsai.specs.inside.Reach.{ReachAngle};

use crate::place::Side;
use lam_direction::Direction;
use lam_number::Enclosure;

/// The squares of a cosine c and a sine s, their product, and the difference of the squares.
#[derive(Clone, Copy)]
pub struct Angle<N> {
    /// c²
    pub cosine_square: N,
    /// s²
    pub sine_square: N,
    /// sc
    pub product: N,
    /// c² - s²
    pub difference: N,
}

/// Those of a side of an item with fibres in this direction.
pub fn side_angle<N: Enclosure>(dir: &Direction, side: Side) -> Angle<N>
    ensures value { result ≡ by.angle N.numbers.calc side (squares_of dir.now) }
    ensures reach { ReachAngle N.numbers result }
    ensures direction { IsDirection dir.now }
{
    let squares = dir.squares();
    Angle {
        cosine_square: part(squares.cosine_square, squares.size),
        sine_square: part(squares.sine_square, squares.size),
        product: part(signed(side, squares.product), squares.size),
        difference: part(
            between(squares.cosine_square, squares.sine_square),
            squares.size,
        ),
    }
}

// a sine times a cosine, on a side
fn signed(side: Side, product: i64) -> i64
    requires { unsigned_abs product ≤ 1000000 }
    ensures { result ≡ by.signed side product }
{
    match side {
        Side::Plus => product,
        Side::Minus => -product,
    }
}

// how far a square is above another
fn between(first: i64, second: i64) -> i64
    requires first { unsigned_abs first ≤ 1000000 }
    requires second { unsigned_abs second ≤ 1000000 }
    ensures { result ≡ first -ℤ second }
{
    first - second
}

// a part of at most one
fn part<N: Enclosure>(num: i64, size: i64) -> N
    requires least { pos 1 ≤ℤ size }
    requires greatest { size ≤ℤ pos 1000000 }
    requires num { unsigned_abs num ≤ unsigned_abs size }
    ensures { result ≡ N.numbers.calc.ratio num size }
{
    N::of_ratio(i128::from(num), i128::from(size))
}
