// The powers of a direction's cosine c and sine s that the transformed stiffness consists of.

ghost use Rattle.std.specs.Prelude.{◌≡◌, ◌≤◌, pos, ◌*ℤ◌, ◌≤ℤ◌, unsigned_abs};
ghost use Rattle.lam_direction.specs.Circle.{IsDirection};
ghost use Rattle.lam_lamina.specs.inside.Formulas as by;
ghost use Rattle.lam_lamina.specs.inside.Known.{ReachPowers};
ghost use Rattle.lam_direction.specs.Squares.{squares_of};

use lam_direction::Direction;
use lam_fraction::machine::wide_product;
use lam_number::Enclosure;

/// The powers of a cosine and a sine.
#[derive(Clone, Copy)]
pub struct Powers<N> {
    /// c⁴
    pub cosine_fourth: N,
    /// s⁴
    pub sine_fourth: N,
    /// s²c²
    pub squares: N,
    /// sc³
    pub cosine_third: N,
    /// s³c
    pub sine_third: N,
}

/// The powers of a direction's cosine and sine.
pub fn direction_powers<N: Enclosure>(dir: &Direction) -> Powers<N>
    ensures reach { ReachPowers N.numbers result }
    ensures direction { IsDirection dir.now }
    ensures value { result ≡ by.powers N.numbers.calc (squares_of dir.now) }
{
    let squares = dir.squares();
    Powers {
        cosine_fourth: power(squares.cosine_square, squares.cosine_square, squares.size),
        sine_fourth: power(squares.sine_square, squares.sine_square, squares.size),
        squares: power(squares.sine_square, squares.cosine_square, squares.size),
        cosine_third: power(squares.product, squares.cosine_square, squares.size),
        sine_third: power(squares.product, squares.sine_square, squares.size),
    }
}

// a product over the square of a size
fn power<N: Enclosure>(first: i64, second: i64, size: i64) -> N
    requires least { pos 1 ≤ℤ size }
    requires greatest { size ≤ℤ pos 1000000 }
    requires first { unsigned_abs first ≤ unsigned_abs size }
    requires second { unsigned_abs second ≤ unsigned_abs size }
    ensures { result ≡ N.numbers.calc.ratio (first *ℤ second) (size *ℤ size) }
{
    N::of_ratio(wide_product(first, second), wide_product(size, size))
}
