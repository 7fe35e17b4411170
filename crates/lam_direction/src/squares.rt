// The squares of a direction's cosine and sine, and their product.

ghost use Rattle.std.specs.Prelude.{◌≡◌, ◌≤◌, ◌*ℤ◌, unsigned_abs};
ghost use Rattle.lam_direction.specs.Circle.{IsDirection};
ghost use Rattle.lam_direction.specs.Squares.{squares_of, AreWithinSize};

use crate::direction::Direction;

/// The squares of a direction's cosine c and sine s and their product, over one common denominator.
#[derive(Clone, Copy, PartialEq, Eq, Debug)]
pub struct DirectionSquares {
    /// c², times `size`.
    pub cosine_square: i64,
    /// s², times `size`.
    pub sine_square: i64,
    /// s c, times `size`.
    pub product: i64,
    /// The common denominator, which is the square of the direction's.
    pub size: i64,
}

impl Direction {
    /// The squares of the direction's cosine and sine and their product.
    pub fn squares(&self) -> DirectionSquares
        ensures value { result ≡ squares_of self.now }
        ensures within { AreWithinSize result }
        ensures direction { IsDirection self.now }
    {
        let (p, q, h) = (self.p(), self.q(), self.h());
        DirectionSquares {
            cosine_square: small_product(p, p),
            sine_square: small_product(q, q),
            product: small_product(q, p),
            size: small_product(h, h),
        }
    }
}

// the product of two numbers of a direction
fn small_product(a: i64, b: i64) -> i64
    requires first { unsigned_abs a ≤ 1000 }
    requires second { unsigned_abs b ≤ 1000 }
    ensures { result ≡ a *ℤ b }
{
    a * b
}
