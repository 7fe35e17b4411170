// The type of directions, how three numbers are read as one, and its mirror image.

ghost use Rattle.std.specs.Prelude.{◌≡◌, ◌≤◌, ◌↔◌, ◌^◌, pos, ◌*ℤ◌, unsigned_abs, IsTrue, IfOk};
ghost use Rattle.lam_direction.specs.Circle.{IsDirection, SamePoint, IsOnAxis, mirror_of};
ghost use Rattle.lam_direction.specs.Reading.{direction_of};

use std::marker::Model;

/// The greatest common denominator of a direction.
const GREATEST_SIZE: i64 = 1000;

/// A fibre direction: the point `(p/h, q/h)` of the unit circle, whose coordinates are the cosine and the
/// sine of the angle from the wall's axis x to the fibre. A fibre has no sense along it, so half of the
/// circle is enough: `p` is not negative, and `q` is `h` where `p` is 0.
#[derive(Clone, Copy, PartialEq, Eq, Debug)]
pub struct Direction {
    p: i64,
    q: i64,
    h: i64,
}

impl Model for Direction {
    ghost use Rattle.lam_direction.specs.Circle.{CirclePoint, IsDirection};

    ghost Value = { CirclePoint };

    ghost view = { λ d. record { p = d.p; q = d.q; h = d.h } };

    ghost invariant = { λ d. IsDirection (record { p = d.p; q = d.q; h = d.h }) };

    ghost inverse = { λ d. record { p = d.p; q = d.q; h = d.h } };
}

/// Why three numbers are no direction.
#[derive(Clone, Copy, PartialEq, Eq, Debug)]
pub enum DirectionFault {
    /// The common denominator is below 1 or above 1000.
    Size,
    /// The point does not lie on the unit circle.
    NotUnit,
    /// The point lies on the half of the circle that is left out.
    NotFirstHalf,
}

impl Direction {
    /// Reads the point `(p/h, q/h)`, and answers the first refusal that holds.
    pub fn read(p: i64, q: i64, h: i64) -> Result<Direction, DirectionFault>
        ensures reads { result ≡ direction_of p q h }
        ensures direction { IfOk result (λ d. IsDirection d) }
    {
        if h < 1 || h > GREATEST_SIZE {
            return Err(DirectionFault::Size);
        }
        if square(p) + square(q) != square(h) {
            return Err(DirectionFault::NotUnit);
        }
        if p < 0 || (p == 0 && q != h) {
            return Err(DirectionFault::NotFirstHalf);
        }
        Ok(Direction { p, q, h })
    }

    /// The cosine of the direction's angle, times `h()`.
    pub fn p(&self) -> i64
        ensures value { result ≡ self.now.p }
        ensures direction { IsDirection self.now }
        ensures small { unsigned_abs result ≤ 1000 }
    {
        self.p
    }

    /// The sine of the direction's angle, times `h()`.
    pub fn q(&self) -> i64
        ensures value { result ≡ self.now.q }
        ensures direction { IsDirection self.now }
        ensures small { unsigned_abs result ≤ 1000 }
    {
        self.q
    }

    /// The common denominator of the direction's cosine and sine.
    pub fn h(&self) -> i64
        ensures value { result ≡ self.now.h }
        ensures direction { IsDirection self.now }
    {
        self.h
    }

    /// The direction on the other side of the wall's axis x; the axis y is its own mirror image.
    pub fn mirror(&self) -> Direction
        ensures mirror { result ≡ mirror_of self.now }
        ensures direction { IsDirection result }
    {
        if self.p == 0 {
            *self
        } else {
            Direction {
                p: self.p,
                q: -self.q,
                h: self.h,
            }
        }
    }

    /// Tells whether both stand for the same point of the unit circle.
    pub fn same(&self, other: &Direction) -> bool
        ensures { IsTrue result ↔ SamePoint self.now other.now }
    {
        same_fraction(self.p, self.h, other.p, other.h)
            && same_fraction(self.q, self.h, other.q, other.h)
    }

    /// Tells whether the direction is that of one of the wall's axes.
    pub fn on_axis(&self) -> bool
        ensures { IsTrue result ↔ IsOnAxis self.now }
    {
        self.p == 0 || self.q == 0
    }
}

// the square of a number
fn square(x: i64) -> u128
    ensures value { pos result ≡ x *ℤ x }
    ensures small { result ≤ 2 ^ 126 }
{
    let size = x.unsigned_abs() as u128;
    size * size
}

// the product of two numbers
fn product(a: i64, b: i64) -> i128
    ensures { result ≡ a *ℤ b }
{
    a as i128 * b as i128
}

// tells whether a/b and c/d are equal, by cross products
fn same_fraction(a: i64, b: i64, c: i64, d: i64) -> bool
    ensures { IsTrue result ↔ (a *ℤ d ≡ c *ℤ b) }
{
    let left = product(a, d);
    let right = product(c, b);
    left == right
}

#[cfg(test)]
mod tests {
    use super::*;
    use std::test::Fail;

    #[test]
    fn refusals_come_in_order(rt: HostRuntime) -> Result<(), Fail> {
        let size = Err(DirectionFault::Size);
        let not_unit = Err(DirectionFault::NotUnit);
        let not_first_half = Err(DirectionFault::NotFirstHalf);
        assert_eq!(rt; Direction::read(0, 0, 0), size);
        assert_eq!(rt; Direction::read(1001, 0, 1001), size);
        assert_eq!(rt; Direction::read(i64::MIN, i64::MIN, i64::MIN), size);
        assert_eq!(rt; Direction::read(3, 4, 6), not_unit);
        assert_eq!(rt; Direction::read(i64::MIN, i64::MIN, 1000), not_unit);
        assert_eq!(rt; Direction::read(-3, 4, 6), not_unit);
        assert_eq!(rt; Direction::read(0, -5, 5), not_first_half);
        assert_eq!(rt; Direction::read(-3, 4, 5), not_first_half);
        Ok(())
    }

    #[test]
    fn a_direction_is_a_fraction(rt: HostRuntime) -> Result<(), Fail> {
        let lean = Direction::read(3, 4, 5)?;
        let doubled = Direction::read(6, 8, 10)?;
        let steep = Direction::read(4, 3, 5)?;
        assert!(rt; lean.same(&doubled) && doubled.same(&lean));
        assert!(rt; !lean.same(&steep) && !lean.same(&lean.mirror()));
        assert_eq!(rt; doubled.mirror(), Direction::read(6, -8, 10)?);
        assert!(rt; lean.mirror().mirror().same(&lean) && !lean.on_axis());
        let squares = lean.mirror().squares();
        assert_eq!(rt; (squares.cosine_square, squares.sine_square), (9, 16));
        assert_eq!(rt; (squares.product, squares.size), (-12, 25));
        Ok(())
    }

    #[test]
    fn axes_are_at_both_ends_of_the_half(rt: HostRuntime) -> Result<(), Fail> {
        let along = Direction::read(1000, 0, 1000)?;
        let round = Direction::read(0, 7, 7)?;
        assert!(rt; along.on_axis() && along.mirror().same(&along));
        assert!(rt; round.on_axis() && round.mirror() == round);
        assert_eq!(rt; (round.p(), round.q(), round.h()), (0, 7, 7));
        Ok(())
    }
}
