//! Balls as an enclosure.

ghost use Rattle.std.specs.Prelude.{pos, refl};
ghost use Rattle.lam_number.specs.inside.BallNumbers.{ball_numbers};
ghost use Rattle.lam_number.specs.inside.BallLaws.{ball_lawful};

use crate::arithmetic::sign_of_ends;
use crate::ball::Ball;
use crate::ball_arithmetic as arithmetic;
use crate::enclosure::{Enclosure, Sign};

impl Enclosure for Ball {
    const SCALE: u32 = 60;

    const SLOP: i64 = 4;

    ghost SCALE = { 60 };

    ghost SLOP = { pos 4 };

    ghost numbers = { ball_numbers };

    ghost scale_law = { refl };

    ghost slop_law = { refl };

    ghost laws = { ball_lawful };

    fn low(self) -> i64 {
        arithmetic::low_end(self)
    }

    fn high(self) -> i64 {
        arithmetic::high_end(self)
    }

    fn of_ratio(num: i128, den: i128) -> Ball {
        arithmetic::ratio(num, den)
    }

    fn add(self, other: Ball) -> Ball {
        arithmetic::sum(self, other)
    }

    fn sub(self, other: Ball) -> Ball {
        arithmetic::difference(self, other)
    }

    fn mul(self, other: Ball) -> Ball {
        arithmetic::product(self, other)
    }

    fn times_whole(self, k: i64) -> Ball {
        arithmetic::whole_multiple(self, k)
    }

    fn over_positive(self, k: i64) -> Ball {
        arithmetic::whole_quotient(self, k)
    }

    fn square(self) -> Ball {
        arithmetic::squared(self)
    }

    fn root_up(self) -> Ball {
        arithmetic::root(self)
    }

    fn hull(self, other: Ball) -> Ball {
        arithmetic::joined(self, other)
    }

    fn sign(self, margin: i64) -> Sign {
        sign_of_ends(
            arithmetic::low_end(self),
            arithmetic::high_end(self),
            margin,
        )
    }

    fn middle(self) -> i64 {
        arithmetic::middle_of(self)
    }
}
