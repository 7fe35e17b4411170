//! The two scales of fixed point.

ghost use Rattle.std.specs.Prelude.{pos, refl};
ghost use Rattle.std.proofs.Common.{rules};
ghost use Rattle.lam_number.specs.inside.FixNumbers.{fix_numbers};
ghost use Rattle.lam_number.specs.inside.FixLaws.{fix_lawful};

use crate::arithmetic;
use crate::enclosure::{Enclosure, Sign};
use crate::fix::Fix;

impl Enclosure for Fix<60> {
    const SCALE: u32 = 60;

    const SLOP: i64 = 2;

    ghost SCALE = { 60 };

    ghost SLOP = { pos 2 };

    ghost numbers = { fix_numbers 60 };

    ghost scale_law = { refl };

    ghost slop_law = { refl };

    ghost laws = { fix_lawful 60 (Prim.search rules) };

    fn low(self) -> i64 {
        self.low
    }

    fn high(self) -> i64 {
        self.high
    }

    fn of_ratio(num: i128, den: i128) -> Fix<60> {
        arithmetic::ratio::<60>(num, den)
    }

    fn add(self, other: Fix<60>) -> Fix<60> {
        arithmetic::sum(self, other)
    }

    fn sub(self, other: Fix<60>) -> Fix<60> {
        arithmetic::difference(self, other)
    }

    fn mul(self, other: Fix<60>) -> Fix<60> {
        arithmetic::multiple(self, other)
    }

    fn times_whole(self, k: i64) -> Fix<60> {
        arithmetic::whole_multiple(self, k)
    }

    fn over_positive(self, k: i64) -> Fix<60> {
        arithmetic::whole_quotient(self, k)
    }

    fn square(self) -> Fix<60> {
        arithmetic::squared(self)
    }

    fn root_up(self) -> Fix<60> {
        arithmetic::root(self)
    }

    fn hull(self, other: Fix<60>) -> Fix<60> {
        arithmetic::joined(self, other)
    }

    fn sign(self, margin: i64) -> Sign {
        arithmetic::sign_of_ends(self.low, self.high, margin)
    }

    fn middle(self) -> i64 {
        arithmetic::half_sum(self.low, self.high)
    }
}

impl Enclosure for Fix<28> {
    const SCALE: u32 = 28;

    const SLOP: i64 = 2;

    ghost SCALE = { 28 };

    ghost SLOP = { pos 2 };

    ghost numbers = { fix_numbers 28 };

    ghost scale_law = { refl };

    ghost slop_law = { refl };

    ghost laws = { fix_lawful 28 (Prim.search rules) };

    fn low(self) -> i64 {
        self.low
    }

    fn high(self) -> i64 {
        self.high
    }

    fn of_ratio(num: i128, den: i128) -> Fix<28> {
        arithmetic::ratio::<28>(num, den)
    }

    fn add(self, other: Fix<28>) -> Fix<28> {
        arithmetic::sum(self, other)
    }

    fn sub(self, other: Fix<28>) -> Fix<28> {
        arithmetic::difference(self, other)
    }

    fn mul(self, other: Fix<28>) -> Fix<28> {
        arithmetic::multiple(self, other)
    }

    fn times_whole(self, k: i64) -> Fix<28> {
        arithmetic::whole_multiple(self, k)
    }

    fn over_positive(self, k: i64) -> Fix<28> {
        arithmetic::whole_quotient(self, k)
    }

    fn square(self) -> Fix<28> {
        arithmetic::squared(self)
    }

    fn root_up(self) -> Fix<28> {
        arithmetic::root(self)
    }

    fn hull(self, other: Fix<28>) -> Fix<28> {
        arithmetic::joined(self, other)
    }

    fn sign(self, margin: i64) -> Sign {
        arithmetic::sign_of_ends(self.low, self.high, margin)
    }

    fn middle(self) -> i64 {
        arithmetic::half_sum(self.low, self.high)
    }
}
