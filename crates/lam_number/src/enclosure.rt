//! Numbers that are known between two ends.
//!
//! An enclosure has two whole ends over `2^SCALE`. It holds each fraction that lies between them.
//! Generic code uses this trait alone, so that it serves every kind of enclosure.

ghost use Rattle.std.specs.Prelude.{◌≡◌, ◌↔◌, ℕ, ◌+◌, ◌*◌, ◌^◌, ◌≤◌, ℤ, pos, neg_ℤ, ◌+ℤ◌, ◌≤ℤ◌, ◌<ℤ◌, unsigned_abs};
ghost use Rattle.lam_fraction.specs.numbers.Numbers.{Numbers, Lawful, unit, reach};
ghost use Rattle.lam_fraction.specs.numbers.Rounding.{floor_over};
ghost use Rattle.lam_number.specs.Signs.{sign_of};
ghost use Rattle.lam_number.specs.declared.enclosure.Sign.TheVariants.{Below, Above, Mixed};

/// Where an enclosure lies to a margin round 0.
#[derive(Clone, Copy, Debug, PartialEq, Eq)]
pub enum Sign {
    /// All that is held is below the margin's opposite.
    Below,
    /// All that is held is above the margin.
    Above,
    /// Neither is sure.
    Mixed,
}

/// An enclosure of a fraction: two whole ends over `2^SCALE`, the low one at most the high one. The
/// reach is the greater size of the ends, the width their distance.
///
/// `numbers` has the ends, and the value of each call at any arguments. `laws` says of these values
/// what they hold, how wide they are and how far they reach, wherever the call has room. So a call
/// ensures its value alone, and `laws` gives each caller the rest: the answer holds what the call
/// is named after, and is at most `SLOP` wider than with exact ends.
pub trait Enclosure: Copy {
    /// The power of two under the ends.
    const SCALE: u32;

    /// How much wider than exact ends an answer is at most.
    const SLOP: i64;

    ghost SCALE: { ℕ };

    ghost SLOP: { ℤ };

    ghost numbers: { Numbers Self };

    /// The low end.
    fn low(self) -> i64
        ensures { result ≡ numbers.low self };

    /// The high end.
    fn high(self) -> i64
        ensures { result ≡ numbers.high self };

    /// An enclosure of a ratio.
    fn of_ratio(num: i128, den: i128) -> Self
        requires positive { pos 0 <ℤ den }
        requires den { unsigned_abs den ≤ 2 ^ 66 }
        requires num { unsigned_abs num ≤ 2 ^ 66 }
        requires room { unsigned_abs num ≤ 6 * unsigned_abs den }
        ensures { result ≡ numbers.calc.ratio num den };

    /// An enclosure of the sums of what the two hold.
    fn add(self, other: Self) -> Self
        requires { reach numbers self + reach numbers other ≤ 6 * unit numbers }
        ensures { result ≡ numbers.calc.sum self other };

    /// An enclosure of the differences of what the two hold.
    fn sub(self, other: Self) -> Self
        requires { reach numbers self + reach numbers other ≤ 6 * unit numbers }
        ensures { result ≡ numbers.calc.difference self other };

    /// An enclosure of the products of what the two hold.
    fn mul(self, other: Self) -> Self
        requires { reach numbers self * reach numbers other ≤ 6 * (unit numbers * unit numbers) }
        ensures { result ≡ numbers.calc.product self other };

    /// An enclosure of the multiples of what is held.
    fn times_whole(self, k: i64) -> Self
        requires { reach numbers self * unsigned_abs k ≤ 6 * unit numbers }
        ensures { result ≡ numbers.calc.multiple self k };

    /// An enclosure of what is held over a whole number of at least 1.
    fn over_positive(self, k: i64) -> Self
        requires { pos 1 ≤ℤ k }
        ensures { result ≡ numbers.calc.quotient self k };

    /// An enclosure of the squares of what is held.
    fn square(self) -> Self
        requires { reach numbers self ≤ 2 * unit numbers }
        ensures { result ≡ numbers.calc.square self };

    /// An enclosure of each fraction of at least 0 whose square is held, from about 0.
    fn root_up(self) -> Self
        requires sign { pos 0 ≤ℤ numbers.high self }
        requires room { numbers.high self ≤ℤ pos (6 * unit numbers) }
        ensures { result ≡ numbers.root self };

    /// An enclosure of all that either holds.
    fn hull(self, other: Self) -> Self
        requires first { reach numbers self ≤ 6 * unit numbers }
        requires second { reach numbers other ≤ 6 * unit numbers }
        ensures { result ≡ numbers.hull self other };

    /// Where the ends lie to a margin of at least 0 round 0.
    fn sign(self, margin: i64) -> Sign
        requires { pos 0 ≤ℤ margin }
        ensures value { result ≡ sign_of (numbers.low self) (numbers.high self) margin }
        ensures below { (result ≡ Below) ↔ (numbers.high self <ℤ neg_ℤ margin) }
        ensures above { (result ≡ Above) ↔ (margin <ℤ numbers.low self) }
        ensures mixed { (result ≡ Mixed)
            ↔ ((neg_ℤ margin ≤ℤ numbers.high self) × (numbers.low self ≤ℤ margin)) };

    /// Half the sum of the ends, rounded down.
    fn middle(self) -> i64
        ensures { result ≡ floor_over (numbers.low self +ℤ numbers.high self) 2 };

    ghost scale_law: { numbers.scale ≡ SCALE };

    ghost slop_law: { pos numbers.slop ≡ SLOP };

    ghost laws: { Lawful numbers };
}
