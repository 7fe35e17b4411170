//! Worked values at the edges of the conditions.

ghost use Rattle.std.specs.Prelude.{pos, negsuc, ◌^◌, ◌≤ℤ◌};
ghost use Rattle.lam_fraction.specs.numbers.Numbers.{SumRoom, ProductRoom, MultipleRoom, SquareRoom, RootRoom, HullRoom};

use crate::{Enclosure, Fix, Sign};

/// One at 60 bits.
const ONE: i64 = 1152921504606846976;

/// One at 28 bits.
const QUICK_ONE: i64 = 268435456;

macro_rules! expect_ends {
    ($rt:ident; $answer:expr, $low:expr, $high:expr) => {
        let answer = $answer;
        assert_eq!($rt; answer.low(), $low);
        assert_eq!($rt; answer.high(), $high);
    };
}

mod balls;

#[test]
fn a_ratio_is_rounded_outwards(rt: HostRuntime) {
    expect_ends!(rt; Fix::<60>::of_ratio(1, 3), 384307168202282325, 384307168202282326);
    expect_ends!(rt; Fix::<60>::of_ratio(-1, 3), -384307168202282326, -384307168202282325);
    expect_ends!(rt; Fix::<28>::of_ratio(1, 3), 89478485, 89478486);
    expect_ends!(rt; Fix::<28>::of_ratio(-1, 3), -89478486, -89478485);
    expect_ends!(rt; Fix::<60>::of_ratio(6, 1), 6917529027641081856, 6917529027641081856);
    expect_ends!(rt; Fix::<60>::of_ratio(73786976294838206464, 73786976294838206464), ONE, ONE);
    let great = 73786976294838206464;
    expect_ends!(rt; Fix::<28>::of_ratio(-great, great), -QUICK_ONE, -QUICK_ONE);
}

#[test]
#[tactic(auto, unfolding(lam_fraction::specs::numbers::Ends::reach))]
fn sums_and_differences_pair_their_ends(rt: HostRuntime) {
    let three = Fix::<60> {
        low: 3 * ONE,
        high: 3 * ONE,
    };
    let within_three = Fix::<60> {
        low: -3 * ONE,
        high: 3 * ONE,
    };
    expect_ends!(rt; three.add(three), 6 * ONE, 6 * ONE);
    expect_ends!(rt; within_three.sub(within_three), -6 * ONE, 6 * ONE);
    let low = Fix::<28> { low: 1, high: 2 };
    let high = Fix::<28> { low: 10, high: 20 };
    expect_ends!(rt; low.add(high), 11, 22);
    expect_ends!(rt; low.sub(high), -19, -8);
}

#[test]
#[tactic(auto, unfolding(lam_fraction::specs::numbers::Ends::reach))]
fn a_product_reaches_six_units(rt: HostRuntime) {
    let two = Fix::<60> {
        low: 2 * ONE,
        high: 2 * ONE,
    };
    let three = Fix::<60> {
        low: 3 * ONE,
        high: 3 * ONE,
    };
    expect_ends!(rt; three.mul(two), 6 * ONE, 6 * ONE);
    let within_two = Fix::<60> {
        low: -2 * ONE,
        high: 2 * ONE,
    };
    let within_three = Fix::<60> {
        low: -3 * ONE,
        high: 3 * ONE,
    };
    expect_ends!(rt; within_three.mul(within_two), -6 * ONE, 6 * ONE);
    expect_ends!(rt; within_two.square(), -4 * ONE, 4 * ONE);
    expect_ends!(rt; two.square(), 4 * ONE, 4 * ONE);
    let third = Fix::<28> {
        low: 89478485,
        high: 89478486,
    };
    let seventh = Fix::<28> {
        low: -38347924,
        high: -38347922,
    };
    expect_ends!(rt; third.mul(seventh), -12782642, -12782640);
}

#[test]
#[tactic(auto, unfolding(lam_fraction::specs::numbers::Ends::reach))]
fn a_multiple_by_a_negative_number_swaps_the_ends(rt: HostRuntime) {
    expect_ends!(rt; Fix::<60> { low: -3, high: 5 }.times_whole(-2), -10, 6);
    expect_ends!(rt; Fix::<60> { low: -3, high: 5 }.times_whole(2), -6, 10);
    expect_ends!(rt; Fix::<60> { low: 0, high: 0 }.times_whole(i64::MIN), 0, 0);
    expect_ends!(rt; Fix::<60> { low: -1, high: 1 }.times_whole(-6 * ONE), -6 * ONE, 6 * ONE);
    let few = Fix::<28> { low: 2, high: 3 };
    expect_ends!(rt; few.times_whole(-2 * QUICK_ONE), -6 * QUICK_ONE, -4 * QUICK_ONE);
}

#[test]
fn a_quotient_is_rounded_outwards(rt: HostRuntime) {
    expect_ends!(rt; Fix::<60> { low: -6, high: -5 }.over_positive(2), -3, -2);
    expect_ends!(rt; Fix::<28> { low: 7, high: 7 }.over_positive(2), 3, 4);
    let whole = Fix::<60> {
        low: i64::MIN,
        high: i64::MAX,
    };
    expect_ends!(rt; whole.over_positive(1), i64::MIN, i64::MAX);
    let least = Fix::<60> {
        low: i64::MIN,
        high: i64::MIN,
    };
    expect_ends!(rt; least.over_positive(i64::MAX), -2, -1);
}

#[test]
fn a_root_is_one_above_the_whole_root(rt: HostRuntime) {
    expect_ends!(rt; Fix::<60> { low: -7, high: 0 }.root_up(), 0, 1);
    expect_ends!(rt; Fix::<60> { low: 0, high: ONE }.root_up(), 0, ONE + 1);
    expect_ends!(rt; Fix::<60> { low: 0, high: 4 * ONE }.root_up(), 0, 2 * ONE + 1);
    expect_ends!(rt; Fix::<60> { low: 0, high: 6 * ONE }.root_up(), 0, 2824069399768620283);
    expect_ends!(rt; Fix::<28> { low: 0, high: 2 * QUICK_ONE }.root_up(), 0, 379625063);
}

#[test]
#[tactic(auto, unfolding(lam_fraction::specs::numbers::Ends::reach))]
fn a_hull_goes_from_the_lesser_low_to_the_greater_high(rt: HostRuntime) {
    let first = Fix::<60> { low: 1, high: 3 };
    let second = Fix::<60> { low: -2, high: 2 };
    expect_ends!(rt; first.hull(second), -2, 3);
    expect_ends!(rt; second.hull(first), -2, 3);
    let least = Fix::<28> {
        low: -6 * QUICK_ONE,
        high: -6 * QUICK_ONE,
    };
    let greatest = Fix::<28> {
        low: 6 * QUICK_ONE,
        high: 6 * QUICK_ONE,
    };
    expect_ends!(rt; least.hull(greatest), -6 * QUICK_ONE, 6 * QUICK_ONE);
}

#[test]
fn a_sign_is_sure_only_beyond_the_margin(rt: HostRuntime) {
    assert_eq!(rt; Fix::<60> { low: -9, high: -6 }.sign(5), Sign::Below);
    assert_eq!(rt; Fix::<60> { low: -9, high: -5 }.sign(5), Sign::Mixed);
    assert_eq!(rt; Fix::<60> { low: 5, high: 9 }.sign(5), Sign::Mixed);
    assert_eq!(rt; Fix::<60> { low: 6, high: 9 }.sign(5), Sign::Above);
    assert_eq!(rt; Fix::<28> { low: -6, high: 6 }.sign(0), Sign::Mixed);
    assert_eq!(rt; Fix::<28> { low: 0, high: 0 }.sign(0), Sign::Mixed);
    assert_eq!(rt;
        Fix::<28> {
            low: i64::MIN,
            high: i64::MIN
        }
        .sign(i64::MAX),
        Sign::Below
    );
}

#[test]
fn a_middle_is_rounded_down(rt: HostRuntime) {
    assert_eq!(rt; Fix::<60> { low: -3, high: -2 }.middle(), -3);
    assert_eq!(rt;
        Fix::<60> {
            low: i64::MIN,
            high: i64::MAX
        }
        .middle(),
        -1
    );
    assert_eq!(rt;
        Fix::<28> {
            low: i64::MAX,
            high: i64::MAX
        }
        .middle(),
        i64::MAX
    );
}

/// The ends of the answer of each call, through the bound alone.
fn each_call<N: Enclosure>(x: N, y: N) -> [(i64, i64); 9]
    requires sum { SumRoom N.numbers x y }
    requires product { ProductRoom N.numbers x y }
    requires multiple { MultipleRoom N.numbers y (negsuc 2) }
    requires square { SquareRoom N.numbers y }
    requires root { RootRoom N.numbers y }
    requires hull { HullRoom N.numbers x y }
{
    [
        ends(N::of_ratio(1, 4)),
        ends(x.add(y)),
        ends(x.sub(y)),
        ends(x.mul(y)),
        ends(y.times_whole(-3)),
        ends(y.over_positive(3)),
        ends(y.square()),
        ends(y.root_up()),
        ends(x.hull(y)),
    ]
}

fn ends<N: Enclosure>(x: N) -> (i64, i64) {
    (x.low(), x.high())
}

fn sign_and_middle<N: Enclosure>(x: N) -> (Sign, Sign, i64) {
    (x.sign(0), x.sign(i64::MAX), x.middle())
}

/// What `each_call` gives at exactly a half, and at a quarter and one part to each side.
fn half_and_quarter(one: i64) -> [(i64, i64); 9]
    requires { (pos 16 ≤ℤ one) × (one ≤ℤ pos (2 ^ 60)) }
{
    let quarter = one / 4;
    [
        (quarter, quarter),
        (one / 2 + quarter - 1, one / 2 + quarter + 1),
        (quarter - 1, quarter + 1),
        (one / 8 - 1, one / 8 + 1),
        (-3 * quarter - 3, -3 * quarter + 3),
        ((quarter - 1) / 3, (quarter - 1) / 3 + 1),
        (one / 16 - 1, one / 16 + 1),
        (0, one / 2 + 1),
        (quarter - 1, one / 2),
    ]
}

#[test]
#[tactic(auto, unfolding(lam_fraction::specs::numbers::Ends::reach))]
fn each_call_serves_both_scales(rt: HostRuntime) {
    let half = Fix::<60> {
        low: ONE / 2,
        high: ONE / 2,
    };
    let quarter = Fix::<60> {
        low: ONE / 4 - 1,
        high: ONE / 4 + 1,
    };
    assert_eq!(rt; each_call(half, quarter), half_and_quarter(ONE));
    assert_eq!(rt;
        sign_and_middle(quarter),
        (Sign::Above, Sign::Mixed, ONE / 4)
    );
    let half = Fix::<28> {
        low: QUICK_ONE / 2,
        high: QUICK_ONE / 2,
    };
    let quarter = Fix::<28> {
        low: QUICK_ONE / 4 - 1,
        high: QUICK_ONE / 4 + 1,
    };
    assert_eq!(rt; each_call(half, quarter), half_and_quarter(QUICK_ONE));
    assert_eq!(rt;
        sign_and_middle(quarter),
        (Sign::Above, Sign::Mixed, QUICK_ONE / 4)
    );
}
