//! The same, for balls.

ghost use Rattle.std.specs.Prelude.{pos};

use super::{ONE, each_call, sign_and_middle};
use crate::{Ball, Enclosure, Sign};

#[test]
fn a_ratio_is_rounded_down_and_takes_one_to_each_side(rt: HostRuntime) {
    expect_ends!(rt; Ball::of_ratio(1, 3), 384307168202282324, 384307168202282326);
    expect_ends!(rt; Ball::of_ratio(-1, 3), -384307168202282327, -384307168202282325);
    expect_ends!(rt; Ball::of_ratio(6, 1), 6 * ONE - 1, 6 * ONE + 1);
    let great = 73786976294838206464;
    expect_ends!(rt; Ball::of_ratio(-great, great), -ONE - 1, -ONE + 1);
}

#[test]
#[tactic(auto, unfolding(lam_fraction::specs::numbers::Ends::reach))]
fn sums_and_products_reach_six_units(rt: HostRuntime) {
    let two = Ball {
        middle: 2 * ONE,
        radius: 0,
    };
    let three = Ball {
        middle: 3 * ONE,
        radius: 0,
    };
    let within_two = Ball {
        middle: 0,
        radius: 2 * ONE,
    };
    let within_three = Ball {
        middle: 0,
        radius: 3 * ONE,
    };
    expect_ends!(rt; three.add(three), 6 * ONE, 6 * ONE);
    expect_ends!(rt; within_three.sub(within_three), -6 * ONE, 6 * ONE);
    expect_ends!(rt; three.mul(two), 6 * ONE - 1, 6 * ONE + 1);
    expect_ends!(rt; within_three.mul(within_two), -6 * ONE - 1, 6 * ONE + 1);
    expect_ends!(rt; within_two.square(), -4 * ONE - 1, 4 * ONE + 1);
    expect_ends!(rt; Ball { middle: 3, radius: 2 }.mul(Ball { middle: -5, radius: 1 }), -3, 1);
}

#[test]
#[tactic(auto, unfolding(lam_fraction::specs::numbers::Ends::reach))]
fn a_multiple_takes_the_size_of_its_factor_to_each_side(rt: HostRuntime) {
    expect_ends!(rt; Ball { middle: 1, radius: 4 }.times_whole(-2), -10, 6);
    expect_ends!(rt; Ball { middle: 0, radius: 0 }.times_whole(i64::MIN), 0, 0);
    expect_ends!(rt; Ball { middle: 0, radius: 1 }.times_whole(-6 * ONE), -6 * ONE, 6 * ONE);
}

#[test]
fn a_quotient_takes_in_what_its_middle_leaves(rt: HostRuntime) {
    expect_ends!(rt; Ball { middle: -5, radius: 1 }.over_positive(2), -4, -2);
    expect_ends!(rt; Ball { middle: 7, radius: 0 }.over_positive(2), 2, 4);
    let greatest = Ball {
        middle: -4 * ONE,
        radius: 3 * ONE,
    };
    expect_ends!(rt; greatest.over_positive(1), -7 * ONE, -ONE);
    expect_ends!(rt; greatest.over_positive(i64::MAX), -2, 0);
}

#[test]
fn a_root_is_one_or_two_above_the_whole_root(rt: HostRuntime) {
    expect_ends!(rt; Ball { middle: -7, radius: 7 }.root_up(), 0, 2);
    let half = ONE / 2;
    expect_ends!(rt; Ball { middle: half, radius: half }.root_up(), 0, ONE + 2);
    let three = 3 * ONE;
    expect_ends!(rt; Ball { middle: three, radius: three }.root_up(), 0, 2824069399768620284);
}

#[test]
#[tactic(auto, unfolding(lam_fraction::specs::numbers::Ends::reach))]
fn a_hull_goes_past_the_lesser_low_by_one_at_most(rt: HostRuntime) {
    let first = Ball {
        middle: 2,
        radius: 1,
    };
    let second = Ball {
        middle: 0,
        radius: 2,
    };
    expect_ends!(rt; first.hull(second), -3, 3);
    expect_ends!(rt; second.hull(first), -3, 3);
    let least = Ball {
        middle: -6 * ONE,
        radius: 0,
    };
    let greatest = Ball {
        middle: 6 * ONE,
        radius: 0,
    };
    expect_ends!(rt; least.hull(greatest), -6 * ONE, 6 * ONE);
}

#[test]
fn a_sign_is_sure_only_where_the_whole_ball_is_beyond_the_margin(rt: HostRuntime) {
    assert_eq!(rt;
        Ball {
            middle: -7,
            radius: 1
        }
        .sign(5),
        Sign::Below
    );
    assert_eq!(rt;
        Ball {
            middle: -7,
            radius: 2
        }
        .sign(5),
        Sign::Mixed
    );
    assert_eq!(rt;
        Ball {
            middle: 7,
            radius: 2
        }
        .sign(5),
        Sign::Mixed
    );
    assert_eq!(rt;
        Ball {
            middle: 7,
            radius: 1
        }
        .sign(5),
        Sign::Above
    );
    assert_eq!(rt;
        Ball {
            middle: -7 * ONE,
            radius: 0
        }
        .sign(7 * ONE),
        Sign::Mixed
    );
}

#[test]
#[tactic(auto, unfolding(lam_fraction::specs::numbers::Ends::reach))]
fn each_call_serves_balls(rt: HostRuntime) {
    let half = Ball {
        middle: ONE / 2,
        radius: 0,
    };
    let quarter = Ball {
        middle: ONE / 4,
        radius: 1,
    };
    let third = (ONE / 4 - 1) / 3;
    let expected = [
        (ONE / 4 - 1, ONE / 4 + 1),
        (3 * (ONE / 4) - 1, 3 * (ONE / 4) + 1),
        (ONE / 4 - 1, ONE / 4 + 1),
        (ONE / 8 - 2, ONE / 8 + 2),
        (-3 * (ONE / 4) - 3, -3 * (ONE / 4) + 3),
        (third - 1, third + 1),
        (ONE / 16 - 2, ONE / 16 + 2),
        (0, ONE / 2 + 2),
        (ONE / 4 - 2, ONE / 2),
    ];
    assert_eq!(rt; each_call(half, quarter), expected);
    assert_eq!(rt;
        sign_and_middle(quarter),
        (Sign::Above, Sign::Mixed, ONE / 4)
    );
}
