// What is said of a schedule.

use lam_rules::RuleNo;
use lam_tsai::Place;

/// What is said of a schedule: the first of these that is found, in this order. Cases and panels count from 0.
#[derive(Clone, Copy, Debug, PartialEq, Eq)]
pub enum Judgement {
    /// It may be built: it keeps the rules, its loads are in range, and it meets every factor.
    Admissible,
    /// The first rule that it breaks.
    Broken(RuleNo),
    /// The first case whose loads are out of range for its wall.
    OutOfRange(u8),
    /// The first place whose strength ratio is not as great as the factor of its case.
    Fails(Place),
    /// The first panel that does not stand its factor times its load.
    Buckles(u8),
    /// The first place that the computation does not decide.
    StraddlesPly(Place),
    /// The first panel that the computation does not decide.
    StraddlesPanel(u8),
}
