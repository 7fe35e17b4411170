// Why a report is not accepted.

/// What is wrong at a line.
#[derive(Clone, Copy, PartialEq, Eq, Debug)]
pub enum CheckCause {
    /// A printed cost is not that of its schedule.
    Cost,
    /// The best schedule is not judged admissible, or is longer than the job allows.
    Best,
    /// A printed ratio is not the computed one.
    Ratio,
    /// The near schedule is not judged to straddle there, or is longer than the job allows.
    Near,
    /// The seat of a node is not due.
    Order,
    /// A partial schedule may not be split.
    Unlawful,
    /// A word does not close its partial schedule.
    Leaf,
    /// The tree does not keep to the budget.
    Budget,
    /// The answer is not what the tree gives.
    Answer,
}

/// The first line at which something is wrong, from 1, and what.
#[derive(Clone, Copy, PartialEq, Eq, Debug)]
pub struct CheckFault {
    pub line: u32,
    pub cause: CheckCause,
}
