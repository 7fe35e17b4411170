// What is said of an accepted report.

/// What an accepted report says.
#[derive(Clone, Copy, PartialEq, Eq, Debug)]
pub enum Accepted {
    /// A schedule of this cost may be built, and none that may be built costs less.
    Least(u64),
    /// No schedule may be built.
    NoneMeets,
    /// The search was left open.
    Open,
}
