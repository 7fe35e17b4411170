//! The nine rules of a job, for a schedule and for a partial schedule.
#![tactic(auto)]

mod rule; // the number of a rule
mod lists; // what the rules ask of a list of plies
mod runs; // plies of one item in a row
mod thickness; // how thick a wall is
mod rules; // the nine rules
mod partial; // a length and the first plies
mod visible_breaks; // the rules that a partial schedule visibly breaks
mod step; // the running numbers of a partial schedule
mod growing; // a partial schedule that grows and shrinks at its end

pub use growing::Growing;
pub use partial::{Partial, complete, fixed_plies, half};
pub use rule::RuleNo;
pub use rules::breaks;
pub use visible_breaks::visible;

#[cfg(test)]
mod tests;
