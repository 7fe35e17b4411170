//! The checker of reports. It reads a search tree line by line, and computes anew what each line
//! says. It stands on the same rules, bounds, boxes and judgement as the search, and shares no code
//! with its walk.
#![tactic(auto)]

mod fault; // why a report is not accepted
mod splits; // the open splits of a tree
mod problem; // what a tree is checked against
mod path; // the way to a partial schedule
mod cursor; // where the machine is in a tree
mod state; // the machine: a line is passed, or stops the check
mod costs; // what schedules cost
mod splitting; // when a partial schedule may be split
mod judging; // how schedules are judged
mod closing; // when the word of a leaf closes a partial schedule
mod design; // a catalogue and a job, with what is made once
mod printed; // the printed ratios, line by line
mod blocks; // the blocks of a report before its tree
mod claims; // what a report claims before its tree
mod accepted; // what is said of an accepted report
mod answers; // what a tree says of the answer
mod lines; // the lines of a tree, one after the other
mod tree; // the lines of a tree, read by the machine
mod checking; // the check of a report

pub use accepted::Accepted;
pub use checking::{check, check_lines};
pub use fault::{CheckCause, CheckFault};
pub use lines::Lines;
