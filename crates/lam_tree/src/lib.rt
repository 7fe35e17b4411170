//! The tree of a search, its report, and what both promise.
#![tactic(auto)]

mod limits; // how large the numbers of a report may be
mod spot; // where a schedule hangs
mod node; // the nodes of a search tree
mod tree; // a list of nodes
mod report; // the answer of a search, with what shows it
mod line; // a line in the making
mod write; // the line of a node, written
mod line_words; // the words of a line
mod read; // the line of a node, read
mod laws; // the laws of trees and reports

pub use laws::{accepted_keeps_promise, closed_reports_agree};
pub use limits::{MOST_COST, MOST_NODES, MOST_RATIO, MOST_RULES};
pub use line::Line;
pub use line_words::LineWords;
pub use node::{Node, Seat, Word};
pub use read::{TreeFault, read_line, read_number, read_spot};
pub use report::{Answer, Best, Head, Near, Ratios, Report};
pub use spot::Spot;
pub use tree::Tree;
pub use write::write_line;

#[cfg(test)]
mod tests;
