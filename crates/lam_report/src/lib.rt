//! The texts of an analysis and of a report, written and read.
#![tactic(auto)]

mod piece; // at most 64 bytes
mod pieces; // a text on its way into a sink
mod lines; // bytes, read by lines
mod words; // the words and lines of texts
mod wall; // how many plies carry load, and what all cost
mod write; // a report, written
mod analysis; // an analysis, written
mod spelled; // the lines of a report, each read by itself
mod steps; // the same, taken one after the other
mod head; // what stands before the tree, read
mod fault; // why a report is refused
mod read; // a report, read
mod laws; // a report is short, and bytes spell one at most

pub use analysis::write_analysis;
pub use fault::{ReportError, ReportFault};
pub use laws::{reports_are_short, reports_are_spelled_once};
pub use read::{MOST_BYTES, read_report, scan_report};
pub use write::write_report;

#[cfg(test)]
mod tests;
