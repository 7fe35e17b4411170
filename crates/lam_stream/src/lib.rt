//! A report is checked as it stands in its bytes: the lines of its tree are read one after the
//! other, and no tree is built.
#![tactic(auto)]

mod tree_lines; // the lines of a tree, read from bytes
mod checking; // the check of the report that bytes spell

pub use checking::{Refusal, check_bytes};

#[cfg(test)]
mod tests;
