//! Buckling of panels: whether a panel of a wall stands a number of times its load, whatever the number of half
//! waves.
#![tactic(auto)]

// a plate in one number of half waves
mod wave;
// how many half waves decide for all
mod waves;
// whole numbers that are compared
mod units;
// a panel of a wall, whatever the factor
mod plate;
// what is sure of a panel at a factor
mod verdict;
// the ratio that is printed
mod printed;
// how near verdicts and printed ratios are to the exact ones, as contracts of functions that do nothing
mod laws;

pub use laws::{printed_panel_ends, straddles_near_factor};
pub use printed::printed_panel;
pub use verdict::panel_verdict;

#[cfg(test)]
mod tests;
