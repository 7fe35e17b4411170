//! The words of the command line.
#![tactic(auto)]

// An order, and why words have none.
mod order;
// Words sorted into positional texts and the values of options.
mod option_name;
mod said;
mod sorting;
// The order that sorted words have.
mod asked;
mod number;
// The command of clap, and the order of words.
mod command;
mod reading;
#[cfg(test)]
mod tests;

pub use order::{GuideName, MOST_NODES, MOST_NUMBER, Order, WordsError};
pub use reading::read_words;
