//! The search for a cheapest schedule that may be built. It goes depth first through the partial
//! schedules of all lengths, closes those whose completions are settled, and writes down each.
#![tactic(auto)]

mod design; // a catalogue and a job, with what is made once
mod hints; // what is known of all children of a split
mod closings; // the word that closes a partial schedule
mod order; // the children of a split in order
mod position; // where a walk is
mod state; // what a walk keeps
mod writing; // a node is written
mod walking; // the tree of a partial schedule
mod lengths; // the trees of all lengths
mod seeking; // a tree is read again
mod searching; // the search

pub use searching::{Found, search};

#[cfg(test)]
mod tests;
