//! Boxes of strains: how far all walls that complete a partial schedule can be strained under a case without moments, and
//! where they all fail. Where schedules are symmetric and the liner carries no load, such a wall does not bend, so that
//! one box of the mid-plane's strains speaks of every place of every completion.
#![tactic(auto)]

mod three; // what is computed on the way
pub mod laws; // what a box says
mod steps; // exact steps in 64 and in 128 bits
mod sums; // a sum of matrices with a ply more
mod centre; // a guess of the strains
mod residual; // what the guess leaves, and its length
mod around; // what lies within a radius
mod boxes; // the box of strains
mod extents; // how thick the items of a catalogue are
mod tables; // what is made once for a catalogue
mod extensions; // the stiffness of the fixed plies, and of what can be at the open places
mod places; // the first place that fails in a box
mod shape; // what all completions have in common
mod cases; // the boxes of the cases of a job

pub use cases::{first_box, is_boxed, may_box, strain_box, strain_box_by};
pub use tables::BoxTables;

#[cfg(test)]
mod tests;
