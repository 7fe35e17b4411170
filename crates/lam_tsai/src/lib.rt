//! The Tsai-Wu criterion of the plies of a wall, in enclosures.
#![tactic(auto)]

// the places that are judged, and what a level says
mod place;
// the angle of a side
mod angle;
// strains and stresses in ply axes
mod components;
// the coefficients of the criterion
mod coefficients;
// what is made once for an item
mod criterion;
// stresses at a factor, over the strengths
mod loaded;
// the value, round a middle
mod value;
// what is known of the value at a face, on a side and at a factor
mod levels;

// the verdict on it
mod verdicts;
// the printed ratio of a ply
mod ratio;
// what it says of a ply in a loaded wall
mod laws;

pub use angle::Angle;
pub use coefficients::Coefficients;
pub use components::Components;
pub use criterion::Criterion;
pub use lam_number::Verdict;
pub use laws::meeting_is_a_ratio;
pub use levels::level;
pub use place::{FaceSide, Level, Place, Side};
pub use ratio::printed_ratio;
pub use verdicts::verdict;

#[cfg(test)]
mod tests;
