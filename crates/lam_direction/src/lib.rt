//! Fibre directions: rational points of the unit circle.
#![tactic(auto)]

mod direction;
mod squares;

pub use direction::{Direction, DirectionFault};
pub use squares::DirectionSquares;
