//! Enclosures in fixed point: two whole ends over a power of two that hold an exact fraction
//! between them, and the arithmetic that keeps what they hold.
#![tactic(auto)]

// what a kind of enclosure computes and promises
mod enclosure;
// two ends in fixed point
mod fix;
// sums, sizes and quotients in 128 bits
mod wide;
// the calls of fixed point, for every scale
mod arithmetic;
// fixed point as an enclosure, at the two scales
mod scales;
// a middle and a radius in fixed point
mod ball;
// the calls of balls
mod ball_arithmetic;
// balls as an enclosure
mod ball_calls;
// a verdict, and the strains at a face
mod strength;

pub use ball::Ball;
pub use enclosure::{Enclosure, Sign};
pub use fix::Fix;
pub use strength::{FaceStrain, Verdict};

#[cfg(test)]
mod tests;
