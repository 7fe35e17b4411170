//! The laminate strain of a wall under a load, enclosed: a centre that is guessed, and a radius round it from the residual
//! of the centre and from the energy of the wall, so that the strain lies within whatever the guess is.
#![tactic(auto)]

// the strains that are enclosed, and a guess of them
mod strains;
// six numbers, one for each strain or for each equation
mod six;
// exact steps in 64 and in 128 bits
mod steps;
// the forces and moments of a load
mod loads;
// the residual of a centre
mod residual;
// the strains within a radius round a centre, and the call that takes a guess
mod enclosed;
// what is left of a wall's equations when its unknowns are eliminated, and the guess by it
mod elimination;
// the walls over which turns of refinement end by themselves
mod narrow;
// turns of refinement, and the strains of a wall under a load
mod solution;
// the strains at a face
mod face;
// the laws of the laminate strain of a wall under a load
pub mod laws;

pub use elimination::Elimination;
pub use enclosed::enclose_at;
pub use face::at_face;
pub use lam_number::FaceStrain;
pub use solution::{solve, solve_by};
pub use strains::{Guess, Strains};

#[cfg(test)]
mod tests;
