//! The plies of a wall and the loads that it is computed for, its stiffness as matrices, and its energy.
#![tactic(auto)]

// the plies of a wall, their thickness and their faces
mod plies;
// the loads that a wall is computed for
mod range;
// the matrices A, B and D of a wall
mod wall;
// the share of a ply in each
mod ply_shares;
// a sum with one ply more
mod sums;
// the sums over all plies
mod assembly;
// the laws of the matrices, of the energy and of the laminate strain under a load
pub mod laws;

pub use assembly::{assemble, assemble_by};
pub use plies::{face, thickness, wall_plies};
pub use range::in_range;
pub use wall::Wall;

#[cfg(test)]
mod tests;
