//! The stiffness of laminae and of catalogue items.
#![tactic(auto)]

// the reduced stiffness and the matrix of a stiffness
mod stiffness;
// the reduced stiffness of a lamina
mod lamina;
// the powers of a cosine and a sine
mod powers;
// the formulas of the transformed stiffness
mod transformation;
// the stiffness of a ply and of an item
mod item;
// eight values
mod eight;
// the stiffness of each item of a catalogue
mod table;
// what the layers of a catalogue keep
mod laws;

pub use item::{item_stiffness, transformed};
pub use lamina::reduced;
pub use laws::layers_work_between;
pub use stiffness::{Reduced, Sym3, zeros};
pub use table::Stiffnesses;

#[cfg(test)]
mod tests;
