//! Capacities: the greatest weighted force that a catalogue item's layer carries while none of its
//! stresses leaves its Tsai-Wu surface.
#![tactic(auto)]

// the weights
mod weight;
// a weight in the axes of a ply
mod slopes;
// the surface of a lamina
mod surface;
// how far the surface reaches along a slope
mod reach;
// the capacity of an item
mod item;

pub use item::capacity;
pub use weight::Weight;

#[cfg(test)]
mod tests;
