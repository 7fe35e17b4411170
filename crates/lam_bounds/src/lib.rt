//! Bounds over all completions of a partial schedule: the least cost, and what a balance of
//! weighted forces says of the plies that may stand at the open places.
#![tactic(auto)]

// the weights that are tried
mod weights;
// what a case demands of a weighted force
mod demands;
// what the items of a catalogue carry of it
mod carriers;
// both for each tried weight, made once
mod bounds;
// sums over the fixed plies
mod sums;
// what a walk keeps of them
mod fixed;
// the three bounds, from what is made once
mod running;
// the three bounds of a partial schedule by itself
mod plain;
// balances of forces, with the tables of the tried weights
mod ready;
// all cases and tried weights at once
mod closings;
// all children of a partial schedule at once
mod children;

pub use bounds::Bounds;
pub use children::{no_child_is_dear, no_child_is_short};
pub use closings::{first_dear, first_short};
pub use fixed::Fixed;
pub use plain::{cost_floor, net_cost, net_short};
pub use ready::{net_cost_by, net_short_by};
pub use running::{cost_floor_at, net_cost_at, net_short_at};
pub use weights::{TRIED, tried_weights};

#[cfg(test)]
mod tests;
