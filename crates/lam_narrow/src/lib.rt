//! How near the Tsai-Wu values of near strains are to each other, and so where a verdict straddles, as laws.
#![tactic(auto)]

// the laws, as contracts of functions that do nothing
mod laws;

pub use laws::{not_met_is_nearly_one, straddles_in_band, straddles_near_one, values_are_close};
