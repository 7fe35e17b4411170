//! How near the Tsai-Wu value of a ply stress has to be to 1 for the stress to be near its factor, as laws.
#![tactic(auto)]

// the laws, as contracts of functions that do nothing
mod laws;

pub use laws::{
    case_ratio_ends, hangs_where_near, hardly_above_stands, near_one_is_near, near_one_places,
    nearly_one_bounds, ratio_ends,
};
