//! Guides of a search: the order in which it looks at items.
#![tactic(auto)]

// What a search asks of a guide and tells it.
mod guide;
// The three guides.
mod cheapest;
mod learner;
#[cfg(test)]
mod tests;
mod thickest;

pub use cheapest::Cheapest;
pub use guide::{Choice, Event, Guide};
pub use learner::Learner;
pub use thickest::Thickest;
