//! The judgement of one schedule, and its printed ratios.
#![tactic(auto)]

// what is said of a schedule
mod judgement;
// room for the printed ratios
mod room;
// what is found at some places, one after the other
mod finding;
// what depends on a catalogue alone
mod tables;
// the first case out of range
mod range;
// the wall of a schedule
mod layup;
// a wall under a case of load
mod loaded;
// what is found at its places
mod places;
// what the first scale alone finds there
mod coarse;
// what is found under all cases and at all panels
mod cases;
// whether a schedule is fit for a panel
mod fitness;
// the judgement
mod judging;
// the printed ratios
mod printing;

pub use judgement::Judgement;
pub use judging::{judge, judge_by};
pub use lam_tsai::{FaceSide, Place, Side};
pub use printing::{ratios, ratios_by};
pub use room::Room;
pub use tables::Tables;

#[cfg(test)]
mod tests;
