//! The job: loads, panels, rules, and the definitions of what a design has to meet.
#![tactic(auto)]

mod limits; // how large the numbers and lists of a job may be
mod entries; // a list of cases, panels or counts
mod case; // a case of load
mod load; // the resultants that a case gives
mod panel; // a panel that must not buckle
mod rules; // what the listed plies have to keep
mod job; // all of it
mod fault; // why a job is refused, and where
mod reading; // the bytes of a job, read
mod laws; // what holds of every job that is read

pub use case::{Case, CaseKind};
pub use entries::Entries;
pub use fault::{JobCause, JobError, JobFault, JobKey, JobPlace, JobTable};
pub use job::Job;
pub use laws::jobs_name_known_items;
pub use limits::{
    GREATEST_ASKED_THICKNESS, GREATEST_DIAMETER, GREATEST_FACTOR, GREATEST_FORCE, GREATEST_MOMENT,
    GREATEST_PANEL_LOAD, GREATEST_PRESSURE, GREATEST_SIDE, GREATEST_WALL_THICKNESS, LEAST_FACTOR,
    LEAST_SIDE, MOST_CASES, MOST_LINER_PLIES, MOST_NAMES, MOST_PANELS, MOST_PLIES, MOST_WALL_PLIES,
};
pub use load::{Load, resultants};
pub use panel::Panel;
pub use reading::read_job;
pub use rules::{ItemSet, RuleSet};

#[cfg(test)]
mod tests;
