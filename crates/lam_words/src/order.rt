//! An order, and why words have none.

use thiserror::Error;

/// The most nodes that a search may be given, and what it has where the words don't say.
pub const MOST_NODES: u32 = 200_000;

/// The greatest number of a sample.
pub const MOST_NUMBER: u32 = 1_000_000;

/// The guides of a search, by their names.
#[derive(Clone, Copy, PartialEq, Eq, Debug)]
pub enum GuideName {
    /// The cheapest item first.
    Cheapest,
    /// The thickest item first.
    Thickest,
    /// The item first that most often ended an admissible schedule.
    Learner,
}

/// What the words of the command line ask for.
#[derive(Debug, Drop)]
pub enum Order {
    /// The cheapest schedule that meets a job.
    Design {
        /// The name of the job's file.
        job: String,
        /// The name of the catalogue's file.
        catalogue: String,
        /// The guide of the search.
        guide: GuideName,
        /// The most nodes of the search, 1 to 200,000.
        nodes: u32,
    },
    /// The ratios of a schedule under a job.
    Analyse {
        /// The name of the job's file.
        job: String,
        /// The name of the catalogue's file.
        catalogue: String,
        /// The names of its items, joined by commas.
        schedule: String,
    },
    /// Whether a report of a design is right.
    Check {
        /// The name of the job's file.
        job: String,
        /// The name of the catalogue's file.
        catalogue: String,
        /// The name of the report's file.
        report: String,
    },
    /// A job and a catalogue made from a number, designed and checked.
    Sample {
        /// The number, 1 to 1,000,000.
        number: u32,
        /// The guide of the search.
        guide: GuideName,
        /// The most nodes of the search, 1 to 200,000.
        nodes: u32,
    },
}

/// Why words give no order.
#[derive(Debug, Drop, Error)]
pub enum WordsError {
    /// The words have no reading.
    #[error("Usage")]
    Usage,
    /// Memory ran out.
    #[error("Memory")]
    Memory,
}
