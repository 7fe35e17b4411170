// Why a report is refused.

use thiserror::Error;

/// The first line that is not in the grammar, from 1. Where all whole lines are, it is the one
/// behind the last of them.
#[derive(Clone, Copy, Debug, PartialEq, Eq)]
pub struct ReportFault {
    pub line: u32,
}

/// Why a report is not read.
#[derive(Clone, Copy, Debug, PartialEq, Eq, Error)]
pub enum ReportError {
    /// The bytes are no report of this job and catalogue.
    #[error("Refused")]
    Refused(ReportFault),
    /// Memory is wanting.
    #[error("Memory")]
    Memory,
}
