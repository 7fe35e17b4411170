// Why a job is refused.

ghost use Rattle.std.specs.Prelude.{◌≡◌};
ghost use Rattle.lam_job.specs.declared.fault.JobError.TheVariants as error;

use std::alloc::AllocFailed;
use thiserror::Error;

/// A table of a job.
#[derive(Clone, Copy, PartialEq, Eq, Debug)]
pub enum JobTable {
    /// The text itself.
    Top,
    /// The liner.
    Liner,
    /// The rules.
    Rules,
    /// The counts of the rules.
    Counts,
    /// A case.
    Case,
    /// A panel.
    Panel,
}

/// A key of a table of a job, or another one.
#[derive(Clone, Copy, PartialEq, Eq, Debug)]
pub enum JobKey {
    /// No key, or one that the table does not have.
    Other,
    Version,
    Limit,
    Plies,
    InWall,
    Inner,
    Outer,
    Symmetric,
    Balanced,
    Run,
    Fewest,
    Thickness,
    Count,
    Kind,
    Nx,
    Ny,
    Nxy,
    Mx,
    My,
    Mxy,
    Pressure,
    Diameter,
    Ends,
    Axial,
    Factor,
    Length,
    Width,
    Load,
}

/// Where a job is refused: a table, its number from 1 where there are several, and a key.
#[derive(Clone, Copy, PartialEq, Eq, Debug)]
pub struct JobPlace {
    /// The table.
    pub table: JobTable,
    /// The number of a case, a panel or a count; 0 where there is none.
    pub number: u16,
    /// The key.
    pub key: JobKey,
}

/// Why a job is refused.
#[derive(Clone, Copy, PartialEq, Eq, Debug)]
pub enum JobCause {
    /// The text is not TOML.
    Text,
    /// A key that has to be there is absent.
    Missing,
    /// A value is of another type, or is none of the words that may stand there.
    Kind,
    /// A number, or the number of members of a list, is outside its range.
    Range,
    /// A name is none of the catalogue.
    Item,
    /// The table does not have this key.
    Unknown,
}

/// The first cause that a job is refused for, and its place.
#[derive(Clone, Copy, PartialEq, Eq, Debug)]
pub struct JobFault {
    /// The place.
    pub place: JobPlace,
    /// The cause.
    pub cause: JobCause,
}

/// Why a job is not read.
#[derive(Debug, Drop, Error)]
pub enum JobError {
    /// The job is refused.
    #[error("Refused")]
    Refused(JobFault),
    /// Memory ran out.
    #[error("Memory")]
    Memory,
}

impl From<JobFault> for JobError {
    ghost from_gives = { λ fault e. e ≡ error.Refused fault };

    fn from(fault: JobFault) -> JobError {
        JobError::Refused(fault)
    }
}

impl<T: Drop> From<AllocFailed<T>> for JobError {
    ghost from_gives = { λ _ e. e ≡ error.Memory };

    fn from(_failed: AllocFailed<T>) -> JobError {
        JobError::Memory
    }
}
