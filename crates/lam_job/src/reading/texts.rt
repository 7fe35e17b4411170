// The texts of the keys and tables of a job, and faults at their places.

ghost use Rattle.std.specs.Prelude.{◌≡◌};
ghost use Rattle.lam_job.specs.JobOf as spec;
ghost use Rattle.lam_job.specs.Keys as keys;

use crate::fault::{JobCause, JobFault, JobKey, JobPlace, JobTable};

/// The text of the key that a table stands at.
pub fn table_text(table: JobTable) -> &'static str
    ensures { result.now ≡ keys.table_text table }
{
    match table {
        JobTable::Top => "top",
        JobTable::Liner => "liner",
        JobTable::Rules => "rules",
        JobTable::Counts => "counts",
        JobTable::Case => "case",
        JobTable::Panel => "panel",
    }
}

/// The text of a key.
pub fn key_text(key: JobKey) -> &'static str
    ensures { result.now ≡ keys.key_text key }
{
    match key {
        JobKey::Other => "",
        JobKey::Version => "version",
        JobKey::Limit => "limit",
        JobKey::Plies => "plies",
        JobKey::InWall => "in_wall",
        JobKey::Inner => "inner",
        JobKey::Outer => "outer",
        JobKey::Symmetric => "symmetric",
        JobKey::Balanced => "balanced",
        JobKey::Run => "run",
        JobKey::Fewest => "fewest",
        JobKey::Thickness => "thickness",
        JobKey::Count => "count",
        JobKey::Kind => "kind",
        JobKey::Nx => "nx",
        JobKey::Ny => "ny",
        JobKey::Nxy => "nxy",
        JobKey::Mx => "mx",
        JobKey::My => "my",
        JobKey::Mxy => "mxy",
        JobKey::Pressure => "pressure",
        JobKey::Diameter => "diameter",
        JobKey::Ends => "ends",
        JobKey::Axial => "axial",
        JobKey::Factor => "factor",
        JobKey::Length => "length",
        JobKey::Width => "width",
        JobKey::Load => "load",
    }
}

/// The place of one of several tables.
pub fn numbered(table: JobTable, number: u16) -> JobPlace
    ensures { result ≡ spec.numbered table number }
{
    JobPlace {
        table,
        number,
        key: JobKey::Other,
    }
}

/// The place of a table that there is once, or of all tables of a kind.
pub fn the(table: JobTable) -> JobPlace
    ensures { result ≡ spec.the table }
{
    numbered(table, 0)
}

/// The fault of a cause, at a key of a place.
pub fn fault_at(place: JobPlace, key: JobKey, cause: JobCause) -> JobFault
    ensures { result ≡ spec.fault_at place key cause }
{
    JobFault {
        place: JobPlace { key, ..place },
        cause,
    }
}
