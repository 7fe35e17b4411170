//! How a run ends.

/// How a run ends; the process ends with its number, from 0 in this order.
#[derive(Clone, Copy, Debug, PartialEq, Eq)]
pub enum Status {
    /// The answer is least, none, an analysis or an acceptance, and all of it is written.
    Done,
    /// The answer is open, and all of it is written.
    Open,
    /// The words have no reading; the usage line is written.
    Usage,
    /// The content of a file or of the schedule word is refused; the line that says so is written.
    Refused,
    /// A file could not be read; the line that names it is written.
    ReadFault,
    /// The sink failed or took nothing; what was written is a prefix of the output.
    WriteFault,
    /// Memory ran out; nothing is written.
    Memory,
    /// The report isn't in the grammar, or the checker refuses it; the line that says so is
    /// written.
    ReportRefused,
}
