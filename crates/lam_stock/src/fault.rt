// Why a catalogue is refused.

use thiserror::Error;

/// Why a catalogue is refused, in the order in which the causes are looked for.
#[derive(Clone, Copy, PartialEq, Eq, Debug)]
pub enum StockCause {
    /// There is no record.
    Empty,
    /// The first record is not the names of the columns.
    Header,
    /// There are 64 items before this one.
    Many,
    /// The record has not 17 fields.
    Fields,
    /// The name is none.
    Name,
    /// An earlier item has the name.
    Twice,
    /// The kind is none.
    Kind,
    /// A field that should be a number is none.
    Number,
    /// A number is outside its limits.
    Range,
    /// Poisson's ratio is too great for the moduli.
    Poisson,
    /// Two strengths along one axis differ by more than 16 times.
    Ratio,
    /// The interaction term of the Tsai-Wu criterion is too great for the strengths.
    Cross,
    /// A strength is too small for the moduli.
    Slack,
    /// The direction has a common denominator outside 1 to 1000, or is not on the unit circle.
    Unit,
    /// The direction is on the half circle that is left out.
    Half,
    /// There is no item.
    NoItem,
    /// The least power of two that covers every stiffness cap is more than 512 times the least
    /// stiffness floor.
    Spread,
}

/// The first cause that a catalogue is refused for, and the number of its record, counted from 1.
#[derive(Clone, Copy, PartialEq, Eq, Debug)]
pub struct StockFault {
    /// The number of the record; 0 where there is none.
    pub row: u32,
    /// The cause.
    pub cause: StockCause,
}

/// Why a catalogue is not read.
#[derive(Debug, Drop, Error)]
pub enum StockError {
    /// The catalogue is refused.
    #[error("Refused")]
    Refused(StockFault),
    /// Memory ran out.
    #[error("Memory")]
    Memory,
}
