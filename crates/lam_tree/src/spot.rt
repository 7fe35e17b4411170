// Where a schedule hangs.

use lam_tsai::Place;

/// Where a schedule is so near a factor that the computation does not decide it.
#[derive(Clone, Copy, PartialEq, Eq, Debug)]
pub enum Spot {
    /// A face and side of a ply under a case.
    Ply(Place),
    /// A panel, from 0.
    Panel(u8),
}
