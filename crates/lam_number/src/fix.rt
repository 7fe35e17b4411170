//! Fixed point with two ends.
//!
//! The functions are shared by all scales from 28 to 60. Each rounds its low end down and its high
//! end up, and works in 128 bits inside.

ghost use Rattle.std.specs.Prelude.{◌≤ℤ◌};

/// A low and a high end, over two to the power S.
#[derive(Clone, Copy)]
pub struct Fix<const S: u32> {
    pub(crate) low: i64,
    pub(crate) high: i64,
    ghost ordered: { low ≤ℤ high },
}
