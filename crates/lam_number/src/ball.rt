//! Fixed point with a middle and a radius.

ghost use Rattle.std.specs.Prelude.{◌+◌, ◌*◌, ◌^◌, ◌≤◌, pos, ◌≤ℤ◌, unsigned_abs};

/// A middle and a radius, over two to the power of 60: an enclosure of what lies no farther from
/// the middle than the radius. A ball reaches at most 7, so that 64 bits hold its ends, and the
/// sums that its calls go through.
#[derive(Clone, Copy)]
pub struct Ball {
    pub(crate) middle: i64,
    pub(crate) radius: i64,
    ghost positive: { pos 0 ≤ℤ radius },
    ghost bounded: { unsigned_abs middle + unsigned_abs radius ≤ 7 * 2 ^ 60 },
}
