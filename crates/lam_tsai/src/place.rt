//! Where a wall is judged, and how a value of the criterion is known.

/// A side of an item: the direction of its fibres, or its mirror image. A ply has the side Plus
/// alone; a pair has both.
#[derive(Clone, Copy, Debug, PartialEq, Eq)]
pub enum Side {
    /// The item's direction.
    Plus,
    /// The direction on the other side of the wall's axis x.
    Minus,
}

/// A face of a ply.
#[derive(Clone, Copy, Debug, PartialEq, Eq)]
pub enum FaceSide {
    /// The face on the inside of the wall.
    Inner,
    /// The face on its outside.
    Outer,
}

/// A face and side of a ply under a case. Cases and plies count from 0, plies from the inside.
#[derive(Clone, Copy, Debug, PartialEq, Eq)]
pub struct Place {
    pub case: u8,
    pub ply: u8,
    pub face: FaceSide,
    pub side: Side,
}

/// What is known of the Tsai-Wu value f at a face, on a side and at a factor.
#[derive(Clone, Copy)]
pub enum Level<N> {
    /// An enclosure of (g - 1)/4096, with g the lesser of f and 2.
    Near(N),
    /// The value f is above 2.
    Far,
}
