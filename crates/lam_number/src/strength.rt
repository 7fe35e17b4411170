//! Words that the layers above share: a verdict on a strength, and the strains at a face.

/// What is sure of a condition whose value is known between two ends.
#[derive(Clone, Copy, Debug, PartialEq, Eq)]
pub enum Verdict {
    /// It holds of all that is held.
    Meets,
    /// It holds of nothing that is held.
    Fails,
    /// Neither is sure.
    Straddles,
}

/// The strains of a wall at a face of a ply, along x, along y and in engineering shear.
#[derive(Clone, Copy)]
pub struct FaceStrain<N> {
    pub ex: N,
    pub ey: N,
    pub g: N,
}
