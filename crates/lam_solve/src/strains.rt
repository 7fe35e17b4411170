// The strains of a wall, enclosed and guessed.

/// The laminate strain of a wall, enclosed (Jones, classical lamination theory): the strains of the mid-plane, of which
/// the third is the engineering shear, and the strains that the curvatures add at the outer surface, which are half the
/// wall's thickness times the curvatures.
#[derive(Clone, Copy)]
pub struct Strains<N> {
    pub ex: N,
    pub ey: N,
    pub g: N,
    pub kx: N,
    pub ky: N,
    pub kg: N,
}

/// A guess of the same six, over two to the power of the enclosures' scale.
#[derive(Clone, Copy, PartialEq, Eq, Debug)]
pub struct Guess {
    pub ex: i64,
    pub ey: i64,
    pub g: i64,
    pub kx: i64,
    pub ky: i64,
    pub kg: i64,
}
