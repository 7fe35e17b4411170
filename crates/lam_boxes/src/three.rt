// What is computed on the way.

use lam_lamina::Sym3;

/// Three numbers, of which one is for the strain or the force in x, one for y, and one for shear: a generic struct has
/// named fields, since its callers would owe the size of an array.
#[derive(Clone, Copy)]
pub(crate) struct Three<T> {
    pub(crate) x: T,
    pub(crate) y: T,
    pub(crate) s: T,
}

/// The equations of y and of the shear without the strain in x: the lower right of the matrix, and the forces.
#[derive(Clone, Copy)]
pub(crate) struct Left {
    pub(crate) yy: i64,
    pub(crate) ys: i64,
    pub(crate) ss: i64,
    pub(crate) y: i64,
    pub(crate) s: i64,
}

/// The stiffness in extension of all walls that complete a partial schedule, over `h q0` with the greatest thickness `h`
/// that they can have, and their thickness, in µm.
#[derive(Clone, Copy)]
pub(crate) struct Shape<N> {
    pub(crate) extension: Sym3<N>,
    /// No completion is thicker.
    pub(crate) most: i64,
    /// None is thinner.
    pub(crate) least: i64,
}
