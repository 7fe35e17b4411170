// What a stiffness consists of.

ghost use Rattle.std.specs.Prelude.{◌≡◌, pos};
ghost use Rattle.lam_lamina.specs.inside.Formulas as by;

use lam_number::Enclosure;

/// The reduced stiffness of a lamina, in its own axes and over the scale's `q0`: the stresses that
/// the normal strain along the fibres (1), that across them (2) and the shear strain (6) give.
#[derive(Clone, Copy)]
pub struct Reduced<N> {
    /// The normal stress along the fibres at a strain along them.
    pub q11: N,
    /// The normal stress along the fibres at a strain across them, and the other way round.
    pub q12: N,
    /// The normal stress across the fibres at a strain across them.
    pub q22: N,
    /// The shear stress at an engineering shear strain.
    pub q66: N,
}

/// A symmetric matrix with the rows and columns x, y and shear (s), in the axes of the wall. Its
/// product with a strain is a stress; the shear strain is the engineering one.
#[derive(Clone, Copy)]
pub struct Sym3<N> {
    pub xx: N,
    pub xy: N,
    pub yy: N,
    pub xs: N,
    pub ys: N,
    pub ss: N,
}

/// The matrix of zeros: no stiffness at all, before the first ply of a sum.
pub fn zeros<N: Enclosure>() -> Sym3<N>
    ensures { result ≡ by.zeros N.numbers.calc }
{
    let zero = zero();
    Sym3 {
        xx: zero,
        xy: zero,
        yy: zero,
        xs: zero,
        ys: zero,
        ss: zero,
    }
}

// 0
pub(crate) fn zero<N: Enclosure>() -> N
    ensures { result ≡ N.numbers.calc.ratio (pos 0) (pos 1) }
{
    N::of_ratio(0, 1)
}
