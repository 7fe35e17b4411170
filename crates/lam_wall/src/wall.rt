// The matrices of a wall.

use lam_lamina::Sym3;

/// The matrices of a wall (Jones, the extensional, coupling and bending stiffnesses `A`, `B` and `D`), without units:
/// over its thickness `h` and the scale's `q0`.
#[derive(Clone, Copy)]
pub struct Wall<N> {
    /// `A/(h q0)`: the force sums at mid-plane strains.
    pub a: Sym3<N>,
    /// `2B/(h² q0)`: the force sums at bending strains, and the moment sums at mid-plane strains.
    pub b: Sym3<N>,
    /// `4D/(h³ q0)`: the moment sums at bending strains.
    pub d: Sym3<N>,
    /// The thickness of the wall, in µm.
    pub h: i64,
}
