// The stiffness of a catalogue item in the axes of the wall.

ghost use Rattle.std.specs.Prelude.{◌≡◌, ℤ};
ghost use Rattle.lam_direction.specs.Circle.{IsDirection};
ghost use Rattle.lam_stock.specs.declared.item.Kind.TheVariants.{Ply};
ghost use Rattle.lam_stock.specs.declared.item.Lamina.{Lamina};
ghost use Rattle.lam_lamina.specs.Covered.{IsCovered};
ghost use Rattle.lam_lamina.specs.Held.{HoldsModuli, NarrowModuli, HoldsMatrix, NarrowMatrix};
ghost use Rattle.lam_lamina.specs.Stiffness.{moduli_over, stiffness_over, IsStiffness, IsBounded};
ghost use Rattle.lam_lamina.specs.inside.Formulas as by;
ghost use Rattle.lam_lamina.specs.inside.Known.{ReachModuli};

use crate::lamina::reduced;
use crate::powers::direction_powers;
use crate::stiffness::{Reduced, Sym3, zero};
use crate::transformation::by_powers;
use lam_direction::Direction;
use lam_number::Enclosure;
use lam_stock::{Item, Kind, Scale};

/// The stiffness of an item in the axes of the wall, over the scale's `q0`: that of a ply, or the
/// mean of both directions of a pair.
pub fn item_stiffness<N: Enclosure>(item: &Item, scale: &Scale) -> Sym3<N>
    requires { IsCovered scale.now.q0 item.now.lamina }
    ensures held { HoldsMatrix N.numbers result
        (stiffness_over scale.now.q0 item.now.kind item.now.lamina item.now.dir) }
    ensures stiffness { IsStiffness scale.now.q0 item.now.kind item.now.lamina item.now.dir
        (stiffness_over scale.now.q0 item.now.kind item.now.lamina item.now.dir) }
    ensures bounded { IsBounded
        (stiffness_over scale.now.q0 item.now.kind item.now.lamina item.now.dir) }
    ensures narrow { NarrowMatrix 32 N.numbers result }
    ensures value { result
        ≡ by.item N.numbers.calc scale.now.q0 item.now.kind item.now.lamina item.now.dir }
{
    let reduced = reduced(&item.lamina, scale);
    let ply = transformed(&reduced, &item.dir);
    match item.kind {
        Kind::Ply => ply,
        Kind::Pair => uncoupled(&ply),
    }
}

/// The stiffness of a ply in the axes of the wall, from its reduced stiffness (Jones, the
/// transformed reduced stiffnesses).
pub fn transformed<N: Enclosure>(reduced: &Reduced<N>, dir: &Direction) -> Sym3<N>
    requires { ReachModuli N.numbers reduced.now }
    ensures held { (q0 : ℤ) (l : Lamina) → HoldsModuli N.numbers reduced.now (moduli_over q0 l)
        → HoldsMatrix N.numbers result (stiffness_over q0 Ply l dir.now) }
    ensures stiffness { (q0 : ℤ) (l : Lamina)
        → IsStiffness q0 Ply l dir.now (stiffness_over q0 Ply l dir.now) }
    ensures narrow { (q0 : ℤ) (l : Lamina) → IsCovered q0 l
        → HoldsModuli N.numbers reduced.now (moduli_over q0 l)
        → NarrowModuli 1 N.numbers reduced.now
        → NarrowMatrix 32 N.numbers result }
    ensures direction { IsDirection dir.now }
    ensures value { result ≡ by.transformed N.numbers.calc reduced.now dir.now }
{
    let powers = direction_powers(dir);
    by_powers(reduced, &powers)
}

// without the coupling of shear with the normal components, which cancels in the mean of a
// direction and its mirror image
fn uncoupled<N: Enclosure>(matrix: &Sym3<N>) -> Sym3<N>
    ensures { result ≡ by.uncoupled N.numbers.calc matrix.now }
{
    let zero = zero();
    Sym3 {
        xs: zero,
        ys: zero,
        ..*matrix
    }
}
