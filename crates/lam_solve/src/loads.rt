// The forces and moments of a load on a wall, without units: over the thickness of the wall and the scale's q0.

ghost use Rattle.std.specs.Prelude.{◌≡◌};
ghost use Rattle.lam_solve.specs.inside.Formulas as by;
ghost use Rattle.lam_solve.specs.inside.Parts.{SmallLoads, IsPosed};

use crate::six::Six;
use lam_fraction::machine::wide_product;
use lam_job::Load;
use lam_number::Enclosure;
use lam_stock::Scale;

/// The forces over `h q0`, and twice the moments over `h² q0`.
pub(crate) fn loads<N: Enclosure>(load: &Load, scale: &Scale, h: i64) -> Six<N>
    requires { IsPosed scale.now h load.now }
    ensures value { result ≡ by.loads N.numbers.calc scale.now.q0 h load.now }
    ensures small { SmallLoads N.numbers result }
{
    let whole = wide_product(h, scale.q0);
    let for_forces = 4 * whole;
    let for_moments = i128::from(h) * whole;
    let nx = i128::from(load.nx);
    let ny = i128::from(load.ny);
    let nxy = i128::from(load.nxy);
    let mx = wide_product(2000, load.mx);
    let my = wide_product(2000, load.my);
    let mxy = wide_product(2000, load.mxy);
    Six {
        ex: N::of_ratio(nx, for_forces),
        ey: N::of_ratio(ny, for_forces),
        g: N::of_ratio(nxy, for_forces),
        kx: N::of_ratio(mx, for_moments),
        ky: N::of_ratio(my, for_moments),
        kg: N::of_ratio(mxy, for_moments),
    }
}
