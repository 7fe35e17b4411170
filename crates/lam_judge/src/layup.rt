// The wall of a schedule: its plies, and its matrices over a scale of fixed point.

ghost use Rattle.std.specs.Prelude.{◌≡◌, ℕ, ℤ, ◌≤◌, length, Some, slice_get};
ghost use Rattle.lam_job.specs.Schedule.{items_of};
ghost use Rattle.lam_lamina.specs.inside.Table.{IsTableOf};
ghost use Rattle.lam_stock.specs.Stock.{IsKnown};
ghost use Rattle.lam_wall.specs.Faces.{faces};
ghost use Rattle.lam_judge.specs.inside.Layups.{IsLaid, IsLayupOf};

use lam_lamina::Stiffnesses;
use lam_number::Enclosure;
use lam_solve::Elimination;
use lam_stock::{Stack, Stock};
use lam_wall::{Wall, assemble_by, face, thickness};

/// The matrices of a wall, and its unknowns eliminated: what serves each load.
#[derive(Clone, Copy)]
pub(crate) struct Laid<N> {
    pub(crate) wall: Wall<N>,
    pub(crate) elimination: Elimination,
}

impl<N: Enclosure> Laid<N> {
    /// Of these plies.
    pub(crate) fn of(stiffnesses: &Stiffnesses<N>, stock: &Stock, plies: &Stack) -> Laid<N>
        requires some { 1 ≤ length plies.now }
        requires known { IsKnown stock.now plies.now }
        requires table { IsTableOf N.numbers stock.now stiffnesses.now }
        ensures { IsLaid N.numbers stock.now plies.now result }
    {
        let wall = assemble_by(stiffnesses, stock, plies);
        Laid {
            wall,
            elimination: Elimination::of(&wall),
        }
    }
}

/// What depends on the plies of a wall alone, whatever the scale, made once for each load.
#[derive(Drop)]
pub(crate) struct Layup {
    /// The plies that carry load.
    pub(crate) plies: Stack,
    /// Their thickness, in µm.
    pub(crate) h: i64,
    /// z of the faces, in half µm: of the wall's inner surface, and of each ply's outer face.
    pub(crate) faces: [i64; 65],
}

impl Layup {
    /// Of these plies.
    pub(crate) fn of(stock: &Stock, plies: Stack) -> Layup
        requires some { 1 ≤ length plies }
        requires known { IsKnown stock.now plies }
        ensures plies { result.plies ≡ plies }
        ensures layup { IsLayupOf stock.now result }
    {
        let _scale = stock.scale();
        let _plies = plies.items();
        Layup {
            h: thickness(stock, &plies),
            faces: faces_of(stock, &plies),
            plies,
        }
    }
}

// z of each face
fn faces_of(stock: &Stock, plies: &Stack) -> [i64; 65]
    requires known { IsKnown stock.now plies.now }
    ensures { (k : ℕ) (z : ℤ) → slice_get (faces (items_of stock.now plies.now)) k ≡ Some z
        → slice_get result k ≡ Some z }
{
    let mut faces = [0; 65];
    for k in 0..plies.items().len() + 1 {
        faces[k] = face(stock, plies, k as u8);
    }
    faces
}
