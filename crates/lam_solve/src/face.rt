// The strains at a face of a ply.

ghost use Rattle.std.specs.Prelude.{◌≡◌, pos, neg_ℤ, ◌≤ℤ◌};
ghost use Rattle.lam_job.specs.LaminateStrain.{LaminateStrain, strain_at};
ghost use Rattle.lam_solve.specs.Solutions.{AreShort, HoldsAtFace, HoldsStrains, IsShort, ReachesSix};
ghost use Rattle.lam_solve.specs.Widths.{AreNarrow, IsNarrowFace, WidenedByBending};
ghost use Rattle.lam_solve.specs.inside.Formulas as by;
ghost use Rattle.lam_solve.specs.inside.Parts.{IsPart};

use crate::strains::Strains;
use lam_number::{Enclosure, FaceStrain};

/// The strains of a wall of thickness `h`, at a z of `place` half µm outwards of the mid-plane (Jones, classical
/// lamination theory: the strain varies linearly through the thickness).
pub fn at_face<N: Enclosure>(strains: &Strains<N>, place: i64, h: i64) -> FaceStrain<N>
    requires thick { pos 1 ≤ℤ h }
    requires inner { neg_ℤ h ≤ℤ place }
    requires outer { place ≤ℤ h }
    requires strains { AreShort N.numbers strains.now }
    ensures held { (f : LaminateStrain) → HoldsStrains N.numbers strains.now h f
        → HoldsAtFace N.numbers result (strain_at f place) }
    ensures reach { ReachesSix N.numbers result }
    ensures width { WidenedByBending N.numbers strains.now result }
    ensures narrow { AreNarrow N.numbers strains.now → IsNarrowFace N.numbers result }
    ensures value { result ≡ by.at_face N.numbers.calc strains.now place h }
{
    let z = N::of_ratio(i128::from(place), i128::from(h));
    FaceStrain {
        ex: with_bending(strains.ex, strains.kx, z),
        ey: with_bending(strains.ey, strains.ky, z),
        g: with_bending(strains.g, strains.kg, z),
    }
}

// a mid-plane strain, and a share of what bending adds at the outer surface
fn with_bending<N: Enclosure>(mid_plane: N, bending: N, z: N) -> N
    requires mid_plane { IsShort N.numbers mid_plane }
    requires bending { IsShort N.numbers bending }
    requires z { IsPart N.numbers z }
    ensures { result ≡ by.with_bending N.numbers.calc mid_plane bending z }
{
    let added = bending.mul(z);
    mid_plane.add(added)
}
