// The sums of a wall's matrices, ply by ply.

ghost use Rattle.std.specs.Prelude.{◌≡◌, ◌≤◌, pos, ◌+ℤ◌, ◌*ℤ◌, unsigned_abs};
ghost use Rattle.lam_wall.specs.inside.Formulas as by;
ghost use Rattle.lam_wall.specs.inside.Parts.{IsPlaced, IsShort, ShortMatrix, ShortWall, laid_at};

use crate::ply_shares::{bending, coupling, extension};
use crate::wall::Wall;
use lam_lamina::Sym3;
use lam_number::Enclosure;
use lam_stock::Item;

/// The sums with one ply more, of this stiffness; `inner` is z of its inner face, in half µm.
pub(crate) fn with_ply<N: Enclosure>(
    wall: &Wall<N>,
    item: &Item,
    stiffness: &Sym3<N>,
    inner: i64,
) -> Wall<N>
    requires placed { IsPlaced wall.now.h (laid_at item.now inner) }
    requires wall { ShortWall N.numbers wall.now }
    requires stiffness { ShortMatrix N.numbers stiffness.now }
    ensures { result ≡ by.with_ply N.numbers.calc wall.now (laid_at item.now inner) stiffness.now }
{
    let outer = outer_face(inner, item.lamina.t);
    Wall {
        a: with_share(&wall.a, extension(item, inner, outer, wall.h), stiffness),
        b: with_share(&wall.b, coupling(item, inner, outer, wall.h), stiffness),
        d: with_share(&wall.d, bending(item, inner, outer, wall.h), stiffness),
        h: wall.h,
    }
}

/// z of the outer face of a ply in half µm, from that of the inner one.
pub(crate) fn outer_face(inner: i64, t: i64) -> i64
    requires inner { unsigned_abs inner ≤ 1280000 }
    requires t { unsigned_abs t ≤ 1280000 }
    ensures { result ≡ inner +ℤ pos 2 *ℤ t }
{
    inner + 2 * t
}

// a sum of matrices with a share of a ply's stiffness
fn with_share<N: Enclosure>(sum: &Sym3<N>, share: N, stiffness: &Sym3<N>) -> Sym3<N>
    requires sum { ShortMatrix N.numbers sum.now }
    requires share { IsShort N.numbers share }
    requires stiffness { ShortMatrix N.numbers stiffness.now }
    ensures { result ≡ by.with_share N.numbers.calc sum.now share stiffness.now }
{
    Sym3 {
        xx: gathered(sum.xx, share, stiffness.xx),
        xy: gathered(sum.xy, share, stiffness.xy),
        yy: gathered(sum.yy, share, stiffness.yy),
        xs: gathered(sum.xs, share, stiffness.xs),
        ys: gathered(sum.ys, share, stiffness.ys),
        ss: gathered(sum.ss, share, stiffness.ss),
    }
}

// a sum with a share of an entry
fn gathered<N: Enclosure>(sum: N, share: N, entry: N) -> N
    requires sum { IsShort N.numbers sum }
    requires share { IsShort N.numbers share }
    requires entry { IsShort N.numbers entry }
    ensures { result ≡ by.gathered N.numbers.calc sum share entry }
{
    let part = share.mul(entry);
    sum.add(part)
}
