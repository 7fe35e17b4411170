// The share of a ply in each matrix of a wall.

ghost use Rattle.std.specs.Prelude.{◌≡◌};
ghost use Rattle.lam_wall.specs.inside.Formulas as by;
ghost use Rattle.lam_wall.specs.inside.Parts.{IsPlaced, IsShort, placed_at};

use lam_fraction::machine::wide_product;
use lam_number::Enclosure;
use lam_stock::Item;

/// The share of a ply in the extension of a wall.
pub(crate) fn extension<N: Enclosure>(item: &Item, inner: i64, outer: i64, h: i64) -> N
    requires { IsPlaced h (placed_at item.now inner outer) }
    ensures short { IsShort N.numbers result }
    ensures value { result ≡ by.extension N.numbers.calc h (placed_at item.now inner outer) }
{
    N::of_ratio(i128::from(item.lamina.t), i128::from(h))
}

/// The share of a ply in the coupling of extension and bending.
pub(crate) fn coupling<N: Enclosure>(item: &Item, inner: i64, outer: i64, h: i64) -> N
    requires { IsPlaced h (placed_at item.now inner outer) }
    ensures short { IsShort N.numbers result }
    ensures value { result ≡ by.coupling N.numbers.calc h (placed_at item.now inner outer) }
{
    N::of_ratio(
        wide_product(item.lamina.t, inner + outer),
        2 * wide_product(h, h),
    )
}

/// The share of a ply in the bending of a wall.
pub(crate) fn bending<N: Enclosure>(item: &Item, inner: i64, outer: i64, h: i64) -> N
    requires { IsPlaced h (placed_at item.now inner outer) }
    ensures short { IsShort N.numbers result }
    ensures value { result ≡ by.bending N.numbers.calc h (placed_at item.now inner outer) }
{
    let squares = wide_product(inner, inner)
        + wide_product(inner, outer)
        + wide_product(outer, outer);
    N::of_ratio(
        i128::from(item.lamina.t) * squares,
        3 * (i128::from(h) * wide_product(h, h)),
    )
}
