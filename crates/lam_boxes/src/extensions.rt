// The stiffness in extension of the fixed plies of a partial schedule, and of what can be at its open places.

ghost use Rattle.std.specs.Prelude.{◌≡◌, pos, ◌*ℤ◌, ◌≤ℤ◌};
ghost use Rattle.lam_stock.specs.Scale.{scale_of};
ghost use Rattle.lam_job.specs.Schedule.{items_of};
ghost use Rattle.lam_lamina.specs.inside.Table.{IsTableOf};
ghost use Rattle.lam_boxes.specs.inside.Extensions as by;
ghost use Rattle.lam_boxes.specs.inside.Parts.{AreFixed, FitEach, IsThickness, MatrixReaches, entry_reach};

use crate::sums::{either, scaled, share, with_share};
use lam_lamina::{Stiffnesses, Sym3, zeros};
use lam_number::Enclosure;
use lam_stock::{Item, ItemNo};

/// The sum over some plies, each by its share of a thickness `h` in µm.
pub(crate) fn fixed_sum<N: Enclosure>(
    items: &[Item],
    plies: &[ItemNo],
    stiffnesses: &Stiffnesses<N>,
    h: i64,
) -> Sym3<N>
    requires fixed { AreFixed h items.now plies.now }
    requires table { IsTableOf N.numbers items.now stiffnesses.now }
    ensures { result ≡ by.fixed_sum N.numbers (scale_of items.now).q0 h (items_of items.now plies.now) }
{
    let mut sum = zeros();
    for number in plies {
        let item = &items[number.0 as usize];
        let part = share(item.lamina.t, h);
        sum = with_share(&sum, part, stiffnesses.get(*number));
    }
    sum
}

/// All that so many plies of one item can be, whichever item of the catalogue it is.
pub(crate) fn any_plies<N: Enclosure>(
    items: &[Item],
    stiffnesses: &Stiffnesses<N>,
    many: i64,
    h: i64,
) -> Sym3<N>
    requires fit { FitEach many h items.now }
    requires table { IsTableOf N.numbers items.now stiffnesses.now }
    ensures { result ≡ by.any_plies N.numbers (scale_of items.now).q0 h many items.now }
{
    let mut hull = plies_of(&items[0], stiffnesses.get(ItemNo(0)), many, h);
    for k in 1..items.len() {
        let next = plies_of(&items[k], stiffnesses.get(ItemNo(k as u8)), many, h);
        hull = either(&hull, &next);
    }
    hull
}

// so many plies of one item
fn plies_of<N: Enclosure>(item: &Item, stiffness: &Sym3<N>, many: i64, h: i64) -> Sym3<N>
    requires thickness { IsThickness h }
    requires many { pos 0 ≤ℤ many }
    requires thick { pos 0 ≤ℤ item.now.lamina.t }
    requires within { (many *ℤ item.now.lamina.t) ≤ℤ h }
    requires stiffness { MatrixReaches N.numbers entry_reach stiffness.now }
    ensures { result ≡ by.scaled N.numbers (N.numbers.calc.ratio (many *ℤ item.now.lamina.t) h) stiffness.now }
{
    scaled(share(many * item.lamina.t, h), stiffness)
}
