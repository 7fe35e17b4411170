// The first place that fails in a box of strains.

ghost use Rattle.std.specs.Prelude.{◌≡◌};
ghost use Rattle.lam_number.specs.inside.FixNumbers.{fix_numbers};
ghost use Rattle.lam_stock.specs.Scale.{scale_of};
ghost use Rattle.lam_stock.specs.Stock.{IsKnown, IsStock};
ghost use Rattle.lam_job.specs.Ranges.{IsFactor};
ghost use Rattle.lam_job.specs.Schedule.{items_of};
ghost use Rattle.lam_tsai.specs.FaceStrains.{IsWithinSix};
ghost use Rattle.lam_tsai.specs.inside.Reach.{ReachCriterion};
ghost use Rattle.lam_tsai.specs.inside.Values.{criterion};
ghost use Rattle.lam_boxes.specs.inside.Boxes as by;
ghost use Rattle.lam_boxes.specs.inside.Tables.{AreBoxTablesOf};

use crate::tables::BoxTables;
use lam_number::{Enclosure, FaceStrain, Fix, Verdict};
use lam_stock::{Kind, Stack, Stock};
use lam_tsai::{Criterion, FaceSide, Place, Side, verdict};

/// The first of some plies, and the first side of it, that fails at a factor in thousandths.
pub(crate) fn first_failing(
    stock: &Stock,
    tables: &BoxTables,
    prefix: &Stack,
    at: &FaceStrain<Fix<60>>,
    factor: i64,
    case: u8,
) -> Option<Place>
    requires known { IsKnown stock.now prefix.now }
    requires tables { AreBoxTablesOf stock.now tables.now }
    requires six { IsWithinSix (fix_numbers 60) at.now }
    requires factor { IsFactor factor }
    ensures { result ≡ by.first_failing case
        (λ i. by.failing_side (fix_numbers 60) (criterion (fix_numbers 60) (scale_of stock.now) i) at.now factor)
        0 (items_of stock.now prefix.now) }
{
    let _scale = stock.scale();
    let plies = prefix.items();
    let mut passed = [false; 64]; // items that do not fail: all plies of one are strained alike
    for k in 0..plies.len() {
        let item = plies[k].0 as usize;
        if !passed[item] {
            if let Some(side) = failing_side(&tables.criteria[item], at, factor) {
                return Some(Place {
                    case,
                    ply: k as u8,
                    face: FaceSide::Inner,
                    side,
                });
            }
            passed[item] = true;
        }
    }
    None
}

// the first side of an item that fails
fn failing_side<N: Enclosure>(
    criterion: &Criterion<N>,
    at: &FaceStrain<N>,
    factor: i64,
) -> Option<Side>
    requires made { ReachCriterion N.numbers criterion.now }
    requires six { IsWithinSix N.numbers at.now }
    requires factor { IsFactor factor }
    ensures { result ≡ by.failing_side N.numbers criterion.now at.now factor }
{
    if fails(criterion, at, factor, Side::Plus) {
        return Some(Side::Plus);
    }
    match criterion.kind {
        Kind::Ply => None,
        Kind::Pair => fails(criterion, at, factor, Side::Minus).then_some(Side::Minus),
    }
}

// tells whether a side fails
fn fails<N: Enclosure>(
    criterion: &Criterion<N>,
    at: &FaceStrain<N>,
    factor: i64,
    side: Side,
) -> bool
    requires made { ReachCriterion N.numbers criterion.now }
    requires six { IsWithinSix N.numbers at.now }
    requires factor { IsFactor factor }
    ensures { result ≡ by.fails N.numbers criterion.now at.now factor side }
{
    is_failed(verdict(&criterion.level(side, at, factor)))
}

// a level that straddles does not fail for certain
fn is_failed(verdict: Verdict) -> bool
    ensures { result ≡ by.is_failed verdict }
{
    match verdict {
        Verdict::Fails => true,
        Verdict::Meets | Verdict::Straddles => false,
    }
}
