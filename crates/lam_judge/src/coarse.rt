// What the first scale alone finds, up to the first place that it does not find to meet what is asked of it.

ghost use Rattle.std.specs.Prelude.{◌≤◌, All, length};
ghost use Rattle.lam_job.specs.LoadOf.{load_of};
ghost use Rattle.lam_job.specs.LoadRange.{LoadInRange};
ghost use Rattle.lam_job.specs.Ranges.{IsFactor};
ghost use Rattle.lam_job.specs.Schedule.{items_of};
ghost use Rattle.lam_job.specs.Wall.{placed_plies};
ghost use Rattle.lam_number.specs.declared.strength.Verdict.{Verdict};
ghost use Rattle.lam_stock.specs.Scale.{scale_of};
ghost use Rattle.lam_tsai.specs.declared.place.FaceSide.{FaceSide};
ghost use Rattle.lam_tsai.specs.declared.place.Side.{Side};
ghost use Rattle.lam_tsai.specs.FaceStrains.{IsWithinSix};
ghost use Rattle.lam_tsai.specs.inside.Reach.{ReachCriterion};
ghost use Rattle.lam_judge.specs.inside.Findings as by;
ghost use Rattle.lam_judge.specs.inside.Findings.{Settles};
ghost use Rattle.lam_judge.specs.inside.Judged.{decided, place_verdict};
ghost use Rattle.lam_judge.specs.inside.Layups.{IsLaid, IsLayupOf};
ghost use Rattle.lam_judge.specs.inside.Loads.{strain_by, verdict_by};
ghost use Rattle.lam_judge.specs.inside.Scales.{coarse as coarse_numbers};
ghost use Rattle.lam_judge.specs.inside.Tables.{AreTablesOf};

use crate::finding::Finding;
use crate::layup::{Laid, Layup};
use crate::places::verdict_over;
use crate::tables::Tables;
use lam_job::{Case, resultants};
use lam_number::{FaceStrain, Fix};
use lam_solve::{at_face, solve_by};
use lam_stock::{Kind, Stock};
use lam_tsai::{Criterion, FaceSide, Place, Side};

/// What the first scale finds under some cases, up to the first place that it does not find to meet what is asked of it. Where
/// that straddles, the second scale has to be asked; else it is what is found over both.
pub(crate) fn first_of_cases(
    tables: &Tables,
    stock: &Stock,
    layup: &Layup,
    laid: &Laid<Fix<28>>,
    cases: &[Case],
) -> Finding<Place>
    requires few { length cases.now ≤ 16 }
    requires tables { AreTablesOf stock.now tables.now }
    requires layup { IsLayupOf stock.now layup.now }
    requires laid { IsLaid coarse_numbers stock.now layup.now.plies laid.now }
    requires range { All (λ c. LoadInRange (scale_of stock.now).floor layup.now.h (load_of c.kind)) cases.now }
    ensures { Settles result (by.at_cases (place_verdict (scale_of stock.now) (items_of stock.now layup.now.plies))
        (placed_plies (items_of stock.now layup.now.plies)) 0 cases.now) }
{
    for number in 0..cases.len() {
        let found = first_of_case(tables, stock, layup, laid, &cases[number], number as u8);
        if !found.is_clear() {
            return found;
        }
    }
    Finding::Clear
}

// under a case of a number
fn first_of_case(
    tables: &Tables,
    stock: &Stock,
    layup: &Layup,
    laid: &Laid<Fix<28>>,
    case: &Case,
    number: u8,
) -> Finding<Place>
    requires tables { AreTablesOf stock.now tables.now }
    requires layup { IsLayupOf stock.now layup.now }
    requires laid { IsLaid coarse_numbers stock.now layup.now.plies laid.now }
    requires range { LoadInRange (scale_of stock.now).floor layup.now.h (load_of case.now.kind) }
    ensures { Settles result
        (by.at_plies (place_verdict (scale_of stock.now) (items_of stock.now layup.now.plies) case.now) number 0
        (placed_plies (items_of stock.now layup.now.plies))) }
{
    let load = resultants(case);
    let scale = stock.scale();
    let strains = solve_by(&laid.elimination, &laid.wall, &load, &scale);
    let plies = layup.plies.items();
    let mut inner = at_face(&strains, layup.faces[0], layup.h);
    for k in 0..plies.len() {
        let criterion = &tables.criteria(plies[k]).coarse;
        let outer = at_face(&strains, layup.faces[k + 1], layup.h);
        let found = first_of_ply(criterion, &inner, &outer, case.factor, number, k as u8);
        if !found.is_clear() {
            return found;
        }
        inner = outer;
    }
    Finding::Clear
}

// at the strains of the inner face of a ply, and then at those of its outer one
#[tactic(auto, unfolding(crate::specs::inside::Findings::at_ply))]
fn first_of_ply(
    criterion: &Criterion<Fix<28>>,
    inner: &FaceStrain<Fix<28>>,
    outer: &FaceStrain<Fix<28>>,
    factor: i64,
    case: u8,
    ply: u8,
) -> Finding<Place>
    requires made { ReachCriterion coarse_numbers criterion.now }
    requires inner { IsWithinSix coarse_numbers inner.now }
    requires outer { IsWithinSix coarse_numbers outer.now }
    requires factor { IsFactor factor }
    ensures { (second : FaceSide → Side → Verdict) → Settles result (by.at_ply case ply criterion.now.kind
        (λ face side. decided (verdict_by coarse_numbers criterion.now (strain_by inner.now outer.now face) side factor)
        (second face side))) }
{
    let first = first_of_face(criterion, inner, factor, case, ply, FaceSide::Inner);
    if !first.is_clear() {
        return first;
    }
    first_of_face(criterion, outer, factor, case, ply, FaceSide::Outer)
}

// on the side Plus, and then on the side Minus of a pair
fn first_of_face(
    criterion: &Criterion<Fix<28>>,
    at: &FaceStrain<Fix<28>>,
    factor: i64,
    case: u8,
    ply: u8,
    face: FaceSide,
) -> Finding<Place>
    requires made { ReachCriterion coarse_numbers criterion.now }
    requires six { IsWithinSix coarse_numbers at.now }
    requires factor { IsFactor factor }
    ensures { (second : Side → Verdict) → Settles result (by.at_face case ply criterion.now.kind
        (λ side. decided (verdict_by coarse_numbers criterion.now at.now side factor) (second side)) face) }
{
    let plus = Place {
        case,
        ply,
        face,
        side: Side::Plus,
    };
    let first = Finding::of(verdict_over(criterion, at, Side::Plus, factor), plus);
    match criterion.kind {
        Kind::Ply => first,
        Kind::Pair => {
            if !first.is_clear() {
                return first;
            }
            let minus = Place {
                side: Side::Minus,
                ..plus
            };
            Finding::of(verdict_over(criterion, at, Side::Minus, factor), minus)
        }
    }
}
