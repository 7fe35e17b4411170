// What is found at the places of a wall under a case.

ghost use Rattle.std.specs.Prelude.{◌≡◌, drop};
ghost use Rattle.lam_job.specs.Schedule.{items_of};
ghost use Rattle.lam_job.specs.Wall.{placed_plies};
ghost use Rattle.lam_stock.specs.Scale.{scale_of};
ghost use Rattle.lam_tsai.specs.FaceStrains.{IsWithinSix};
ghost use Rattle.lam_tsai.specs.inside.Reach.{ReachCriterion};
ghost use Rattle.lam_solve.specs.inside.Formulas as solve;
ghost use Rattle.lam_job.specs.Ranges.{IsFactor};
ghost use Rattle.lam_judge.specs.inside.Findings as by;
ghost use Rattle.lam_judge.specs.inside.Judged.{z_by};
ghost use Rattle.lam_judge.specs.inside.Layups.{IsLayupOf};
ghost use Rattle.lam_judge.specs.inside.Loads.{IsBorne, IsReady, IsWithin, item_verdict, loaded_verdict, verdict_by};
ghost use Rattle.lam_judge.specs.inside.Scales.{coarse as coarse_numbers};
ghost use Rattle.lam_judge.specs.inside.Tables.{AreTablesOf};

use crate::finding::Finding;
use crate::layup::Layup;
use crate::loaded::Loaded;
use crate::tables::{Criteria, Tables};
use lam_number::{Enclosure, FaceStrain, Fix, Verdict};
use lam_solve::at_face;
use lam_stock::{Kind, Stock};
use lam_tsai::{Criterion, FaceSide, Place, Side, verdict};

/// What is found at the plies of a wall from one on, each at its inner face and then at its outer one.
pub(crate) fn at_plies(
    tables: &Tables,
    stock: &Stock,
    layup: &Layup,
    loaded: &Loaded,
    from: u8,
) -> Finding<Place>
    requires tables { AreTablesOf stock.now tables.now }
    requires layup { IsLayupOf stock.now layup.now }
    requires borne { IsBorne (items_of stock.now layup.now.plies) loaded.now }
    ensures { result ≡ by.at_plies (item_verdict (scale_of stock.now) loaded.now) loaded.now.case from
        (drop from (placed_plies (items_of stock.now layup.now.plies))) }
{
    let plies = layup.plies.items();
    let mut found = Finding::Clear;
    for k in usize::from(from)..plies.len() {
        let criteria = tables.criteria(plies[k]);
        let ply = at_ply(
            criteria,
            loaded,
            layup.faces[k],
            layup.faces[k + 1],
            k as u8,
        );
        found = found.then(ply);
        if found.is_settled() {
            return found;
        }
    }
    found
}

// at the inner face of a ply, and then at its outer one
#[tactic(auto, unfolding(crate::specs::inside::Findings::at_ply))]
fn at_ply(criteria: &Criteria, loaded: &Loaded, inner: i64, outer: i64, ply: u8) -> Finding<Place>
    requires ready { IsReady criteria.now loaded.now }
    requires inner { IsWithin loaded.now.h inner }
    requires outer { IsWithin loaded.now.h outer }
    ensures { result ≡ by.at_ply loaded.now.case ply criteria.now.coarse.kind
        (λ face side. loaded_verdict criteria.now loaded.now (z_by inner outer face) side) }
{
    let first = at_ply_face(criteria, loaded, inner, ply, FaceSide::Inner);
    if first.is_settled() {
        return first;
    }
    first.then(at_ply_face(criteria, loaded, outer, ply, FaceSide::Outer))
}

// on the side Plus at a face, and then on the side Minus of a pair
fn at_ply_face(
    criteria: &Criteria,
    loaded: &Loaded,
    z: i64,
    ply: u8,
    face: FaceSide,
) -> Finding<Place>
    requires ready { IsReady criteria.now loaded.now }
    requires within { IsWithin loaded.now.h z }
    ensures { result ≡ by.at_face loaded.now.case ply criteria.now.coarse.kind
        (λ side. loaded_verdict criteria.now loaded.now z side) face }
{
    let coarse = at_face(&loaded.coarse, z, loaded.h);
    let plus = Place {
        case: loaded.case,
        ply,
        face,
        side: Side::Plus,
    };
    let first = at_place(criteria, loaded, z, &coarse, plus);
    match criteria.coarse.kind {
        Kind::Ply => first,
        Kind::Pair => {
            let minus = Place {
                side: Side::Minus,
                ..plus
            };
            first.then(at_place(criteria, loaded, z, &coarse, minus))
        }
    }
}

// at one place, whose strains over the first scale are given
fn at_place(
    criteria: &Criteria,
    loaded: &Loaded,
    z: i64,
    coarse: &FaceStrain<Fix<28>>,
    at: Place,
) -> Finding<Place>
    requires ready { IsReady criteria.now loaded.now }
    requires within { IsWithin loaded.now.h z }
    requires coarse { coarse.now ≡ solve.at_face coarse_numbers.calc loaded.now.coarse z loaded.now.h }
    requires six { IsWithinSix coarse_numbers coarse.now }
    ensures { result ≡ by.found (loaded_verdict criteria.now loaded.now z at.side) at }
{
    Finding::of(side_verdict(criteria, loaded, z, coarse, at.side), at)
}

// over the first scale, and over the second only where the first does not decide
#[tactic(auto, unfolding(crate::specs::inside::Loads::loaded_verdict))]
fn side_verdict(
    criteria: &Criteria,
    loaded: &Loaded,
    z: i64,
    coarse: &FaceStrain<Fix<28>>,
    side: Side,
) -> Verdict
    requires ready { IsReady criteria.now loaded.now }
    requires within { IsWithin loaded.now.h z }
    requires coarse { coarse.now ≡ solve.at_face coarse_numbers.calc loaded.now.coarse z loaded.now.h }
    requires six { IsWithinSix coarse_numbers coarse.now }
    ensures { result ≡ loaded_verdict criteria.now loaded.now z side }
{
    match verdict_over(&criteria.coarse, coarse, side, loaded.factor) {
        Verdict::Straddles => {
            let fine = at_face(&loaded.fine, z, loaded.h);
            verdict_over(&criteria.fine, &fine, side, loaded.factor)
        }
        decided => decided,
    }
}

/// The verdict over one kind of enclosures, at the strains of a face.
pub(crate) fn verdict_over<N: Enclosure>(
    criterion: &Criterion<N>,
    at: &FaceStrain<N>,
    side: Side,
    factor: i64,
) -> Verdict
    requires made { ReachCriterion N.numbers criterion.now }
    requires six { IsWithinSix N.numbers at.now }
    requires factor { IsFactor factor }
    ensures { result ≡ verdict_by N.numbers criterion.now at.now side factor }
{
    verdict(&criterion.level(side, at, factor))
}
