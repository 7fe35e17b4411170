// A wall under a case of load, over both scales of fixed point.

ghost use Rattle.lam_job.specs.LoadOf.{load_of};
ghost use Rattle.lam_job.specs.LoadRange.{LoadInRange};
ghost use Rattle.lam_job.specs.Schedule.{items_of};
ghost use Rattle.lam_stock.specs.Scale.{scale_of};
ghost use Rattle.lam_judge.specs.inside.Layups.{IsLaid, IsLayupOf};
ghost use Rattle.lam_judge.specs.inside.Loads.{IsLoaded};
ghost use Rattle.lam_judge.specs.inside.Scales.{coarse as coarse_numbers, fine as fine_numbers};

use crate::layup::{Laid, Layup};
use lam_job::{Case, resultants};
use lam_number::Fix;
use lam_solve::{Strains, solve_by};
use lam_stock::Stock;

/// The strains of a wall under a case.
#[derive(Clone, Copy)]
pub(crate) struct Loaded {
    /// The number of the case, from 0.
    pub(crate) case: u8,
    /// Its factor, in thousandths.
    pub(crate) factor: i64,
    /// The thickness of the wall, in µm.
    pub(crate) h: i64,
    pub(crate) coarse: Strains<Fix<28>>,
    pub(crate) fine: Strains<Fix<60>>,
}

impl Loaded {
    /// Under the case of a number.
    pub(crate) fn of(
        stock: &Stock,
        layup: &Layup,
        coarse: &Laid<Fix<28>>,
        fine: &Laid<Fix<60>>,
        case: &Case,
        number: u8,
    ) -> Loaded
        requires layup { IsLayupOf stock.now layup.now }
        requires coarse { IsLaid coarse_numbers stock.now layup.now.plies coarse.now }
        requires fine { IsLaid fine_numbers stock.now layup.now.plies fine.now }
        requires range { LoadInRange (scale_of stock.now).floor layup.now.h (load_of case.now.kind) }
        ensures { IsLoaded (scale_of stock.now) (items_of stock.now layup.now.plies) number case.now result }
    {
        let scale = stock.scale();
        let load = resultants(case);
        Loaded {
            case: number,
            factor: case.factor,
            h: layup.h,
            coarse: solve_by(&coarse.elimination, &coarse.wall, &load, &scale),
            fine: solve_by(&fine.elimination, &fine.wall, &load, &scale),
        }
    }
}
