// What is found in a wall under the cases of a job, and at its panels.

ghost use Rattle.std.specs.Prelude.{◌≡◌, ◌<◌, ◌≤◌, All, length};
ghost use Rattle.lam_job.specs.LoadOf.{load_of};
ghost use Rattle.lam_job.specs.LoadRange.{LoadInRange};
ghost use Rattle.lam_job.specs.Schedule.{items_of};
ghost use Rattle.lam_job.specs.Wall.{placed_plies};
ghost use Rattle.lam_plate.specs.Panels.{IsFitWall};
ghost use Rattle.lam_stock.specs.Scale.{scale_of};
ghost use Rattle.lam_judge.specs.inside.Findings as by;
ghost use Rattle.lam_judge.specs.inside.Judged.{panel_over, place_verdict};
ghost use Rattle.lam_judge.specs.inside.Layups.{IsLaid, IsLayupOf};
ghost use Rattle.lam_judge.specs.inside.Scales.{coarse as coarse_numbers, fine as fine_numbers};
ghost use Rattle.lam_judge.specs.inside.Tables.{AreTablesOf};

use crate::finding::Finding;
use crate::layup::{Laid, Layup};
use crate::loaded::Loaded;
use crate::places::at_plies;
use crate::tables::Tables;
use lam_job::{Case, Panel};
use lam_number::Fix;
use lam_plate::panel_verdict;
use lam_stock::{Scale, Stock};
use lam_tsai::Place;
use lam_wall::Wall;

/// What is found under some cases, one after the other, over both scales.
pub(crate) fn at_cases(
    tables: &Tables,
    stock: &Stock,
    layup: &Layup,
    coarse: &Laid<Fix<28>>,
    fine: &Laid<Fix<60>>,
    cases: &[Case],
) -> Finding<Place>
    requires few { length cases.now ≤ 16 }
    requires tables { AreTablesOf stock.now tables.now }
    requires layup { IsLayupOf stock.now layup.now }
    requires coarse { IsLaid coarse_numbers stock.now layup.now.plies coarse.now }
    requires fine { IsLaid fine_numbers stock.now layup.now.plies fine.now }
    requires range { All (λ c. LoadInRange (scale_of stock.now).floor layup.now.h (load_of c.kind)) cases.now }
    ensures { result ≡ by.at_cases (place_verdict (scale_of stock.now) (items_of stock.now layup.now.plies))
        (placed_plies (items_of stock.now layup.now.plies)) 0 cases.now }
{
    let mut found = Finding::Clear;
    for number in 0..cases.len() {
        let loaded = Loaded::of(stock, layup, coarse, fine, &cases[number], number as u8);
        let case = at_plies(tables, stock, layup, &loaded, 0);
        found = found.then(case);
        if found.is_settled() {
            return found;
        }
    }
    found
}

/// What is found at some panels of a wall that is fit for them, one after the other.
pub(crate) fn at_panels(wall: &Wall<Fix<60>>, scale: &Scale, panels: &[Panel]) -> Finding<u8>
    requires few { length panels.now ≤ 8 }
    requires wall { 0 < length panels.now → IsFitWall fine_numbers scale.now wall.now }
    ensures { result ≡ by.at_panels (panel_over fine_numbers scale.now.q0 wall.now) 0 panels.now }
{
    let mut found = Finding::Clear;
    for number in 0..panels.len() {
        let panel = &panels[number];
        let verdict = panel_verdict(wall, scale, panel, panel.factor);
        found = found.then(Finding::of(verdict, number as u8));
        if found.is_settled() {
            return found;
        }
    }
    found
}
