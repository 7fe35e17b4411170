// The printed ratios of a schedule.

ghost use Rattle.std.specs.Prelude.{◌≡◌, ◌<◌, ◌≤◌, ◌+◌, ◌++◌, [], All, Some, flat_map, length, map, pos, ◌≤ℤ◌};
ghost use Rattle.lam_job.specs.Design.{InRangeForAll};
ghost use Rattle.lam_job.specs.LoadOf.{load_of};
ghost use Rattle.lam_job.specs.LoadRange.{LoadInRange};
ghost use Rattle.lam_job.specs.Schedule.{items_of};
ghost use Rattle.lam_plate.specs.Panels.{IsFitWall};
ghost use Rattle.lam_solve.specs.Solutions.{AreShort};
ghost use Rattle.lam_solve.specs.inside.Formulas as solve;
ghost use Rattle.lam_stock.specs.Scale.{scale_of};
ghost use Rattle.lam_tsai.specs.inside.Halving.{ratio_by};
ghost use Rattle.lam_tsai.specs.inside.Reach.{ReachCriterion};
ghost use Rattle.lam_judge.specs.Judgements.{IsSchedule};
ghost use Rattle.lam_judge.specs.Printed.{ArePrinted};
ghost use Rattle.lam_judge.specs.inside.Layups.{IsLaid, IsLayupOf};
ghost use Rattle.lam_judge.specs.inside.Loads.{IsWithin};
ghost use Rattle.lam_judge.specs.inside.Ratios.{case_ratios, panel_ratio, printed};
ghost use Rattle.lam_judge.specs.inside.Scales.{fine as fine_numbers};
ghost use Rattle.lam_judge.specs.inside.Tables.{AreTablesOf};

use crate::fitness::is_fit;
use crate::layup::{Laid, Layup};
use crate::room::Room;
use crate::tables::Tables;
use lam_job::{Case, Job, Panel, resultants};
use lam_number::{Enclosure, Fix};
use lam_plate::printed_panel;
use lam_solve::{Strains, at_face, solve_by};
use lam_stock::{Scale, Stack, Stock};
use lam_tsai::Criterion;
use lam_wall::{Wall, wall_plies};

/// Prints the strength ratio of each wall ply of a schedule under each case, and, where the
/// schedule is fit for a panel, how many loads each panel stands.
pub fn ratios(job: &Job, stock: &Stock, listed: &Stack, room: &mut Room)
    requires schedule { IsSchedule stock.now job.now listed.now }
    requires range { InRangeForAll stock.now job.now listed.now }
    ensures value { room.new ≡ printed stock.now job.now listed.now }
    ensures so { ArePrinted stock.now job.now listed.now room.new }
{
    ratios_by(&Tables::of(stock), job, stock, listed, room);
}

/// The same by the tables of the catalogue, so that they are made but once for many schedules.
pub fn ratios_by(tables: &Tables, job: &Job, stock: &Stock, listed: &Stack, room: &mut Room)
    requires schedule { IsSchedule stock.now job.now listed.now }
    requires range { InRangeForAll stock.now job.now listed.now }
    requires tables { AreTablesOf stock.now tables.now }
    ensures value { room.new ≡ printed stock.now job.now listed.now }
    ensures so { ArePrinted stock.now job.now listed.now room.new }
{
    let layup = Layup::of(stock, wall_plies(job, listed));
    let fine = Laid::of(&tables.fine, stock, &layup.plies);
    room.start(layup.plies.items().len() as u8);
    add_cases(tables, stock, &layup, &fine, job.cases.items(), room);
    if is_fit(job, stock, listed) {
        let scale = stock.scale();
        room.start_panels();
        add_panels(&fine.wall, &scale, job.panels.items(), room);
    }
}

// the ratios under each case
fn add_cases(
    tables: &Tables,
    stock: &Stock,
    layup: &Layup,
    fine: &Laid<Fix<60>>,
    cases: &[Case],
    room: &mut Room,
)
    requires few { length cases.now ≤ 16 }
    requires tables { AreTablesOf stock.now tables.now }
    requires layup { IsLayupOf stock.now layup.now }
    requires fine { IsLaid fine_numbers stock.now layup.now.plies fine.now }
    requires range { All (λ c. LoadInRange (scale_of stock.now).floor layup.now.h (load_of c.kind)) cases.now }
    requires none { room.old.ratios ≡ [] }
    ensures { room.new ≡ record room.old {
      ratios = flat_map (case_ratios (scale_of stock.now) (items_of stock.now layup.now.plies)) cases.now;
    } }
{
    for case in cases {
        add_case(tables, stock, layup, fine, case, room);
    }
}

// the ratios of each ply under a case
fn add_case(
    tables: &Tables,
    stock: &Stock,
    layup: &Layup,
    fine: &Laid<Fix<60>>,
    case: &Case,
    room: &mut Room,
)
    requires tables { AreTablesOf stock.now tables.now }
    requires layup { IsLayupOf stock.now layup.now }
    requires fine { IsLaid fine_numbers stock.now layup.now.plies fine.now }
    requires range { LoadInRange (scale_of stock.now).floor layup.now.h (load_of case.now.kind) }
    requires room { length room.old.ratios + length layup.now.plies ≤ 1024 }
    ensures { room.new ≡ record room.old {
      ratios = room.old.ratios
          ++ case_ratios (scale_of stock.now) (items_of stock.now layup.now.plies) case.now;
    } }
{
    let load = resultants(case);
    let scale = stock.scale();
    let strains = solve_by(&fine.elimination, &fine.wall, &load, &scale);
    let plies = layup.plies.items();
    for k in 0..plies.len() {
        let criterion = &tables.criteria(plies[k]).fine;
        let ratio = ratio_between(
            criterion,
            &strains,
            layup.faces[k],
            layup.faces[k + 1],
            layup.h,
        );
        room.add(ratio);
    }
}

// the ratio of a ply between two faces of a wall of thickness h
fn ratio_between<N: Enclosure>(
    criterion: &Criterion<N>,
    strains: &Strains<N>,
    inner: i64,
    outer: i64,
    h: i64,
) -> u16
    requires made { ReachCriterion N.numbers criterion.now }
    requires short { AreShort N.numbers strains.now }
    requires thick { pos 1 ≤ℤ h }
    requires inner { IsWithin h inner }
    requires outer { IsWithin h outer }
    ensures { result ≡ ratio_by N.numbers criterion.now (solve.at_face N.numbers.calc strains.now inner h)
        (solve.at_face N.numbers.calc strains.now outer h) }
{
    let inner_face = at_face(strains, inner, h);
    let outer_face = at_face(strains, outer, h);
    criterion.ratio(&inner_face, &outer_face)
}

// the number of loads that each panel of a wall stands
fn add_panels(wall: &Wall<Fix<60>>, scale: &Scale, panels: &[Panel], room: &mut Room)
    requires few { length panels.now ≤ 8 }
    requires wall { IsFitWall fine_numbers scale.now wall.now }
    requires none { room.old.panels ≡ Some [] }
    ensures { room.new ≡ record room.old {
      panels = Some (map (panel_ratio fine_numbers scale.now.q0 wall.now) panels.now);
    } }
{
    for panel in panels {
        room.add_panel(printed_panel(wall, scale, panel));
    }
}
