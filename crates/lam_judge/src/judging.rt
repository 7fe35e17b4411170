// The judgement of a schedule.

ghost use Rattle.std.specs.Prelude.{◌≡◌, ◌<◌, All, length};
ghost use Rattle.lam_job.specs.LoadOf.{load_of};
ghost use Rattle.lam_job.specs.LoadRange.{LoadInRange};
ghost use Rattle.lam_job.specs.Schedule.{items_of};
ghost use Rattle.lam_plate.specs.Panels.{IsFitWall};
ghost use Rattle.lam_stock.specs.Scale.{scale_of};
ghost use Rattle.lam_judge.specs.declared.finding.Finding.TheVariants.{Clear};
ghost use Rattle.lam_judge.specs.Judgements.{IsDecided, IsSaid, IsSchedule};
ghost use Rattle.lam_judge.specs.inside.Judged as by;
ghost use Rattle.lam_judge.specs.inside.Layups.{IsLaid, IsLayupOf};
ghost use Rattle.lam_judge.specs.inside.Scales.{coarse as coarse_numbers, fine as fine_numbers};
ghost use Rattle.lam_judge.specs.inside.Tables.{AreTablesOf};

use crate::cases::{at_cases, at_panels};
use crate::coarse::first_of_cases;
use crate::finding::Finding;
use crate::judgement::Judgement;
use crate::layup::{Laid, Layup};
use crate::range::first_out;
use crate::tables::Tables;
use lam_job::Job;
use lam_number::Fix;
use lam_rules::breaks;
use lam_stock::{Stack, Stock};
use lam_tsai::Place;
use lam_wall::wall_plies;

/// What is said of a schedule, in this order: the first rule that it breaks; the first case that is out of range; the first
/// place of a ply that fails, by case, ply, face and side; the first panel that buckles; the first place that the
/// computation does not decide; the first such panel; and else that it may be built.
pub fn judge(job: &Job, stock: &Stock, listed: &Stack) -> Judgement
    requires { IsSchedule stock.now job.now listed.now }
    ensures value { result ≡ by.judged stock.now job.now listed.now }
    ensures so { IsSaid stock.now job.now listed.now result }
    ensures decided { IsDecided stock.now job.now listed.now result }
{
    judge_by(&Tables::of(stock), job, stock, listed)
}

/// The same by the tables of the catalogue, so that they are made but once for many schedules.
pub fn judge_by(tables: &Tables, job: &Job, stock: &Stock, listed: &Stack) -> Judgement
    requires schedule { IsSchedule stock.now job.now listed.now }
    requires tables { AreTablesOf stock.now tables.now }
    ensures value { result ≡ by.judged stock.now job.now listed.now }
    ensures so { IsSaid stock.now job.now listed.now result }
    ensures decided { IsDecided stock.now job.now listed.now result }
{
    if let Some(rule) = breaks(job, stock, listed) {
        return Judgement::Broken(rule);
    }
    let plies = wall_plies(job, listed);
    let layup = Layup::of(stock, plies);
    if let Some(case) = first_out(&stock.scale(), layup.h, job.cases.items()) {
        return Judgement::OutOfRange(case);
    }
    by_strength(tables, job, stock, &layup)
}

// by the strength of a wall in range: over the second scale only where the first leaves a place open
fn by_strength(tables: &Tables, job: &Job, stock: &Stock, layup: &Layup) -> Judgement
    requires tables { AreTablesOf stock.now tables.now }
    requires layup { IsLayupOf stock.now layup.now }
    requires range { All (λ c. LoadInRange (scale_of stock.now).floor layup.now.h (load_of c.kind)) job.now.cases }
    requires fit { 0 < length job.now.panels → IsFitWall fine_numbers (scale_of stock.now)
        (by.matrices fine_numbers (scale_of stock.now) (items_of stock.now layup.now.plies)) }
    ensures { let wall = items_of stock.now layup.now.plies in result
        ≡ by.by_findings (by.plies_found (scale_of stock.now) wall job.now) (by.panels_found (scale_of stock.now) wall job.now) }
{
    let coarse = Laid::of(&tables.coarse, stock, &layup.plies);
    match first_of_cases(tables, stock, layup, &coarse, job.cases.items()) {
        Finding::Clear => by_stability(tables, job, stock, layup),
        Finding::Fails(at) => Judgement::Fails(at),
        Finding::Straddles(_) => by_both_scales(tables, job, stock, layup, &coarse),
    }
}

// where all plies meet what is asked of them
fn by_stability(tables: &Tables, job: &Job, stock: &Stock, layup: &Layup) -> Judgement
    requires tables { AreTablesOf stock.now tables.now }
    requires layup { IsLayupOf stock.now layup.now }
    requires fit { 0 < length job.now.panels → IsFitWall fine_numbers (scale_of stock.now)
        (by.matrices fine_numbers (scale_of stock.now) (items_of stock.now layup.now.plies)) }
    ensures { result
        ≡ by.by_findings Clear (by.panels_found (scale_of stock.now) (items_of stock.now layup.now.plies) job.now) }
{
    let panels = job.panels.items();
    if panels.is_empty() {
        return Judgement::Admissible;
    }
    let fine = Laid::of(&tables.fine, stock, &layup.plies);
    by_panels(at_panels(&fine.wall, &stock.scale(), panels))
}

// over both scales, each place over the second where the first does not decide
fn by_both_scales(
    tables: &Tables,
    job: &Job,
    stock: &Stock,
    layup: &Layup,
    coarse: &Laid<Fix<28>>,
) -> Judgement
    requires tables { AreTablesOf stock.now tables.now }
    requires layup { IsLayupOf stock.now layup.now }
    requires coarse { IsLaid coarse_numbers stock.now layup.now.plies coarse.now }
    requires range { All (λ c. LoadInRange (scale_of stock.now).floor layup.now.h (load_of c.kind)) job.now.cases }
    requires fit { 0 < length job.now.panels → IsFitWall fine_numbers (scale_of stock.now)
        (by.matrices fine_numbers (scale_of stock.now) (items_of stock.now layup.now.plies)) }
    ensures { let wall = items_of stock.now layup.now.plies in result
        ≡ by.by_findings (by.plies_found (scale_of stock.now) wall job.now) (by.panels_found (scale_of stock.now) wall job.now) }
{
    let fine = Laid::of(&tables.fine, stock, &layup.plies);
    let plies = at_cases(tables, stock, layup, coarse, &fine, job.cases.items());
    if let Finding::Fails(at) = plies {
        return Judgement::Fails(at);
    }
    let panels = at_panels(&fine.wall, &stock.scale(), job.panels.items());
    by_findings(plies, panels)
}

// what fails comes before what straddles, and plies before panels
fn by_findings(plies: Finding<Place>, panels: Finding<u8>) -> Judgement
    ensures { result ≡ by.by_findings plies panels }
{
    match plies {
        Finding::Clear => by_panels(panels),
        Finding::Fails(at) => Judgement::Fails(at),
        Finding::Straddles(at) => match panels {
            Finding::Fails(panel) => Judgement::Buckles(panel),
            _ => Judgement::StraddlesPly(at),
        },
    }
}

// of what is found at panels alone
fn by_panels(panels: Finding<u8>) -> Judgement
    ensures { result ≡ by.by_findings Clear panels }
{
    match panels {
        Finding::Clear => Judgement::Admissible,
        Finding::Fails(panel) => Judgement::Buckles(panel),
        Finding::Straddles(panel) => Judgement::StraddlesPanel(panel),
    }
}
