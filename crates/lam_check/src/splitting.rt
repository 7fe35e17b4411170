// When a partial schedule may be split.

ghost use Rattle.std.specs.Prelude.{◌≡◌, ℕ, ◌<◌, ◌↔◌, slice_get, Some, All, IsTrue};
ghost use Rattle.lam_stock.specs.Stock.{IsKnown};
ghost use Rattle.lam_job.specs.JobData.{CaseData};
ghost use Rattle.lam_job.specs.Partial.{IsFull};
ghost use Rattle.lam_job.specs.Schedule.{IsJobFor};
ghost use Rattle.lam_rules.specs.Conditions.{IsPartial};
ghost use Rattle.lam_tree.specs.Closings.{IsBelow, IsLawful, MaySplit};
ghost use Rattle.lam_tree.specs.ForceBalance.{net_cost};
ghost use Rattle.lam_tree.specs.TriedWeights.{tried_weights};
ghost use Rattle.lam_bounds.specs.inside.Computed.{capacity_value};
ghost use Rattle.lam_bounds.specs.inside.RunningSums.{AreSumsOf};
ghost use Rattle.lam_bounds.specs.inside.Tables.{AreBoundsOf};
ghost use Rattle.lam_boxes.specs.inside.Tables.{AreBoxTablesOf};
ghost use Rattle.lam_answers.specs.inside.Computed.{computed};

use crate::costs::is_below;
use lam_bounds::{Bounds, Fixed, cost_floor_at, first_dear, first_short};
use lam_boxes::{BoxTables, first_box};
use lam_job::Job;
use lam_rules::{Partial, half, visible};
use lam_stock::Stock;

/// Tells whether a search may split a partial schedule: that is lawful with the incumbent, and
/// neither a balance of forces nor a box of strains closes it.
pub fn may_split(
    job: &Job,
    stock: &Stock,
    bounds: &Bounds,
    boxes: &BoxTables,
    incumbent: Option<u64>,
    partial: &Partial,
) -> bool
    requires job_for { IsJobFor stock.now job.now }
    requires bounds { AreBoundsOf stock.now job.now bounds.now }
    requires boxes { AreBoxTablesOf stock.now boxes.now }
    requires partial { IsPartial stock.now job.now partial.now }
    ensures { IsTrue result
        ↔ MaySplit stock.now job.now (computed stock.now job.now) incumbent partial.now }
{
    let fixed = Fixed::of(job, stock, bounds, partial);
    if !is_lawful(job, stock, bounds, &fixed, incumbent, partial) {
        return false;
    }
    if first_short(job, stock, bounds, &fixed, partial).is_some() {
        return false;
    }
    if !is_cheap(job, stock, bounds, &fixed, incumbent, partial) {
        return false;
    }
    first_box(job, stock, boxes, partial).is_none()
}

// tells whether a split is lawful
fn is_lawful(
    job: &Job,
    stock: &Stock,
    bounds: &Bounds,
    fixed: &Fixed,
    incumbent: Option<u64>,
    partial: &Partial,
) -> bool
    requires liner { IsKnown stock.now job.now.liner }
    requires bounds { AreBoundsOf stock.now job.now bounds.now }
    requires partial { IsPartial stock.now job.now partial.now }
    requires sums { AreSumsOf stock.now job.now partial.now fixed.now }
    ensures { IsTrue result ↔ IsLawful stock.now job.now incumbent partial.now }
{
    if is_full(job, partial) {
        return false;
    }
    if visible(job, stock, partial).is_some() {
        return false;
    }
    is_below(cost_floor_at(job, stock, bounds, fixed, partial), incumbent)
}

/// Tells whether all places of a partial schedule are settled.
pub fn is_full(job: &Job, partial: &Partial) -> bool
    ensures { IsTrue result ↔ IsFull job.now partial.now }
{
    partial.prefix.items().len() == half(job, partial.n) as usize
}

// tells whether no case and tried weight shows that all completions cost as much as the incumbent
fn is_cheap(
    job: &Job,
    stock: &Stock,
    bounds: &Bounds,
    fixed: &Fixed,
    incumbent: Option<u64>,
    partial: &Partial,
) -> bool
    requires liner { IsKnown stock.now job.now.liner }
    requires bounds { AreBoundsOf stock.now job.now bounds.now }
    requires partial { IsPartial stock.now job.now partial.now }
    requires sums { AreSumsOf stock.now job.now partial.now fixed.now }
    ensures { IsTrue result ↔ ((k : ℕ) (case : CaseData) → slice_get job.now.cases k ≡ Some case
        → All (λ w. IsBelow (net_cost stock.now job.now partial.now case w
        (λ i. capacity_value i w)) incumbent) tried_weights) }
{
    match incumbent {
        Some(cost) => first_dear(job, stock, bounds, fixed, partial, cost).is_none(),
        None => true,
    }
}
