// The balances of forces of a partial schedule by itself, where the tables of the tried weights were made before.

ghost use Rattle.std.specs.Prelude.{◌≡◌, ◌<◌, length, slice_get, Some, IfSome, IsTrue, ◌↔◌, IsSomeAnd};
ghost use Rattle.lam_rules.specs.Conditions.{IsPartial};
ghost use Rattle.lam_tree.specs.ForceBalance.{IsShort, net_cost as net_spec};
ghost use Rattle.lam_tree.specs.TriedWeights.{tried_weights as tried_spec};
ghost use Rattle.lam_tree.specs.Words.{NoneMayBeBuilt, NoneIsCheaper};
ghost use Rattle.lam_bounds.specs.inside.Computed.{capacity_value};
ghost use Rattle.lam_bounds.specs.inside.Tables.{AreBoundsOf};

use crate::bounds::Bounds;
use crate::plain::{cost_by, net_cost, net_short, short_by};
use crate::weights::tried_weights;
use lam_job::Job;
use lam_rules::Partial;
use lam_stock::Stock;
use lam_support::Weight;

/// Answers as `net_short` does, by the table of the weight where that is a tried one.
pub fn net_short_by(
    job: &Job,
    stock: &Stock,
    bounds: &Bounds,
    partial: &Partial,
    case: u8,
    w: &Weight,
) -> bool
    requires partial { IsPartial stock.now job.now partial.now }
    requires bounds { AreBoundsOf stock.now job.now bounds.now }
    requires case { case < length job.now.cases }
    ensures value { IsTrue result ↔ IsSomeAnd (slice_get job.now.cases case) (λ c.
        IsShort stock.now job.now partial.now c w.now (λ i. capacity_value i w.now)) }
    ensures so { IsTrue result → NoneMayBeBuilt stock.now job.now partial.now }
{
    match place_of(w) {
        Some(k) => short_by(job, stock, &bounds.tried[k].carriers, partial, case, w),
        None => net_short(job, stock, partial, case, w),
    }
}

/// Answers as `net_cost` does, by the table of the weight where that is a tried one.
pub fn net_cost_by(
    job: &Job,
    stock: &Stock,
    bounds: &Bounds,
    partial: &Partial,
    case: u8,
    w: &Weight,
) -> u64
    requires partial { IsPartial stock.now job.now partial.now }
    requires bounds { AreBoundsOf stock.now job.now bounds.now }
    requires case { case < length job.now.cases }
    ensures value { IsSomeAnd (slice_get job.now.cases case) (λ c.
        result ≡ net_spec stock.now job.now partial.now c w.now (λ i. capacity_value i w.now)) }
    ensures so { NoneIsCheaper stock.now job.now partial.now result }
{
    match place_of(w) {
        Some(k) => cost_by(job, stock, &bounds.tried[k].carriers, partial, case, w),
        None => net_cost(job, stock, partial, case, w),
    }
}

// the place of a weight among the tried ones
fn place_of(w: &Weight) -> Option<usize>
    ensures { IfSome result (λ k. slice_get tried_spec k ≡ Some w.now) }
{
    let weights = tried_weights();
    for k in 0..weights.len() {
        if is_same(&weights[k], w) {
            return Some(k);
        }
    }
    None
}

// tells whether two weights are the same
fn is_same(one: &Weight, other: &Weight) -> bool
    ensures { IsTrue result → one.now ≡ other.now }
{
    one.x == other.x && one.y == other.y && one.s == other.s
}
