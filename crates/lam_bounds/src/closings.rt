// All cases and tried weights at once.

ghost use Rattle.std.specs.Prelude.{◌≡◌, ℕ, ◌<◌, ◌≤◌, length, All, Some, slice_get, IsTrue, IsNone, IsSome, IfSome, IsSomeAnd};
ghost use Rattle.lam_job.specs.JobData.{CaseData};
ghost use Rattle.lam_rules.specs.Conditions.{IsPartial};
ghost use Rattle.lam_support.specs.declared.weight.Weight.{Weight};
ghost use Rattle.lam_tree.specs.ForceBalance.{IsShort, net_cost as net_spec};
ghost use Rattle.lam_tree.specs.TriedWeights.{tried_weights as tried_spec};
ghost use Rattle.lam_tree.specs.Words.{NoneMayBeBuilt, NoneIsCheaper};
ghost use Rattle.lam_bounds.specs.inside.Computed.{capacity_value};
ghost use Rattle.lam_bounds.specs.inside.RunningSums.{AreSumsOf};
ghost use Rattle.lam_bounds.specs.inside.Tables.{AreBoundsOf};

use crate::bounds::Bounds;
use crate::fixed::Fixed;
use crate::running::{cost_with, is_short, net_cost_at, net_floor, net_short_at};
use crate::weights::tried_weights;
use lam_job::Job;
use lam_rules::Partial;
use lam_stock::Stock;
use lam_support::Weight;

/// A case and tried weight with which a balance of forces shows that the plies of no completion
/// can carry the load, if there is one. Where several do, no clause says which of them it is.
pub fn first_short(
    job: &Job,
    stock: &Stock,
    bounds: &Bounds,
    fixed: &Fixed,
    partial: &Partial,
) -> Option<(u8, Weight)>
    requires partial { IsPartial stock.now job.now partial.now }
    requires bounds { AreBoundsOf stock.now job.now bounds.now }
    requires sums { AreSumsOf stock.now job.now partial.now fixed.now }
    ensures none { IsNone result → (k : ℕ) (c : CaseData) → slice_get job.now.cases k ≡ Some c
        → All (λ w. ¬ IsShort stock.now job.now partial.now c w (λ i. capacity_value i w)) tried_spec }
    ensures some { IfSome result (λ found. IsSomeAnd (slice_get job.now.cases found.0) (λ c.
        IsShort stock.now job.now partial.now c found.1 (λ i. capacity_value i found.1))) }
    ensures tried { IfSome result (λ found. (k : ℕ) × (slice_get tried_spec k ≡ Some found.1)) }
    ensures so { IsSome result → NoneMayBeBuilt stock.now job.now partial.now }
{
    if is_never_short(job, stock, bounds, fixed, partial) {
        return None;
    }
    let weights = tried_weights();
    for case in 0..job.cases.items().len() {
        if let Some(k) = short_weight(job, stock, bounds, fixed, partial, case as u8) {
            return Some((case as u8, weights[k as usize]));
        }
    }
    None
}

// the first tried weight that shows it for a case
fn short_weight(
    job: &Job,
    stock: &Stock,
    bounds: &Bounds,
    fixed: &Fixed,
    partial: &Partial,
    case: u8,
) -> Option<u8>
    requires partial { IsPartial stock.now job.now partial.now }
    requires bounds { AreBoundsOf stock.now job.now bounds.now }
    requires sums { AreSumsOf stock.now job.now partial.now fixed.now }
    requires case { case < length job.now.cases }
    ensures none { IsNone result → (c : CaseData) → slice_get job.now.cases case ≡ Some c
        → (k : ℕ) (w : Weight) → slice_get tried_spec k ≡ Some w
        → ¬ IsShort stock.now job.now partial.now c w (λ i. capacity_value i w) }
    ensures weight { IfSome result (λ k. k < 12) }
    ensures some { IfSome result (λ k. (w : Weight) → slice_get tried_spec k ≡ Some w
        → IsSomeAnd (slice_get job.now.cases case) (λ c.
        IsShort stock.now job.now partial.now c w (λ i. capacity_value i w))) }
    ensures so { IsSome result → NoneMayBeBuilt stock.now job.now partial.now }
{
    for k in 0u8..12 {
        if net_short_at(job, stock, bounds, fixed, partial, case, k) {
            return Some(k);
        }
    }
    None
}

// tells that no case is short with any tried weight, by the greatest demands
fn is_never_short(
    job: &Job,
    stock: &Stock,
    bounds: &Bounds,
    fixed: &Fixed,
    partial: &Partial,
) -> bool
    requires partial { IsPartial stock.now job.now partial.now }
    requires bounds { AreBoundsOf stock.now job.now bounds.now }
    requires sums { AreSumsOf stock.now job.now partial.now fixed.now }
    ensures { IsTrue result → (n : ℕ) (c : CaseData) → slice_get job.now.cases n ≡ Some c
        → (k : ℕ) (w : Weight) → slice_get tried_spec k ≡ Some w
        → ¬ IsShort stock.now job.now partial.now c w (λ i. capacity_value i w) }
{
    for k in 0..12 {
        let tried = &bounds.tried[k];
        let demand = tried.greatest_demand;
        if is_short(&tried.carriers, fixed.carried[k], fixed.open_places, demand) {
            return false;
        }
    }
    true
}

/// A case and tried weight with which a balance of forces shows that what carries the load costs
/// no less than a limit, if there is one. Where several do, no clause says which of them it is.
pub fn first_dear(
    job: &Job,
    stock: &Stock,
    bounds: &Bounds,
    fixed: &Fixed,
    partial: &Partial,
    limit: u64,
) -> Option<(u8, Weight)>
    requires partial { IsPartial stock.now job.now partial.now }
    requires bounds { AreBoundsOf stock.now job.now bounds.now }
    requires sums { AreSumsOf stock.now job.now partial.now fixed.now }
    ensures none { IsNone result → (k : ℕ) (c : CaseData) → slice_get job.now.cases k ≡ Some c
        → All (λ w. net_spec stock.now job.now partial.now c w (λ i. capacity_value i w) < limit)
        tried_spec }
    ensures some { IfSome result (λ found. IsSomeAnd (slice_get job.now.cases found.0) (λ c.
        limit ≤ net_spec stock.now job.now partial.now c found.1 (λ i. capacity_value i found.1))) }
    ensures tried { IfSome result (λ found. (k : ℕ) × (slice_get tried_spec k ≡ Some found.1)) }
    ensures so { IsSome result → NoneIsCheaper stock.now job.now partial.now limit }
{
    if is_never_dear(job, stock, bounds, fixed, partial, limit) {
        return None;
    }
    let weights = tried_weights();
    for case in 0..job.cases.items().len() {
        if let Some(k) = dear_weight(job, stock, bounds, fixed, partial, case as u8, limit) {
            return Some((case as u8, weights[k as usize]));
        }
    }
    None
}

// the first tried weight that shows it for a case
fn dear_weight(
    job: &Job,
    stock: &Stock,
    bounds: &Bounds,
    fixed: &Fixed,
    partial: &Partial,
    case: u8,
    limit: u64,
) -> Option<u8>
    requires partial { IsPartial stock.now job.now partial.now }
    requires bounds { AreBoundsOf stock.now job.now bounds.now }
    requires sums { AreSumsOf stock.now job.now partial.now fixed.now }
    requires case { case < length job.now.cases }
    ensures none { IsNone result → (c : CaseData) → slice_get job.now.cases case ≡ Some c
        → (k : ℕ) (w : Weight) → slice_get tried_spec k ≡ Some w
        → net_spec stock.now job.now partial.now c w (λ i. capacity_value i w) < limit }
    ensures weight { IfSome result (λ k. k < 12) }
    ensures some { IfSome result (λ k. (w : Weight) → slice_get tried_spec k ≡ Some w
        → IsSomeAnd (slice_get job.now.cases case) (λ c.
        limit ≤ net_spec stock.now job.now partial.now c w (λ i. capacity_value i w))) }
    ensures so { IsSome result → NoneIsCheaper stock.now job.now partial.now limit }
{
    for k in 0u8..12 {
        if net_cost_at(job, stock, bounds, fixed, partial, case, k) >= limit {
            return Some(k);
        }
    }
    None
}

// tells that no case is dear with any tried weight, by the greatest demands
fn is_never_dear(
    job: &Job,
    stock: &Stock,
    bounds: &Bounds,
    fixed: &Fixed,
    partial: &Partial,
    limit: u64,
) -> bool
    requires partial { IsPartial stock.now job.now partial.now }
    requires bounds { AreBoundsOf stock.now job.now bounds.now }
    requires sums { AreSumsOf stock.now job.now partial.now fixed.now }
    ensures { IsTrue result → (n : ℕ) (c : CaseData) → slice_get job.now.cases n ≡ Some c
        → (k : ℕ) (w : Weight) → slice_get tried_spec k ≡ Some w
        → net_spec stock.now job.now partial.now c w (λ i. capacity_value i w) < limit }
{
    let floor = cost_with(fixed.cost, fixed.open_places, bounds.cheapest);
    for k in 0..12 {
        let tried = &bounds.tried[k];
        let demand = tried.greatest_demand;
        if net_floor(&tried.carriers, floor, fixed.cost, fixed.carried[k], demand) >= limit {
            return false;
        }
    }
    true
}
