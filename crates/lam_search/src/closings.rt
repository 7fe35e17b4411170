// The word that closes a partial schedule, or that of a split.

ghost use Rattle.std.specs.Prelude.{◌≡◌, ℕ, ◌<◌, ◌≤◌, ◌↔◌, false, Some, None, slice_get, All, IsTrue, IsNone, IsSome, IfSome, IsSomeAnd};
ghost use Rattle.lam_job.specs.JobData.{CaseData};
ghost use Rattle.lam_job.specs.Partial.{IsFull, completion, cost_floor as floor_spec};
ghost use Rattle.lam_job.specs.Schedule.{cost_of};
ghost use Rattle.lam_rules.specs.Conditions.{IsPartial};
ghost use Rattle.lam_tree.specs.Closings.{IsBelow, Reaches};
ghost use Rattle.lam_tree.specs.ForceBalance.{IsShort, net_cost as net_spec};
ghost use Rattle.lam_tree.specs.TriedWeights.{tried_weights as tried_spec};
ghost use Rattle.lam_tree.specs.declared.limits.TheConstants.{MOST_COST};
ghost use Rattle.lam_tree.specs.Words.{NoneMayBeBuilt, NoneIsCheaper};
ghost use Rattle.lam_bounds.specs.inside.RunningSums.{AreSumsOf};
ghost use Rattle.lam_bounds.specs.inside.Computed.{capacity_value};
ghost use Rattle.lam_search.specs.inside.Held.{IsHeld};
ghost use Rattle.lam_search.specs.inside.Hints.{AreHints};
ghost use Rattle.lam_search.specs.inside.Ready.{IsReady, IsSeen, basis_at};

use crate::design::Design;
use crate::hints::Hints;
use lam_answers::word_of;
use lam_bounds::{Fixed, cost_floor_at, first_dear, first_short};
use lam_boxes::first_box;
use lam_judge::judge_by;
use lam_rules::{Partial, RuleNo, complete, half};
use lam_support::Weight;
use lam_tree::Word;

/// The word of a partial schedule: that of the first closing that settles it, or else of a split.
/// The least rule that it is seen to break is tried first.
pub fn word_at(
    design: &Design,
    fixed: &Fixed,
    partial: &Partial,
    seen: Option<RuleNo>,
    incumbent: Option<u64>,
    hints: Hints,
) -> Word
    requires ready { IsReady design.now }
    requires partial { IsPartial design.now.stock.now design.now.job.now partial.now }
    requires short { partial.now.n ≤ design.now.job.now.limit }
    requires sums { AreSumsOf design.now.stock.now design.now.job.now partial.now fixed.now }
    requires seen { IsSeen design.now.stock.now design.now.job.now partial.now seen }
    requires hints { AreHints (basis_at design.now) partial.now hints }
    ensures { IsHeld (basis_at design.now) incumbent partial.now
        result }
{
    if let Some(rule) = seen {
        return Word::Rule(rule);
    }
    if reaches(floor_at(design, fixed, partial), incumbent) {
        return Word::Cost;
    }
    if let Some((case, w)) = short_at(design, fixed, partial, hints) {
        return Word::NetShort(case, w);
    }
    if let Some((case, w)) = dear_at(design, fixed, partial, incumbent, hints) {
        return Word::NetCost(case, w);
    }
    if let Some(at) = first_box(design.job, design.stock, design.boxes, partial) {
        return Word::Box(at);
    }
    if is_full(design, partial) {
        return judged_at(design, partial, incumbent);
    }
    Word::Split
}

/// Tells whether all places of a partial schedule are settled.
pub fn is_full(design: &Design, partial: &Partial) -> bool
    ensures { IsTrue result ↔ IsFull design.now.job.now partial.now }
{
    partial.prefix.items().len() == half(design.job, partial.n) as usize
}

// the least that a completion can cost
fn floor_at(design: &Design, fixed: &Fixed, partial: &Partial) -> u64
    requires ready { IsReady design.now }
    requires partial { IsPartial design.now.stock.now design.now.job.now partial.now }
    requires sums { AreSumsOf design.now.stock.now design.now.job.now partial.now fixed.now }
    ensures { result ≡ floor_spec design.now.stock.now design.now.job.now partial.now }
{
    cost_floor_at(design.job, design.stock, design.bounds, fixed, partial)
}

// tells whether there is an incumbent and a cost is not below it
fn reaches(cost: u64, incumbent: Option<u64>) -> bool
    ensures reaches { IsTrue result → Reaches cost incumbent }
    ensures below { result ≡ false → IsBelow cost incumbent }
{
    match incumbent {
        Some(most) => most <= cost,
        None => false,
    }
}

// a case and tried weight by which no completion can carry the load
fn short_at(design: &Design, fixed: &Fixed, partial: &Partial, hints: Hints) -> Option<(u8, Weight)>
    requires ready { IsReady design.now }
    requires partial { IsPartial design.now.stock.now design.now.job.now partial.now }
    requires sums { AreSumsOf design.now.stock.now design.now.job.now partial.now fixed.now }
    requires hints { AreHints (basis_at design.now) partial.now hints }
    ensures none { IsNone result → (k : ℕ) (c : CaseData)
        → slice_get design.now.job.now.cases k ≡ Some c
        → All (λ w. ¬ IsShort design.now.stock.now design.now.job.now partial.now c w
        (λ i. capacity_value i w)) tried_spec }
    ensures some { IfSome result (λ found. IsSomeAnd (slice_get design.now.job.now.cases found.0)
        (λ c. IsShort design.now.stock.now design.now.job.now partial.now c found.1
        (λ i. capacity_value i found.1))) }
    ensures so { IsSome result
        → NoneMayBeBuilt design.now.stock.now design.now.job.now partial.now }
{
    if hints.no_short {
        return None;
    }
    first_short(design.job, design.stock, design.bounds, fixed, partial)
}

// a case and tried weight by which what carries the load costs no less than the incumbent
fn dear_at(
    design: &Design,
    fixed: &Fixed,
    partial: &Partial,
    incumbent: Option<u64>,
    hints: Hints,
) -> Option<(u8, Weight)>
    requires ready { IsReady design.now }
    requires partial { IsPartial design.now.stock.now design.now.job.now partial.now }
    requires sums { AreSumsOf design.now.stock.now design.now.job.now partial.now fixed.now }
    requires hints { AreHints (basis_at design.now) partial.now hints }
    ensures none { IsNone result → (k : ℕ) (c : CaseData)
        → slice_get design.now.job.now.cases k ≡ Some c
        → All (λ w. IsBelow (net_spec design.now.stock.now design.now.job.now partial.now c w
        (λ i. capacity_value i w)) incumbent) tried_spec }
    ensures some { IfSome result (λ found. IsSomeAnd (slice_get design.now.job.now.cases found.0)
        (λ c. Reaches (net_spec design.now.stock.now design.now.job.now partial.now c found.1
        (λ i. capacity_value i found.1)) incumbent)) }
    ensures so { IsSome result → IsSomeAnd incumbent
        (NoneIsCheaper design.now.stock.now design.now.job.now partial.now) }
{
    match incumbent {
        None => None,
        Some(cost) => dear_below(design, fixed, partial, cost, hints),
    }
}

// the same with an incumbent
fn dear_below(
    design: &Design,
    fixed: &Fixed,
    partial: &Partial,
    cost: u64,
    hints: Hints,
) -> Option<(u8, Weight)>
    requires ready { IsReady design.now }
    requires partial { IsPartial design.now.stock.now design.now.job.now partial.now }
    requires sums { AreSumsOf design.now.stock.now design.now.job.now partial.now fixed.now }
    requires hints { AreHints (basis_at design.now) partial.now hints }
    ensures none { IsNone result → (k : ℕ) (c : CaseData)
        → slice_get design.now.job.now.cases k ≡ Some c
        → All (λ w. net_spec design.now.stock.now design.now.job.now partial.now c w
        (λ i. capacity_value i w) < cost) tried_spec }
    ensures some { IfSome result (λ found. IsSomeAnd (slice_get design.now.job.now.cases found.0)
        (λ c. cost ≤ net_spec design.now.stock.now design.now.job.now partial.now c found.1
        (λ i. capacity_value i found.1))) }
    ensures so { IsSome result
        → NoneIsCheaper design.now.stock.now design.now.job.now partial.now cost }
{
    if is_limit(hints.limit, cost) {
        return None;
    }
    first_dear(
        design.job,
        design.stock,
        design.bounds,
        fixed,
        partial,
        cost,
    )
}

// tells whether a limit is this one
fn is_limit(limit: Option<u64>, cost: u64) -> bool
    ensures { IsTrue result → limit ≡ Some cost }
{
    match limit {
        Some(known) => known == cost,
        None => false,
    }
}

// the word of a full partial schedule, as its completion is judged
fn judged_at(design: &Design, partial: &Partial, incumbent: Option<u64>) -> Word
    requires ready { IsReady design.now }
    requires partial { IsPartial design.now.stock.now design.now.job.now partial.now }
    requires short { partial.now.n ≤ design.now.job.now.limit }
    requires full { IsFull design.now.job.now partial.now }
    requires small { cost_of design.now.stock.now design.now.job.now
        (completion design.now.job.now partial.now) ≤ MOST_COST }
    ensures { IsHeld (basis_at design.now) incumbent partial.now
        result }
{
    let listed = complete(design.job, partial);
    word_of(judge_by(design.tables, design.job, design.stock, &listed))
}
