// When the word of a leaf closes a partial schedule.

ghost use Rattle.std.specs.Prelude.{◌≡◌, ◌≢◌, ℕ, ◌≤◌, ◌↔◌, ◌⊎◌, Some, slice_get, Option, IsTrue, IsSomeAnd};
ghost use Rattle.lam_stock.specs.Stock.{IsKnown};
ghost use Rattle.lam_job.specs.Partial.{ForEveryCompletion};
ghost use Rattle.lam_job.specs.Rules.{Breaks};
ghost use Rattle.lam_job.specs.Schedule.{IsJobFor};
ghost use Rattle.lam_judge.specs.inside.Tables.{AreTablesOf};
ghost use Rattle.lam_rules.specs.Conditions.{IsPartial};
ghost use Rattle.lam_tree.specs.Closings.{ClosesByRule, IsSound, Reaches};
ghost use Rattle.lam_tree.specs.ForceBalance.{IsShort, net_cost as net_spec};
ghost use Rattle.lam_tree.specs.Words.{IsTrueOf, NoneIsCheaper, NoneMayBeBuilt};
ghost use Rattle.lam_bounds.specs.inside.Computed.{capacity_value};
ghost use Rattle.lam_bounds.specs.inside.Tables.{AreBoundsOf};
ghost use Rattle.lam_boxes.specs.inside.Tables.{AreBoxTablesOf};
ghost use Rattle.lam_answers.specs.inside.Computed.{computed};

use crate::costs::reaches;
use crate::judging::is_judged_full;
use crate::splitting::is_full;
use lam_bounds::{Bounds, cost_floor, net_cost_by, net_short_by};
use lam_boxes::{BoxTables, is_boxed};
use lam_job::Job;
use lam_judge::Tables;
use lam_rules::{Partial, RuleNo, breaks, complete, visible};
use lam_stock::Stock;
use lam_support::Weight;
use lam_tree::Word;

/// Tells whether the word of a leaf closes a partial schedule, with the cost of the best schedule.
pub fn closes(
    job: &Job,
    stock: &Stock,
    tables: &Tables,
    bounds: &Bounds,
    boxes: &BoxTables,
    best: Option<u64>,
    partial: &Partial,
    word: Word,
) -> bool
    requires job_for { IsJobFor stock.now job.now }
    requires tables { AreTablesOf stock.now tables.now }
    requires bounds { AreBoundsOf stock.now job.now bounds.now }
    requires boxes { AreBoxTablesOf stock.now boxes.now }
    requires partial { IsPartial stock.now job.now partial.now }
    requires short { partial.now.n ≤ job.now.limit }
    requires leaf { word ≢ Word.Split }
    ensures value { (incumbent : Option ℕ) → IsTrue result
        ↔ IsSound stock.now job.now (computed stock.now job.now) best incumbent partial.now word }
    ensures so { IsTrue result → IsTrueOf stock.now job.now
        best partial.now word }
{
    match word {
        Word::Split => unreachable!(),
        Word::Cost => reaches(cost_floor(job, stock, partial), best),
        Word::Rule(rule) => closes_by_rule(job, stock, partial, rule),
        Word::NetShort(case, w) => is_short(job, stock, bounds, partial, case, &w),
        Word::NetCost(case, w) => is_dear(job, stock, bounds, best, partial, case, &w),
        Word::Box(at) => is_boxed(job, stock, boxes, partial, at),
        Word::Range(case) => is_judged_full(job, stock, tables, partial, Word::Range(case)),
        Word::Fails(at) => is_judged_full(job, stock, tables, partial, Word::Fails(at)),
        Word::Buckles(panel) => is_judged_full(job, stock, tables, partial, Word::Buckles(panel)),
        Word::Straddles(at) => is_judged_full(job, stock, tables, partial, Word::Straddles(at)),
        Word::Admissible => is_judged_full(job, stock, tables, partial, Word::Admissible),
    }
}

// tells whether this is the least rule that the completion of a full partial breaks, or that any
// other visibly breaks
fn closes_by_rule(job: &Job, stock: &Stock, partial: &Partial, rule: RuleNo) -> bool
    requires liner { IsKnown stock.now job.now.liner }
    requires partial { IsPartial stock.now job.now partial.now }
    requires short { partial.now.n ≤ job.now.limit }
    ensures value { IsTrue result ↔ ClosesByRule stock.now job.now partial.now rule.0 }
    ensures so { IsTrue result → ForEveryCompletion stock.now job.now partial.now
        (Breaks rule.0 stock.now job.now) }
{
    if is_full(job, partial) {
        let listed = complete(job, partial);
        return is_rule(breaks(job, stock, &listed), rule);
    }
    is_rule(visible(job, stock, partial), rule)
}

// tells whether a rule is found, and is this one
fn is_rule(found: Option<RuleNo>, rule: RuleNo) -> bool
    ensures { IsTrue result ↔ (found ≡ Some rule) }
{
    match found {
        Some(broken) => broken.0 == rule.0,
        None => false,
    }
}

// tells whether the job has the case, and its load cannot be carried
fn is_short(
    job: &Job,
    stock: &Stock,
    bounds: &Bounds,
    partial: &Partial,
    case: u8,
    w: &Weight,
) -> bool
    requires bounds { AreBoundsOf stock.now job.now bounds.now }
    requires partial { IsPartial stock.now job.now partial.now }
    ensures value { IsTrue result ↔ IsSomeAnd (slice_get job.now.cases case)
        (λ c. IsShort stock.now job.now partial.now c w.now (λ i. capacity_value i w.now)) }
    ensures so { IsTrue result → NoneMayBeBuilt stock.now job.now partial.now }
{
    if case as usize >= job.cases.items().len() {
        return false;
    }
    net_short_by(job, stock, bounds, partial, case, w)
}

// tells whether the job has the case, and its load cannot be carried, or only at the best cost
fn is_dear(
    job: &Job,
    stock: &Stock,
    bounds: &Bounds,
    best: Option<u64>,
    partial: &Partial,
    case: u8,
    w: &Weight,
) -> bool
    requires bounds { AreBoundsOf stock.now job.now bounds.now }
    requires partial { IsPartial stock.now job.now partial.now }
    ensures value { IsTrue result ↔ IsSomeAnd (slice_get job.now.cases case)
        (λ c. IsShort stock.now job.now partial.now c w.now (λ i. capacity_value i w.now)
        ⊎ Reaches (net_spec stock.now job.now partial.now c w.now
        (λ i. capacity_value i w.now)) best) }
    ensures so { IsTrue result → NoneMayBeBuilt stock.now job.now partial.now
        ⊎ IsSomeAnd best (NoneIsCheaper stock.now job.now partial.now) }
{
    if case as usize >= job.cases.items().len() {
        return false;
    }
    if net_short_by(job, stock, bounds, partial, case, w) {
        return true;
    }
    reaches(net_cost_by(job, stock, bounds, partial, case, w), best)
}
