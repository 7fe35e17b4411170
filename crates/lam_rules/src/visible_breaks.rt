// The rules that a partial schedule visibly breaks.

ghost use Rattle.std.specs.Prelude.{◌≡◌, ◌+◌, ◌<◌, ◌≤◌, ◌<ℤ◌, ◌↔◌, length, Any, IsNone, IfSome, IsSomeAnd, IsTrue};
ghost use Rattle.lam_stock.specs.Stock.{IsKnown};
ghost use Rattle.lam_job.specs.Partial.{ForEveryCompletion, SeemsWell, VisiblyBreaksRule, StartsWrong, RunsTooLong, HasTooFew, CountsTooFew, IsUnfit, greatest_thickness as greatest_spec};
ghost use Rattle.lam_job.specs.Rules.{Breaks, times_of};
ghost use Rattle.lam_rules.specs.Conditions.{IsPartial};
ghost use Rattle.lam_rules.specs.LeastVisible.{IsLeastVisible};
ghost use Rattle.lam_rules.specs.inside.RuleOf.{rule_of};

use crate::lists::{has_slanted, is_in, times};
use crate::partial::{Partial, fixed_plies};
use crate::rule::RuleNo;
use crate::rules::liner_carries;
use crate::runs::longest_run;
use crate::thickness::{thickest, thickness};
use lam_job::{ItemSet, Job};
use lam_stock::{ItemNo, Stock};

/// The first rule, in the order of their numbers, that a partial schedule visibly breaks: every
/// completion breaks it. None where none is seen to be broken. The rules 3 and 4 never are.
pub fn visible(job: &Job, stock: &Stock, partial: &Partial) -> Option<RuleNo>
    requires liner { IsKnown stock.now job.now.liner }
    requires partial { IsPartial stock.now job.now partial.now }
    ensures none { IsNone result ↔ SeemsWell stock.now job.now partial.now }
    ensures least { IfSome result (λ rule. IsLeastVisible rule.0 stock.now job.now partial.now) }
    ensures number { IfSome result (λ rule. (1 ≤ rule.0) × (rule.0 ≤ 9)) }
    ensures broken { IfSome result (λ rule.
        ForEveryCompletion stock.now job.now partial.now (Breaks rule.0 stock.now job.now)) }
{
    for number in 1..10 {
        if shows(number, job, stock, partial) {
            return Some(RuleNo(number));
        }
    }
    None
}

// tells whether a partial schedule visibly breaks the rule of a number
fn shows(number: u8, job: &Job, stock: &Stock, partial: &Partial) -> bool
    requires some { 1 ≤ number }
    requires most { number ≤ 9 }
    requires liner { IsKnown stock.now job.now.liner }
    requires partial { IsPartial stock.now job.now partial.now }
    ensures { IsTrue result ↔ VisiblyBreaksRule (rule_of number) stock.now job.now partial.now }
{
    let rules = &job.rules;
    let prefix = partial.prefix.items();
    match number {
        1 => starts_wrong(rules.inner, stock, prefix),
        2 => rules.symmetric && starts_wrong(rules.outer, stock, prefix),
        5 => runs_too_long(rules.run, prefix),
        6 => has_too_few(rules.fewest, partial.n),
        7 => stays_too_thin(rules.thickness, greatest_thickness(job, stock, partial)),
        8 => counts_fall_short(job, partial),
        9 => is_unfit(job, stock, prefix),
        _ => false,
    }
}

/// Tells whether there is a first ply that is not in a set: inner, and outer where schedules are
/// symmetric.
pub fn starts_wrong(asked: Option<ItemSet>, stock: &Stock, prefix: &[ItemNo]) -> bool
    requires known { IsKnown stock.now prefix.now }
    ensures { IsTrue result ↔ StartsWrong asked prefix.now }
{
    let few = stock.items().len() <= 64;
    match asked {
        Some(set) => few && prefix.len() > 0 && !is_in(set, prefix[0]),
        None => false,
    }
}

// run: an item stands too often in a row
fn runs_too_long(asked: Option<u8>, prefix: &[ItemNo]) -> bool
    requires few { length prefix.now ≤ 64 }
    ensures { IsTrue result ↔ RunsTooLong asked prefix.now }
{
    match asked {
        Some(most) => most < longest_run(prefix),
        None => false,
    }
}

/// Tells whether there are too few places: fewest.
pub fn has_too_few(asked: Option<u8>, n: u8) -> bool
    ensures { IsTrue result ↔ HasTooFew asked n }
{
    match asked {
        Some(least) => n < least,
        None => false,
    }
}

/// Tells whether a wall is too thin, however thick it gets: thickness.
pub fn stays_too_thin(asked: Option<i64>, most: i64) -> bool
    ensures { IsTrue result ↔ IsSomeAnd asked (λ least. most <ℤ least) }
{
    match asked {
        Some(least) => most < least,
        None => false,
    }
}

// how thick a wall can get: the fixed plies, and the thickest item at each open place
fn greatest_thickness(job: &Job, stock: &Stock, partial: &Partial) -> i64
    requires liner { IsKnown stock.now job.now.liner }
    requires partial { IsPartial stock.now job.now partial.now }
    ensures { result ≡ greatest_spec stock.now job.now partial.now }
{
    let fixed = fixed_plies(job, partial);
    let plies = fixed.items();
    let open = partial.n - plies.len() as u8;
    thickness(job, stock, plies) + i64::from(open) * thickest(stock)
}

// counts: some item is fixed too often at other places
fn counts_fall_short(job: &Job, partial: &Partial) -> bool
    requires few { partial.now.n ≤ 56 }
    requires within { length partial.now.prefix ≤ partial.now.n }
    ensures { IsTrue result ↔ CountsTooFew job.now partial.now }
{
    let fixed = fixed_plies(job, partial);
    let plies = fixed.items();
    let open = partial.n as usize - plies.len();
    counts_too_few(job.rules.counts.items(), plies, open)
}

// of some item there are too few, even if it stands at all open places
fn counts_too_few(asked: &[(ItemNo, u8)], plies: &[ItemNo], places: usize) -> bool
    requires places { places ≤ 56 }
    requires few { length plies.now ≤ 64 }
    ensures { IsTrue result
        ↔ Any (λ count. times_of count.0 plies.now + places < count.1) asked.now }
{
    for count in asked {
        if times(plies, count.0) + places < count.1 as usize {
            return true;
        }
    }
    false
}

// panel fitness: a panel is asked, and a liner carries load or a ply is slanted
fn is_unfit(job: &Job, stock: &Stock, prefix: &[ItemNo]) -> bool
    requires known { IsKnown stock.now prefix.now }
    ensures { IsTrue result ↔ IsUnfit stock.now job.now prefix.now }
{
    if job.panels.items().len() == 0 {
        return false;
    }
    liner_carries(job) || has_slanted(stock, prefix)
}
