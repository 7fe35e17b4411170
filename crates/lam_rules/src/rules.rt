// The nine rules.

ghost use Rattle.std.specs.Prelude.{◌<◌, ◌≤◌, ◌≤ℤ◌, ◌↔◌, length, IsNone, IfSome, IsTrue};
ghost use Rattle.lam_stock.specs.Stock.{IsKnown};
ghost use Rattle.lam_job.specs.Rules.{KeepsInner, KeepsOuter, KeepsSymmetric, KeepsBalanced, KeepsRun, KeepsFewest, KeepsCounts, KeepsFitness, KeepsRule, Keeps, IsLeastBroken, LinerCarries};
ghost use Rattle.lam_rules.specs.inside.RuleOf.{rule_of};

use crate::lists::{has_slanted, is_balanced, is_in, is_palindrome, is_slanted, times};
use crate::rule::RuleNo;
use crate::runs::longest_run;
use crate::thickness::thickness;
use lam_job::{ItemSet, Job};
use lam_stock::{ItemNo, Stack, Stock};

/// The first rule, in the order of their numbers, that a schedule breaks. None where it keeps all.
pub fn breaks(job: &Job, stock: &Stock, listed: &Stack) -> Option<RuleNo>
    requires liner { IsKnown stock.now job.now.liner }
    requires known { IsKnown stock.now listed.now }
    ensures none { IsNone result ↔ Keeps stock.now job.now listed.now }
    ensures least { IfSome result (λ rule. IsLeastBroken rule.0 stock.now job.now listed.now) }
    ensures number { IfSome result (λ rule. (1 ≤ rule.0) × (rule.0 ≤ 9)) }
{
    let plies = listed.items();
    for number in 1..10 {
        if !keeps(number, job, stock, plies) {
            return Some(RuleNo(number));
        }
    }
    None
}

// tells whether a schedule keeps the rule of a number
fn keeps(number: u8, job: &Job, stock: &Stock, plies: &[ItemNo]) -> bool
    requires some { 1 ≤ number }
    requires most { number ≤ 9 }
    requires liner { IsKnown stock.now job.now.liner }
    requires known { IsKnown stock.now plies.now }
    requires few { length plies.now ≤ 64 }
    ensures { IsTrue result ↔ KeepsRule (rule_of number) stock.now job.now plies.now }
{
    let rules = &job.rules;
    match number {
        1 => keeps_inner(rules.inner, stock, plies),
        2 => keeps_outer(rules.outer, stock, plies),
        3 => keeps_symmetric(rules.symmetric, plies),
        4 => keeps_balanced(rules.balanced, stock, plies),
        5 => keeps_run(rules.run, plies),
        6 => keeps_fewest(rules.fewest, plies),
        7 => keeps_thickness(rules.thickness, thickness(job, stock, plies)),
        8 => keeps_counts(rules.counts.items(), plies),
        _ => keeps_fitness(job, stock, plies),
    }
}

// inner: the first ply is in the set
fn keeps_inner(asked: Option<ItemSet>, stock: &Stock, plies: &[ItemNo]) -> bool
    requires known { IsKnown stock.now plies.now }
    ensures { IsTrue result ↔ KeepsInner asked plies.now }
{
    let few = stock.items().len() <= 64;
    match asked {
        Some(set) => few && plies.len() > 0 && is_in(set, plies[0]),
        None => true,
    }
}

// outer: the last ply is in the set
fn keeps_outer(asked: Option<ItemSet>, stock: &Stock, plies: &[ItemNo]) -> bool
    requires known { IsKnown stock.now plies.now }
    ensures { IsTrue result ↔ KeepsOuter asked plies.now }
{
    let few = stock.items().len() <= 64;
    match asked {
        Some(set) => few && plies.len() > 0 && is_in(set, plies[plies.len() - 1]),
        None => true,
    }
}

// symmetric: the list is the same from both ends
fn keeps_symmetric(asked: bool, plies: &[ItemNo]) -> bool
    ensures { IsTrue result ↔ KeepsSymmetric asked plies.now }
{
    !asked || is_palindrome(plies)
}

// balanced: as many plies are the mirror image of a slanted one as are like it
fn keeps_balanced(asked: bool, stock: &Stock, plies: &[ItemNo]) -> bool
    requires known { IsKnown stock.now plies.now }
    ensures { IsTrue result ↔ KeepsBalanced stock.now asked plies.now }
{
    if !asked {
        return true;
    }
    for ply in plies {
        if is_slanted(&stock.items()[ply.0 as usize]) && !is_balanced(stock, plies, *ply) {
            return false;
        }
    }
    true
}

// run: no item stands too often in a row
fn keeps_run(asked: Option<u8>, plies: &[ItemNo]) -> bool
    requires few { length plies.now ≤ 64 }
    ensures { IsTrue result ↔ KeepsRun asked plies.now }
{
    match asked {
        Some(most) => longest_run(plies) <= most,
        None => true,
    }
}

// fewest: there are enough plies
fn keeps_fewest(asked: Option<u8>, plies: &[ItemNo]) -> bool
    ensures { IsTrue result ↔ KeepsFewest asked plies.now }
{
    match asked {
        Some(least) => least as usize <= plies.len(),
        None => true,
    }
}

// thickness: the wall is thick enough
fn keeps_thickness(asked: Option<i64>, thickness: i64) -> bool
    ensures { IsTrue result ↔ IfSome asked (λ least. least ≤ℤ thickness) }
{
    match asked {
        Some(least) => least <= thickness,
        None => true,
    }
}

// counts: of each named item there are enough plies
fn keeps_counts(asked: &[(ItemNo, u8)], plies: &[ItemNo]) -> bool
    ensures { IsTrue result ↔ KeepsCounts asked.now plies.now }
{
    for count in asked {
        if times(plies, count.0) < count.1 as usize {
            return false;
        }
    }
    true
}

// panel fitness: where a panel is asked, no liner carries load, the list is the same from both
// ends, and no ply is slanted
fn keeps_fitness(job: &Job, stock: &Stock, plies: &[ItemNo]) -> bool
    requires known { IsKnown stock.now plies.now }
    ensures { IsTrue result ↔ KeepsFitness stock.now job.now plies.now }
{
    if job.panels.items().len() == 0 {
        return true;
    }
    if liner_carries(job) {
        return false;
    }
    if !is_palindrome(plies) {
        return false;
    }
    !has_slanted(stock, plies)
}

/// Tells whether a liner is there and carries load.
pub fn liner_carries(job: &Job) -> bool
    ensures { IsTrue result ↔ LinerCarries job.now }
{
    job.liner_in_wall && job.liner.items().len() > 0
}
