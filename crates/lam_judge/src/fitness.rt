// Whether a schedule is fit for a panel.

ghost use Rattle.std.specs.Prelude.{◌↔◌, IsTrue, All};
ghost use Rattle.lam_stock.specs.Stock.{IsKnown};
ghost use Rattle.lam_job.specs.Rules.{Fit, IsPalindrome, IsSlanted, LinerCarries};
ghost use Rattle.lam_job.specs.Schedule.{items_of};

use lam_job::Job;
use lam_stock::{Item, ItemNo, Kind, Stack, Stock};

/// Tells whether the wall of a schedule is a plate that the buckling formula speaks of: no liner carries load, the list is
/// the same from both ends, and no ply is slanted.
pub(crate) fn is_fit(job: &Job, stock: &Stock, listed: &Stack) -> bool
    requires { IsKnown stock.now listed.now }
    ensures { IsTrue result ↔ Fit stock.now job.now listed.now }
{
    let plies = listed.items();
    if liner_carries(job) {
        return false;
    }
    if !is_palindrome(plies) {
        return false;
    }
    is_straight(stock, plies)
}

// tells whether a liner is there and carries load
fn liner_carries(job: &Job) -> bool
    ensures { IsTrue result ↔ LinerCarries job.now }
{
    job.liner_in_wall && job.liner.items().len() > 0
}

// tells whether a list is the same from both ends
fn is_palindrome(plies: &[ItemNo]) -> bool
    ensures { IsTrue result ↔ IsPalindrome plies.now }
{
    let n = plies.len();
    for i in 0..n / 2 {
        if plies[i].0 != plies[n - 1 - i].0 {
            return false;
        }
    }
    true
}

// tells whether no ply is slanted
fn is_straight(stock: &Stock, plies: &[ItemNo]) -> bool
    requires known { IsKnown stock.now plies.now }
    ensures { IsTrue result ↔ All (λ i. ¬ IsSlanted i) (items_of stock.now plies.now) }
{
    for ply in plies {
        if is_slanted(&stock.items()[ply.0 as usize]) {
            return false;
        }
    }
    true
}

// tells whether an item is a ply whose fibres lie along no axis of the wall
fn is_slanted(item: &Item) -> bool
    ensures { IsTrue result ↔ IsSlanted item.now }
{
    match item.kind {
        Kind::Ply => !item.dir.on_axis(),
        Kind::Pair => false,
    }
}
