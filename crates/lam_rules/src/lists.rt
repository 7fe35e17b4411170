// What the rules ask of a list of plies.

ghost use Rattle.std.specs.Prelude.{◌≡◌, ◌<◌, ◌↔◌, ◌==◌, length, Any, IsTrue, count_by};
ghost use Rattle.lam_stock.specs.Likeness.{are_alike, are_mirrors};
ghost use Rattle.lam_stock.specs.Stock.{IsKnown};
ghost use Rattle.lam_job.specs.Rules.{IsIn, IsPalindrome, IsSlanted, IsBalanced, times_of};
ghost use Rattle.lam_job.specs.Schedule.{items_of};

use lam_job::ItemSet;
use lam_stock::{Item, ItemNo, Kind, Stock};

/// Tells whether an item is in a set.
pub fn is_in(set: ItemSet, ply: ItemNo) -> bool
    requires { ply.0 < 64 }
    ensures { IsTrue result ↔ IsIn set ply }
{
    set.0 & (1 << ply.0) != 0
}

/// Tells whether a list is the same from both ends.
pub fn is_palindrome(plies: &[ItemNo]) -> bool
    ensures { IsTrue result ↔ IsPalindrome plies.now }
{
    let n = plies.len();
    for i in 0..n / 2 {
        if plies[i].0 != plies[n - 1 - i].0 {
            return false;
        }
    }
    true
}

/// How often an item stands in a list.
pub fn times(plies: &[ItemNo], item: ItemNo) -> usize
    ensures { result ≡ times_of item plies.now }
{
    plies.iter().filter(|ply| ply.0 == item.0).count()
}

/// Tells whether an item is a ply whose fibres lie along no axis of the wall.
pub fn is_slanted(item: &Item) -> bool
    ensures { IsTrue result ↔ IsSlanted item.now }
{
    match item.kind {
        Kind::Ply => !item.dir.on_axis(),
        Kind::Pair => false,
    }
}

/// Tells whether a slanted ply is among some plies.
pub fn has_slanted(stock: &Stock, plies: &[ItemNo]) -> bool
    requires known { IsKnown stock.now plies.now }
    ensures { IsTrue result ↔ Any IsSlanted (items_of stock.now plies.now) }
{
    for ply in plies {
        if is_slanted(&stock.items()[ply.0 as usize]) {
            return true;
        }
    }
    false
}

/// Tells whether as many plies are the mirror image of a ply as are like it.
pub fn is_balanced(stock: &Stock, plies: &[ItemNo], ply: ItemNo) -> bool
    requires known { IsKnown stock.now plies.now }
    requires ply { ply.0 < length stock.now }
    ensures { IsTrue result ↔ IsBalanced stock.now plies.now ply }
{
    alike(stock, plies, ply) == mirrors(stock, plies, ply)
}

// how many plies are like a ply
fn alike(stock: &Stock, plies: &[ItemNo], ply: ItemNo) -> usize
    requires known { IsKnown stock.now plies.now }
    requires ply { ply.0 < length stock.now }
    ensures { result ≡ count_by (λ other. are_alike stock.now other.0 ply.0) plies.now }
{
    let mut n: usize = 0;
    for other in plies {
        if stock.alike(*other, ply) {
            n += 1;
        }
    }
    n
}

// how many plies are the mirror image of a ply
fn mirrors(stock: &Stock, plies: &[ItemNo], ply: ItemNo) -> usize
    requires known { IsKnown stock.now plies.now }
    requires ply { ply.0 < length stock.now }
    ensures { result ≡ count_by (λ other. are_mirrors stock.now other.0 ply.0) plies.now }
{
    let mut n: usize = 0;
    for other in plies {
        if stock.mirrors(*other, ply) {
            n += 1;
        }
    }
    n
}
