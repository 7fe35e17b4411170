// What a tree says of the answer.

ghost use Rattle.std.specs.Prelude.{◌≡◌, ◌↔◌, Some, true, IsTrue, IsSome};
ghost use Rattle.lam_check.specs.Says.{SaysSo};
ghost use Rattle.lam_check.specs.inside.Claimed.{Gives, KeepsBudget};

use crate::accepted::Accepted;
use crate::state::Summary;
use lam_tree::Answer;

/// Tells whether there are no more nodes than the budget, and just as many where it is used up.
pub fn keeps_budget(answer: &Answer, nodes: u32, budget: u32) -> bool
    ensures { IsTrue result ↔ KeepsBudget answer.now nodes budget }
{
    match answer {
        Answer::OpenBudget => nodes == budget,
        _ => nodes <= budget,
    }
}

/// Tells whether the cost and the answer are those that the tree gives.
pub fn is_answered(answer: &Answer, best: Option<u64>, summary: &Summary) -> bool
    ensures { IsTrue result ↔ ((best ≡ summary.now.incumbent)
        × Gives answer.now summary.now.whole summary.now.named summary.now.incumbent) }
{
    if !is_same_cost(best, summary.incumbent) {
        return false;
    }
    gives(answer, summary.whole, summary.named, summary.incumbent)
}

// tells whether a tree gives an answer
fn gives(answer: &Answer, whole: bool, named: Option<bool>, incumbent: Option<u64>) -> bool
    ensures { IsTrue result ↔ Gives answer.now whole named incumbent }
{
    match answer {
        Answer::OpenBudget => !whole,
        Answer::OpenStraddle(_) => whole && is_named(named),
        Answer::Least => whole && named.is_none() && incumbent.is_some(),
        Answer::NoneMeets => whole && named.is_none() && incumbent.is_none(),
    }
}

// tells whether the first undecided leaf is the one that is named
fn is_named(named: Option<bool>) -> bool
    ensures { IsTrue result ↔ (named ≡ Some true) }
{
    match named {
        Some(own) => own,
        None => false,
    }
}

// tells whether two costs, if there are any, are the same
fn is_same_cost(a: Option<u64>, b: Option<u64>) -> bool
    ensures { IsTrue result ↔ (a ≡ b) }
{
    match (a, b) {
        (Some(x), Some(y)) => x == y,
        (None, None) => true,
        _ => false,
    }
}

/// What an accepted report says.
pub fn what_is_said(answer: &Answer, best: Option<u64>) -> Accepted
    requires { answer.now ≡ Answer.Least → IsSome best }
    ensures { SaysSo answer.now best result }
{
    match answer {
        Answer::Least => Accepted::Least(best.unwrap()),
        Answer::NoneMeets => Accepted::NoneMeets,
        Answer::OpenBudget => Accepted::Open,
        Answer::OpenStraddle(_) => Accepted::Open,
    }
}
