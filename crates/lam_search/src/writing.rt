// A node is written.

ghost use Rattle.std.specs.Prelude.{◌≡◌, ◌<◌, ◌∷◌, [], length, IfSome, OnOk, OnErr};
ghost use Rattle.lam_tree.specs.Closings.{incumbent_with};
ghost use Rattle.lam_tree.specs.Checks.{best_cost, is_cheaper as is_cheaper_spec};
ghost use Rattle.lam_tree.specs.ReportRanges.{IsSeat};
ghost use Rattle.lam_search.specs.inside.Here.{basis};
ghost use Rattle.lam_search.specs.inside.Held.{IsHeld, IsGood, IsKept};
ghost use Rattle.lam_search.specs.inside.Steps.{Added};

use crate::position::Position;
use crate::state::State;
use lam_tree::{Best, MOST_NODES, Node, Seat, Word};
use std::alloc::AllocError;

/// Writes the node of a partial schedule, whose word holds, and keeps its completion where that is
/// the cheapest one that may be built so far.
pub fn enter(
    place: &Position<'_>,
    seat: Seat,
    word: Word,
    state: &mut State,
) -> Result<(), AllocError>
    requires held { IsHeld (basis place.now) (best_cost state.old.best) place.now.partial word }
    requires kept { IsKept (basis place.now) state.old }
    requires room { length state.old.tree < MOST_NODES }
    requires seat { IsSeat (length place.now.stock) seat }
    ensures entered { OnOk result (Added (basis place.now) state.old state.new
        (record { seat = seat; word = word } ∷ [])
        (record { partial = place.now.partial; word = word } ∷ [])) }
    ensures kept { OnOk result (IsKept (basis place.now) state.new) }
    ensures err { OnErr result (state.new.tree ≡ state.old.tree) }
{
    keep(place, word, state);
    state.tree.push(Node { seat, word })?;
    Ok(())
}

// keeps the completion where it is the cheapest one
fn keep(place: &Position<'_>, word: Word, state: &mut State)
    requires held { IsHeld (basis place.now) (best_cost state.old.best) place.now.partial word }
    requires best { IfSome state.old.best (IsGood (basis place.now)) }
    ensures tree { state.new.tree ≡ state.old.tree }
    ensures incumbent { best_cost state.new.best ≡ incumbent_with place.now.stock
        place.now.job (best_cost state.old.best) place.now.partial word }
    ensures best { IfSome state.new.best (IsGood (basis place.now)) }
{
    match word {
        Word::Admissible => keep_best(place, state),
        _ => {}
    }
}

// keeps the completion, which may be built, where it is cheaper than the best one so far
fn keep_best(place: &Position<'_>, state: &mut State)
    requires held { IsHeld (basis place.now) (best_cost state.old.best) place.now.partial
        Word.Admissible }
    requires best { IfSome state.old.best (IsGood (basis place.now)) }
    ensures tree { state.new.tree ≡ state.old.tree }
    ensures incumbent { best_cost state.new.best ≡ incumbent_with place.now.stock
        place.now.job (best_cost state.old.best) place.now.partial Word.Admissible }
    ensures best { IfSome state.new.best (IsGood (basis place.now)) }
{
    let cost = place.cost();
    if is_cheaper(cost, state.incumbent()) {
        state.best = Some(Best {
            plies: place.completion(),
            cost,
        });
    }
}

/// Tells whether a cost is below the best one, if there is one.
pub fn is_cheaper(cost: u64, incumbent: Option<u64>) -> bool
    ensures { result ≡ is_cheaper_spec cost incumbent }
{
    match incumbent {
        Some(least) => cost < least,
        None => true,
    }
}
