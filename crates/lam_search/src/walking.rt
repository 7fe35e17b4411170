// The tree of a partial schedule.

ghost use Rattle.std.specs.Prelude.{◌≡◌, ◌+◌, ◌^◌, ◌<◌, ◌≤◌, length, OnOk, IfOk};
ghost use Rattle.lam_tree.specs.ReportRanges.{IsSeat};
ghost use Rattle.lam_tree.specs.declared.limits.TheConstants.{MOST_NODES};
ghost use Rattle.lam_search.specs.inside.Here.{basis};
ghost use Rattle.lam_search.specs.inside.Held.{IsKept};
ghost use Rattle.lam_search.specs.inside.Hints.{AreHints};
ghost use Rattle.lam_search.specs.inside.Steps.{Walked};

use crate::hints::Hints;
use crate::order::Order;
use crate::position::Position;
use crate::state::{Flow, State};
use crate::writing::enter;
use lam_guide::{Event, Guide};
use lam_stock::ItemNo;
use lam_tree::{Seat, Word};
use std::alloc::AllocError;

/// Walks through a partial schedule and all that begin as it does: each node is written and told
/// to the guide, until the budget of nodes is used up.
pub fn walk<G: Guide>(
    place: &mut Position<'_>,
    guide: &mut G,
    budget: u32,
    seat: Seat,
    hints: Hints,
    state: &mut State,
) -> Result<Flow, AllocError>
    requires seat { IsSeat (length place.old.stock) seat }
    requires hints { AreHints (basis place.old) place.old.partial hints }
    requires kept { IsKept (basis place.old) state.old }
    requires few { length state.old.tree ≤ budget }
    requires most { budget ≤ MOST_NODES }
    requires quiet { G.heard_count guide.old + budget < 2 ^ 63 + length state.old.tree }
    ensures place { OnOk result (place.new ≡ place.old) }
    ensures kept { OnOk result (IsKept (basis place.old) state.new) }
    ensures few { length state.new.tree ≤ budget }
    ensures heard { G.heard_count guide.new + length state.old.tree
        ≡ G.heard_count guide.old + length state.new.tree }
    ensures walked { IfOk result (λ flow.
        Walked (basis place.old) budget seat place.old.partial flow state.old state.new) }
{
    if state.tree.nodes().len() >= budget as usize {
        return Ok(Flow::Cut);
    }
    let word = place.word(state.incumbent(), hints);
    enter(place, seat, word, state)?;
    tell(guide, place, word);
    let Word::Split = word else {
        return Ok(Flow::Whole);
    };
    let below = place.child_hints(state.incumbent());
    let order = place.order(guide);
    let items = order.items();
    for item in items {
        place.push(*item);
        let flow = walk(place, guide, budget, Seat::Item(*item), below, state)?;
        place.pop();
        if let Flow::Cut = flow {
            return Ok(Flow::Cut);
        }
    }
    Ok(Flow::Whole)
}

// tells the guide what became of a node
fn tell<G: Guide>(guide: &mut G, place: &Position<'_>, word: Word)
    requires { G.heard_count guide.old < 2 ^ 63 }
    ensures { G.heard_count guide.new ≡ G.heard_count guide.old + 1 }
{
    let event = event_of(word);
    guide.told(&event, place.depth(), place.last());
}

// what became of a node with a word
fn event_of(word: Word) -> Event {
    match word {
        Word::Split => Event::Split,
        Word::Admissible => Event::Admissible,
        _ => Event::Closed,
    }
}
