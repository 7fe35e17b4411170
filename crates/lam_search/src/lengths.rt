// The trees of all lengths.

ghost use Rattle.std.specs.Prelude.{◌≡◌, ◌+◌, ◌^◌, ◌<◌, ◌≤◌, [], length, OnOk, IfOk, None};
ghost use Rattle.lam_tree.specs.declared.limits.TheConstants.{MOST_NODES};
ghost use Rattle.lam_search.specs.inside.Held.{IsKept};
ghost use Rattle.lam_search.specs.inside.Ready.{IsReady, basis_at};
ghost use Rattle.lam_search.specs.inside.Steps.{Searched};

use crate::design::Design;
use crate::hints::no_hints;
use crate::position::Position;
use crate::state::{Flow, State};
use crate::walking::walk;
use lam_guide::Guide;
use lam_tree::Seat;
use std::alloc::{AllocError, Global};

/// Walks through the schedules of each length, from 1 to the most that the job allows.
pub fn walk_lengths<G: Guide>(
    alloc: Global,
    design: &Design,
    guide: &mut G,
    budget: u32,
    state: &mut State,
) -> Result<Flow, AllocError>
    requires ready { IsReady design.now }
    requires tree { state.old.tree ≡ [] }
    requires best { state.old.best ≡ None }
    requires most { budget ≤ MOST_NODES }
    requires quiet { G.heard_count guide.old + budget < 2 ^ 63 }
    ensures kept { let m = basis_at design.now in
        OnOk result (IsKept m state.new) }
    ensures few { length state.new.tree ≤ budget }
    ensures heard { G.heard_count guide.new ≡ G.heard_count guide.old + length state.new.tree }
    ensures searched { let m = basis_at design.now in
        IfOk result (λ flow. Searched m budget flow state.old state.new) }
{
    let job = design.job;
    let limit = job.limit;
    for n in 1..limit + 1 {
        let mut place = Position::new(alloc, design, n);
        let flow = walk(
            &mut place,
            guide,
            budget,
            Seat::Length(n),
            no_hints(),
            state,
        )?;
        if let Flow::Cut = flow {
            return Ok(Flow::Cut);
        }
    }
    Ok(Flow::Whole)
}
