// What is known of all children of a split.

ghost use Rattle.std.specs.Prelude.{◌<◌, length};
ghost use Rattle.lam_job.specs.Partial.{Partial as PartialSpec, half};
ghost use Rattle.lam_rules.specs.Conditions.{IsPartial};
ghost use Rattle.lam_bounds.specs.inside.RunningSums.{AreSumsOf};
ghost use Rattle.lam_search.specs.inside.Here.{Basis};
ghost use Rattle.lam_search.specs.inside.Hints.{AreHints, AreChildHints, AreCheapChildren};
ghost use Rattle.lam_search.specs.inside.Ready.{IsReady, basis_at};

use crate::design::Design;
use lam_bounds::{Fixed, no_child_is_dear, no_child_is_short};
use lam_rules::Partial;

/// What a balance of forces says of all children of a split, so that it is not asked of each.
#[derive(Clone, Copy)]
pub struct Hints {
    /// None is short.
    pub no_short: bool,
    /// None costs so much.
    pub limit: Option<u64>,
}

/// Nothing is known.
pub fn no_hints() -> Hints
    ensures { (m : Basis) (p : PartialSpec) → AreHints m p result }
{
    Hints {
        no_short: false,
        limit: None,
    }
}

/// What is known of the children of a partial schedule, with the incumbent of the moment.
pub fn child_hints(
    design: &Design,
    fixed: &Fixed,
    partial: &Partial,
    incumbent: Option<u64>,
) -> Hints
    requires ready { IsReady design.now }
    requires partial { IsPartial design.now.stock.now design.now.job.now partial.now }
    requires sums { AreSumsOf design.now.stock.now design.now.job.now partial.now fixed.now }
    requires more { length partial.now.prefix < half design.now.job.now partial.now.n }
    ensures { AreChildHints (basis_at design.now) partial.now result }
{
    let (job, stock, bounds) = (design.job, design.stock, design.bounds);
    Hints {
        no_short: no_child_is_short(job, stock, bounds, fixed, partial),
        limit: cheap_limit(design, fixed, partial, incumbent),
    }
}

// the incumbent, if for no child a balance of forces shows so great a cost
fn cheap_limit(
    design: &Design,
    fixed: &Fixed,
    partial: &Partial,
    incumbent: Option<u64>,
) -> Option<u64>
    requires ready { IsReady design.now }
    requires partial { IsPartial design.now.stock.now design.now.job.now partial.now }
    requires sums { AreSumsOf design.now.stock.now design.now.job.now partial.now fixed.now }
    requires more { length partial.now.prefix < half design.now.job.now partial.now.n }
    ensures { AreCheapChildren (basis_at design.now) partial.now
        result }
{
    let limit = incumbent?;
    if no_child_is_dear(
        design.job,
        design.stock,
        design.bounds,
        fixed,
        partial,
        limit,
    ) {
        return Some(limit);
    }
    None
}
