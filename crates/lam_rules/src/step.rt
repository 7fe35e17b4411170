// The running numbers of a partial schedule.

ghost use Rattle.std.specs.Prelude.{◌≡◌, ◌≤◌, ◌<◌, ◌||◌, [], length, pos, ◌≤ℤ◌, ◌+ℤ◌, ◌*ℤ◌};
ghost use Rattle.lam_stock.specs.Stock.{IsKnown};
ghost use Rattle.lam_job.specs.Partial.{child, half as half_spec};
ghost use Rattle.lam_rules.specs.Conditions.{IsPartial};
ghost use Rattle.lam_rules.specs.inside.Steps.{AreNumbersOf, places_fixed};

use crate::lists::is_slanted;
use crate::partial::Partial;
use crate::runs::Runs;
use crate::thickness::thickness;
use lam_job::Job;
use lam_stock::{ItemNo, Stock};

/// What is known of a partial schedule, for the rules that it may be seen to break.
#[derive(Clone, Copy)]
pub struct Step {
    /// The runs of its prefix.
    pub runs: Runs,
    /// Tells whether a slanted ply is in its prefix.
    pub slanted: bool,
    /// How many plies are fixed.
    pub places: u8,
    /// The thickness of the wall of the fixed plies, in µm.
    pub thickness: i64,
}

/// The numbers of the partial schedule of n plies of which none is settled.
pub fn first_step(job: &Job, stock: &Stock, n: u8) -> Step
    requires liner { IsKnown stock.now job.now.liner }
    ensures { AreNumbersOf stock.now job.now (record { n = n; prefix = [] }) result }
{
    Step {
        runs: Runs::new(),
        slanted: false,
        places: 0,
        thickness: thickness(job, stock, &[]),
    }
}

/// The numbers of a partial schedule with one ply more.
pub fn next_step(job: &Job, stock: &Stock, partial: &Partial, step: &Step, ply: ItemNo) -> Step
    requires partial { IsPartial stock.now job.now partial.now }
    requires open { length partial.now.prefix < half_spec job.now partial.now.n }
    requires known { ply.0 < length stock.now }
    requires numbers { AreNumbersOf stock.now job.now partial.now step.now }
    ensures { AreNumbersOf stock.now job.now (child partial.now ply) result }
{
    let item = &stock.items()[ply.0 as usize];
    let more = next_places(job, partial);
    Step {
        runs: step.runs.with(ply),
        slanted: either(step.slanted, is_slanted(item)),
        places: step.places + more,
        thickness: with_places(step.thickness, more, item.lamina.t),
    }
}

/// How many places the next ply of a partial schedule fixes: two where it has a mirror image of
/// its own.
pub fn next_places(job: &Job, partial: &Partial) -> u8
    ensures value { result
        ≡ places_fixed job.now.rules.symmetric partial.now.n (length partial.now.prefix) }
    ensures few { result ≤ 2 }
{
    if job.rules.symmetric && partial.settled() < partial.n / 2 {
        2
    } else {
        1
    }
}

// one of two, or both
fn either(a: bool, b: bool) -> bool
    ensures { result ≡ (a || b) }
{
    a || b
}

/// The thickness of a wall with as many plies more, each of a thickness, in µm.
pub fn with_places(thickness: i64, places: u8, t: i64) -> i64
    requires least { pos 0 ≤ℤ thickness }
    requires greatest { thickness ≤ℤ pos 10000000 }
    requires some { pos 0 ≤ℤ t }
    requires most { t ≤ℤ pos 20000 }
    ensures { result ≡ thickness +ℤ (pos places *ℤ t) }
{
    thickness + i64::from(places) * t
}

/// A catalogue has at most 64 items.
pub fn has_few_items(stock: &Stock)
    ensures { length stock.now ≤ 64 }
{
    stock.items();
}
