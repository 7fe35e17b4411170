// Plies of one item in a row.

ghost use Rattle.std.specs.Prelude.{◌≡◌, ℕ, ◌+◌, ◌<◌, ◌≤◌, ◌↔◌, ◌++◌, ◌∷◌, [], length, List};
ghost use Rattle.lam_stock.specs.declared.item.ItemNo.{ItemNo};
ghost use Rattle.lam_job.specs.Rules.{HasRun};
ghost use Rattle.lam_rules.specs.inside.RunsOf.{AreRunsOf, run_with};

use lam_stock::ItemNo;

/// The runs of a list that grows at its end.
#[derive(Clone, Copy)]
pub struct Runs {
    /// The last ply.
    pub last: Option<ItemNo>,
    /// How many plies at the end are of one item.
    pub at_end: u8,
    /// How many plies in the longest run are of one item.
    pub longest: u8,
}

impl Runs {
    /// The runs of the empty list.
    pub fn new() -> Runs
        ensures { AreRunsOf [] result }
    {
        Runs {
            last: None,
            at_end: 0,
            longest: 0,
        }
    }

    /// The runs of the list with one ply more.
    pub fn with(&self, ply: ItemNo) -> Runs
        requires room { self.now.at_end < 64 }
        ensures runs { (plies : List ItemNo) → AreRunsOf plies self.now
            → AreRunsOf (plies ++ ply ∷ []) result }
        ensures short { result.at_end ≤ self.now.at_end + 1 }
    {
        let at_end = at_end_with(self.last, self.at_end, ply);
        Runs {
            last: Some(ply),
            at_end,
            longest: self.longest.max(at_end),
        }
    }
}

// how long the run at the end is with one ply more
fn at_end_with(last: Option<ItemNo>, at_end: u8, ply: ItemNo) -> u8
    requires room { at_end < 64 }
    ensures { result ≡ run_with last at_end ply }
{
    match last {
        Some(before) => { if before.0 == ply.0 { at_end + 1 } else { 1 } }
        None => 1,
    }
}

/// How long the longest run of one item is: 0 where there is no ply.
pub fn longest_run(plies: &[ItemNo]) -> u8
    requires few { length plies.now ≤ 64 }
    ensures { (n : ℕ) → HasRun n plies.now ↔ (n ≤ result) }
{
    let mut runs = Runs::new();
    for ply in plies {
        runs = runs.with(*ply);
    }
    runs.longest
}
