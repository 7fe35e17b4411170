// What a tree is checked against.

ghost use Rattle.std.specs.Prelude.{◌≡◌, ◌≢◌, ℕ, ◌≤◌, ◌↔◌, [], length, Option, IsTrue};
ghost use Rattle.lam_stock.specs.Stock.{IsKnown};
ghost use Rattle.lam_job.specs.Partial.{IsFull, half, completion};
ghost use Rattle.lam_job.specs.Schedule.{cost_of};
ghost use Rattle.lam_rules.specs.Conditions.{IsPartial};
ghost use Rattle.lam_tree.specs.Closings.{MaySplit, IsSound};
ghost use Rattle.lam_check.specs.inside.Basis.{Basis};
ghost use Rattle.lam_check.specs.inside.Steps.{IsTrueLeaf};

use lam_job::MOST_PLIES;
use lam_rules::Partial;
use lam_stock::Stack;
use lam_tree::Word;

/// A catalogue and a job, with what is computed of schedules and partial ones.
pub trait Problem {
    ghost basis: { Self → Basis };

    /// The number of items.
    fn items(&self) -> u8
        ensures value { result ≡ length (basis self.now).stock }
        ensures some { 1 ≤ result }
        ensures few { result ≤ 64 };

    /// The most plies that may be listed.
    fn limit(&self) -> u8
        ensures value { result ≡ (basis self.now).job.limit }
        ensures few { result ≤ MOST_PLIES };

    /// How many plies settle a schedule of n plies.
    fn half(&self, n: u8) -> u8
        ensures value { result ≡ half (basis self.now).job n }
        ensures few { result ≤ n };

    /// The empty list.
    fn no_plies(&self) -> Stack
        ensures { result ≡ [] };

    /// The only schedule that can complete a full partial one.
    fn complete(&self, partial: &Partial) -> Stack
        requires partial { IsPartial (basis self.now).stock (basis self.now).job partial.now }
        requires full { IsFull (basis self.now).job partial.now }
        ensures value { result ≡ completion (basis self.now).job partial.now }
        ensures known { IsKnown (basis self.now).stock result };

    /// The cost of a schedule, with the liner.
    fn cost(&self, listed: &Stack) -> u64
        requires { IsKnown (basis self.now).stock listed.now }
        ensures { result ≡ cost_of (basis self.now).stock (basis self.now).job listed.now };

    /// Tells whether a search may split a partial schedule, with the incumbent of the moment.
    fn may_split(&self, incumbent: Option<u64>, partial: &Partial) -> bool
        requires partial { IsPartial (basis self.now).stock (basis self.now).job partial.now }
        requires short { partial.now.n ≤ (basis self.now).job.limit }
        ensures { let m = basis self.now in
            IsTrue result ↔ MaySplit m.stock m.job m.tests incumbent partial.now };

    /// Tells whether the word of a leaf closes a partial schedule, with the cost of the best one.
    fn closes(&self, best: Option<u64>, partial: &Partial, word: Word) -> bool
        requires partial { IsPartial (basis self.now).stock (basis self.now).job partial.now }
        requires short { partial.now.n ≤ (basis self.now).job.limit }
        requires leaf { word ≢ Word.Split }
        ensures value { let m = basis self.now in (incumbent : Option ℕ)
            → IsTrue result ↔ IsSound m.stock m.job m.tests best incumbent partial.now word }
        ensures so { IsTrue result → IsTrueLeaf (basis self.now) best partial.now word };
}
