// What a walk keeps.

ghost use Rattle.std.specs.Prelude.{◌≡◌};
ghost use Rattle.lam_tree.specs.Checks.{best_cost};

use lam_tree::{Best, Tree};

/// The nodes that were written, and the cheapest schedule that was found.
#[derive(Drop)]
pub struct State {
    pub tree: Tree,
    pub best: Option<Best>,
}

/// How a walk ends.
#[derive(Clone, Copy, PartialEq, Eq, Debug)]
pub enum Flow {
    /// The tree is whole.
    Whole,
    /// The budget of nodes is used up.
    Cut,
}

impl State {
    /// The least cost of a schedule that may be built, so far.
    pub fn incumbent(&self) -> Option<u64>
        ensures { result ≡ best_cost self.now.best }
    {
        match &self.best {
            Some(best) => Some(best.cost),
            None => None,
        }
    }
}
