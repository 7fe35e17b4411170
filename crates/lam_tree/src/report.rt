// What a search reports.

ghost use Rattle.std.specs.Prelude.{◌≡◌, ◌++◌, ◌∷◌, [], OnOk, OnErr};

use crate::spot::Spot;
use crate::tree::Tree;
use lam_stock::Stack;
use std::alloc::{AllocError, Global};
use std::marker::Model;

/// The cheapest schedule that was found.
#[derive(Drop)]
pub struct Best {
    /// The listed plies.
    pub plies: Stack,
    /// Its cost, with the liner.
    pub cost: u64,
}

/// A schedule that hangs, so that the computation does not decide it, and that costs less than the
/// best one.
#[derive(Drop)]
pub struct Near {
    /// The listed plies.
    pub plies: Stack,
    /// Its cost, with the liner.
    pub cost: u64,
    /// Where it hangs.
    pub at: Spot,
}

/// What a search found.
#[derive(Drop)]
pub enum Answer {
    /// A schedule that may be built, and none that may be built costs less.
    Least,
    /// No schedule may be built.
    NoneMeets,
    /// The budget of nodes was used up.
    OpenBudget,
    /// A schedule would be the best one if it may be built, which the computation does not decide.
    OpenStraddle(Near),
}

/// The printed ratios of a schedule, or of its panels, in thousandths.
#[derive(Drop)]
pub struct Ratios {
    items: Vec<u16>,
}

impl Model for Ratios {
    ghost use Rattle.std.specs.Prelude.{ℕ, List};

    ghost Value = { List ℕ };

    ghost view = { λ r. r.items.items };
}

impl Ratios {
    /// The list of what a vector holds, whose memory it keeps.
    pub fn of(items: Vec<u16>) -> Ratios
        ensures { result ≡ items.items }
    {
        Ratios { items }
    }

    /// No ratios yet.
    pub fn new(alloc: Global) -> Ratios
        ensures { result ≡ [] }
    {
        Ratios {
            items: Vec::new(alloc),
        }
    }

    /// Puts a ratio at the end. Want of memory leaves the list as it was.
    pub fn push(&mut self, ratio: u16) -> Result<(), AllocError>
        ensures pushed { OnOk result (self.new ≡ self.old ++ ratio ∷ []) }
        ensures kept { OnErr result (self.new ≡ self.old) }
    {
        self.items.push(ratio)?;
        Ok(())
    }

    /// The ratios, in order.
    pub fn items(&self) -> &[u16]
        ensures { result.now ≡ self.now }
    {
        self.items.as_slice()
    }
}

/// The answer of a search, with what shows it.
#[derive(Drop)]
pub struct Report {
    /// The most nodes that the search was given.
    pub budget: u32,
    /// What it found.
    pub answer: Answer,
    /// The cheapest schedule that it found.
    pub best: Option<Best>,
    /// The printed ratios of that schedule: for each case in order, each wall ply in order.
    pub ratios: Ratios,
    /// The printed ratios of its panels, in order.
    pub panels: Ratios,
    /// The nodes.
    pub tree: Tree,
}

/// What a report says before its tree, and where the tree stands in its bytes.
#[derive(Drop)]
pub struct Head {
    /// As in the report.
    pub budget: u32,
    /// As in the report.
    pub answer: Answer,
    /// As in the report.
    pub best: Option<Best>,
    /// As in the report.
    pub ratios: Ratios,
    /// As in the report.
    pub panels: Ratios,
    /// The number of nodes.
    pub nodes: u32,
    /// The number of the first line of the tree, from 1.
    pub first: u32,
    /// The place of that line's first byte, from 0.
    pub at: usize,
}
