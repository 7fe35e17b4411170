//! The guide that takes the cheapest item first.

ghost use Rattle.std.specs.Prelude.{◌≡◌, ◌+◌, ◌^◌, ◌<◌};
ghost use Rattle.lam_guide.specs.Ranks.{cost_rank};

use crate::guide::{Choice, Event, Guide};
use std::marker::Model;

/// Ranks items by their cost, the cheapest first.
#[derive(Debug, Drop)]
pub struct Cheapest {
    heard: u64,
}

impl Model for Cheapest {
    ghost use Rattle.std.specs.Prelude.{ℕ};

    ghost Value = { ℕ };

    ghost view = { λ guide. guide.heard };
}

impl Cheapest {
    /// A guide that was told nothing.
    pub fn new() -> Cheapest
        ensures { result ≡ 0 }
    {
        Cheapest { heard: 0 }
    }
}

impl Guide for Cheapest {
    ghost heard_count = { λ heard. heard };

    fn heard(&self) -> u64 {
        self.heard
    }

    fn rank(&mut self, _depth: u8, choice: &Choice) -> u32
        ensures rank { result ≡ cost_rank choice.now }
        ensures heard { self.new ≡ self.old }
    {
        u32::try_from(choice.cost).unwrap_or(u32::MAX)
    }

    fn told(&mut self, _event: &Event, _depth: u8, _item: u8) {
        self.heard += 1;
    }
}
