//! The guide that takes the thickest item first.

ghost use Rattle.std.specs.Prelude.{◌≡◌, ◌+◌, ◌^◌, ◌<◌};
ghost use Rattle.lam_guide.specs.Ranks.{thickness_rank};

use crate::guide::{Choice, Event, Guide};
use std::marker::Model;

/// Ranks items by their thickness, the thickest first.
#[derive(Debug, Drop)]
pub struct Thickest {
    heard: u64,
}

impl Model for Thickest {
    ghost use Rattle.std.specs.Prelude.{ℕ};

    ghost Value = { ℕ };

    ghost view = { λ guide. guide.heard };
}

impl Thickest {
    /// A guide that was told nothing.
    pub fn new() -> Thickest
        ensures { result ≡ 0 }
    {
        Thickest { heard: 0 }
    }
}

impl Guide for Thickest {
    ghost heard_count = { λ heard. heard };

    fn heard(&self) -> u64 {
        self.heard
    }

    fn rank(&mut self, _depth: u8, choice: &Choice) -> u32
        ensures rank { result ≡ thickness_rank choice.now }
        ensures heard { self.new ≡ self.old }
    {
        u32::MAX - choice.t.clamp(0, u32::MAX as i64) as u32
    }

    fn told(&mut self, _event: &Event, _depth: u8, _item: u8) {
        self.heard += 1;
    }
}
