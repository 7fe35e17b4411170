//! The guide that takes first the item that most often ended an admissible schedule.

ghost use Rattle.std.specs.Prelude.{◌≡◌, ◌+◌, ◌^◌, ◌<◌};
ghost use Rattle.lam_guide.specs.Ranks.{credit_rank};
ghost use Rattle.std.specs.List.{All};
ghost use Rattle.lam_guide.specs.Credits.{new_learner, after_event, with_credit};

use crate::guide::{Choice, Event, Guide};
use std::marker::Model;

/// The most items of a catalogue.
const MOST_ITEMS: usize = 64;

/// Ranks items by how often it was told that a schedule which ends with the item is admissible, most
/// often first.
#[derive(Debug, Drop)]
pub struct Learner {
    heard: u64,
    credits: [u64; MOST_ITEMS],
}

impl Model for Learner {
    ghost use Rattle.std.specs.Prelude.{◌≤◌};
    ghost use Rattle.std.specs.List.{All};
    ghost use Rattle.lam_guide.specs.Credits.{Learned};

    ghost Value = { Learned };

    ghost view = { λ guide. record { heard = guide.heard; credits = guide.credits } };

    ghost invariant = { λ guide. All (λ credit. credit ≤ guide.heard) guide.credits };
}

impl Learner {
    /// A guide that was told nothing.
    pub fn new() -> Learner
        ensures { result ≡ new_learner }
    {
        Learner {
            heard: 0,
            credits: [0; MOST_ITEMS],
        }
    }
}

impl Guide for Learner {
    ghost heard_count = { λ learned. learned.heard };

    fn heard(&self) -> u64 {
        self.heard
    }

    fn rank(&mut self, _depth: u8, choice: &Choice) -> u32
        ensures rank { result ≡ credit_rank self.old choice.now }
        ensures heard { self.new ≡ self.old }
    {
        let credit = self.credits.get(choice.item as usize).copied().unwrap_or(0);
        u32::MAX - u32::try_from(credit).unwrap_or(u32::MAX)
    }

    fn told(&mut self, event: &Event, _depth: u8, item: u8)
        requires { self.old.heard < 2 ^ 63 }
        ensures learned { self.new ≡ after_event event.now item self.old }
        ensures heard { self.new.heard ≡ self.old.heard + 1 }
    {
        if let Event::Admissible = event {
            give_credit(&mut self.credits, item as usize);
        }
        self.heard += 1;
    }
}

// One more credit for the item, if it has a place.
fn give_credit(credits: &mut [u64; MOST_ITEMS], item: usize)
    requires { All (λ credit. credit < 2 ^ 63) credits.old }
    ensures { credits.new ≡ with_credit item credits.old }
{
    if item < MOST_ITEMS {
        credits[item] += 1;
    }
}
