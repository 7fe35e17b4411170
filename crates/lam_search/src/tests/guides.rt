//! Guides that are of no help.

ghost use Rattle.std.specs.Prelude.{◌≡◌, ◌+◌, ◌^◌, ◌<◌, IfOk};

use super::*;
use lam_guide::{Choice, Event};
use std::alloc::AllocError;

// how a guide ranks
#[derive(Clone, Copy)]
enum Ranks {
    // all alike, at the greatest
    Greatest,
    // by how much it has heard
    Heard,
    // first and last in turn
    InTurn,
}

// a guide that looks at no choice
#[derive(Drop)]
struct Idle {
    heard: u64,
    ranks: Ranks,
    last: bool,
}

impl Guide for Idle {
    ghost heard_count = { λ guide. guide.heard };

    fn heard(&self) -> u64 {
        self.heard
    }

    fn rank(&mut self, _depth: u8, _choice: &Choice) -> u32 {
        self.last = !self.last;
        match self.ranks {
            Ranks::Greatest => u32::MAX,
            Ranks::Heard => u32::try_from(self.heard).unwrap_or(u32::MAX),
            Ranks::InTurn => u32::from(self.last),
        }
    }

    fn told(&mut self, _event: &Event, _depth: u8, _item: u8) {
        self.heard += 1;
    }
}

// what is found by a guide that looks at no choice, and how many nodes it heard of
fn idly(alloc: Global, ranks: Ranks) -> Result<(Found, u64), Fail> {
    let stock = read_stock(alloc, BOTH.as_bytes())?;
    let job = job_of(alloc, &stock, SHORT)?;
    let idle = Idle {
        heard: 0,
        ranks,
        last: false,
    };
    let mut guide: Box<dyn Guide> = Box::new(alloc, idle)?;
    let found = search(alloc, &job, &stock, 100, &mut guide)?;
    Ok((found, guide.heard()))
}

#[test]
fn a_guide_that_is_of_no_help_changes_no_answer(rt: HostRuntime) -> Result<(), Fail> {
    for ranks in [Ranks::Greatest, Ranks::Heard, Ranks::InTurn] {
        let (found, heard) = idly(rt.alloc(), ranks)?;
        assert_eq!(rt; answer_word(&found), "least");
        assert_eq!(rt; cost(&found), 8);
        assert_eq!(rt; found.tree.nodes().len() as u64, heard);
    }
    Ok(())
}
