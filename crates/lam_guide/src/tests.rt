ghost use Rattle.std.specs.Prelude.{◌≡◌, ◌+◌, ◌^◌, ◌<◌, IfOk, OnOk};
ghost use Rattle.std.specs.List.{All};

use super::*;
use std::alloc::{AllocError, Global};
use std::cell::Cell;
use std::rc::Rc;
use std::test::Fail;

fn choice(item: u8, cost: u64, t: i64) -> Choice {
    Choice { item, cost, t }
}

#[test]
fn the_cheapest_and_the_thickest_come_first(rt: HostRuntime) -> Result<(), Fail> {
    let rows = [
        (10, 5_000, 10, 4_294_962_295),
        (4, 2_500, 4, 4_294_964_795),
        (0, 0, 0, 4_294_967_295),
        (4_294_967_295, -1, 4_294_967_295, 4_294_967_295),
        (4_294_967_296, 4_294_967_295, 4_294_967_295, 0),
        (u64::MAX, 4_294_967_296, 4_294_967_295, 0),
        (1, i64::MAX, 1, 0),
        (1, i64::MIN, 1, 4_294_967_295),
    ];
    for (cost, t, by_cost, by_thickness) in rows {
        let choice = choice(7, cost, t);
        assert_eq!(rt; Cheapest::new().rank(1, &choice), by_cost, "cost {cost}");
        assert_eq!(rt;
            Thickest::new().rank(1, &choice),
            by_thickness,
            "thickness {t}"
        );
    }
    Ok(())
}

#[test]
fn the_item_of_most_admissible_schedules_comes_first(rt: HostRuntime) -> Result<(), Fail> {
    let mut learner = Learner::new();
    let events = [
        (Event::Split, 255),
        (Event::Split, 3),
        (Event::Admissible, 63),
        (Event::Closed, 3),
        (Event::Admissible, 3),
        (Event::Admissible, 63),
        (Event::Admissible, 64),
        (Event::Admissible, 255),
    ];
    for (event, item) in events {
        assert!(rt; learner.heard() < 8);
        learner.told(&event, 2, item);
    }
    assert_eq!(rt; learner.heard(), 8);
    let rows = [
        (63, 4_294_967_293),
        (3, 4_294_967_294),
        (0, 4_294_967_295),
        (64, 4_294_967_295),
        (255, 4_294_967_295),
    ];
    for (item, rank) in rows {
        assert_eq!(rt;
            learner.rank(2, &choice(item, 10, 5_000)),
            rank,
            "item {item}"
        );
    }
    Ok(())
}

// A guide that counts the drops of its kind in one cell, and what it was told in one of its own.
struct Counted {
    heard: u64,
    drops: Rc<Cell<u32>>,
    told: Rc<Cell<u32>>,
}

impl Counted {
    fn new(alloc: Global, drops: &Rc<Cell<u32>>) -> Result<Counted, AllocError>
        ensures { IfOk result (λ guide. guide.heard ≡ 0) }
    {
        Ok(Counted {
            heard: 0,
            drops: drops.clone()?,
            told: Rc::new(alloc, Cell::new(0))?,
        })
    }
}

impl Drop for Counted {
    fn drop(self) {
        self.drops.set(self.drops.get().wrapping_add(1));
        let Counted {
            heard: _,
            drops: _,
            told: _,
        } = self;
    }
}

impl Guide for Counted {
    ghost heard_count = { λ guide. guide.heard };

    fn heard(&self) -> u64 {
        self.heard
    }

    fn rank(&mut self, _depth: u8, _choice: &Choice) -> u32 {
        0
    }

    fn told(&mut self, _event: &Event, _depth: u8, _item: u8) {
        self.heard += 1;
        self.told.set(self.told.get().wrapping_add(1));
    }
}

// What a search does with a guide at a node, whatever the guide is.
fn visit<G: Guide>(guide: &mut G) -> u32
    requires { G.heard_count guide.old < 2 ^ 63 }
    ensures { G.heard_count guide.new ≡ G.heard_count guide.old + 1 }
{
    let rank = guide.rank(1, &choice(3, 10, 5_000));
    guide.told(&Event::Admissible, 1, 3);
    rank
}

#[test]
fn every_guide_is_asked_and_told_through_its_bound(rt: HostRuntime) -> Result<(), Fail> {
    let mut cheapest = Cheapest::new();
    let mut thickest = Thickest::new();
    let mut learner = Learner::new();
    assert_eq!(rt; (visit(&mut cheapest), cheapest.heard()), (10, 1));
    assert_eq!(rt;
        (visit(&mut thickest), thickest.heard()),
        (4_294_962_295, 1)
    );
    assert_eq!(rt; (visit(&mut learner), learner.heard()), (4_294_967_295, 1));
    let mut boxed: Box<dyn Guide> = Box::new(rt.alloc(), learner)?;
    assert_eq!(rt; (visit(&mut boxed), boxed.heard()), (4_294_967_294, 2));
    Ok(())
}

// Adds a guide that has heard little to others of the kind.
fn seat(guides: &mut Vec<Box<dyn Guide>>, guide: Box<dyn Guide>) -> Result<(), AllocError>
    requires seated { All (λ g. heard_count g < 2 ^ 62) guides.old.items }
    requires quiet { heard_count guide < 2 ^ 62 }
    ensures { OnOk result (All (λ g. heard_count g < 2 ^ 62) guides.new.items) }
{
    guides.push(guide)?;
    Ok(())
}

// Tells one guide of an event, when the others are dropped, and answers how many were then.
fn tell_one(mut guides: Vec<Box<dyn Guide>>, chosen: usize, drops: &Cell<u32>) -> u32
    requires { All (λ g. heard_count g < 2 ^ 62) guides.items }
{
    if chosen >= guides.len() {
        return 0;
    }
    let mut guide = guides.remove(chosen);
    drop(guides);
    let dropped = drops.get();
    guide.told(&Event::Split, 0, 255);
    drop(guide);
    dropped
}

#[test]
fn boxed_guides_are_dropped_once_each(rt: HostRuntime) -> Result<(), Fail> {
    let alloc = rt.alloc();
    let rows = [(0, [1, 0, 0]), (1, [0, 1, 0]), (2, [0, 0, 1])];
    for (chosen, want) in rows {
        let drops = Rc::new(alloc, Cell::new(0))?;
        let first = Counted::new(alloc, &drops)?;
        let second = Counted::new(alloc, &drops)?;
        let third = Counted::new(alloc, &drops)?;
        let told = [
            first.told.clone()?,
            second.told.clone()?,
            third.told.clone()?,
        ];
        let mut guides: Vec<Box<dyn Guide>> = Vec::new(alloc);
        seat(&mut guides, Box::new(alloc, first)?)?;
        seat(&mut guides, Box::new(alloc, second)?)?;
        seat(&mut guides, Box::new(alloc, third)?)?;
        assert_eq!(rt;
            tell_one(guides, chosen, &drops),
            2,
            "before guide {chosen} is told"
        );
        assert_eq!(rt; drops.get(), 3, "after guide {chosen} is told");
        let heard = [told[0].get(), told[1].get(), told[2].get()];
        assert_eq!(rt; heard, want, "guide {chosen}");
    }
    Ok(())
}
