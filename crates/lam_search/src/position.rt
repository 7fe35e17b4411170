// Where a walk is: a partial schedule, with what is kept of it by adding and taking one ply.

ghost use Rattle.std.specs.Prelude.{◌≡◌, ◌≤◌, ◌<◌, ◌++◌, ◌∷◌, [], length};
ghost use Rattle.lam_stock.specs.declared.item.ItemNo.{ItemNo as ItemNoSpec};
ghost use Rattle.lam_job.specs.Partial.{Partial as PartialSpec, IsFull, child, half as half_spec, completion};
ghost use Rattle.lam_job.specs.Schedule.{cost_of};
ghost use Rattle.lam_tree.specs.ReportRanges.{AreListed};
ghost use Rattle.lam_tree.specs.Reading.{root};
ghost use Rattle.lam_search.specs.inside.Here.{basis};
ghost use Rattle.lam_search.specs.inside.Held.{IsHeld};
ghost use Rattle.lam_search.specs.inside.Hints.{AreHints, AreChildHints};
ghost use Rattle.lam_search.specs.inside.Ordered.{IsEachOnce};
ghost use Rattle.lam_search.specs.inside.Ready.{IsReady, IsSeen};

use crate::closings::{is_full, word_at};
use crate::design::Design;
use crate::hints::{Hints, child_hints};
use crate::order::Order;
use lam_bounds::Fixed;
use lam_guide::Guide;
use lam_rules::{Growing, Partial, RuleNo, breaks, complete};
use lam_stock::{ItemNo, Stack};
use lam_tree::{MOST_COST, Word};
use std::alloc::Global;
use std::marker::Model;

/// A partial schedule of a job, to which plies are added, and from which they are taken again.
#[derive(Drop)]
pub struct Position<'a> {
    design: Design<'a>,
    growing: Growing<'a>,
    fixed: Fixed,
}

impl<'a> Model for Position<'a> {
    ghost use Rattle.lam_search.specs.inside.Here.{Here};
    ghost use Rattle.lam_search.specs.inside.Ready.{IsAt};

    ghost Value = { Here };

    ghost view = { λ p. record {
      stock = p.design.stock.now;
      job = p.design.job.now;
      partial = p.growing.partial;
    } };

    ghost invariant = { λ p. IsAt p.design p.growing p.fixed };
}

impl<'a> Position<'a> {
    /// The partial schedule of n plies of which none is settled.
    pub fn new(alloc: Global, design: &Design<'a>, n: u8) -> Position<'a>
        requires ready { IsReady design.now }
        requires some { 1 ≤ n }
        requires short { n ≤ design.now.job.now.limit }
        ensures { result ≡ record {
          stock = design.now.stock.now;
          job = design.now.job.now;
          partial = root n;
        } }
    {
        let growing = Growing::new(alloc, design.job, design.stock, n);
        let fixed = Fixed::of(design.job, design.stock, design.bounds, growing.partial());
        Position {
            design: *design,
            growing,
            fixed,
        }
    }

    /// How many plies are settled.
    pub fn depth(&self) -> u8
        ensures { result ≡ length self.now.partial.prefix }
    {
        self.growing.partial().settled()
    }

    /// The number of the last ply, and 255 where none is settled.
    pub fn last(&self) -> u8 {
        match self.growing.partial().prefix.items().last() {
            Some(item) => item.0,
            None => u8::MAX,
        }
    }

    /// The word that closes the partial schedule, or that of a split.
    pub fn word(&self, incumbent: Option<u64>, hints: Hints) -> Word
        requires { AreHints (basis self.now) self.now.partial hints }
        ensures { IsHeld (basis self.now) incumbent self.now.partial result }
    {
        let seen = self.seen();
        word_at(
            &self.design,
            &self.fixed,
            self.growing.partial(),
            seen,
            incumbent,
            hints,
        )
    }

    // the first rule that it breaks, or is seen to break
    fn seen(&self) -> Option<RuleNo>
        ensures { IsSeen self.now.stock self.now.job self.now.partial result }
    {
        let partial = self.growing.partial();
        if is_full(&self.design, partial) {
            let listed = complete(self.design.job, partial);
            return breaks(self.design.job, self.design.stock, &listed);
        }
        self.growing.visible()
    }

    /// What is known of its children, with the incumbent of the moment.
    pub fn child_hints(&self, incumbent: Option<u64>) -> Hints
        requires { length self.now.partial.prefix < half_spec self.now.job self.now.partial.n }
        ensures { AreChildHints (basis self.now) self.now.partial result }
    {
        child_hints(&self.design, &self.fixed, self.growing.partial(), incumbent)
    }

    /// Its children, in the order of a guide's ranks.
    pub fn order<G: Guide>(&self, guide: &mut G) -> Order
        ensures once { IsEachOnce (length self.now.stock) result }
        ensures heard { G.heard_count guide.new ≡ G.heard_count guide.old }
    {
        Order::of(self.design.stock, guide, self.depth())
    }

    /// The cost of its fixed plies, with the liner: where it is full, that of its completion.
    pub fn cost(&self) -> u64
        ensures value { result
            ≡ cost_of self.now.stock self.now.job (completion self.now.job self.now.partial) }
        ensures small { result ≤ MOST_COST }
    {
        self.fixed.cost()
    }

    /// Its completion.
    pub fn completion(&self) -> Stack
        requires { IsFull self.now.job self.now.partial }
        ensures value { result ≡ completion self.now.job self.now.partial }
        ensures listed { AreListed self.now.stock result }
        ensures short { length result ≤ self.now.job.limit }
    {
        complete(self.design.job, self.growing.partial())
    }

    /// Goes down to a child.
    pub fn push(&mut self, item: ItemNo)
        requires known { item.0 < length self.old.stock }
        requires more { length self.old.partial.prefix
            < half_spec self.old.job self.old.partial.n }
        ensures { self.new ≡ record self.old { partial = child self.old.partial item } }
    {
        let design = &self.design;
        self.fixed.push(
            design.job,
            design.stock,
            design.bounds,
            self.growing.partial(),
            item,
        );
        self.growing.push(item);
    }

    /// Goes up from a child.
    pub fn pop(&mut self)
        ensures { (p : PartialSpec) (item : ItemNoSpec) → self.old.partial ≡ child p item
            → self.new ≡ record self.old { partial = p } }
    {
        if let Some(item) = self.growing.pop() {
            let design = &self.design;
            self.fixed.pop(
                design.job,
                design.stock,
                design.bounds,
                self.growing.partial(),
                item,
            );
        }
    }
}
