// A partial schedule that grows and shrinks at its end, with what tells the rules that it breaks.

ghost use Rattle.std.specs.Prelude.{◌≡◌, ◌+◌, ◌≤◌, ◌<◌, ◌↔◌, [], length, List, Any, IsNone, IfNone, IfSome, IsSomeAnd, IsTrue, slice_index, ℕ};
ghost use Rattle.lam_stock.specs.declared.item.ItemNo.{ItemNo};
ghost use Rattle.lam_stock.specs.Stock.{IsKnown};
ghost use Rattle.lam_job.specs.Partial.{ForEveryCompletion, SeemsWell, VisiblyBreaksRule, RunsTooLong, CountsTooFew, IsUnfit, child, half as half_spec, greatest_thickness as greatest_spec};
ghost use Rattle.lam_job.specs.Rules.{Breaks};
ghost use Rattle.lam_rules.specs.Conditions.{IsPartial};
ghost use Rattle.lam_rules.specs.LeastVisible.{IsLeastVisible};
ghost use Rattle.lam_rules.specs.inside.RuleOf.{rule_of};
ghost use Rattle.lam_rules.specs.inside.Steps.{AreNumbersOf};

use crate::partial::Partial;
use crate::rule::RuleNo;
use crate::rules::liner_carries;
use crate::step::{Step, first_step, has_few_items, next_places, next_step, with_places};
use crate::thickness::thickest;
use crate::visible_breaks::{has_too_few, starts_wrong, stays_too_thin};
use lam_job::{Job, MOST_PLIES};
use lam_stock::{ItemNo, Stack, Stock};
use std::alloc::Global;
use std::marker::Model;

// one more than the most plies of a schedule: each prefix has its numbers
const STEPS: usize = 57;

// the most items of a catalogue
const TABLE: usize = 64;

/// A partial schedule to which plies are added, and from which they are taken again. What it
/// visibly breaks is told from running numbers, whatever its length.
#[derive(Drop)]
pub struct Growing<'a> {
    job: &'a Job,
    stock: &'a Stock,
    partial: Partial,
    // the numbers of each prefix, the shortest first
    steps: [Step; STEPS],
    // how often each item is fixed
    times: [u8; TABLE],
    // the thickness of the thickest item
    most: i64,
}

impl<'a> Model for Growing<'a> {
    ghost use Rattle.lam_rules.specs.Growing.{Grown};

    ghost Value = { Grown };

    ghost use Rattle.lam_rules.specs.inside.Steps.{AreRunning};

    ghost view = { λ g. record { stock = g.stock.now; job = g.job.now; partial = g.partial } };

    ghost invariant = { λ g. AreRunning g.stock.now g.job.now g.partial g.steps g.times g.most };
}

impl<'a> Growing<'a> {
    /// The partial schedule of n plies of which none is settled.
    pub fn new(alloc: Global, job: &'a Job, stock: &'a Stock, n: u8) -> Growing<'a>
        requires liner { IsKnown stock.now job.now.liner }
        requires some { 1 ≤ n }
        requires few { n ≤ MOST_PLIES }
        ensures { result ≡ record { stock = stock.now; job = job.now; partial = record { n = n; prefix = [] } } }
    {
        has_few_items(stock);
        let step = first_step(job, stock, n);
        Growing {
            job,
            stock,
            partial: Partial {
                n,
                prefix: Stack::new(alloc),
            },
            steps: [step; STEPS],
            times: [0; TABLE],
            most: thickest(stock),
        }
    }

    /// The partial schedule as it is.
    pub fn partial(&self) -> &Partial
        ensures value { result.now ≡ self.now.partial }
        ensures is { IsPartial self.now.stock self.now.job self.now.partial }
    {
        &self.partial
    }

    /// Adds a ply at the end.
    pub fn push(&mut self, ply: ItemNo)
        requires known { ply.0 < length self.old.stock }
        requires open { length self.old.partial.prefix < half_spec self.old.job self.old.partial.n }
        ensures { self.new ≡ record self.old { partial = child self.old.partial ply } }
    {
        let places = next_places(self.job, &self.partial);
        let step = self.grown(ply);
        let settled = self.partial.settled() as usize;
        self.steps[settled + 1] = step;
        self.times[ply.0 as usize] += places;
        self.partial.push(ply);
    }

    // the numbers with one ply more
    fn grown(&self, ply: ItemNo) -> Step
        requires known { ply.0 < length self.now.stock }
        requires open { length self.now.partial.prefix < half_spec self.now.job self.now.partial.n }
        ensures { AreNumbersOf self.now.stock self.now.job (child self.now.partial ply) result }
    {
        next_step(self.job, self.stock, &self.partial, &self.step(), ply)
    }

    // the numbers as they are
    fn step(&self) -> Step
        ensures { AreNumbersOf self.now.stock self.now.job self.now.partial result }
    {
        self.steps[self.partial.settled() as usize]
    }

    /// Takes the last ply off, if there is one.
    pub fn pop(&mut self) -> Option<ItemNo>
        ensures none { IsNone result ↔ (self.old.partial.prefix ≡ []) }
        ensures empty { IfNone result (self.new ≡ self.old) }
        ensures last { IfSome result (λ ply.
            self.old ≡ record self.new { partial = child self.new.partial ply }) }
    {
        let ply = self.partial.pop()?;
        let places = next_places(self.job, &self.partial);
        self.times[ply.0 as usize] -= places;
        Some(ply)
    }

    /// The first rule, in the order of their numbers, that the partial schedule visibly breaks:
    /// every completion breaks it. None where none is seen to be broken.
    pub fn visible(&self) -> Option<RuleNo>
        ensures none { IsNone result ↔ SeemsWell self.now.stock self.now.job self.now.partial }
        ensures least { IfSome result (λ rule.
            IsLeastVisible rule.0 self.now.stock self.now.job self.now.partial) }
        ensures number { IfSome result (λ rule. (1 ≤ rule.0) × (rule.0 ≤ 9)) }
        ensures broken { IfSome result (λ rule. ForEveryCompletion self.now.stock self.now.job
            self.now.partial (Breaks rule.0 self.now.stock self.now.job)) }
    {
        for number in 1..10 {
            if self.shows(number) {
                return Some(RuleNo(number));
            }
        }
        None
    }

    // tells whether it visibly breaks the rule of a number
    fn shows(&self, number: u8) -> bool
        requires some { 1 ≤ number }
        requires most { number ≤ 9 }
        ensures { IsTrue result
            ↔ VisiblyBreaksRule (rule_of number) self.now.stock self.now.job self.now.partial }
    {
        let job = self.job;
        let rules = &job.rules;
        let prefix = self.partial.prefix.items();
        match number {
            1 => starts_wrong(rules.inner, self.stock, prefix),
            2 => rules.symmetric && starts_wrong(rules.outer, self.stock, prefix),
            5 => self.runs_too_long(),
            6 => has_too_few(rules.fewest, self.partial.n),
            7 => stays_too_thin(rules.thickness, self.greatest_thickness()),
            8 => self.counts_fall_short(),
            9 => self.is_unfit(),
            _ => false,
        }
    }

    // run: an item stands too often in a row
    fn runs_too_long(&self) -> bool
        ensures { IsTrue result ↔ RunsTooLong self.now.job.rules.run self.now.partial.prefix }
    {
        run_is_over(self.job, self.step().runs.longest)
    }

    // how thick the wall can get: the fixed plies, and the thickest item at each open place
    fn greatest_thickness(&self) -> i64
        ensures { result ≡ greatest_spec self.now.stock self.now.job self.now.partial }
    {
        let step = self.step();
        with_places(
            step.thickness,
            self.partial.n.saturating_sub(step.places),
            self.most,
        )
    }

    // counts: some item is fixed too often at other places
    fn counts_fall_short(&self) -> bool
        ensures { IsTrue result ↔ CountsTooFew self.now.job self.now.partial }
    {
        let job = self.job;
        let places = self.partial.n.saturating_sub(self.step().places);
        misses_some(job.rules.counts.items(), &self.times, places)
    }

    // panel fitness: a panel is asked, and a liner carries load or a ply is slanted
    fn is_unfit(&self) -> bool
        ensures { IsTrue result ↔ IsUnfit self.now.stock self.now.job self.now.partial.prefix }
    {
        let job = self.job;
        if job.panels.items().len() == 0 {
            return false;
        }
        liner_carries(job) || self.step().slanted
    }
}

// a run is longer than is allowed
fn run_is_over(job: &Job, longest: u8) -> bool
    ensures { IsTrue result ↔ IsSomeAnd job.now.rules.run (λ most. most < longest) }
{
    match job.rules.run {
        Some(most) => most < longest,
        None => false,
    }
}

// of some item too few are fixed, even if it stands at all open places
fn misses_some(asked: &[(ItemNo, u8)], times: &[u8; TABLE], places: u8) -> bool
    ensures { IsTrue result ↔ Any (λ count. slice_index times.now count.0.0 + places < count.1) asked.now }
{
    for count in asked {
        let fixed = times.get(count.0.0 as usize).copied().unwrap_or(0);
        if (fixed as u16) + (places as u16) < count.1 as u16 {
            return true;
        }
    }
    false
}
