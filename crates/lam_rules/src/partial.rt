// A partial schedule.

ghost use Rattle.std.specs.Prelude.{◌≡◌, ◌≤◌, ◌<◌, ◌-◌, ◌⊎◌, ◌↔◌, [], List, length, IsNone, IfNone, IfSome};
ghost use Rattle.lam_stock.specs.declared.item.Item.{Item};
ghost use Rattle.lam_stock.specs.declared.item.ItemNo.{ItemNo};
ghost use Rattle.lam_stock.specs.Stock.{IsKnown};
ghost use Rattle.lam_job.specs.Partial.{Completes, IsFull, child, half as half_spec, fixed_plies as fixed_spec, completion};

use lam_job::{Job, MOST_PLIES};
use lam_stock::{ItemNo, Stack};
use std::marker::Model;

/// How many plies a schedule lists, and the first of them, from the inside on. It stands for all
/// schedules of that length that begin so and, where symmetric ones are asked, are symmetric: its
/// completions.
#[derive(Drop)]
pub struct Partial {
    /// The number of listed plies, from 1 to 56.
    pub n: u8,
    /// The first plies.
    pub prefix: Stack,
}

impl Model for Partial {
    ghost use Rattle.lam_job.specs.Partial as spec;

    ghost Value = { spec.Partial };

    ghost view = { λ p. record { n = p.n; prefix = p.prefix } };
}

impl Partial {
    /// How many plies are settled.
    pub fn settled(&self) -> u8
        ensures value { result ≡ length self.now.prefix }
        ensures few { result ≤ 64 }
    {
        self.prefix.items().len() as u8
    }

    /// Adds a ply at the end of the prefix.
    pub fn push(&mut self, ply: ItemNo)
        requires { length self.old.prefix < 64 }
        ensures { self.new ≡ child self.old ply }
    {
        self.prefix.push(ply);
    }

    /// Takes the last ply of the prefix off, if there is one.
    pub fn pop(&mut self) -> Option<ItemNo>
        ensures none { IsNone result ↔ (self.old.prefix ≡ []) }
        ensures empty { IfNone result (self.new ≡ self.old) }
        ensures last { IfSome result (λ ply. self.old ≡ child self.new ply) }
    {
        self.prefix.pop()
    }
}

/// How many plies settle a schedule of n plies: where symmetric ones are asked, half of them and
/// the middle one. A partial schedule is full where its prefix has so many.
pub fn half(job: &Job, n: u8) -> u8
    ensures { result ≡ half_spec job.now n }
{
    if job.rules.symmetric { n - n / 2 } else { n }
}

/// The only schedule that can complete a full partial schedule. It does where that is one of 1 to
/// the limit of the job's plies, all of the catalogue.
pub fn complete(job: &Job, partial: &Partial) -> Stack
    requires few { partial.now.n ≤ MOST_PLIES }
    requires full { IsFull job.now partial.now }
    ensures value { result ≡ completion job.now partial.now }
    ensures completes { (stock : List Item) → 1 ≤ partial.now.n → partial.now.n ≤ job.now.limit
        → IsKnown stock partial.now.prefix → Completes stock job.now partial.now result }
    ensures only { (stock : List Item) (listed : List ItemNo)
        → Completes stock job.now partial.now listed → listed ≡ result }
{
    fixed_plies(job, partial)
}

/// The plies that every completion has: the prefix and, where symmetric schedules are asked, the
/// mirror images of its places.
pub fn fixed_plies(job: &Job, partial: &Partial) -> Stack
    requires few { partial.now.n ≤ MOST_PLIES }
    requires within { length partial.now.prefix ≤ partial.now.n }
    ensures plies { result ≡ fixed_spec job.now partial.now }
    ensures few { length result ≤ partial.now.n }
{
    let mut plies = partial.prefix.copied();
    if job.rules.symmetric {
        let prefix = partial.prefix.items();
        let mirrored = mirrored_places(partial.n as usize, prefix.len());
        for i in (0..mirrored).rev() {
            plies.push(prefix[i]);
        }
    }
    plies
}

// how many places of a prefix have a mirror image behind it
fn mirrored_places(n: usize, settled: usize) -> usize
    requires { settled ≤ n }
    ensures first { result ≤ settled }
    ensures rest { result ≤ n - settled }
    ensures value { (result ≡ settled) ⊎ (result ≡ n - settled) }
{
    if n - settled < settled {
        n - settled
    } else {
        settled
    }
}
