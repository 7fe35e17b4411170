// What the items carry of each tried weight, and what the cases demand of it, made once.

ghost use Rattle.std.specs.Prelude.{◌≡◌, ℕ, ◌^◌, ◌<◌, ◌≤◌, length, All, slice_index};
ghost use Rattle.lam_stock.specs.Stock.{IsKnown};
ghost use Rattle.lam_job.specs.Partial.{cheapest as cheapest_spec};
ghost use Rattle.lam_bounds.specs.inside.Demands as by;
ghost use Rattle.lam_bounds.specs.inside.Tables.{HasValues};

use crate::carriers::Carriers;
use crate::demands::demand;
use crate::weights::tried_weights;
use lam_job::{Case, Job};
use lam_stock::Stock;
use lam_support::Weight;

/// One tried weight: what the items of a catalogue carry, and what the cases of a job demand.
#[derive(Clone, Copy)]
pub struct Tried {
    /// What the items carry.
    pub carriers: Carriers,
    /// What each case demands.
    pub demands: [u128; 16],
    /// No case demands more.
    pub greatest_demand: u128,
}

impl Tried {
    ghost use Rattle.lam_bounds.specs.inside.Tables.{IsTried};

    // of a weight
    fn of(job: &Job, stock: &Stock, w: &Weight) -> Tried
        ensures { IsTried stock.now job.now w.now result }
    {
        let demands = demands(job, w);
        Tried {
            carriers: Carriers::of(stock, w),
            demands,
            greatest_demand: greatest(&demands),
        }
    }
}

/// What a walk asks of a job and a catalogue: the tables of each tried weight, and the least and the
/// greatest cost of an item. They are made once and take about 10 KB.
#[derive(Clone, Copy)]
pub struct Bounds {
    pub(crate) costs: [u64; 64],
    pub(crate) tried: [Tried; 12],
    pub(crate) cheapest: u64,
    pub(crate) dearest: u64,
}

impl Bounds {
    ghost use Rattle.lam_bounds.specs.inside.Tables.{AreBoundsOf};

    /// The tables of a job and a catalogue.
    pub fn of(job: &Job, stock: &Stock) -> Bounds
        requires { IsKnown stock.now job.now.liner }
        ensures { AreBoundsOf stock.now job.now result }
    {
        let _scale = stock.scale();
        let _limit = job.limit;
        let weights = tried_weights();
        let mut tried = [Tried::of(job, stock, &weights[0]); 12];
        for k in 1..12 {
            tried[k] = Tried::of(job, stock, &weights[k]);
        }
        Bounds {
            costs: costs(stock),
            tried,
            cheapest: cheapest(stock),
            dearest: dearest(stock),
        }
    }
}

// what each case demands
fn demands(job: &Job, w: &Weight) -> [u128; 16]
    ensures each { HasValues (λ case. by.demand case w.now) job.now.cases result }
    ensures small { All (λ demand. demand ≤ 2 ^ 90) result }
    ensures few { length job.now.cases ≤ length result }
{
    let cases = job.cases.items();
    let mut demands = [0; 16];
    for k in 0..cases.len() {
        demands[k] = demand(&cases[k], w);
    }
    demands
}

// the greatest of some numbers
fn greatest(demands: &[u128]) -> u128
    requires { All (λ demand. demand ≤ 2 ^ 90) demands.now }
    ensures greatest { (k : ℕ) → k < length demands.now → slice_index demands.now k ≤ result }
    ensures small { result ≤ 2 ^ 90 }
{
    let mut most: u128 = 0;
    for demand in demands {
        most = most.max(*demand);
    }
    most
}

/// The cost of each item.
pub fn costs(stock: &Stock) -> [u64; 64]
    ensures { HasValues (λ i. i.cost) stock.now result }
{
    let items = stock.items();
    let mut costs = [0; 64];
    for k in 0..items.len() {
        costs[k] = items[k].cost;
    }
    costs
}

/// The least cost of an item.
pub fn cheapest(stock: &Stock) -> u64
    ensures { result ≡ cheapest_spec stock.now }
{
    let items = stock.items();
    let mut least = items[0].cost;
    for item in items {
        least = least.min(item.cost);
    }
    least
}

// the greatest cost of an item
fn dearest(stock: &Stock) -> u64
    ensures greatest { All (λ i. i.cost ≤ result) stock.now }
    ensures few { result ≤ 1000000000 }
{
    let mut most: u64 = 0;
    for item in stock.items() {
        most = most.max(item.cost);
    }
    most
}
