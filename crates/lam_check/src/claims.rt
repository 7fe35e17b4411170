// What a report claims before its tree.

ghost use Rattle.std.specs.Prelude.{◌≡◌, ◌+◌, ◌≤◌, length, Some};
ghost use Rattle.lam_job.specs.Schedule.{IsJobFor};
ghost use Rattle.lam_tree.specs.Checks.{best_cost as best_spec, near_lines as near_lines_spec};
ghost use Rattle.lam_tree.specs.ReportRanges.{IsBlock};
ghost use Rattle.lam_check.specs.inside.Claimed.{lines_of_best};

use crate::blocks::wall_size;
use lam_job::Job;
use lam_stock::Stock;
use lam_tree::{Answer, Best, Ratios};

/// What a report says before its tree.
#[derive(Clone, Copy)]
pub struct Claims<'a> {
    pub budget: u32,
    pub answer: &'a Answer,
    pub best: &'a Option<Best>,
    pub ratios: &'a Ratios,
    pub panels: &'a Ratios,
    /// The number of nodes.
    pub nodes: u32,
}

/// How many lines a best schedule has.
pub fn best_lines(job: &Job, stock: &Stock, claims: &Claims) -> u32
    requires job_for { IsJobFor stock.now job.now }
    requires block { IsBlock stock.now job.now claims.now.best.now
        claims.now.ratios.now claims.now.panels.now }
    ensures value { result ≡ lines_of_best claims.now.best.now
        claims.now.ratios.now claims.now.panels.now }
    ensures few { result ≤ 1034 }
{
    match claims.best {
        Some(best) => best_block_lines(job, stock, best, claims.ratios, claims.panels),
        None => 0,
    }
}

// how many lines a best schedule has, with its ratios
fn best_block_lines(job: &Job, stock: &Stock, best: &Best, ratios: &Ratios, panels: &Ratios) -> u32
    requires job_for { IsJobFor stock.now job.now }
    requires block { IsBlock stock.now job.now (Some best.now) ratios.now panels.now }
    ensures value { result ≡ 2 + length ratios.now + length panels.now }
    ensures few { result ≤ 1034 }
{
    let _items = stock.items();
    let _plies = wall_size(job, &best.plies);
    2 + ratios.items().len() as u32 + panels.items().len() as u32
}

/// How many lines a named schedule has.
pub fn near_lines(answer: &Answer) -> u32
    ensures value { result ≡ near_lines_spec answer.now }
    ensures few { result ≤ 2 }
{
    match answer {
        Answer::OpenStraddle(_) => 2,
        _ => 0,
    }
}

/// The cost of the best schedule, if there is one.
pub fn best_cost(best: &Option<Best>) -> Option<u64>
    ensures { result ≡ best_spec best.now }
{
    match best {
        Some(best) => Some(best.cost),
        None => None,
    }
}
