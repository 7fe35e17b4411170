// A catalogue and a job, with what is made once for them.

ghost use Rattle.std.specs.Prelude.{◌≡◌, [], ◌≤◌};

use crate::closing::closes;
use crate::costs::schedule_cost;
use crate::problem::Problem;
use crate::splitting::may_split;
use lam_bounds::Bounds;
use lam_boxes::BoxTables;
use lam_job::Job;
use lam_judge::Tables;
use lam_rules::{Partial, complete, half};
use lam_stock::{Stack, Stock};
use lam_tree::Word;
use std::marker::Model;

/// A catalogue and a job of it, with their tables.
#[derive(Drop)]
pub struct Design<'a> {
    pub job: &'a Job,
    pub stock: &'a Stock,
    pub tables: &'a Tables,
    pub bounds: &'a Bounds,
    pub boxes: &'a BoxTables,
}

impl<'a> Model for Design<'a> {
    ghost use Rattle.lam_check.specs.inside.Given.{Given};
    ghost use Rattle.lam_check.specs.inside.Ready.{IsReady};

    ghost Value = { Given };

    ghost view = { λ d. record { stock = d.stock.now; job = d.job.now } };

    ghost invariant = { λ d. IsReady d.stock.now d.job.now d.tables.now d.bounds.now d.boxes.now };
}

impl Problem for Design<'_> {
    ghost use Rattle.lam_check.specs.inside.Given.{basis_of};

    ghost basis = { basis_of };

    fn items(&self) -> u8 {
        self.stock.items().len() as u8
    }

    fn limit(&self) -> u8 {
        let job = self.job;
        job.limit
    }

    fn half(&self, n: u8) -> u8 {
        half(self.job, n)
    }

    fn no_plies(&self) -> Stack {
        let job = self.job;
        emptied(job.liner.copied())
    }

    fn complete(&self, partial: &Partial) -> Stack {
        complete(self.job, partial)
    }

    fn cost(&self, listed: &Stack) -> u64 {
        schedule_cost(self.job, self.stock, listed)
    }

    fn may_split(&self, incumbent: Option<u64>, partial: &Partial) -> bool {
        may_split(
            self.job,
            self.stock,
            self.bounds,
            self.boxes,
            incumbent,
            partial,
        )
    }

    fn closes(&self, best: Option<u64>, partial: &Partial, word: Word) -> bool {
        closes(
            self.job,
            self.stock,
            self.tables,
            self.bounds,
            self.boxes,
            best,
            partial,
            word,
        )
    }
}

// a list without its plies
fn emptied(plies: Stack) -> Stack
    ensures { result ≡ [] }
{
    let mut left = plies;
    'left: while left.items().len() > 0 {
        let _ = left.pop();
    }
    left
}
