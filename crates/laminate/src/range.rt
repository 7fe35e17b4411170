//! The first case whose load is out of range for the wall of a schedule.

ghost use Rattle.std.specs.Prelude.{◌≤◌, ◌<◌, length, All, IfNone, IfSome};
ghost use Rattle.lam_job.specs.Design.{InRangeForAll};
ghost use Rattle.lam_judge.specs.Judgements.{IsFirstOut, IsSchedule};
ghost use Rattle.laminate.specs.inside.Ranges.{IsFirstBeyond, IsWithin};

use lam_job::{Case, Job, resultants};
use lam_stock::{Scale, Stack, Stock};
use lam_wall::{in_range, thickness, wall_plies};

/// The first case for which the wall is out of range, counted from 0.
pub fn first_out(job: &Job, stock: &Stock, listed: &Stack) -> Option<u8>
    requires { IsSchedule stock.now job.now listed.now }
    ensures none { IfNone result (InRangeForAll stock.now job.now listed.now) }
    ensures first { IfSome result (IsFirstOut stock.now job.now listed.now) }
    ensures few { IfSome result (λ case. case < 16) }
{
    let wall = wall_plies(job, listed);
    let h = thickness(stock, &wall);
    first_beyond(&stock.scale(), h, job.cases.items())
}

/// The first case whose load is out of range for a thickness in µm.
fn first_beyond(scale: &Scale, h: i64, cases: &[Case]) -> Option<u8>
    requires { length cases.now ≤ 16 }
    ensures none { IfNone result (All (IsWithin scale.now.floor h) cases.now) }
    ensures first { IfSome result (IsFirstBeyond scale.now.floor h cases.now) }
    ensures few { IfSome result (λ case. case < 16) }
{
    for number in 0..cases.len() {
        let load = resultants(&cases[number]);
        if !in_range(scale, h, &load) {
            return Some(number as u8);
        }
    }
    None
}
