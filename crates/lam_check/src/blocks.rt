// The blocks of a report before its tree.

ghost use Rattle.std.specs.Prelude.{◌≡◌, ◌+◌, ◌*◌, ◌^◌, ◌<◌, ◌≤◌, length, List, OnOk, IfErr, IfSome, Some, None};
ghost use Rattle.lam_job.specs.Design as design;
ghost use Rattle.lam_stock.specs.declared.item.Item.{Item};
ghost use Rattle.lam_stock.specs.Stock.{IsKnown};
ghost use Rattle.lam_job.specs.Schedule.{IsJobFor, wall_of};
ghost use Rattle.lam_judge.specs.inside.Tables.{AreTablesOf};
ghost use Rattle.lam_tree.specs.Checks.{BestChecks, NearChecks};
ghost use Rattle.lam_tree.specs.Promise.{HasPanels, HasRatios};
ghost use Rattle.lam_tree.specs.ReportRanges.{AreListed, IsBlock};
ghost use Rattle.lam_answers.specs.inside.Computed.{computed};
ghost use Rattle.lam_check.specs.Faults.{fault_is};
ghost use Rattle.lam_check.specs.inside.Printing.{IfNamed, IsAsPrinted};

use crate::costs::schedule_cost;
use crate::fault::{CheckCause, CheckFault};
use crate::judging::is_judged;
use crate::printed::{check_panels, check_ratios};
use lam_job::Job;
use lam_judge::{Room, Tables, ratios_by};
use lam_stock::{Stack, Stock};
use lam_tree::{Answer, Best, Ratios, Word};

/// Checks the best schedule, if there is one, line by line from line 4 on. The room is lent
/// for its ratios.
pub fn check_best(
    job: &Job,
    stock: &Stock,
    tables: &Tables,
    best: &Option<Best>,
    ratios: &Ratios,
    panels: &Ratios,
    room: &mut Room,
) -> Result<(), CheckFault>
    requires job_for { IsJobFor stock.now job.now }
    requires tables { AreTablesOf stock.now tables.now }
    requires block { IsBlock stock.now job.now best.now ratios.now panels.now }
    ensures none { OnOk result (BestChecks stock.now job.now (computed stock.now job.now)
        best.now ratios.now panels.now None) }
    ensures fault { IfErr result (λ fault. BestChecks stock.now job.now (computed stock.now job.now)
        best.now ratios.now panels.now (Some (fault_is fault))) }
    ensures so { OnOk result (IfSome best.now
        (IsAsPrinted stock.now job.now ratios.now panels.now)) }
{
    match best {
        Some(best) => check_best_block(job, stock, tables, best, ratios, panels, room),
        None => Ok(()),
    }
}

// checks a best schedule
fn check_best_block(
    job: &Job,
    stock: &Stock,
    tables: &Tables,
    best: &Best,
    ratios: &Ratios,
    panels: &Ratios,
    room: &mut Room,
) -> Result<(), CheckFault>
    requires job_for { IsJobFor stock.now job.now }
    requires tables { AreTablesOf stock.now tables.now }
    requires block { IsBlock stock.now job.now (Some best.now) ratios.now panels.now }
    ensures none { OnOk result (BestChecks stock.now job.now (computed stock.now job.now)
        (Some best.now) ratios.now panels.now None) }
    ensures fault { IfErr result (λ fault. BestChecks stock.now job.now (computed stock.now job.now)
        (Some best.now) ratios.now panels.now (Some (fault_is fault))) }
    ensures so { OnOk result (IsAsPrinted stock.now job.now ratios.now panels.now best.now) }
{
    if best.cost != schedule_cost(job, stock, &best.plies) {
        return Err(CheckFault {
            line: 4,
            cause: CheckCause::Cost,
        });
    }
    if !is_judged(job, stock, tables, &best.plies, Word::Admissible) {
        return Err(CheckFault {
            line: 5,
            cause: CheckCause::Best,
        });
    }
    ratios_by(tables, job, stock, &best.plies, room);
    let plies = wall_size(job, &best.plies);
    if let Err(fault) = check_ratios(room, plies, ratios.items()) {
        return Err(fault);
    }
    check_panels(room, panels.items(), 6 + ratios.items().len() as u32)
}

/// The number of wall plies of a schedule.
pub fn wall_size(job: &Job, listed: &Stack) -> u8
    requires some { 1 ≤ length listed.now }
    requires short { length listed.now ≤ 56 }
    ensures value { (stock : List Item) → IsKnown stock job.now.liner → IsKnown stock listed.now
        → result ≡ length (wall_of stock job.now listed.now) }
    ensures some { 1 ≤ result }
    ensures few { result ≤ 64 }
    ensures cases { length job.now.cases ≤ 16 }
    ensures panels { length job.now.panels ≤ 8 }
{
    let own = listed.items().len() as u8;
    if job.liner_in_wall {
        return job.liner.items().len() as u8 + own;
    }
    own
}

/// Checks the named schedule of an open answer, if there is one, at its line.
pub fn check_near(
    job: &Job,
    stock: &Stock,
    tables: &Tables,
    answer: &Answer,
    line: u32,
) -> Result<(), CheckFault>
    requires job_for { IsJobFor stock.now job.now }
    requires tables { AreTablesOf stock.now tables.now }
    requires listed { IfNamed answer.now (AreListed stock.now) }
    ensures none { OnOk result (NearChecks stock.now job.now (computed stock.now job.now)
        answer.now line None) }
    ensures fault { IfErr result (λ fault. NearChecks stock.now job.now (computed stock.now job.now)
        answer.now line (Some (fault_is fault))) }
{
    match answer {
        Answer::OpenStraddle(near) => {
            if near.cost != schedule_cost(job, stock, &near.plies) {
                return Err(CheckFault {
                    line,
                    cause: CheckCause::Cost,
                });
            }
            if !is_judged(job, stock, tables, &near.plies, Word::Straddles(near.at)) {
                return Err(CheckFault {
                    line,
                    cause: CheckCause::Near,
                });
            }
            Ok(())
        }
        _ => Ok(()),
    }
}
