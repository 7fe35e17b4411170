// The check of a report.

ghost use Rattle.std.specs.Prelude.{◌≡◌, ◌↔◌, length, All, Some, IfSome, OnOk, IfOk, IfErr, IsOk};
ghost use Rattle.lam_job.specs.Schedule.{IsJobFor};
ghost use Rattle.lam_tree.specs.Checks.{Accepts, IsFirstFault, best_cost as best_spec};
ghost use Rattle.lam_tree.specs.Promise.{Promise};
ghost use Rattle.lam_tree.specs.Words.{IsTrueOf};
ghost use Rattle.lam_tree.specs.Reading.{read};
ghost use Rattle.lam_tree.specs.ReportRanges.{IsReport};
ghost use Rattle.lam_answers.specs.inside.Computed.{computed};
ghost use Rattle.lam_check.specs.Faults.{fault_is};
ghost use Rattle.lam_check.specs.Headed.{with_nodes};
ghost use Rattle.lam_check.specs.Says.{Says};
ghost use Rattle.lam_check.specs.inside.Claimed.{with_tree};
ghost use Rattle.lam_check.specs.inside.Printing.{IsAsPrinted};

use crate::accepted::Accepted;
use crate::answers::{is_answered, keeps_budget, what_is_said};
use crate::blocks::{check_best, check_near};
use crate::claims::{Claims, best_cost, best_lines, near_lines};
use crate::design::Design;
use crate::fault::{CheckCause, CheckFault};
use crate::lines::{Lines, Nodes};
use crate::tree::read_tree;
use lam_bounds::Bounds;
use lam_boxes::BoxTables;
use lam_job::Job;
use lam_judge::{Room, Tables};
use lam_stock::Stock;
use lam_tree::{Head, Report};

/// Checks a report: its best schedule line by line, the named one, the lines of its tree in order,
/// its budget, and its answer. The room is lent for the ratios of the best schedule. An accepted
/// report keeps its promise.
pub fn check(
    job: &Job,
    stock: &Stock,
    report: &Report,
    room: &mut Room,
) -> Result<Accepted, CheckFault>
    requires job_for { IsJobFor stock.now job.now }
    requires report { IsReport stock.now job.now report.now }
    ensures accepts { IsOk result
        ↔ Accepts stock.now job.now (computed stock.now job.now) report.now }
    ensures fault { IfErr result (λ fault. IsFirstFault stock.now job.now
        (computed stock.now job.now) report.now (fault_is fault)) }
    ensures says { IfOk result (Says report.now) }
    ensures promise { OnOk result (Promise stock.now job.now
        report.now.budget report.now) }
{
    let claims = Claims {
        budget: report.budget,
        answer: &report.answer,
        best: &report.best,
        ratios: &report.ratios,
        panels: &report.panels,
        nodes: report.tree.nodes().len() as u32,
    };
    let mut lines = Nodes {
        nodes: report.tree.nodes(),
        at: 0,
    };
    check_claims(job, stock, &claims, &mut lines, room)
}

/// Checks a report whose tree is read line by line, as `check` does.
pub fn check_lines<L: Lines>(
    job: &Job,
    stock: &Stock,
    head: &Head,
    lines: &mut L,
    room: &mut Room,
) -> Result<Accepted, CheckFault>
    requires job_for { IsJobFor stock.now job.now }
    requires report { IsReport stock.now job.now (with_nodes head.now (L.rest lines.old)) }
    requires nodes { head.now.nodes ≡ length (L.rest lines.old) }
    ensures accepts { IsOk result ↔ Accepts stock.now job.now (computed stock.now job.now)
        (with_nodes head.now (L.rest lines.old)) }
    ensures fault { IfErr result (λ fault. IsFirstFault stock.now job.now
        (computed stock.now job.now) (with_nodes head.now (L.rest lines.old)) (fault_is fault)) }
    ensures says { IfOk result (Says (with_nodes head.now (L.rest lines.old))) }
    ensures promise { OnOk result (Promise stock.now job.now head.now.budget
        (with_nodes head.now (L.rest lines.old))) }
{
    let claims = Claims {
        budget: head.budget,
        answer: &head.answer,
        best: &head.best,
        ratios: &head.ratios,
        panels: &head.panels,
        nodes: head.nodes,
    };
    check_claims(job, stock, &claims, lines, room)
}

// checks what a report says and the lines of its tree
fn check_claims<L: Lines>(
    job: &Job,
    stock: &Stock,
    claims: &Claims,
    lines: &mut L,
    room: &mut Room,
) -> Result<Accepted, CheckFault>
    requires job_for { IsJobFor stock.now job.now }
    requires report { IsReport stock.now job.now (with_tree claims.now (L.rest lines.old)) }
    requires nodes { claims.now.nodes ≡ length (L.rest lines.old) }
    ensures accepts { IsOk result ↔ Accepts stock.now job.now (computed stock.now job.now)
        (with_tree claims.now (L.rest lines.old)) }
    ensures fault { IfErr result (λ fault. IsFirstFault stock.now job.now
        (computed stock.now job.now) (with_tree claims.now (L.rest lines.old)) (fault_is fault)) }
    ensures says { IfOk result (Says (with_tree claims.now (L.rest lines.old))) }
    ensures promise { OnOk result (Promise stock.now job.now claims.now.budget
        (with_tree claims.now (L.rest lines.old))) }
{
    if let Err(fault) = find(job, stock, claims, lines, room) {
        return Err(fault);
    }
    Ok(what_is_said(claims.answer, best_cost(claims.best)))
}

// finds the first fault, if there is one
fn find<L: Lines>(
    job: &Job,
    stock: &Stock,
    claims: &Claims,
    lines: &mut L,
    room: &mut Room,
) -> Result<(), CheckFault>
    requires job_for { IsJobFor stock.now job.now }
    requires report { IsReport stock.now job.now (with_tree claims.now (L.rest lines.old)) }
    requires nodes { claims.now.nodes ≡ length (L.rest lines.old) }
    ensures none { OnOk result (Accepts stock.now job.now (computed stock.now job.now)
        (with_tree claims.now (L.rest lines.old))) }
    ensures fault { IfErr result (λ fault. IsFirstFault stock.now job.now
        (computed stock.now job.now) (with_tree claims.now (L.rest lines.old)) (fault_is fault)) }
    ensures leaves { OnOk result (All (λ v. IsTrueOf stock.now job.now
        (best_spec claims.now.best.now) v.partial v.word)
        (read stock.now job.now (L.rest lines.old)).visits) }
    ensures printed { OnOk result (IfSome claims.now.best.now
        (IsAsPrinted stock.now job.now claims.now.ratios.now claims.now.panels.now)) }
{
    let tables = Tables::of(stock);
    if let Err(fault) = check_best(
        job,
        stock,
        &tables,
        claims.best,
        claims.ratios,
        claims.panels,
        room,
    ) {
        return Err(fault);
    }
    let near_line = 4 + best_lines(job, stock, claims);
    if let Err(fault) = check_near(job, stock, &tables, claims.answer, near_line) {
        return Err(fault);
    }
    let bounds = Bounds::of(job, stock);
    let boxes = BoxTables::of(stock);
    let design = Design {
        job,
        stock,
        tables: &tables,
        bounds: &bounds,
        boxes: &boxes,
    };
    let nodes_line = near_line + near_lines(claims.answer);
    let best = best_cost(claims.best);
    let summary = match read_tree(&design, claims.answer, best, lines, nodes_line + 1) {
        Ok(summary) => summary,
        Err(fault) => return Err(fault),
    };
    if !keeps_budget(claims.answer, claims.nodes, claims.budget) {
        return Err(CheckFault {
            line: nodes_line,
            cause: CheckCause::Budget,
        });
    }
    if !is_answered(claims.answer, best, &summary) {
        return Err(CheckFault {
            line: 3,
            cause: CheckCause::Answer,
        });
    }
    Ok(())
}
