// The check of the report that bytes spell.

ghost use Rattle.std.specs.Prelude.{◌≡◌, ◌⊎◌, ◌↔◌, ◌≤◌, length, drop, Ok, Err, IfOk, IfErr, IsOk};
ghost use Rattle.lam_job.specs.Schedule.{IsJobFor};
ghost use Rattle.lam_tree.specs.Checks.{Accepts, IsFirstFault};
ghost use Rattle.lam_tree.specs.declared.report.Report.{Report};
ghost use Rattle.lam_report.specs.ReportGrammar.{Scans, Spells};
ghost use Rattle.lam_answers.specs.inside.Computed.{computed};
ghost use Rattle.lam_check.specs.Faults.{fault_is};
ghost use Rattle.lam_stream.specs.Checked.{IsAccepted, IsKept, IsRefusedFor};

use crate::tree_lines::TreeLines;
use lam_check::{Accepted, CheckFault, check_lines};
use lam_job::Job;
use lam_judge::Room;
use lam_report::{MOST_BYTES, ReportError, ReportFault, scan_report};
use lam_stock::Stock;
use lam_tree::Head;
use std::alloc::Global;

/// Why bytes are not taken as an accepted report.
#[derive(Clone, Copy, PartialEq, Eq, Debug)]
pub enum Refusal {
    /// Memory is wanting.
    Memory,
    /// The bytes are no report of the job and the catalogue.
    Form(ReportFault),
    /// They are one, and it is not accepted.
    Cause(CheckFault),
}

/// Checks the report that bytes spell, as it stands there: no tree is built. The room is lent
/// for the ratios of the best schedule. Memory is taken for the lists before the tree alone.
pub fn check_bytes(
    alloc: Global,
    job: &Job,
    stock: &Stock,
    bytes: &[u8],
    room: &mut Room,
) -> Result<Accepted, Refusal>
    requires job_for { IsJobFor stock.now job.now }
    requires short { length bytes.now ≤ MOST_BYTES }
    ensures accepted { IfOk result
        (IsAccepted stock.now job.now (computed stock.now job.now) bytes.now) }
    ensures refused { IfErr result
        (IsRefusedFor stock.now job.now (computed stock.now job.now) bytes.now) }
    ensures agrees { (report : Report) → Spells stock.now job.now report bytes.now
        → (result ≡ Err Refusal.Memory)
        ⊎ (IsOk result ↔ Accepts stock.now job.now (computed stock.now job.now) report) }
{
    match scan_report(bytes, job, stock, alloc) {
        Ok(head) => match check_headed(job, stock, &head, bytes, room) {
            Ok(accepted) => Ok(accepted),
            Err(fault) => Err(Refusal::Cause(fault)),
        },
        Err(ReportError::Refused(fault)) => Err(Refusal::Form(fault)),
        Err(ReportError::Memory) => Err(Refusal::Memory),
    }
}

// checks the report of a head that was read of the bytes
fn check_headed(
    job: &Job,
    stock: &Stock,
    head: &Head,
    bytes: &[u8],
    room: &mut Room,
) -> Result<Accepted, CheckFault>
    requires job_for { IsJobFor stock.now job.now }
    requires head { Scans stock.now job.now bytes.now (Ok head.now) }
    ensures kept { (report : Report) → Spells stock.now job.now report bytes.now → IfOk result
        (IsKept stock.now job.now (computed stock.now job.now) report) }
    ensures fault { (report : Report) → Spells stock.now job.now report bytes.now → IfErr result
        (λ fault. IsFirstFault stock.now job.now (computed stock.now job.now) report
        (fault_is fault)) }
    ensures agrees { (report : Report) → Spells stock.now job.now report bytes.now
        → IsOk result ↔ Accepts stock.now job.now (computed stock.now job.now) report }
{
    let items = stock.items().len() as u8;
    let _cases = job.cases.items(); // at most 16
    let mut lines = TreeLines {
        bytes: behind(bytes, head.at),
        items,
    };
    check_lines(job, stock, head, &mut lines, room)
}

// the bytes from a place on
fn behind(bytes: &[u8], at: usize) -> &[u8]
    requires { at ≤ length bytes.now }
    ensures { result.now ≡ drop at bytes.now }
{
    &bytes[at..]
}
