//! The laws of the texts of reports, the contracts of functions that do nothing.

ghost use Rattle.std.specs.Prelude.{◌≡◌, ℕ, ◌≤◌, ◌+◌, ◌*◌, List, length};
ghost use Rattle.lam_stock.specs.Stock.{IsKnown};
ghost use Rattle.lam_tree.specs.declared.report.Report.{Report as ReportSpec};
ghost use Rattle.lam_report.specs.ReportGrammar.{Spells};
ghost use Rattle.lam_tree.specs.ReportRanges.{IsReport};
ghost use Rattle.lam_report.specs.ReportText.{report_text};

use crate::read::MOST_BYTES;
use lam_job::Job;
use lam_stock::Stock;
use lam_tree::Report;

/// A report is short: its text has at most 48 bytes for each node and 65,535 besides, and so no
/// more than a report may have that is read.
pub fn reports_are_short(job: &Job, stock: &Stock, report: &Report)
    requires { IsReport stock.now job.now report.now }
    ensures nodes { length (report_text stock.now job.now report.now)
        ≤ 48 * length report.now.tree + 65535 }
    ensures most { length (report_text stock.now job.now report.now) ≤ MOST_BYTES }
{
    let _items = stock.items(); // at most 64, with names of at most 16 bytes
    let _limit = job.limit; // at most 16 cases, 8 panels and 8 plies of a liner
}

/// Bytes spell one report at most.
pub fn reports_are_spelled_once(job: &Job, stock: &Stock)
    requires { IsKnown stock.now job.now.liner }
    ensures { (report other : ReportSpec) (bytes : List ℕ) → Spells stock.now job.now report bytes
        → Spells stock.now job.now other bytes → report ≡ other }
{
    let _items = stock.items(); // with names of their own
    let _limit = job.limit;
}
