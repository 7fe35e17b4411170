//! The laws of trees and reports, each the contract of a function that does nothing.

ghost use Rattle.lam_tree.specs.Laws.{AcceptedKeepsPromise, ClosedReportsAgree};

/// An accepted report keeps its promise, where the leaves of its tree are true and its best
/// schedule has what is printed of it.
pub fn accepted_keeps_promise()
    ensures { AcceptedKeepsPromise }
{}

/// Two reports of one job that keep their promise, each with a least design or none, have the same
/// answer and cost.
pub fn closed_reports_agree()
    ensures { ClosedReportsAgree }
{}
