// The boxes of strains of the cases of a job.

ghost use Rattle.std.specs.Prelude.{◌≡◌, ◌↔◌, ◌<◌, ◌≤◌, ℕ, Some, None, length, slice_get, IsTrue, IsNone, IfSome, IsSomeAnd};
ghost use Rattle.lam_number.specs.inside.FixNumbers.{fix_numbers};
ghost use Rattle.lam_stock.specs.Scale.{scale_of};
ghost use Rattle.lam_stock.specs.Stock.{IsKnown};
ghost use Rattle.lam_job.specs.JobData.{CaseData};
ghost use Rattle.lam_job.specs.LoadOf.{load_of};
ghost use Rattle.lam_job.specs.Partial.{half};
ghost use Rattle.lam_job.specs.Rules.{LinerCarries};
ghost use Rattle.lam_job.specs.Schedule.{IsJobFor};
ghost use Rattle.lam_rules.specs.Conditions.{IsPartial};
ghost use Rattle.lam_tree.specs.Closings.{HasNoMoments, MayBox};
ghost use Rattle.lam_tree.specs.ReportRanges.{IsPlace};
ghost use Rattle.lam_tree.specs.Words.{AllFailAt};
ghost use Rattle.lam_boxes.specs.inside.Boxes as by;
ghost use Rattle.lam_boxes.specs.inside.Boxes.{boxed};
ghost use Rattle.lam_boxes.specs.inside.Parts.{IsMembrane, IsShape};
ghost use Rattle.lam_boxes.specs.inside.Tables.{AreBoxTablesOf};

use crate::boxes::box_under;
use crate::places::first_failing;
use crate::shape::shape_of;
use crate::tables::BoxTables;
use crate::three::Shape;
use lam_job::{Case, Job, Load, resultants};
use lam_number::Fix;
use lam_rules::{Partial, half};
use lam_stock::{Stack, Stock};
use lam_tsai::Place;

/// A place where every completion of a partial schedule that is in range for a case fails, if the box of all their strains
/// under the case shows one. It is sought where symmetric schedules are asked, the liner carries no load and the case has
/// no moments. For many partial schedules make the tables once, and ask `strain_box_by`.
pub fn strain_box(job: &Job, stock: &Stock, partial: &Partial, case: u8) -> Option<Place>
    requires job_for { IsJobFor stock.now job.now }
    requires partial { IsPartial stock.now job.now partial.now }
    requires may { (c : CaseData) → slice_get job.now.cases case ≡ Some c → MayBox job.now c }
    ensures value { result ≡ boxed stock.now job.now partial.now case }
    ensures so { IfSome result (AllFailAt stock.now job.now partial.now) }
{
    strain_box_by(job, stock, &BoxTables::of(stock), partial, case)
}

/// The same, by the tables of the catalogue.
pub fn strain_box_by(
    job: &Job,
    stock: &Stock,
    tables: &BoxTables,
    partial: &Partial,
    case: u8,
) -> Option<Place>
    requires job_for { IsJobFor stock.now job.now }
    requires tables { AreBoxTablesOf stock.now tables.now }
    requires partial { IsPartial stock.now job.now partial.now }
    requires may { (c : CaseData) → slice_get job.now.cases case ≡ Some c → MayBox job.now c }
    ensures value { result ≡ boxed stock.now job.now partial.now case }
    ensures so { IfSome result (AllFailAt stock.now job.now partial.now) }
{
    let _scale = stock.scale();
    if !is_open(job, partial) {
        return None;
    }
    match job.cases.items().get(case as usize) {
        Some(asked) => {
            let shape = shape_of(job, stock, tables, partial);
            place_of(stock, tables, &partial.prefix, &shape, asked, case)
        }
        None => None,
    }
}

/// The first case that a box may be asked of and that shows a place where all completions in range for it fail, as that
/// place.
pub fn first_box(job: &Job, stock: &Stock, tables: &BoxTables, partial: &Partial) -> Option<Place>
    requires job_for { IsJobFor stock.now job.now }
    requires tables { AreBoxTablesOf stock.now tables.now }
    requires partial { IsPartial stock.now job.now partial.now }
    ensures none { IsNone result → (k : ℕ) (c : CaseData) → slice_get job.now.cases k ≡ Some c
        → MayBox job.now c → boxed stock.now job.now partial.now k ≡ None }
    ensures some { IfSome result (λ at. IsSomeAnd (slice_get job.now.cases at.case)
        (λ c. MayBox job.now c × (boxed stock.now job.now partial.now at.case ≡ Some at))) }
    ensures so { IfSome result (AllFailAt stock.now job.now partial.now) }
    ensures range { IfSome result IsPlace }
{
    let _scale = stock.scale();
    if !stays_flat(job) {
        return None;
    }
    if !is_open(job, partial) {
        return None;
    }
    let shape = shape_of(job, stock, tables, partial);
    let cases = job.cases.items();
    for k in 0..cases.len() {
        let place = place_of(stock, tables, &partial.prefix, &shape, &cases[k], k as u8);
        if place.is_some() {
            return place;
        }
    }
    None
}

/// Tells whether the job has the case of a place, a box may be asked of it, and shows this place.
pub fn is_boxed(job: &Job, stock: &Stock, tables: &BoxTables, partial: &Partial, at: Place) -> bool
    requires job_for { IsJobFor stock.now job.now }
    requires tables { AreBoxTablesOf stock.now tables.now }
    requires partial { IsPartial stock.now job.now partial.now }
    ensures value { IsTrue result ↔ IsSomeAnd (slice_get job.now.cases at.case)
        (λ c. MayBox job.now c × (boxed stock.now job.now partial.now at.case ≡ Some at)) }
    ensures so { IsTrue result → AllFailAt stock.now job.now partial.now at }
{
    if !may_box(job, at.case) {
        return false;
    }
    match strain_box_by(job, stock, tables, partial, at.case) {
        Some(found) => found == at,
        None => false,
    }
}

/// Tells whether the job has a case, and a box may be asked of it: where symmetric schedules are asked, the liner carries no
/// load, and the case has no moments.
pub fn may_box(job: &Job, case: u8) -> bool
    ensures { IsTrue result ↔ IsSomeAnd (slice_get job.now.cases case) (MayBox job.now) }
{
    match job.cases.items().get(case as usize) {
        Some(asked) => stays_flat(job) && has_no_moments(&resultants(asked)),
        None => false,
    }
}

// tells whether walls are asked that do not bend where they bear no moment
fn stays_flat(job: &Job) -> bool
    ensures { IsTrue result ↔ (IsTrue job.now.rules.symmetric × (¬ LinerCarries job.now)) }
{
    job.rules.symmetric && !(job.liner_in_wall && job.liner.items().len() > 0)
}

// tells whether some plies are settled, and not all
fn is_open(job: &Job, partial: &Partial) -> bool
    ensures { result ≡ by.is_open job.now partial.now }
{
    let settled = partial.settled();
    settled != half(job, partial.n) && settled != 0
}

// tells whether a load has no moments
fn has_no_moments(load: &Load) -> bool
    ensures { IsTrue result ↔ IsMembrane load.now }
{
    load.mx == 0 && load.my == 0 && load.mxy == 0
}

// the first place that fails in the box of a case without moments
fn place_of(
    stock: &Stock,
    tables: &BoxTables,
    prefix: &Stack,
    shape: &Shape<Fix<60>>,
    case: &Case,
    number: u8,
) -> Option<Place>
    requires known { IsKnown stock.now prefix.now }
    requires tables { AreBoxTablesOf stock.now tables.now }
    requires shape { IsShape (fix_numbers 60) shape.now }
    ensures value { HasNoMoments case.now → result ≡ by.failing_in (fix_numbers 60) stock.now
        prefix.now number case.now.factor
        (by.box_under (fix_numbers 60) (scale_of stock.now) shape.now (load_of case.now.kind)) }
    ensures moments { IfSome result (λ at. HasNoMoments case.now) }
    ensures case { IfSome result (λ at. at.case ≡ number) }
    ensures ply { IfSome result (λ at. at.ply < 64) }
{
    let _plies = prefix.items();
    let load = resultants(case);
    if !has_no_moments(&load) {
        return None;
    }
    let strains = box_under(&stock.scale(), shape, &load)?;
    first_failing(stock, tables, prefix, &strains, case.factor, number)
}
