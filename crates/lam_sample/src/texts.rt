// The texts of a sample.

ghost use Rattle.std.specs.Prelude.{◌≡◌, ◌≤◌, List, Ok, IfOk, string_bytes};
ghost use Rattle.lam_stock.specs.declared.item.Item.{Item};
ghost use Rattle.lam_sample.specs.inside.Bounds.{AreLoads};
ghost use Rattle.lam_sample.specs.SampleJob.{job_with, sample_job};
ghost use Rattle.lam_sample.specs.SampleStock.{sample_stock};
ghost use Rattle.lam_job.specs.JobOf.{job_of};
ghost use Rattle.lam_stock.specs.Catalogue.{stock_of};

use crate::catalogue::catalogue_text;
use crate::document::job_table;
use crate::draws::Draws;
use crate::loads::{Loads, draw_loads};
use std::alloc::{AllocError, Global};

/// The texts of the job file and of the catalogue file that a number gives, in this order: six pairs,
/// and a job of two cases whose list is symmetric and has at most ten plies. The error is that memory
/// ran out.
pub fn sample_texts(alloc: Global, number: u32) -> Result<(String, String), AllocError>
    requires least { 1 ≤ number }
    requires greatest { number ≤ 1000000 }
    ensures job { IfOk result (λ texts.
        job_of (string_bytes texts.0) (sample_stock number) ≡ Ok (sample_job number)) }
    ensures catalogue { IfOk result (λ texts. stock_of (string_bytes texts.1) ≡ Ok (sample_stock number)) }
{
    let mut draws = Draws::from(number);
    let catalogue = catalogue_text(alloc, &mut draws)?;
    let job = job_text(alloc, &draw_loads(&mut draws))?;
    Ok((job, catalogue))
}

// the text of a job with these loads
fn job_text(alloc: Global, loads: &Loads) -> Result<String, AllocError>
    requires { AreLoads loads.now }
    ensures { IfOk result (λ s. (stock : List Item) → job_of (string_bytes s) stock ≡ Ok (job_with loads.now)) }
{
    let table = job_table(alloc, loads)?;
    match toml::table_to_string(alloc, &table) {
        Ok(text) => Ok(text),
        Err(toml::ser::Error::OutOfMemory) => Err(AllocError),
        // The document has no date.
        Err(toml::ser::Error::DateInvalid) => unreachable!(),
    }
}
