// A catalogue and a job, with what is made once for them.

use lam_bounds::Bounds;
use lam_boxes::BoxTables;
use lam_job::Job;
use lam_judge::Tables;
use lam_stock::Stock;

/// A job and the catalogue of its items, with their tables.
#[derive(Clone, Copy)]
pub struct Design<'a> {
    pub job: &'a Job,
    pub stock: &'a Stock,
    pub tables: &'a Tables,
    pub bounds: &'a Bounds,
    pub boxes: &'a BoxTables,
}
