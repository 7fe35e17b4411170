//! The law of boxes of strains, the contract of a function that does nothing.

ghost use Rattle.lam_rules.specs.Conditions.{IsPartial};
ghost use Rattle.lam_boxes.specs.BoxLaw.{BoxesAreTrue};

use lam_job::Job;
use lam_rules::Partial;
use lam_stock::Stock;

/// Where the box of strains of a partial schedule shows a place, every completion that is in range for the case fails
/// there: by the energy of the wall its mid-plane is strained by no more than the box says, and a symmetric wall that bears
/// no moment does not bend.
pub fn boxes_are_true(job: &Job, stock: &Stock, partial: &Partial)
    requires { IsPartial stock.now job.now partial.now }
    ensures { BoxesAreTrue stock.now job.now partial.now }
{
    let _scale = stock.scale();
    let _limit = job.limit;
}
