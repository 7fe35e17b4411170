// What holds of every job that is read, as the contract of a function that does nothing.

ghost use Rattle.std.specs.Prelude.{◌≡◌, ℕ, List, Ok};
ghost use Rattle.lam_stock.specs.declared.item.Item.{Item};
ghost use Rattle.lam_job.specs.JobData.{JobData};
ghost use Rattle.lam_job.specs.JobOf.{job_of};
ghost use Rattle.lam_job.specs.Schedule.{IsJobFor};

/// A job that the bytes of a file are, beside a catalogue, names items of that catalogue alone: in
/// its liner, its sets and its counts.
pub fn jobs_name_known_items()
    ensures { (bytes : List ℕ) (stock : List Item) (job : JobData)
        → job_of bytes stock ≡ Ok job
        → IsJobFor stock job }
{}
