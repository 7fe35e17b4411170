// What holds of every sample, as the contract of a function that does nothing.

ghost use Rattle.std.specs.Prelude.{ℕ, List};
ghost use Rattle.lam_stock.specs.Scale.{scale_of};
ghost use Rattle.lam_stock.specs.Stock.{IsStock};
ghost use Rattle.lam_stock.specs.declared.item.ItemNo.{ItemNo};
ghost use Rattle.lam_job.specs.Design.{InRangeForAll, IsSequence};
ghost use Rattle.lam_sample.specs.SampleJob.{sample_job};
ghost use Rattle.lam_sample.specs.SampleStock.{sample_stock};

/// The catalogue of every sample keeps what a catalogue keeps, and every schedule that its job allows
/// makes a wall that is in range for both cases.
pub fn samples_are_valid()
    ensures stock { (number : ℕ) → IsStock (sample_stock number) (scale_of (sample_stock number)) }
    ensures range { (number : ℕ) (listed : List ItemNo)
        → IsSequence (sample_stock number) (sample_job number) listed
        → InRangeForAll (sample_stock number) (sample_job number) listed }
{}
