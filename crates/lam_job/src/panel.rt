// The panels of a job.

use std::marker::Model;

/// A simply supported flat panel of the wall, compressed along its length.
#[derive(Clone, Copy, Debug)]
pub struct Panel {
    /// The length, in mm.
    pub length: i64,
    /// The width, in mm.
    pub width: i64,
    /// The compressive force per width, in N/m.
    pub load: i64,
    /// How many times the load the panel has to stand, in thousandths.
    pub factor: i64,
}

impl Model for Panel {
    ghost use Rattle.lam_job.specs.JobData.{PanelData};

    ghost Value = { PanelData };

    ghost use Rattle.lam_job.specs.Ranges.{IsPanel};

    ghost view = { λ p. record { length = p.length; width = p.width; load = p.load; factor = p.factor } };

    ghost invariant = { λ p. IsPanel (record { length = p.length; width = p.width; load = p.load; factor = p.factor }) };

    ghost inverse = { λ p. record { length = p.length; width = p.width; load = p.load; factor = p.factor } };
}
