// The job.

use crate::case::Case;
use crate::entries::Entries;
use crate::panel::Panel;
use crate::rules::RuleSet;
use lam_stock::Stack;
use std::marker::Model;

/// What a design has to meet.
#[derive(Drop)]
pub struct Job {
    /// The most plies that a design may list.
    pub limit: u8,
    /// The plies that lie inside of the listed ones.
    pub liner: Stack,
    /// Tells whether the liner carries load.
    pub liner_in_wall: bool,
    /// What the listed plies have to keep.
    pub rules: RuleSet,
    /// What the wall is loaded with.
    pub cases: Entries<Case>,
    /// Where the wall must not buckle.
    pub panels: Entries<Panel>,
}

impl Model for Job {
    ghost use Rattle.lam_job.specs.JobData.{JobData};

    ghost Value = { JobData };

    ghost use Rattle.lam_job.specs.inside.Views.{job_data};
    ghost use Rattle.lam_job.specs.Ranges.{IsJob};

    ghost view = { job_data };

    ghost invariant = { λ job. IsJob (job_data job) };
}
