// The rules that a schedule has to keep.

use crate::entries::Entries;
use lam_stock::ItemNo;
use std::marker::Model;

/// A set of catalogue items: bit k stands for the item of number k.
#[derive(Clone, Copy, PartialEq, Eq, Debug)]
pub struct ItemSet(pub u64);

/// What a schedule has to keep. A rule that is None, false or empty is not asked.
#[derive(Drop)]
pub struct RuleSet {
    /// What the first ply may be.
    pub inner: Option<ItemSet>,
    /// What the last ply may be.
    pub outer: Option<ItemSet>,
    /// The schedule reads the same from both ends.
    pub symmetric: bool,
    /// Each slanted ply has its mirror image.
    pub balanced: bool,
    /// The most plies of one item in a row.
    pub run: Option<u8>,
    /// The least number of plies.
    pub fewest: Option<u8>,
    /// The least thickness of the wall, in µm.
    pub thickness: Option<i64>,
    /// The least number of plies of some items.
    pub counts: Entries<(ItemNo, u8)>,
}

impl Model for RuleSet {
    ghost use Rattle.lam_job.specs.JobData.{RuleData};

    ghost Value = { RuleData };

    ghost use Rattle.lam_job.specs.inside.Views.{rule_data};
    ghost use Rattle.lam_job.specs.Ranges.{AreRules};

    ghost view = { rule_data };

    ghost invariant = { λ r. AreRules (rule_data r) };
}
