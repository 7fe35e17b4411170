// Room for the printed ratios of a schedule.

ghost use Rattle.std.specs.Prelude.{◌≡◌, ℕ, ◌+◌, ◌*◌, ◌<◌, [], ◌∷◌, ◌++◌, length, List, pos, Some, None, IfOk, IfSome, IsSomeAnd, IsNone, ◌↔◌};
ghost use Rattle.lam_stock.specs.declared.item.Item.{Item};
ghost use Rattle.lam_stock.specs.declared.item.ItemNo.{ItemNo};
ghost use Rattle.lam_job.specs.JobData.{JobData};
ghost use Rattle.lam_job.specs.Rules.{Fit};
ghost use Rattle.lam_sharp.specs.SharpRatios.{HasSharpPanel, HasSharpRatio};
ghost use Rattle.lam_judge.specs.Printed.{ArePrinted, panel_of, ratio_of};

use lam_job::{MOST_CASES, MOST_PANELS, MOST_WALL_PLIES};
use std::alloc::{AllocError, Global};
use std::marker::Model;

/// The most printed ratios of a schedule: one for each case and wall ply.
const MOST_RATIOS: usize = MOST_CASES * MOST_WALL_PLIES;

/// The printed ratios of a schedule, in room for 16 cases of 64 wall plies and for 8 panels, which is taken once.
#[derive(Drop)]
pub struct Room {
    // the number of wall plies
    plies: u8,
    // for each case in order those of the wall plies in order
    ratios: Vec<u16>,
    // whether the schedule is fit for a panel
    is_fit: bool,
    // where it is, those of the panels in order
    panels: Vec<u16>,
}

impl Model for Room {
    ghost use Rattle.std.specs.Prelude.{◌≡◌, ◌≤◌, length, vec_capacity};
    ghost use Rattle.lam_judge.specs.Printed.{Printed};

    ghost Value = { Printed };

    ghost use Rattle.lam_judge.specs.inside.Views.{printed_in};

    ghost view = { printed_in };

    ghost invariant = { λ r. (vec_capacity r.ratios ≡ 1024) × (vec_capacity r.panels ≡ 8)
        × (length r.ratios.items ≤ 1024) × (length r.panels.items ≤ 8) };
}

impl Room {
    /// Room in which nothing is printed yet.
    pub fn new(alloc: Global) -> Result<Room, AllocError>
        ensures { IfOk result (λ room. room ≡ record { plies = 0; ratios = []; panels = None }) }
    {
        let ratios = Vec::with_capacity(alloc, MOST_RATIOS)?;
        let panels = Vec::with_capacity(alloc, MOST_PANELS)?;
        Ok(Room {
            plies: 0,
            ratios,
            is_fit: false,
            panels,
        })
    }

    /// Room for the ratios of a wall of so many plies, with none yet.
    pub(crate) fn start(&mut self, plies: u8)
        ensures { self.new ≡ record { plies = plies; ratios = []; panels = None } }
    {
        self.plies = plies;
        self.ratios.clear();
        self.is_fit = false;
        self.panels.clear();
    }

    /// One ratio more.
    pub(crate) fn add(&mut self, ratio: u16)
        requires { length self.old.ratios < 1024 }
        ensures { self.new ≡ record self.old { ratios = self.old.ratios ++ ratio ∷ [] } }
    {
        self.ratios.push_reserved(ratio);
    }

    /// The schedule is fit for a panel, and no panel has its ratio yet.
    pub(crate) fn start_panels(&mut self)
        ensures { self.new ≡ record self.old { panels = Some [] } }
    {
        self.is_fit = true;
        self.panels.clear();
    }

    /// The ratio of one panel more.
    pub(crate) fn add_panel(&mut self, ratio: u16)
        requires { IsSomeAnd self.old.panels (λ ratios. length ratios < 8) }
        ensures { (ratios : List ℕ) → self.old.panels ≡ Some ratios
            → self.new ≡ record self.old { panels = Some (ratios ++ ratio ∷ []) } }
    {
        self.panels.push_reserved(ratio);
    }

    /// The printed ratio of a wall ply under a case, in thousandths. The numbers are of the schedule whose ratios were
    /// printed last.
    pub fn ratio(&self, case: u8, ply: u8) -> u16
        requires ply { ply < self.now.plies }
        requires case { case * self.now.plies + ply < length self.now.ratios }
        ensures value { result ≡ ratio_of self.now case ply }
        ensures so { (stock : List Item) (job : JobData) (listed : List ItemNo)
            → ArePrinted stock job listed self.now
            → HasSharpRatio stock job listed case ply result }
    {
        self.ratios[usize::from(case) * usize::from(self.plies) + usize::from(ply)]
    }

    /// The printed ratio of a panel, in thousandths. None where the schedule is not fit for a panel. The number is that of
    /// a panel of the job for which the ratios were printed last.
    pub fn panel(&self, panel: u8) -> Option<u16>
        requires { IfSome self.now.panels (λ ratios. panel < length ratios) }
        ensures value { result ≡ panel_of self.now panel }
        ensures fit { (stock : List Item) (job : JobData) (listed : List ItemNo)
            → ArePrinted stock job listed self.now
            → IsNone result ↔ (¬ Fit stock job listed) }
        ensures so { (stock : List Item) (job : JobData) (listed : List ItemNo)
            → ArePrinted stock job listed self.now
            → IfSome result (λ r. HasSharpPanel stock job listed panel r) }
    {
        if self.is_fit {
            Some(self.panels[usize::from(panel)])
        } else {
            None
        }
    }
}
