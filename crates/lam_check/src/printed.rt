// The printed ratios of the best schedule, line by line.

ghost use Rattle.std.specs.Prelude.{◌≡◌, ◌*◌, ◌/◌, ◌%◌, ◌^◌, ◌<◌, ◌≤◌, ◌↔◌, length, List, OnOk, IfErr, IfSome, IsTrue, Some, None};
ghost use Rattle.lam_stock.specs.declared.item.Item.{Item};
ghost use Rattle.lam_stock.specs.declared.item.ItemNo.{ItemNo};
ghost use Rattle.lam_job.specs.JobData.{JobData};
ghost use Rattle.lam_judge.specs.Printed.{ratio_of};
ghost use Rattle.lam_judge.specs.inside.Ratios.{printed};
ghost use Rattle.lam_tree.specs.Checks.{PanelChecks, RatioChecks};
ghost use Rattle.lam_answers.specs.inside.Computed.{computed};
ghost use Rattle.lam_check.specs.Faults.{fault_is};

use crate::fault::{CheckCause, CheckFault};
use lam_judge::Room;

/// Checks the ratios of the best schedule, the first at line 6, against those in a room, which are
/// of a wall of so many plies.
pub fn check_ratios(room: &Room, plies: u8, ratios: &[u16]) -> Result<(), CheckFault>
    requires some { 0 < plies }
    requires plies { plies ≡ room.now.plies }
    requires many { length ratios.now ≡ length room.now.ratios }
    requires cases { length ratios.now ≤ 16 * plies }
    requires few { length ratios.now ≤ 1024 }
    ensures none { (stock : List Item) (job : JobData) (listed : List ItemNo)
        → room.now ≡ printed stock job listed → OnOk result
        (RatioChecks stock job (computed stock job) listed plies 6 0 ratios.now None) }
    ensures fault { (stock : List Item) (job : JobData) (listed : List ItemNo)
        → room.now ≡ printed stock job listed → IfErr result (λ fault. RatioChecks stock job
        (computed stock job) listed plies 6 0 ratios.now (Some (fault_is fault))) }
{
    for i in 0..ratios.len() {
        if !is_ratio(room, plies, i, ratios[i]) {
            return Err(CheckFault {
                line: 6 + i as u32,
                cause: CheckCause::Ratio,
            });
        }
    }
    Ok(())
}

// tells whether a ratio is the one of its number
fn is_ratio(room: &Room, plies: u8, i: usize, ratio: u16) -> bool
    requires some { 0 < plies }
    requires plies { plies ≡ room.now.plies }
    requires within { i < length room.now.ratios }
    requires case { i < 16 * plies }
    ensures { IsTrue result ↔ (ratio ≡ ratio_of room.now (i / plies) (i % plies)) }
{
    let case = i / plies as usize;
    let ply = i % plies as usize;
    ratio == room.ratio(case as u8, ply as u8)
}

/// Checks the ratios of its panels, the first at a line.
pub fn check_panels(room: &Room, panels: &[u16], first: u32) -> Result<(), CheckFault>
    requires within { IfSome room.now.panels (λ own. length own ≡ length panels.now) }
    requires few { length panels.now ≤ 8 }
    requires line { first < 2 ^ 20 }
    ensures none { (stock : List Item) (job : JobData) (listed : List ItemNo)
        → room.now ≡ printed stock job listed → OnOk result
        (PanelChecks stock job (computed stock job) listed first 0 panels.now None) }
    ensures fault { (stock : List Item) (job : JobData) (listed : List ItemNo)
        → room.now ≡ printed stock job listed → IfErr result (λ fault. PanelChecks stock job
        (computed stock job) listed first 0 panels.now (Some (fault_is fault))) }
{
    for i in 0..panels.len() {
        if !is_printed(room.panel(i as u8), panels[i]) {
            return Err(CheckFault {
                line: first + i as u32,
                cause: CheckCause::Ratio,
            });
        }
    }
    Ok(())
}

// tells whether a ratio is printed, and is this one
fn is_printed(own: Option<u16>, ratio: u16) -> bool
    ensures { IsTrue result ↔ (Some ratio ≡ own) }
{
    match own {
        Some(printed) => printed == ratio,
        None => false,
    }
}
