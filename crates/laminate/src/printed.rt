//! The printed ratios of the best schedule of a search, as the lists of its report.

ghost use Rattle.std.specs.Prelude.{◌≡◌, ◌≤◌, ◌<◌, ◌*◌, length, get_or, IfOk, IfSome};
ghost use Rattle.lam_job.specs.Design.{Admissible};
ghost use Rattle.lam_job.specs.Schedule.{IsJobFor};
ghost use Rattle.lam_judge.specs.Judgements.{IsSchedule};
ghost use Rattle.laminate.specs.inside.Printing.{ArePrintedOf, ArePrintedOfBest, MayBePrinted, panels_in};

use crate::input::Input;
use lam_job::Job;
use lam_judge::{Room, ratios};
use lam_stock::{Stack, Stock};
use lam_tree::{Best, Ratios};
use lam_wall::wall_plies;
use std::alloc::{AllocError, Global};

/// The printed ratios of a schedule, in thousandths.
#[derive(Drop)]
pub struct Printed {
    /// For each case in order, those of the wall plies in order.
    pub ratios: Ratios,
    /// Those of the panels, in order.
    pub panels: Ratios,
}

/// The printed ratios of the best schedule; empty lists where there is none.
pub fn printed_of_best(
    alloc: Global,
    input: &Input,
    best: &Option<Best>,
) -> Result<Printed, AllocError>
    requires job_for { IsJobFor input.now.stock input.now.job }
    requires best { IfSome best.now (MayBePrinted input.now.stock input.now.job) }
    ensures { IfOk result (λ printed. ArePrintedOfBest input.now.stock input.now.job best.now
        printed.ratios printed.panels) }
{
    match best {
        Some(best) => printed_of(alloc, &input.job, &input.stock, &best.plies),
        None => Ok(Printed {
            ratios: Ratios::new(alloc),
            panels: Ratios::new(alloc),
        }),
    }
}

/// The printed ratios of a schedule that may be built.
fn printed_of(
    alloc: Global,
    job: &Job,
    stock: &Stock,
    listed: &Stack,
) -> Result<Printed, AllocError>
    requires schedule { IsSchedule stock.now job.now listed.now }
    requires admissible { Admissible stock.now job.now listed.now }
    ensures { IfOk result (λ printed. ArePrintedOf stock.now job.now listed.now
        printed.ratios printed.panels) }
{
    let mut room = Room::new(alloc)?;
    ratios(job, stock, listed, &mut room);
    let wall = wall_plies(job, listed);
    let plies = wall.items().len();
    let cases = job.cases.items().len();
    let panels = job.panels.items().len();
    Ok(Printed {
        ratios: listed_ratios(alloc, &room, cases, plies)?,
        panels: listed_panels(alloc, &room, panels)?,
    })
}

/// The ratios in a room, of so many cases and wall plies.
fn listed_ratios(
    alloc: Global,
    room: &Room,
    cases: usize,
    plies: usize,
) -> Result<Ratios, AllocError>
    requires cases { cases ≤ 16 }
    requires some { 1 ≤ plies }
    requires few { plies ≤ 64 }
    requires plies { plies ≡ room.now.plies }
    requires number { cases * plies ≡ length room.now.ratios }
    ensures { IfOk result (λ list. list ≡ room.now.ratios) }
{
    let mut list = Ratios::new(alloc);
    for number in 0..cases * plies {
        list.push(numbered_ratio(room, plies, number))?;
    }
    Ok(list)
}

/// The ratio of a number: that of ply `number % plies` under case `number / plies`.
fn numbered_ratio(room: &Room, plies: usize, number: usize) -> u16
    requires some { 1 ≤ plies }
    requires few { plies ≤ 64 }
    requires plies { plies ≡ room.now.plies }
    requires within { number < length room.now.ratios }
    requires case { number < 16 * plies }
    ensures { result ≡ get_or room.now.ratios number 0 }
{
    room.ratio((number / plies) as u8, (number % plies) as u8)
}

/// The ratios of so many panels in a room.
fn listed_panels(alloc: Global, room: &Room, panels: usize) -> Result<Ratios, AllocError>
    requires few { panels ≤ 8 }
    requires number { length (panels_in room.now.panels) ≡ panels }
    ensures { IfOk result (λ list. list ≡ panels_in room.now.panels) }
{
    let mut list = Ratios::new(alloc);
    for number in 0..panels {
        list.push(panel_ratio(room, number as u8))?;
    }
    Ok(list)
}

/// The ratio of a panel in a room.
fn panel_ratio(room: &Room, panel: u8) -> u16
    requires { panel < length (panels_in room.now.panels) }
    ensures { result ≡ get_or (panels_in room.now.panels) panel 0 }
{
    match room.panel(panel) {
        Some(ratio) => ratio,
        None => unreachable!(),
    }
}
