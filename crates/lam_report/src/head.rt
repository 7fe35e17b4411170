// What stands before the tree of a report, read.

ghost use Rattle.std.specs.Prelude.{◌≡◌, ◌≤◌, ◌<◌, ◌*◌, length, IfOk, IfSome};
ghost use Rattle.lam_stock.specs.Stock.{IsKnown};
ghost use Rattle.lam_tree.specs.ReportRanges.{AreListed};
ghost use Rattle.lam_report.specs.inside.Gives.{Gives, ReadsLine};
ghost use Rattle.lam_report.specs.inside.Reading.{by_next};
ghost use Rattle.lam_report.specs.inside.ReportReading.{answer_at, behind_block, behind_kind, best_at, block_at, is_cost, no_block, opening_at, panels_at, ratios_at, with_block};

use crate::lines::Lines;
use crate::spelled::{AnswerKind, begins_with};
use crate::steps::{
    take_kind, take_names, take_near, take_number, take_panel, take_ratio, take_text,
};
use crate::wall::wall_plies;
use lam_job::Job;
use lam_stock::Stock;
use lam_tree::{Answer, Best, MOST_COST, MOST_NODES, Near, Ratios};
use std::alloc::Global;

/// Why lines are not read.
#[derive(Clone, Copy)]
pub(crate) enum ReadError {
    /// The next line is faulty.
    Refused,
    /// Memory is wanting.
    Memory,
}

/// The best schedule of a report, if it has one, with the printed ratios.
#[derive(Drop)]
pub(crate) struct Block {
    pub(crate) best: Option<Best>,
    pub(crate) ratios: Ratios,
    pub(crate) panels: Ratios,
}

/// What stands before the tree, and the number of its nodes.
#[derive(Drop)]
pub(crate) struct Opening {
    pub(crate) budget: u32,
    pub(crate) answer: Answer,
    pub(crate) best: Option<Best>,
    pub(crate) ratios: Ratios,
    pub(crate) panels: Ratios,
    pub(crate) nodes: u32,
}

/// Reads what stands before the tree of a report.
#[tactic(auto, unfolding(crate::specs::inside::ReportReading::opening_at))]
pub(crate) fn read_opening(
    lines: &mut Lines,
    job: &Job,
    stock: &Stock,
    alloc: Global,
) -> Result<Opening, ReadError>
    requires { IsKnown stock.now job.now.liner }
    ensures read { Gives result lines.old lines.new (opening_at stock.now job.now lines.old.lines) }
    ensures most { IfOk result (λ o. o.nodes ≤ MOST_NODES) }
{
    let Some(()) = take_text(lines, b"laminate report 1".as_slice()) else {
        return Err(ReadError::Refused);
    };
    let Some(budget) = take_number(lines, b"budget".as_slice(), 1, u64::from(MOST_NODES)) else {
        return Err(ReadError::Refused);
    };
    let Some(kind) = take_kind(lines) else {
        return Err(ReadError::Refused);
    };
    match behind_kind_line(lines, job, stock, alloc, budget as u32, kind) {
        Ok(opening) => Ok(opening),
        Err(ReadError::Refused) => Err(ReadError::Refused),
        Err(ReadError::Memory) => Err(ReadError::Memory),
    }
}

// the best schedule stands behind some kinds of answers; behind others, where the next line says so
#[tactic(auto, unfolding(crate::specs::inside::ReportReading::behind_kind))]
fn behind_kind_line(
    lines: &mut Lines,
    job: &Job,
    stock: &Stock,
    alloc: Global,
    budget: u32,
    kind: AnswerKind,
) -> Result<Opening, ReadError>
    requires { IsKnown stock.now job.now.liner }
    ensures read { Gives result lines.old lines.new
        (behind_kind stock.now job.now budget kind lines.old.lines) }
    ensures most { IfOk result (λ o. o.nodes ≤ MOST_NODES) }
{
    match kind {
        AnswerKind::Least => with_best(lines, job, stock, alloc, budget, AnswerKind::Least),
        AnswerKind::NoneMeets => {
            without_best(lines, stock, alloc, budget, AnswerKind::NoneMeets)
        }
        AnswerKind::OpenBudget => {
            behind_open(lines, job, stock, alloc, budget, AnswerKind::OpenBudget)
        }
        AnswerKind::OpenStraddle => {
            behind_open(lines, job, stock, alloc, budget, AnswerKind::OpenStraddle)
        }
    }
}

// behind an open answer
fn behind_open(
    lines: &mut Lines,
    job: &Job,
    stock: &Stock,
    alloc: Global,
    budget: u32,
    kind: AnswerKind,
) -> Result<Opening, ReadError>
    requires { IsKnown stock.now job.now.liner }
    ensures read { Gives result lines.old lines.new (by_next is_cost
        (with_block stock.now job.now budget kind)
        (behind_block stock.now budget kind no_block) lines.old.lines) }
    ensures most { IfOk result (λ o. o.nodes ≤ MOST_NODES) }
{
    let Some((line, _rest)) = lines.next() else {
        return Err(ReadError::Refused);
    };
    if begins_with(b"cost".as_slice(), line) {
        with_best(lines, job, stock, alloc, budget, kind)
    } else {
        without_best(lines, stock, alloc, budget, kind)
    }
}

fn without_best(
    lines: &mut Lines,
    stock: &Stock,
    alloc: Global,
    budget: u32,
    kind: AnswerKind,
) -> Result<Opening, ReadError>
    ensures read { Gives result lines.old lines.new
        (behind_block stock.now budget kind no_block lines.old.lines) }
    ensures most { IfOk result (λ o. o.nodes ≤ MOST_NODES) }
{
    let none = no_best(alloc);
    match behind_best(lines, stock, alloc, budget, kind, none) {
        Some(opening) => Ok(opening),
        None => Err(ReadError::Refused),
    }
}

fn no_best(alloc: Global) -> Block
    ensures { result ≡ no_block }
{
    Block {
        best: None,
        ratios: Ratios::new(alloc),
        panels: Ratios::new(alloc),
    }
}

#[tactic(auto, unfolding(crate::specs::inside::ReportReading::with_block))]
fn with_best(
    lines: &mut Lines,
    job: &Job,
    stock: &Stock,
    alloc: Global,
    budget: u32,
    kind: AnswerKind,
) -> Result<Opening, ReadError>
    requires { IsKnown stock.now job.now.liner }
    ensures read { Gives result lines.old lines.new
        (with_block stock.now job.now budget kind lines.old.lines) }
    ensures most { IfOk result (λ o. o.nodes ≤ MOST_NODES) }
{
    match read_block(lines, job, stock, alloc) {
        Ok(block) => match behind_best(lines, stock, alloc, budget, kind, block) {
            Some(opening) => Ok(opening),
            None => Err(ReadError::Refused),
        },
        Err(ReadError::Refused) => Err(ReadError::Refused),
        Err(ReadError::Memory) => Err(ReadError::Memory),
    }
}

// the best schedule with what is printed of it
#[tactic(auto, unfolding(crate::specs::inside::ReportReading::block_at))]
fn read_block(
    lines: &mut Lines,
    job: &Job,
    stock: &Stock,
    alloc: Global,
) -> Result<Block, ReadError>
    requires { IsKnown stock.now job.now.liner }
    ensures { Gives result lines.old lines.new (block_at stock.now job.now lines.old.lines) }
{
    let Some(best) = take_best(lines, stock, alloc) else {
        return Err(ReadError::Refused);
    };
    let plies = wall_plies(job, &best.plies);
    let ratios = match ratios(lines, job, plies, alloc) {
        Ok(ratios) => ratios,
        Err(ReadError::Refused) => return Err(ReadError::Refused),
        Err(ReadError::Memory) => return Err(ReadError::Memory),
    };
    match panels(lines, job, alloc) {
        Ok(panels) => Ok(Block {
            best: Some(best),
            ratios,
            panels,
        }),
        Err(ReadError::Refused) => Err(ReadError::Refused),
        Err(ReadError::Memory) => Err(ReadError::Memory),
    }
}

// the cost and the names of the best schedule
#[tactic(auto, unfolding(crate::specs::inside::ReportReading::best_at))]
fn take_best(lines: &mut Lines, stock: &Stock, alloc: Global) -> Option<Best>
    ensures read { ReadsLine result lines.old lines.new (best_at stock.now lines.old.lines) }
    ensures range { IfSome result (λ b. AreListed stock.now b.plies) }
{
    let cost = take_number(lines, b"cost".as_slice(), 0, MOST_COST)?;
    let plies = take_names(lines, b"schedule".as_slice(), stock, alloc)?;
    Some(Best { plies, cost })
}

// the ratios of so many wall plies under each case
fn ratios(lines: &mut Lines, job: &Job, plies: usize, alloc: Global) -> Result<Ratios, ReadError>
    requires some { 1 ≤ plies }
    requires few { plies ≤ 64 }
    requires cases { length job.now.cases ≤ 16 }
    ensures { Gives result lines.old lines.new (ratios_at job.now plies lines.old.lines) }
{
    let mut ratios = Ratios::new(alloc);
    let count = job.cases.items().len() * plies;
    for i in 0..count {
        let Some(ratio) = take_ratio(lines, (i / plies) as u64, (i % plies) as u64) else {
            return Err(ReadError::Refused);
        };
        match ratios.push(ratio) {
            Ok(()) => {}
            Err(_) => return Err(ReadError::Memory),
        }
    }
    Ok(ratios)
}

fn panels(lines: &mut Lines, job: &Job, alloc: Global) -> Result<Ratios, ReadError>
    requires { length job.now.panels ≤ 8 }
    ensures { Gives result lines.old lines.new (panels_at job.now lines.old.lines) }
{
    let mut panels = Ratios::new(alloc);
    for k in 0..job.panels.items().len() {
        let Some(ratio) = take_panel(lines, k as u64) else {
            return Err(ReadError::Refused);
        };
        match panels.push(ratio) {
            Ok(()) => {}
            Err(_) => return Err(ReadError::Memory),
        }
    }
    Ok(panels)
}

// the rest, behind the best schedule
#[tactic(auto, unfolding(crate::specs::inside::ReportReading::behind_block))]
fn behind_best(
    lines: &mut Lines,
    stock: &Stock,
    alloc: Global,
    budget: u32,
    kind: AnswerKind,
    block: Block,
) -> Option<Opening>
    ensures read { ReadsLine result lines.old lines.new
        (behind_block stock.now budget kind block lines.old.lines) }
    ensures most { IfSome result (λ o. o.nodes ≤ MOST_NODES) }
{
    let answer = answer(lines, stock, alloc, kind)?;
    let nodes = take_number(lines, b"nodes".as_slice(), 1, u64::from(MOST_NODES))?;
    Some(Opening {
        budget,
        answer,
        best: block.best,
        ratios: block.ratios,
        panels: block.panels,
        nodes: nodes as u32,
    })
}

// the answer, with the schedule that it names, if it is of that kind
#[tactic(auto, unfolding(crate::specs::inside::ReportReading::answer_at))]
fn answer(lines: &mut Lines, stock: &Stock, alloc: Global, kind: AnswerKind) -> Option<Answer>
    ensures { ReadsLine result lines.old lines.new (answer_at stock.now kind lines.old.lines) }
{
    match kind {
        AnswerKind::Least => Some(Answer::Least),
        AnswerKind::NoneMeets => Some(Answer::NoneMeets),
        AnswerKind::OpenBudget => Some(Answer::OpenBudget),
        AnswerKind::OpenStraddle => {
            let (cost, at) = take_near(lines)?;
            let plies = take_names(lines, b"named".as_slice(), stock, alloc)?;
            Some(Answer::OpenStraddle(Near { plies, cost, at }))
        }
    }
}
