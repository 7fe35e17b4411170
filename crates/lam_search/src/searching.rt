// The search.

ghost use Rattle.std.specs.Prelude.{◌≡◌, ◌≢◌, ℕ, ◌+◌, ◌^◌, ◌<◌, ◌≤◌, List, length, IfOk, IfSome};
ghost use Rattle.lam_job.specs.Design.{Admissible};
ghost use Rattle.lam_job.specs.Partial.{total_partials};
ghost use Rattle.lam_job.specs.Schedule.{IsJobFor, cost_of};
ghost use Rattle.lam_tree.specs.Checks.{Accepts, best_cost, final, answer_of as answer_spec};
ghost use Rattle.lam_tree.specs.Promise.{HasRatios, HasPanels, Promise};
ghost use Rattle.lam_tree.specs.Reading.{read};
ghost use Rattle.lam_tree.specs.ReportRanges.{AreListed, IsReport};
ghost use Rattle.lam_tree.specs.declared.limits.TheConstants.{MOST_NODES};
ghost use Rattle.lam_answers.specs.inside.Computed.{computed};
ghost use Rattle.lam_search.specs.Reports.{report_of, CheckAsPrinted, ArePrintable};
ghost use Rattle.lam_search.specs.inside.Outcome.{IsFound};
ghost use Rattle.lam_search.specs.inside.Outcome.{ending_of, answer_seen};
ghost use Rattle.lam_search.specs.inside.Ready.{IsReady, basis_at};

use crate::design::Design;
use crate::lengths::walk_lengths;
use crate::seeking::{Sight, seek_all};
use crate::state::{Flow, State};
use lam_bounds::Bounds;
use lam_boxes::BoxTables;
use lam_guide::Guide;
use lam_job::Job;
use lam_judge::Tables;
use lam_stock::Stock;
use lam_tree::{Answer, Best, Tree};
use std::alloc::{AllocError, Global};

/// What a search found.
#[derive(Drop)]
pub struct Found {
    /// The answer.
    pub answer: Answer,
    /// The cheapest schedule that was found, if there is one.
    pub best: Option<Best>,
    /// The nodes of its tree, in the order in which it came to them.
    pub tree: Tree,
}

/// Searches for a cheapest schedule that may be built, with a budget of nodes. Each node is told
/// to the guide, which is asked for the order of children and trusted in nothing. Want of memory is
/// the one refusal; the guide has then heard of some nodes.
pub fn search(
    alloc: Global,
    job: &Job,
    stock: &Stock,
    budget: u32,
    guide: &mut Box<dyn Guide>,
) -> Result<Found, AllocError>
    requires job_for { IsJobFor stock.now job.now }
    requires some { 1 ≤ budget }
    requires most { budget ≤ MOST_NODES }
    requires quiet { heard_count guide.old < 2 ^ 62 }
    ensures accepted { IfOk result (λ found. (ratios panels : List ℕ)
        → CheckAsPrinted stock.now job.now (computed stock.now job.now) found.best ratios panels
        → Accepts stock.now job.now (computed stock.now job.now)
        (report_of budget found ratios panels)) }
    ensures promise { IfOk result (λ found. (ratios panels : List ℕ)
        → IfSome found.best (λ b. HasRatios stock.now job.now b.plies ratios
        × HasPanels stock.now job.now b.plies panels)
        → Promise stock.now job.now budget
        (report_of budget found ratios panels)) }
    ensures grammar { IfOk result (λ found. (ratios panels : List ℕ)
        → ArePrintable stock.now job.now found.best ratios panels
        → IsReport stock.now job.now (report_of budget found ratios panels)) }
    ensures best { IfOk result (λ found. IfSome found.best (λ b. AreListed stock.now b.plies
        × Admissible stock.now job.now b.plies × (b.cost ≡ cost_of stock.now job.now b.plies))) }
    ensures enough { total_partials job.now.rules.symmetric (length stock.now) job.now.limit
        ≤ budget → IfOk result (λ found. found.answer ≢ Answer.OpenBudget) }
    ensures heard { IfOk result (λ found.
        heard_count guide.new ≡ heard_count guide.old + length found.tree) }
    ensures rose { heard_count guide.old ≤ heard_count guide.new }
    ensures bounded { heard_count guide.new ≤ heard_count guide.old + budget }
{
    let tables = Tables::of(stock);
    let bounds = Bounds::of(job, stock);
    let boxes = BoxTables::of(stock);
    let design = Design {
        job,
        stock,
        tables: &tables,
        bounds: &bounds,
        boxes: &boxes,
    };
    search_in(alloc, &design, budget, guide)
}

// the search, with what is made once
fn search_in<G: Guide>(
    alloc: Global,
    design: &Design,
    budget: u32,
    guide: &mut G,
) -> Result<Found, AllocError>
    requires ready { IsReady design.now }
    requires some { 1 ≤ budget }
    requires most { budget ≤ MOST_NODES }
    requires quiet { G.heard_count guide.old < 2 ^ 62 }
    ensures found { IfOk result (IsFound (basis_at design.now) budget) }
    ensures heard { IfOk result (λ found.
        G.heard_count guide.new ≡ G.heard_count guide.old + length found.tree) }
    ensures rose { G.heard_count guide.old ≤ G.heard_count guide.new }
    ensures bounded { G.heard_count guide.new ≤ G.heard_count guide.old + budget }
{
    let mut state = State {
        tree: Tree::new(alloc),
        best: None,
    };
    let flow = walk_lengths(alloc, design, guide, budget, &mut state)?;
    let answer = answer_of(alloc, design, &state, flow);
    Ok(Found {
        answer,
        best: state.best,
        tree: state.tree,
    })
}

// the answer that the nodes give
fn answer_of(alloc: Global, design: &Design, state: &State, flow: Flow) -> Answer
    requires ready { IsReady design.now }
    requires ending { (read design.now.stock.now design.now.job.now state.now.tree).ending
        ≡ ending_of flow }
    requires cost { best_cost state.now.best ≡ final design.now.stock.now design.now.job.now
        (read design.now.stock.now design.now.job.now state.now.tree).visits }
    ensures { result ≡ answer_spec design.now.stock.now design.now.job.now
        (read design.now.stock.now design.now.job.now state.now.tree) }
{
    match flow {
        Flow::Cut => Answer::OpenBudget,
        Flow::Whole => whole_answer(
            seek_all(alloc, design, state.incumbent(), state.tree.nodes()),
            state.incumbent(),
        ),
    }
}

// the answer of a whole tree
fn whole_answer(sight: Sight, incumbent: Option<u64>) -> Answer
    ensures { result ≡ answer_seen incumbent sight }
{
    match sight {
        Sight::Seen(near) => Answer::OpenStraddle(near),
        _ => match incumbent {
            Some(_) => Answer::Least,
            None => Answer::NoneMeets,
        },
    }
}
