//! Worked searches of few nodes.

ghost use Rattle.std.specs.Prelude.{◌≤◌, ◌≡◌, IfOk};
ghost use Rattle.lam_job.specs.Schedule.{IsJobFor};

use crate::{Found, search};
use lam_guide::{Cheapest, Guide, Thickest};
use lam_job::{Job, read_job};
use lam_stock::{ItemNo, Stock, read_stock};
use lam_support::Weight;
use lam_tree::{Answer, Node, Seat, Word};
use std::alloc::Global;
use std::test::Fail;

// What a box of strains closes.
mod boxes;
// Guides that are of no help.
mod guides;

const CATALOGUE: &str = "name,kind,e1,e2,n12,g12,xt,xc,yt,yc,s,f12,t,p,q,h,cost
mat,ply,10000,10000,0,5000,100000,100000,100000,100000,50000,0,5000,1,0,1,10
";

const BOTH: &str = "name,kind,e1,e2,n12,g12,xt,xc,yt,yc,s,f12,t,p,q,h,cost
mat,ply,10000,10000,0,5000,100000,100000,100000,100000,50000,0,5000,1,0,1,10
slim,ply,10000,10000,0,5000,100000,100000,100000,100000,50000,0,2500,1,0,1,4
";

// a load round the wall
const BASE: &str = "version = 1
limit = 4
[[case]]
kind = 'resultants'
ny = 90000
factor = 5000
";

// a factor that no mat meets
const STRICT: &str = "version = 1
limit = 1
[[case]]
kind = 'resultants'
ny = 90000
factor = 6000
";

// a mat meets the factor exactly
const TIE: &str = "version = 1
limit = 1
[[case]]
kind = 'resultants'
ny = 100000
factor = 5000
";

// two plies at most
const SHORT: &str = "version = 1
limit = 2
[[case]]
kind = 'resultants'
ny = 90000
factor = 5000
";

// the job of a text
fn job_of(alloc: Global, stock: &Stock, text: &str) -> Result<Job, Fail>
    ensures { IfOk result (λ job. IsJobFor stock.now job) }
{
    Ok(read_job(alloc, text.as_bytes(), stock)?)
}

// what is found by the guide that takes the cheapest first
fn found(alloc: Global, catalogue: &str, job: &str, budget: u32) -> Result<Found, Fail>
    requires some { 1 ≤ budget }
    requires most { budget ≤ 200000 }
{
    let stock = read_stock(alloc, catalogue.as_bytes())?;
    let job = job_of(alloc, &stock, job)?;
    let mut guide: Box<dyn Guide> = Box::new(alloc, Cheapest::new())?;
    Ok(search(alloc, &job, &stock, budget, &mut guide)?)
}

// the same by the guide that takes the thickest first
fn found_by_thickest(alloc: Global, catalogue: &str, job: &str) -> Result<Found, Fail> {
    let stock = read_stock(alloc, catalogue.as_bytes())?;
    let job = job_of(alloc, &stock, job)?;
    let mut guide: Box<dyn Guide> = Box::new(alloc, Thickest::new())?;
    Ok(search(alloc, &job, &stock, 100, &mut guide)?)
}

// the cost of the best schedule, and 0 where there is none
fn cost(found: &Found) -> u64 {
    match &found.best {
        Some(best) => best.cost,
        None => 0,
    }
}

fn answer_word(found: &Found) -> &'static str {
    match &found.answer {
        Answer::Least => "least",
        Answer::NoneMeets => "none",
        Answer::OpenBudget => "open budget",
        Answer::OpenStraddle(_) => "open straddle",
    }
}

#[test]
fn one_ply_is_the_cheapest(rt: HostRuntime) -> Result<(), Fail> {
    let found = found(rt.alloc(), CATALOGUE, BASE, 200_000)?;
    let nodes = found.tree.nodes();
    let tree = [
        Node {
            seat: Seat::Length(1),
            word: Word::Split,
        },
        Node {
            seat: Seat::Item(ItemNo(0)),
            word: Word::Admissible,
        },
        Node {
            seat: Seat::Length(2),
            word: Word::Cost,
        },
        Node {
            seat: Seat::Length(3),
            word: Word::Cost,
        },
        Node {
            seat: Seat::Length(4),
            word: Word::Cost,
        },
    ];
    assert!(rt; nodes == &tree[..]);
    assert_eq!(rt; answer_word(&found), "least");
    assert_eq!(rt; cost(&found), 10);
    Ok(())
}

#[test]
fn a_balance_of_forces_closes_what_is_too_weak(rt: HostRuntime) -> Result<(), Fail> {
    let found = found(rt.alloc(), CATALOGUE, STRICT, 200_000)?;
    let nodes = found.tree.nodes();
    let w = Weight { x: 0, y: 1, s: 0 };
    assert!(rt;
        nodes
            == &[Node {
                seat: Seat::Length(1),
                word: Word::NetShort(0, w)
            }][..]
    );
    assert_eq!(rt; answer_word(&found), "none");
    Ok(())
}

#[test]
fn a_budget_ends_the_search(rt: HostRuntime) -> Result<(), Fail> {
    let rows = [
        (1, "open budget", 0),
        (4, "open budget", 10),
        (5, "least", 10),
    ];
    for (budget, answer, least) in rows {
        let found = found(rt.alloc(), CATALOGUE, BASE, budget)?;
        assert_eq!(rt; found.tree.nodes().len(), budget as usize);
        assert_eq!(rt; answer_word(&found), answer, "budget {budget}");
        assert_eq!(rt; cost(&found), least, "budget {budget}");
    }
    Ok(())
}

#[test]
fn a_tie_is_left_open(rt: HostRuntime) -> Result<(), Fail> {
    let found = found(rt.alloc(), CATALOGUE, TIE, 200_000)?;
    assert_eq!(rt; answer_word(&found), "open straddle");
    assert_eq!(rt; found.tree.nodes().len(), 2);
    match &found.answer {
        Answer::OpenStraddle(near) => assert_eq!(rt; near.cost, 10),
        _ => assert!(rt; false),
    }
    Ok(())
}

// tells whether the second node is that of an item
fn begins_with(found: &Found, item: ItemNo) -> bool {
    match found.tree.nodes().get(1) {
        Some(node) => node.seat == Seat::Item(item),
        None => false,
    }
}

#[test]
fn a_guide_changes_the_order_alone(rt: HostRuntime) -> Result<(), Fail> {
    let cheapest = found(rt.alloc(), BOTH, SHORT, 100)?;
    let thickest = found_by_thickest(rt.alloc(), BOTH, SHORT)?;
    assert_eq!(rt; answer_word(&cheapest), answer_word(&thickest));
    assert_eq!(rt; cost(&cheapest), 8);
    assert_eq!(rt; cost(&thickest), 8);
    assert!(rt; begins_with(&cheapest, ItemNo(1)));
    assert!(rt; begins_with(&thickest, ItemNo(0)));
    Ok(())
}
