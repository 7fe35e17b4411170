//! The bounds of small partial schedules, worked out by hand.

ghost use Rattle.std.specs.Prelude.{◌≤◌, ◌<◌, ◌+◌, length, IsTrue, unsigned_abs};
ghost use Rattle.lam_stock.specs.Stock.{IsKnown};
ghost use Rattle.lam_job.specs.Partial.{half as half_spec};
ghost use Rattle.lam_rules.specs.Conditions.{IsPartial};
ghost use Rattle.lam_bounds.specs.inside.RunningSums.{AreSumsOf};
ghost use Rattle.lam_bounds.specs.inside.Tables.{AreBoundsOf};

use crate::carriers::Carriers;
use crate::running::net_floor;
use crate::{
    Bounds, Fixed, cost_floor, cost_floor_at, first_dear, first_short, net_cost, net_cost_at,
    net_short, net_short_at, no_child_is_dear, no_child_is_short, tried_weights,
};
use lam_job::{Case, CaseKind, Entries, Job, RuleSet};
use lam_rules::{Partial, half};
use lam_stock::{ItemNo, Stack, Stock, read_stock};
use lam_support::{Weight, capacity};
use std::alloc::Global;
use std::test::Fail;

// 0 a mat, 1 a lean ply of fibres
const CATALOGUE: &[u8] = b"name,kind,e1,e2,n12,g12,xt,xc,yt,yc,s,f12,t,p,q,h,cost
mat,ply,10000,10000,0,5000,100000,100000,100000,100000,50000,0,5000,1,0,1,10
lean,ply,40000,10000,250,4000,800000,500000,35000,110000,50000,0,5000,3,4,5,30
";

// the thinnest ply, as dear as can be
const THIN: &[u8] = b"name,kind,e1,e2,n12,g12,xt,xc,yt,yc,s,f12,t,p,q,h,cost
thin,ply,10000,10000,0,5000,100000,100000,100000,100000,50000,0,50,1,0,1,1000000000
";

// what is asked beside the load round the wall
#[derive(Clone, Copy)]
struct Asked {
    symmetric: bool,
    lined: bool, // a mat for a liner
    in_wall: bool,
}

const NOTHING: Asked = Asked {
    symmetric: false,
    lined: false,
    in_wall: false,
};

// a job of one case, a load round the wall
fn job(alloc: Global, ny: i64, factor: u16, asked: &Asked) -> Result<Job, Fail>
    requires ny { unsigned_abs ny ≤ 1000000000 }
    requires least { 1000 ≤ factor }
    requires greatest { factor ≤ 20000 }
{
    let mut liner = Stack::new(alloc);
    if asked.lined {
        liner.push(ItemNo(0));
    }
    let case = Case {
        kind: CaseKind::Resultants {
            nx: 0,
            ny,
            nxy: 0,
            mx: 0,
            my: 0,
            mxy: 0,
        },
        factor: i64::from(factor),
    };
    let rules = RuleSet {
        inner: None,
        outer: None,
        symmetric: asked.symmetric,
        balanced: false,
        run: None,
        fewest: None,
        thickness: None,
        counts: Entries::of(Vec::new(alloc)),
    };
    Ok(Job {
        limit: 56,
        liner,
        liner_in_wall: asked.in_wall,
        rules,
        cases: Entries::of(vec![in alloc; case]?),
        panels: Entries::of(Vec::new(alloc)),
    })
}

// a list of at most 56 items of the catalogue, and no more than so many
fn plies(alloc: Global, stock: &Stock, numbers: &[u8], most: u8) -> Stack
    ensures known { IsKnown stock.now result }
    ensures few { length result ≤ 56 }
    ensures most { length result ≤ most }
{
    let mut plies = Stack::new(alloc);
    for number in numbers {
        let n = plies.items().len();
        if n < 56 && n < most as usize && (*number as usize) < stock.items().len() {
            plies.push(ItemNo(*number));
        }
    }
    plies
}

// tells whether the numbers are those of items
fn are_known(stock: &Stock, plies: &[ItemNo]) -> bool
    ensures { IsTrue result → IsKnown stock.now plies.now }
{
    for ply in plies {
        if ply.0 as usize >= stock.items().len() {
            return false;
        }
    }
    true
}

// what the bounds say of a partial schedule
#[derive(Clone, Copy, PartialEq, Eq, Debug)]
struct Said {
    floor: u64,
    short: bool,
    cost: u64,
}

// what they say by themselves, of the first case and a weight
fn answers(job: &Job, stock: &Stock, partial: &Partial, w: &Weight) -> Said
    requires liner { IsKnown stock.now job.now.liner }
    requires partial { IsPartial stock.now job.now partial.now }
{
    let _limit = job.limit;
    Said {
        floor: cost_floor(job, stock, partial),
        short: net_short(job, stock, partial, 0, w),
        cost: net_cost(job, stock, partial, 0, w),
    }
}

// what they say from the tables and sums of a walk, with a tried weight
fn answers_at(
    job: &Job,
    stock: &Stock,
    bounds: &Bounds,
    fixed: &Fixed,
    partial: &Partial,
    weight: u8,
) -> Said
    requires partial { IsPartial stock.now job.now partial.now }
    requires bounds { AreBoundsOf stock.now job.now bounds.now }
    requires sums { AreSumsOf stock.now job.now partial.now fixed.now }
    requires weight { weight < 12 }
{
    let _limit = job.limit;
    Said {
        floor: cost_floor_at(job, stock, bounds, fixed, partial),
        short: net_short_at(job, stock, bounds, fixed, partial, 0, weight),
        cost: net_cost_at(job, stock, bounds, fixed, partial, 0, weight),
    }
}

// what the bounds say of n plies that begin so
fn of(alloc: Global, job: &Job, stock: &Stock, n: u8, numbers: &[u8], w: &Weight) -> Option<Said> {
    if n < 1 || n > 56 || !are_known(stock, job.liner.items()) {
        return None;
    }
    let prefix = plies(alloc, stock, numbers, half(job, n));
    Some(answers(job, stock, &Partial { n, prefix }, w))
}

fn weight(x: i64, y: i64, s: i64) -> Weight
    requires x { unsigned_abs x ≤ 100 }
    requires y { unsigned_abs y ≤ 100 }
    requires s { unsigned_abs s ≤ 100 }
    requires some { 1 ≤ unsigned_abs x + unsigned_abs y + unsigned_abs s }
{
    Weight { x, y, s }
}

// what an item of the catalogue carries, up to a million
fn carried(stock: &Stock, no: usize, w: &Weight) -> u32
    ensures { result ≤ 1000000 }
{
    match stock.items().get(no) {
        Some(item) => capacity(item, w).min(1_000_000) as u32,
        None => 0,
    }
}

// tells whether under a load round the wall one mat is short, and costs so much where it carries
// the load, and two are not and do
fn mats_answer(
    alloc: Global,
    stock: &Stock,
    w: &Weight,
    ny: i64,
    short: bool,
    cost: u64,
) -> Result<bool, Fail>
    requires { unsigned_abs ny ≤ 1000000000 }
{
    let job = job(alloc, ny, 1000, &NOTHING)?;
    let one = Said {
        floor: 10,
        short,
        cost,
    };
    let two = Said {
        floor: 20,
        short: false,
        cost: 20,
    };
    Ok(
        of(alloc, &job, stock, 1, &[0], w) == Some(one)
            && of(alloc, &job, stock, 2, &[0], w) == Some(two),
    )
}

// A mat carries 500 kN/m round the wall. What it just carries is not short of it, and costs a mat;
// of one N/m more one mat falls short, and it costs a tenth of a mat's 10 more, rounded up. A load
// below nothing asks for nothing.
#[test]
fn a_need_that_is_just_met_is_met(rt: HostRuntime) -> Result<(), Fail> {
    let alloc = rt.alloc();
    let stock = read_stock(alloc, CATALOGUE)?;
    for (w, least, most) in [
        (weight(0, 1, 0), 500_000, 500_502),
        (weight(1, 1, 0), 707_107, 707_815),
    ] {
        let force = carried(&stock, 0, &w);
        assert!(rt; least <= force && force <= most);
        let ny = i64::from(force);
        assert!(rt; mats_answer(alloc, &stock, &w, ny, false, 10)?);
        assert!(rt; mats_answer(alloc, &stock, &w, ny + 1, true, 11)?);
        assert!(rt; mats_answer(alloc, &stock, &w, -1 - ny, false, 10)?);
    }
    Ok(())
}

// a mat carries its load with a mat for a liner in the wall, which costs as much out of it
#[test]
fn a_liner_carries_load_in_the_wall(rt: HostRuntime) -> Result<(), Fail> {
    let alloc = rt.alloc();
    let stock = read_stock(alloc, CATALOGUE)?;
    let w = weight(0, 1, 0);
    for (in_wall, short, cost) in [(true, false, 20), (false, true, 24)] {
        let asked = Asked {
            lined: true,
            in_wall,
            ..NOTHING
        };
        let job = job(alloc, 800_000, 1000, &asked)?;
        let said = Said {
            floor: 20,
            short,
            cost,
        };
        assert_eq!(rt; of(alloc, &job, &stock, 1, &[0], &w), Some(said));
    }
    Ok(())
}

// What is lacking times the cost of a ply passes 64 bits, and at the utmost so does the bound, which
// is then the greatest number there is.
#[test]
fn dear_plies_pass_64_bits(rt: HostRuntime) -> Result<(), Fail> {
    let alloc = rt.alloc();
    let stock = read_stock(alloc, THIN)?;
    let w = weight(0, 1, 0);
    let job = job(alloc, 1_000_000_000, 20_000, &NOTHING)?;
    let force = u128::from(carried(&stock, 0, &w)).max(1);
    let said = of(alloc, &job, &stock, 1, &[], &w);
    let lacking: u128 = 80_000_000_000_000;
    let cost = (lacking * 1_000_000_000).div_ceil(4000 * force);
    assert!(rt; cost < 1 << 64);
    let dear = Said {
        floor: 1_000_000_000,
        short: true,
        cost: cost as u64,
    };
    assert_eq!(rt; said, Some(dear));
    let most = Carriers {
        cost: 1_000_000_000,
        capacity: 1,
        ..Carriers::of(&stock, &w)
    };
    assert_eq!(rt; net_floor(&most, 0, 0, 0, 1 << 90), u64::MAX);
    assert_eq!(rt; net_floor(&most, 7, 7, 0, 4000), 1_000_000_007);
    Ok(())
}

// tells whether a walk to a child and back says, with each tried weight, what the bounds say by
// themselves
fn walks(job: &Job, stock: &Stock, bounds: &Bounds, partial: &Partial, item: ItemNo) -> bool
    requires partial { IsPartial stock.now job.now partial.now }
    requires bounds { AreBoundsOf stock.now job.now bounds.now }
    requires more { length partial.now.prefix < half_spec job.now partial.now.n }
    requires item { item.0 < length stock.now }
{
    let weights = tried_weights();
    let mut fixed = Fixed::of(job, stock, bounds, partial);
    fixed.push(job, stock, bounds, partial, item);
    let mut prefix = partial.prefix.copied();
    prefix.push(item);
    let child = Partial {
        n: partial.n,
        prefix,
    };
    for k in 0u8..12 {
        let w = &weights[k as usize];
        if answers_at(job, stock, bounds, &fixed, &child, k) != answers(job, stock, &child, w) {
            return false;
        }
    }
    fixed.pop(job, stock, bounds, partial, item);
    for k in 0u8..12 {
        let w = &weights[k as usize];
        if answers_at(job, stock, bounds, &fixed, partial, k) != answers(job, stock, partial, w) {
            return false;
        }
    }
    true
}

// tells whether they do from where all but the last place is settled, all as an item
fn walks_from(alloc: Global, job: &Job, stock: &Stock, n: u8, item: u8) -> bool {
    if n < 1 || n > 56 || !are_known(stock, job.liner.items()) {
        return false;
    }
    if item as usize >= stock.items().len() {
        return false;
    }
    let bounds = Bounds::of(job, stock);
    let prefix = plies(alloc, stock, &[item; 8], half(job, n) - 1);
    walks(job, stock, &bounds, &Partial { n, prefix }, ItemNo(item))
}

#[test]
fn a_walk_says_what_the_bounds_say(rt: HostRuntime) -> Result<(), Fail> {
    let alloc = rt.alloc();
    let stock = read_stock(alloc, CATALOGUE)?;
    for wall in [false, true] {
        let asked = Asked {
            symmetric: wall,
            lined: true,
            in_wall: wall,
        };
        let job = job(alloc, 900_000, 6000, &asked)?;
        for n in [1u8, 2, 5] {
            assert!(rt; walks_from(alloc, &job, &stock, n, 0));
            assert!(rt; walks_from(alloc, &job, &stock, n, 1));
        }
    }
    Ok(())
}

// the case and the weight of what is found
fn place(found: Option<(u8, Weight)>) -> Option<(u8, i64, i64, i64)> {
    match found {
        Some((case, w)) => Some((case, w.x, w.y, w.s)),
        None => None,
    }
}

// the first case and weight that closes n plies that begin so, where a design costs less than a
// limit, and whether none does for any child
#[derive(Clone, Copy, PartialEq, Eq, Debug)]
struct Closed {
    short: Option<(u8, i64, i64, i64)>,
    dear: Option<(u8, i64, i64, i64)>,
    children: (bool, bool),
}

fn closings(
    alloc: Global,
    job: &Job,
    stock: &Stock,
    n: u8,
    numbers: &[u8],
    limit: u64,
) -> Option<Closed> {
    if n < 1 || n > 56 || !are_known(stock, job.liner.items()) {
        return None;
    }
    let bounds = Bounds::of(job, stock);
    let half = half(job, n);
    let prefix = plies(alloc, stock, numbers, half);
    let p = Partial { n, prefix };
    let fixed = Fixed::of(job, stock, &bounds, &p);
    let short = place(first_short(job, stock, &bounds, &fixed, &p));
    let dear = place(first_dear(job, stock, &bounds, &fixed, &p, limit));
    let mut children = (false, false);
    if p.prefix.items().len() < half as usize {
        let short = no_child_is_short(job, stock, &bounds, &fixed, &p);
        children = (
            short,
            no_child_is_dear(job, stock, &bounds, &fixed, &p, limit),
        );
    }
    Some(Closed {
        short,
        dear,
        children,
    })
}

// One mat is short of six times 90 kN/m round the wall, by the second weight, and a design costs
// more than it; two mats are not, and the dearest child of one of them costs 40.
#[test]
fn the_first_weight_is_found(rt: HostRuntime) -> Result<(), Fail> {
    let alloc = rt.alloc();
    let stock = read_stock(alloc, CATALOGUE)?;
    let job = job(alloc, 90_000, 6000, &NOTHING)?;
    let along = Some((0, 1, 0, 0));
    let round = Some((0, 0, 1, 0));
    let rows: [(u8, &[u8], u64, Closed); 5] = [
        (
            1,
            &[0],
            11,
            Closed {
                short: round,
                dear: round,
                children: (false, false),
            },
        ),
        (
            1,
            &[],
            32,
            Closed {
                short: None,
                dear: None,
                children: (false, true),
            },
        ),
        (
            2,
            &[0, 0],
            20,
            Closed {
                short: None,
                dear: along,
                children: (false, false),
            },
        ),
        (
            2,
            &[0],
            40,
            Closed {
                short: None,
                dear: None,
                children: (true, false),
            },
        ),
        (
            2,
            &[0],
            41,
            Closed {
                short: None,
                dear: None,
                children: (true, true),
            },
        ),
    ];
    for (n, numbers, limit, is) in rows {
        assert_eq!(rt; closings(alloc, &job, &stock, n, numbers, limit), Some(is));
    }
    Ok(())
}
