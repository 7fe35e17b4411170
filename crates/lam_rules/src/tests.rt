//! The rules on worked schedules and partial schedules.

ghost use Rattle.std.specs.Prelude.{◌≡◌, ◌≤◌, ◌<◌, length, All, IfSome, IfOk, IsTrue};
ghost use Rattle.lam_stock.specs.Stock.{IsKnown};
ghost use Rattle.lam_job.specs.Ranges.{IsPlyNumber, IsAskedThickness};

use crate::{Growing, Partial, RuleNo, breaks, complete, half, visible};
use lam_job::{Case, CaseKind, Entries, ItemSet, Job, Panel, RuleSet};
use lam_stock::{ItemNo, Stack, Stock, read_stock};
use std::alloc::Global;
use std::test::Fail;

// 0 mat, 1 lean, 2 its mirror image, 3 pair, 4 lean again as (6,8,10), 5 mat of 3 mm, 6 mat again,
// and as many mats of other names as there can be
fn catalogue(alloc: Global) -> Result<Stock, Fail> {
    let text = "name,kind,e1,e2,n12,g12,xt,xc,yt,yc,s,f12,t,p,q,h,cost\n\
mat,ply,10000,10000,0,5000,100000,100000,100000,100000,50000,0,5000,1,0,1,10\n\
lean,ply,10000,10000,0,5000,100000,100000,100000,100000,50000,0,5000,3,4,5,10\n\
back,ply,10000,10000,0,5000,100000,100000,100000,100000,50000,0,5000,3,-4,5,10\n\
both,pair,10000,10000,0,5000,100000,100000,100000,100000,50000,0,5000,3,4,5,10\n\
slope,ply,10000,10000,0,5000,100000,100000,100000,100000,50000,0,5000,6,8,10,10\n\
thin,ply,10000,10000,0,5000,100000,100000,100000,100000,50000,0,3000,1,0,1,10\n\
twin,ply,10000,10000,0,5000,100000,100000,100000,100000,50000,0,5000,1,0,1,10\n";
    let mut text = String::from_str(alloc, text)?;
    for k in 7u8..64 {
        let line = format!(in alloc;
            "m{k},ply,10000,10000,0,5000,100000,100000,100000,100000,50000,0,5000,1,0,1,10\n"
        )?;
        text.push_str(&line)?;
    }
    Ok(read_stock(alloc, text.as_bytes())?)
}

// a list of at most 56 items of the catalogue, and no more than so many
fn plies(alloc: Global, stock: &Stock, numbers: &[u8], most: u8) -> Stack
    ensures known { IsKnown stock.now result }
    ensures few { length result ≤ 56 }
    ensures most { length result ≤ most }
{
    let mut plies = Stack::new(alloc);
    for number in numbers {
        let n = plies.items().len();
        if n < 56 && n < most as usize && (*number as usize) < stock.items().len() {
            plies.push(ItemNo(*number));
        }
    }
    plies
}

// tells whether the numbers are those of items
fn are_known(stock: &Stock, plies: &[ItemNo]) -> bool
    ensures { IsTrue result → IsKnown stock.now plies.now }
{
    for ply in plies {
        if ply.0 as usize >= stock.items().len() {
            return false;
        }
    }
    true
}

// what a job asks beside its load: 0 and false where it does not ask
#[derive(Clone, Copy)]
struct Asked {
    inner: u64,
    outer: u64,
    symmetric: bool,
    balanced: bool,
    run: u8,
    fewest: u8,
    thickness: i64,
    counts: bool, // two mats and a lean one
    lined: bool, // a mat for a liner
    in_wall: bool,
    panel: bool,
}

fn nothing() -> Asked {
    Asked {
        inner: 0,
        outer: 0,
        symmetric: false,
        balanced: false,
        run: 0,
        fewest: 0,
        thickness: 0,
        counts: false,
        lined: false,
        in_wall: false,
        panel: false,
    }
}

fn item_set(bits: u64) -> Option<ItemSet>
    ensures { IfSome result (λ set. 0 < set.0) }
{
    if bits == 0 { None } else { Some(ItemSet(bits)) }
}

fn ply_number(n: u8) -> Option<u8>
    ensures { IfSome result IsPlyNumber }
{
    if 1 <= n && n <= 56 { Some(n) } else { None }
}

fn least_thickness(t: i64) -> Option<i64>
    ensures { IfSome result IsAskedThickness }
{
    if 1 <= t && t <= 20_000 { Some(t) } else { None }
}

fn counts(alloc: Global, asked: bool) -> Result<Entries<(ItemNo, u8)>, Fail>
    ensures { IfOk result (All (λ count. IsPlyNumber count.1)) }
{
    let mut counts = Vec::new(alloc);
    if asked {
        counts.push((ItemNo(0), 2))?;
        counts.push((ItemNo(1), 1))?;
    }
    Ok(Entries::of(counts))
}

fn rules(alloc: Global, asked: &Asked) -> Result<RuleSet, Fail> {
    let inner = item_set(asked.inner);
    let outer = item_set(asked.outer);
    let run = ply_number(asked.run);
    let fewest = ply_number(asked.fewest);
    let thickness = least_thickness(asked.thickness);
    let counts = counts(alloc, asked.counts)?;
    Ok(RuleSet {
        inner,
        outer,
        symmetric: asked.symmetric,
        balanced: asked.balanced,
        run,
        fewest,
        thickness,
        counts,
    })
}

// a job of these rules, with or without a mat for a liner, in the wall or out of it, and a panel
fn job(
    alloc: Global,
    rules: RuleSet,
    lined: bool,
    in_wall: bool,
    panel: bool,
) -> Result<Job, Fail> {
    let mut liner = Stack::new(alloc);
    if lined {
        liner.push(ItemNo(0));
    }
    let case = Case {
        kind: CaseKind::Resultants {
            nx: 0,
            ny: 90000,
            nxy: 0,
            mx: 0,
            my: 0,
            mxy: 0,
        },
        factor: 5000,
    };
    let square = Panel {
        length: 500,
        width: 500,
        load: 50000,
        factor: 2000,
    };
    let cases = Entries::of(vec![in alloc; case]?);
    let panels = if panel {
        Entries::of(vec![in alloc; square]?)
    } else {
        Entries::of(Vec::new(alloc))
    };
    Ok(Job {
        limit: 56,
        liner,
        liner_in_wall: in_wall,
        rules,
        cases,
        panels,
    })
}

// the number of the first broken rule, or 0
fn number(rule: Option<RuleNo>) -> u8 {
    match rule {
        Some(rule) => rule.0,
        None => 0,
    }
}

// the first rule that a list of plies breaks, or 0
fn broken(alloc: Global, job: &Job, stock: &Stock, numbers: &[u8]) -> u8 {
    if !are_known(stock, job.liner.items()) {
        return 99;
    }
    number(breaks(job, stock, &plies(alloc, stock, numbers, 56)))
}

// the first rule that a partial schedule of n plies visibly breaks, or 0
fn seen(alloc: Global, job: &Job, stock: &Stock, n: u8, numbers: &[u8]) -> u8 {
    if n < 1 || n > 56 || !are_known(stock, job.liner.items()) {
        return 99;
    }
    let prefix = plies(alloc, stock, numbers, half(job, n));
    let rule = number(visible(job, stock, &Partial { n, prefix }));
    if number(walked(alloc, job, stock, n, numbers).visible()) != rule {
        return 98;
    }
    rule
}

// the partial schedule after a walk that looks at the twin behind each ply
fn walked<'a>(alloc: Global, job: &'a Job, stock: &'a Stock, n: u8, numbers: &[u8]) -> Growing<'a>
    requires liner { IsKnown stock.now job.now.liner }
    requires some { 1 ≤ n }
    requires few { n ≤ 56 }
{
    let mut growing = Growing::new(alloc, job, stock, n);
    for ply in numbers {
        grow(&mut growing, job, stock, *ply);
        if grow(&mut growing, job, stock, 6) {
            growing.pop();
        }
    }
    growing
}

// adds a ply where there is room for it
fn grow(growing: &mut Growing<'_>, job: &Job, stock: &Stock, ply: u8) -> bool
    requires stock { growing.old.stock ≡ stock.now }
    requires job { growing.old.job ≡ job.now }
    ensures stock { growing.new.stock ≡ stock.now }
    ensures job { growing.new.job ≡ job.now }
{
    let partial = growing.partial();
    let settled = partial.settled();
    if settled < half(job, partial.n) && (ply as usize) < stock.items().len() {
        growing.push(ItemNo(ply));
        return true;
    }
    false
}

// tells whether each list breaks the rule beside it
fn break_so(alloc: Global, job: &Job, stock: &Stock, rows: &[(&[u8], u8)]) -> bool {
    for row in rows {
        if broken(alloc, job, stock, row.0) != row.1 {
            return false;
        }
    }
    true
}

// tells whether each partial schedule visibly breaks the rule beside it
fn seem_so(alloc: Global, job: &Job, stock: &Stock, rows: &[(u8, &[u8], u8)]) -> bool {
    for row in rows {
        if seen(alloc, job, stock, row.0, row.1) != row.2 {
            return false;
        }
    }
    true
}

// tells whether under what is asked the lists break the rules beside them, and the partial
// schedules visibly break theirs
fn answers(
    alloc: Global,
    asked: &Asked,
    lists: &[(&[u8], u8)],
    partials: &[(u8, &[u8], u8)],
) -> Result<bool, Fail> {
    let stock = catalogue(alloc)?;
    let rules = rules(alloc, asked)?;
    let job = job(alloc, rules, asked.lined, asked.in_wall, asked.panel)?;
    Ok(break_so(alloc, &job, &stock, lists) && seem_so(alloc, &job, &stock, partials))
}

#[test]
fn a_run_is_counted_round_the_middle(rt: HostRuntime) -> Result<(), Fail> {
    let asked = Asked {
        run: 2,
        symmetric: true,
        ..nothing()
    };
    let lists: [(&[u8], u8); 5] = [
        (&[0, 0], 0),
        (&[0, 0, 0], 5),
        (&[0, 1, 1, 0], 0),
        (&[0, 1, 1, 1, 0], 5),
        (&[0, 0, 1], 3),
    ];
    // the run of three in the first is not in the prefix
    let partials: [(u8, &[u8], u8); 2] = [(5, &[0, 1, 1], 0), (6, &[0, 0, 0], 5)];
    assert!(rt; answers(rt.alloc(), &asked, &lists, &partials)?);
    Ok(())
}

#[test]
fn there_are_enough_plies(rt: HostRuntime) -> Result<(), Fail> {
    let asked = Asked {
        fewest: 56,
        ..nothing()
    };
    let lists: [(&[u8], u8); 3] = [(&[0], 6), (&[0; 55], 6), (&[0; 56], 0)];
    let partials: [(u8, &[u8], u8); 3] = [(1, &[0], 6), (55, &[], 6), (56, &[], 0)];
    assert!(rt; answers(rt.alloc(), &asked, &lists, &partials)?);
    Ok(())
}

// mats are 5 mm thick, the thin one 3 mm: three mats, or two on a liner in the wall, just do
#[test]
fn a_wall_is_thick_enough_with_its_liner(rt: HostRuntime) -> Result<(), Fail> {
    for (in_wall, least, bare, three) in [
        (false, 15_000, 7, 0),
        (true, 15_000, 0, 0),
        (false, 15_001, 7, 7),
    ] {
        let asked = Asked {
            thickness: least,
            lined: true,
            in_wall,
            ..nothing()
        };
        let lists: [(&[u8], u8); 3] = [(&[0, 0], bare), (&[0, 5], 7), (&[0, 0, 0], three)];
        let partials: [(u8, &[u8], u8); 3] = [(2, &[0], bare), (2, &[5], 7), (3, &[0], three)];
        assert!(rt; answers(rt.alloc(), &asked, &lists, &partials)?);
    }
    Ok(())
}

// the twin, a mat under another name, counts for nothing; symmetric schedules end as they begin
#[test]
fn counts_go_by_number_and_see_mirror_images(rt: HostRuntime) -> Result<(), Fail> {
    for (symmetric, twins, mats, one, both) in [(false, 8, 0, 0, 0), (true, 3, 3, 8, 8)] {
        let asked = Asked {
            symmetric,
            counts: true,
            ..nothing()
        };
        let lists: [(&[u8], u8); 2] = [(&[6, 0, 1, 6], twins), (&[0, 0, 1], mats)];
        let partials: [(u8, &[u8], u8); 3] = [(3, &[3], one), (4, &[1, 3], both), (5, &[0, 3], 0)];
        assert!(rt; answers(rt.alloc(), &asked, &lists, &partials)?);
    }
    Ok(())
}

#[test]
fn the_first_and_the_last_item_are_in_a_set(rt: HostRuntime) -> Result<(), Fail> {
    for (symmetric, ends, last) in [(false, 0, 0), (true, 3, 2)] {
        let asked = Asked {
            inner: 0x4000_0000_0000_0001,
            outer: 0x8000_0000_0000_0001,
            symmetric,
            ..nothing()
        };
        let lists: [(&[u8], u8); 4] = [
            (&[0, 5, 0], 0),
            (&[62, 5, 63], ends),
            (&[63, 5, 63], 1),
            (&[0, 5, 1], 2),
        ];
        let partials: [(u8, &[u8], u8); 4] = [
            (3, &[], 0),
            (3, &[0], 0),
            (3, &[63], 1),
            (3, &[62, 0], last),
        ];
        assert!(rt; answers(rt.alloc(), &asked, &lists, &partials)?);
    }
    Ok(())
}

#[test]
fn a_slanted_ply_wants_its_mirror_image(rt: HostRuntime) -> Result<(), Fail> {
    let asked = Asked {
        balanced: true,
        ..nothing()
    };
    let lists: [(&[u8], u8); 7] = [
        (&[1, 2], 0),
        (&[1, 1], 4),
        (&[4, 2], 0),
        (&[1, 4, 2], 4),
        (&[1, 4, 2, 0, 2], 0),
        (&[0, 3, 3, 5], 0),
        (&[3, 2], 4),
    ];
    let partials: [(u8, &[u8], u8); 1] = [(2, &[1, 1], 0)];
    assert!(rt; answers(rt.alloc(), &asked, &lists, &partials)?);
    Ok(())
}

// a panel, a liner in the wall; what an even wall breaks, and one with a slanted ply or one-sided
#[test]
fn panels_want_a_fit_wall(rt: HostRuntime) -> Result<(), Fail> {
    for (panel, in_wall, even, unfit) in [
        (true, false, 0, 9),
        (true, true, 9, 9),
        (false, true, 0, 0),
    ] {
        let asked = Asked {
            lined: true,
            in_wall,
            panel,
            ..nothing()
        };
        let lists: [(&[u8], u8); 3] = [(&[0, 3, 0], even), (&[0, 1, 0], unfit), (&[0, 3], unfit)];
        let partials: [(u8, &[u8], u8); 2] = [(2, &[0, 3], even), (3, &[0, 2], unfit)];
        assert!(rt; answers(rt.alloc(), &asked, &lists, &partials)?);
    }
    Ok(())
}

// the completion of a partial schedule, if it is full
fn completion(alloc: Global, job: &Job, stock: &Stock, n: u8, numbers: &[u8]) -> Option<Stack> {
    let prefix = plies(alloc, stock, numbers, half(job, n));
    if n > 56 || prefix.items().len() < half(job, n) as usize {
        return None;
    }
    Some(complete(job, &Partial { n, prefix }))
}

// tells whether a partial schedule is full and has this completion; an empty list stands for none
fn completes_so(
    alloc: Global,
    job: &Job,
    stock: &Stock,
    n: u8,
    numbers: &[u8],
    wanted: &[u8],
) -> bool {
    match completion(alloc, job, stock, n, numbers) {
        Some(whole) => whole.items() == plies(alloc, stock, wanted, 56).items(),
        None => wanted.is_empty(),
    }
}

// tells whether partial schedules have the completions beside them
fn complete_so(alloc: Global, symmetric: bool, rows: &[(u8, &[u8], &[u8])]) -> Result<bool, Fail> {
    let stock = catalogue(alloc)?;
    let asked = Asked {
        symmetric,
        ..nothing()
    };
    let rules = rules(alloc, &asked)?;
    let job = job(alloc, rules, false, false, false)?;
    for row in rows {
        if !completes_so(alloc, &job, &stock, row.0, row.1, row.2) {
            return Ok(false);
        }
    }
    Ok(true)
}

#[test]
fn half_of_a_symmetric_schedule_settles_it(rt: HostRuntime) -> Result<(), Fail> {
    for (symmetric, one, five, six, most) in [(true, 1, 3, 3, 28), (false, 1, 5, 6, 56)] {
        let asked = Asked {
            symmetric,
            ..nothing()
        };
        let rules = rules(rt.alloc(), &asked)?;
        let job = job(rt.alloc(), rules, false, false, false)?;
        let halves = (half(&job, 1), half(&job, 5), half(&job, 6), half(&job, 56));
        assert_eq!(rt; halves, (one, five, six, most));
    }
    Ok(())
}

#[test]
fn half_of_a_symmetric_schedule_completes_it(rt: HostRuntime) -> Result<(), Fail> {
    // 27 mats, two thin ones, 27 mats
    let mut first = [0; 28];
    first[27] = 5;
    let mut longest = [0; 56];
    longest[27] = 5;
    longest[28] = 5;
    let even: [(u8, &[u8], &[u8]); 5] = [
        (1, &[3], &[3]),
        (4, &[0, 1], &[0, 1, 1, 0]),
        (5, &[0, 1, 3], &[0, 1, 3, 1, 0]),
        (5, &[0, 1], &[]),
        (56, &first, &longest),
    ];
    assert!(rt; complete_so(rt.alloc(), true, &even)?);
    let free: [(u8, &[u8], &[u8]); 1] = [(2, &[0, 1], &[0, 1])];
    assert!(rt; complete_so(rt.alloc(), false, &free)?);
    Ok(())
}
