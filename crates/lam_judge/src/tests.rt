//! Judgements and printed ratios of worked schedules.

ghost use Rattle.std.specs.Prelude.{◌≡◌, ◌≤◌, ◌*◌, length, IfOk, IfSome, IsTrue};
ghost use Rattle.lam_stock.specs.Stock.{IsKnown};
ghost use Rattle.lam_job.specs.Design.{InRangeForAll};
ghost use Rattle.lam_job.specs.Schedule.{IsJobFor};
ghost use Rattle.lam_judge.specs.Judgements.{IsSchedule};
ghost use Rattle.lam_judge.specs.Printed.{ArePrinted};
ghost use Rattle.lam_judge.specs.inside.Tables.{AreTablesOf};

use crate::range::first_out;
use crate::{FaceSide, Judgement, Place, Room, Side, Tables, judge, judge_by, ratios, ratios_by};
use lam_job::{Job, Load, read_job};
use lam_number::{Enclosure, Fix, Verdict};
use lam_rules::RuleNo;
use lam_solve::{at_face, solve};
use lam_stock::{ItemNo, Stack, Stock, read_stock};
use lam_tsai::{level, verdict};
use lam_wall::{assemble, in_range, thickness, wall_plies};
use std::alloc::Global;
use std::test::Fail;

// 0 a mat, 1 one twice as stiff, 2 a pair that is stronger in compression, 3 a mat of which two make a
// panel that just meets what is asked
const CATALOGUE: &[u8] = b"name,kind,e1,e2,n12,g12,xt,xc,yt,yc,s,f12,t,p,q,h,cost
mat,ply,10000,10000,0,5000,100000,100000,100000,100000,50000,0,5000,1,0,1,10
stiff,ply,20000,20000,0,10000,100000,100000,100000,100000,50000,0,5000,1,0,1,10
both,pair,10000,10000,0,5000,100000,200000,100000,100000,50000,0,5000,3,4,5,10
even,ply,33708,33708,0,16854,100000,100000,100000,100000,50000,0,5000,1,0,1,10
";

// the text of a job with these rules, cases of resultants, and panels
fn text_of(alloc: Global, rules: &str, cases: &[&str], panels: &[&str]) -> Result<String, Fail> {
    let mut text = format!(in alloc; "version = 1\nlimit = 4\n[rules]\n{rules}\n")?;
    for case in cases {
        let table = format!(in alloc; "[[case]]\nkind = \"resultants\"\n{case}\n")?;
        text.push_str(&table)?;
    }
    for panel in panels {
        let table = format!(in alloc; "[[panel]]\n{panel}\n")?;
        text.push_str(&table)?;
    }
    Ok(text)
}

// the job of a text
fn job_of(alloc: Global, stock: &Stock, text: &str) -> Result<Job, Fail>
    ensures { IfOk result (λ job. IsJobFor stock.now job) }
{
    Ok(read_job(alloc, text.as_bytes(), stock)?)
}

// a list of at most 56 items of the catalogue
fn plies(alloc: Global, stock: &Stock, numbers: &[u8]) -> Stack
    ensures known { IsKnown stock.now result }
    ensures few { length result ≤ 56 }
{
    let mut plies = Stack::new(alloc);
    for number in numbers {
        if plies.items().len() < 56 && (*number as usize) < stock.items().len() {
            plies.push(ItemNo(*number));
        }
    }
    plies
}

// what is said of a schedule, where it is the same by tables that were made before
fn said(tables: &Tables, job: &Job, stock: &Stock, listed: &Stack) -> Option<Judgement>
    requires tables { AreTablesOf stock.now tables.now }
    requires job_for { IsJobFor stock.now job.now }
    requires known { IsKnown stock.now listed.now }
    requires few { length listed.now ≤ 56 }
{
    if listed.items().is_empty() {
        return None;
    }
    let judgement = judge(job, stock, listed);
    if judge_by(tables, job, stock, listed) == judgement {
        Some(judgement)
    } else {
        None
    }
}

// at a factor of 5, what a mat stands 5.555 times, 5 times, and 3.333 times
const PULLED: &str = "ny = 90000\nfactor = 5000";

const TIED: &str = "ny = 100000\nfactor = 5000";

const TORN: &str = "ny = 150000\nfactor = 5000";

// a two-hundredth below what is tied, and one above
const BELOW_TIED: &str = "ny = 99500\nfactor = 5000";

const ABOVE_TIED: &str = "ny = 100500\nfactor = 5000";

const TIED_TWICE: &str = "ny = 200000\nfactor = 5000";

// one N/m more than the range of a mat
const BEYOND: &str = "ny = 6250001\nfactor = 5000";

// two mats stand it 2.631 times, and one mat 0.328 times
const SQUARE: &str = "length = 500\nwidth = 500\nload = 50000\nfactor = 2000";

const STEEPER: &str = "length = 500\nwidth = 500\nload = 50000\nfactor = 3000";

// two plies of item 3 stand it just twice
const EVEN: &str = "length = 333\nwidth = 333\nload = 500000\nfactor = 2000";

const HEAVY: &str = "length = 333\nwidth = 333\nload = 500001\nfactor = 2000";

const FIRST: Place = Place {
    case: 0,
    ply: 0,
    face: FaceSide::Inner,
    side: Side::Plus,
};

// the rules, cases and panels of a job, a schedule, and what is said of it
type Row = (
    &'static str,
    &'static [&'static str],
    &'static [&'static str],
    &'static [u8],
    Judgement,
);

const WORKED: [Row; 27] = [
    // what a schedule may be
    ("", &[PULLED], &[], &[0], Judgement::Admissible),
    ("", &[PULLED], &[SQUARE], &[0, 0], Judgement::Admissible),
    // a rule, and a rule before a case out of range
    (
        "fewest = 2",
        &[PULLED],
        &[],
        &[0],
        Judgement::Broken(RuleNo(6)),
    ),
    (
        "run = 1",
        &[PULLED],
        &[],
        &[0, 0],
        Judgement::Broken(RuleNo(5)),
    ),
    (
        "inner = [\"stiff\"]\nfewest = 2",
        &[PULLED],
        &[],
        &[0],
        Judgement::Broken(RuleNo(1)),
    ),
    (
        "",
        &[PULLED],
        &[SQUARE],
        &[0, 1],
        Judgement::Broken(RuleNo(9)),
    ),
    (
        "fewest = 2",
        &[BEYOND],
        &[],
        &[0],
        Judgement::Broken(RuleNo(6)),
    ),
    // a case out of range before one that fails
    ("", &[TORN, BEYOND], &[], &[0], Judgement::OutOfRange(1)),
    // a case, a ply, a face and a side that fail
    ("", &[TORN], &[], &[0], Judgement::Fails(FIRST)),
    (
        "",
        &[PULLED, TORN],
        &[],
        &[0],
        Judgement::Fails(Place { case: 1, ..FIRST }),
    ),
    (
        "",
        &["ny = 300000\nfactor = 3000"],
        &[],
        &[0, 1],
        Judgement::Fails(Place { ply: 1, ..FIRST }),
    ),
    (
        "",
        &["ny = 90000\nmy = 75000\nfactor = 5000"],
        &[],
        &[0],
        Judgement::Fails(Place {
            face: FaceSide::Outer,
            ..FIRST
        }),
    ),
    (
        "",
        &["nxy = 90000\nfactor = 4000"],
        &[],
        &[2],
        Judgement::Fails(FIRST),
    ),
    (
        "",
        &["nxy = -90000\nfactor = 4000"],
        &[],
        &[2],
        Judgement::Fails(Place {
            side: Side::Minus,
            ..FIRST
        }),
    ),
    // a ply that fails before a panel that buckles
    ("", &[TORN], &[SQUARE], &[0], Judgement::Fails(FIRST)),
    ("", &[PULLED], &[SQUARE], &[0], Judgement::Buckles(0)),
    (
        "",
        &[PULLED],
        &[SQUARE, STEEPER],
        &[0, 0],
        Judgement::Buckles(1),
    ),
    // a load that is near its factor: below it, a tie, and above
    ("", &[BELOW_TIED], &[], &[0], Judgement::Admissible),
    ("", &[TIED], &[], &[0], Judgement::StraddlesPly(FIRST)),
    ("", &[ABOVE_TIED], &[], &[0], Judgement::Fails(FIRST)),
    // a tie, and before it what fails or buckles
    (
        "",
        &[PULLED, TIED],
        &[],
        &[0],
        Judgement::StraddlesPly(Place { case: 1, ..FIRST }),
    ),
    (
        "",
        &[TIED, TORN],
        &[],
        &[0],
        Judgement::Fails(Place { case: 1, ..FIRST }),
    ),
    ("", &[TIED], &[SQUARE], &[0], Judgement::Buckles(0)),
    (
        "",
        &[TIED_TWICE],
        &[EVEN],
        &[3, 3],
        Judgement::StraddlesPly(FIRST),
    ),
    (
        "",
        &[PULLED],
        &[EVEN],
        &[3, 3],
        Judgement::StraddlesPanel(0),
    ),
    (
        "",
        &[PULLED],
        &[EVEN, HEAVY],
        &[3, 3],
        Judgement::Buckles(1),
    ),
    (
        "",
        &[TIED_TWICE],
        &[EVEN, HEAVY],
        &[3, 3],
        Judgement::Buckles(1),
    ),
];

#[test]
fn the_first_that_is_found_is_said(rt: HostRuntime) -> Result<(), Fail> {
    let alloc = rt.alloc();
    let stock = read_stock(alloc, CATALOGUE)?;
    let tables = Tables::of(&stock);
    for (rules, cases, panels, numbers, judgement) in WORKED {
        let text = text_of(alloc, rules, cases, panels)?;
        let job = job_of(alloc, &stock, &text)?;
        let listed = plies(alloc, &stock, numbers);
        let answer = said(&tables, &job, &stock, &listed);
        assert_eq!(rt; answer, Some(judgement), "{text}{numbers:?}");
    }
    Ok(())
}

// the verdict over one kind of enclosures on the first item, at the inner face of a ply of 5 mm by itself
fn verdict_over<N: Enclosure>(
    stock: &Stock,
    ply: &Stack,
    load: &Load,
    factor: u16,
) -> Option<Verdict>
    requires some { 1 ≤ length ply.now }
    requires known { IsKnown stock.now ply.now }
    requires factor { factor ≤ 20000 }
{
    let wall = assemble::<N>(stock, ply);
    let scale = stock.scale();
    let h = wall.h;
    if in_range(&scale, h, load) {
        let strains = solve(&wall, load, &scale);
        let at = at_face(&strains, -5_000, 5_000);
        let items = stock.items();
        let level = level(&items[0], Side::Plus, &scale, &at, i64::from(factor));
        Some(verdict(&level))
    } else {
        None
    }
}

// a mat stands 5.5555.. times this load
#[test]
fn the_second_scale_decides_what_the_first_leaves_open(rt: HostRuntime) -> Result<(), Fail> {
    let alloc = rt.alloc();
    let stock = read_stock(alloc, CATALOGUE)?;
    let tables = Tables::of(&stock);
    let load = Load {
        nx: 0,
        ny: 360_000,
        nxy: 0,
        mx: 0,
        my: 0,
        mxy: 0,
    };
    let mat = plies(alloc, &stock, &[0]);
    assert!(rt; mat.items().len() == 1);
    for (factor, verdict, judgement) in [
        (5_555, Verdict::Meets, Judgement::Admissible),
        (5_556, Verdict::Fails, Judgement::Fails(FIRST)),
    ] {
        assert_eq!(rt;
            verdict_over::<Fix<28>>(&stock, &mat, &load, factor),
            Some(Verdict::Straddles)
        );
        assert_eq!(rt;
            verdict_over::<Fix<60>>(&stock, &mat, &load, factor),
            Some(verdict)
        );
        let case = format!(in alloc; "ny = 90000\nfactor = {factor}")?;
        let text = text_of(alloc, "", &[case.as_str()], &[])?;
        let job = job_of(alloc, &stock, &text)?;
        assert_eq!(rt; said(&tables, &job, &stock, &mat), Some(judgement));
    }
    Ok(())
}

// tells whether the loads of all cases are in range for the wall of a schedule
fn is_in_range(job: &Job, stock: &Stock, listed: &Stack) -> bool
    requires { IsSchedule stock.now job.now listed.now }
    ensures { IsTrue result → InRangeForAll stock.now job.now listed.now }
{
    let wall = wall_plies(job, listed);
    let h = thickness(stock, &wall);
    match first_out(&stock.scale(), h, job.cases.items()) {
        None => true,
        Some(_) => false,
    }
}

// tells whether a room holds these ratios, of so many plies under each case
fn has_ratios(room: &Room, cases: usize, plies: usize, ratios: &[u16]) -> bool
    requires some { 1 ≤ plies }
    requires few { plies ≤ 64 }
    requires cases { cases ≤ 16 }
    requires own { room.now.plies ≡ plies }
    requires many { length room.now.ratios ≡ cases * plies }
{
    if ratios.len() != cases * plies {
        return false;
    }
    for i in 0..cases * plies {
        if room.ratio((i / plies) as u8, (i % plies) as u8) != ratios[i] {
            return false;
        }
    }
    true
}

// tells whether it holds these of so many panels, None where the schedule is unfit
fn has_panels(room: &Room, panels: usize, ratios: Option<&[u16]>) -> bool
    requires few { panels ≤ 8 }
    requires many { IfSome room.now.panels (λ held. length held ≡ panels) }
{
    for k in 0..panels {
        let due = match ratios {
            Some(ratios) => ratios.get(k).copied(),
            None => None,
        };
        if room.panel(k as u8) != due {
            return false;
        }
    }
    true
}

// the ratios of the wall plies under each case in order, and those of the panels, None where the schedule is unfit
#[derive(Clone, Copy)]
struct Expected<'a> {
    ratios: &'a [u16],
    panels: Option<&'a [u16]>,
}

// tells whether it holds those of a schedule
fn holds(room: &Room, job: &Job, stock: &Stock, listed: &Stack, expected: &Expected) -> bool
    requires schedule { IsSchedule stock.now job.now listed.now }
    requires printed { ArePrinted stock.now job.now listed.now room.now }
{
    let plies = wall_plies(job, listed).items().len();
    let cases = job.cases.items().len();
    let panels = job.panels.items().len();
    has_ratios(room, cases, plies, expected.ratios) && has_panels(room, panels, expected.panels)
}

// tells whether these are the printed ratios of a schedule, by tables that were made before too
fn are_printed(
    alloc: Global,
    tables: &Tables,
    job: &Job,
    stock: &Stock,
    listed: &Stack,
    expected: &Expected,
) -> Result<bool, Fail>
    requires tables { AreTablesOf stock.now tables.now }
    requires job_for { IsJobFor stock.now job.now }
    requires known { IsKnown stock.now listed.now }
    requires few { length listed.now ≤ 56 }
{
    if listed.items().is_empty() || !is_in_range(job, stock, listed) {
        return Ok(false);
    }
    let mut room = Room::new(alloc)?;
    ratios(job, stock, listed, &mut room);
    let first = holds(&room, job, stock, listed, expected);
    ratios_by(tables, job, stock, listed, &mut room);
    Ok(first && holds(&room, job, stock, listed, expected))
}

// the cases and panels of a job, a schedule, and what is printed of it
type Printed = (
    &'static [&'static str],
    &'static [&'static str],
    &'static [u8],
    Expected<'static>,
);

const LONG: &str = "length = 1000\nwidth = 500\nload = 50000\nfactor = 2000";

const PRINTED: [Printed; 5] = [
    // a tie prints one below
    (
        &[PULLED, TIED],
        &[],
        &[0],
        Expected {
            ratios: &[5_555, 4_999],
            panels: Some(&[]),
        },
    ),
    (
        &["nxy = -90000\nfactor = 5000"],
        &[],
        &[2],
        Expected {
            ratios: &[3_551],
            panels: Some(&[]),
        },
    ),
    (
        &[PULLED],
        &[SQUARE, LONG],
        &[0, 0],
        Expected {
            ratios: &[11_111, 11_111],
            panels: Some(&[2_631, 2_631]),
        },
    ),
    (
        &[PULLED],
        &[SQUARE],
        &[0],
        Expected {
            ratios: &[5_555],
            panels: Some(&[328]),
        },
    ),
    (
        &["ny = 300000\nfactor = 5000"],
        &[SQUARE],
        &[0, 1],
        Expected {
            ratios: &[3_055, 2_291],
            panels: None,
        },
    ),
];

#[test]
fn each_case_and_panel_has_its_ratios(rt: HostRuntime) -> Result<(), Fail> {
    let alloc = rt.alloc();
    let stock = read_stock(alloc, CATALOGUE)?;
    let tables = Tables::of(&stock);
    for (cases, panels, numbers, expected) in PRINTED {
        let text = text_of(alloc, "", cases, panels)?;
        let job = job_of(alloc, &stock, &text)?;
        let listed = plies(alloc, &stock, numbers);
        let found = are_printed(alloc, &tables, &job, &stock, &listed, &expected)?;
        assert!(rt; found, "{text}{numbers:?}");
    }
    Ok(())
}

// a job of 16 cases and so many panels, and a liner of eight mats
fn great_job(alloc: Global, stock: &Stock, in_wall: bool, panels: u8) -> Result<Job, Fail>
    ensures { IfOk result (λ job. IsJobFor stock.now job) }
{
    let mut text = format!(in alloc;
        "version = 1\nlimit = 56\n[liner]\nin_wall = {in_wall}\nplies = [\"mat\", \"mat\", \"mat\", \"mat\", \"mat\", \"mat\", \"mat\", \"mat\"]\n"
    )?;
    for case in 1u8..17 {
        let ny = 900_000 * u32::from(case);
        let table = format!(in alloc;
            "[[case]]\nkind = \"resultants\"\nny = {ny}\nfactor = 1000\n"
        )?;
        text.push_str(&table)?;
    }
    for panel in 1u8..9 {
        if panel <= panels {
            let load = 20_000_000 * u32::from(panel);
            let table = format!(in alloc;
                "[[panel]]\nlength = 2000\nwidth = 2000\nload = {load}\nfactor = 1000\n"
            )?;
            text.push_str(&table)?;
        }
    }
    job_of(alloc, stock, &text)
}

// so many mats stand a fifth of a MN/m each in each case, up to 20 times
fn great_ratios(alloc: Global, mats: u8) -> Result<Vec<u16>, Fail> {
    let mut ratios = Vec::new(alloc);
    for case in 1u8..17 {
        let ratio = 5_000 * u32::from(mats) / (9 * u32::from(case));
        for _ in 0..mats {
            ratios.push(ratio.min(20_000) as u16)?;
        }
    }
    Ok(ratios)
}

const PANELS: [u16; 8] = [9_026, 4_513, 3_008, 2_256, 1_805, 1_504, 1_289, 1_128];

// 56 mats, or 64 with the liner, under as many cases and panels as a job may have
#[test]
fn the_greatest_wall_is_judged(rt: HostRuntime) -> Result<(), Fail> {
    let alloc = rt.alloc();
    let stock = read_stock(alloc, CATALOGUE)?;
    let tables = Tables::of(&stock);
    let listed = plies(alloc, &stock, &[0; 56]);
    for (in_wall, panels, mats, judgement, stood) in [
        (false, 8, 56, Judgement::Admissible, Some(PANELS.as_slice())),
        (true, 8, 64, Judgement::Broken(RuleNo(9)), None),
        (true, 0, 64, Judgement::Admissible, None),
    ] {
        let job = great_job(alloc, &stock, in_wall, panels)?;
        assert_eq!(rt; said(&tables, &job, &stock, &listed), Some(judgement));
        let ratios = great_ratios(alloc, mats)?;
        let expected = Expected {
            ratios: &ratios,
            panels: stood,
        };
        assert!(rt; are_printed(alloc, &tables, &job, &stock, &listed, &expected)?);
    }
    Ok(())
}
