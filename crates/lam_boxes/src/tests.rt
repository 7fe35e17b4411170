//! Boxes of strains of small partial schedules.

ghost use Rattle.std.specs.Prelude.{◌≤◌, length, IfOk};
ghost use Rattle.lam_stock.specs.Stock.{IsKnown};
ghost use Rattle.lam_job.specs.Schedule.{IsJobFor};

use crate::{BoxTables, first_box, is_boxed, may_box, strain_box};
use lam_job::{Job, read_job};
use lam_rules::{Partial, half};
use lam_stock::{ItemNo, Stack, Stock, read_stock};
use lam_tsai::{FaceSide, Place, Side};
use std::alloc::Global;
use std::test::Fail;

// 0 a mat, 1 a ply that is stiffer and a fifth as strong
const CATALOGUE: &[u8] = b"name,kind,e1,e2,n12,g12,xt,xc,yt,yc,s,f12,t,p,q,h,cost
mat,ply,10000,10000,0,5000,100000,100000,100000,100000,50000,0,5000,1,0,1,10
brit,ply,12000,12000,0,6000,20000,20000,20000,20000,10000,0,5000,1,0,1,1
";

// the job with these tables and this load, at a factor of 5
fn job_of(alloc: Global, stock: &Stock, tables: &str, load: &str) -> Result<Job, Fail>
    ensures { IfOk result (λ job. IsJobFor stock.now job) }
{
    let text = format!(in alloc;
        "version = 1\nlimit = 3\n{tables}\n[[case]]\nkind = \"resultants\"\nfactor = 5000\n{load}\n"
    )?;
    Ok(read_job(alloc, text.as_bytes(), stock)?)
}

// a list of items of the catalogue, no more than so many
fn plies(alloc: Global, stock: &Stock, numbers: &[u8], most: u8) -> Stack
    ensures known { IsKnown stock.now result }
    ensures most { length result ≤ most }
{
    let mut plies = Stack::new(alloc);
    for number in numbers {
        let n = plies.items().len();
        if n < 56 && n < most as usize && (*number as usize) < stock.items().len() {
            plies.push(ItemNo(*number));
        }
    }
    plies
}

// tells whether of three plies that begin so the box of a place's case shows this place, or none, by each call
fn is_said(alloc: Global, stock: &Stock, job: &Job, numbers: &[u8], at: Place, shown: bool) -> bool
    requires { IsJobFor stock.now job.now }
{
    let prefix = plies(alloc, stock, numbers, half(job, 3));
    let partial = Partial { n: 3, prefix };
    let tables = BoxTables::of(stock);
    let found = shown.then_some(at);
    let alone = if may_box(job, at.case) {
        strain_box(job, stock, &partial, at.case)
    } else {
        None
    };
    first_box(job, stock, &tables, &partial) == found
        && alone == found
        && is_boxed(job, stock, &tables, &partial, at) == shown
}

const SYMMETRIC: &str = "[rules]\nsymmetric = true";

const LINED: &str = "[liner]\nplies = [\"mat\"]\n[rules]\nsymmetric = true";

const LINED_IN_WALL: &str = "[liner]\nplies = [\"mat\"]\nin_wall = true\n[rules]\nsymmetric = true";

const PULLED: &str = "ny = 90000";

const BENT_AND_PULLED: &str = "mx = 1\n[[case]]\nkind = \"resultants\"\nfactor = 5000\nny = 90000";

// tables of a job, its load, the settled plies, and the case under which the first of them fails in the box
type Row = (&'static str, &'static str, &'static [u8], Option<u8>);

const ROWS: [Row; 11] = [
    (SYMMETRIC, PULLED, &[1], Some(0)),
    (LINED, PULLED, &[1], Some(0)),
    // a case that bends the wall is not asked, the next one is
    (SYMMETRIC, BENT_AND_PULLED, &[1], Some(1)),
    (SYMMETRIC, "ny = 90000\nmx = 1", &[1], None),
    ("", PULLED, &[1], None),
    (LINED_IN_WALL, PULLED, &[1], None),
    // no ply is settled, and all are
    (SYMMETRIC, PULLED, &[], None),
    (SYMMETRIC, PULLED, &[1, 1], None),
    // more than any completion bears in range, and so little, and what a mat bears
    (SYMMETRIC, "ny = 1000000000", &[1], None),
    (SYMMETRIC, "ny = 9000", &[1], None),
    (SYMMETRIC, PULLED, &[0], None),
];

// In the middle of three plies is a mat or another such ply. The wall is strained by 90/175000 within 3.5 hundred
// thousandths, so that the ply carries 5.7 MPa at least, where a factor of 5 allows 4.
#[test]
fn a_weak_ply_fails_in_every_completion(rt: HostRuntime) -> Result<(), Fail> {
    let alloc = rt.alloc();
    let stock = read_stock(alloc, CATALOGUE)?;
    for (tables, load, numbers, case) in ROWS {
        let job = job_of(alloc, &stock, tables, load)?;
        let at = Place {
            case: case.unwrap_or(0),
            ply: 0,
            face: FaceSide::Inner,
            side: Side::Plus,
        };
        assert!(rt; is_said(alloc, &stock, &job, numbers, at, case.is_some()));
    }
    Ok(())
}
