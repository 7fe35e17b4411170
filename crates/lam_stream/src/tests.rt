//! A worked report in bytes, as it stands and altered at one line.

use crate::{Refusal, check_bytes};
use lam_check::{Accepted, CheckCause, CheckFault};
use lam_job::{jobs_name_known_items, read_job};
use lam_judge::Room;
use lam_report::{MOST_BYTES, ReportFault};
use lam_stock::read_stock;
use std::alloc::Global;
use std::process::Abort;
use std::test::Fail;

// Reports altered line by line.
mod alike;

const CATALOGUE: &[u8] = b"name,kind,e1,e2,n12,g12,xt,xc,yt,yc,s,f12,t,p,q,h,cost
mat,ply,10000,10000,0,5000,100000,100000,100000,100000,50000,0,5000,1,0,1,10
";

const JOB: &[u8] = b"version = 1
limit = 4
[[case]]
kind = \"resultants\"
ny = 90000
factor = 5000
";

/// A mat, and what is stiffer, cheap and brittle.
const BRITTLE: &[u8] = b"name,kind,e1,e2,n12,g12,xt,xc,yt,yc,s,f12,t,p,q,h,cost
mat,ply,10000,10000,0,5000,100000,100000,100000,100000,50000,0,5000,1,0,1,10
brit,ply,12000,12000,0,6000,20000,20000,20000,20000,10000,0,5000,1,0,1,1
";

/// Plies that lie alike on both sides of the mid-plane.
const ALIKE: &[u8] = b"version = 1
limit = 3
[rules]
symmetric = true
[[case]]
kind = \"resultants\"
ny = 90000
factor = 5000
";

/// What is answered to the bytes of a report, for a catalogue and a job.
fn answer_to(
    rt: &impl Abort,
    alloc: Global,
    catalogue: &[u8],
    job: &[u8],
    bytes: &[u8],
) -> Result<Result<Accepted, Refusal>, Fail> {
    jobs_name_known_items();
    assert!(rt; bytes.len() <= MOST_BYTES);
    let stock = read_stock(alloc, catalogue)?;
    let job = read_job(alloc, job, &stock)?;
    let mut room = Room::new(alloc)?;
    Ok(check_bytes(alloc, &job, &stock, bytes, &mut room))
}

#[test]
fn a_report_is_accepted_and_altered_ones_are_refused_at_their_lines(
    rt: HostRuntime,
) -> Result<(), Fail> {
    let cause = |line, cause| Err(Refusal::Cause(CheckFault { line, cause }));
    let rows = [
        (
            "10",
            "5.555",
            "5",
            "length 3 cost\n",
            Ok(Accepted::Least(10)),
        ),
        (
            "10",
            "5.555",
            "5",
            "",
            Err(Refusal::Form(ReportFault { line: 12 })),
        ),
        ("10", "5.555", "4", "", cause(11, CheckCause::Order)),
        (
            "9",
            "5.555",
            "5",
            "length 3 cost\n",
            cause(4, CheckCause::Cost),
        ),
        (
            "10",
            "5.554",
            "5",
            "length 3 cost\n",
            cause(6, CheckCause::Ratio),
        ),
    ];
    for (cost, ratio, nodes, third, expected) in rows {
        let text = format!(in rt.alloc();
            "laminate report 1\nbudget 200000\nanswer least\ncost {cost}\nschedule mat\nratio 1 1 {ratio}\nnodes {nodes}\nlength 1 split\nitem 1 admissible\nlength 2 cost\n{third}length 4 cost\nend\n"
        )?;
        let answer = answer_to(&rt, rt.alloc(), CATALOGUE, JOB, text.as_bytes())?;
        assert_eq!(rt; answer, expected, "{cost}, {ratio}, {nodes}, {third}");
    }
    Ok(())
}

#[test]
fn a_box_leaf_is_accepted_and_no_split_where_a_box_closes(rt: HostRuntime) -> Result<(), Fail> {
    let cause = |cause| Err(Refusal::Cause(CheckFault { line: 15, cause }));
    let rows = [
        ("box 1 1 inner plus", Ok(Accepted::Least(10))),
        ("box 1 1 inner minus", cause(CheckCause::Leaf)),
        ("split", cause(CheckCause::Unlawful)),
    ];
    for (word, expected) in rows {
        let text = format!(in rt.alloc();
            "laminate report 1\nbudget 200000\nanswer least\ncost 10\nschedule mat\nratio 1 1 5.555\nnodes 9\nlength 1 split\nitem 2 netshort 1 0 1 0\nitem 1 admissible\nlength 2 split\nitem 2 netshort 1 0 1 0\nitem 1 cost\nlength 3 split\nitem 2 {word}\nitem 1 cost\nend\n"
        )?;
        let answer = answer_to(&rt, rt.alloc(), BRITTLE, ALIKE, text.as_bytes())?;
        assert_eq!(rt; answer, expected, "{word}");
    }
    Ok(())
}
