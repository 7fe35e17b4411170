//! Reports in bytes, as they stand and altered, by both readers.

ghost use Rattle.std.specs.Prelude.{◌≤◌, length, IfOk};
ghost use Rattle.lam_job.specs.Schedule.{IsJobFor};
ghost use Rattle.lam_stock.specs.Stock.{IsKnown};

use crate::{MOST_BYTES, ReportError, read_report, scan_report, write_report};
use itoa::Buffer;
use lam_job::{Job, read_job};
use lam_outside::MemorySink;
use lam_stock::{Stock, read_stock};
use std::alloc::{AllocError, Global};
use std::process::Abort;
use std::test::Fail;

const CATALOGUE: &str = "name,kind,e1,e2,n12,g12,xt,xc,yt,yc,s,f12,t,p,q,h,cost
mat,ply,10000,10000,0,5000,100000,100000,100000,100000,50000,0,5000,1,0,1,10
sixteen-of-these,ply,10000,10000,0,5000,100000,100000,100000,100000,50000,0,5000,1,0,1,10
";

// a load round the wall
const PULLED: &str = "version = 1
limit = 4
[[case]]
kind = 'resultants'
ny = 90000
factor = 5000
";

// the same, and two panels
const PANELS: &str = "version = 1
limit = 4
[[case]]
kind = 'resultants'
ny = 90000
factor = 5000
[[panel]]
length = 500
width = 500
load = 50000
factor = 2000
[[panel]]
length = 500
width = 500
load = 50000
factor = 2000
";

// the job of a text
fn job_of(alloc: Global, stock: &Stock, text: &str) -> Result<Job, Fail>
    ensures { IfOk result (λ job. IsJobFor stock.now job) }
{
    Ok(read_job(alloc, text.as_bytes(), stock)?)
}

// the line of a refusal
fn line_of(error: ReportError) -> u32 {
    match error {
        ReportError::Refused(fault) => fault.line,
        ReportError::Memory => u32::MAX,
    }
}

// the line at which a report that is read whole is refused, and 0 where it is read and is written
// as the same bytes
fn read_to(alloc: Global, job: &Job, stock: &Stock, bytes: &[u8]) -> Result<u32, AllocError>
    requires job { IsKnown stock.now job.now.liner }
    requires short { length bytes.now ≤ MOST_BYTES }
{
    match read_report(bytes, job, stock, alloc) {
        Ok(report) => {
            let mut sink = MemorySink::new(alloc, 10_000, 1000)?;
            if write_report(job, stock, &report, &mut sink).is_ok() && sink.written() == bytes {
                return Ok(0);
            }
            Ok(u32::MAX)
        }
        Err(error) => Ok(line_of(error)),
    }
}

// the same where it is scanned
fn scanned_to(alloc: Global, job: &Job, stock: &Stock, bytes: &[u8]) -> u32
    requires job { IsKnown stock.now job.now.liner }
    requires short { length bytes.now ≤ MOST_BYTES }
{
    match scan_report(bytes, job, stock, alloc) {
        Ok(_) => 0,
        Err(error) => line_of(error),
    }
}

// tells whether both readers refuse a text at a line, or at none where that is 0
fn is_refused_at(alloc: Global, job: &str, text: &str, line: u32) -> Result<bool, Fail> {
    let bytes = text.as_bytes();
    let stock = read_stock(alloc, CATALOGUE.as_bytes())?;
    let job = job_of(alloc, &stock, job)?;
    if bytes.len() > MOST_BYTES {
        return Ok(false);
    }
    let read = read_to(alloc, &job, &stock, bytes)?;
    let scanned = scanned_to(alloc, &job, &stock, bytes);
    Ok(read == line && scanned == line)
}

// a report of one mat
const LINES: [&str; 13] = [
    "laminate report 1\n",
    "budget 200000\n",
    "answer least\n",
    "cost 10\n",
    "schedule mat\n",
    "ratio 1 1 5.555\n",
    "nodes 5\n",
    "length 1 split\n",
    "item 1 admissible\n",
    "length 2 cost\n",
    "length 3 cost\n",
    "length 4 cost\n",
    "end\n",
];

// its text, with another for the line of a number
fn altered(alloc: Global, number: usize, other: &str) -> Result<String, AllocError> {
    let mut text = String::new(alloc);
    for (k, line) in LINES.iter().enumerate() {
        if k + 1 == number {
            text.push_str(other)?;
        } else {
            text.push_str(line)?;
        }
    }
    Ok(text)
}

#[test]
fn an_altered_line_is_refused_where_no_report_goes_on(rt: HostRuntime) -> Result<(), Fail> {
    let rows = [
        (0, "", 0),
        (6, "ratio 1 1 0.079\n", 0),
        (6, "ratio 1 1 20.000\n", 0),
        (6, "ratio 1 1 20.001\n", 6),
        (6, "ratio 1 1 5.55\n", 6),
        (6, "ratio 1 1 05.555\n", 6),
        (6, "ratio 1 2 5.555\n", 6),
        (6, "ratio 1 1 5.555\nratio 1 2 5.555\n", 7),
        (2, "budget 200000\r\n", 2),
        (2, "budget 0\n", 2),
        (3, " answer least\n", 3),
        (4, "cost 10 \n", 4),
        (4, "cost  10\n", 4),
        (4, "\n", 4),
        (3, "answer none\n", 4),
        (3, "answer open straddle\n", 7),
        (5, "schedule wr\n", 5),
        (5, "schedule sixteen-of-these\n", 0),
        (5, "schedule sixteen-of-these-\n", 5),
        (7, "nodes 4\n", 12),
        (7, "nodes 6\n", 13),
        (13, "end", 13),
        (13, "end\nend\n", 14),
        (13, "end\n ", 14),
    ];
    for (number, other, line) in rows {
        let text = altered(rt.alloc(), number, other)?;
        let due = is_refused_at(rt.alloc(), PULLED, text.as_str(), line)?;
        assert!(rt; due, "{other}");
    }
    Ok(())
}

// its text, with the line of a number so many times
fn repeated(alloc: Global, number: usize, times: usize) -> Result<String, AllocError> {
    let mut text = String::new(alloc);
    for (k, line) in LINES.iter().enumerate() {
        let count = if k + 1 == number { times } else { 1 };
        for _time in 0..count {
            text.push_str(line)?;
        }
    }
    Ok(text)
}

// its text, with the line of a number behind the next one
fn exchanged(alloc: Global, number: usize) -> Result<String, AllocError> {
    let mut text = String::new(alloc);
    for k in 0..LINES.len() {
        let mut at = k;
        if k + 1 == number && number < LINES.len() {
            at = number;
        }
        if k > 0 && k == number {
            at = k - 1;
        }
        if let Some(line) = LINES.get(at) {
            text.push_str(line)?;
        }
    }
    Ok(text)
}

#[test]
fn a_line_cut_doubled_or_exchanged_is_refused_where_it_is_not_due(
    rt: HostRuntime,
) -> Result<(), Fail> {
    let alloc = rt.alloc();
    let rows = [
        (1, 1, 2, 1),
        (2, 2, 3, 2),
        (3, 3, 4, 3),
        (4, 4, 5, 4),
        (5, 5, 6, 5),
        (6, 6, 7, 6),
        (7, 7, 8, 7),
        (8, 12, 13, 0),
        (9, 12, 13, 0),
        (10, 12, 13, 0),
        (11, 12, 13, 0),
        (12, 12, 13, 12),
        (13, 13, 14, 0),
    ];
    for (number, cut, doubled, swapped) in rows {
        let without = repeated(alloc, number, 0)?;
        let twice = repeated(alloc, number, 2)?;
        let turned = exchanged(alloc, number)?;
        let due = is_refused_at(alloc, PULLED, without.as_str(), cut)?
            && is_refused_at(alloc, PULLED, twice.as_str(), doubled)?
            && is_refused_at(alloc, PULLED, turned.as_str(), swapped)?;
        assert!(rt; due, "{number}");
    }
    Ok(())
}

// a report of one node, by the lines between the budget and that node
fn report_of(alloc: Global, lines: &str) -> Result<String, AllocError> {
    let mut text = String::new(alloc);
    text.push_str("laminate report 1\nbudget 5\n")?;
    text.push_str(lines)?;
    text.push_str("nodes 1\nlength 1 split\nend\n")?;
    Ok(text)
}

#[test]
fn what_stands_before_the_tree_is_what_the_answer_and_the_job_want(
    rt: HostRuntime,
) -> Result<(), Fail> {
    let rows = [
        (PULLED, "answer open budget\n", 0),
        (PULLED, "answer none\n", 0),
        (PULLED, "answer least\n", 4),
        (PULLED, "answer open straddle\n", 4),
        (PULLED, "answer open straddle\nnear 10 panel 8\n", 5),
        (
            PULLED,
            "answer open straddle\nnear 10 panel 8\nnamed mat mat\n",
            0,
        ),
        (
            PANELS,
            "answer least\ncost 10\nschedule mat\nratio 1 1 5.555\npanel 1 0.328\npanel 2 0.328\n",
            0,
        ),
        (
            PANELS,
            "answer least\ncost 10\nschedule mat\nratio 1 1 5.555\npanel 1 0.328\n",
            8,
        ),
        (
            PANELS,
            "answer least\ncost 10\nschedule mat\nratio 1 1 5.555\npanel 2 0.328\n",
            7,
        ),
        (
            PULLED,
            "answer least\ncost 10\nschedule mat\nratio 1 1 5.555\npanel 1 0.328\n",
            7,
        ),
    ];
    for (job, lines, line) in rows {
        let text = report_of(rt.alloc(), lines)?;
        let due = is_refused_at(rt.alloc(), job, text.as_str(), line)?;
        assert!(rt; due, "{lines}");
    }
    assert!(rt; is_refused_at(rt.alloc(), PULLED, "", 1)?);
    Ok(())
}

// a report of so many plies of a long name
fn long_report(alloc: Global, plies: u32) -> Result<String, AllocError> {
    let mut lines = String::from_str(alloc, "answer least\ncost 560\nschedule")?;
    for _ply in 0..plies {
        lines.push_str(" sixteen-of-these")?;
    }
    lines.push_str("\n")?;
    for ply in 0..plies {
        let mut number = Buffer::new();
        lines.push_str("ratio 1 ")?;
        lines.push_str(number.format(ply.wrapping_add(1)))?;
        lines.push_str(" 20.000\n")?;
    }
    report_of(alloc, lines.as_str())
}

#[test]
fn a_schedule_of_the_most_plies_with_the_longest_name_is_read_and_written(
    rt: HostRuntime,
) -> Result<(), Fail> {
    for (plies, line) in [(56, 0), (57, 5)] {
        let text = long_report(rt.alloc(), plies)?;
        let due = is_refused_at(rt.alloc(), PULLED, text.as_str(), line)?;
        assert!(rt; due, "{plies}");
    }
    Ok(())
}
