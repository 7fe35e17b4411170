//! Reports altered line by line: one that is read whole before its tree is checked is answered as its bytes are.

use super::*;
use lam_check::check;
use lam_report::{ReportError, read_report};
use std::alloc::AllocError;
use std::string::String;

// a mat that is enough
const LEAST: [&str; 13] = [
    "laminate report 1\n",
    "budget 200000\n",
    "answer least\n",
    "cost 10\n",
    "schedule mat\n",
    "ratio 1 1 5.555\n",
    "nodes 5\n",
    "length 1 split\n",
    "item 1 admissible\n",
    "length 2 cost\n",
    "length 3 cost\n",
    "length 4 cost\n",
    "end\n",
];

// a box of strains beside it
const BOXED: [&str; 17] = [
    "laminate report 1\n",
    "budget 200000\n",
    "answer least\n",
    "cost 10\n",
    "schedule mat\n",
    "ratio 1 1 5.555\n",
    "nodes 9\n",
    "length 1 split\n",
    "item 2 netshort 1 0 1 0\n",
    "item 1 admissible\n",
    "length 2 split\n",
    "item 2 netshort 1 0 1 0\n",
    "item 1 cost\n",
    "length 3 split\n",
    "item 2 box 1 1 inner plus\n",
    "item 1 cost\n",
    "end\n",
];

// how a report is altered at a line
#[derive(Clone, Copy)]
enum Altered {
    // the line is cut
    Cut,
    // it is cut, and the number of nodes is lowered by one
    Fewer,
    // it stands behind the next one
    Exchanged,
}

// the text of lines, altered at the line of a number from 0
fn text_of(
    alloc: Global,
    lines: &[&str],
    number: usize,
    how: Altered,
    fewer: &str,
) -> Result<String, AllocError> {
    let mut text = String::new(alloc);
    for k in 0..lines.len() {
        let mut at = k;
        if let Altered::Exchanged = how {
            if k == number && k + 1 < lines.len() {
                at = k + 1;
            }
            if k > 0 && k - 1 == number {
                at = number;
            }
        } else if k == number {
            continue;
        }
        let line = match how {
            Altered::Fewer if at == 6 => fewer,
            _ => lines[at],
        };
        text.push_str(line)?;
    }
    Ok(text)
}

// tells whether a report that is read whole is answered as its bytes are
fn is_answered_alike(
    rt: &impl Abort,
    alloc: Global,
    catalogue: &[u8],
    job: &[u8],
    bytes: &[u8],
) -> Result<bool, Fail> {
    jobs_name_known_items();
    assert!(rt; bytes.len() <= MOST_BYTES);
    let stock = read_stock(alloc, catalogue)?;
    let job = read_job(alloc, job, &stock)?;
    let mut room = Room::new(alloc)?;
    let streamed = check_bytes(alloc, &job, &stock, bytes, &mut room);
    let whole = match read_report(bytes, &job, &stock, alloc) {
        Ok(report) => match check(&job, &stock, &report, &mut room) {
            Ok(accepted) => Ok(accepted),
            Err(fault) => Err(Refusal::Cause(fault)),
        },
        Err(ReportError::Refused(fault)) => Err(Refusal::Form(fault)),
        Err(ReportError::Memory) => Err(Refusal::Memory),
    };
    Ok(streamed == whole)
}

#[test]
fn a_report_is_answered_alike_whole_and_in_bytes(rt: HostRuntime) -> Result<(), Fail> {
    let alloc = rt.alloc();
    let reports = [
        (CATALOGUE, JOB, &LEAST[..], "nodes 4\n"),
        (BRITTLE, ALIKE, &BOXED[..], "nodes 8\n"),
    ];
    for (catalogue, job, lines, fewer) in reports {
        for k in 0..lines.len() {
            for how in [Altered::Cut, Altered::Fewer, Altered::Exchanged] {
                let text = text_of(alloc, lines, k, how, fewer)?;
                assert!(rt;
                    is_answered_alike(&rt, alloc, catalogue, job, text.as_bytes())?,
                    "{k}"
                );
            }
        }
    }
    Ok(())
}
