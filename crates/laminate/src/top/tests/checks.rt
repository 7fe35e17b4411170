//! What checks of reports answer.

use super::*;

/// The status, and what is written, where a report is checked beside a catalogue of one mat, by
/// the lines of the job behind its version.
fn check_of(alloc: Global, tables: &str, report: &str) -> Result<(Status, Vec<u8>), AllocError> {
    let job = format!(in alloc; "version = 1\n{tables}\nkind = \"resultants\"\n")?;
    let catalogue = format!(in alloc; "{HEADER}{MAT}")?;
    let mut files = two_files(alloc, job.as_str(), catalogue.as_str())?;
    files.add("report", report.as_bytes())?;
    let mut sink = MemorySink::new(alloc, 1000, 1000)?;
    let status = run_line(alloc, "check job catalogue report", &mut files, &mut sink)?;
    Ok((status, sink.written().to_vec(alloc)?))
}

const PULLED_JOB: &str = "limit = 4\n[[case]]\nny = 90000\nfactor = 5000";

#[test]
fn reports_of_each_answer_are_accepted(rt: HostRuntime) -> Result<(), Fail> {
    let alloc = rt.alloc();
    let rows = [
        (
            PULLED_JOB,
            "budget 1\nanswer open budget\nnodes 1\nlength 1 split",
            "open",
        ),
        (
            PULLED_JOB,
            "budget 4\nanswer open budget\ncost 10\nschedule mat\nratio 1 1 5.555\nnodes 4\nlength 1 split\nitem 1 admissible\nlength 2 cost\nlength 3 cost",
            "open",
        ),
        (
            "limit = 1\n[[case]]\nny = 90000\nfactor = 6000",
            "budget 200000\nanswer none\nnodes 1\nlength 1 netshort 1 0 1 0",
            "none",
        ),
        (
            "limit = 1\n[[case]]\nny = 100000\nfactor = 5000",
            "budget 200000\nanswer open straddle\nnear 10 ply 1 1 inner plus\nnamed mat\nnodes 2\nlength 1 split\nitem 1 straddles ply 1 1 inner plus",
            "open",
        ),
    ];
    for (tables, lines, word) in rows {
        let report = format!(in alloc; "laminate report 1\n{lines}\nend\n")?;
        let (status, text) = check_of(alloc, tables, report.as_str())?;
        let expected = format!(in alloc; "accepted {word}\n")?;
        assert_eq!(rt; text.as_slice(), expected.as_bytes(), "{lines}");
        assert_eq!(rt; status, Status::Done);
    }
    Ok(())
}

/// A report of one mat, the cheapest that the pull allows.
const LINES: [&str; 13] = [
    "laminate report 1\n",
    "budget 200000\n",
    "answer least\n",
    "cost 10\n",
    "schedule mat\n",
    "ratio 1 1 5.555\n",
    "nodes 5\n",
    "length 1 split\n",
    "item 1 admissible\n",
    "length 2 cost\n",
    "length 3 cost\n",
    "length 4 cost\n",
    "end\n",
];

/// Its text with two lines altered; a number 0 alters none.
fn altered(
    alloc: Global,
    first: (usize, &str),
    second: (usize, &str),
) -> Result<String, AllocError> {
    let mut text = String::new(alloc);
    for (i, line) in LINES.iter().enumerate() {
        let number = i + 1;
        if number == first.0 {
            text.push_str(first.1)?;
        } else if number == second.0 {
            text.push_str(second.1)?;
        } else {
            text.push_str(line)?;
        }
    }
    Ok(text)
}

#[test]
fn an_altered_report_is_refused_at_its_first_wrong_line(rt: HostRuntime) -> Result<(), Fail> {
    let none = (0, "");
    let open = (3, "answer open budget\n");
    let rows = [
        (none, none, Status::Done, "accepted least 10"),
        ((11, ""), none, Status::ReportRefused, "line 12 form"),
        (
            (11, ""),
            (7, "nodes 4\n"),
            Status::ReportRefused,
            "line 11 order",
        ),
        ((4, "cost 9\n"), none, Status::ReportRefused, "line 4 cost"),
        (
            (6, "ratio 1 1 5.554\n"),
            none,
            Status::ReportRefused,
            "line 6 ratio",
        ),
        (
            (2, "budget 4\n"),
            none,
            Status::ReportRefused,
            "line 7 budget",
        ),
        (
            (3, "answer none\n"),
            none,
            Status::ReportRefused,
            "line 4 form",
        ),
        (open, none, Status::ReportRefused, "line 7 budget"),
        (
            open,
            (2, "budget 5\n"),
            Status::ReportRefused,
            "line 3 answer",
        ),
        (
            (5, "schedule mat mat\n"),
            none,
            Status::ReportRefused,
            "line 7 form",
        ),
        (
            (8, "length 1 cost\n"),
            none,
            Status::ReportRefused,
            "line 9 order",
        ),
        (
            (9, "item 1 straddles ply 1 1 inner plus\n"),
            none,
            Status::ReportRefused,
            "line 9 leaf",
        ),
        (
            (9, "item 1 cost\n"),
            none,
            Status::ReportRefused,
            "line 3 answer",
        ),
        (
            (9, "item 2 admissible\n"),
            none,
            Status::ReportRefused,
            "line 9 form",
        ),
        (
            (10, "length 2 split\n"),
            none,
            Status::ReportRefused,
            "line 10 unlawful",
        ),
        (
            (13, "end\nend\n"),
            none,
            Status::ReportRefused,
            "line 14 form",
        ),
        ((13, "end"), none, Status::ReportRefused, "line 13 form"),
    ];
    for (first, second, status, text) in rows {
        let report = altered(rt.alloc(), first, second)?;
        let (ended, written) = check_of(rt.alloc(), PULLED_JOB, report.as_str())?;
        let refusal = format!(in rt.alloc(); "refused report: {text}\n")?;
        let acceptance = format!(in rt.alloc(); "{text}\n")?;
        let expected = if status == Status::Done {
            acceptance
        } else {
            refusal
        };
        assert_eq!(rt; written.as_slice(), expected.as_bytes());
        assert_eq!(rt; ended, status);
    }
    Ok(())
}
