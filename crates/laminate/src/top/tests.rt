use super::*;
use crate::seat;
use lam_guide::{Cheapest, Learner, Thickest};
use lam_outside::{MemoryFiles, MemorySink};
use std::alloc::AllocError;
use std::process::Abort;
use std::test::Fail;

// What analyses write.
mod analyses;
// What designs write.
mod designs;
// What words, files and schedules are refused for.
mod refusals;
// What checks of reports answer.
mod checks;
// What samples write.
mod samples;
// What becomes of the guides, and of a text that can't be written whole.
mod edges;

const USAGE: &str =
    "usage: laminate design JOB CATALOGUE | analyse JOB CATALOGUE SCHEDULE | check JOB CATALOGUE REPORT | sample N; options of design and sample: --guide cheapest|thickest|learner, --nodes N\n";

const HEADER: &str = "name,kind,e1,e2,n12,g12,xt,xc,yt,yc,s,f12,t,p,q,h,cost\n";

const MAT: &str = "mat,ply,10000,10000,0,5000,100000,100000,100000,100000,50000,0,5000,1,0,1,10\n";

/// Items beside the mat: twice as stiff, stronger in compression across or along, slanted, and a
/// pair.
const OTHERS: &str =
    "stiff,ply,20000,20000,0,10000,100000,100000,100000,100000,50000,0,5000,1,0,1,10\n\
weak,ply,10000,10000,0,5000,100000,100000,100000,200000,50000,0,5000,1,0,1,10\n\
lean,ply,10000,10000,0,5000,100000,100000,100000,100000,50000,0,5000,3,4,5,10\n\
both,pair,10000,10000,0,5000,100000,200000,100000,100000,50000,0,5000,3,4,5,10\n\
glass,pair,40000,10000,250,4000,800000,500000,35000,110000,50000,0,5000,3,4,5,30\n\
tied,pair,40000,10000,250,4000,800000,500000,35000,110000,50000,-10000000,5000,3,4,5,30\n";

/// A case of a pull round the wall.
const PULLED: &str = "kind = \"resultants\"\nny = 90000";

/// The words of a line, cut at each blank; none of an empty line.
fn words_of(alloc: Global, line: &str) -> Result<Vec<String>, AllocError> {
    let mut words = Vec::new(alloc);
    if line.is_empty() {
        return Ok(words);
    }
    for word in line.split(' ') {
        words.push(String::from_str(alloc, word)?)?;
    }
    Ok(words)
}

/// A run with three guides.
fn run_line<F: Files>(
    alloc: Global,
    line: &str,
    files: &mut F,
    sink: &mut MemorySink,
) -> Result<Status, AllocError> {
    let words = words_of(alloc, line)?;
    let mut guides = Vec::new(alloc);
    seat(&mut guides, Box::new(alloc, Cheapest::new())?)?;
    seat(&mut guides, Box::new(alloc, Thickest::new())?)?;
    seat(&mut guides, Box::new(alloc, Learner::new())?)?;
    Ok(run(alloc, words.as_slice(), files, sink, guides))
}

/// The files `job` and `catalogue` in memory.
fn two_files(alloc: Global, job: &str, catalogue: &str) -> Result<MemoryFiles, AllocError> {
    let mut files = MemoryFiles::new(alloc);
    files.add("job", job.as_bytes())?;
    files.add("catalogue", catalogue.as_bytes())?;
    Ok(files)
}

/// The status, and what is written into an ample sink, of a line of words over a job and a
/// catalogue in memory.
fn answer_to(
    alloc: Global,
    line: &str,
    job: &str,
    catalogue: &str,
) -> Result<(Status, Vec<u8>), AllocError> {
    let mut files = two_files(alloc, job, catalogue)?;
    let mut sink = MemorySink::new(alloc, 10_000, 1000)?;
    let status = run_line(alloc, line, &mut files, &mut sink)?;
    Ok((status, sink.written().to_vec(alloc)?))
}

/// A job of one case of resultants, with other tables behind it.
fn job_of(alloc: Global, case: &str, tables: &str) -> Result<String, AllocError> {
    format!(in alloc; "version = 1\nlimit = 4\n[[case]]\nfactor = 5000\n{case}\n{tables}\n")
}

/// What the analysis of a schedule writes, and its status, by the case and the other tables of the
/// job.
fn analysis(
    alloc: Global,
    case: &str,
    tables: &str,
    schedule: &str,
) -> Result<(Status, Vec<u8>), AllocError> {
    let job = job_of(alloc, case, tables)?;
    let catalogue = format!(in alloc; "{HEADER}{MAT}{OTHERS}")?;
    let line = format!(in alloc; "analyse job catalogue {schedule}")?;
    answer_to(alloc, line.as_str(), job.as_str(), catalogue.as_str())
}

/// Whether analyses write these lines: by the case, the other tables of the job, and the schedule.
fn check_analyses(
    rt: &impl Abort,
    alloc: Global,
    rows: &[(&str, &str, &str, &str)],
) -> Result<(), Fail> {
    for (case, tables, schedule, lines) in rows {
        let (status, text) = analysis(alloc, case, tables, schedule)?;
        let expected = format!(in alloc; "laminate analysis 1\n{lines}\nend\n")?;
        assert_eq!(rt;
            text.as_slice(),
            expected.as_bytes(),
            "{case}, {tables}, {schedule}"
        );
        assert_eq!(rt; status, Status::Done);
    }
    Ok(())
}
