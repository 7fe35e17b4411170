//! What becomes of the guides, and of a text that can't be written whole.

ghost use Rattle.std.specs.Prelude.{◌≡◌, ◌^◌, ◌<◌, [], length, All, IfOk, None};

use super::*;
use lam_guide::{Choice, Event};
use lam_outside::{TakeFault, Taken};
use std::cell::Cell;
use std::rc::Rc;

/// A run over a sink in memory of which no call is to fail. What is said of its write fault
/// follows from the clauses of `run` and of the sink alone.
fn run_steadily(
    alloc: Global,
    words: &[String],
    files: &mut MemoryFiles,
    sink: &mut MemorySink,
    guides: Vec<Box<dyn Guide>>,
) -> Status
    requires three { length guides.items ≡ 3 }
    requires quiet { All (λ g. heard_count g < 2 ^ 62) guides.items }
    requires unfailing { sink.old.calls.failing ≡ [] }
    ensures room { sink.new.room ≡ sink.old.room }
    ensures full { result ≡ Status.WriteFault → length sink.new.written ≡ sink.new.room }
{
    let status = run(alloc, words, files, sink, guides);
    let _after = sink.written();
    status
}

/// The same with three guides of its own.
fn run_steadily_on(
    alloc: Global,
    line: &str,
    files: &mut MemoryFiles,
    sink: &mut MemorySink,
) -> Result<Status, AllocError>
    requires { sink.old.calls.failing ≡ [] }
{
    let words = words_of(alloc, line)?;
    let mut guides = Vec::new(alloc);
    seat(&mut guides, Box::new(alloc, Cheapest::new())?)?;
    seat(&mut guides, Box::new(alloc, Thickest::new())?)?;
    seat(&mut guides, Box::new(alloc, Learner::new())?)?;
    Ok(run_steadily(alloc, words.as_slice(), files, sink, guides))
}

/// Files for the analysis of a mat.
fn files_of_a_mat(alloc: Global) -> Result<MemoryFiles, AllocError> {
    let job = job_of(alloc, PULLED, "")?;
    let catalogue = format!(in alloc; "{HEADER}{MAT}")?;
    two_files(alloc, job.as_str(), catalogue.as_str())
}

#[test]
fn a_failing_write_leaves_a_prefix(rt: HostRuntime) -> Result<(), Fail> {
    let mut files = files_of_a_mat(rt.alloc())?;
    let mut failing = MemorySink::new(rt.alloc(), 1000, 3)?;
    failing.fail(2)?;
    let status = run_line(
        rt.alloc(),
        "analyse job catalogue mat",
        &mut files,
        &mut failing,
    )?;
    assert_eq!(rt; status, Status::WriteFault);
    assert_eq!(rt; failing.written(), b"lam".as_slice());
    Ok(())
}

#[test]
fn a_full_sink_holds_a_prefix(rt: HostRuntime) -> Result<(), Fail> {
    let mut files = files_of_a_mat(rt.alloc())?;
    let mut full = MemorySink::new(rt.alloc(), 10, 1000)?;
    let status = run_steadily_on(
        rt.alloc(),
        "analyse job catalogue mat",
        &mut files,
        &mut full,
    )?;
    assert_eq!(rt; status, Status::WriteFault);
    assert_eq!(rt; full.written(), b"laminate a".as_slice());
    Ok(())
}

/// A guide that counts the drops of its kind in a shared cell, and what it is told in another.
struct Counted {
    heard: u64,
    drops: Rc<Cell<u32>>,
    told: Rc<Cell<u32>>,
}

impl Drop for Counted {
    fn drop(self) {
        self.drops.set(self.drops.get().wrapping_add(1));
        let Counted {
            heard: _,
            drops: _,
            told: _,
        } = self;
    }
}

impl Guide for Counted {
    ghost heard_count = { λ guide. guide.heard };

    fn heard(&self) -> u64 {
        self.heard
    }

    fn rank(&mut self, _depth: u8, _choice: &Choice) -> u32 {
        0
    }

    fn told(&mut self, _event: &Event, _depth: u8, _item: u8) {
        self.heard += 1;
        self.told.set(self.told.get().wrapping_add(1));
    }
}

/// A guide that has heard nothing.
fn counting_guide(drops: &Rc<Cell<u32>>, told: &Rc<Cell<u32>>) -> Result<Counted, AllocError>
    ensures { IfOk result (λ guide. guide.heard ≡ 0) }
{
    Ok(Counted {
        heard: 0,
        drops: drops.clone()?,
        told: told.clone()?,
    })
}

/// Files that keep how many guides were dropped when the first was taken, and have no memory to
/// answer.
#[derive(Drop)]
struct Watching {
    drops: Rc<Cell<u32>>,
    seen: Rc<Cell<u32>>,
}

impl Files for Watching {
    ghost contents = { λ _ _. None };

    ghost faults = { λ _ _. 0 };

    fn take(&mut self, _alloc: Global, _name: &str, _most: u64) -> Result<Taken, TakeFault> {
        self.seen.set(self.drops.get());
        Err(TakeFault::Memory)
    }
}

/// A run with three guides that count their drops, over files that watch the count.
fn watched_run(
    alloc: Global,
    line: &str,
    drops: &Rc<Cell<u32>>,
    seen: &Rc<Cell<u32>>,
) -> Result<Status, AllocError> {
    let words = words_of(alloc, line)?;
    let mut sink = MemorySink::new(alloc, 1000, 1000)?;
    let mut files = Watching {
        drops: drops.clone()?,
        seen: seen.clone()?,
    };
    let told = Rc::new(alloc, Cell::new(0))?;
    let mut guides = Vec::new(alloc);
    seat(&mut guides, Box::new(alloc, counting_guide(drops, &told)?)?)?;
    seat(&mut guides, Box::new(alloc, counting_guide(drops, &told)?)?)?;
    seat(&mut guides, Box::new(alloc, counting_guide(drops, &told)?)?)?;
    Ok(run(alloc, words.as_slice(), &mut files, &mut sink, guides))
}

/// How often each of three guides was told of a node in a design that names one of them, and how
/// many were dropped.
fn told_of_nodes(alloc: Global, name: &str) -> Result<[u32; 4], AllocError> {
    let drops = Rc::new(alloc, Cell::new(0))?;
    let first = Rc::new(alloc, Cell::new(0))?;
    let second = Rc::new(alloc, Cell::new(0))?;
    let third = Rc::new(alloc, Cell::new(0))?;
    let line = format!(in alloc; "design job catalogue --guide {name}")?;
    let words = words_of(alloc, line.as_str())?;
    let mut files = files_of_a_mat(alloc)?;
    let mut sink = MemorySink::new(alloc, 1000, 1000)?;
    let mut guides = Vec::new(alloc);
    seat(
        &mut guides,
        Box::new(alloc, counting_guide(&drops, &first)?)?,
    )?;
    seat(
        &mut guides,
        Box::new(alloc, counting_guide(&drops, &second)?)?,
    )?;
    seat(
        &mut guides,
        Box::new(alloc, counting_guide(&drops, &third)?)?,
    )?;
    let _status = run(alloc, words.as_slice(), &mut files, &mut sink, guides);
    Ok([first.get(), second.get(), third.get(), drops.get()])
}

#[test]
fn the_guide_that_is_named_hears_of_each_node_and_no_other_hears_of_any(
    rt: HostRuntime,
) -> Result<(), Fail> {
    let rows = [
        ("cheapest", [5, 0, 0, 3]),
        ("thickest", [0, 5, 0, 3]),
        ("learner", [0, 0, 5, 3]),
    ];
    for (name, expected) in rows {
        let told = told_of_nodes(rt.alloc(), name)?;
        assert_eq!(rt; told, expected, "{name}");
    }
    Ok(())
}

#[test]
fn guides_that_the_mode_does_not_need_are_dropped_before_a_file_is_taken(
    rt: HostRuntime,
) -> Result<(), Fail> {
    let rows = [
        ("analyse job catalogue mat", Status::Memory, 3),
        ("design job catalogue", Status::Memory, 2),
        ("--help", Status::Usage, 0),
    ];
    for (line, status, dropped) in rows {
        let drops = Rc::new(rt.alloc(), Cell::new(0))?;
        let seen = Rc::new(rt.alloc(), Cell::new(0))?;
        let ended = watched_run(rt.alloc(), line, &drops, &seen)?;
        assert_eq!(rt; ended, status, "{line}");
        assert_eq!(rt; seen.get(), dropped, "when a file was taken");
        assert_eq!(rt; drops.get(), 3, "in the end");
    }
    Ok(())
}
