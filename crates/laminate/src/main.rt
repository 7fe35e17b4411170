//! Designs, analyses and checks walls of reinforced plastic pressure cylinders and panels.
//!
//! The words, the files and the answer's way through them are in `top`.
#![tactic(auto)]

ghost use Rattle.std.specs.Prelude.{◌≡◌, ◌+◌, ◌^◌, ◌<◌, All, OnOk, length};

// How a run ends, and why it has no answer.
mod fault;
mod status;
// The files of an order, taken and read; the plies that a schedule word lists; and the first case
// that is out of range for them.
mod input;
mod range;
mod schedule;
// The printed ratios of the best schedule of a search.
mod printed;
// The modes, one file each.
mod modes;
// The top call.
mod top;

use crate::status::Status;
use lam_guide::{Cheapest, Guide, Learner, Thickest};
use lam_outside::{HostFiles, HostSink};
use std::alloc::{AllocError, Global};
use std::env::{self, Args};
use std::io::ErrorKind;
use std::process::ExitCode;

/// What the process ends with where its words can't be had for another cause than memory.
const NO_WORDS: u8 = 8;

fn main(rt: HostRuntime) -> ExitCode {
    let alloc = rt.alloc();
    let words = match env::args(&rt) {
        Ok(args) => words_of(alloc, args),
        Err(error) if error.kind() == ErrorKind::OutOfMemory => Err(AllocError),
        Err(_) => return ExitCode::from(NO_WORDS),
    };
    let Ok(words) = words else {
        return ExitCode::from(Status::Memory as u8);
    };
    match start(alloc, rt, words.as_slice()) {
        Ok(status) => ExitCode::from(status as u8),
        Err(_) => ExitCode::from(Status::Memory as u8),
    }
}

/// The words behind the program's own name, one by one: each growth that is refused is a want of
/// memory.
fn words_of(alloc: Global, args: Args<Global>) -> Result<Vec<String>, AllocError> {
    let mut words = Vec::new(alloc);
    for word in args.skip(1) {
        words.push(word)?;
    }
    Ok(words)
}

/// Boxes the three guides, and does what the words ask for.
fn start(alloc: Global, rt: HostRuntime, words: &[String]) -> Result<Status, AllocError> {
    let mut guides = Vec::new(alloc);
    seat(&mut guides, Box::new(alloc, Cheapest::new())?)?;
    seat(&mut guides, Box::new(alloc, Thickest::new())?)?;
    seat(&mut guides, Box::new(alloc, Learner::new())?)?;
    let mut sink = HostSink::new(rt.stdout());
    let mut files = HostFiles::new(rt);
    Ok(top::run(alloc, words, &mut files, &mut sink, guides))
}

/// Puts a guide that has heard little behind others of the kind.
fn seat(guides: &mut Vec<Box<dyn Guide>>, guide: Box<dyn Guide>) -> Result<(), AllocError>
    requires seated { All (λ g. heard_count g < 2 ^ 62) guides.old.items }
    requires quiet { heard_count guide < 2 ^ 62 }
    ensures seated { OnOk result (All (λ g. heard_count g < 2 ^ 62) guides.new.items) }
    ensures more { OnOk result (length guides.new.items ≡ length guides.old.items + 1) }
{
    guides.push(guide)?;
    Ok(())
}
