//! Files and sinks over the system, of whose contents nothing is told.

ghost use Rattle.std.specs.Prelude.{◌≡◌, ℕ, List, [], ◌≤◌, ◌+◌, None, IfOk, IfSome, OnOk, OnErr, length, IsErrOf, is_err, if◌then◌else◌};
ghost use Rattle.std.specs.Io.KnownBytes.{Consumes};
ghost use Rattle.lam_outside.specs.Holds.{IsTaken, TakesAtMost};
ghost use Rattle.lam_outside.specs.Counts.{raised, stalls_at, CountsStall};
ghost use Rattle.lam_outside.specs.inside.HostCounts.{read_faults, write_faults, write_stalls};

use crate::reading::{Bytes, Files, TakeFault, Taken};
use crate::writing::{Failed, Sink};
use std::alloc::Global;
use std::fs::File;
use std::io::{Read, Write};
use std::rt;

/// How much of a file is read in one turn: a page of memory.
const BUFFER: usize = 4096;

/// The files of the host, of whose contents nothing is told.
#[derive(Drop)]
pub struct HostFiles<R> {
    rt: R,
    faults: u64,
}

impl<R> HostFiles<R> {
    /// The files that the runtime reaches, with no fault so far.
    pub fn new(rt: R) -> HostFiles<R>
        ensures { read_faults result ≡ 0 }
    {
        HostFiles { rt, faults: 0 }
    }
}

impl<R: rt::Files> Files for HostFiles<R> {
    ghost contents = { λ _ _. None };

    ghost faults = { λ files _. read_faults files };

    fn take(&mut self, alloc: Global, name: &str, most: u64) -> Result<Taken, TakeFault>
        ensures raised { IsErrOf result TakeFault.Failed
            → read_faults self.new ≡ raised (read_faults self.old) }
        ensures unraised { ¬ (IsErrOf result TakeFault.Failed)
            → read_faults self.new ≡ read_faults self.old }
        ensures never_fall { read_faults self.old ≤ read_faults self.new }
        ensures bound { IfOk result (λ t. TakesAtMost most t) }
    {
        let outcome = match File::open(&self.rt, name) {
            Ok(mut file) => read_whole(alloc, &mut file, most),
            Err(_) => Err(TakeFault::Failed),
        };
        if let Err(TakeFault::Failed) = outcome {
            self.faults = self.faults.saturating_add(1);
        }
        outcome
    }
}

/// All that is left to read, if it has at most `most` bytes. Never more than `most + 1` are read.
fn read_whole<F: Read>(alloc: Global, file: &mut F, most: u64) -> Result<Taken, TakeFault>
    ensures bound { IfOk result (λ t. TakesAtMost most t) }
    ensures told { IfOk result (λ t. IfSome (F.remaining file.old) (λ bytes.
        IsTaken bytes most t)) }
    ensures reads { (bs : List ℕ) × (length bs ≤ most + 1)
        × Consumes (F.remaining file.old) (F.remaining file.new) bs }
{
    let mut bytes = Vec::new(alloc);
    let mut piece = [0u8; BUFFER];
    while bytes.len() as u64 <= most {
        let size = wanted(most - bytes.len() as u64);
        match file.read(&mut piece[..size]) {
            Ok(0) => return Ok(Taken::Whole(Bytes::from_vec(bytes))),
            Ok(n) => {
                if bytes.extend_from_slice(&piece[..n]).is_err() {
                    return Err(TakeFault::Memory);
                }
            }
            Err(_) => return Err(TakeFault::Failed),
        }
    }
    Ok(Taken::TooLong)
}

/// A sink over a writer of the host, of whose contents nothing is told.
#[derive(Drop)]
pub struct HostSink<W: Write + Drop> {
    writer: W,
    faults: u64,
    stalls: u64,
}

impl<W: Write + Drop> HostSink<W> {
    /// A sink over the writer, with no fault and no stall so far.
    pub fn new(writer: W) -> HostSink<W>
        ensures faults { write_faults result ≡ 0 }
        ensures stalls { write_stalls result ≡ 0 }
    {
        HostSink {
            writer,
            faults: 0,
            stalls: 0,
        }
    }
}

impl<W: Write + Drop> Sink for HostSink<W> {
    ghost written = { λ _. None };

    ghost faults = { write_faults };

    ghost stalls = { write_stalls };

    ghost terms = { λ _. [] };

    fn put(&mut self, piece: &[u8]) -> Result<usize, Failed>
        ensures bound { IfOk result (λ n. n ≤ length piece.now) }
        ensures faults { write_faults self.new ≡ (if is_err result
            then raised (write_faults self.old) else write_faults self.old) }
        ensures stalls { write_stalls self.new ≡ (if stalls_at result (length piece.now)
            then raised (write_stalls self.old) else write_stalls self.old) }
        ensures faults_never_fall { write_faults self.old ≤ write_faults self.new }
        ensures stalls_never_fall { write_stalls self.old ≤ write_stalls self.new }
        ensures stalled { CountsStall result (length piece.now)
            (write_stalls self.old) (write_stalls self.new) }
    {
        let outcome = write_and_flush(&mut self.writer, piece);
        match outcome {
            Ok(0) => {
                if !piece.is_empty() {
                    self.stalls = self.stalls.saturating_add(1);
                }
            }
            Ok(_) => {}
            Err(Failed) => self.faults = self.faults.saturating_add(1),
        }
        outcome
    }
}

fn write_and_flush<W: Write>(writer: &mut W, piece: &[u8]) -> Result<usize, Failed>
    ensures { IfOk result (λ n. n ≤ length piece.now) }
{
    let taken = writer.write(piece).map_err(|_| Failed)?;
    writer.flush().map_err(|_| Failed)?;
    Ok(taken)
}

/// How many bytes to ask for where `left` more and one are wanted.
fn wanted(left: u64) -> usize
    ensures some { 1 ≤ result }
    ensures room { result ≤ BUFFER }
    ensures within { result ≤ left + 1 }
{
    if left < BUFFER as u64 {
        left as usize + 1
    } else {
        BUFFER
    }
}
