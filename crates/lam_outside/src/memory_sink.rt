//! A sink in memory, with a room, a step and calls that fail.

ghost use Rattle.std.specs.Prelude.{◌≡◌, ◌↔◌, ◌∷◌, [], ◌++◌, ◌+◌, ◌≤◌, ◌<◌, ◌==◌, nat_lt, ◌&&◌, if◌then◌else◌, length, take, Some, IsErr, IfOk, OnOk, OnErr};
ghost use Rattle.std.specs.Io.KnownBytes.{WriteAppends};
ghost use Rattle.lam_outside.specs.Counts.{raised, Rose, stalls_at, CountsStall};
ghost use Rattle.lam_outside.specs.Calls.{with_failing, IsDue, after_call};
ghost use Rattle.lam_outside.specs.SinkState.{empty_sink, turn_takes, terms_of};

use crate::failing::FailingCalls;
use crate::writing::{Failed, Sink};
use std::alloc::{AllocError, Global};
use std::marker::Model;

/// A sink in memory, with room for a number of bytes that are taken in turns of at most a step.
#[derive(Debug, Drop)]
pub struct MemorySink {
    bytes: Vec<u8>,
    room: usize,
    step: usize,
    calls: FailingCalls,
    faults: u64,
    stalls: u64,
}

impl Model for MemorySink {
    ghost use Rattle.std.specs.Prelude.{◌≡◌, [], ◌≤◌, ◌<◌, vec_len, vec_capacity};
    ghost use Rattle.lam_outside.specs.SinkState.{SinkState};

    ghost Value = { SinkState };

    ghost view = { λ s. record {
      written = s.bytes.items;
      room = s.room;
      step = s.step;
      calls = s.calls;
      faults = s.faults;
      stalls = s.stalls;
    } };

    ghost invariant = { λ s. record {
      within : vec_len s.bytes ≤ s.room;
      reserved : s.room ≤ vec_capacity s.bytes;
      steps : 1 ≤ s.step;
      fault_free : s.calls.failing ≡ [] → s.faults ≡ 0;
      full : 0 < s.stalls → vec_len s.bytes ≡ s.room;
    } };
}

impl MemorySink {
    /// An empty sink with room for `room` bytes, of which a turn takes at most `step`.
    pub fn new(alloc: Global, room: usize, step: usize) -> Result<MemorySink, AllocError>
        requires { 1 ≤ step }
        ensures { IfOk result (λ s. s ≡ empty_sink room step) }
    {
        Ok(MemorySink {
            bytes: Vec::with_capacity(alloc, room)?,
            room,
            step,
            calls: FailingCalls::new(alloc),
            faults: 0,
            stalls: 0,
        })
    }

    /// Lets the call of `put` of that number fail, counted from 1 since the making.
    pub fn fail(&mut self, call: u64) -> Result<(), AllocError>
        ensures ok { OnOk result (self.new
            ≡ record self.old { calls = with_failing self.old.calls call }) }
        ensures err { OnErr result (self.new ≡ self.old) }
    {
        self.calls.add(call)
    }

    /// The bytes that were written.
    pub fn written(&self) -> &[u8]
        ensures value { result.now ≡ self.now.written }
        ensures within { length result.now ≤ self.now.room }
        ensures fault_free { self.now.calls.failing ≡ [] → self.now.faults ≡ 0 }
        ensures full { 0 < self.now.stalls → length result.now ≡ self.now.room }
    {
        self.bytes.as_slice()
    }
}

impl Sink for MemorySink {
    ghost written = { λ s. Some s.written };

    ghost faults = { λ s. s.faults };

    ghost stalls = { λ s. s.stalls };

    ghost terms = { terms_of };

    fn put(&mut self, piece: &[u8]) -> Result<usize, Failed>
        ensures due { IsErr result ↔ IsDue self.old.calls }
        ensures takes { IfOk result (λ n. n ≡ turn_takes self.old piece.now) }
        ensures after_take { IfOk result (λ n. self.new ≡ record self.old {
          written = self.old.written ++ take n piece.now;
          calls = after_call self.old.calls;
          stalls = if stalls_at result (length piece.now)
              then raised self.old.stalls else self.old.stalls;
        }) }
        ensures after_fault { OnErr result (self.new ≡ record self.old {
          calls = after_call self.old.calls;
          faults = raised self.old.faults;
        }) }
        ensures bound { IfOk result (λ n. n ≤ length piece.now) }
        ensures faults_never_fall { self.old.faults ≤ self.new.faults }
        ensures stalls_never_fall { self.old.stalls ≤ self.new.stalls }
        ensures failed { OnErr result (Rose self.old.faults self.new.faults) }
        ensures stalled { CountsStall result (length piece.now) self.old.stalls self.new.stalls }
        ensures terms { terms_of self.new ≡ terms_of self.old }
        ensures written { WriteAppends (Some self.old.written) (Some self.new.written)
            result piece.now }
    {
        if self.calls.count() {
            self.faults = self.faults.saturating_add(1);
            return Err(Failed);
        }
        let left = self.room - self.bytes.len();
        let taken = piece.len().min(self.step).min(left);
        if taken == 0 && !piece.is_empty() {
            self.stalls = self.stalls.saturating_add(1);
        }
        match self.bytes.extend_from_slice(&piece[..taken]) {
            Ok(()) => Ok(taken),
            Err(_) => unreachable!(),
        }
    }
}
