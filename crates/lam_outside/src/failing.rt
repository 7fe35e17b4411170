//! The calls of an object in memory that are to fail.

ghost use Rattle.std.specs.Prelude.{◌≡◌, ◌↔◌, ◌∷◌, [], ◌++◌, IsTrue, OnOk, OnErr};
ghost use Rattle.lam_outside.specs.Calls.{no_calls, with_failing, IsDue, after_call};

use std::alloc::{AllocError, Global};
use std::marker::Model;

/// The calls of an object that are to fail, counted from 1 since its making.
#[derive(Debug, Drop)]
pub struct FailingCalls {
    made: u64,
    failing: Vec<u64>,
}

impl Model for FailingCalls {
    ghost use Rattle.lam_outside.specs.Calls.{Calls};

    ghost Value = { Calls };

    ghost view = { λ calls. record { made = calls.made; failing = calls.failing.items } };
}

impl FailingCalls {
    /// No call was made, and none is to fail.
    pub fn new(alloc: Global) -> FailingCalls
        ensures { result ≡ no_calls }
    {
        FailingCalls {
            made: 0,
            failing: Vec::new(alloc),
        }
    }

    /// Lets the call of that number fail.
    pub fn add(&mut self, call: u64) -> Result<(), AllocError>
        ensures ok { OnOk result (self.new ≡ with_failing self.old call) }
        ensures err { OnErr result (self.new ≡ self.old) }
    {
        self.failing.push(call)?;
        Ok(())
    }

    /// Counts one more call, and answers whether it fails.
    pub fn count(&mut self) -> bool
        ensures due { IsTrue result ↔ IsDue self.old }
        ensures after { self.new ≡ after_call self.old }
    {
        let failing = self.failing.as_slice();
        match self.made.checked_add(1) {
            Some(call) => {
                self.made = call;
                failing.contains(&call)
            }
            None => false,
        }
    }
}
