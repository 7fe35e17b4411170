//! Files in memory, of which chosen calls fail.

ghost use Rattle.std.specs.Prelude.{◌≡◌, ◌≢◌, ◌↔◌, ◌⊎◌, ◌∷◌, [], ◌++◌, ◌+◌, ◌≤◌, ℕ, List, None, Some, IfOk, IfSome, IsSomeAnd, IsErrOf, OnOk, OnErr};
ghost use Rattle.lam_outside.specs.Counts.{raised, Rose};
ghost use Rattle.lam_outside.specs.Calls.{no_calls, with_failing, IsDue, after_call};
ghost use Rattle.lam_outside.specs.Kept.{told, faults_of, calls_of, SharesCount};
ghost use Rattle.lam_outside.specs.Holds.{IsTaken, TakesAtMost};

use crate::failing::FailingCalls;
use crate::reading::{Bytes, Files, TakeFault, Taken};
use std::alloc::{AllocError, Global};
use std::collections::BTreeMap;

/// The contents of a name, and its count of faults.
#[derive(Debug, Drop)]
pub struct Kept {
    contents: Bytes,
    faults: u64,
}

/// Files in memory.
#[derive(Debug, Drop)]
pub struct MemoryFiles {
    alloc: Global,
    kept: BTreeMap<String, Kept>,
    absent: u64,
    calls: FailingCalls,
}

impl MemoryFiles {
    /// No names, and no call of `take` that is to fail.
    pub fn new(alloc: Global) -> MemoryFiles
        ensures told { (n : List ℕ) → told result n ≡ None }
        ensures faults { (n : List ℕ) → faults_of result n ≡ 0 }
        ensures calls { calls_of result ≡ no_calls }
    {
        MemoryFiles {
            alloc,
            kept: BTreeMap::new(alloc),
            absent: 0,
            calls: FailingCalls::new(alloc),
        }
    }

    /// Gives the name these contents. A new name begins with the count of the absent names, and
    /// one that is there keeps its own.
    pub fn add(&mut self, name: &str, bytes: &[u8]) -> Result<(), AllocError>
        ensures named { OnOk result (told self.new name.now ≡ Some bytes.now) }
        ensures others { (n : List ℕ) → n ≢ name.now → told self.new n ≡ told self.old n }
        ensures err { OnErr result (told self.new name.now ≡ told self.old name.now) }
        ensures faults { (n : List ℕ) → faults_of self.new n ≡ faults_of self.old n }
        ensures calls { calls_of self.new ≡ calls_of self.old }
    {
        let contents = Bytes::from_vec(Vec::from_slice(self.alloc, bytes)?);
        match self.kept.get_mut(name) {
            Some(kept) => kept.contents = contents,
            None => {
                let faults = self.absent;
                let name = String::from_str(self.alloc, name)?;
                self.kept.insert(name, Kept { contents, faults })?;
            }
        }
        Ok(())
    }

    /// Lets the call of `take` of that number fail, counted from 1 since the making.
    pub fn fail(&mut self, call: u64) -> Result<(), AllocError>
        ensures ok { OnOk result (calls_of self.new ≡ with_failing (calls_of self.old) call) }
        ensures err { OnErr result (calls_of self.new ≡ calls_of self.old) }
        ensures told { (n : List ℕ) → told self.new n ≡ told self.old n }
        ensures faults { (n : List ℕ) → faults_of self.new n ≡ faults_of self.old n }
    {
        self.calls.add(call)
    }
}

fn taken(alloc: Global, contents: &Bytes, most: u64) -> Result<Taken, TakeFault>
    ensures told { IfOk result (λ t. IsTaken contents.now most t) }
    ensures never_failed { IsErrOf result TakeFault.Failed → ⊥ }
{
    let bytes = contents.items();
    if bytes.len() as u64 > most {
        return Ok(Taken::TooLong);
    }
    match Vec::from_slice(alloc, bytes) {
        Ok(copy) => Ok(Taken::Whole(Bytes::from_vec(copy))),
        Err(_) => Err(TakeFault::Memory),
    }
}

impl Files for MemoryFiles {
    ghost contents = { told };

    ghost faults = { faults_of };

    fn take(&mut self, alloc: Global, name: &str, most: u64) -> Result<Taken, TakeFault>
        ensures failing { IsErrOf result TakeFault.Failed
            ↔ (IsDue (calls_of self.old) ⊎ (told self.old name.now ≡ None)) }
        ensures there { IfOk result (λ t. IsSomeAnd (told self.old name.now) (λ bytes.
            IsTaken bytes most t)) }
        ensures calls { calls_of self.new ≡ after_call (calls_of self.old) }
        ensures raised { IsErrOf result TakeFault.Failed → (n : List ℕ)
            → SharesCount (told self.old) name.now n
            → faults_of self.new n ≡ raised (faults_of self.old n) }
        ensures others { IsErrOf result TakeFault.Failed → (n : List ℕ)
            → ¬ (SharesCount (told self.old) name.now n)
            → faults_of self.new n ≡ faults_of self.old n }
        ensures unraised { ¬ (IsErrOf result TakeFault.Failed)
            → (n : List ℕ) → faults_of self.new n ≡ faults_of self.old n }
        ensures same { (n : List ℕ) → told self.new n ≡ told self.old n }
        ensures never_fall { (n : List ℕ) → faults_of self.old n ≤ faults_of self.new n }
        ensures failed { IsErrOf result TakeFault.Failed
            → Rose (faults_of self.old name.now) (faults_of self.new name.now) }
        ensures told { IfOk result (λ t. IfSome (told self.old name.now) (λ bytes.
            IsTaken bytes most t)) }
        ensures bound { IfOk result (λ t. TakesAtMost most t) }
    {
        let is_due = self.calls.count();
        match self.kept.get_mut(name) {
            None => {
                self.absent = self.absent.saturating_add(1);
                Err(TakeFault::Failed)
            }
            Some(kept) => {
                if is_due {
                    kept.faults = kept.faults.saturating_add(1);
                    return Err(TakeFault::Failed);
                }
                taken(alloc, &kept.contents, most)
            }
        }
    }
}
