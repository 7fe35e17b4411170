//! Files that are read whole, by name, and what reading one answers.

ghost use Rattle.std.specs.Prelude.{◌≡◌, ℕ, ◌≤◌, List, Option, IfOk, IfSome, IsErrOf};
ghost use Rattle.lam_outside.specs.Counts.{Rose};

use std::alloc::Global;
use std::marker::Model;
use thiserror::Error;

/// A list of bytes.
#[derive(Debug, Drop)]
pub struct Bytes {
    items: Vec<u8>,
}

impl Model for Bytes {
    ghost Value = { List ℕ };

    ghost view = { λ bytes. bytes.items.items };
}

impl Bytes {
    /// The bytes of a vector, whose memory they keep.
    pub fn from_vec(items: Vec<u8>) -> Bytes
        ensures { result ≡ items.items }
    {
        Bytes { items }
    }

    /// The bytes in order.
    pub fn items(&self) -> &[u8]
        ensures { result.now ≡ self.now }
    {
        self.items.as_slice()
    }
}

/// What `take` answers of a file.
#[derive(Debug, Drop)]
pub enum Taken {
    /// All bytes of the file.
    Whole(Bytes),
    /// The file is longer than was asked for.
    TooLong,
}

/// Why `take` answers no contents.
#[derive(Clone, Copy, Debug, PartialEq, Eq, Hash, Error)]
pub enum TakeFault {
    /// The file isn't there or couldn't be read.
    #[error("Failed")]
    Failed,
    /// Memory ran out.
    #[error("Memory")]
    Memory,
}

/// Files that are read whole, by name.
pub trait Files {
    ghost use Rattle.lam_outside.specs.Holds.{IsTaken, TakesAtMost};

    // The contents by name: None where they aren't told, or no file has the name.
    ghost contents: { Self → List ℕ → Option (List ℕ) };

    // The count of faults of each name.
    ghost faults: { Self → List ℕ → ℕ };

    /// Takes the contents of the file `name`, if they have at most `most` bytes.
    fn take(&mut self, alloc: Global, name: &str, most: u64) -> Result<Taken, TakeFault>
        ensures same { (n : List ℕ) → contents self.new n ≡ contents self.old n }
        ensures never_fall { (n : List ℕ) → faults self.old n ≤ faults self.new n }
        ensures failed { IsErrOf result TakeFault.Failed
            → Rose (faults self.old name.now) (faults self.new name.now) }
        ensures told { IfOk result (λ t. IfSome (contents self.old name.now) (λ bytes.
            IsTaken bytes most t)) }
        ensures bound { IfOk result (λ t. TakesAtMost most t) };
}
