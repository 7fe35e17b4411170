//! Sinks that are written piece by piece, and writing a text into one.

ghost use Rattle.std.specs.Prelude.{◌≡◌, ℕ, ◌≤◌, List, length, Option, IfOk, OnErr, IsErrOf};
ghost use Rattle.std.specs.Io.KnownBytes.{WriteAppends};
ghost use Rattle.lam_outside.specs.Counts.{Rose, CountsStall};
ghost use Rattle.lam_outside.specs.Told.{Delivers};

use thiserror::Error;

/// A turn of a sink failed.
#[derive(Clone, Copy, Debug, PartialEq, Eq, Hash)]
pub struct Failed;

/// Why a text wasn't written whole.
#[derive(Clone, Copy, Debug, PartialEq, Eq, Hash, Error)]
pub enum WriteFault {
    /// A turn failed.
    #[error("Failed")]
    Failed,
    /// A turn took none of what was left.
    #[error("TookNone")]
    TookNone,
}

/// Where a text is written, piece by piece.
pub trait Sink {
    // The bytes that were written, where the sink tells them.
    ghost written: { Self → Option (List ℕ) };

    // The count of faults.
    ghost faults: { Self → ℕ };

    // The count of turns that took none of a piece that isn't empty.
    ghost stalls: { Self → ℕ };

    // The numbers on which the sink was made, which no turn changes.
    ghost terms: { Self → List ℕ };

    /// Takes the first bytes of `piece`, and answers how many it took.
    fn put(&mut self, piece: &[u8]) -> Result<usize, Failed>
        ensures bound { IfOk result (λ n. n ≤ length piece.now) }
        ensures faults_never_fall { faults self.old ≤ faults self.new }
        ensures stalls_never_fall { stalls self.old ≤ stalls self.new }
        ensures failed { OnErr result (Rose (faults self.old) (faults self.new)) }
        ensures stalled { CountsStall result (length piece.now)
            (stalls self.old) (stalls self.new) }
        ensures terms { terms self.new ≡ terms self.old }
        ensures written { WriteAppends (written self.old) (written self.new) result piece.now };
}

/// Puts all of `piece`, in as many turns as it takes.
pub fn put_all<K: Sink>(sink: &mut K, piece: &[u8]) -> Result<(), WriteFault>
    ensures faults_never_fall { K.faults sink.old ≤ K.faults sink.new }
    ensures stalls_never_fall { K.stalls sink.old ≤ K.stalls sink.new }
    ensures failed { IsErrOf result WriteFault.Failed
        → Rose (K.faults sink.old) (K.faults sink.new) }
    ensures took_none { IsErrOf result WriteFault.TookNone
        → Rose (K.stalls sink.old) (K.stalls sink.new) }
    ensures stalls_only_there { ¬ (IsErrOf result WriteFault.TookNone)
        → K.stalls sink.new ≡ K.stalls sink.old }
    ensures terms { K.terms sink.new ≡ K.terms sink.old }
    ensures written { Delivers (K.written sink.old) (K.written sink.new) result piece.now }
{
    let mut done = 0;
    while done < piece.len() {
        match sink.put(&piece[done..]) {
            Ok(0) => return Err(WriteFault::TookNone),
            Ok(n) => done += n,
            Err(Failed) => return Err(WriteFault::Failed),
        }
    }
    Ok(())
}

/// How many bytes of a text are put at once.
const PIECE: usize = 64;

/// Puts all of `text` in pieces of 64 bytes, the last with what is left.
pub fn put_text<K: Sink>(sink: &mut K, text: &[u8]) -> Result<(), WriteFault>
    ensures faults_never_fall { K.faults sink.old ≤ K.faults sink.new }
    ensures stalls_never_fall { K.stalls sink.old ≤ K.stalls sink.new }
    ensures failed { IsErrOf result WriteFault.Failed
        → Rose (K.faults sink.old) (K.faults sink.new) }
    ensures took_none { IsErrOf result WriteFault.TookNone
        → Rose (K.stalls sink.old) (K.stalls sink.new) }
    ensures stalls_only_there { ¬ (IsErrOf result WriteFault.TookNone)
        → K.stalls sink.new ≡ K.stalls sink.old }
    ensures terms { K.terms sink.new ≡ K.terms sink.old }
    ensures written { Delivers (K.written sink.old) (K.written sink.new) result text.now }
{
    for piece in text.chunks(PIECE) {
        put_all(sink, piece)?;
    }
    Ok(())
}
