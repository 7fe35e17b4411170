// A text on its way into a sink, in pieces of 64 bytes.

ghost use Rattle.std.specs.Prelude.{◌≡◌, ◌≤◌, ◌+◌, ℕ, ◌∷◌, [], List, Option, length};
ghost use Rattle.std.specs.Result.{result_err};
ghost use Rattle.lam_outside.specs.Told.{Delivers};
ghost use Rattle.lam_report.specs.LineText.{text_of};
ghost use Rattle.lam_report.specs.inside.Pieces.{Counted, Handed, Puts, PutsText, none_kept, seen};

use crate::piece::{PIECE, Piece};
use lam_outside::{Sink, WriteFault, put_all};
use std::marker::Model;

/// The start of a piece, and the fault of an earlier one, after which nothing is put.
#[derive(Drop)]
pub(crate) struct Pieces {
    piece: Piece,
    fault: Option<WriteFault>,
}

impl Model for Pieces {
    ghost use Rattle.std.specs.Prelude.{◌<◌, length};
    ghost use Rattle.lam_report.specs.inside.Pieces.{Kept};

    ghost Value = { Kept };

    ghost view = { λ p. record { left = p.piece; fault = p.fault } };

    ghost invariant = { λ p. length p.piece < 64 };
}

impl Pieces {
    /// Nothing yet.
    pub(crate) fn new() -> Pieces
        ensures { result ≡ none_kept }
    {
        Pieces {
            piece: Piece::new(),
            fault: None,
        }
    }

    /// Puts a text.
    pub(crate) fn text<K: Sink>(&mut self, sink: &mut K, text: &[u8])
        ensures { PutsText K.written K.faults K.stalls K.terms sink.old self.old sink.new self.new
            text.now }
    {
        let mut rest = text;
        while !rest.is_empty() {
            let size = rest.len().min(PIECE - self.piece.len());
            self.part(sink, &rest[..size]);
            rest = &rest[size..];
        }
    }

    // puts a text for which there is room, and the piece if that fills it
    fn part<K: Sink>(&mut self, sink: &mut K, part: &[u8])
        requires { length self.old.left + length part.now ≤ 64 }
        ensures { PutsText K.written K.faults K.stalls K.terms sink.old self.old sink.new self.new
            part.now }
    {
        self.piece.add(part);
        if self.piece.len() == PIECE {
            self.fault = put_after(self.fault, sink, self.piece.bytes());
            self.piece.clear();
        }
    }

    /// Puts a line.
    pub(crate) fn line<K: Sink>(&mut self, sink: &mut K, line: &[u8])
        ensures { PutsText K.written K.faults K.stalls K.terms sink.old self.old sink.new self.new
            (text_of (line.now ∷ [])) }
    {
        self.text(sink, line);
        self.text(sink, b"\n".as_slice());
    }

    /// Puts what is left.
    pub(crate) fn finish<K: Sink>(self, sink: &mut K) -> Result<(), WriteFault>
        ensures written { (start : Option (List ℕ)) (text : List ℕ)
            → Handed start (seen K.written K.faults K.stalls K.terms sink.old)
            self.left self.fault text
            → Delivers start (K.written sink.new) result text }
        ensures counted { Counted (seen K.written K.faults K.stalls K.terms sink.old)
            (seen K.written K.faults K.stalls K.terms sink.new) self.fault (result_err result) }
        ensures faults { K.faults sink.old ≤ K.faults sink.new }
        ensures stalls { K.stalls sink.old ≤ K.stalls sink.new }
        ensures terms { K.terms sink.new ≡ K.terms sink.old }
    {
        match put_after(self.fault, sink, self.piece.bytes()) {
            Some(fault) => Err(fault),
            None => Ok(()),
        }
    }
}

// puts a piece, unless there was a fault, and answers the first fault
fn put_after<K: Sink>(fault: Option<WriteFault>, sink: &mut K, piece: &[u8]) -> Option<WriteFault>
    ensures { Puts (seen K.written K.faults K.stalls K.terms sink.old) fault
        (seen K.written K.faults K.stalls K.terms sink.new) result piece.now }
{
    match fault {
        Some(fault) => Some(fault),
        None => put_all(sink, piece).err(),
    }
}
