// A piece of a text.

ghost use Rattle.std.specs.Prelude.{◌≡◌, ◌≤◌, ◌+◌, ◌++◌, [], length};

use std::marker::Model;

/// How many bytes a whole piece has.
pub(crate) const PIECE: usize = 64;

/// A piece of at most 64 bytes.
#[derive(Drop)]
pub(crate) struct Piece {
    bytes: [u8; 64],
    len: usize,
}

impl Model for Piece {
    ghost use Rattle.std.specs.Prelude.{◌≤◌, ℕ, List, take};

    ghost Value = { List ℕ };

    ghost view = { λ p. take p.len p.bytes };

    ghost invariant = { λ p. p.len ≤ 64 };
}

impl Piece {
    pub(crate) fn new() -> Piece
        ensures { result ≡ [] }
    {
        Piece {
            bytes: [0; PIECE],
            len: 0,
        }
    }

    pub(crate) fn len(&self) -> usize
        ensures value { result ≡ length self.now }
        ensures most { result ≤ 64 }
    {
        self.len
    }

    pub(crate) fn bytes(&self) -> &[u8]
        ensures { result.now ≡ self.now }
    {
        &self.bytes[..self.len]
    }

    pub(crate) fn add(&mut self, part: &[u8])
        requires { length self.old + length part.now ≤ 64 }
        ensures { self.new ≡ self.old ++ part.now }
    {
        let end = self.len + part.len();
        self.bytes[self.len..end].copy_from_slice(part);
        self.len = end;
    }

    pub(crate) fn clear(&mut self)
        ensures { self.new ≡ [] }
    {
        self.len = 0;
    }
}
