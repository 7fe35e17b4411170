// A line in the making.

ghost use Rattle.std.specs.Prelude.{◌≡◌, ◌≤◌, ◌<◌, ◌+◌, ◌++◌, ◌∷◌, [], ℕ, length, take, drop, decimal, unsigned_abs};
ghost use Rattle.std.specs.Fmt.{signed_decimal};
ghost use Rattle.lam_tree.specs.Lines.{ordinal, place_words, spot_words, weight_words, face_word, side_word};
ghost use Rattle.lam_tree.specs.inside.Added.{IsAdded};
ghost use Rattle.lam_tree.specs.ReportRanges.{IsPlace, IsSpot};

use crate::spot::Spot;
use itoa::Buffer;
use lam_support::Weight;
use lam_tsai::{FaceSide, Place, Side};
use std::marker::Model;

/// A line of at most 64 bytes, without memory.
#[derive(Drop)]
pub struct Line {
    bytes: [u8; 64],
    len: usize,
}

impl Model for Line {
    ghost use Rattle.std.specs.Prelude.{◌≤◌, ℕ, List, take};

    ghost Value = { List ℕ };

    ghost view = { λ l. take l.len l.bytes };

    ghost invariant = { λ l. l.len ≤ 64 };
}

impl Line {
    /// The empty line.
    pub fn new() -> Line
        ensures { result ≡ [] }
    {
        Line {
            bytes: [0; 64],
            len: 0,
        }
    }

    /// Puts the line at the start of a buffer.
    pub(crate) fn put(&self, buffer: &mut [u8; 64]) -> usize
        ensures text { take result buffer.new ≡ self.now }
        ensures long { result ≡ length self.now }
        ensures rest { drop result buffer.new ≡ drop result buffer.old }
    {
        buffer[..self.len].copy_from_slice(&self.bytes[..self.len]);
        self.len
    }

    /// Its bytes.
    pub fn bytes(&self) -> &[u8]
        ensures { result.now ≡ self.now }
    {
        &self.bytes[..self.len]
    }

    /// Puts a word at the end.
    pub fn word(&mut self, word: &[u8])
        requires { length self.old + length word.now ≤ 64 }
        ensures { self.new ≡ self.old ++ word.now }
    {
        let end = self.len + word.len();
        self.bytes[self.len..end].copy_from_slice(word);
        self.len = end;
    }

    /// Puts a blank and a word at the end.
    pub fn add(&mut self, word: &[u8])
        requires { length self.old + (length word.now + 1) ≤ 64 }
        ensures { IsAdded self.old self.new (word.now ∷ []) (length word.now + 1) }
    {
        self.word(b" ".as_slice());
        self.word(word);
    }

    /// Puts a blank and a number at the end.
    pub fn whole(&mut self, n: u64)
        requires { length self.old ≤ 43 }
        ensures { IsAdded self.old self.new (decimal n ∷ []) 21 }
    {
        let mut buffer = Buffer::new();
        self.add(buffer.format(n).as_bytes());
    }

    /// Puts a blank and a number of at most two digits at the end.
    pub(crate) fn number(&mut self, n: u8)
        requires few { n < 100 }
        requires room { length self.old ≤ 61 }
        ensures { IsAdded self.old self.new (decimal n ∷ []) 3 }
    {
        let mut buffer = Buffer::new();
        self.add(buffer.format(n).as_bytes());
    }

    /// The same of a number that counts from 0, and is printed from 1.
    pub fn ordinal(&mut self, n: u8)
        requires few { n < 99 }
        requires room { length self.old ≤ 61 }
        ensures { IsAdded self.old self.new (ordinal n ∷ []) 3 }
    {
        self.number(n + 1);
    }

    /// Puts a blank and a signed number of at most three digits at the end.
    fn signed(&mut self, n: i64)
        requires small { unsigned_abs n < 1000 }
        requires room { length self.old ≤ 59 }
        ensures { IsAdded self.old self.new (signed_decimal n ∷ []) 5 }
    {
        let mut buffer = Buffer::new();
        self.add(buffer.format(n).as_bytes());
    }

    /// Puts the words of a weight at the end.
    pub(crate) fn weight(&mut self, weight: &Weight)
        requires room { length self.old ≤ 49 }
        ensures { IsAdded self.old self.new (weight_words weight.now) 15 }
    {
        self.signed(weight.x);
        self.signed(weight.y);
        self.signed(weight.s);
    }

    fn face(&mut self, face: FaceSide)
        requires room { length self.old ≤ 58 }
        ensures { IsAdded self.old self.new (face_word face ∷ []) 6 }
    {
        match face {
            FaceSide::Inner => self.add(b"inner".as_slice()),
            FaceSide::Outer => self.add(b"outer".as_slice()),
        }
    }

    fn side(&mut self, side: Side)
        requires room { length self.old ≤ 58 }
        ensures { IsAdded self.old self.new (side_word side ∷ []) 6 }
    {
        match side {
            Side::Plus => self.add(b"plus".as_slice()),
            Side::Minus => self.add(b"minus".as_slice()),
        }
    }

    /// Puts the words of a place at the end.
    pub(crate) fn place(&mut self, at: &Place)
        requires place { IsPlace at.now }
        requires room { length self.old ≤ 46 }
        ensures { IsAdded self.old self.new (place_words at.now) 18 }
    {
        self.ordinal(at.case);
        self.ordinal(at.ply);
        self.face(at.face);
        self.side(at.side);
    }

    /// Puts the words of a spot at the end.
    pub fn spot(&mut self, spot: &Spot)
        requires spot { IsSpot spot.now }
        requires room { length self.old ≤ 42 }
        ensures { IsAdded self.old self.new (spot_words spot.now) 22 }
    {
        match spot {
            Spot::Ply(at) => {
                self.add(b"ply".as_slice());
                self.place(at);
            }
            Spot::Panel(panel) => {
                self.add(b"panel".as_slice());
                self.ordinal(*panel);
            }
        }
    }
}
