// The words of a line, one after the other.

ghost use Rattle.std.specs.Prelude.{◌≡◌, ◌<◌, [], length, IsTrue, IfSome};
ghost use Rattle.std.specs.List.{position};
ghost use Rattle.lam_tree.specs.inside.Cut.{Takes, is_blank, is_empty, words_of};

use std::marker::Model;

/// The words of a line that are left to read. A blank ends each but the last.
#[derive(Drop)]
pub struct LineWords<'a> {
    rest: Option<&'a [u8]>,
}

impl<'a> Model for LineWords<'a> {
    ghost use Rattle.lam_tree.specs.inside.Cut.{Words, words_left};

    ghost Value = { Words };

    ghost view = { λ w. words_left w.rest };
}

impl<'a> LineWords<'a> {
    /// The words of a line: what stands between its blanks.
    pub fn of(line: &'a [u8]) -> LineWords<'a>
        ensures { result ≡ words_of line.now }
    {
        LineWords { rest: Some(line) }
    }

    /// Takes the first word, if there is one.
    pub fn next(&mut self) -> Option<&'a [u8]>
        ensures { Takes self.old result self.new }
    {
        let line = self.rest?;
        match blank_in(line) {
            Some(end) => {
                self.rest = Some(&line[end + 1..]);
                Some(&line[..end])
            }
            None => {
                self.rest = None;
                Some(line)
            }
        }
    }

    /// Tells whether no word is left.
    pub fn is_done(&self) -> bool
        ensures { result ≡ is_empty self.now }
    {
        match self.rest {
            Some(_) => false,
            None => true,
        }
    }
}

// the place of the first blank of a line
fn blank_in(line: &[u8]) -> Option<usize>
    ensures place { result ≡ position is_blank line.now }
    ensures within { IfSome result (λ k. k < length line.now) }
{
    line.iter().position(|b| *b == b' ')
}
