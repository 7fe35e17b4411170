// Bytes, read by lines.

ghost use Rattle.std.specs.Prelude.{◌≡◌, ◌<◌, ◌≤◌, [], length, count_by, IfSome};
ghost use Rattle.std.specs.List.{position};
ghost use Rattle.lam_report.specs.LineText.{is_end, whole_lines};
ghost use Rattle.lam_report.specs.inside.Left.{IsNext, bytes_of, left_of};

use std::marker::Model;

/// What is left of bytes.
#[derive(Drop)]
pub(crate) struct Lines<'a> {
    rest: &'a [u8],
}

impl<'a> Model for Lines<'a> {
    ghost use Rattle.lam_report.specs.inside.Left.{Left, left_of};

    ghost Value = { Left };

    ghost view = { λ l. left_of l.rest.now };
}

impl<'a> Lines<'a> {
    pub(crate) fn of(bytes: &'a [u8]) -> Lines<'a>
        ensures { result ≡ left_of bytes.now }
    {
        Lines { rest: bytes }
    }

    /// The next line and the bytes behind it, if a line is left.
    pub(crate) fn next(&self) -> Option<(&'a [u8], &'a [u8])>
        ensures { IsNext self.now result }
    {
        let rest = self.rest;
        match end_of_line(rest) {
            Some(end) => Some((&rest[..end], &rest[end + 1..])),
            None => None,
        }
    }

    /// Goes on with these bytes.
    pub(crate) fn go_on(&mut self, rest: &'a [u8])
        ensures { self.new ≡ left_of rest.now }
    {
        self.rest = rest;
    }

    /// How many bytes are left.
    pub(crate) fn len(&self) -> usize
        ensures { result ≡ length (bytes_of self.now) }
    {
        self.rest.len()
    }

    /// How many whole lines are left.
    pub(crate) fn count(&self) -> usize
        ensures { result ≡ length self.now.lines }
    {
        count_lines(self.rest)
    }
}

// the place of the first byte that ends a line
fn end_of_line(bytes: &[u8]) -> Option<usize>
    ensures place { result ≡ position is_end bytes.now }
    ensures within { IfSome result (λ k. k < length bytes.now) }
{
    bytes.iter().position(|b| *b == b'\n')
}

/// How many whole lines there are.
pub(crate) fn count_lines(bytes: &[u8]) -> usize
    ensures value { result ≡ length (whole_lines bytes.now) }
    ensures few { result ≤ length bytes.now }
{
    count_ends(bytes)
}

// how many bytes end a line
fn count_ends(bytes: &[u8]) -> usize
    ensures value { result ≡ count_by is_end bytes.now }
    ensures few { result ≤ length bytes.now }
{
    bytes.iter().filter(|b| **b == b'\n').count()
}
