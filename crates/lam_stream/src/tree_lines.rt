// The lines of a tree, read from bytes.

ghost use Rattle.std.specs.Prelude.{◌≡◌, ◌<◌, length, IfSome};
ghost use Rattle.std.specs.List.{position};
ghost use Rattle.lam_tree.specs.inside.LineReading.{node_of};
ghost use Rattle.lam_report.specs.LineText.{is_end, whole_lines};
ghost use Rattle.lam_stream.specs.inside.TreeNodes.{IsFirstLine, IsTaken, nodes_in};

use lam_check::Lines;
use lam_tree::{Node, read_line};

/// The nodes whose lines some bytes begin with, of a catalogue of so many items.
#[derive(Drop)]
pub struct TreeLines<'a> {
    pub bytes: &'a [u8],
    pub items: u8,
}

impl Lines for TreeLines<'_> {
    ghost use Rattle.lam_report.specs.LineText.{whole_lines};
    ghost use Rattle.lam_stream.specs.inside.TreeNodes.{nodes_in};

    ghost rest = { λ s. nodes_in s.items (whole_lines s.bytes.now) };

    fn next_line(&mut self) -> Option<Node> {
        match take_node(self.bytes, self.items) {
            Some((node, behind)) => {
                self.bytes = behind;
                Some(node)
            }
            None => None,
        }
    }
}

// the node of the first line and the bytes behind it, if that is the line of a node
fn take_node<'a>(bytes: &'a [u8], items: u8) -> Option<(Node, &'a [u8])>
    ensures { IsTaken items bytes.now result }
{
    match first_line(bytes) {
        Some((line, behind)) => match node_of_line(line, items) {
            Some(node) => Some((node, behind)),
            None => None,
        },
        None => None,
    }
}

// the node whose line this is
fn node_of_line(line: &[u8], items: u8) -> Option<Node>
    ensures { result ≡ node_of items line.now }
{
    read_line(line, items).ok()
}

// the first line and the bytes behind it, if a line ends
fn first_line<'a>(bytes: &'a [u8]) -> Option<(&'a [u8], &'a [u8])>
    ensures { IsFirstLine bytes.now result }
{
    match end_of_line(bytes) {
        Some(end) => Some((&bytes[..end], &bytes[end + 1..])),
        None => None,
    }
}

// the place of the first byte that ends a line
fn end_of_line(bytes: &[u8]) -> Option<usize>
    ensures place { result ≡ position is_end bytes.now }
    ensures within { IfSome result (λ k. k < length bytes.now) }
{
    bytes.iter().position(|b| *b == b'\n')
}
