// The line of a node, written.

ghost use Rattle.std.specs.Prelude.{◌≡◌, ◌≤◌, ◌<◌, [], ℕ, length, take, drop};
ghost use Rattle.lam_tree.specs.Lines.{line_of, node_line, seat_words, word_words};
ghost use Rattle.lam_tree.specs.ReportRanges.{IsNode, IsSeat, IsWord};
ghost use Rattle.lam_tree.specs.inside.Added.{IsAdded};

use crate::line::Line;
use crate::node::{Node, Seat, Word};

/// Writes the line of a node, without the byte that ends it, at the start of a buffer, and answers
/// its length. It takes no memory.
pub fn write_line(node: &Node, line: &mut [u8; 64]) -> usize
    requires { IsNode 64 node.now }
    ensures text { take result line.new ≡ node_line node.now }
    ensures short { result < 48 }
    ensures rest { drop result line.new ≡ drop result line.old }
{
    let mut text = Line::new();
    write_seat(&mut text, &node.seat);
    write_word(&mut text, &node.word);
    text.put(line)
}

// the words of a seat, at the start of a line
fn write_seat(line: &mut Line, seat: &Seat)
    requires seat { IsSeat 64 seat.now }
    requires empty { line.old ≡ [] }
    ensures text { line.new ≡ line_of (seat_words seat.now) }
    ensures short { length line.new ≤ 9 }
{
    match seat {
        Seat::Length(n) => {
            line.word(b"length".as_slice());
            line.number(*n);
        }
        Seat::Item(item) => {
            line.word(b"item".as_slice());
            line.ordinal(item.0);
        }
    }
}

// the words of a word, behind its seat
fn write_word(line: &mut Line, word: &Word)
    requires word { IsWord word.now }
    requires room { length line.old ≤ 9 }
    ensures { IsAdded line.old line.new (word_words word.now) 32 }
{
    match word {
        Word::Split => line.add(b"split".as_slice()),
        Word::Cost => line.add(b"cost".as_slice()),
        Word::Rule(rule) => {
            line.add(b"rule".as_slice());
            line.number(rule.0);
        }
        Word::NetShort(case, weight) => {
            line.add(b"netshort".as_slice());
            line.ordinal(*case);
            line.weight(weight);
        }
        Word::NetCost(case, weight) => {
            line.add(b"netcost".as_slice());
            line.ordinal(*case);
            line.weight(weight);
        }
        Word::Box(at) => {
            line.add(b"box".as_slice());
            line.place(at);
        }
        Word::Range(case) => {
            line.add(b"range".as_slice());
            line.ordinal(*case);
        }
        Word::Fails(at) => {
            line.add(b"fails".as_slice());
            line.place(at);
        }
        Word::Buckles(panel) => {
            line.add(b"buckles".as_slice());
            line.ordinal(*panel);
        }
        Word::Straddles(spot) => {
            line.add(b"straddles".as_slice());
            line.spot(spot);
        }
        Word::Admissible => line.add(b"admissible".as_slice()),
    }
}
