// The line of a node, read.

ghost use Rattle.std.specs.Prelude.{◌≡◌, ◌≤◌, ◌<◌, ℕ, IfSome, IfOk, Some, None};
ghost use Rattle.lam_tree.specs.Lines.{node_line};
ghost use Rattle.lam_tree.specs.ReportRanges.{IsNode};
ghost use Rattle.lam_tree.specs.declared.node.Node.{Node};
ghost use Rattle.lam_tree.specs.inside.LineReading.{Reads, face_at, first_named, keyword_at, keywords, later_keywords, node_at, node_of, number_at, ordinal_at, place_at, seat_at, side_at, signed_at, spot_at, weight_at, weight_of, word_after, word_at};

use crate::limits::MOST_RULES;
use crate::line_words::LineWords;
use crate::node::{Node, Seat, Word};
use crate::spot::Spot;
use lam_job::{MOST_CASES, MOST_PANELS, MOST_PLIES, MOST_WALL_PLIES};
use lam_rules::RuleNo;
use lam_stock::{ItemNo, field};
use lam_support::Weight;
use lam_tsai::{FaceSide, Place, Side};

/// A line that is not that of a node.
#[derive(Clone, Copy, Debug, PartialEq, Eq)]
pub struct TreeFault;

/// Reads the line of a node, without the byte that ends it, in a tree over a catalogue of so many
/// items. It takes no memory.
pub fn read_line(line: &[u8], items: u8) -> Result<Node, TreeFault>
    ensures found { IfOk result (λ node. IsNode items node) }
    ensures text { IfOk result (λ node. line.now ≡ node_line node) }
    ensures only { (node : Node) → IsNode items node → line.now ≡ node_line node
        → result ≡ Ok node }
{
    match node_in(line, items) {
        Some(node) => Ok(node),
        None => Err(TreeFault),
    }
}

// the node whose line this is
#[tactic(auto, unfolding(crate::specs::inside::LineReading::node_of))]
fn node_in(line: &[u8], items: u8) -> Option<Node>
    ensures { result ≡ node_of items line.now }
{
    let mut words = LineWords::of(line);
    let node = node(&mut words, items)?;
    if words.is_done() { Some(node) } else { None }
}

#[tactic(auto, unfolding(crate::specs::inside::LineReading::node_at))]
fn node(words: &mut LineWords, items: u8) -> Option<Node>
    ensures { Reads result words.new (node_at items words.old) }
{
    let seat = seat(words, items)?;
    let word = word(words)?;
    Some(Node { seat, word })
}

#[tactic(auto, unfolding(crate::specs::inside::LineReading::seat_at))]
fn seat(words: &mut LineWords, items: u8) -> Option<Seat>
    ensures { Reads result words.new (seat_at items words.old) }
{
    let first = words.next()?;
    if first == b"length".as_slice() {
        let plies = number(words, 1, MOST_PLIES)?;
        Some(Seat::Length(plies))
    } else if first == b"item".as_slice() {
        let item = ordinal(words, items)?;
        Some(Seat::Item(ItemNo(item)))
    } else {
        None
    }
}

/// The first words of the words of nodes.
#[derive(Clone, Copy)]
enum Keyword {
    Split,
    Cost,
    Rule,
    NetShort,
    NetCost,
    Box,
    Range,
    Fails,
    Buckles,
    Straddles,
    Admissible,
}

#[tactic(auto, unfolding(crate::specs::inside::LineReading::word_at))]
fn word(words: &mut LineWords) -> Option<Word>
    ensures { Reads result words.new (word_at words.old) }
{
    let key = read_keyword(words)?;
    word_of(words, key)
}

#[tactic(auto, unfolding(crate::specs::inside::LineReading::keyword_at))]
fn read_keyword(words: &mut LineWords) -> Option<Keyword>
    ensures { Reads result words.new (keyword_at words.old) }
{
    let first = words.next()?;
    let key = keyword_named(first)?;
    Some(key)
}

// the keyword that a word names
fn keyword_named(word: &[u8]) -> Option<Keyword>
    ensures { result ≡ first_named keywords word.now }
{
    if word == b"split".as_slice() {
        return Some(Keyword::Split);
    }
    if word == b"cost".as_slice() {
        return Some(Keyword::Cost);
    }
    if word == b"rule".as_slice() {
        return Some(Keyword::Rule);
    }
    if word == b"netshort".as_slice() {
        return Some(Keyword::NetShort);
    }
    if word == b"netcost".as_slice() {
        return Some(Keyword::NetCost);
    }
    later_keyword_named(word)
}

// the same of the keywords behind those
fn later_keyword_named(word: &[u8]) -> Option<Keyword>
    ensures { result ≡ first_named later_keywords word.now }
{
    if word == b"box".as_slice() {
        Some(Keyword::Box)
    } else if word == b"range".as_slice() {
        Some(Keyword::Range)
    } else if word == b"fails".as_slice() {
        Some(Keyword::Fails)
    } else if word == b"buckles".as_slice() {
        Some(Keyword::Buckles)
    } else if word == b"straddles".as_slice() {
        Some(Keyword::Straddles)
    } else if word == b"admissible".as_slice() {
        Some(Keyword::Admissible)
    } else {
        None
    }
}

// the word that a keyword begins
fn word_of(words: &mut LineWords, key: Keyword) -> Option<Word>
    ensures { Reads result words.new (word_after key words.old) }
{
    match key {
        Keyword::Split => Some(Word::Split),
        Keyword::Cost => Some(Word::Cost),
        Keyword::Rule => {
            let rule = number(words, 1, MOST_RULES)?;
            Some(Word::Rule(RuleNo(rule)))
        }
        Keyword::NetShort => {
            let case = ordinal(words, MOST_CASES as u8)?;
            let weight = weight(words)?;
            Some(Word::NetShort(case, weight))
        }
        Keyword::NetCost => {
            let case = ordinal(words, MOST_CASES as u8)?;
            let weight = weight(words)?;
            Some(Word::NetCost(case, weight))
        }
        Keyword::Box => {
            let at = place(words)?;
            Some(Word::Box(at))
        }
        Keyword::Range => {
            let case = ordinal(words, MOST_CASES as u8)?;
            Some(Word::Range(case))
        }
        Keyword::Fails => {
            let at = place(words)?;
            Some(Word::Fails(at))
        }
        Keyword::Buckles => {
            let panel = ordinal(words, MOST_PANELS as u8)?;
            Some(Word::Buckles(panel))
        }
        Keyword::Straddles => {
            let at = read_spot(words)?;
            Some(Word::Straddles(at))
        }
        Keyword::Admissible => Some(Word::Admissible),
    }
}

/// Reads the words of a spot. It takes no memory.
#[tactic(auto, unfolding(crate::specs::inside::LineReading::spot_at))]
pub fn read_spot(words: &mut LineWords) -> Option<Spot>
    ensures { Reads result words.new (spot_at words.old) }
{
    let first = words.next()?;
    if first == b"ply".as_slice() {
        let at = place(words)?;
        Some(Spot::Ply(at))
    } else if first == b"panel".as_slice() {
        let panel = ordinal(words, MOST_PANELS as u8)?;
        Some(Spot::Panel(panel))
    } else {
        None
    }
}

#[tactic(auto, unfolding(crate::specs::inside::LineReading::place_at))]
fn place(words: &mut LineWords) -> Option<Place>
    ensures { Reads result words.new (place_at words.old) }
{
    let case = ordinal(words, MOST_CASES as u8)?;
    let ply = ordinal(words, MOST_WALL_PLIES as u8)?;
    let face = face(words)?;
    let side = side(words)?;
    Some(Place {
        case,
        ply,
        face,
        side,
    })
}

#[tactic(auto, unfolding(crate::specs::inside::LineReading::face_at))]
fn face(words: &mut LineWords) -> Option<FaceSide>
    ensures { Reads result words.new (face_at words.old) }
{
    let word = words.next()?;
    if word == b"inner".as_slice() {
        Some(FaceSide::Inner)
    } else if word == b"outer".as_slice() {
        Some(FaceSide::Outer)
    } else {
        None
    }
}

#[tactic(auto, unfolding(crate::specs::inside::LineReading::side_at))]
fn side(words: &mut LineWords) -> Option<Side>
    ensures { Reads result words.new (side_at words.old) }
{
    let word = words.next()?;
    if word == b"plus".as_slice() {
        Some(Side::Plus)
    } else if word == b"minus".as_slice() {
        Some(Side::Minus)
    } else {
        None
    }
}

#[tactic(auto, unfolding(crate::specs::inside::LineReading::weight_at))]
fn weight(words: &mut LineWords) -> Option<Weight>
    ensures { Reads result words.new (weight_at words.old) }
{
    let x = signed(words)?;
    let y = signed(words)?;
    let s = signed(words)?;
    let weight = make_weight(x, y, s)?;
    Some(weight)
}

// the weight of these parts, if they are in range and not all 0
fn make_weight(x: i64, y: i64, s: i64) -> Option<Weight>
    ensures { result ≡ weight_of x y s }
{
    let (a, b, c) = (x.unsigned_abs(), y.unsigned_abs(), s.unsigned_abs());
    let most = a.max(b).max(c);
    if most > 100 {
        return None;
    }
    if a + b + c < 1 {
        return None;
    }
    Some(Weight { x, y, s })
}

#[tactic(auto, unfolding(crate::specs::inside::LineReading::signed_at))]
fn signed(words: &mut LineWords) -> Option<i64>
    ensures { Reads result words.new (signed_at words.old) }
{
    let word = words.next()?;
    let n = field::number(word)?;
    Some(n)
}

// a number that is printed from 1, of so many
#[tactic(auto, unfolding(crate::specs::inside::LineReading::ordinal_at))]
fn ordinal(words: &mut LineWords, count: u8) -> Option<u8>
    ensures { Reads result words.new (ordinal_at count words.old) }
{
    let n = number(words, 1, count)?;
    Some(n - 1)
}

// a whole number in a range
fn number(words: &mut LineWords, low: u8, high: u8) -> Option<u8>
    ensures read { Reads result words.new (number_at low high words.old) }
    ensures range { IfSome result (λ n. (low ≤ n) × (n ≤ high)) }
{
    let n = read_number(words, low as u64, high as u64)?;
    Some(n as u8)
}

/// Reads a whole number in a range, both ends included. It takes no memory.
#[tactic(auto, unfolding(crate::specs::inside::LineReading::number_at))]
pub fn read_number(words: &mut LineWords, low: u64, high: u64) -> Option<u64>
    ensures read { Reads result words.new (number_at low high words.old) }
    ensures range { IfSome result (λ n. (low ≤ n) × (n ≤ high)) }
{
    let word = words.next()?;
    let n = field::whole(word)?;
    if n < low || n > high {
        return None;
    }
    Some(n)
}
