//! The lines of nodes, and a tree that grows.

ghost use Rattle.lam_tree.specs.Laws.{AcceptedKeepsPromise, ClosedReportsAgree};
ghost use Rattle.lam_tree.specs.ReportRanges.{IsNode};

use crate::{
    Node, Ratios, Seat, Spot, Tree, TreeFault, Word, accepted_keeps_promise, closed_reports_agree,
    read_line, write_line,
};
use lam_rules::RuleNo;
use lam_stock::ItemNo;
use lam_support::Weight;
use lam_tsai::{FaceSide, Place, Side};
use std::test::Fail;

const FIRST: Place = Place {
    case: 0,
    ply: 0,
    face: FaceSide::Inner,
    side: Side::Plus,
};

const LAST: Place = Place {
    case: 15,
    ply: 63,
    face: FaceSide::Outer,
    side: Side::Minus,
};

fn is_line(seat: Seat, word: Word, text: &[u8]) -> bool
    requires { IsNode 64 (record { seat = seat; word = word }) }
{
    let mut line = [0; 64];
    let long = write_line(&Node { seat, word }, &mut line);
    &line[..long] == text
}

#[test]
fn each_word_has_its_line(rt: HostRuntime) {
    let round = Weight { x: 0, y: 1, s: 0 };
    let greatest = Weight {
        x: -100,
        y: 100,
        s: -100,
    };
    assert!(rt; is_line(Seat::Length(1), Word::Split, b"length 1 split".as_slice()));
    assert!(rt; is_line(Seat::Length(56), Word::Cost, b"length 56 cost".as_slice()));
    assert!(rt;
        is_line(
            Seat::Item(ItemNo(0)),
            Word::Rule(RuleNo(4)),
            b"item 1 rule 4".as_slice()
        )
    );
    assert!(rt;
        is_line(
            Seat::Length(1),
            Word::NetShort(0, round),
            b"length 1 netshort 1 0 1 0".as_slice()
        )
    );
    assert!(rt;
        is_line(
            Seat::Item(ItemNo(63)),
            Word::NetCost(15, greatest),
            b"item 64 netcost 16 -100 100 -100".as_slice()
        )
    );
    assert!(rt;
        is_line(
            Seat::Item(ItemNo(0)),
            Word::Box(FIRST),
            b"item 1 box 1 1 inner plus".as_slice()
        )
    );
    assert!(rt;
        is_line(
            Seat::Item(ItemNo(1)),
            Word::Range(0),
            b"item 2 range 1".as_slice()
        )
    );
    assert!(rt;
        is_line(
            Seat::Item(ItemNo(0)),
            Word::Fails(FIRST),
            b"item 1 fails 1 1 inner plus".as_slice()
        )
    );
    assert!(rt;
        is_line(
            Seat::Item(ItemNo(0)),
            Word::Buckles(7),
            b"item 1 buckles 8".as_slice()
        )
    );
    assert!(rt;
        is_line(
            Seat::Item(ItemNo(0)),
            Word::Straddles(Spot::Panel(0)),
            b"item 1 straddles panel 1".as_slice()
        )
    );
    assert!(rt;
        is_line(
            Seat::Length(56),
            Word::Straddles(Spot::Ply(LAST)),
            b"length 56 straddles ply 16 64 outer minus".as_slice()
        )
    );
    assert!(rt;
        is_line(
            Seat::Item(ItemNo(0)),
            Word::Admissible,
            b"item 1 admissible".as_slice()
        )
    );
}

#[test]
fn a_tree_keeps_its_nodes_in_order(rt: HostRuntime) -> Result<(), Fail> {
    let split = Node {
        seat: Seat::Length(1),
        word: Word::Split,
    };
    let leaf = Node {
        seat: Seat::Item(ItemNo(0)),
        word: Word::Admissible,
    };
    let mut tree = Tree::new(rt.alloc());
    tree.push(split)?;
    tree.push(leaf)?;
    assert_eq!(rt; tree.nodes().len(), 2);
    assert_eq!(rt; tree.nodes()[0], split);
    assert_eq!(rt; tree.nodes()[1], leaf);
    let ratios = Ratios::of(vec![in rt.alloc(); 5555]?);
    assert_eq!(rt; ratios.items()[0], 5555);
    Ok(())
}

// the laws, as a caller has them
fn the_laws_are_had()
    ensures kept { AcceptedKeepsPromise }
    ensures agree { ClosedReportsAgree }
{
    accepted_keeps_promise();
    closed_reports_agree();
}

#[test]
fn a_line_is_read_as_its_node(rt: HostRuntime) {
    the_laws_are_had();
    let node = Node {
        seat: Seat::Item(ItemNo(63)),
        word: Word::Straddles(Spot::Ply(LAST)),
    };
    let line = b"item 64 straddles ply 16 64 outer minus".as_slice();
    assert!(rt; read_line(line, 64) == Ok(node));
    assert!(rt; read_line(line, 63) == Err(TreeFault));
    assert!(rt; read_line(b"item 01 cost".as_slice(), 64) == Err(TreeFault));
    assert!(rt; read_line(b"item 1 cost ".as_slice(), 64) == Err(TreeFault));
    assert!(rt; read_line(b"item 1 netcost 1 0 -0 1".as_slice(), 64) == Err(TreeFault));
    assert!(rt; read_line(b"item 1 netcost 1 0 0 0".as_slice(), 64) == Err(TreeFault));
}
