// The nodes of a search tree.

use crate::spot::Spot;
use lam_rules::RuleNo;
use lam_stock::ItemNo;
use lam_support::Weight;
use lam_tsai::Place;

/// Where a node stands in its tree.
#[derive(Clone, Copy, PartialEq, Eq, Debug)]
pub enum Seat {
    /// The node of all schedules of so many plies.
    Length(u8),
    /// The schedules of the node above that go on with this item.
    Item(ItemNo),
}

/// What became of the schedules of a node. Cases, plies and panels count from 0.
#[derive(Clone, Copy, PartialEq, Eq, Debug)]
pub enum Word {
    /// They are split by the next item.
    Split,
    /// None costs less than the best one.
    Cost,
    /// All break a rule.
    Rule(RuleNo),
    /// Their plies cannot carry the load of a case, as a balance of weighted forces shows.
    NetShort(u8, Weight),
    /// What carries the load of a case costs no less than the best one.
    NetCost(u8, Weight),
    /// All that are in range fail at a place.
    Box(Place),
    /// The only one is out of range for a case.
    Range(u8),
    /// The only one fails at a place.
    Fails(Place),
    /// A panel of the only one buckles.
    Buckles(u8),
    /// The only one hangs at a spot: it is within one part in 200 of a factor there, fails nothing by
    /// more, and is not decided.
    Straddles(Spot),
    /// The only one may be built.
    Admissible,
}

/// A node: where it stands, and what became of it.
#[derive(Clone, Copy, PartialEq, Eq, Debug)]
pub struct Node {
    pub seat: Seat,
    pub word: Word,
}
