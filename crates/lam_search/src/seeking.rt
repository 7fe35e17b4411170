// A tree is read again, for the first leaf that straddles and costs less than the best schedule.

ghost use Rattle.std.specs.Prelude.{◌≡◌, ◌≢◌, ℕ, suc, ◌+◌, ◌-◌, ◌<◌, ◌≤◌, ◌∷◌, length, List, drop, Some, None, IsNone, IfSome, if◌then◌else◌};
ghost use Rattle.lam_stock.specs.declared.item.ItemNo.{ItemNo as ItemNoSpec};
ghost use Rattle.lam_job.specs.Partial.{Partial as PartialSpec, child, half as half_spec, completion};
ghost use Rattle.lam_job.specs.JobData.{JobData};
ghost use Rattle.lam_job.specs.Schedule.{cost_of};
ghost use Rattle.lam_rules.specs.Conditions.{IsPartial};
ghost use Rattle.lam_tree.specs.declared.node.Node.{Node as NodeSpec};
ghost use Rattle.lam_tree.specs.declared.node.Seat.TheVariants as seat;
ghost use Rattle.lam_tree.specs.declared.node.Word.{Word as WordSpec};
ghost use Rattle.lam_tree.specs.Reading.{Reading, Whole, tree, children, lengths, read, due_item};
ghost use Rattle.lam_tree.specs.Checks.{is_cheaper as is_cheaper_spec};
ghost use Rattle.lam_search.specs.inside.Here.{basis_of};
ghost use Rattle.lam_search.specs.inside.Ready.{IsReady, basis_at};
ghost use Rattle.lam_search.specs.inside.Sights.{Sees, SeesAll, had_by, tree_of};

use crate::closings::is_full;
use crate::design::Design;
use crate::writing::is_cheaper;
use lam_bounds::Fixed;
use lam_rules::{Partial, fixed_plies};
use lam_stock::{ItemNo, Stack};
use lam_tree::{Near, Node, Seat, Spot, Word};
use std::alloc::Global;

/// What is seen of a part of a tree.
#[derive(Drop)]
pub enum Sight {
    /// The first leaf that straddles below the cost.
    Seen(Near),
    /// There is none; the next node stands at this place.
    Passed(usize),
    /// These lines are not those of a whole tree.
    Lost,
}

/// Reads the trees of all lengths.
pub fn seek_all(alloc: Global, design: &Design, best: Option<u64>, nodes: &[Node]) -> Sight
    requires { IsReady design.now }
    ensures { SeesAll (basis_at design.now) best nodes.now
        (read design.now.stock.now design.now.job.now nodes.now) result }
{
    let job = design.job;
    let limit = job.limit;
    let mut at = 0;
    for n in 1..limit + 1 {
        let Some(word) = next_length(nodes, at, n) else {
            return Sight::Lost;
        };
        let root = Partial {
            n,
            prefix: Stack::new(alloc),
        };
        let sight = seek(design, best, nodes, at + 1, word, &root);
        let Sight::Passed(to) = sight else {
            return sight;
        };
        at = to;
    }
    if at < nodes.len() {
        return Sight::Lost;
    }
    Sight::Passed(at)
}

// the word of the next line, where that is the node of a length
fn next_length(nodes: &[Node], at: usize, n: u8) -> Option<Word>
    requires { at ≤ length nodes.now }
    ensures some { IfSome result (λ w. drop at nodes.now
        ≡ record { seat = seat.Length n; word = w } ∷ drop (at + 1) nodes.now) }
    ensures within { IfSome result (λ w. at < length nodes.now) }
    ensures none { IsNone result → (items to_come : ℕ) (job : JobData)
        → (lengths items job (suc to_come) n (drop at nodes.now)).ending ≢ Whole }
{
    if at >= nodes.len() {
        return None;
    }
    match nodes[at].seat {
        Seat::Length(other) => word_if(other == n, nodes[at].word),
        Seat::Item(_) => None,
    }
}

// a word, where something is so
fn word_if(is: bool, word: Word) -> Option<Word>
    ensures { result ≡ if is then Some word else None }
{
    if is { Some(word) } else { None }
}

// reads the tree of a partial schedule, whose node has this word, from behind that node's line
fn seek(
    design: &Design,
    best: Option<u64>,
    nodes: &[Node],
    from: usize,
    word: Word,
    partial: &Partial,
) -> Sight
    requires ready { IsReady design.now }
    requires partial { IsPartial design.now.stock.now design.now.job.now partial.now }
    requires from { from ≤ length nodes.now }
    ensures { Sees (basis_at design.now) best nodes.now (tree_of (basis_at design.now) partial.now
        word (drop from nodes.now)) result }
{
    let Word::Split = word else {
        return leaf(design, best, nodes, from, word, partial);
    };
    if is_full(design, partial) {
        return Sight::Lost;
    }
    let count = design.stock.items().len();
    let mut had = [false; 64];
    let mut at = from;
    for _k in 0..count {
        let Some((item, word)) = next_child(nodes, at, &had, count) else {
            return Sight::Lost;
        };
        had[item.0 as usize] = true;
        let child = child_of(partial, item);
        let sight = seek(design, best, nodes, at + 1, word, &child);
        let Sight::Passed(to) = sight else {
            return sight;
        };
        at = to;
    }
    Sight::Passed(at)
}

// the partial schedule with one ply more
fn child_of(partial: &Partial, item: ItemNo) -> Partial
    requires { length partial.now.prefix < 64 }
    ensures { result ≡ child partial.now item }
{
    let mut prefix = partial.prefix.copied();
    prefix.push(item);
    Partial {
        n: partial.n,
        prefix,
    }
}

// the item and the word of the next line, where that is the node of a child which is due
fn next_child(nodes: &[Node], at: usize, had: &[bool; 64], count: usize) -> Option<(ItemNo, Word)>
    requires at { at ≤ length nodes.now }
    requires few { count ≤ 64 }
    ensures some { IfSome result (λ c. drop at nodes.now
        ≡ record { seat = seat.Item c.0; word = c.1 } ∷ drop (at + 1) nodes.now) }
    ensures within { IfSome result (λ c. at < length nodes.now) }
    ensures item { IfSome result (λ c. c.0.0 < count) }
    ensures due { IfSome result (λ c.
        due_item count (had_by had.now) (seat.Item c.0) ≡ Some c.0) }
    ensures none { IsNone result
        → (T : PartialSpec → WordSpec → List NodeSpec → (List NodeSpec → Reading) → Reading)
        → (to_come : ℕ) (p : PartialSpec) (next : List NodeSpec → Reading)
        → (children count T (suc to_come) (had_by had.now) p (drop at nodes.now) next).ending
        ≢ Whole }
{
    if at >= nodes.len() {
        return None;
    }
    let Seat::Item(item) = nodes[at].seat else {
        return None;
    };
    if item.0 as usize >= count {
        return None;
    }
    if had[item.0 as usize] {
        return None;
    }
    Some((item, nodes[at].word))
}

// reads a leaf
fn leaf(
    design: &Design,
    best: Option<u64>,
    nodes: &[Node],
    from: usize,
    word: Word,
    partial: &Partial,
) -> Sight
    requires ready { IsReady design.now }
    requires partial { IsPartial design.now.stock.now design.now.job.now partial.now }
    requires from { from ≤ length nodes.now }
    requires leaf { word ≢ Word.Split }
    ensures { Sees (basis_at design.now) best nodes.now (tree_of (basis_at design.now) partial.now
        word (drop from nodes.now)) result }
{
    match word {
        Word::Straddles(spot) => near_or(near_of(design, partial, spot), best, from),
        _ => Sight::Passed(from),
    }
}

// the completion of a partial schedule, where it straddles
fn near_of(design: &Design, partial: &Partial, at: Spot) -> Near
    requires ready { IsReady design.now }
    requires partial { IsPartial design.now.stock.now design.now.job.now partial.now }
    ensures { let stock = design.now.stock.now in let job = design.now.job.now in
        let plies = completion job partial.now in
        result ≡ record { plies = plies; cost = cost_of stock job plies; at = at } }
{
    Near {
        plies: fixed_plies(design.job, partial),
        cost: Fixed::of(design.job, design.stock, design.bounds, partial).cost(),
        at,
    }
}

// a straddling schedule that is cheaper than the best one, or the next place
fn near_or(near: Near, best: Option<u64>, from: usize) -> Sight
    ensures { result
        ≡ if is_cheaper_spec near.cost best then Sight.Seen near else Sight.Passed from }
{
    if is_cheaper(near.cost, best) {
        Sight::Seen(near)
    } else {
        Sight::Passed(from)
    }
}
