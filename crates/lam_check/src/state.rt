// The machine: a line of a tree is passed, or stops the check.

ghost use Rattle.std.specs.Prelude.{◌≡◌, ◌≢◌, ℕ, ◌↔◌, [], List, Option, IsTrue, OnOk, IfErr, if◌then◌else◌};
ghost use Rattle.lam_job.specs.Partial.{IsFull};
ghost use Rattle.lam_tree.specs.Reading.{read, ends, Whole, Cut};
ghost use Rattle.lam_tree.specs.declared.node.Node.{Node};
ghost use Rattle.lam_tree.specs.declared.report.Answer.{Answer};
ghost use Rattle.lam_tree.specs.Closings.{incumbent_with, lesser};
ghost use Rattle.lam_tree.specs.Checks.{undecided, is_cheaper as is_cheaper_spec};
ghost use Rattle.lam_check.specs.inside.Machine.{left, left_at, IsSettled, IsAt};
ghost use Rattle.lam_check.specs.inside.Steps.{IsTrueLeaf, Adds, Passes, PassesLine, Stops, StopsLine};

use crate::cursor::Cursor;
use crate::fault::CheckCause;
use crate::problem::Problem;
use lam_stock::ItemNo;
use lam_tree::{Answer, Near, Node, Spot, Word};

/// Where the machine is, and what it keeps of the lines that it passed.
#[derive(Drop)]
pub struct State {
    pub cursor: Cursor,
    /// The least cost of an admissible leaf.
    pub incumbent: Option<u64>,
    /// Of the first leaf that straddles and is cheaper than the printed best schedule: whether the
    /// answer names it.
    pub named: Option<bool>,
}

/// What is kept of a whole tree, or of one in which the lines end.
#[derive(Clone, Copy)]
pub struct Summary {
    /// The least cost of an admissible leaf.
    pub incumbent: Option<u64>,
    /// As in the state.
    pub named: Option<bool>,
    /// Tells whether the tree is whole.
    pub whole: bool,
}

impl State {
    /// Before the first line.
    pub fn new<P: Problem>(problem: &P) -> State
        ensures start { let m = P.basis problem.now in (lines : List Node)
            → left m result.cursor lines ≡ read m.stock m.job lines }
        ensures settled { IsSettled (P.basis problem.now) result.cursor }
        ensures incumbent { result.incumbent ≡ None }
        ensures named { result.named ≡ None }
    {
        State {
            cursor: Cursor::new(problem),
            incumbent: None,
            named: None,
        }
    }

    /// Reads a line, with the answer that is printed and the cost of the best schedule.
    pub fn read_line<P: Problem>(
        &mut self,
        problem: &P,
        answer: &Answer,
        best: Option<u64>,
        node: &Node,
    ) -> Result<(), CheckCause>
        requires { IsSettled (P.basis problem.now) self.old.cursor }
        ensures ok { OnOk result
            (PassesLine (P.basis problem.now) answer.now best self.old self.new node.now) }
        ensures err { IfErr result
            (λ cause. StopsLine (P.basis problem.now) best self.old cause node.now) }
    {
        if !self.cursor.sit(problem, node.seat) {
            return Err(CheckCause::Order);
        }
        match node.word {
            Word::Split => self.split(problem),
            word => self.close(problem, answer, best, word),
        }
    }

    // a split of the partial schedule
    fn split<P: Problem>(&mut self, problem: &P) -> Result<(), CheckCause>
        requires { IsAt (P.basis problem.now) self.old.cursor }
        ensures ok { OnOk result ((given : Answer) (best : Option ℕ)
            → Passes (P.basis problem.now) given best
            (left_at (P.basis problem.now) self.old.cursor Word.Split)
            self.old self.new self.old.cursor.partial Word.Split) }
        ensures err { IfErr result (λ cause. (best : Option ℕ)
            → Stops (P.basis problem.now) best
            (left_at (P.basis problem.now) self.old.cursor Word.Split)
            self.old cause self.old.cursor.partial Word.Split) }
    {
        if !problem.may_split(self.incumbent, &self.cursor.partial) {
            return Err(CheckCause::Unlawful);
        }
        self.cursor.split(problem);
        Ok(())
    }

    // a leaf at the partial schedule
    fn close<P: Problem>(
        &mut self,
        problem: &P,
        answer: &Answer,
        best: Option<u64>,
        word: Word,
    ) -> Result<(), CheckCause>
        requires at { IsAt (P.basis problem.now) self.old.cursor }
        requires leaf { word ≢ Word.Split }
        ensures ok { OnOk result
            (Passes (P.basis problem.now) answer.now best
            (left_at (P.basis problem.now) self.old.cursor word)
            self.old self.new self.old.cursor.partial word) }
        ensures err { IfErr result (λ cause.
            Stops (P.basis problem.now) best (left_at (P.basis problem.now) self.old.cursor word)
            self.old cause self.old.cursor.partial word) }
    {
        if !problem.closes(best, &self.cursor.partial, word) {
            return Err(CheckCause::Leaf);
        }
        self.keep(problem, answer, best, word);
        self.cursor.leave(problem);
        Ok(())
    }

    // keeps what a leaf says of costs
    fn keep<P: Problem>(&mut self, problem: &P, answer: &Answer, best: Option<u64>, word: Word)
        requires at { IsAt (P.basis problem.now) self.old.cursor }
        requires so { IsTrueLeaf (P.basis problem.now) best self.old.cursor.partial word }
        ensures cursor { self.new.cursor ≡ self.old.cursor }
        ensures incumbent { let m = P.basis problem.now in self.new.incumbent
            ≡ incumbent_with m.stock m.job self.old.incumbent self.old.cursor.partial word }
        ensures named { let m = P.basis problem.now in Adds answer.now self.old.named self.new.named
            (undecided m.stock m.job best self.old.cursor.partial word) }
    {
        match word {
            Word::Admissible => self.keep_cost(problem),
            Word::Straddles(spot) => self.keep_name(problem, answer, best, spot),
            _ => {}
        }
    }

    // keeps the cost of an admissible leaf
    fn keep_cost<P: Problem>(&mut self, problem: &P)
        requires at { IsAt (P.basis problem.now) self.old.cursor }
        requires full { IsFull (P.basis problem.now).job self.old.cursor.partial }
        ensures cursor { self.new.cursor ≡ self.old.cursor }
        ensures incumbent { let m = P.basis problem.now in self.new.incumbent ≡ incumbent_with
            m.stock m.job self.old.incumbent self.old.cursor.partial Word.Admissible }
        ensures named { self.new.named ≡ self.old.named }
    {
        let cost = problem.cost(&problem.complete(&self.cursor.partial));
        self.incumbent = Some(lesser_of(self.incumbent, cost));
    }

    // keeps whether the first undecided leaf is the one that the answer names
    fn keep_name<P: Problem>(&mut self, problem: &P, answer: &Answer, best: Option<u64>, at: Spot)
        requires at { IsAt (P.basis problem.now) self.old.cursor }
        requires full { IsFull (P.basis problem.now).job self.old.cursor.partial }
        ensures cursor { self.new.cursor ≡ self.old.cursor }
        ensures incumbent { self.new.incumbent ≡ self.old.incumbent }
        ensures named { let m = P.basis problem.now in Adds answer.now self.old.named self.new.named
            (undecided m.stock m.job best self.old.cursor.partial (Word.Straddles at)) }
    {
        if self.named.is_some() {
            return;
        }
        let plies = problem.complete(&self.cursor.partial);
        let cost = problem.cost(&plies);
        if is_cheaper(cost, best) {
            self.named = Some(is_named(answer, &Near { plies, cost, at }));
        }
    }

    /// What is kept where no line is left.
    pub fn summary<P: Problem>(&self, problem: &P) -> Summary
        requires { IsSettled (P.basis problem.now) self.now.cursor }
        ensures incumbent { result.incumbent ≡ self.now.incumbent }
        ensures named { result.named ≡ self.now.named }
        ensures whole { left (P.basis problem.now) self.now.cursor []
            ≡ ends (if result.whole then Whole else Cut) }
    {
        Summary {
            incumbent: self.incumbent,
            named: self.named,
            whole: self.cursor.is_whole(problem),
        }
    }
}

// the lesser of a cost and the incumbent, if there is one
fn lesser_of(incumbent: Option<u64>, cost: u64) -> u64
    ensures { result ≡ lesser incumbent cost }
{
    match incumbent {
        Some(least) => least.min(cost),
        None => cost,
    }
}

// tells whether a cost is below the best one, if there is one
fn is_cheaper(cost: u64, best: Option<u64>) -> bool
    ensures { result ≡ is_cheaper_spec cost best }
{
    match best {
        Some(least) => cost < least,
        None => true,
    }
}

// tells whether an answer names a schedule with its cost and spot
fn is_named(answer: &Answer, own: &Near) -> bool
    ensures { IsTrue result ↔ (answer.now ≡ Answer.OpenStraddle own.now) }
{
    match answer {
        Answer::OpenStraddle(near) => is_same(near, own),
        _ => false,
    }
}

// tells whether two named schedules are the same, with cost and spot
fn is_same(near: &Near, own: &Near) -> bool
    ensures { IsTrue result ↔ (near.now ≡ own.now) }
{
    if near.cost != own.cost {
        return false;
    }
    if near.at != own.at {
        return false;
    }
    are_same(near.plies.items(), own.plies.items())
}

// tells whether two lists of plies are the same
fn are_same(a: &[ItemNo], b: &[ItemNo]) -> bool
    ensures { IsTrue result ↔ (a.now ≡ b.now) }
{
    if a.len() != b.len() {
        return false;
    }
    for i in 0..a.len() {
        if a[i].0 != b[i].0 {
            return false;
        }
    }
    true
}
