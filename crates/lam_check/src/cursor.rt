// Where the machine is in a tree.

ghost use Rattle.std.specs.Prelude.{◌≡◌, ◌<◌, ◌↔◌, ◌∷◌, [], length, slice_get, List, IsTrue, IsSomeAnd, if◌then◌else◌, false};
ghost use Rattle.lam_job.specs.Partial.{half};
ghost use Rattle.lam_tree.specs.Reading.{read, visit, ends, Cut, Stray, Whole};
ghost use Rattle.lam_tree.specs.declared.node.Node.{Node};
ghost use Rattle.lam_tree.specs.declared.node.Word.{Word};
ghost use Rattle.lam_check.specs.inside.Machine.{front, resume, left, left_at, IsSettled, IsAt};

use crate::path::{at_start, go_down, go_up, length_of, set_length};
use crate::problem::Problem;
use crate::splits::{Open, Splits};
use lam_rules::Partial;
use lam_stock::ItemNo;
use lam_tree::Seat;

/// A partial schedule, and the splits above it whose children are not all read. Between two lines
/// the last of the splits is that of the partial schedule.
#[derive(Drop)]
pub struct Cursor {
    pub partial: Partial,
    pub splits: Splits,
}

impl Cursor {
    /// Before the first line.
    pub fn new<P: Problem>(problem: &P) -> Cursor
        ensures start { let m = P.basis problem.now in (lines : List Node)
            → left m result lines ≡ read m.stock m.job lines }
        ensures settled { IsSettled (P.basis problem.now) result }
    {
        Cursor {
            partial: at_start(problem.no_plies()),
            splits: Splits::new(),
        }
    }

    /// Goes to the seat of the next line, if it is due.
    pub fn sit<P: Problem>(&mut self, problem: &P, seat: Seat) -> bool
        requires settled { IsSettled (P.basis problem.now) self.old }
        ensures due { let m = P.basis problem.now in
            IsTrue result → (word : Word) (rest : List Node)
            → left m self.old (record { seat = seat; word = word } ∷ rest)
            ≡ left_at m self.new word rest }
        ensures at { IsTrue result → IsAt (P.basis problem.now) self.new }
        ensures stray { let m = P.basis problem.now in
            result ≡ false → (word : Word) (rest : List Node)
            → left m self.old (record { seat = seat; word = word } ∷ rest) ≡ ends Stray }
    {
        match seat {
            Seat::Length(n) => self.sit_at_length(problem, n),
            Seat::Item(item) => self.sit_at_item(problem, item),
        }
    }

    // goes to the root of a length, if it is due
    fn sit_at_length<P: Problem>(&mut self, problem: &P, n: u8) -> bool
        requires settled { IsSettled (P.basis problem.now) self.old }
        ensures due { let m = P.basis problem.now in
            IsTrue result → (word : Word) (rest : List Node)
            → left m self.old (record { seat = Seat.Length n; word = word } ∷ rest)
            ≡ left_at m self.new word rest }
        ensures at { IsTrue result → IsAt (P.basis problem.now) self.new }
        ensures stray { let m = P.basis problem.now in
            result ≡ false → (word : Word) (rest : List Node)
            → left m self.old (record { seat = Seat.Length n; word = word } ∷ rest) ≡ ends Stray }
    {
        if self.splits.top().is_some() {
            return false;
        }
        if n > problem.limit() {
            return false;
        }
        if n != length_of(&self.partial) + 1 {
            return false;
        }
        set_length(&mut self.partial, n);
        true
    }

    // goes to a child of the last split, if it is due
    fn sit_at_item<P: Problem>(&mut self, problem: &P, item: ItemNo) -> bool
        requires settled { IsSettled (P.basis problem.now) self.old }
        ensures due { let m = P.basis problem.now in
            IsTrue result → (word : Word) (rest : List Node)
            → left m self.old (record { seat = Seat.Item item; word = word } ∷ rest)
            ≡ left_at m self.new word rest }
        ensures at { IsTrue result → IsAt (P.basis problem.now) self.new }
        ensures stray { let m = P.basis problem.now in
            result ≡ false → (word : Word) (rest : List Node)
            → left m self.old (record { seat = Seat.Item item; word = word } ∷ rest) ≡ ends Stray }
    {
        match self.splits.top() {
            Some(top) => self.sit_at_child(problem, top, item),
            None => false,
        }
    }

    // goes to a child of the last split, if it is due
    fn sit_at_child<P: Problem>(&mut self, problem: &P, top: Open, item: ItemNo) -> bool
        requires settled { IsSettled (P.basis problem.now) self.old }
        requires top { slice_get self.old.splits 0 ≡ Some top }
        ensures due { let m = P.basis problem.now in
            IsTrue result → (word : Word) (rest : List Node)
            → left m self.old (record { seat = Seat.Item item; word = word } ∷ rest)
            ≡ left_at m self.new word rest }
        ensures at { IsTrue result → IsAt (P.basis problem.now) self.new }
        ensures stray { let m = P.basis problem.now in
            result ≡ false → (word : Word) (rest : List Node)
            → left m self.old (record { seat = Seat.Item item; word = word } ∷ rest) ≡ ends Stray }
    {
        if item.0 >= problem.items() {
            return false;
        }
        if top.has_had(item) {
            return false;
        }
        self.splits.pop();
        self.splits.push(top.with(item));
        go_down(&mut self.partial, item);
        true
    }

    /// Opens a split at the partial schedule.
    pub fn split<P: Problem>(&mut self, problem: &P)
        requires at { IsAt (P.basis problem.now) self.old }
        requires more { length self.old.partial.prefix
            < half (P.basis problem.now).job self.old.partial.n }
        ensures reads { let m = P.basis problem.now in (rest : List Node)
            → left_at m self.old Word.Split rest
            ≡ visit self.old.partial Word.Split (left m self.new rest) }
        ensures settled { IsSettled (P.basis problem.now) self.new }
    {
        self.splits.push(Open::new(problem.items()));
    }

    /// Leaves a leaf, and the splits whose last child it is.
    pub fn leave<P: Problem>(&mut self, problem: &P)
        requires { IsAt (P.basis problem.now) self.old }
        ensures reads { let m = P.basis problem.now in (rest : List Node)
            → resume m self.old.partial.n self.old.splits (front self.old.partial.prefix) rest
            ≡ left m self.new rest }
        ensures settled { IsSettled (P.basis problem.now) self.new }
    {
        go_up(&mut self.partial);
        'up: while self.is_done() {
            self.splits.pop();
            go_up(&mut self.partial);
        }
    }

    // tells whether the last split has no child to come
    fn is_done(&self) -> bool
        ensures { IsTrue result ↔ IsSomeAnd (slice_get self.now.splits 0) (λ top. top.to_come ≡ 0) }
    {
        match self.splits.top() {
            Some(top) => top.to_come == 0,
            None => false,
        }
    }

    /// Tells whether the tree is whole where no line is left.
    pub fn is_whole<P: Problem>(&self, problem: &P) -> bool
        requires { IsSettled (P.basis problem.now) self.now }
        ensures { left (P.basis problem.now) self.now []
            ≡ ends (if result then Whole else Cut) }
    {
        if self.splits.top().is_some() {
            return false;
        }
        length_of(&self.partial) == problem.limit()
    }
}
