// The open splits of a tree.

ghost use Rattle.std.specs.Prelude.{◌≡◌, ℕ, suc, ◌+◌, ◌<◌, ◌≤◌, ◌∷◌, [], length, drop, slice_get};
ghost use Rattle.lam_tree.specs.Reading.{and_had};
ghost use Rattle.lam_check.specs.inside.Sets.{has_bit};

use lam_job::MOST_PLIES;
use lam_stock::ItemNo;
use std::marker::Model;

/// A split whose children are not all read.
#[derive(Clone, Copy)]
pub struct Open {
    /// The items that it has had: bit k stands for the item of number k.
    pub had: u64,
    /// How many children are to come.
    pub to_come: u8,
}

impl Open {
    /// The split of which no child is read, over so many items.
    pub fn new(items: u8) -> Open
        ensures had { result.had ≡ 0 }
        ensures to_come { result.to_come ≡ items }
    {
        Open {
            had: 0,
            to_come: items,
        }
    }

    /// Tells whether the split has had an item.
    pub fn has_had(&self, item: ItemNo) -> bool
        requires { item.0 < 64 }
        ensures { result ≡ has_bit self.now.had item.0 }
    {
        (self.had >> item.0) & 1 == 1
    }

    /// The split with one item more.
    pub fn with(&self, item: ItemNo) -> Open
        requires within { item.0 < 64 }
        requires some { 0 < self.now.to_come }
        ensures had { (i : ℕ) → has_bit result.had i ≡ and_had item (has_bit self.now.had) i }
        ensures to_come { self.now.to_come ≡ suc result.to_come }
    {
        Open {
            had: self.had | (1 << item.0),
            to_come: self.to_come - 1,
        }
    }
}

/// The open splits, at most one for each ply of a schedule. The last one is their first.
#[derive(Drop)]
pub struct Splits {
    items: [Open; 56],
    len: u8,
}

impl Model for Splits {
    ghost use Rattle.std.specs.Prelude.{◌≡◌, ◌≤◌, List, length, take, reverse};
    ghost use Rattle.lam_check.specs.declared.splits.Open.{Open};
    ghost use Rattle.lam_job.specs.declared.limits.TheConstants.{MOST_PLIES};

    ghost Value = { List Open };

    ghost view = { λ s. reverse (take s.len s.items) };

    ghost invariant = { λ s. (length s.items ≡ 56) × (s.len ≤ 56) };
}

impl Splits {
    /// No split.
    pub fn new() -> Splits
        ensures { result ≡ [] }
    {
        Splits {
            items: [Open { had: 0, to_come: 0 }; 56],
            len: 0,
        }
    }

    /// Puts a split behind the last one.
    pub fn push(&mut self, split: Open)
        requires { length self.old < MOST_PLIES }
        ensures { self.new ≡ split ∷ self.old }
    {
        self.items[self.len as usize] = split;
        self.len += 1;
    }

    /// Takes the last split off, if there is one.
    pub fn pop(&mut self)
        ensures { self.new ≡ drop 1 self.old }
    {
        if self.len > 0 {
            self.len -= 1;
        }
    }

    /// The last split, if there is one.
    pub fn top(&self) -> Option<Open>
        ensures { result ≡ slice_get self.now 0 }
    {
        if self.len > 0 {
            Some(self.items[self.len as usize - 1])
        } else {
            None
        }
    }
}
