// Lists of at most 64 items.

ghost use Rattle.std.specs.Prelude.{◌≡◌, ◌≤◌, ◌<◌, ◌↔◌, ◌++◌, ◌∷◌, [], length};
ghost use Rattle.std.specs.Prelude.{IsNone, IfSome, IfNone};

use crate::item::ItemNo;
use smallvec::SmallVec;
use std::alloc::Global;
use std::marker::Model;

/// A list of at most 64 items, which takes no memory.
#[derive(Drop)]
pub struct Stack {
    items: SmallVec<ItemNo, 64>,
}

impl Model for Stack {
    ghost use Rattle.std.specs.Prelude.{◌≡◌, ◌≤◌, List, length};
    ghost use Rattle.lam_stock.specs.declared.item.ItemNo.{ItemNo};

    ghost Value = { List ItemNo };

    ghost view = { λ s. s.items.items };

    ghost invariant = { λ s. (s.items.capacity ≡ 64) × (length s.items.items ≤ 64) };
}

impl Stack {
    /// The empty list.
    pub fn new(alloc: Global) -> Stack
        ensures { result ≡ [] }
    {
        Stack {
            items: SmallVec::new(alloc),
        }
    }

    /// The same list once more.
    pub fn copied(&self) -> Stack
        ensures { result ≡ self.now }
    {
        match SmallVec::from_slice(*self.items.allocator(), self.items.as_slice()) {
            Ok(items) => Stack { items },
            Err(_) => unreachable!(),
        }
    }

    /// Puts an item at the end.
    pub fn push(&mut self, item: ItemNo)
        requires { length self.old < 64 }
        ensures { self.new ≡ self.old ++ item ∷ [] }
    {
        self.items.push_reserved(item);
    }

    /// Takes the last item off, if there is one.
    pub fn pop(&mut self) -> Option<ItemNo>
        ensures none { IsNone result ↔ (self.old ≡ []) }
        ensures empty { IfNone result (self.new ≡ []) }
        ensures last { IfSome result (λ item. self.old ≡ self.new ++ item ∷ []) }
    {
        self.items.pop()
    }

    /// The items, first to last.
    pub fn items(&self) -> &[ItemNo]
        ensures items { result.now ≡ self.now }
        ensures few { length result.now ≤ 64 }
    {
        self.items.as_slice()
    }
}
