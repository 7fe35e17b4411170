//! What a search asks of a guide and tells it.

ghost use Rattle.std.specs.Prelude.{◌≡◌, ℕ, ◌+◌, ◌^◌, ◌<◌};

/// An item that a search may take next.
#[derive(Clone, Copy, PartialEq, Eq, Debug)]
pub struct Choice {
    /// The number of the item in its catalogue, from 0.
    pub item: u8,
    /// The cost of the item, in the catalogue's units.
    pub cost: u64,
    /// The thickness of the item, in µm.
    pub t: i64,
}

/// What became of a node of a search.
#[derive(Clone, Copy, PartialEq, Eq, Debug)]
pub enum Event {
    /// Its children are visited next.
    Split,
    /// None of its completions is wanted.
    Closed,
    /// Its schedule is admissible.
    Admissible,
}

/// Advises a search on the order of its nodes. A search visits the children of a node by ascending
/// rank, ties by item number. It trusts no rank: whatever a guide answers, the search's own answer
/// is the same.
pub trait Guide: Drop {
    /// How many events it was told.
    ghost heard_count: { Self → ℕ };

    /// How many events it was told.
    fn heard(&self) -> u64
        ensures { result ≡ heard_count self.now };

    /// The rank of a choice, below a node whose prefix has `depth` items.
    fn rank(&mut self, depth: u8, choice: &Choice) -> u32
        ensures { heard_count self.new ≡ heard_count self.old };

    /// Tells what became of a node whose prefix has `depth` items. `item` is the last of them, and
    /// 255 where there is none.
    fn told(&mut self, event: &Event, depth: u8, item: u8)
        requires { heard_count self.old < 2 ^ 63 }
        ensures { heard_count self.new ≡ heard_count self.old + 1 };
}

impl Guide for Box<dyn Guide> {
    ghost heard_count = { λ b. (Guide-box b).heard_count b.value };

    fn heard(&self) -> u64 {
        (**self).heard()
    }

    fn rank(&mut self, depth: u8, choice: &Choice) -> u32 {
        (**self).rank(depth, choice)
    }

    fn told(&mut self, event: &Event, depth: u8, item: u8) {
        (**self).told(event, depth, item)
    }
}
