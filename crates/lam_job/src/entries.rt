// The lists of a job.

ghost use Rattle.std.specs.Prelude.{◌≡◌};

use std::marker::Model;

/// A list of a job's cases, panels or counts, in the order of its file.
#[derive(Drop)]
pub struct Entries<T> {
    items: Vec<T>,
}

impl<T> Model for Entries<T> {
    ghost use Rattle.std.specs.Prelude.{List};

    ghost Value = { List T };

    ghost view = { λ l. l.items.items };
}

impl<T> Entries<T> {
    /// The list of what a vector holds, whose memory it keeps.
    pub fn of(items: Vec<T>) -> Entries<T>
        ensures { result ≡ items.items }
    {
        Entries { items }
    }

    /// The entries, in order.
    pub fn items(&self) -> &[T]
        ensures { result.now ≡ self.now }
    {
        self.items.as_slice()
    }
}
