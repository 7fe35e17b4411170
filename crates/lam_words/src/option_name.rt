//! The options, and what a next word may be.

/// The options, by their names.
#[derive(Clone, Copy, PartialEq, Eq, Debug)]
pub(crate) enum OptionName {
    Guide,
    Nodes,
}

/// What the next word may be.
#[derive(Clone, Copy, PartialEq, Eq, Debug)]
pub(crate) enum Expects {
    /// An option, `--` or a positional text.
    Word,
    /// The value of an option.
    Value(OptionName),
    /// A positional text, since `--` was read.
    Text,
}
