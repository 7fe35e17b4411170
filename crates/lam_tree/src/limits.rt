// How large the numbers of a report may be.

/// The most nodes of a search, and of a tree.
pub const MOST_NODES: u32 = 200_000;

/// The greatest ratio that is printed, in thousandths.
pub const MOST_RATIO: u16 = 20_000;

/// The greatest cost of a schedule, in whole units.
pub const MOST_COST: u64 = 1_000_000_000_000;

/// The number of the rules, which are numbered from 1.
pub const MOST_RULES: u8 = 9;
