// The number of a rule.

/// The number by which a report names a rule, from 1 to 9, in the order in which they are tried:
/// inner, outer, symmetric, balanced, run, fewest, thickness, counts, panel fitness.
#[derive(Clone, Copy, PartialEq, Eq, Debug)]
pub struct RuleNo(pub u8);
