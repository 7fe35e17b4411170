//! The laws of near strains, each the contract of a function that does nothing.

ghost use Rattle.lam_narrow.specs.Close.{ValuesAreClose};
ghost use Rattle.lam_narrow.specs.Straddling.{NotMetIsNearlyOne, StraddlesInBand, StraddlesNearOne};

use lam_number::Enclosure;

/// The values of an item at two near strains of a wall, at a factor, are near each other: with the item's own
/// moduli and strengths, the factor, and how much the strains differ.
pub fn values_are_close()
    ensures { ValuesAreClose }
{}

/// Over 60 bits, and at strains as narrow as those of a loaded wall, a verdict straddles only where the Tsai-Wu value
/// lies between 200/201 and 200/199.
pub fn straddles_near_one<N: Enclosure>()
    ensures { StraddlesNearOne N.numbers }
{}

/// There, where a verdict does not meet, the Tsai-Wu value is at least 200/201.
pub fn not_met_is_nearly_one<N: Enclosure>()
    ensures { NotMetIsNearlyOne N.numbers }
{}

/// Over 60 bits a verdict straddles only where the Tsai-Wu value is near 1 by 19 times the part of the least strengths that
/// the width of the strains is worth, and a millionth, if that part is at most one in 4096.
pub fn straddles_in_band<N: Enclosure>()
    ensures { StraddlesInBand N.numbers }
{}
