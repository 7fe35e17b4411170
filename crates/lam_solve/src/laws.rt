//! The laws of the laminate strain of a wall under a load, each the contract of a function that does nothing.

ghost use Rattle.lam_solve.specs.StrainBounds.{HasOneStrain, NearGuess, SmallForces, StrainsInRange};

/// Small forces and moments strain a wall of a catalogue's items but little: its strains are bounded by the size of the
/// forces and moments by its matrices, times the scale of stiffness over the floor.
pub fn small_forces()
    ensures { SmallForces }
{}

/// A load in range strains a wall of a catalogue's items by at most 5/8 in x and y and 1 in shear at the mid-plane, and
/// bends it so that its surface is strained by at most 5/4 and 2 more.
pub fn strains_in_range()
    ensures { StrainsInRange }
{}

/// A guess that nearly balances a load on a wall of a catalogue's items is near to its laminate strain.
pub fn near_guess()
    ensures { NearGuess }
{}

/// Under each load a wall of a catalogue's items has one laminate strain, and one alone.
pub fn has_one_strain()
    ensures { HasOneStrain }
{}
