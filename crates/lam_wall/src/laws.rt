//! The laws of a wall's matrices and of its energy, each the contract of a function that does nothing.

ghost use Rattle.lam_stock.specs.Scale.{scale_of};
ghost use Rattle.lam_stock.specs.Stock.{IsStock};
ghost use Rattle.lam_wall.specs.Energy.{CatalogueEnergy, EnergyBetween};
ghost use Rattle.lam_wall.specs.QuadraticForm.{AtMostOneLaminateStrain, CatalogueAtMostOneLaminateStrain, CatalogueForm, CatalogueHasLaminateStrain, FormBetween, HasLaminateStrain};
ghost use Rattle.lam_wall.specs.MatrixLaw.{EquilibriumByMatrices, OnlyMatrices, SumsByMatrices};

use lam_stock::Stock;

/// The matrices of a wall, summed over its plies, give its force and moment sums at every laminate strain.
pub fn sums_by_matrices()
    ensures { SumsByMatrices }
{}

/// A wall has at most one set of matrices.
pub fn only_matrices()
    ensures { OnlyMatrices }
{}

/// A laminate strain is one of a wall under a load exactly where six linear equations hold.
pub fn equilibrium_by_matrices()
    ensures { EquilibriumByMatrices }
{}

/// Twice the energy of a wall lies between the floor and the scale of its items' stiffness, times the mean squares of
/// its strains.
pub fn energy_between()
    ensures { EnergyBetween }
{}

/// The quadratic form of a wall's matrices A, B and D lies between the floor over the scale and 1, times the mean squares
/// of its strains.
pub fn form_between()
    ensures { FormBetween }
{}

/// Under a load a wall has at most one laminate strain.
pub fn at_most_one_laminate_strain()
    ensures { AtMostOneLaminateStrain }
{}

/// Under each load a wall has a laminate strain.
pub fn has_laminate_strain()
    ensures { HasLaminateStrain }
{}

/// No wall of a catalogue's items is softer than the catalogue's floor says, and none is stiffer than its `q0`:
/// whatever strains and bending a load gives the wall, the load does at least the work that it would do on one layer
/// of stiffness floor and of the wall's thickness, and at most that on one of stiffness `q0`.
pub fn no_wall_is_softer(stock: &Stock)
    ensures { CatalogueEnergy stock.now }
{
    kept(stock);
}

/// The quadratic form of the matrices of each wall of a catalogue's items lies between the catalogue's floor over its
/// `q0` and 1, times the mean squares of the strains.
pub fn no_form_is_softer(stock: &Stock)
    ensures { CatalogueForm stock.now }
{
    kept(stock);
}

/// Under a load a wall of at least one of a catalogue's items has at most one laminate strain.
pub fn wall_has_at_most_one_laminate_strain(stock: &Stock)
    ensures { CatalogueAtMostOneLaminateStrain stock.now }
{
    kept(stock);
}

/// Under each load a wall of at least one of a catalogue's items has a laminate strain, so that what is said of every
/// laminate strain of such a wall never speaks of nothing.
pub fn wall_has_a_laminate_strain(stock: &Stock)
    ensures { CatalogueHasLaminateStrain stock.now }
{
    kept(stock);
}

// what every catalogue keeps
fn kept(stock: &Stock)
    ensures { IsStock stock.now (scale_of stock.now) }
{
    let _scale = stock.scale();
}
