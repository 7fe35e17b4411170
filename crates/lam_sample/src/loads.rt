// The loads of a sample's job.

ghost use Rattle.std.specs.Prelude.{◌≡◌};
ghost use Rattle.lam_sample.specs.Draws.{steps};
ghost use Rattle.lam_sample.specs.inside.Bounds.{AreLoads};
ghost use Rattle.lam_sample.specs.SampleJob.{loads_after};

use crate::draws::Draws;

/// The loads of the two cases, as they are drawn.
#[derive(Clone, Copy)]
pub(crate) struct Loads {
    /// The pressure on the cylinder, in kPa.
    pub(crate) pressure: u64,
    /// The diameter of the cylinder, in mm.
    pub(crate) diameter: u64,
    /// The force along the wall's axis x, in N/m.
    pub(crate) nx: u64,
    /// The shear force, in N/m.
    pub(crate) nxy: u64,
}

/// Draws the loads of a job.
pub(crate) fn draw_loads(draws: &mut Draws) -> Loads
    ensures value { result ≡ loads_after draws.old }
    ensures loads { AreLoads result }
    ensures state { draws.new ≡ steps 4 draws.old }
{
    Loads {
        pressure: 100 + draws.next(200),
        diameter: 1000 + draws.next(1000),
        nx: 1000 * draws.next(50),
        nxy: 1000 + 1000 * draws.next(20),
    }
}
