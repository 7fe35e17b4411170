// What is sure of a panel at a factor.

ghost use Rattle.std.specs.Prelude.{◌≡◌, ◌^◌, ◌<ℤ◌, pos, ◌≤ℤ◌, List};
ghost use Rattle.lam_fraction.specs.Fraction.{whole};
ghost use Rattle.lam_stock.specs.declared.item.Item.{Item};
ghost use Rattle.lam_stock.specs.declared.item.ItemNo.{ItemNo};
ghost use Rattle.lam_job.specs.declared.limits.TheConstants.{GREATEST_FACTOR};
ghost use Rattle.lam_job.specs.JobData.{JobData};
ghost use Rattle.lam_job.specs.Ranges.{IsFrom};
ghost use Rattle.lam_job.specs.Schedule.{wall_of};
ghost use Rattle.lam_number.specs.declared.strength.Verdict.TheVariants.{Meets, Fails};
ghost use Rattle.lam_plate.specs.Panels.{IsFitWall, StandsForFit, StandsAbove, BucklesBelow};
ghost use Rattle.lam_plate.specs.inside.Formulas as by;
ghost use Rattle.lam_plate.specs.inside.Rooms.{IsPlate};

use crate::plate::{Plate, in_waves, load_at, plate_of};
use crate::wave::Wave;
use lam_fraction::machine::wide_product;
use lam_job::Panel;
use lam_number::{Enclosure, Verdict};
use lam_stock::Scale;
use lam_wall::Wall;

/// Whether a panel of a wall stands a factor, in thousandths, times its load (Jones, the buckling of simply supported
/// specially orthotropic plates under uniaxial compression, with 333/106 for π): `Meets` only where it buckles above
/// that in every number of half waves, `Fails` only where it buckles below it in one.
pub fn panel_verdict<N: Enclosure>(
    wall: &Wall<N>,
    scale: &Scale,
    panel: &Panel,
    factor: i64,
) -> Verdict
    requires wall { IsFitWall N.numbers scale.now wall.now }
    requires factor { IsFrom (pos 0) GREATEST_FACTOR factor }
    ensures value { result ≡ by.panel_verdict N.numbers scale.now.q0 wall.now panel.now factor }
    ensures meets { result ≡ Meets → (stock : List Item) (job : JobData) (listed : List ItemNo)
        → StandsForFit N.numbers wall.now scale.now stock job listed
        → StandsAbove (wall_of stock job listed) panel.now (whole factor) }
    ensures fails { result ≡ Fails → (stock : List Item) (job : JobData) (listed : List ItemNo)
        → StandsForFit N.numbers wall.now scale.now stock job listed
        → BucklesBelow (wall_of stock job listed) panel.now (whole factor) }
{
    let plate = plate_of(wall, scale, panel);
    in_every_wave(&plate, load_at(&plate, factor))
}

// what is sure of a plate at a shifted load
fn in_every_wave<N: Enclosure>(plate: &Plate<N>, load: i64) -> Verdict
    requires plate { IsPlate N.numbers plate.now }
    requires least { pos 0 ≤ℤ load }
    requires most { load <ℤ pos (2 ^ 62) }
    ensures { result ≡ by.verdict_up_to N.numbers plate.now load plate.now.waves }
{
    let mut verdict = Verdict::Meets;
    for passed in 0..plate.waves {
        let wave = in_one_wave(&in_waves(plate, passed + 1), load, plate.stiffness);
        if matches!(wave, Verdict::Fails) {
            return Verdict::Fails;
        }
        verdict = joined(verdict, wave);
    }
    verdict
}

// what is sure of two together
fn joined(first: Verdict, second: Verdict) -> Verdict
    ensures { result ≡ by.joined first second }
{
    match (first, second) {
        (Verdict::Fails, _) | (_, Verdict::Fails) => Verdict::Fails,
        (Verdict::Meets, Verdict::Meets) => Verdict::Meets,
        _ => Verdict::Straddles,
    }
}

// what is sure of a number of half waves
fn in_one_wave<N: Enclosure>(wave: &Wave<N>, load: i64, stiffness: i64) -> Verdict
    requires least_load { pos 0 ≤ℤ load }
    requires most_load { load <ℤ pos (2 ^ 62) }
    requires least_stiffness { pos 0 ≤ℤ stiffness }
    requires most_stiffness { stiffness <ℤ pos (2 ^ 62) }
    ensures { result ≡ by.wave_verdict N.numbers wave.now load stiffness }
{
    if meets(wave, load, stiffness) {
        Verdict::Meets
    } else if fails(wave, load, stiffness) {
        Verdict::Fails
    } else {
        Verdict::Straddles
    }
}

/// Tells whether the form over the shares is surely above the load over the stiffness, each shifted.
pub(crate) fn meets<N: Enclosure>(wave: &Wave<N>, load: i64, stiffness: i64) -> bool
    requires least { pos 0 ≤ℤ load }
    requires most { load <ℤ pos (2 ^ 62) }
    ensures { result ≡ by.meets N.numbers wave.now load stiffness }
{
    wide_product(load + 1, wave.shares.high()) < wide_product(wave.form.low(), stiffness)
}

// tells whether it is surely below
fn fails<N: Enclosure>(wave: &Wave<N>, load: i64, stiffness: i64) -> bool
    requires least { pos 0 ≤ℤ stiffness }
    requires most { stiffness <ℤ pos (2 ^ 62) }
    ensures { result ≡ by.fails N.numbers wave.now load stiffness }
{
    wide_product(wave.form.high(), stiffness + 1) < wide_product(load, wave.shares.low())
}
