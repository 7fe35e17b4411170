// The number of loads that a panel stands, as it is printed.

ghost use Rattle.std.specs.Prelude.{◌≡◌, ◌⊎◌, ◌+◌, ◌≤◌, ◌<◌, pos, List};
ghost use Rattle.lam_fraction.specs.Fraction.{whole};
ghost use Rattle.lam_stock.specs.declared.item.Item.{Item};
ghost use Rattle.lam_stock.specs.declared.item.ItemNo.{ItemNo};
ghost use Rattle.lam_job.specs.JobData.{JobData};
ghost use Rattle.lam_job.specs.Plate.{PanelAtLeast};
ghost use Rattle.lam_job.specs.Schedule.{wall_of};
ghost use Rattle.lam_number.specs.declared.strength.Verdict.TheVariants.{Meets};
ghost use Rattle.lam_plate.specs.Panels.{IsFitWall, StandsForFit};
ghost use Rattle.lam_plate.specs.inside.Formulas as by;
ghost use Rattle.lam_plate.specs.inside.Rooms.{IsPlate};

use crate::plate::{Plate, in_waves, load_at, plate_of};
use crate::verdict::meets;
use crate::wave::Wave;
use lam_job::Panel;
use lam_number::Enclosure;
use lam_stock::Scale;
use lam_wall::Wall;

/// How many thousandths of its load a panel of a wall stands, rounded down, from 0 to 20,000: 0, or a factor that it
/// meets, and below 20,000 it does not meet the next.
pub fn printed_panel<N: Enclosure>(wall: &Wall<N>, scale: &Scale, panel: &Panel) -> u16
    requires { IsFitWall N.numbers scale.now wall.now }
    ensures bound { result ≤ 20000 }
    ensures value { result ≡ by.printed_panel N.numbers scale.now.q0 wall.now panel.now }
    ensures met { (result ≡ 0)
        ⊎ (by.panel_verdict N.numbers scale.now.q0 wall.now panel.now (pos result) ≡ Meets) }
    ensures next { result < 20000
        → ¬ (by.panel_verdict N.numbers scale.now.q0 wall.now panel.now (pos (result + 1)) ≡ Meets) }
    ensures stands { (stock : List Item) (job : JobData) (listed : List ItemNo)
        → StandsForFit N.numbers wall.now scale.now stock job listed
        → PanelAtLeast (wall_of stock job listed) panel.now (whole (pos result)) }
{
    let plate = plate_of(wall, scale, panel);
    lowest(&plate)
}

// the greatest factor that every number of half waves meets
fn lowest<N: Enclosure>(plate: &Plate<N>) -> u16
    requires { IsPlate N.numbers plate.now }
    ensures value { result ≡ by.lowest_up_to N.numbers plate.now plate.now.waves }
{
    let mut ratio = 20_000;
    for passed in 0..plate.waves {
        ratio = lowered(plate, &in_waves(plate, passed + 1), ratio);
    }
    ratio
}

// a factor, or the greatest one below it that a number of half waves meets
fn lowered<N: Enclosure>(plate: &Plate<N>, wave: &Wave<N>, most: u16) -> u16
    requires plate { IsPlate N.numbers plate.now }
    requires most { most ≤ 20000 }
    ensures value { result ≡ by.lowered (by.meets_at N.numbers plate.now wave.now) most }
    ensures bound { result ≤ most }
{
    if meets_at(plate, wave, most) {
        return most;
    }
    let mut met = 0;
    let mut beyond = most;
    while beyond - met > 1 {
        let middle = (met + beyond) / 2;
        if meets_at(plate, wave, middle) {
            met = middle;
        } else {
            beyond = middle;
        }
    }
    met
}

// tells whether a number of half waves meets a factor
fn meets_at<N: Enclosure>(plate: &Plate<N>, wave: &Wave<N>, factor: u16) -> bool
    requires plate { IsPlate N.numbers plate.now }
    requires factor { factor ≤ 20000 }
    ensures { result ≡ by.meets_at N.numbers plate.now wave.now factor }
{
    meets(wave, load_at(plate, i64::from(factor)), plate.stiffness)
}
