// A panel of a wall: all that does not depend on the factor, made once.

ghost use Rattle.std.specs.Prelude.{◌≡◌, ◌^◌, ◌≤◌, pos, ◌≤ℤ◌, ◌<ℤ◌};
ghost use Rattle.lam_job.specs.Ranges.{IsPanel};
ghost use Rattle.lam_plate.specs.Panels.{IsFitWall};
ghost use Rattle.lam_plate.specs.inside.Formulas as by;
ghost use Rattle.lam_plate.specs.inside.Rooms.{IsPlate};

use crate::units::{load_units, shift_for, shifted, stiffness_units};
use crate::wave::{Bending, Wave, bending_of, wave_at};
use crate::waves::{most_times, waves_for};
use lam_job::Panel;
use lam_number::Enclosure;
use lam_stock::Scale;
use lam_wall::Wall;

/// A panel of a wall.
#[derive(Clone, Copy)]
pub(crate) struct Plate<N> {
    pub(crate) bending: Bending<N>,
    pub(crate) length_square: i64,
    pub(crate) width_square: i64,
    /// The number of half waves that decide for all.
    pub(crate) waves: u16,
    /// The load for each thousandth of a factor.
    pub(crate) load: i128,
    /// The stiffness, shifted.
    pub(crate) stiffness: i64,
    pub(crate) shift: u32,
}

/// The plate of a panel.
pub(crate) fn plate_of<N: Enclosure>(wall: &Wall<N>, scale: &Scale, panel: &Panel) -> Plate<N>
    requires { IsFitWall N.numbers scale.now wall.now }
    ensures value { result ≡ by.plate N.numbers scale.now.q0 wall.now panel.now }
    ensures ready { IsPlate N.numbers result }
    ensures panel { IsPanel panel.now }
{
    let length_square = panel.length * panel.length;
    let width_square = panel.width * panel.width;
    let load = load_units(panel);
    let stiffness = stiffness_units(scale.q0, wall.h);
    let shift = shift_for(20_000 * load, stiffness);
    Plate {
        bending: bending_of(&wall.d),
        length_square,
        width_square,
        waves: waves_for(most_times(&wall.d), length_square, width_square),
        load,
        stiffness: shifted(stiffness, shift),
        shift,
    }
}

/// The plate in so many half waves.
pub(crate) fn in_waves<N: Enclosure>(plate: &Plate<N>, m: u16) -> Wave<N>
    requires plate { IsPlate N.numbers plate.now }
    requires some { 1 ≤ m }
    requires few { m ≤ 1903 }
    ensures { result ≡ by.in_waves N.numbers.calc plate.now m }
{
    let waves = i64::from(m);
    wave_at(
        &plate.bending,
        waves * waves * plate.width_square,
        plate.length_square,
    )
}

/// The load of a panel at a factor in thousandths, shifted.
pub(crate) fn load_at<N: Enclosure>(plate: &Plate<N>, factor: i64) -> i64
    requires plate { IsPlate N.numbers plate.now }
    requires least { pos 0 ≤ℤ factor }
    requires most { factor ≤ℤ pos 20000 }
    ensures value { result ≡ by.load_at plate.now factor }
    ensures least { pos 0 ≤ℤ result }
    ensures most { result <ℤ pos (2 ^ 62) }
{
    shifted(i128::from(factor) * plate.load, plate.shift)
}
