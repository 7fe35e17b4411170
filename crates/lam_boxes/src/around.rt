// What lies within a radius round a centre.

ghost use Rattle.std.specs.Prelude.{◌≡◌, ◌*◌, ◌^◌, ◌≤◌, unsigned_abs};
ghost use Rattle.lam_fraction.specs.numbers.Numbers.{reach, unit};
ghost use Rattle.lam_tsai.specs.FaceStrains.{IsWithinSix};
ghost use Rattle.lam_boxes.specs.inside.Boxes as by;
ghost use Rattle.lam_boxes.specs.inside.Parts.{NearCentre};

use crate::steps::{one, quotient_up};
use crate::three::Three;
use lam_number::{Enclosure, FaceStrain};

/// The strains within a radius round a centre, of which that of the shear is half as much again.
pub(crate) fn box_round<N: Enclosure>(centre: &Three<i64>, radius: u128) -> FaceStrain<N>
    requires centre { NearCentre N.numbers centre.now }
    requires radius { radius ≤ unit N.numbers }
    requires small { radius ≤ 2 ^ 60 }
    ensures value { result ≡ by.box_round N.numbers centre.now radius }
    ensures six { IsWithinSix N.numbers result }
{
    FaceStrain {
        ex: around(centre.x, radius),
        ey: around(centre.y, radius),
        g: around(centre.s, quotient_up(3 * radius, 2)),
    }
}

// from a radius below a centre to a radius above it
fn around<N: Enclosure>(centre: i64, radius: u128) -> N
    requires centre { unsigned_abs centre ≤ 4 * unit N.numbers }
    requires radius { 4 * radius ≤ 7 * unit N.numbers }
    requires small { radius ≤ 2 ^ 61 }
    ensures value { result ≡ by.around N.numbers centre radius }
    ensures six { reach N.numbers result ≤ 6 * unit N.numbers }
{
    let unit = i128::from(one::<N>());
    let radius = radius as i128;
    let centre = i128::from(centre);
    let low = N::of_ratio(centre - radius, unit);
    let high = N::of_ratio(centre + radius, unit);
    low.hull(high)
}
