// The box of strains.

ghost use Rattle.std.specs.Prelude.{◌≡◌, IfSome};
ghost use Rattle.lam_solve.specs.inside.Parts.{IsScaled};
ghost use Rattle.lam_tsai.specs.FaceStrains.{IsWithinSix};
ghost use Rattle.lam_boxes.specs.inside.Boxes as by;
ghost use Rattle.lam_boxes.specs.inside.Parts.{IsMembrane, IsShape, NearCentre, ThreeReach, force_reach};

use crate::around::box_round;
use crate::centre::{guess, is_near};
use crate::residual::{are_small, eighths, forces, radius, residual};
use crate::steps::one_wide;
use crate::three::{Shape, Three};
use lam_fraction::machine::size;
use lam_job::Load;
use lam_number::{Enclosure, FaceStrain};
use lam_stock::Scale;

/// The strains of all completions of a partial schedule under a load without moments, if they are found.
#[tactic(auto, unfolding(crate::specs::inside::Boxes::box_under))]
pub(crate) fn box_under<N: Enclosure>(
    scale: &Scale,
    shape: &Shape<N>,
    load: &Load,
) -> Option<FaceStrain<N>>
    requires scale { IsScaled scale.now }
    requires shape { IsShape N.numbers shape.now }
    requires membrane { IsMembrane load.now }
    ensures value { result ≡ by.box_under N.numbers scale.now shape.now load.now }
    ensures six { IfSome result (IsWithinSix N.numbers) }
{
    if !bears(scale.floor, shape.most, load) {
        return None;
    }
    let loads = forces(load, scale, shape.most);
    let centre = guess(&shape.extension, &loads);
    box_at(scale, shape, &loads, &centre)
}

// the strains round a guess, if it is near
fn box_at<N: Enclosure>(
    scale: &Scale,
    shape: &Shape<N>,
    loads: &Three<N>,
    centre: &Three<i64>,
) -> Option<FaceStrain<N>>
    requires scale { IsScaled scale.now }
    requires shape { IsShape N.numbers shape.now }
    requires loads { ThreeReach N.numbers force_reach loads.now }
    ensures value { result ≡ by.box_at N.numbers scale.now shape.now loads.now centre.now }
    ensures six { IfSome result (IsWithinSix N.numbers) }
{
    if !is_near::<N>(centre) {
        return None;
    }
    let parts = eighths(centre);
    let rest = residual(&shape.extension, loads, &parts);
    box_left(scale, shape, centre, &rest)
}

// the strains round a guess that leaves so much, if that is little
fn box_left<N: Enclosure>(
    scale: &Scale,
    shape: &Shape<N>,
    centre: &Three<i64>,
    rest: &Three<N>,
) -> Option<FaceStrain<N>>
    requires scale { IsScaled scale.now }
    requires shape { IsShape N.numbers shape.now }
    requires centre { NearCentre N.numbers centre.now }
    ensures value { result ≡ by.box_left N.numbers scale.now shape.now centre.now rest.now }
    ensures six { IfSome result (IsWithinSix N.numbers) }
{
    if !are_small(rest) {
        return None;
    }
    let far = radius(scale, shape.most, shape.least, rest);
    within_radius(centre, far)
}

// the strains within a radius round a centre, if it is at most 1
fn within_radius<N: Enclosure>(centre: &Three<i64>, radius: u128) -> Option<FaceStrain<N>>
    requires centre { NearCentre N.numbers centre.now }
    ensures value { result ≡ by.box_within N.numbers centre.now radius }
    ensures six { IfSome result (IsWithinSix N.numbers) }
{
    if one_wide::<N>() < radius {
        return None;
    }
    Some(box_round(centre, radius))
}

// tells whether no force is above floor times the thickness
fn bears(floor: i64, h: i64, load: &Load) -> bool
    ensures { result ≡ by.bears floor h load.now }
{
    are_within(load, size(floor) * size(h))
}

// tells whether no force is above so much
fn are_within(load: &Load, most: u128) -> bool
    ensures { result ≡ by.forces_within most load.now }
{
    size(load.nx) <= most && size(load.ny) <= most && size(load.nxy) <= most
}
