// The strains within a radius round a centre.

ghost use Rattle.std.specs.Prelude.{◌≡◌, ◌↔◌, ◌*◌, ◌/◌, ◌^◌, ◌≤◌, IfSome, IsNone, pos, ◌≤ℤ◌};
ghost use Rattle.lam_fraction.specs.numbers.Numbers.{unit};
ghost use Rattle.lam_fraction.specs.inside.Size.{AtMost};
ghost use Rattle.lam_job.specs.LoadRange.{LoadInRange};
ghost use Rattle.lam_wall.specs.Assembled.{IsWallOf, NarrowWall};
ghost use Rattle.lam_solve.specs.StrainBounds.{OneStrain};
ghost use Rattle.lam_solve.specs.Solutions.{AreShort, ForEachWall, HasComponentAbove, HoldsEverySolution, IsShort};
ghost use Rattle.lam_solve.specs.Widths.{AreNarrow, AreNarrowByScale};
ghost use Rattle.lam_solve.specs.inside.Enclosed as by;
ghost use Rattle.lam_solve.specs.inside.Parts.{IsScaled, SmallResidual};
ghost use Rattle.lam_solve.specs.inside.Settled.{Settled};

use crate::loads::loads;
use crate::residual::residual;
use crate::six::{Ends, Six};
use crate::steps::{cut_wide, one, one_wide, quotient_up, shift_down};
use crate::strains::{Guess, Strains};
use lam_fraction::machine::{size, wide_size};
use lam_job::Load;
use lam_number::Enclosure;
use lam_stock::Scale;
use lam_wall::Wall;

/// The strains of a wall under a load, round a guess. None exactly where a component of the guess is more than 4 in size.
/// However far off the guess is, every laminate strain lies in the answer; the nearer it is, the narrower the answer. Where
/// the guess is settled, so that its residual is next to none, the answer is as narrow as the softest layer lets it.
pub fn enclose_at<N: Enclosure>(
    wall: &Wall<N>,
    load: &Load,
    scale: &Scale,
    guess: &Guess,
) -> Option<Strains<N>>
    requires range { LoadInRange scale.now.floor wall.now.h load.now }
    requires wall { IsWallOf N.numbers scale.now wall.now }
    ensures none { IsNone result ↔ HasComponentAbove 4 N.numbers guess.now }
    ensures one { ForEachWall N.numbers wall.now scale.now (λ plies. OneStrain plies load.now) }
    ensures held { IfSome result (λ strains.
        ForEachWall N.numbers wall.now scale.now (λ plies. HoldsEverySolution N.numbers strains plies load.now)) }
    ensures short { IfSome result (AreShort N.numbers) }
    ensures width { IfSome result (λ strains. NarrowWall 512 N.numbers wall.now
        → Settled N.numbers guess.now (by.residual_at N.numbers wall.now load.now scale.now guess.now)
        → AreNarrowByScale N.numbers scale.now strains) }
    ensures narrow { IfSome result (λ strains. NarrowWall 512 N.numbers wall.now
        → Settled N.numbers guess.now (by.residual_at N.numbers wall.now load.now scale.now guess.now)
        → AreNarrow N.numbers strains) }
    ensures value { result ≡ by.enclosed_at N.numbers wall.now load.now scale.now guess.now }
{
    if !is_near::<N>(guess) {
        return None;
    }
    let loads = loads(load, scale, wall.h);
    let residual = residual(wall, &loads, guess);
    Some(enclosed(scale, guess, &residual))
}

/// Tells whether each component of a guess is at most 4 in size.
pub(crate) fn is_near<N: Enclosure>(guess: &Guess) -> bool
    ensures { result ≡ by.is_near N.numbers guess.now }
{
    let unit = one_wide::<N>();
    guess_size(guess) <= 4 * unit
}

// the greatest size of the six components
fn guess_size(guess: &Guess) -> u128
    ensures { result ≡ by.guess_size guess.now }
{
    let strains = size(guess.ex).max(size(guess.ey)).max(size(guess.g));
    let bending = size(guess.kx).max(size(guess.ky)).max(size(guess.kg));
    strains.max(bending)
}

/// The strains round a centre of this residual.
pub(crate) fn enclosed<N: Enclosure>(
    scale: &Scale,
    centre: &Guess,
    residual: &Six<Ends>,
) -> Strains<N>
    requires scale { IsScaled scale.now }
    requires residual { SmallResidual residual.now }
    ensures value { result ≡ by.enclosed N.numbers scale.now centre.now residual.now }
    ensures short { AreShort N.numbers result }
{
    let radius = radius::<N>(scale, residual);
    Strains {
        ex: around(centre.ex, quotient_up(5 * radius, 2)),
        ey: around(centre.ey, quotient_up(5 * radius, 2)),
        g: around(centre.g, 4 * radius),
        kx: around(centre.kx, 5 * radius),
        ky: around(centre.ky, 5 * radius),
        kg: around(centre.kg, 8 * radius),
    }
}

// the greatest size of the residual, over the softest that a wall can be, in units
fn radius<N: Enclosure>(scale: &Scale, residual: &Six<Ends>) -> u128
    requires scale { IsScaled scale.now }
    requires residual { SmallResidual residual.now }
    ensures value { result ≡ by.radius N.numbers scale.now residual.now }
    ensures small { result ≤ 2 ^ 112 }
{
    let greatest = greatest_size(residual);
    let unit = one_wide::<N>();
    let left = quotient_up(greatest, unit);
    let q0 = size(scale.q0);
    let floor = size(scale.floor);
    quotient_up(left * q0, floor)
}

// the greatest size of the twelve ends
fn greatest_size(residual: &Six<Ends>) -> u128
    requires { SmallResidual residual.now }
    ensures value { result ≡ by.greatest_size residual.now }
    ensures small { result ≤ 50 * 2 ^ 120 }
{
    let forces = reach(&residual.ex)
        .max(reach(&residual.ey))
        .max(reach(&residual.g));
    let moments = reach(&residual.kx)
        .max(reach(&residual.ky))
        .max(reach(&residual.kg));
    forces.max(moments)
}

// the greater size of two ends
#[tactic(auto, unfolding(lam_fraction::specs::numbers::Ends::reach))]
fn reach(ends: &Ends) -> u128
    ensures { result ≡ by.end_reach ends.now }
{
    wide_size(ends.low).max(wide_size(ends.high))
}

// an enclosure of what lies within a radius round a centre, and is at most 5/2 in size
fn around<N: Enclosure>(centre: i64, radius: u128) -> N
    requires { radius ≤ 2 ^ 115 }
    ensures value { result ≡ by.around N.numbers centre radius }
    ensures short { IsShort N.numbers result }
{
    let unit = i128::from(one::<N>());
    let most = five_halves::<N>();
    let radius = radius as i128;
    let centre = i128::from(centre);
    let low = N::of_ratio(cut_wide(most, centre - radius), unit);
    let high = N::of_ratio(cut_wide(most, centre + radius), unit);
    low.hull(high)
}

// 5/2, in units
fn five_halves<N: Enclosure>() -> i128
    ensures value { result ≡ pos (5 * unit N.numbers / 2) }
    ensures sign { pos 0 ≤ℤ result }
    ensures small { AtMost (2 ^ 63) result }
{
    let one = i128::from(one::<N>());
    shift_down(5 * one, 1)
}
