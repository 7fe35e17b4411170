// Turns of refinement, and the strains of a wall under a load.

ghost use Rattle.std.specs.Prelude.{◌≡◌, ◌*◌, ◌^◌, ◌≤◌, unsigned_abs, true};
ghost use Rattle.lam_fraction.specs.inside.Size.{AtMost};
ghost use Rattle.lam_job.specs.LoadRange.{LoadInRange};
ghost use Rattle.lam_wall.specs.Assembled.{IsWallOf, NarrowWall, SmallWall};
ghost use Rattle.lam_solve.specs.StrainBounds.{OneStrain};
ghost use Rattle.lam_solve.specs.Solutions.{AreShort, ForEachWall, HoldsEverySolution};
ghost use Rattle.lam_solve.specs.Widths.{AreNarrow, AreNarrowByScale};
ghost use Rattle.lam_solve.specs.inside.Elimination.{IsEliminationOf};
ghost use Rattle.lam_solve.specs.inside.Narrow.{is_narrow};
ghost use Rattle.lam_solve.specs.inside.Parts.{AreLoadsOn, SmallEnds, SmallGuess, SmallLoads, SmallResidual};
ghost use Rattle.lam_solve.specs.inside.Settled.{Settled};
ghost use Rattle.lam_solve.specs.inside.Solution as by;

use crate::elimination::Elimination;
use crate::enclosed::enclosed;
use crate::loads::loads;
use crate::narrow::is_narrow;
use crate::residual::residual;
use crate::six::{Ends, Six};
use crate::steps::{cut_narrow, four, one_wide, shift_down, slops};
use crate::strains::{Guess, Strains};
use lam_fraction::machine::wide_size;
use lam_job::Load;
use lam_number::Enclosure;
use lam_stock::Scale;
use lam_wall::Wall;

/// Over a wall that is not narrow a centre is refined so many times at most.
const TURNS: u32 = 64;

/// The strains of a wall under a load. Every laminate strain lies in the answer, which over the finer scale is as narrow as
/// the softest layer of the catalogue lets it.
pub fn solve<N: Enclosure>(wall: &Wall<N>, load: &Load, scale: &Scale) -> Strains<N>
    requires range { LoadInRange scale.now.floor wall.now.h load.now }
    requires wall { IsWallOf N.numbers scale.now wall.now }
    ensures one { ForEachWall N.numbers wall.now scale.now (λ plies. OneStrain plies load.now) }
    ensures held { ForEachWall N.numbers wall.now scale.now (λ plies. HoldsEverySolution N.numbers result plies load.now) }
    ensures short { AreShort N.numbers result }
    ensures width { N.numbers.scale ≡ 60 → NarrowWall 512 N.numbers wall.now
        → AreNarrowByScale N.numbers scale.now result }
    ensures narrow { N.numbers.scale ≡ 60 → NarrowWall 512 N.numbers wall.now
        → AreNarrow N.numbers result }
    ensures value { result ≡ by.solution N.numbers wall.now load.now scale.now }
{
    solve_by(&Elimination::of(wall), wall, load, scale)
}

/// The same by the elimination of the wall's unknowns, so that it is made but once for many loads.
pub fn solve_by<N: Enclosure>(
    elimination: &Elimination,
    wall: &Wall<N>,
    load: &Load,
    scale: &Scale,
) -> Strains<N>
    requires range { LoadInRange scale.now.floor wall.now.h load.now }
    requires wall { IsWallOf N.numbers scale.now wall.now }
    requires elimination { IsEliminationOf N.numbers wall.now elimination.now }
    ensures one { ForEachWall N.numbers wall.now scale.now (λ plies. OneStrain plies load.now) }
    ensures held { ForEachWall N.numbers wall.now scale.now (λ plies. HoldsEverySolution N.numbers result plies load.now) }
    ensures short { AreShort N.numbers result }
    ensures width { N.numbers.scale ≡ 60 → NarrowWall 512 N.numbers wall.now
        → AreNarrowByScale N.numbers scale.now result }
    ensures narrow { N.numbers.scale ≡ 60 → NarrowWall 512 N.numbers wall.now
        → AreNarrow N.numbers result }
    ensures value { result ≡ by.solution N.numbers wall.now load.now scale.now }
{
    let loads = loads(load, scale, wall.h);
    let centre = centred(wall, &loads, elimination.guess(&loads));
    enclosed(scale, &centre.strains, &centre.residual)
}

/// A centre with its residual.
#[derive(Clone, Copy)]
pub(crate) struct Centre {
    pub(crate) strains: Guess,
    pub(crate) residual: Six<Ends>,
}

/// The centre that a guess leads to.
pub(crate) fn centred<N: Enclosure>(wall: &Wall<N>, loads: &Six<N>, guess: Guess) -> Centre
    requires wall { SmallWall N.numbers wall.now }
    requires loads { SmallLoads N.numbers loads.now }
    requires on { AreLoadsOn N.numbers wall.now loads.now }
    requires guess { SmallGuess guess }
    ensures strains { result.strains ≡ by.centre N.numbers wall.now loads.now guess }
    ensures residual { result.residual ≡ by.residual N.numbers wall.now loads.now result.strains }
    ensures small { SmallResidual result.residual }
    ensures settled { is_narrow N.numbers wall.now ≡ true → Settled N.numbers result.strains result.residual }
    ensures first { is_narrow N.numbers wall.now ≡ true
        → by.IsFirst N.numbers (4096 * N.numbers.slop) wall.now loads.now
        (by.start N.numbers wall.now loads.now guess) result.strains }
{
    if is_narrow(wall) {
        settled(wall, loads, guess)
    } else {
        refined(wall, loads, guess)
    }
}

// over a narrow wall, the first of a start and the centres that follow it, each one turn after the one before, of which no
// middle of the residual is more than 4096 slops: each turn before it takes from the potential energy, which has a floor
fn settled<N: Enclosure>(wall: &Wall<N>, loads: &Six<N>, guess: Guess) -> Centre
    requires wall { SmallWall N.numbers wall.now }
    requires loads { SmallLoads N.numbers loads.now }
    requires on { AreLoadsOn N.numbers wall.now loads.now }
    requires narrow { is_narrow N.numbers wall.now ≡ true }
    requires guess { SmallGuess guess }
    ensures strains { result.strains
        ≡ by.first_settled N.numbers wall.now loads.now (by.start N.numbers wall.now loads.now guess) }
    ensures residual { result.residual ≡ by.residual N.numbers wall.now loads.now result.strains }
    ensures small { SmallResidual result.residual }
    ensures settled { Settled N.numbers result.strains result.residual }
    ensures first { by.IsFirst N.numbers (4096 * N.numbers.slop) wall.now loads.now
        (by.start N.numbers wall.now loads.now guess) result.strains }
{
    let most = slops::<N>(4096);
    let mut centre = start(wall, loads, guess);
    while !is_settled::<N>(&centre.residual, most) {
        centre = turned(wall, loads, &centre);
    }
    centre
}

// a guess whose residual is small, or else no strains
fn start<N: Enclosure>(wall: &Wall<N>, loads: &Six<N>, guess: Guess) -> Centre
    requires wall { SmallWall N.numbers wall.now }
    requires loads { SmallLoads N.numbers loads.now }
    requires guess { SmallGuess guess }
    ensures strains { result.strains ≡ by.start N.numbers wall.now loads.now guess }
    ensures residual { result.residual ≡ by.residual N.numbers wall.now loads.now result.strains }
    ensures guess { SmallGuess result.strains }
    ensures small { SmallResidual result.residual }
{
    let rest = residual(wall, loads, &guess);
    let most = one_wide::<N>() / 8192;
    if is_settled::<N>(&rest, most) {
        return Centre {
            strains: guess,
            residual: rest,
        };
    }
    let none = Guess {
        ex: 0,
        ey: 0,
        g: 0,
        kx: 0,
        ky: 0,
        kg: 0,
    };
    Centre {
        strains: none,
        residual: residual(wall, loads, &none),
    }
}

// the first of a guess and the centres that follow it, each one turn after the one before, that needs no further turn
fn refined<N: Enclosure>(wall: &Wall<N>, loads: &Six<N>, guess: Guess) -> Centre
    requires wall { SmallWall N.numbers wall.now }
    requires loads { SmallLoads N.numbers loads.now }
    requires guess { SmallGuess guess }
    ensures strains { result.strains ≡ by.refined N.numbers 64 wall.now loads.now 64 guess }
    ensures residual { result.residual ≡ by.residual N.numbers wall.now loads.now result.strains }
    ensures small { SmallResidual result.residual }
{
    let mut centre = Centre {
        strains: guess,
        residual: residual(wall, loads, &guess),
    };
    let mut left = TURNS;
    while left > 0 {
        if is_settled::<N>(&centre.residual, 64) {
            return centre;
        }
        centre = turned(wall, loads, &centre);
        left -= 1;
    }
    centre
}

// the centre after one turn
#[tactic(auto, unfolding(crate::specs::inside::Solution::turned))]
fn turned<N: Enclosure>(wall: &Wall<N>, loads: &Six<N>, centre: &Centre) -> Centre
    requires wall { SmallWall N.numbers wall.now }
    requires loads { SmallLoads N.numbers loads.now }
    requires centre { SmallGuess centre.now.strains }
    requires residual { SmallResidual centre.now.residual }
    ensures strains { result.strains ≡ by.turned N.numbers centre.now.strains centre.now.residual }
    ensures residual { result.residual ≡ by.residual N.numbers wall.now loads.now result.strains }
    ensures guess { SmallGuess result.strains }
    ensures small { SmallResidual result.residual }
{
    let Centre {
        strains,
        residual: rest,
    } = centre;
    let strains = Guess {
        ex: moved::<N>(strains.ex, rest.ex),
        ey: moved::<N>(strains.ey, rest.ey),
        g: moved::<N>(strains.g, rest.g),
        kx: moved::<N>(strains.kx, rest.kx),
        ky: moved::<N>(strains.ky, rest.ky),
        kg: moved::<N>(strains.kg, rest.kg),
    };
    Centre {
        strains,
        residual: residual(wall, loads, &strains),
    }
}

// a component with the middle of its equation's residual added, and at most 4 in size
fn moved<N: Enclosure>(component: i64, residual: Ends) -> i64
    requires { SmallEnds (50 * 2 ^ 120) residual }
    ensures value { result ≡ by.moved N.numbers component residual }
    ensures small { AtMost (2 ^ 62) result }
{
    let most = four::<N>();
    let middle = middle::<N>(residual);
    let component = i128::from(component);
    cut_narrow(most, component + middle)
}

// tells whether no middle of the residual is more than so many units
#[tactic(auto, unfolding(crate::specs::inside::Solution::is_settled))]
fn is_settled<N: Enclosure>(residual: &Six<Ends>, most: u128) -> bool
    requires { SmallResidual residual.now }
    ensures { result ≡ by.is_settled N.numbers most residual.now }
{
    let forces = size::<N>(residual.ex)
        .max(size::<N>(residual.ey))
        .max(size::<N>(residual.g));
    let moments = size::<N>(residual.kx)
        .max(size::<N>(residual.ky))
        .max(size::<N>(residual.kg));
    forces.max(moments) <= most
}

// the size of the middle of a residual, in units
fn size<N: Enclosure>(residual: Ends) -> u128
    requires { SmallEnds (50 * 2 ^ 120) residual }
    ensures { result ≡ unsigned_abs (by.middle N.numbers residual) }
{
    let middle = middle::<N>(residual);
    wide_size(middle)
}

// the middle of a residual, in units
fn middle<N: Enclosure>(residual: Ends) -> i128
    requires { SmallEnds (50 * 2 ^ 120) residual }
    ensures value { result ≡ by.middle N.numbers residual }
    ensures small { AtMost (100 * 2 ^ 120) result }
{
    let twice = residual.low + residual.high;
    shift_down(twice, N::SCALE + 1)
}
