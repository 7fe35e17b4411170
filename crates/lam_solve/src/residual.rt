// The residual of a centre: the load less the forces and moments that the wall's matrices give at the centre, in whole
// units squared, from the ends of the matrices' entries and of the load. Nothing is rounded.

ghost use Rattle.std.specs.Prelude.{◌≡◌, ◌*◌, ◌^◌};
ghost use Rattle.lam_fraction.specs.inside.Size.{AtMost};
ghost use Rattle.lam_wall.specs.Assembled.{SmallWall};
ghost use Rattle.lam_solve.specs.inside.Residual as by;
ghost use Rattle.lam_solve.specs.inside.Parts.{SmallEnds, SmallEntry, SmallGuess, SmallLoads, SmallResidual, SmallRow};

use crate::six::{Ends, Six};
use crate::steps::one;
use crate::strains::Guess;
use lam_fraction::machine::wide_product;
use lam_lamina::Sym3;
use lam_number::Enclosure;
use lam_wall::Wall;

/// The residual of the six equations.
pub(crate) fn residual<N: Enclosure>(wall: &Wall<N>, loads: &Six<N>, centre: &Guess) -> Six<Ends>
    requires wall { SmallWall N.numbers wall.now }
    requires loads { SmallLoads N.numbers loads.now }
    requires centre { SmallGuess centre.now }
    ensures value { result ≡ by.residual N.numbers wall.now loads.now centre.now }
    ensures small { SmallResidual result }
{
    Six {
        ex: row_residual(loads.ex, &row_x(&wall.a, &wall.b), centre),
        ey: row_residual(loads.ey, &row_y(&wall.a, &wall.b), centre),
        g: row_residual(loads.g, &row_s(&wall.a, &wall.b), centre),
        kx: row_residual(loads.kx, &row_x(&wall.b, &wall.d), centre),
        ky: row_residual(loads.ky, &row_y(&wall.b, &wall.d), centre),
        kg: row_residual(loads.kg, &row_s(&wall.b, &wall.d), centre),
    }
}

/// The coefficients of the equation of x, at mid-plane strains and at bending strains.
pub(crate) fn row_x<N: Enclosure>(first: &Sym3<N>, second: &Sym3<N>) -> Six<N>
    ensures { result ≡ by.row_x first.now second.now }
{
    Six {
        ex: first.xx,
        ey: first.xy,
        g: first.xs,
        kx: second.xx,
        ky: second.xy,
        kg: second.xs,
    }
}

/// Those of the equation of y.
pub(crate) fn row_y<N: Enclosure>(first: &Sym3<N>, second: &Sym3<N>) -> Six<N>
    ensures { result ≡ by.row_y first.now second.now }
{
    Six {
        ex: first.xy,
        ey: first.yy,
        g: first.ys,
        kx: second.xy,
        ky: second.yy,
        kg: second.ys,
    }
}

/// Those of the equation of the shear.
pub(crate) fn row_s<N: Enclosure>(first: &Sym3<N>, second: &Sym3<N>) -> Six<N>
    ensures { result ≡ by.row_s first.now second.now }
{
    Six {
        ex: first.xs,
        ey: first.ys,
        g: first.ss,
        kx: second.xs,
        ky: second.ys,
        kg: second.ss,
    }
}

// the residual of one equation
fn row_residual<N: Enclosure>(load: N, row: &Six<N>, centre: &Guess) -> Ends
    requires load { SmallEntry N.numbers load }
    requires row { SmallRow N.numbers row.now }
    requires centre { SmallGuess centre.now }
    ensures value { result ≡ by.row_residual N.numbers load row.now centre.now }
    ensures small { SmallEnds (50 * 2 ^ 120) result }
{
    let unit = one::<N>();
    let ex = share(row.ex, centre.ex);
    let ey = share(row.ey, centre.ey);
    let g = share(row.g, centre.g);
    let kx = share(row.kx, centre.kx);
    let ky = share(row.ky, centre.ky);
    let kg = share(row.kg, centre.kg);
    let least = ex.low + ey.low + g.low + kx.low + ky.low + kg.low;
    let greatest = ex.high + ey.high + g.high + kx.high + ky.high + kg.high;
    let low = wide_product(load.low(), unit) - greatest;
    let high = wide_product(load.high(), unit) - least;
    Ends { low, high }
}

// from the least to the greatest product of an entry's ends with a component of the centre
fn share<N: Enclosure>(entry: N, component: i64) -> Ends
    requires entry { SmallEntry N.numbers entry }
    requires component { AtMost (2 ^ 62) component }
    ensures value { result ≡ by.share N.numbers entry component }
    ensures small { SmallEnds (2 ^ 123) result }
{
    let by_low = wide_product(entry.low(), component);
    let by_high = wide_product(entry.high(), component);
    Ends {
        low: by_low.min(by_high),
        high: by_low.max(by_high),
    }
}
