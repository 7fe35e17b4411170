// What the criterion needs of an item, made once.

ghost use Rattle.std.specs.Prelude.{◌≡◌};
ghost use Rattle.lam_lamina.specs.Covered.{IsCovered};
ghost use Rattle.lam_stock.specs.Limits.{KeepsStrengths};
ghost use Rattle.lam_tsai.specs.Listed.{IsItemOf};
ghost use Rattle.lam_tsai.specs.inside.Reach.{ReachCriterion};
ghost use Rattle.lam_tsai.specs.inside.Values as by;

use crate::angle::{Angle, side_angle};
use crate::coefficients::{Coefficients, coefficients_of};
use crate::place::Side;
use lam_lamina::{Reduced, reduced};
use lam_number::Enclosure;
use lam_stock::{Item, Kind, Scale};

/// The Tsai-Wu criterion of an item of a catalogue: its coefficients and the stiffness that leads to
/// its stresses, each made once for many strains and factors.
#[derive(Clone, Copy)]
pub struct Criterion<N> {
    /// The reduced stiffness, over `q0`.
    pub reduced: Reduced<N>,
    /// The angle of the side Plus.
    pub plus: Angle<N>,
    /// The angle of the side Minus.
    pub minus: Angle<N>,
    /// The coefficients of the value.
    pub coefficients: Coefficients<N>,
    /// The greater strength along the fibres, in kPa.
    pub along: i64,
    /// The greater strength across the fibres, in kPa.
    pub across: i64,
    /// The shear strength, in kPa.
    pub shear: i64,
    /// The catalogue's scale of stiffness, in MPa.
    pub q0: i64,
    /// A ply, which has the side Plus alone, or a pair.
    pub kind: Kind,
}

impl<N: Enclosure> Criterion<N> {
    /// The criterion of an item of a catalogue with this scale.
    pub fn of(item: &Item, scale: &Scale) -> Criterion<N>
        requires { IsItemOf scale.now item.now }
        ensures value { result ≡ by.criterion N.numbers scale.now item.now }
        ensures reach { ReachCriterion N.numbers result }
    {
        made(item, scale)
    }
}

// by what the limits of an item say
fn made<N: Enclosure>(item: &Item, scale: &Scale) -> Criterion<N>
    requires covered { IsCovered scale.now.q0 item.now.lamina }
    requires strengths { KeepsStrengths item.now.lamina }
    ensures { result ≡ by.criterion N.numbers scale.now item.now }
{
    let lamina = &item.lamina;
    Criterion {
        reduced: reduced(lamina, scale),
        plus: side_angle(&item.dir, Side::Plus),
        minus: side_angle(&item.dir, Side::Minus),
        coefficients: coefficients_of(lamina),
        along: lamina.xt.max(lamina.xc),
        across: lamina.yt.max(lamina.yc),
        shear: lamina.s,
        q0: scale.q0,
        kind: item.kind,
    }
}
