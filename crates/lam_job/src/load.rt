// The load of a case.

ghost use Rattle.std.specs.Prelude.{◌≡◌, ◌≤ℤ◌, pos, if◌then◌else◌};
ghost use Rattle.lam_job.specs.LoadOf as spec;
ghost use Rattle.lam_job.specs.Ranges.{IsPressure, IsDiameter};

use crate::case::{Case, CaseKind};

/// Force and moment resultants per length of wall. Forces are in quarters of N/m, moments in mN.
#[derive(Clone, Copy, PartialEq, Eq, Debug)]
pub struct Load {
    pub nx: i64,
    pub ny: i64,
    pub nxy: i64,
    pub mx: i64,
    pub my: i64,
    pub mxy: i64,
}

/// The load of a case: what it names, or what the pressure on the cylinder gives (Jones, the thin-walled pressure
/// vessel), which is the hoop force and, where the ends are closed, half of it along the axis.
pub fn resultants(case: &Case) -> Load
    ensures value { result ≡ spec.load_of case.now.kind }
{
    match &case.kind {
        CaseKind::Resultants {
            nx,
            ny,
            nxy,
            mx,
            my,
            mxy,
        } => Load {
            nx: 4 * *nx,
            ny: 4 * *ny,
            nxy: 4 * *nxy,
            mx: *mx,
            my: *my,
            mxy: *mxy,
        },
        CaseKind::Cylinder {
            pressure,
            diameter,
            closed,
            axial,
            mx,
            my,
        } => Load {
            nx: end_force(pressure, diameter, *closed) + 4 * *axial,
            ny: hoop_force(pressure, diameter),
            nxy: 0,
            mx: *mx,
            my: *my,
            mxy: 0,
        },
    }
}

// the hoop force of a pressure in kPa on a cylinder whose diameter is in mm
fn hoop_force(pressure: &i64, diameter: &i64) -> i64
    requires pressure { IsPressure pressure.now }
    requires diameter { IsDiameter diameter.now }
    ensures value { result ≡ spec.hoop_force pressure.now diameter.now }
{
    2 * (*pressure * *diameter)
}

// the axial force of the pressure on the ends
fn end_force(pressure: &i64, diameter: &i64, closed: bool) -> i64
    requires pressure { IsPressure pressure.now }
    requires diameter { IsDiameter diameter.now }
    ensures value { result ≡ (if closed then spec.end_force pressure.now diameter.now else pos 0) }
    ensures least { pos 0 ≤ℤ result }
    ensures greatest { result ≤ℤ pos 10000000000 }
{
    if closed { *pressure * *diameter } else { 0 }
}
