// The cases of load of a job.

use std::marker::Model;

/// How a case loads the wall. Forces are in N/m and moments in mN, both per length of wall.
#[derive(Clone, Copy, PartialEq, Eq, Debug)]
pub enum CaseKind {
    /// The force and moment resultants themselves.
    Resultants {
        nx: i64,
        ny: i64,
        nxy: i64,
        mx: i64,
        my: i64,
        mxy: i64,
    },
    /// A pressure in kPa on a cylinder whose diameter is in mm, with closed or open ends, and besides an axial force
    /// and bending moments.
    Cylinder {
        pressure: i64,
        diameter: i64,
        closed: bool,
        axial: i64,
        mx: i64,
        my: i64,
    },
}

/// A case of load, and the strength ratio that each ply has to have under it, in thousandths.
#[derive(Clone, Copy, Debug)]
pub struct Case {
    pub kind: CaseKind,
    pub factor: i64,
}

impl Model for Case {
    ghost use Rattle.lam_job.specs.JobData.{CaseData};

    ghost Value = { CaseData };

    ghost use Rattle.lam_job.specs.Ranges.{IsCase};

    ghost view = { λ c. record { kind = c.kind; factor = c.factor } };

    ghost invariant = { λ c. IsCase (record { kind = c.kind; factor = c.factor }) };

    ghost inverse = { λ c. record { kind = c.kind; factor = c.factor } };
}
