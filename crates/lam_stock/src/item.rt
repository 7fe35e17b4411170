// The items of a catalogue.

use crate::name::Name;
use lam_direction::Direction;

/// The number of a catalogue item, from 0.
#[derive(Clone, Copy, PartialEq, Eq, Default, Debug)]
pub struct ItemNo(pub u8);

/// The kind of a catalogue item.
#[derive(Clone, Copy, PartialEq, Eq, Debug)]
pub enum Kind {
    /// One layer of one fibre direction.
    Ply,
    /// One layer whose stiffness is the mean of a direction and its mirror image.
    Pair,
}

/// The moduli, strengths and thickness of one layer in its own axes; axis 1 lies along the fibres.
#[derive(Clone, Copy, PartialEq, Eq, Debug)]
pub struct Lamina {
    /// Young's modulus along axis 1, in MPa.
    pub e1: i64,
    /// Young's modulus along axis 2, in MPa.
    pub e2: i64,
    /// The major Poisson's ratio, in thousandths.
    pub n12: i64,
    /// The shear modulus, in MPa.
    pub g12: i64,
    /// The tensile strength along axis 1, in kPa.
    pub xt: i64,
    /// The compressive strength along axis 1, in kPa.
    pub xc: i64,
    /// The tensile strength along axis 2, in kPa.
    pub yt: i64,
    /// The compressive strength along axis 2, in kPa.
    pub yc: i64,
    /// The shear strength, in kPa.
    pub s: i64,
    /// The interaction term F12 of the Tsai-Wu criterion, in 10^-12 per MPa^2.
    pub f12: i64,
    /// The thickness, in µm.
    pub t: i64,
}

/// An item of a catalogue.
#[derive(Drop)]
pub struct Item {
    /// The name that a job and a schedule call it by.
    pub name: Name,
    /// A ply, or a pair of plies.
    pub kind: Kind,
    /// The layer.
    pub lamina: Lamina,
    /// The direction of its fibres.
    pub dir: Direction,
    /// The cost, in whole units of the user's choice.
    pub cost: u64,
}
