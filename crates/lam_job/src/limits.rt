// The limits of a job.

/// The most plies that a schedule may list.
pub const MOST_PLIES: u8 = 56;

/// The most plies of a liner.
pub const MOST_LINER_PLIES: usize = 8;

/// The most plies of a wall: a liner and the listed plies.
pub const MOST_WALL_PLIES: usize = 64;

/// The greatest thickness of a wall in µm: the most plies, of 20 mm each.
pub const GREATEST_WALL_THICKNESS: i64 = 1_280_000;

/// The greatest thickness in µm that a job may ask of a wall.
pub const GREATEST_ASKED_THICKNESS: i64 = 2_000_000;

/// The most names of a set of items.
pub const MOST_NAMES: usize = 64;

/// The most cases of a job.
pub const MOST_CASES: usize = 16;

/// The most panels of a job.
pub const MOST_PANELS: usize = 8;

/// The greatest force of a case in N/m, in either sense.
pub const GREATEST_FORCE: i64 = 1_000_000_000;

/// The greatest moment of a case in mN, in either sense.
pub const GREATEST_MOMENT: i64 = 1_000_000_000_000;

/// The greatest pressure of a case in kPa.
pub const GREATEST_PRESSURE: i64 = 100_000;

/// The greatest diameter of a cylinder in mm.
pub const GREATEST_DIAMETER: i64 = 100_000;

/// The least strength ratio, or number of loads, that may be asked for, in thousandths.
pub const LEAST_FACTOR: i64 = 1000;

/// The greatest strength ratio, or number of loads, that may be asked for, in thousandths.
pub const GREATEST_FACTOR: i64 = 20_000;

/// The least length or width of a panel in mm.
pub const LEAST_SIDE: i64 = 50;

/// The greatest length or width of a panel in mm.
pub const GREATEST_SIDE: i64 = 20_000;

/// The greatest load of a panel in N/m.
pub const GREATEST_PANEL_LOAD: i64 = 1_000_000_000;
