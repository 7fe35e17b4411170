// The numbers that the limits consist of, in the units of an item, each once.

/// The most items of a catalogue, and of a list of items.
pub const MOST_ITEMS: usize = 64;

/// How many times the least stiffness floor q0 may be.
pub const GREATEST_SPREAD: i64 = 512;

pub const LEAST_MODULUS: i64 = 1_000;

pub const GREATEST_MODULUS: i64 = 400_000;

pub const LEAST_POISSON: i64 = 0;

pub const GREATEST_POISSON: i64 = 999;

pub const LEAST_SHEAR_MODULUS: i64 = 500;

pub const GREATEST_SHEAR_MODULUS: i64 = 200_000;

pub const LEAST_STRENGTH: i64 = 1_000;

pub const GREATEST_STRENGTH: i64 = 5_000_000;

pub const LEAST_INTERACTION: i64 = -1_000_000_000_000;

pub const GREATEST_INTERACTION: i64 = 1_000_000_000_000;

pub const LEAST_THICKNESS: i64 = 50;

pub const GREATEST_THICKNESS: i64 = 20_000;

pub const LEAST_COST: i64 = 0;

pub const GREATEST_COST: i64 = 1_000_000_000;

pub const GREATEST_RATIO: i64 = 16;

pub const GREATEST_CROSS: u128 = 3_000_000_000_000_000_000_000_000_000_000_000_000;

pub const GREATEST_SLACK: i64 = 16_384;
