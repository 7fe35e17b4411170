// The scale of a catalogue.

ghost use Rattle.std.specs.Prelude.{◌≡◌, ◌≤◌, ◌≤ℤ◌, pos, All};
ghost use Rattle.lam_stock.specs.Scale as spec;
ghost use Rattle.lam_stock.specs.LimitNumbers.{greatest_modulus};
ghost use Rattle.lam_stock.specs.Limits.{ModuliInRange};

use crate::item::Item;
use crate::limit_numbers::GREATEST_MODULUS;
use crate::moduli::{size, stiffness_cap, stiffness_floor};

/// The scale that the stiffnesses of a catalogue are counted on.
#[derive(Clone, Copy, PartialEq, Eq, Debug)]
pub struct Scale {
    /// The least power of two in MPa that is at least 2(E1 + E2) and at least 2 G12 of every item.
    pub q0: i64,
    /// The least over the items of the whole part of E1 E2 / (E1 + E2) and of 2 G12, in MPa.
    pub floor: i64,
}

/// The scale of at least one item.
pub fn scale_of(items: &[Item]) -> Scale
    requires { All (λ i. ModuliInRange i.lamina) items.now }
    ensures value { result ≡ spec.scale_of items.now }
    ensures least { pos 500 ≤ℤ result.floor }
    ensures greatest { result.floor ≤ℤ greatest_modulus }
{
    Scale {
        q0: power_above(size(&greatest_cap(items))) as i64,
        floor: least_floor(items),
    }
}

// the greatest stiffness cap of some items
fn greatest_cap(items: &[Item]) -> i64
    requires { All (λ i. ModuliInRange i.lamina) items.now }
    ensures value { result ≡ spec.greatest_cap items.now }
    ensures least { pos 0 ≤ℤ result }
    ensures greatest { result ≤ℤ pos 1600000 }
{
    let mut greatest: i64 = 0;
    for item in items {
        greatest = greatest.max(stiffness_cap(&item.lamina));
    }
    greatest
}

// the least stiffness floor of some items
fn least_floor(items: &[Item]) -> i64
    requires { All (λ i. ModuliInRange i.lamina) items.now }
    ensures value { result ≡ spec.least_floor items.now }
    ensures least { pos 500 ≤ℤ result }
    ensures greatest { result ≤ℤ greatest_modulus }
{
    let mut least = GREATEST_MODULUS;
    for item in items {
        least = least.min(stiffness_floor(&item.lamina));
    }
    least
}

// the least power of two that is at least a number
fn power_above(most: u64) -> u64
    requires { most ≤ 1600000 }
    ensures value { result ≡ spec.power_above most }
    ensures small { result ≤ 3200000 }
{
    let mut power = 1;
    while power < most {
        power *= 2;
    }
    power
}
