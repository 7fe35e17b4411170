//! Exact steps of machine numbers. Each contract speaks of whole numbers and not of their bits.

ghost use Rattle.std.specs.Prelude.{◌≡◌, ◌^◌, ◌<◌, ◌≤◌, ◌*ℤ◌, unsigned_abs, FitsSigned};
ghost use Rattle.std.specs.Int.{w64, w128};

use num_traits::cast;

/// The product of two numbers, which 128 bits always hold.
pub fn wide_product(a: i64, b: i64) -> i128
    ensures { result ≡ a *ℤ b }
{
    i128::from(a) * i128::from(b)
}

/// The product of two numbers, where 64 bits hold it.
pub fn product(a: i64, b: i64) -> i64
    requires { FitsSigned w64 (a *ℤ b) }
    ensures { result ≡ a *ℤ b }
{
    a * b
}

/// The product of two wide numbers, where 128 bits hold it.
pub fn product_of_wide(a: i128, b: i128) -> i128
    requires { FitsSigned w128 (a *ℤ b) }
    ensures { result ≡ a *ℤ b }
{
    a * b
}

/// The size of a number, in bits in which sizes can be added and multiplied.
pub fn size(z: i64) -> u128
    ensures value { result ≡ unsigned_abs z }
    ensures bound { result ≤ 2 ^ 63 }
{
    u128::from(z.unsigned_abs())
}

/// The size of a wide number.
pub fn wide_size(z: i128) -> u128
    ensures value { result ≡ unsigned_abs z }
    ensures bound { result ≤ 2 ^ 127 }
{
    z.unsigned_abs()
}

/// The same number in 64 bits, where they hold it.
pub fn narrow(z: i128) -> i64
    requires { FitsSigned w64 z }
    ensures { result ≡ z }
{
    match cast(z) {
        Some(narrowed) => narrowed,
        None => unreachable!(),
    }
}

/// Two to the power of a scale.
pub fn two_to(scale: u32) -> u128
    requires { scale < 128 }
    ensures { result ≡ 2 ^ scale }
{
    1u128 << scale
}

#[cfg(test)]
mod tests {
    use super::*;

    #[test]
    fn computes_at_the_ends(rt: HostRuntime) {
        assert_eq!(rt; wide_product(i64::MIN, i64::MIN), 1i128 << 126);
        assert_eq!(rt;
            product(-1_000_000, 4_000_000_000_000),
            -4_000_000_000_000_000_000
        );
        assert_eq!(rt; product_of_wide(1i128 << 63, -(1i128 << 64)), i128::MIN);
        assert_eq!(rt; size(i64::MIN), 1u128 << 63);
        assert_eq!(rt; wide_size(i128::MIN), 1u128 << 127);
        assert_eq!(rt; narrow(-(1i128 << 63)), i64::MIN);
        assert_eq!(rt; two_to(127), 1u128 << 127);
    }
}
