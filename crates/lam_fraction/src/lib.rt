//! Fractions of whole numbers, the laws of their sums, products and order by cross products, and exact steps of
//! machine numbers.
#![tactic(auto)]

ghost use Rattle.std.specs.Prelude.{pos, ◌<ℤ◌, ◌*ℤ◌, FitsSigned, OkIff};
ghost use Rattle.std.specs.Int.{w128};

use num_traits::CheckedMul;
use std::cmp::Ordering;

// the laws of fractions
pub mod cross_products;
// exact products, sizes and casts
pub mod machine;

/// A fraction: `num` over `den`, which is above 0. It need not be in lowest terms, so one number has many
/// fractions: two are equal where their cross products are, which is equality of their values.
#[derive(Clone, Copy, Debug)]
pub struct Frac {
    pub num: i128,
    pub den: i128,
    pub ghost positive: { pos 0 <ℤ den },
}

/// A product that the answer needs leaves the numbers of 128 bits.
#[derive(Clone, Copy, Debug, PartialEq, Eq)]
pub struct Wide;

impl Frac {
    ghost use Rattle.std.specs.Prelude.{◌≡◌, ◌⊎◌, ◌↔◌, IsErr, IfOk, OnOk};
    ghost use Rattle.std.specs.Ordering.{MatchOrdering};
    ghost use Rattle.lam_fraction.specs.Fraction.{fraction, whole, ◌*ℚ◌, ◌<ℚ◌};
    ghost use Rattle.lam_fraction.specs.Value.{value, IsWide};

    /// The fraction of a numerator and a denominator.
    pub fn new(num: i128, den: i128) -> Frac
        requires { pos 0 <ℤ den }
        ensures num { result.num ≡ num }
        ensures den { result.den ≡ den }
        ensures value { value result ≡ fraction num den }
    {
        Frac { num, den }
    }

    /// The order of the two values, by the cross products. `Wide` where one of these leaves 128 bits.
    pub fn compare(&self, other: &Frac) -> Result<Ordering, Wide>
        ensures wide { IsErr result
            ↔ (IsWide (self.now.num *ℤ other.now.den) ⊎ IsWide (other.now.num *ℤ self.now.den)) }
        ensures fits { OnOk result
            (FitsSigned w128 (self.now.num *ℤ other.now.den) × FitsSigned w128 (other.now.num *ℤ self.now.den)) }
        ensures order { let x = value self.now in let y = value other.now in
            IfOk result (λ order. MatchOrdering order (x <ℚ y) (x ≡ y) (y <ℚ x)) }
    {
        let left = product(&self.num, &other.den)?;
        let right = product(&other.num, &self.den)?;
        Ok(left.cmp(&right))
    }

    /// The fraction times a whole number, over the same denominator. `Wide` where the numerator leaves 128 bits.
    pub fn times_whole(&self, k: i128) -> Result<Frac, Wide>
        ensures wide { IsErr result ↔ IsWide (self.now.num *ℤ k) }
        ensures num { IfOk result (λ product. product.num ≡ self.now.num *ℤ k) }
        ensures den { IfOk result (λ product. product.den ≡ self.now.den) }
        ensures value { IfOk result (λ product. value product ≡ value self.now *ℚ whole k) }
    {
        let num = product(&self.num, &k)?;
        Ok(Frac { num, den: self.den })
    }
}

/// The product of two whole numbers, where 128 bits hold it.
fn product(a: &i128, b: &i128) -> Result<i128, Wide>
    ensures { OkIff result (FitsSigned w128 (a.now *ℤ b.now)) (a.now *ℤ b.now) }
{
    CheckedMul::checked_mul(a, b).ok_or(Wide)
}

#[cfg(test)]
mod tests {
    use super::*;

    #[test]
    fn orders_by_cross_products(rt: HostRuntime) {
        let rows = [
            (1, 2, 2, 4, Ok(Ordering::Equal)),
            (-1, 3, -1, 4, Ok(Ordering::Less)),
            (333, 106, 22, 7, Ok(Ordering::Less)),
            (0, 5, -1, 9, Ok(Ordering::Greater)),
            (i128::MAX, 1, i128::MIN, 1, Ok(Ordering::Greater)),
            (i128::MAX, 1, 1, 2, Err(Wide)),
            (1, 2, i128::MIN, 1, Err(Wide)),
        ];
        for (num, den, other_num, other_den, order) in rows {
            assert!(rt; den > 0 && other_den > 0);
            assert_eq!(rt;
                Frac::new(num, den).compare(&Frac::new(other_num, other_den)),
                order
            );
        }
    }

    #[test]
    fn multiplies_the_numerator(rt: HostRuntime) {
        let rows = [
            (3, 7, 14, Ok((42, 7))),
            (-3, 7, 0, Ok((0, 7))),
            (1 << 126, 9, -2, Ok((i128::MIN, 9))),
            (1 << 126, 9, 2, Err(Wide)),
        ];
        for (num, den, k, product) in rows {
            assert!(rt; den > 0);
            assert_eq!(rt;
                Frac::new(num, den).times_whole(k).map(|f| (f.num, f.den)),
                product
            );
        }
    }
}
