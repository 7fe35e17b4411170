//! The laws of fractions by cross products, each the contract of a function that does nothing.

ghost use Rattle.lam_fraction.specs.CrossLaws.{EqualByCrossProducts, SumByCrossProducts, ProductByCrossProducts, OrderByCrossProducts};

/// Two fractions are equal where their cross products are.
pub fn equal_by_cross_products()
    ensures { EqualByCrossProducts }
{}

/// A sum of fractions has the cross sum over the product of the denominators.
pub fn sum_by_cross_products()
    ensures { SumByCrossProducts }
{}

/// A product of fractions is the product of the numerators over that of the denominators.
pub fn product_by_cross_products()
    ensures { ProductByCrossProducts }
{}

/// Fractions are in the order of their cross products.
pub fn order_by_cross_products()
    ensures { OrderByCrossProducts }
{}
