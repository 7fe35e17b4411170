// The limits on the numbers of an item.

ghost use Rattle.std.specs.Prelude.{◌≡◌, ◌<◌, IsTrue, OnOk, pos, ◌*ℤ◌};
ghost use Rattle.lam_stock.specs.Tests as test;
ghost use Rattle.lam_stock.specs.Limits.{KeepsLimits, NumbersInRange, ModuliInRange};
ghost use Rattle.lam_stock.specs.Limits.{StrengthsInRange, IsStrength};

use crate::fault::StockCause;
use crate::item::Lamina;
use crate::limit_numbers::*;
use crate::moduli::{size, stiffness_cap};

/// Answers the first of the limits that a lamina and its cost break, if there is one.
pub fn check(lamina: &Lamina, cost: &i64) -> Result<(), StockCause>
    ensures first { result ≡ test.limits_of lamina.now cost.now }
    ensures kept { OnOk result (KeepsLimits lamina.now cost.now) }
{
    if !in_range(lamina, cost) {
        return Err(StockCause::Range);
    }
    if !keeps_poisson(lamina) {
        return Err(StockCause::Poisson);
    }
    if !keeps_ratio(lamina) {
        return Err(StockCause::Ratio);
    }
    if !keeps_cross(lamina) {
        return Err(StockCause::Cross);
    }
    if !keeps_slack(lamina) {
        return Err(StockCause::Slack);
    }
    Ok(())
}

// tells whether each number is in range
fn in_range(lamina: &Lamina, cost: &i64) -> bool
    ensures tells { result ≡ test.in_range lamina.now cost.now }
    ensures range { IsTrue result → NumbersInRange lamina.now cost.now }
{
    if !moduli_in_range(lamina) || !strengths_in_range(lamina) {
        return false;
    }
    rest_in_range(lamina, cost)
}

// tells whether the moduli and Poisson's ratio are in range
fn moduli_in_range(lamina: &Lamina) -> bool
    ensures { result ≡ test.moduli_in_range lamina.now }
{
    is_between(LEAST_MODULUS, GREATEST_MODULUS, lamina.e1)
        && is_between(LEAST_MODULUS, GREATEST_MODULUS, lamina.e2)
        && is_between(LEAST_POISSON, GREATEST_POISSON, lamina.n12)
        && is_between(LEAST_SHEAR_MODULUS, GREATEST_SHEAR_MODULUS, lamina.g12)
}

// tells whether the strengths are in range
fn strengths_in_range(lamina: &Lamina) -> bool
    ensures { result ≡ test.strengths_in_range lamina.now }
{
    if !is_strength(lamina.xt) {
        return false;
    }
    if !is_strength(lamina.xc) {
        return false;
    }
    if !is_strength(lamina.yt) {
        return false;
    }
    if !is_strength(lamina.yc) {
        return false;
    }
    is_strength(lamina.s)
}

// tells whether a number is a strength
fn is_strength(x: i64) -> bool
    ensures { result ≡ test.is_strength x }
{
    is_between(LEAST_STRENGTH, GREATEST_STRENGTH, x)
}

// tells whether the interaction term, the thickness and the cost are in range
fn rest_in_range(lamina: &Lamina, cost: &i64) -> bool
    ensures { result ≡ test.rest_in_range lamina.now cost.now }
{
    is_between(LEAST_INTERACTION, GREATEST_INTERACTION, lamina.f12)
        && is_between(LEAST_THICKNESS, GREATEST_THICKNESS, lamina.t)
        && is_between(LEAST_COST, GREATEST_COST, *cost)
}

// tells whether a number is from low to high
fn is_between(low: i64, high: i64, x: i64) -> bool
    ensures { result ≡ test.is_between low high x }
{
    low <= x && x <= high
}

// tells whether Poisson's ratio is not too great for the moduli
fn keeps_poisson(lamina: &Lamina) -> bool
    requires { ModuliInRange lamina.now }
    ensures { result ≡ test.keeps_poisson lamina.now }
{
    let e1 = size(&lamina.e1) as u128;
    let e2 = size(&lamina.e2) as u128;
    let n12 = size(&lamina.n12) as u128;
    2 * (n12 * n12) * e2 <= 1_000_000 * e1
}

// tells whether the strengths along each axis are near each other
fn keeps_ratio(lamina: &Lamina) -> bool
    requires { StrengthsInRange lamina.now }
    ensures { result ≡ test.keeps_ratio lamina.now }
{
    is_near(lamina.xt, lamina.xc) && is_near(lamina.yt, lamina.yc)
}

// tells whether two strengths are within 1 to 16 either way
fn is_near(a: i64, b: i64) -> bool
    requires first { IsStrength a }
    requires second { IsStrength b }
    ensures { result ≡ test.is_near a b }
{
    a <= GREATEST_RATIO * b && b <= GREATEST_RATIO * a
}

// tells whether no strength is too small for the moduli
fn keeps_slack(lamina: &Lamina) -> bool
    requires moduli { ModuliInRange lamina.now }
    requires strengths { StrengthsInRange lamina.now }
    ensures { result ≡ test.keeps_slack lamina.now }
{
    if !has_slack(lamina, &lamina.xt) {
        return false;
    }
    if !has_slack(lamina, &lamina.xc) {
        return false;
    }
    if !has_slack(lamina, &lamina.yt) {
        return false;
    }
    if !has_slack(lamina, &lamina.yc) {
        return false;
    }
    has_slack(lamina, &lamina.s)
}

// tells whether a strength is not too small for the moduli
fn has_slack(lamina: &Lamina, strength: &i64) -> bool
    requires moduli { ModuliInRange lamina.now }
    requires strength { IsStrength strength.now }
    ensures { result ≡ test.has_slack lamina.now strength.now }
{
    1000 * stiffness_cap(lamina) <= GREATEST_SLACK * *strength
}

// tells whether the interaction term is not too great for the strengths
fn keeps_cross(lamina: &Lamina) -> bool
    requires { StrengthsInRange lamina.now }
    ensures { result ≡ test.keeps_cross lamina.now }
{
    let term = square(&lamina.f12);
    let along = product(&lamina.xt, &lamina.xc);
    let across = product(&lamina.yt, &lamina.yc);
    term <= GREATEST_CROSS / 4 / along / across
}

// the square of a number
fn square(x: &i64) -> u128
    ensures value { pos result ≡ x.now *ℤ x.now }
{
    let size = x.unsigned_abs() as u128;
    size * size
}

// the product of two strengths
fn product(a: &i64, b: &i64) -> u128
    requires first { IsStrength a.now }
    requires second { IsStrength b.now }
    ensures value { pos result ≡ a.now *ℤ b.now }
    ensures positive { 0 < result }
{
    size(a) as u128 * size(b) as u128
}
