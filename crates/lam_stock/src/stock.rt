// The catalogue: its items, and its scale.

ghost use Rattle.std.specs.Prelude.{◌≡◌, ℕ, ◌<◌, ◌≤◌, ◌↔◌, ◌≤ℤ◌, ◌*ℤ◌, ◌^◌, pos, length, slice_get};
ghost use Rattle.std.specs.Prelude.{All, Some, IfSome, IfNone, IsSome, IsTrue, IsFalse, option_map};
ghost use Rattle.lam_stock.specs.LimitNumbers.{greatest_modulus, greatest_spread, most_items};
ghost use Rattle.lam_stock.specs.Likeness as spec;
ghost use Rattle.lam_stock.specs.Scale.{IsScaleOf, scale_of as scale_spec};
ghost use Rattle.lam_stock.specs.Stock.{HaveNames, IsStock, WithinLimits};
ghost use Rattle.lam_stock.specs.declared.item.Item.{Item};

use crate::item::{Item, ItemNo, Kind, Lamina};
use crate::limit_numbers::GREATEST_SPREAD;
use crate::scale::{Scale, scale_of};
use lam_direction::Direction;
use std::marker::Model;

/// A catalogue of 1 to 64 items with names of their own.
#[derive(Drop)]
pub struct Stock {
    items: Vec<Item>,
    scale: Scale,
}

impl Model for Stock {
    ghost use Rattle.std.specs.Prelude.{List};
    ghost use Rattle.lam_stock.specs.declared.item.Item.{Item};

    ghost Value = { List Item };

    ghost use Rattle.lam_stock.specs.Stock.{IsStock};

    ghost view = { λ s. s.items.items };

    ghost invariant = { λ s. IsStock s.items.items s.scale };
}

impl Stock {
    /// The catalogue of these items, if q0 is at most 512 times the least stiffness floor.
    pub(crate) fn of_items(items: Vec<Item>) -> Option<Stock>
        requires some { 1 ≤ length items.items }
        requires few { length items.items ≤ most_items }
        requires limits { All WithinLimits items.items }
        requires names { HaveNames items.items }
        ensures items { IfSome result (λ stock. stock ≡ items.items) }
        ensures spread { IsSome result ↔ (let scale = scale_spec items.items in
            scale.q0 ≤ℤ (greatest_spread *ℤ scale.floor)) }
    {
        let scale = scale_of(&items);
        if scale.q0 > GREATEST_SPREAD * scale.floor {
            return None;
        }
        Some(Stock { items, scale })
    }

    /// The items, in the order of the catalogue.
    pub fn items(&self) -> &[Item]
        ensures items { result.now ≡ self.now }
        ensures some { 1 ≤ length self.now }
        ensures few { length self.now ≤ most_items }
        ensures limits { All WithinLimits self.now }
        ensures names { HaveNames self.now }
    {
        self.items.as_slice()
    }

    /// The scale that the stiffnesses are counted on.
    pub fn scale(&self) -> Scale
        ensures value { result ≡ scale_spec self.now }
        ensures stock { IsStock self.now result }
        ensures scale { IsScaleOf self.now result }
        ensures power { (k : ℕ) × (k ≤ 21) × (result.q0 ≡ pos (2 ^ k)) }
        ensures spread { result.q0 ≤ℤ (greatest_spread *ℤ result.floor) }
        ensures least { pos 4000 ≤ℤ result.q0 }
        ensures greatest { result.q0 ≤ℤ pos 2097152 }
        ensures floor { pos 500 ≤ℤ result.floor }
        ensures ceiling { result.floor ≤ℤ greatest_modulus }
    {
        self.scale
    }

    /// The item of this name. There is at most one.
    pub fn find(&self, name: &[u8]) -> Option<ItemNo>
        ensures place { option_map (λ no. no.0) result ≡ spec.place_of name.now self.now }
        ensures within { IfSome result (λ no. no.0 < length self.now) }
        ensures own { (k : ℕ) (i : Item) → slice_get self.now k ≡ Some i → name.now ≡ i.name
            → option_map (λ no. no.0) result ≡ Some k }
    {
        let place = place_of(&self.items, name)?;
        Some(ItemNo(place as u8))
    }

    /// Tells whether two items have the same kind, lamina and direction.
    pub fn alike(&self, a: ItemNo, b: ItemNo) -> bool
        requires first { a.0 < length self.now }
        requires second { b.0 < length self.now }
        ensures { result ≡ spec.are_alike self.now a.0 b.0 }
    {
        is_alike(&self.items[a.0 as usize], &self.items[b.0 as usize])
    }

    /// Tells whether two items are plies of the same lamina, and the direction of the first is the
    /// mirror image of that of the second.
    pub fn mirrors(&self, a: ItemNo, b: ItemNo) -> bool
        requires first { a.0 < length self.now }
        requires second { b.0 < length self.now }
        ensures { result ≡ spec.are_mirrors self.now a.0 b.0 }
    {
        is_mirror(&self.items[a.0 as usize], &self.items[b.0 as usize])
    }

    /// The first item that mirrors this one.
    pub fn mirror_of(&self, a: ItemNo) -> Option<ItemNo>
        requires { a.0 < length self.now }
        ensures found { IfSome result (λ no.
            (no.0 < length self.now) × IsTrue (spec.are_mirrors self.now no.0 a.0)) }
        ensures first { IfSome result (λ no.
            (b : ℕ) → b < no.0 → IsFalse (spec.are_mirrors self.now b a.0)) }
        ensures none { IfNone result
            ((b : ℕ) → b < length self.now → IsFalse (spec.are_mirrors self.now b a.0)) }
    {
        for b in 0..self.items.len() {
            let no = ItemNo(b as u8);
            if self.mirrors(no, a) {
                return Some(no);
            }
        }
        None
    }
}

/// The place of the first of some items that has this name.
pub fn place_of(items: &[Item], name: &[u8]) -> Option<usize>
    ensures place { result ≡ spec.place_of name.now items.now }
    ensures within { IfSome result (λ k. k < length items.now) }
{
    items.iter().position(|item| has_name(item, name))
}

/// Tells whether an item has a name.
pub fn has_name(item: &Item, name: &[u8]) -> bool
    ensures { result ≡ spec.has_name name.now item.now }
{
    item.name.as_bytes() == name
}

// tells whether two items have the same kind, lamina and direction
fn is_alike(a: &Item, b: &Item) -> bool
    ensures { result ≡ spec.is_alike a.now b.now }
{
    if !same_kind(a.kind, b.kind) {
        return false;
    }
    if !same_lamina(&a.lamina, &b.lamina) {
        return false;
    }
    same_point(&a.dir, &b.dir)
}

// tells whether two items are plies of the same lamina, and the direction of the first is the
// mirror image of that of the second
fn is_mirror(a: &Item, b: &Item) -> bool
    ensures { result ≡ spec.is_mirror a.now b.now }
{
    if !is_ply(a.kind) {
        return false;
    }
    if !is_ply(b.kind) {
        return false;
    }
    if !same_lamina(&a.lamina, &b.lamina) {
        return false;
    }
    same_point(&a.dir, &b.dir.mirror())
}

// tells whether a kind is that of a ply
fn is_ply(kind: Kind) -> bool
    ensures { result ≡ spec.is_ply kind }
{
    match kind {
        Kind::Ply => true,
        Kind::Pair => false,
    }
}

// tells whether two kinds are the same
fn same_kind(a: Kind, b: Kind) -> bool
    ensures { result ≡ spec.same_kind a b }
{
    is_ply(a) == is_ply(b)
}

// tells whether two laminae are the same
fn same_lamina(a: &Lamina, b: &Lamina) -> bool
    ensures { result ≡ spec.same_lamina a.now b.now }
{
    lamina_numbers(a) == lamina_numbers(b)
}

// the numbers of a lamina
fn lamina_numbers(l: &Lamina) -> [i64; 11]
    ensures { result ≡ spec.lamina_numbers l.now }
{
    [
        l.e1, l.e2, l.n12, l.g12, l.xt, l.xc, l.yt, l.yc, l.s, l.f12, l.t,
    ]
}

// tells whether two directions are the same point of the unit circle
fn same_point(a: &Direction, b: &Direction) -> bool
    ensures { result ≡ spec.same_point a.now b.now }
{
    a.same(b)
}

#[cfg(test)]
mod tests;
