// The matrices of a wall, from its plies.

ghost use Rattle.std.specs.Prelude.{◌≡◌, ◌≤◌, length};
ghost use Rattle.lam_stock.specs.Scale.{scale_of};
ghost use Rattle.lam_stock.specs.Stock.{IsKnown};
ghost use Rattle.lam_job.specs.Schedule.{items_of};
ghost use Rattle.lam_lamina.specs.inside.Table.{IsTableOf};
ghost use Rattle.lam_wall.specs.Assembled.{HoldsWall, NarrowWall, StandsFor};
ghost use Rattle.lam_wall.specs.Matrices.{matrices, stiffness_of};
ghost use Rattle.lam_wall.specs.inside.Formulas as by;
ghost use Rattle.lam_wall.specs.inside.Parts.{IsListed};

use crate::plies::thickness;
use crate::sums::{outer_face, with_ply};
use crate::wall::Wall;
use lam_lamina::{Stiffnesses, zeros};
use lam_number::Enclosure;
use lam_stock::{Item, ItemNo, Stack, Stock};

/// The matrices of a wall of these plies, over the scale of the catalogue (Jones, the laminate stiffnesses).
pub fn assemble<N: Enclosure>(stock: &Stock, wall: &Stack) -> Wall<N>
    requires some { 1 ≤ length wall.now }
    requires known { IsKnown stock.now wall.now }
    ensures stands { StandsFor N.numbers result (scale_of stock.now) stock.now wall.now }
    ensures held { HoldsWall N.numbers result
        (matrices (stiffness_of (scale_of stock.now).q0) (items_of stock.now wall.now)) }
    ensures narrow { NarrowWall 512 N.numbers result }
    ensures value { result
        ≡ by.assembled N.numbers.calc (scale_of stock.now).q0 (items_of stock.now wall.now) }
{
    assemble_by(&Stiffnesses::of(stock), stock, wall)
}

/// The same by a table of the stiffnesses of the catalogue's items, so that each is computed but once for many walls.
pub fn assemble_by<N: Enclosure>(
    stiffnesses: &Stiffnesses<N>,
    stock: &Stock,
    wall: &Stack,
) -> Wall<N>
    requires some { 1 ≤ length wall.now }
    requires known { IsKnown stock.now wall.now }
    requires table { IsTableOf N.numbers stock.now stiffnesses.now }
    ensures stands { StandsFor N.numbers result (scale_of stock.now) stock.now wall.now }
    ensures held { HoldsWall N.numbers result
        (matrices (stiffness_of (scale_of stock.now).q0) (items_of stock.now wall.now)) }
    ensures narrow { NarrowWall 512 N.numbers result }
    ensures value { result
        ≡ by.assembled N.numbers.calc (scale_of stock.now).q0 (items_of stock.now wall.now) }
{
    let h = thickness(stock, wall);
    let _scale = stock.scale();
    laid(stock.items(), wall.items(), stiffnesses, h)
}

// the plies laid one on the other
fn laid<N: Enclosure>(
    items: &[Item],
    numbers: &[ItemNo],
    stiffnesses: &Stiffnesses<N>,
    h: i64,
) -> Wall<N>
    requires listed { IsListed (scale_of items.now) h items.now numbers.now }
    requires table { IsTableOf N.numbers items.now stiffnesses.now }
    ensures { result
        ≡ by.assembled N.numbers.calc (scale_of items.now).q0 (items_of items.now numbers.now) }
{
    let mut wall = bare(h);
    let mut inner = -h;
    for number in numbers {
        let item = &items[number.0 as usize];
        let stiffness = stiffnesses.get(*number);
        wall = with_ply(&wall, item, stiffness, inner);
        inner = outer_face(inner, item.lamina.t);
    }
    wall
}

// a wall of this thickness, before its first ply
fn bare<N: Enclosure>(h: i64) -> Wall<N>
    ensures { result ≡ by.bare N.numbers.calc h }
{
    let zeros = zeros();
    Wall {
        a: zeros,
        b: zeros,
        d: zeros,
        h,
    }
}

#[cfg(test)]
mod tests;
