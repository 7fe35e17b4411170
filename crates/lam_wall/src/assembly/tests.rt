// The matrices of walls of layers that are alike in all directions, over a scale of 131072 MPa.

ghost use Rattle.std.specs.Prelude.{◌<◌, ◌≤◌, length};

use crate::{Wall, assemble, assemble_by};
use lam_lamina::Stiffnesses;
use lam_number::{Ball, Enclosure, Fix};
use lam_stock::{ItemNo, Stack, Stock, read_stock};
use std::alloc::Global;
use std::test::Fail;

const CATALOGUE: &str = "name,kind,e1,e2,n12,g12,xt,xc,yt,yc,s,f12,t,p,q,h,cost
mat,ply,10000,10000,0,5000,100000,100000,100000,100000,50000,0,5000,1,0,1,10
stiff,ply,20000,20000,0,10000,100000,100000,100000,100000,50000,0,5000,1,0,1,10
thick,ply,10000,10000,0,5000,100000,100000,100000,100000,50000,0,20000,1,0,1,10
thin,ply,10000,10000,0,5000,100000,100000,100000,100000,50000,0,50,1,0,1,10
";

// one MPa over the scale, over 2^60 and over 2^28
const FINE: i64 = 8_796_093_022_208;

const COARSE: i64 = 2_048;

// tells whether an enclosure holds a number of which the whole parts below and above are given
fn holds<N: Enclosure>(x: N, below: i64, above: i64) -> bool {
    x.low() <= below && above <= x.high()
}

// a wall of so many plies of one item
fn alike(alloc: Global, stock: &Stock, ply: ItemNo, plies: u8) -> Wall<Fix<60>>
    requires known { ply.0 < length stock.now }
    requires some { 1 ≤ plies }
    requires few { plies ≤ 64 }
{
    let mut wall = Stack::new(alloc);
    for _ in 0..plies {
        wall.push(ply);
    }
    assemble(stock, &wall)
}

#[test]
fn a_stiff_ply_on_a_soft_one_couples_bending(rt: HostRuntime) -> Result<(), Fail> {
    let stock = read_stock(rt.alloc(), CATALOGUE.as_bytes())?;
    let mut plies = Stack::new(rt.alloc());
    assert_eq!(rt; stock.items().len(), 4);
    plies.push(ItemNo(0));
    plies.push(ItemNo(1));
    let fine: Wall<Fix<60>> = assemble(&stock, &plies);
    assert_eq!(rt; fine.h, 10_000);
    assert!(rt; holds(fine.a.yy, 15_000 * FINE, 15_000 * FINE));
    assert!(rt; holds(fine.b.yy, 2_500 * FINE, 2_500 * FINE));
    assert!(rt; holds(fine.d.yy, 5_000 * FINE, 5_000 * FINE));
    let coarse: Wall<Fix<28>> = assemble(&stock, &plies);
    assert_eq!(rt; coarse.h, 10_000);
    assert!(rt; holds(coarse.a.yy, 15_000 * COARSE, 15_000 * COARSE));
    assert!(rt; holds(coarse.b.yy, 2_500 * COARSE, 2_500 * COARSE));
    assert!(rt; holds(coarse.d.yy, 5_000 * COARSE, 5_000 * COARSE));
    let round: Wall<Ball> = assemble(&stock, &plies);
    assert!(rt; holds(round.a.yy, 15_000 * FINE, 15_000 * FINE));
    assert!(rt; holds(round.b.yy, 2_500 * FINE, 2_500 * FINE));
    assert!(rt; holds(round.d.yy, 5_000 * FINE, 5_000 * FINE));
    Ok(())
}

#[test]
fn the_thickest_wall_and_the_thinnest_have_the_same_matrices(rt: HostRuntime) -> Result<(), Fail> {
    let stock = read_stock(rt.alloc(), CATALOGUE.as_bytes())?;
    assert_eq!(rt; stock.items().len(), 4);
    let thick = alike(rt.alloc(), &stock, ItemNo(2), 64);
    let thin = alike(rt.alloc(), &stock, ItemNo(3), 1);
    assert_eq!(rt; (thick.h, thin.h), (1_280_000, 50));
    for wall in [thick, thin] {
        assert!(rt; holds(wall.a.yy, 10_000 * FINE, 10_000 * FINE));
        assert!(rt; holds(wall.b.yy, 0, 0));
        assert!(rt; holds(wall.d.yy, 29_320_310_074_026_666, 29_320_310_074_026_667));
    }
    Ok(())
}

#[test]
fn a_table_serves_many_walls(rt: HostRuntime) -> Result<(), Fail> {
    let stock = read_stock(rt.alloc(), CATALOGUE.as_bytes())?;
    let table: Stiffnesses<Fix<60>> = Stiffnesses::of(&stock);
    let mut plies = Stack::new(rt.alloc());
    assert_eq!(rt; stock.items().len(), 4);
    plies.push(ItemNo(0));
    let single = assemble_by(&table, &stock, &plies);
    assert!(rt; holds(single.a.yy, 10_000 * FINE, 10_000 * FINE));
    plies.push(ItemNo(1));
    let double = assemble_by(&table, &stock, &plies);
    assert!(rt; holds(double.b.yy, 2_500 * FINE, 2_500 * FINE));
    Ok(())
}

#[test]
fn a_table_serves_balls(rt: HostRuntime) -> Result<(), Fail> {
    let stock = read_stock(rt.alloc(), CATALOGUE.as_bytes())?;
    let table: Stiffnesses<Ball> = Stiffnesses::of(&stock);
    let mut plies = Stack::new(rt.alloc());
    assert_eq!(rt; stock.items().len(), 4);
    plies.push(ItemNo(1));
    let single = assemble_by(&table, &stock, &plies);
    assert!(rt; holds(single.a.yy, 20_000 * FINE, 20_000 * FINE));
    Ok(())
}
