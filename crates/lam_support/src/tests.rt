//! Worked capacities, against numbers that were worked out in sixty digits.

ghost use Rattle.std.specs.Prelude.{◌+◌, ◌≤◌, unsigned_abs};

use crate::{Weight, capacity};
use lam_stock::{Stock, read_stock};
use std::test::Fail;

const CATALOGUE: &[u8] = b"name,kind,e1,e2,n12,g12,xt,xc,yt,yc,s,f12,t,p,q,h,cost
mat,ply,10000,10000,0,5000,100000,100000,100000,100000,50000,0,5000,1,0,1,10
fibres,ply,40000,10000,250,4000,800000,500000,35000,110000,50000,0,5000,1,0,1,10
lean,ply,40000,10000,250,4000,800000,500000,35000,110000,50000,0,5000,3,4,5,10
both,pair,40000,10000,250,4000,800000,500000,35000,110000,50000,0,5000,3,4,5,10
round,ply,40000,10000,250,4000,800000,500000,35000,110000,50000,0,5000,0,1,1,10
least,ply,5000,5000,0,2500,10000,160000,160000,10000,20000,541265877,2000,1,0,1,10
opposed,ply,5000,5000,0,2500,10000,160000,160000,10000,20000,-541265877,2000,1,0,1,10
woven,pair,5000,5000,0,2500,10000,160000,160000,10000,20000,541265877,2000,119,120,169,10
";

fn weight(x: i64, y: i64, s: i64) -> Weight
    requires x { unsigned_abs x ≤ 100 }
    requires y { unsigned_abs y ≤ 100 }
    requires s { unsigned_abs s ≤ 100 }
    requires some { 1 ≤ unsigned_abs x + unsigned_abs y + unsigned_abs s }
{
    Weight { x, y, s }
}

// the capacity of an item of the catalogue, and 0 where there is none
fn force(stock: &Stock, no: usize, w: &Weight) -> u64 {
    match stock.items().get(no) {
        Some(item) => capacity(item, w),
        None => 0,
    }
}

#[test]
fn capacities_lie_near_the_greatest_force(rt: HostRuntime) -> Result<(), Fail> {
    let stock = read_stock(rt.alloc(), CATALOGUE)?;
    let along = weight(1, 0, 0);
    let round = weight(0, 1, 0);
    let rows = [
        (0, round, 500_000, 500_502),
        (0, weight(1, 1, 0), 707_107, 707_815),
        (0, weight(0, 0, 1), 250_000, 250_252),
        (0, weight(0, 0, -100), 25_000_000, 25_025_002),
        (1, along, 4_520_292, 4_524_813),
        (1, weight(-1, 0, 0), 3_020_292, 3_023_313),
        (2, round, 2_846_040, 2_848_887),
        (2, weight(0, 0, 1), 2_270_343, 2_272_614),
        (3, round, 2_846_040, 2_848_887),
        (3, weight(0, 0, 1), 1_820_343, 1_822_164),
        (4, along, 182_393, 182_576),
        (5, along, 50_487, 50_539),
        (5, weight(1, 1, 0), 605_690, 606_296),
        (5, weight(100, -100, 100), 4_008_187, 4_012_197),
        (6, weight(1, 1, 0), 674_938, 675_614),
        (6, weight(100, -100, 100), 4_006_672, 4_010_680),
        (7, weight(100, 99, -1), 60_286_759, 60_347_047),
    ];
    for (item, w, least, most) in rows {
        let force = force(&stock, item, &w);
        assert!(rt; least <= force && force <= most);
    }
    Ok(())
}
