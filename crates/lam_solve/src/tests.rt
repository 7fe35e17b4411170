//! Worked walls: layers that are alike in all directions, and layers that are not. Strains are over 2^60, rounded down.

ghost use Rattle.std.specs.Prelude.{◌≡◌, ℕ, ◌<◌, ◌≤◌, length, All, IfSome};
ghost use Rattle.lam_stock.specs.Stock.{IsKnown};
ghost use Rattle.lam_solve.specs.Solutions.{AreShort};

use crate::enclosed::{enclosed, is_near as is_taken};
use crate::loads::loads;
use crate::solution::centred;
use crate::{Elimination, Guess, Strains, at_face, enclose_at, solve, solve_by};
use lam_job::Load;
use lam_number::{Ball, Enclosure, Fix};
use lam_stock::{ItemNo, Stack, Stock, read_stock};
use lam_wall::{assemble, in_range};
use std::alloc::Global;
use std::test::Fail;

// skew on its mirror image couples stretching and twist
const CATALOGUE: &str = "name,kind,e1,e2,n12,g12,xt,xc,yt,yc,s,f12,t,p,q,h,cost
mat,ply,10000,10000,0,5000,100000,100000,100000,100000,50000,0,5000,1,0,1,10
stiff,ply,20000,20000,0,10000,100000,100000,100000,100000,50000,0,5000,1,0,1,10
skew,ply,20000,10000,0,5000,100000,100000,100000,100000,50000,0,5000,3,4,5,10
mirror,ply,20000,10000,0,5000,100000,100000,100000,100000,50000,0,5000,3,-4,5,10
thick,ply,10000,10000,0,5000,100000,100000,100000,100000,50000,0,20000,1,0,1,10
thin,ply,10000,10000,0,5000,100000,100000,100000,100000,50000,0,50,1,0,1,10
";

// the scale, 524288 MPa, is 512 times the floor of weak, 1024 MPa
const SPREAD: &str = "name,kind,e1,e2,n12,g12,xt,xc,yt,yc,s,f12,t,p,q,h,cost
weak,ply,2048,2048,0,512,100000,100000,100000,100000,50000,0,5000,1,0,1,10
strong,ply,131072,131072,0,65536,100000,100000,100000,100000,50000,0,5000,1,0,1,10
";

// no load
const REST: Load = Load {
    nx: 0,
    ny: 0,
    nxy: 0,
    mx: 0,
    my: 0,
    mxy: 0,
};

// 300 N/mm along y
const ALONG_Y: Load = Load {
    ny: 1_200_000,
    ..REST
};

// no strain
const NONE: Guess = Guess {
    ex: 0,
    ey: 0,
    g: 0,
    kx: 0,
    ky: 0,
    kg: 0,
};

// the strains of a wall of these plies under a load in range
fn solved<N: Enclosure>(stock: &Stock, plies: &Stack, load: &Load) -> Option<Strains<N>>
    requires some { 1 ≤ length plies.now }
    requires known { IsKnown stock.now plies.now }
    ensures { IfSome result (AreShort N.numbers) }
{
    let wall = assemble(stock, plies);
    let scale = stock.scale();
    let h = wall.h;
    if in_range(&scale, h, load) {
        Some(solve(&wall, load, &scale))
    } else {
        None
    }
}

// the same by the wall's elimination
fn solved_by<N: Enclosure>(stock: &Stock, plies: &Stack, load: &Load) -> Option<Strains<N>>
    requires some { 1 ≤ length plies.now }
    requires known { IsKnown stock.now plies.now }
{
    let wall = assemble(stock, plies);
    let scale = stock.scale();
    let h = wall.h;
    let elimination = Elimination::of(&wall);
    if in_range(&scale, h, load) {
        Some(solve_by(&elimination, &wall, load, &scale))
    } else {
        None
    }
}

// the same by the centre that another guess leads to
fn solved_from<N: Enclosure>(
    stock: &Stock,
    plies: &Stack,
    load: &Load,
    guess: Guess,
) -> Option<Strains<N>>
    requires some { 1 ≤ length plies.now }
    requires known { IsKnown stock.now plies.now }
{
    let wall = assemble(stock, plies);
    let scale = stock.scale();
    let h = wall.h;
    if is_taken::<N>(&guess) && in_range(&scale, h, load) {
        let loads = loads::<N>(load, &scale, h);
        let centre = centred(&wall, &loads, guess);
        Some(enclosed(&scale, &centre.strains, &centre.residual))
    } else {
        None
    }
}

// the strains of the wall round a guess
fn round<N: Enclosure>(
    stock: &Stock,
    plies: &Stack,
    load: &Load,
    guess: &Guess,
) -> Option<Strains<N>>
    requires some { 1 ≤ length plies.now }
    requires known { IsKnown stock.now plies.now }
{
    let wall = assemble(stock, plies);
    let scale = stock.scale();
    let h = wall.h;
    if in_range(&scale, h, load) {
        enclose_at(&wall, load, &scale, guess)
    } else {
        None
    }
}

// a wall of so many plies of one item
fn alike(alloc: Global, ply: ItemNo, count: usize) -> Stack
    requires { count ≤ 64 }
    ensures count { length result ≡ count }
    ensures known { (n : ℕ) → ply.0 < n → All (λ p. p.0 < n) result }
{
    let mut plies = Stack::new(alloc);
    for _ in 0..count {
        plies.push(ply);
    }
    plies
}

// tells whether an enclosure holds a whole number of units
fn holds<N: Enclosure>(x: N, at: i64) -> bool {
    x.low() <= at && at <= x.high()
}

// tells the same of an enclosure that is at most a thousand million units wide
fn is_near<N: Enclosure>(x: N, at: i64) -> bool {
    holds(x, at) && x.high().saturating_sub(x.low()) <= 1_000_000_000
}

// tells whether an enclosure is at least so many units wide, and not much more
fn is_wide(x: Fix<60>, least: i64) -> bool {
    let width = x.high().saturating_sub(x.low());
    least <= width && width.saturating_sub(least) <= 25_000
}

// tells whether all six are so near
fn are_near<N: Enclosure>(strains: &Strains<N>, at: &Guess) -> bool {
    is_near(strains.ex, at.ex)
        && is_near(strains.ey, at.ey)
        && is_near(strains.g, at.g)
        && is_near(strains.kx, at.kx)
        && is_near(strains.ky, at.ky)
        && is_near(strains.kg, at.kg)
}

// the strain is 24/11000 in the middle; bending adds half of it at the inner surface, and takes half off at the outer one
#[test]
fn a_stiff_ply_on_a_soft_one_bends(rt: HostRuntime) -> Result<(), Fail> {
    let stock = read_stock(rt.alloc(), CATALOGUE.as_bytes())?;
    assert!(rt; stock.items().len() == 6);
    let mut plies = Stack::new(rt.alloc());
    plies.push(ItemNo(0));
    plies.push(ItemNo(1));
    let bent = Guess {
        ey: 2_515_465_100_960_393,
        ky: -1_257_732_550_480_197,
        ..NONE
    };
    match solved::<Fix<60>>(&stock, &plies, &ALONG_Y) {
        Some(strains) => {
            assert!(rt; are_near(&strains, &bent));
            let inner = at_face(&strains, -10_000, 10_000);
            assert!(rt; is_near(inner.ey, 3_773_197_651_440_590));
            let outer = at_face(&strains, 10_000, 10_000);
            assert!(rt; is_near(outer.ey, 1_257_732_550_480_196));
        }
        None => assert!(rt; false),
    }
    let coarse: Option<Strains<Fix<28>>> = solved_by(&stock, &plies, &ALONG_Y);
    match coarse {
        Some(strains) => assert!(rt; holds(strains.ey, 585_677) && holds(strains.ky, -292_839)),
        None => assert!(rt; false),
    }
    Ok(())
}

#[test]
fn balls_hold_the_same_strains(rt: HostRuntime) -> Result<(), Fail> {
    let stock = read_stock(rt.alloc(), CATALOGUE.as_bytes())?;
    assert!(rt; stock.items().len() == 6);
    let mut plies = Stack::new(rt.alloc());
    plies.push(ItemNo(0));
    plies.push(ItemNo(1));
    let bent = Guess {
        ey: 2_515_465_100_960_393,
        ky: -1_257_732_550_480_197,
        ..NONE
    };
    match solved::<Ball>(&stock, &plies, &ALONG_Y) {
        Some(strains) => {
            assert!(rt; are_near(&strains, &bent));
            let inner = at_face(&strains, -10_000, 10_000);
            assert!(rt; is_near(inner.ey, 3_773_197_651_440_590));
        }
        None => assert!(rt; false),
    }
    match solved_by::<Ball>(&stock, &plies, &ALONG_Y) {
        Some(strains) => assert!(rt; are_near(&strains, &bent)),
        None => assert!(rt; false),
    }
    match round::<Ball>(&stock, &plies, &ALONG_Y, &bent) {
        Some(strains) => assert!(rt; are_near(&strains, &bent)),
        None => assert!(rt; false),
    }
    Ok(())
}

// a force at the end of the range strains mat by 1/8, or by 1/4 in shear; a moment by 3/8 at the surface, or by 3/4
#[test]
fn each_load_at_the_end_of_the_range_strains_its_own_way(rt: HostRuntime) -> Result<(), Fail> {
    let stock = read_stock(rt.alloc(), CATALOGUE.as_bytes())?;
    assert!(rt; stock.items().len() == 6);
    let mut plies = Stack::new(rt.alloc());
    plies.push(ItemNo(0));
    let rows = [
        (
            Load {
                nx: -25_000_000,
                ..REST
            },
            Guess {
                ex: -144_115_188_075_855_872,
                ..NONE
            },
        ),
        (
            Load {
                ny: 25_000_000,
                ..REST
            },
            Guess {
                ey: 144_115_188_075_855_872,
                ..NONE
            },
        ),
        (
            Load {
                nxy: 25_000_000,
                ..REST
            },
            Guess {
                g: 288_230_376_151_711_744,
                ..NONE
            },
        ),
        (
            Load {
                mx: 15_625_000,
                ..REST
            },
            Guess {
                kx: 432_345_564_227_567_616,
                ..NONE
            },
        ),
        (
            Load {
                my: -15_625_000,
                ..REST
            },
            Guess {
                ky: -432_345_564_227_567_616,
                ..NONE
            },
        ),
        (
            Load {
                mxy: 15_625_000,
                ..REST
            },
            Guess {
                kg: 864_691_128_455_135_232,
                ..NONE
            },
        ),
        // 1000 N on a plate of E 10000 MPa and 5 mm: 3/125
        (
            Load {
                mx: 1_000_000,
                ..REST
            },
            Guess {
                kx: 27_670_116_110_564_327,
                ..NONE
            },
        ),
    ];
    for (load, strain) in rows {
        match solved::<Fix<60>>(&stock, &plies, &load) {
            Some(strains) => assert!(rt; are_near(&strains, &strain)),
            None => assert!(rt; false),
        }
    }
    Ok(())
}

// a force along y shortens and twists the wall: -18819/50344625, 940623/402757000 and 540/402757
#[test]
fn slanted_fibres_couple_stretching_and_twist(rt: HostRuntime) -> Result<(), Fail> {
    let stock = read_stock(rt.alloc(), CATALOGUE.as_bytes())?;
    assert!(rt; stock.items().len() == 6);
    let mut plies = Stack::new(rt.alloc());
    plies.push(ItemNo(2));
    plies.push(ItemNo(3));
    let twisted = Guess {
        ex: -430_966_161_634_857,
        ey: 2_692_602_448_691_906,
        kg: 1_545_789_675_878_252,
        ..NONE
    };
    match solved::<Fix<60>>(&stock, &plies, &ALONG_Y) {
        Some(strains) => assert!(rt; are_near(&strains, &twisted)),
        None => assert!(rt; false),
    }
    Ok(())
}

// the thickest wall, the thinnest, and one that is 512 times less stiff than the scale, each at the end of its range
#[test]
fn walls_are_solved_up_to_their_limits(rt: HostRuntime) -> Result<(), Fail> {
    let stock = read_stock(rt.alloc(), CATALOGUE.as_bytes())?;
    assert!(rt; stock.items().len() == 6);
    let thick = alike(rt.alloc(), ItemNo(4), 64);
    let stretched = Load {
        ny: 6_400_000_000,
        my: 1_024_000_000_000,
        ..REST
    };
    match solved::<Fix<60>>(&stock, &thick, &stretched) {
        Some(strains) => {
            assert!(rt; is_near(strains.ey, 144_115_188_075_855_872));
            assert!(rt; is_near(strains.ky, 432_345_564_227_567_616));
        }
        None => assert!(rt; false),
    }
    let mut thin = Stack::new(rt.alloc());
    thin.push(ItemNo(5));
    match solved::<Fix<60>>(
        &stock,
        &thin,
        &Load {
            ny: 250_000,
            ..REST
        },
    ) {
        Some(strains) => assert!(rt; is_near(strains.ey, 144_115_188_075_855_872)),
        None => assert!(rt; false),
    }
    let spread = read_stock(rt.alloc(), SPREAD.as_bytes())?;
    assert!(rt; spread.items().len() == 2);
    let mut weak = Stack::new(rt.alloc());
    weak.push(ItemNo(0));
    let sheared = Load {
        ny: 5_120_000,
        nxy: 5_120_000,
        ..REST
    };
    match solved::<Fix<60>>(&spread, &weak, &sheared) {
        Some(strains) => {
            assert!(rt; is_near(strains.ey, 144_115_188_075_855_872));
            assert!(rt; is_near(strains.g, 576_460_752_303_423_488));
        }
        None => assert!(rt; false),
    }
    Ok(())
}

// the softest ply that may stand beside the stiffest, alone, under it and on both sides of it, each twisted to the end of
// the range: 3/2, then 516/6059 with a shear of -254/6059, and 81/308
#[test]
fn twisted_walls_are_solved_from_wherever_turns_start(rt: HostRuntime) -> Result<(), Fail> {
    let stock = read_stock(rt.alloc(), SPREAD.as_bytes())?;
    assert!(rt; stock.items().len() == 2);
    let rows = [
        (false, false, 3_200_000, 0, 1_729_382_256_910_270_464),
        (
            true,
            false,
            12_800_000,
            -48_331_748_171_338_362,
            98_185_756_127_600_765,
        ),
        (true, true, 28_800_000, 0, 303_203_382_705_047_419),
    ];
    for (has_second, has_third, moment, shear, twist) in rows {
        let mut plies = Stack::new(rt.alloc());
        plies.push(ItemNo(0));
        if has_second {
            plies.push(ItemNo(1));
        }
        if has_third {
            plies.push(ItemNo(0));
        }
        let load = Load {
            mxy: moment,
            ..REST
        };
        let twisted = Guess {
            g: shear,
            kg: twist,
            ..NONE
        };
        match solved::<Fix<60>>(&stock, &plies, &load) {
            Some(strains) => assert!(rt; are_near(&strains, &twisted)),
            None => assert!(rt; false),
        }
        let far = Guess {
            kg: 1 << 62,
            ..NONE
        };
        let close = Guess {
            ex: 1 << 44,
            g: shear,
            kg: twist,
            ..NONE
        };
        for guess in [NONE, far, close] {
            match solved_from::<Fix<60>>(&stock, &plies, &load, guess) {
                Some(strains) => assert!(rt; are_near(&strains, &twisted)),
                None => assert!(rt; false),
            }
        }
    }
    Ok(())
}

#[test]
fn a_guess_may_be_as_far_off_as_four(rt: HostRuntime) -> Result<(), Fail> {
    let stock = read_stock(rt.alloc(), CATALOGUE.as_bytes())?;
    assert!(rt; stock.items().len() == 6);
    let mut plies = Stack::new(rt.alloc());
    plies.push(ItemNo(0));
    plies.push(ItemNo(1));
    let four = 1 << 62;
    let rows = [
        (NONE, true),
        (Guess { ex: four, ..NONE }, true),
        (
            Guess {
                ex: four + 1,
                ..NONE
            },
            false,
        ),
        (Guess { kg: -four, ..NONE }, true),
        (
            Guess {
                kg: -four - 1,
                ..NONE
            },
            false,
        ),
    ];
    for (guess, is_taken) in rows {
        let strains: Option<Strains<Fix<60>>> = round(&stock, &plies, &ALONG_Y, &guess);
        match strains {
            Some(strains) => {
                assert!(rt; is_taken);
                assert!(rt; holds(strains.ey, 2_515_465_100_960_393));
                assert!(rt; holds(strains.ky, -1_257_732_550_480_197));
            }
            None => assert!(rt; !is_taken),
        }
    }
    Ok(())
}

// A guess that is off by 2^21 units of a strain of 1/256, or by 3·2^23 of a twist of 1/3072, leaves 8192 units: 4096 slops.
// Times 512 that is a radius of 2^22.
#[test]
fn strains_are_as_wide_as_the_residual_and_the_softest_layer_let_them(
    rt: HostRuntime,
) -> Result<(), Fail> {
    let spread = read_stock(rt.alloc(), SPREAD.as_bytes())?;
    assert!(rt; spread.items().len() == 2);
    let mut weak = Stack::new(rt.alloc());
    weak.push(ItemNo(0));
    let rows = [
        Guess {
            ex: 1 << 21,
            ..NONE
        },
        Guess {
            kg: -3 << 23,
            ..NONE
        },
    ];
    for guess in rows {
        let strains: Option<Strains<Fix<60>>> = round(&spread, &weak, &REST, &guess);
        match strains {
            Some(strains) => {
                assert!(rt; is_wide(strains.ex, 5 << 22) && is_wide(strains.ey, 5 << 22));
                assert!(rt; is_wide(strains.g, 8 << 22));
                assert!(rt; is_wide(strains.kx, 10 << 22) && is_wide(strains.ky, 10 << 22));
                assert!(rt; is_wide(strains.kg, 16 << 22));
            }
            None => assert!(rt; false),
        }
    }
    Ok(())
}
