//! Worked thicknesses, faces and ranges of walls.

ghost use Rattle.std.specs.Prelude.{◌≡◌, ℕ, ◌<◌, ◌≤◌, length, All};

use crate::{face, in_range, thickness, wall_plies};
use lam_job::{Case, CaseKind, Entries, Job, Load, RuleSet};
use lam_stock::{ItemNo, Stack, Stock, read_stock};
use std::alloc::Global;
use std::test::Fail;

// a catalogue of one mat of a thickness in µm
fn mat(alloc: Global, t: i64) -> Result<Stock, Fail> {
    let text = format!(in alloc;
        "name,kind,e1,e2,n12,g12,xt,xc,yt,yc,s,f12,t,p,q,h,cost\nmat,ply,10000,10000,0,5000,100000,100000,100000,100000,50000,0,{t},1,0,1,10\n"
    )?;
    Ok(read_stock(alloc, text.as_bytes())?)
}

// a wall of so many plies of the first item
fn wall(alloc: Global, count: usize) -> Stack
    requires { count ≤ 64 }
    ensures count { length result ≡ count }
    ensures first { (n : ℕ) → 0 < n → All (λ ply. ply.0 < n) result }
{
    let mut plies = Stack::new(alloc);
    for _ in 0..count {
        plies.push(ItemNo(0));
    }
    plies
}

#[test]
fn walls_are_as_thick_as_their_plies(rt: HostRuntime) -> Result<(), Fail> {
    for (t, count, total) in [(50, 1, 50), (5000, 2, 10_000), (20_000, 64, 1_280_000)] {
        let stock = mat(rt.alloc(), t)?;
        assert!(rt; stock.items().len() == 1 && count <= 64);
        assert_eq!(rt; thickness(&stock, &wall(rt.alloc(), count)), total);
    }
    Ok(())
}

#[test]
fn faces_lie_round_the_mid_plane(rt: HostRuntime) -> Result<(), Fail> {
    let stock = mat(rt.alloc(), 5000)?;
    assert!(rt; stock.items().len() == 1);
    let wall = wall(rt.alloc(), 2);
    assert_eq!(rt; face(&stock, &wall, 0), -10_000);
    assert_eq!(rt; face(&stock, &wall, 1), 0);
    assert_eq!(rt; face(&stock, &wall, 2), 10_000);
    Ok(())
}

// no load
const REST: Load = Load {
    nx: 0,
    ny: 0,
    nxy: 0,
    mx: 0,
    my: 0,
    mxy: 0,
};

// a force is at most 5000 * 5000, and 8000 times a moment at most 5000 * 5000 * 5000
#[test]
fn loads_are_in_range_up_to_the_edge(rt: HostRuntime) -> Result<(), Fail> {
    let stock = mat(rt.alloc(), 5000)?;
    assert!(rt; stock.items().len() == 1);
    let scale = stock.scale();
    let h = thickness(&stock, &wall(rt.alloc(), 1));
    let at_the_edge = [
        Load {
            nx: -25_000_000,
            ..REST
        },
        Load {
            ny: 25_000_000,
            ..REST
        },
        Load {
            nxy: 25_000_000,
            ..REST
        },
        Load {
            mx: 15_625_000,
            ..REST
        },
        Load {
            my: -15_625_000,
            ..REST
        },
        Load {
            mxy: 15_625_000,
            ..REST
        },
    ];
    let beyond = [
        Load {
            nx: -25_000_001,
            ..REST
        },
        Load {
            ny: 25_000_001,
            ..REST
        },
        Load {
            nxy: 25_000_001,
            ..REST
        },
        Load {
            mx: 15_625_001,
            ..REST
        },
        Load {
            my: -15_625_001,
            ..REST
        },
        Load {
            mxy: 15_625_001,
            ..REST
        },
    ];
    for (inside, outside) in at_the_edge.iter().zip(&beyond) {
        assert!(rt; in_range(&scale, h, inside));
        assert!(rt; !in_range(&scale, h, outside));
    }
    Ok(())
}

#[test]
fn the_liner_carries_load_where_it_is_in_the_wall(rt: HostRuntime) -> Result<(), Fail> {
    let alloc = rt.alloc();
    for (liner_in_wall, expected) in [
        (true, [ItemNo(7), ItemNo(3), ItemNo(5)].as_slice()),
        (false, [ItemNo(3), ItemNo(5)].as_slice()),
    ] {
        let mut liner = Stack::new(alloc);
        liner.push(ItemNo(7));
        let mut listed = Stack::new(alloc);
        listed.push(ItemNo(3));
        listed.push(ItemNo(5));
        let case = Case {
            kind: CaseKind::Resultants {
                nx: 0,
                ny: 0,
                nxy: 0,
                mx: 0,
                my: 0,
                mxy: 0,
            },
            factor: 1000,
        };
        let job = Job {
            limit: 2,
            liner,
            liner_in_wall,
            rules: RuleSet {
                inner: None,
                outer: None,
                symmetric: false,
                balanced: false,
                run: None,
                fewest: None,
                thickness: None,
                counts: Entries::of(Vec::new(alloc)),
            },
            cases: Entries::of(vec![in alloc; case]?),
            panels: Entries::of(Vec::new(alloc)),
        };
        assert_eq!(rt; wall_plies(&job, &listed).items(), expected);
    }
    Ok(())
}
