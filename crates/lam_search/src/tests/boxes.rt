//! What a box of strains closes.

use super::*;
use lam_tsai::{FaceSide, Place, Side};

// a mat, and what is stiffer, cheap and brittle
const BRITTLE: &str = "name,kind,e1,e2,n12,g12,xt,xc,yt,yc,s,f12,t,p,q,h,cost
mat,ply,10000,10000,0,5000,100000,100000,100000,100000,50000,0,5000,1,0,1,10
brit,ply,12000,12000,0,6000,20000,20000,20000,20000,10000,0,5000,1,0,1,1
";

// plies that lie alike on both sides of the mid-plane
const ALIKE: &str = "version = 1
limit = 3
[rules]
symmetric = true
[[case]]
kind = 'resultants'
ny = 90000
factor = 5000
";

#[test]
fn a_brittle_ply_fails_whatever_lies_beside_it(rt: HostRuntime) -> Result<(), Fail> {
    let found = found(rt.alloc(), BRITTLE, ALIKE, 200_000)?;
    let short = Word::NetShort(0, Weight { x: 0, y: 1, s: 0 });
    let boxed = Word::Box(Place {
        case: 0,
        ply: 0,
        face: FaceSide::Inner,
        side: Side::Plus,
    });
    let (mat, brit) = (Seat::Item(ItemNo(0)), Seat::Item(ItemNo(1)));
    let lines = [
        (Seat::Length(1), Word::Split),
        (brit, short),
        (mat, Word::Admissible),
        (Seat::Length(2), Word::Split),
        (brit, short),
        (mat, Word::Cost),
        (Seat::Length(3), Word::Split),
        (brit, boxed),
        (mat, Word::Cost),
    ];
    let tree = lines.map(|(seat, word)| Node { seat, word });
    assert!(rt; found.tree.nodes() == &tree[..]);
    assert_eq!(rt; answer_word(&found), "least");
    assert_eq!(rt; cost(&found), 10);
    Ok(())
}
