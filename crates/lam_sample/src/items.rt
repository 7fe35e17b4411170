// The items of a sample's catalogue.

ghost use Rattle.std.specs.Prelude.{◌≡◌};
ghost use Rattle.lam_sample.specs.Draws.{steps};
ghost use Rattle.lam_sample.specs.SampleStock.{drawn_after};

use crate::draws::Draws;

/// A fibre direction: the point `(p/h, q/h)` of the unit circle.
#[derive(Clone, Copy)]
pub(crate) struct Point {
    pub(crate) p: u64,
    pub(crate) q: u64,
    pub(crate) h: u64,
}

/// The numbers of an item that are drawn, in the units of a catalogue.
#[derive(Clone, Copy)]
pub(crate) struct Drawn {
    pub(crate) e1: u64,
    pub(crate) e2: u64,
    pub(crate) g12: u64,
    pub(crate) xt: u64,
    pub(crate) xc: u64,
    pub(crate) yt: u64,
    pub(crate) yc: u64,
    pub(crate) s: u64,
    pub(crate) t: u64,
    pub(crate) direction: Point,
    pub(crate) cost: u64,
}

// the directions that an item may have
const DIRECTIONS: [Point; 8] = [
    Point { p: 1, q: 0, h: 1 },
    Point { p: 0, q: 1, h: 1 },
    Point { p: 3, q: 4, h: 5 },
    Point { p: 4, q: 3, h: 5 },
    Point { p: 5, q: 12, h: 13 },
    Point { p: 12, q: 5, h: 13 },
    Point {
        p: 160,
        q: 231,
        h: 281,
    },
    Point {
        p: 119,
        q: 120,
        h: 169,
    },
];

/// Draws the numbers of an item.
pub(crate) fn draw_item(draws: &mut Draws) -> Drawn
    ensures value { result ≡ drawn_after draws.old }
    ensures state { draws.new ≡ steps 11 draws.old }
{
    Drawn {
        e1: 5000 + 1000 * draws.next(40),
        e2: 5000 + 1000 * draws.next(10),
        g12: 2000 + 100 * draws.next(30),
        xt: 100000 + 1000 * draws.next(400),
        xc: 80000 + 1000 * draws.next(300),
        yt: 40000 + 1000 * draws.next(40),
        yc: 100000 + 1000 * draws.next(60),
        s: 40000 + 1000 * draws.next(40),
        t: 500 + 100 * draws.next(20),
        direction: DIRECTIONS[draws.next(8) as usize],
        cost: 10 + draws.next(90),
    }
}
