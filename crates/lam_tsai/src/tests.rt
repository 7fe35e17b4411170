//! Worked strength ratios and verdicts.

ghost use Rattle.std.specs.Prelude.{◌*◌, ◌≤◌};
ghost use Rattle.lam_fraction.specs.numbers.Numbers.{reach, unit};
ghost use Rattle.lam_tsai.specs.FaceStrains.{IsWithinSix};

use crate::{Side, Verdict, level, meeting_is_a_ratio, printed_ratio, verdict};
use lam_number::{Ball, Enclosure, FaceStrain, Fix};
use lam_stock::{Stock, read_stock};
use std::alloc::Global;
use std::test::Fail;

// a catalogue of one item
fn catalogue(alloc: Global, line: &str) -> Result<Stock, Fail> {
    let text = format!(in alloc;
        "name,kind,e1,e2,n12,g12,xt,xc,yt,yc,s,f12,t,p,q,h,cost\n{line}\n"
    )?;
    Ok(read_stock(alloc, text.as_bytes())?)
}

// so many ten-thousandths
fn part<N: Enclosure>(number: i16) -> N
    ensures { reach N.numbers result ≤ 6 * unit N.numbers }
{
    N::of_ratio(i128::from(number), 10_000)
}

// so many eleven-thousandths
fn eleven_thousandths<N: Enclosure>(number: i16) -> N
    ensures { reach N.numbers result ≤ 6 * unit N.numbers }
{
    N::of_ratio(i128::from(number), 11_000)
}

// the strains at a face, in ten-thousandths
fn strain<N: Enclosure>(x: i16, y: i16, g: i16) -> FaceStrain<N>
    ensures { IsWithinSix N.numbers result }
{
    FaceStrain {
        ex: part(x),
        ey: part(y),
        g: part(g),
    }
}

// from 3 below a strain of 0 to 3 above it
fn wide<N: Enclosure>() -> N
    ensures { reach N.numbers result ≤ 6 * unit N.numbers }
{
    N::of_ratio(-3, 1).hull(N::of_ratio(3, 1))
}

// the ratio of the first item at one face, where the other has no strain
fn ratio<N: Enclosure>(stock: &Stock, at: &FaceStrain<N>) -> u16
    requires { IsWithinSix N.numbers at.now }
{
    let rest = strain(0, 0, 0);
    match stock.items().get(0) {
        Some(item) => printed_ratio(item, &stock.scale(), &rest, at),
        None => 0,
    }
}

// the verdict on the first item on a side, at a factor of at most 20
fn judged<N: Enclosure>(stock: &Stock, side: Side, at: &FaceStrain<N>, thousandths: u16) -> Verdict
    requires six { IsWithinSix N.numbers at.now }
    requires factor { thousandths ≤ 20000 }
{
    match stock.items().get(0) {
        Some(item) => verdict(&level(item, side, &stock.scale(), at, i64::from(thousandths))),
        None => Verdict::Straddles,
    }
}

// chopped strand mat, and others like it but for their strengths, their direction or their interaction
const MAT: &str = "mat,ply,10000,10000,0,5000,100000,100000,100000,100000,50000,0,5000,1,0,1,10";

const STIFF: &str =
    "stiff,ply,20000,20000,0,10000,100000,100000,100000,100000,50000,0,5000,1,0,1,10";

const UNLIKE: &str =
    "unlike,ply,10000,10000,0,5000,100000,100000,100000,200000,50000,0,5000,1,0,1,10";

const SIXTEEN: &str =
    "most,ply,10000,10000,0,5000,100000,100000,100000,1600000,50000,0,5000,1,0,1,10";

const LEAN: &str = "lean,ply,10000,10000,0,5000,100000,100000,100000,100000,50000,0,5000,3,4,5,10";

const PAIR: &str = "pair,pair,10000,10000,0,5000,100000,200000,100000,100000,50000,0,5000,3,4,5,10";

const PLUS: &str = "plus,ply,10000,10000,0,5000,100000,200000,100000,100000,50000,0,5000,3,4,5,10";

const MINUS: &str =
    "minus,ply,10000,10000,0,5000,100000,200000,100000,100000,50000,0,5000,3,-4,5,10";

const JOINED: &str =
    "joined,ply,10000,10000,0,5000,100000,100000,100000,100000,50000,86602540,5000,1,0,1,10";

const OPPOSED: &str =
    "opposed,ply,10000,10000,0,5000,100000,100000,100000,100000,50000,-86602540,5000,1,0,1,10";

const SLACK: &str = "slack,ply,10000,10000,0,5000,2442,2442,2442,2442,2442,0,5000,1,0,1,10";

// an item, the strains in ten-thousandths, and the strength ratio rounded down, or one below a tie
const WORKED: [(&str, i16, i16, i16, u16); 16] = [
    (MAT, 0, 0, 0, 20_000),
    // a sixteenth, which is one point at both scales
    (MAT, 0, 625, 0, 159),
    (MAT, 0, 18, 0, 5_555),
    (MAT, 0, 20, 0, 4_999),
    (UNLIKE, 0, -20, 0, 9_999),
    (UNLIKE, 0, 20, 0, 4_999),
    (PAIR, 0, 0, 36, 3_551),
    (PLUS, 0, 0, 36, 3_551),
    (MINUS, 0, 0, 36, 5_123),
    (LEAN, 0, 18, 0, 4_596),
    (SIXTEEN, 0, 20, 0, 4_999),
    (SIXTEEN, 0, -320, 0, 4_999),
    (SIXTEEN, 0, -20, 0, 20_000),
    (JOINED, 18, 18, 0, 2_875),
    (OPPOSED, 18, 18, 0, 10_732),
    (SLACK, 0, 1, 0, 2_441),
];

#[test]
fn ratios_are_those_worked_by_hand(rt: HostRuntime) -> Result<(), Fail> {
    for (line, x, y, g, expected) in WORKED {
        let stock = catalogue(rt.alloc(), line)?;
        let sharp: FaceStrain<Fix<60>> = strain(x, y, g);
        assert_eq!(rt; ratio(&stock, &sharp), expected);
        let quick: FaceStrain<Fix<28>> = strain(x, y, g);
        let found = ratio(&stock, &quick);
        assert!(rt; found <= expected && expected - found <= 20);
        let round: FaceStrain<Ball> = strain(x, y, g);
        assert_eq!(rt; ratio(&stock, &round), expected);
    }
    Ok(())
}

// mat inside stiff under 300 N/mm along y: 36/11000 at the inner surface, and 24/11000 where the two meet
#[test]
fn balls_print_the_ratios_of_a_wall_that_bends(rt: HostRuntime) -> Result<(), Fail> {
    for (line, number, expected) in [(MAT, 36, 3_055), (STIFF, 24, 2_291)] {
        let stock = catalogue(rt.alloc(), line)?;
        let bent = FaceStrain {
            ex: part::<Ball>(0),
            ey: eleven_thousandths(number),
            g: part(0),
        };
        assert_eq!(rt; ratio(&stock, &bent), expected);
    }
    Ok(())
}

// the mat bears a strain of 0.002 along one axis 5 times, where f is the square of a fifth of the factor
#[test]
fn a_tie_straddles(rt: HostRuntime) -> Result<(), Fail> {
    let mat = catalogue(rt.alloc(), MAT)?;
    let sharp: FaceStrain<Fix<60>> = strain(0, 20, 0);
    let quick: FaceStrain<Fix<28>> = strain(0, 20, 0);
    let round: FaceStrain<Ball> = strain(0, 20, 0);
    for (factor, verdict) in [
        (0, Verdict::Meets),
        (1, Verdict::Meets),
        (4_900, Verdict::Meets),
        (5_000, Verdict::Straddles),
        (5_100, Verdict::Fails),
        (20_000, Verdict::Fails),
    ] {
        assert_eq!(rt; judged(&mat, Side::Plus, &sharp, factor), verdict);
        assert_eq!(rt; judged(&mat, Side::Plus, &quick, factor), verdict);
        assert_eq!(rt; judged(&mat, Side::Plus, &round, factor), verdict);
    }
    assert_eq!(rt; judged(&mat, Side::Plus, &sharp, 4_999), Verdict::Meets);
    assert_eq!(rt; judged(&mat, Side::Plus, &sharp, 5_001), Verdict::Fails);
    Ok(())
}

#[test]
fn a_side_is_judged_by_itself(rt: HostRuntime) -> Result<(), Fail> {
    let pair = catalogue(rt.alloc(), PAIR)?;
    let shear: FaceStrain<Fix<60>> = strain(0, 0, 36);
    assert_eq!(rt; judged(&pair, Side::Plus, &shear, 3_552), Verdict::Fails);
    assert_eq!(rt; judged(&pair, Side::Minus, &shear, 5_123), Verdict::Meets);
    assert_eq!(rt; judged(&pair, Side::Minus, &shear, 5_124), Verdict::Fails);
    Ok(())
}

// a strain of 3 along one axis is 30,000 MPa in the mat, which it bears 0.0033 times
#[test]
fn strains_six_wide_have_an_answer(rt: HostRuntime) -> Result<(), Fail> {
    let mat = catalogue(rt.alloc(), MAT)?;
    let sharp = FaceStrain {
        ex: wide::<Fix<60>>(),
        ey: wide(),
        g: wide(),
    };
    assert!(rt; ratio(&mat, &sharp) <= 3);
    let quick = FaceStrain {
        ex: wide::<Fix<28>>(),
        ey: wide(),
        g: wide(),
    };
    assert!(rt; ratio(&mat, &quick) <= 3);
    assert_eq!(rt;
        judged(&mat, Side::Plus, &sharp, 20_000),
        Verdict::Straddles
    );
    Ok(())
}

#[test]
fn the_law_is_called_over_each_enclosure() {
    meeting_is_a_ratio::<Fix<60>>();
    meeting_is_a_ratio::<Fix<28>>();
    meeting_is_a_ratio::<Ball>();
}
