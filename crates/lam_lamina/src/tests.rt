//! Worked stiffnesses.

ghost use Rattle.std.specs.Prelude.{◌≡◌, ◌<◌};

use crate::{Reduced, Stiffnesses, Sym3, item_stiffness, reduced, transformed};
use lam_direction::Direction;
use lam_number::{Ball, Enclosure, Fix};
use lam_stock::{Item, ItemNo, Kind, Lamina, Name, Scale, Stock, read_stock};
use std::test::Fail;

// chopped strand mat, alike in all directions of its plane
const MAT: Lamina = Lamina {
    e1: 10_000,
    e2: 10_000,
    n12: 0,
    g12: 5_000,
    xt: 100_000,
    xc: 100_000,
    yt: 100_000,
    yc: 100_000,
    s: 50_000,
    f12: 0,
    t: 5_000,
};

// the scale of a catalogue of the mat alone
const MAT_SCALE: Scale = Scale {
    q0: 65_536,
    floor: 5_000,
};

// glass fibres in one direction
const GLASS: Lamina = Lamina {
    e1: 40_000,
    e2: 10_000,
    n12: 250,
    g12: 4_000,
    xt: 800_000,
    xc: 500_000,
    yt: 35_000,
    yc: 110_000,
    s: 50_000,
    f12: 0,
    t: 5_000,
};

// the scale of a catalogue of the glass alone
const GLASS_SCALE: Scale = Scale {
    q0: 131_072,
    floor: 8_000,
};

// 10000/65536 and 5000/65536, over 2^60
const TENTH: i64 = 175_921_860_444_160_000;

const TWENTIETH: i64 = 87_960_930_222_080_000;

// tells whether an enclosure holds a number of which the whole parts below and above are given
fn holds<N: Enclosure>(x: N, below: i64, above: i64) -> bool {
    x.low() <= below && above <= x.high()
}

// an item of this lamina
fn item(name: Name, kind: Kind, lamina: Lamina, dir: Direction) -> Item
    ensures { result.lamina ≡ lamina }
{
    Item {
        name,
        kind,
        lamina,
        dir,
        cost: 1,
    }
}

#[test]
fn mat_has_its_moduli(rt: HostRuntime) {
    let mat: Reduced<Fix<60>> = reduced(&MAT, &MAT_SCALE);
    assert!(rt; holds(mat.q11, TENTH, TENTH));
    assert!(rt; holds(mat.q22, TENTH, TENTH));
    assert!(rt; holds(mat.q12, 0, 0));
    assert!(rt; holds(mat.q66, TWENTIETH, TWENTIETH));
}

#[test]
fn transformed_mat_is_as_stiff(rt: HostRuntime) -> Result<(), Fail> {
    let name = Name::read(b"mat").expect(&rt, "a name");
    let ply = item(name, Kind::Ply, MAT, Direction::read(3, 4, 5)?);
    let mat: Sym3<Fix<60>> = item_stiffness(&ply, &MAT_SCALE);
    assert!(rt; holds(mat.xx, TENTH, TENTH) && holds(mat.yy, TENTH, TENTH));
    assert!(rt; holds(mat.xy, 0, 0) && holds(mat.xs, 0, 0) && holds(mat.ys, 0, 0));
    assert!(rt; holds(mat.ss, TWENTIETH, TWENTIETH));
    Ok(())
}

// 24243.87, 9050.03 and 13529.09 MPa over 131072 MPa, and so on
#[test]
fn glass_and_its_mirror_image_couple_shear_oppositely(rt: HostRuntime) -> Result<(), Fail> {
    let dir = Direction::read(160, 231, 281)?;
    let glass: Reduced<Fix<60>> = reduced(&GLASS, &GLASS_SCALE);
    let plus = transformed(&glass, &dir);
    let minus = transformed(&glass, &dir.mirror());
    assert!(rt; holds(plus.xx, 119_003_158_202_926_272, 119_003_158_202_926_273));
    assert!(rt; holds(minus.xx, 119_003_158_202_926_272, 119_003_158_202_926_273));
    assert!(rt; holds(plus.xy, 79_604_875_766_992_235, 79_604_875_766_992_236));
    assert!(rt; holds(minus.xy, 79_604_875_766_992_235, 79_604_875_766_992_236));
    assert!(rt; holds(plus.yy, 213_251_335_313_441_002, 213_251_335_313_441_003));
    assert!(rt; holds(minus.yy, 213_251_335_313_441_002, 213_251_335_313_441_003));
    assert!(rt; holds(plus.xs, 41_232_962_284_295_933, 41_232_962_284_295_934));
    assert!(rt; holds(minus.xs, -41_232_962_284_295_934, -41_232_962_284_295_933));
    assert!(rt; holds(plus.ys, 84_245_681_352_627_246, 84_245_681_352_627_247));
    assert!(rt; holds(minus.ys, -84_245_681_352_627_247, -84_245_681_352_627_246));
    assert!(rt; holds(plus.ss, 92_449_963_989_899_156, 92_449_963_989_899_157));
    assert!(rt; holds(minus.ss, 92_449_963_989_899_156, 92_449_963_989_899_157));
    Ok(())
}

#[test]
fn balls_hold_the_same_stiffness(rt: HostRuntime) -> Result<(), Fail> {
    let glass: Reduced<Ball> = reduced(&GLASS, &GLASS_SCALE);
    let plus = transformed(&glass, &Direction::read(160, 231, 281)?);
    assert!(rt; holds(plus.xx, 119_003_158_202_926_272, 119_003_158_202_926_273));
    assert!(rt; holds(plus.ys, 84_245_681_352_627_246, 84_245_681_352_627_247));
    assert!(rt; plus.xx.high() - 200 < plus.xx.low());
    Ok(())
}

#[test]
fn a_pair_does_not_couple_shear(rt: HostRuntime) -> Result<(), Fail> {
    let name = Name::read(b"glass").expect(&rt, "a name");
    let pair = item(name, Kind::Pair, GLASS, Direction::read(160, 231, 281)?);
    let glass: Sym3<Fix<28>> = item_stiffness(&pair, &GLASS_SCALE);
    assert!(rt; glass.xs.low() <= 0 && 0 <= glass.xs.high());
    assert!(rt; glass.ys.low() <= 0 && 0 <= glass.ys.high());
    assert!(rt; glass.xx.low() <= 27_707_581 && 27_707_582 <= glass.xx.high());
    assert!(rt; glass.yy.low() <= 49_651_445 && 49_651_446 <= glass.yy.high());
    Ok(())
}

// the entry of an item in the table of its catalogue
fn entry<N: Enclosure>(stock: &Stock, no: ItemNo) -> Sym3<N>
    requires { no.0 < 64 }
{
    let table: Stiffnesses<N> = Stiffnesses::of(stock);
    *table.get(no)
}

// tells whether two enclosures have the same ends
fn same<N: Enclosure>(a: N, b: N) -> bool {
    a.low() == b.low() && a.high() == b.high()
}

// tells whether two matrices have the same ends
fn same_matrix<N: Enclosure>(a: &Sym3<N>, b: &Sym3<N>) -> bool {
    let normal = same(a.xx, b.xx) && same(a.xy, b.xy) && same(a.yy, b.yy);
    normal && same(a.xs, b.xs) && same(a.ys, b.ys) && same(a.ss, b.ss)
}

#[test]
fn a_table_has_the_stiffness_of_each_item(rt: HostRuntime) -> Result<(), Fail> {
    let alloc = rt.alloc();
    let text = b"name,kind,e1,e2,n12,g12,xt,xc,yt,yc,s,f12,t,p,q,h,cost
glass,ply,40000,10000,250,4000,800000,500000,35000,110000,50000,0,5000,160,231,281,1
both,pair,40000,10000,250,4000,800000,500000,35000,110000,50000,0,5000,160,231,281,1
";
    let stock = read_stock(alloc, text)?;
    let name = Name::read(b"glass").expect(&rt, "a name");
    let ply = item(name, Kind::Ply, GLASS, Direction::read(160, 231, 281)?);
    let no = stock.find(b"glass").expect(&rt, "an item");
    let wide: Sym3<Fix<60>> = entry(&stock, no);
    assert!(rt; same_matrix(&wide, &item_stiffness(&ply, &GLASS_SCALE)));
    let round: Sym3<Ball> = entry(&stock, no);
    assert!(rt; same_matrix(&round, &item_stiffness(&ply, &GLASS_SCALE)));
    let name = Name::read(b"both").expect(&rt, "a name");
    let pair = item(name, Kind::Pair, GLASS, Direction::read(160, 231, 281)?);
    let no = stock.find(b"both").expect(&rt, "an item");
    let short: Sym3<Fix<28>> = entry(&stock, no);
    assert!(rt; same_matrix(&short, &item_stiffness(&pair, &GLASS_SCALE)));
    Ok(())
}
