// A plate that buckles into a number of half waves along its length.
//
// Let x be the square of the number times the square of the width, y the square of the length, and s and t their
// shares in the sum of both. The load of the formula is in proportion to the form of D at s and t over the product
// of s and t. Shares lie between 0 and 1, where x over y can be from 10⁻⁵ to 10⁵.

ghost use Rattle.std.specs.Prelude.{◌≡◌, ◌+◌, pos, ◌≤ℤ◌};
ghost use Rattle.lam_fraction.specs.inside.Reaches.{Reaches, sixteenths};
ghost use Rattle.lam_plate.specs.inside.Formulas as by;
ghost use Rattle.lam_plate.specs.inside.Rooms.{ReachBending, ReachMatrix};

use lam_lamina::Sym3;
use lam_number::Enclosure;

/// A quarter of `D11`, of `2(D12 + 2 D66)` and of `D22`, each over the scale of the wall's matrices.
#[derive(Clone, Copy)]
pub(crate) struct Bending<N> {
    pub(crate) along: N,
    pub(crate) mixed: N,
    pub(crate) across: N,
}

/// A quarter of the form of D at the two shares, and the product of the shares.
#[derive(Clone, Copy)]
pub(crate) struct Wave<N> {
    pub(crate) form: N,
    pub(crate) shares: N,
}

/// The bending stiffness of a plate, from the matrix D of its wall.
pub(crate) fn bending_of<N: Enclosure>(d: &Sym3<N>) -> Bending<N>
    requires { ReachMatrix N.numbers d.now }
    ensures value { result ≡ by.bending N.numbers.calc d.now }
    ensures room { ReachBending N.numbers result }
{
    let half = d.xy.over_positive(2);
    Bending {
        along: d.xx.over_positive(4),
        mixed: half.add(d.ss),
        across: d.yy.over_positive(4),
    }
}

/// What the buckling of the plate takes at x and y.
pub(crate) fn wave_at<N: Enclosure>(bending: &Bending<N>, x: i64, y: i64) -> Wave<N>
    requires bending { ReachBending N.numbers bending.now }
    requires some_x { pos 1 ≤ℤ x }
    requires few_x { x ≤ℤ pos 2000000000000000 }
    requires some_y { pos 1 ≤ℤ y }
    requires few_y { y ≤ℤ pos 400000000 }
    ensures { result ≡ by.wave N.numbers.calc bending.now x y }
{
    let s: N = share(x, y);
    let t: N = share(y, x);
    let shares = s.mul(t);
    Wave {
        form: form(bending, s, t, shares),
        shares,
    }
}

// a part of a sum
fn share<N: Enclosure>(part: i64, rest: i64) -> N
    requires some_part { pos 1 ≤ℤ part }
    requires few_part { part ≤ℤ pos 2000000000000000 }
    requires some_rest { pos 1 ≤ℤ rest }
    requires few_rest { rest ≤ℤ pos 2000000000000000 }
    ensures value { result ≡ by.share N.numbers.calc part rest }
    ensures room { Reaches N.numbers (sixteenths 16 + 4) result }
{
    N::of_ratio(i128::from(part), i128::from(part + rest))
}

// along s² + mixed st + across t²
fn form<N: Enclosure>(bending: &Bending<N>, s: N, t: N, shares: N) -> N
    requires bending { ReachBending N.numbers bending.now }
    requires s { Reaches N.numbers (sixteenths 16 + 4) s }
    requires t { Reaches N.numbers (sixteenths 16 + 4) t }
    requires shares { Reaches N.numbers (sixteenths 16 + 16) shares }
    ensures { result ≡ by.form N.numbers.calc bending.now s t shares }
{
    let first = s.square();
    let along = bending.along.mul(first);
    let mixed = bending.mixed.mul(shares);
    let sum = along.add(mixed);
    let second = t.square();
    let across = bending.across.mul(second);
    sum.add(across)
}
