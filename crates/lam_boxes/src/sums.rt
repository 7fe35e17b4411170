// Sums and hulls of matrices, entry by entry.

ghost use Rattle.std.specs.Prelude.{◌≡◌, pos, ◌≤ℤ◌};
ghost use Rattle.lam_fraction.specs.inside.Reaches.{Reaches};
ghost use Rattle.lam_wall.specs.inside.Formulas as wall;
ghost use Rattle.lam_boxes.specs.inside.Extensions as by;
ghost use Rattle.lam_boxes.specs.inside.Parts.{IsThickness, MatrixReaches, entry_reach, open_reach, share_reach};

use lam_lamina::Sym3;
use lam_number::Enclosure;

/// A share of a thickness.
pub(crate) fn share<N: Enclosure>(part: i64, h: i64) -> N
    requires thickness { IsThickness h }
    requires least { pos 0 ≤ℤ part }
    requires within { part ≤ℤ h }
    ensures value { result ≡ N.numbers.calc.ratio part h }
    ensures reach { Reaches N.numbers share_reach result }
{
    N::of_ratio(i128::from(part), i128::from(h))
}

/// A sum of matrices with a share of a ply's stiffness.
pub(crate) fn with_share<N: Enclosure>(sum: &Sym3<N>, share: N, stiffness: &Sym3<N>) -> Sym3<N>
    requires sum { MatrixReaches N.numbers entry_reach sum.now }
    requires share { Reaches N.numbers share_reach share }
    requires stiffness { MatrixReaches N.numbers entry_reach stiffness.now }
    ensures { result ≡ wall.with_share N.numbers.calc sum.now share stiffness.now }
{
    Sym3 {
        xx: gathered(sum.xx, share, stiffness.xx),
        xy: gathered(sum.xy, share, stiffness.xy),
        yy: gathered(sum.yy, share, stiffness.yy),
        xs: gathered(sum.xs, share, stiffness.xs),
        ys: gathered(sum.ys, share, stiffness.ys),
        ss: gathered(sum.ss, share, stiffness.ss),
    }
}

// a sum with a share of an entry
fn gathered<N: Enclosure>(sum: N, share: N, entry: N) -> N
    requires sum { Reaches N.numbers entry_reach sum }
    requires share { Reaches N.numbers share_reach share }
    requires entry { Reaches N.numbers entry_reach entry }
    ensures { result ≡ wall.gathered N.numbers.calc sum share entry }
{
    let part = share.mul(entry);
    sum.add(part)
}

/// A share of a stiffness.
pub(crate) fn scaled<N: Enclosure>(share: N, stiffness: &Sym3<N>) -> Sym3<N>
    requires share { Reaches N.numbers share_reach share }
    requires stiffness { MatrixReaches N.numbers entry_reach stiffness.now }
    ensures { result ≡ by.scaled N.numbers share stiffness.now }
{
    Sym3 {
        xx: times(share, stiffness.xx),
        xy: times(share, stiffness.xy),
        yy: times(share, stiffness.yy),
        xs: times(share, stiffness.xs),
        ys: times(share, stiffness.ys),
        ss: times(share, stiffness.ss),
    }
}

// a share of an entry
fn times<N: Enclosure>(share: N, entry: N) -> N
    requires share { Reaches N.numbers share_reach share }
    requires entry { Reaches N.numbers entry_reach entry }
    ensures { result ≡ N.numbers.calc.product share entry }
{
    share.mul(entry)
}

/// All that is in one of two matrices.
pub(crate) fn either<N: Enclosure>(first: &Sym3<N>, second: &Sym3<N>) -> Sym3<N>
    requires first { MatrixReaches N.numbers open_reach first.now }
    requires second { MatrixReaches N.numbers open_reach second.now }
    ensures { result ≡ by.either N.numbers first.now second.now }
{
    Sym3 {
        xx: hull(first.xx, second.xx),
        xy: hull(first.xy, second.xy),
        yy: hull(first.yy, second.yy),
        xs: hull(first.xs, second.xs),
        ys: hull(first.ys, second.ys),
        ss: hull(first.ss, second.ss),
    }
}

// all that is in one of two entries
fn hull<N: Enclosure>(first: N, second: N) -> N
    requires first { Reaches N.numbers open_reach first }
    requires second { Reaches N.numbers open_reach second }
    ensures { result ≡ N.numbers.hull first second }
{
    first.hull(second)
}

/// The sum of two matrices.
pub(crate) fn together<N: Enclosure>(first: &Sym3<N>, second: &Sym3<N>) -> Sym3<N>
    requires first { MatrixReaches N.numbers entry_reach first.now }
    requires second { MatrixReaches N.numbers open_reach second.now }
    ensures { result ≡ by.together N.numbers first.now second.now }
{
    Sym3 {
        xx: sum(first.xx, second.xx),
        xy: sum(first.xy, second.xy),
        yy: sum(first.yy, second.yy),
        xs: sum(first.xs, second.xs),
        ys: sum(first.ys, second.ys),
        ss: sum(first.ss, second.ss),
    }
}

// the sum of two entries
fn sum<N: Enclosure>(first: N, second: N) -> N
    requires first { Reaches N.numbers entry_reach first }
    requires second { Reaches N.numbers open_reach second }
    ensures { result ≡ N.numbers.calc.sum first second }
{
    first.add(second)
}
