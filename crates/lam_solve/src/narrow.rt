// The walls over which turns of refinement end by themselves.

ghost use Rattle.std.specs.Prelude.{◌≡◌};
ghost use Rattle.lam_solve.specs.inside.Narrow as by;

use crate::steps::slops;
use lam_fraction::machine::wide_size;
use lam_lamina::Sym3;
use lam_number::Enclosure;
use lam_wall::Wall;

/// Tells whether one is `2^60` units, and each entry of the three matrices at most 512 slops wide.
#[tactic(auto, unfolding(crate::specs::inside::Narrow::is_narrow))]
pub(crate) fn is_narrow<N: Enclosure>(wall: &Wall<N>) -> bool
    ensures { result ≡ by.is_narrow N.numbers wall.now }
{
    N::SCALE == 60
        && is_narrow_matrix(&wall.a)
        && is_narrow_matrix(&wall.b)
        && is_narrow_matrix(&wall.d)
}

// tells whether each entry of a matrix is at most 512 slops wide
#[tactic(auto, unfolding(crate::specs::inside::Narrow::is_narrow_matrix))]
fn is_narrow_matrix<N: Enclosure>(matrix: &Sym3<N>) -> bool
    ensures { result ≡ by.is_narrow_matrix N.numbers matrix.now }
{
    is_narrow_entry(matrix.xx)
        && is_narrow_entry(matrix.xy)
        && is_narrow_entry(matrix.yy)
        && is_narrow_entry(matrix.xs)
        && is_narrow_entry(matrix.ys)
        && is_narrow_entry(matrix.ss)
}

// tells whether an entry is
#[tactic(auto, unfolding(lam_fraction::specs::numbers::Ends::width))]
fn is_narrow_entry<N: Enclosure>(entry: N) -> bool
    ensures { result ≡ by.is_narrow_entry N.numbers entry }
{
    let low = i128::from(entry.low());
    let high = i128::from(entry.high());
    wide_size(high - low) <= slops::<N>(512)
}
