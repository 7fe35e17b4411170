// The loads that walls are computed for.

ghost use Rattle.std.specs.Prelude.{◌≡◌, ◌↔◌, IsTrue};
ghost use Rattle.lam_job.specs.LoadRange.{SizeWithin, LoadInRange};

use lam_fraction::machine::wide_product;
use lam_job::Load;
use lam_stock::Scale;

/// Tells whether a load is in range for a wall of thickness `h` in µm: the mean stress of each force, and the stress
/// `2 M / h²` of each moment, is at most a quarter of the scale's floor.
pub fn in_range(scale: &Scale, h: i64, load: &Load) -> bool
    ensures { IsTrue result ↔ LoadInRange scale.now.floor h load.now }
{
    let Load {
        nx,
        ny,
        nxy,
        mx,
        my,
        mxy,
    } = *load;
    let force = wide_product(scale.floor, h);
    // a bound that is too great for a number is above each moment
    let moment = i128::from(scale.floor).saturating_mul(wide_product(h, h));
    are_within(force, nx.into(), ny.into(), nxy.into())
        && are_within(
            moment,
            wide_product(8000, mx),
            wide_product(8000, my),
            wide_product(8000, mxy),
        )
}

// tells whether the size of each of three numbers is at most a bound
fn are_within(bound: i128, x: i128, y: i128, xy: i128) -> bool
    ensures { IsTrue result ↔ SizeWithin bound x × SizeWithin bound y × SizeWithin bound xy }
{
    is_within(bound, x) && is_within(bound, y) && is_within(bound, xy)
}

// tells whether the size of a number is at most a bound
fn is_within(bound: i128, z: i128) -> bool
    ensures { IsTrue result ↔ SizeWithin bound z }
{
    0 <= bound && z.unsigned_abs() <= bound.unsigned_abs()
}
