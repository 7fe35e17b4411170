// How thick the items of a catalogue are.

ghost use Rattle.std.specs.Prelude.{◌≡◌, pos, ◌≤ℤ◌, All};
ghost use Rattle.std.specs.Int.{int_max, int_min};
ghost use Rattle.lam_stock.specs.Stock.{WithinLimits};
ghost use Rattle.lam_job.specs.Partial.{thickest as thickest_spec};
ghost use Rattle.lam_boxes.specs.inside.Extents.{thinnest as thinnest_spec};

use lam_stock::Item;

/// The thickness of the thickest item, in µm.
pub(crate) fn thickest(items: &[Item]) -> i64
    requires { All WithinLimits items.now }
    ensures { result ≡ thickest_spec items.now }
{
    let mut most = 0;
    for item in items {
        most = greater(most, item.lamina.t);
    }
    most
}

/// The thickness of the thinnest item, in µm.
pub(crate) fn thinnest(items: &[Item]) -> i64
    requires { All WithinLimits items.now }
    ensures { result ≡ thinnest_spec items.now }
{
    let mut least = 20000;
    for item in items {
        least = smaller(least, item.lamina.t);
    }
    least
}

// the greater of two numbers
fn greater(a: i64, b: i64) -> i64
    ensures { result ≡ int_max a b }
{
    if b < a { a } else { b }
}

// the smaller of two numbers
fn smaller(a: i64, b: i64) -> i64
    ensures { result ≡ int_min a b }
{
    if a < b { a } else { b }
}
