// The value (f - 1)/4096 of the criterion, round a middle.

ghost use Rattle.std.specs.Prelude.{◌≡◌, ◌+◌, ◌^◌};
ghost use Rattle.lam_fraction.specs.inside.Reaches.{Reaches, sixteenths};
ghost use Rattle.lam_tsai.specs.inside.Formulas as by;
ghost use Rattle.lam_tsai.specs.inside.Reach.{ReachCoefficients, ReachMiddle, ReachSpread};

use crate::coefficients::Coefficients;
use crate::components::Components;
use lam_number::Enclosure;

/// The value at each distance from a middle: that at the middle, the slopes there times the
/// distances, and the squares of these.
pub fn round_point<N: Enclosure>(
    coefficients: &Coefficients<N>,
    middle: &Components<N>,
    spread: &Components<N>,
) -> N
    requires coefficients { ReachCoefficients N.numbers coefficients.now }
    requires middle { ReachMiddle N.numbers middle.now }
    requires spread { ReachSpread N.numbers spread.now }
    ensures value { result ≡ by.round_point N.numbers.calc coefficients.now middle.now spread.now }
    ensures reach { Reaches N.numbers (sixteenths 90) result }
{
    let centre = centre(coefficients, middle);
    let tilt = tilt(coefficients, middle, spread);
    let linear = centre.add(tilt);
    let bend = bend(coefficients, spread);
    linear.add(bend)
}

// the value at a point
fn centre<N: Enclosure>(coefficients: &Coefficients<N>, y: &Components<N>) -> N
    requires coefficients { ReachCoefficients N.numbers coefficients.now }
    requires y { ReachMiddle N.numbers y.now }
    ensures { result ≡ by.centre N.numbers.calc coefficients.now y.now }
{
    let along = axis_terms(coefficients.along, coefficients.along_square, y.along);
    let across = axis_terms(coefficients.across, coefficients.across_square, y.across);
    let axes = along.add(across);
    let both = y.along.mul(y.across);
    let mixed = coefficients.mixed.mul(both);
    let square = y.shear.square();
    let shear = square.over_positive(16);
    let rest = mixed.add(shear);
    let sum = axes.add(rest);
    sum.sub(coefficients.one)
}

// the terms of an axis: a y + b y²
fn axis_terms<N: Enclosure>(first: N, second: N, y: N) -> N
    requires first { Reaches N.numbers (sixteenths 1 + 4) first }
    requires second { Reaches N.numbers (sixteenths 16 + 4) second }
    requires y { Reaches N.numbers (sixteenths 18 + 8) y }
    ensures { result ≡ by.axis N.numbers.calc first second y }
{
    let linear = first.mul(y);
    let square = y.square();
    let bent = second.mul(square);
    linear.add(bent)
}

// the slope along an axis: a + 2 b y + c x
fn slope<N: Enclosure>(first: N, second: N, mixed: N, y: N, other: N) -> N
    requires first { Reaches N.numbers (sixteenths 1 + 4) first }
    requires second { Reaches N.numbers (sixteenths 16 + 4) second }
    requires mixed { Reaches N.numbers (sixteenths 28 + 4) mixed }
    requires y { Reaches N.numbers (sixteenths 18 + 8) y }
    requires other { Reaches N.numbers (sixteenths 18 + 8) other }
    ensures { result ≡ by.slope N.numbers.calc first second mixed y other }
{
    let bent = second.mul(y);
    let twice = bent.times_whole(2);
    let alone = first.add(twice);
    let joint = mixed.mul(other);
    alone.add(joint)
}

// the slopes times the distances
fn tilt<N: Enclosure>(coefficients: &Coefficients<N>, y: &Components<N>, d: &Components<N>) -> N
    requires coefficients { ReachCoefficients N.numbers coefficients.now }
    requires y { ReachMiddle N.numbers y.now }
    requires d { ReachSpread N.numbers d.now }
    ensures { result ≡ by.tilt N.numbers.calc coefficients.now y.now d.now }
{
    let slope_along = slope(
        coefficients.along,
        coefficients.along_square,
        coefficients.mixed,
        y.along,
        y.across,
    );
    let along = slope_along.mul(d.along);
    let slope_across = slope(
        coefficients.across,
        coefficients.across_square,
        coefficients.mixed,
        y.across,
        y.along,
    );
    let across = slope_across.mul(d.across);
    let axes = along.add(across);
    let slope_shear = y.shear.over_positive(8);
    let shear = slope_shear.mul(d.shear);
    axes.add(shear)
}

// the squares of the distances
fn bend<N: Enclosure>(coefficients: &Coefficients<N>, d: &Components<N>) -> N
    requires coefficients { ReachCoefficients N.numbers coefficients.now }
    requires d { ReachSpread N.numbers d.now }
    ensures { result ≡ by.bend N.numbers.calc coefficients.now d.now }
{
    let along_square = d.along.square();
    let along = coefficients.along_square.mul(along_square);
    let across_square = d.across.square();
    let across = coefficients.across_square.mul(across_square);
    let axes = along.add(across);
    let both = d.along.mul(d.across);
    let mixed = coefficients.mixed.mul(both);
    let shear_square = d.shear.square();
    let shear = shear_square.over_positive(16);
    let rest = mixed.add(shear);
    axes.add(rest)
}
