// How many half waves decide for all.
//
// The load of the formula falls and then rises with the number m of half waves: from m to m + 1 it does not fall where
// D11 m²(m + 1)² b⁴ is at least D22 a⁴, with a the length and b the width, and then it never falls again.

ghost use Rattle.std.specs.Prelude.{◌≡◌, ◌≤◌, pos, ◌≤ℤ◌, ◌<ℤ◌, unsigned_abs};
ghost use Rattle.lam_fraction.specs.numbers.Rounding.{floor_over};
ghost use Rattle.lam_plate.specs.inside.Formulas as by;
ghost use Rattle.lam_plate.specs.inside.Rooms.{IsSideSquare};

use lam_fraction::machine::wide_product;
use lam_lamina::Sym3;
use lam_number::Enclosure;

/// The most half waves that are looked at: the least m at which m(m + 1) 50² is at least √512 times 20,000².
const MOST_WAVES: u16 = 1903;

/// How many times D11 is D22 at most. In each wall of a catalogue it is at most 512 times, since q0 is at most 512 times
/// the floor.
pub(crate) fn most_times<N: Enclosure>(d: &Sym3<N>) -> i64
    ensures value { result ≡ by.most_times N.numbers d.now }
    ensures least { pos 1 ≤ℤ result }
    ensures most { result ≤ℤ pos 512 }
{
    let along = d.xx.low();
    if along <= 0 {
        return 512;
    }
    floor_quotient(d.yy.high(), along).max(0).min(511) + 1
}

// an end over a positive one, rounded down
#[tactic(auto, unfolding(lam_fraction::specs::numbers::Rounding::floor_over))]
fn floor_quotient(end: i64, over: i64) -> i64
    requires { pos 0 <ℤ over }
    ensures { result ≡ floor_over end (unsigned_abs over) }
{
    end.div_euclid(over)
}

/// The least number of half waves from which on the load does not fall, where D22 is at most so many times D11.
pub(crate) fn waves_for(times: i64, length_square: i64, width_square: i64) -> u16
    requires some_times { pos 1 ≤ℤ times }
    requires few_times { times ≤ℤ pos 512 }
    requires length { IsSideSquare length_square }
    requires width { IsSideSquare width_square }
    ensures value { result ≡ by.waves_for times length_square width_square }
    ensures some { 1 ≤ result }
    ensures few { result ≤ 1903 }
{
    for m in 1..MOST_WAVES {
        if rises_from(m, times, length_square, width_square) {
            return m;
        }
    }
    MOST_WAVES
}

// tells whether the load does not fall from a number of half waves to the next
fn rises_from(m: u16, times: i64, length_square: i64, width_square: i64) -> bool
    requires m { m ≤ 1903 }
    requires some_times { pos 1 ≤ℤ times }
    requires few_times { times ≤ℤ pos 512 }
    requires length { IsSideSquare length_square }
    requires width { IsSideSquare width_square }
    ensures { result ≡ by.rises_from times length_square width_square m }
{
    let waves = i64::from(m);
    let product = waves * (waves + 1) * width_square;
    i128::from(times) * wide_product(length_square, length_square) <= wide_product(product, product)
}
