// Draws from a number, by a linear congruential generator.

ghost use Rattle.std.specs.Prelude.{◌≡◌, ◌<◌, ◌^◌};
ghost use Rattle.lam_sample.specs.Draws.{draw, step};

use std::marker::Model;

// The generator is that of the C standard's example of `rand`: its multiplier and its increment, with
// 31 bits kept.
const MULTIPLIER: u64 = 1103515245;

const INCREMENT: u64 = 12345;

const MODULUS: u64 = 1 << 31;

// A draw is the state without its lower 16 bits, which repeat soonest.
const LOWER_BITS: u64 = 1 << 16;

/// The state of the generator.
#[derive(Drop)]
pub(crate) struct Draws {
    state: u64,
}

impl Model for Draws {
    ghost use Rattle.std.specs.Prelude.{ℕ, ◌<◌, ◌^◌};

    ghost Value = { ℕ };

    ghost view = { λ d. d.state };

    ghost invariant = { λ d. d.state < 2 ^ 31 };
}

impl Draws {
    /// The draws that a number begins.
    pub(crate) fn from(number: u32) -> Draws
        requires { number < 2 ^ 31 }
        ensures { result ≡ number }
    {
        Draws {
            state: number as u64,
        }
    }

    /// The next draw, modulo a number.
    #[tactic(auto, unfolding(crate::specs::Draws::step))]
    pub(crate) fn next(&mut self, modulus: u64) -> u64
        requires { 0 < modulus }
        ensures value { result ≡ draw 1 modulus self.old }
        ensures state { self.new ≡ step self.old }
        ensures below { result < modulus }
    {
        self.state = (MULTIPLIER * self.state + INCREMENT) % MODULUS;
        self.state / LOWER_BITS % modulus
    }
}
