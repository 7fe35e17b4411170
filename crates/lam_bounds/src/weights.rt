// The weights that are tried.

ghost use Rattle.std.specs.Prelude.{◌≡◌};
ghost use Rattle.lam_tree.specs.TriedWeights.{tried_weights as tried_spec};

use lam_support::Weight;

/// How many weights a search tries.
pub const TRIED: usize = 12;

/// The weights that a search tries, in this order: along the wall, round it, in shear, and mixed.
pub fn tried_weights() -> [Weight; 12]
    ensures { result ≡ tried_spec }
{
    [
        Weight { x: 1, y: 0, s: 0 },
        Weight { x: 0, y: 1, s: 0 },
        Weight { x: 0, y: 0, s: 1 },
        Weight { x: -1, y: 0, s: 0 },
        Weight { x: 0, y: -1, s: 0 },
        Weight { x: 0, y: 0, s: -1 },
        Weight { x: 1, y: 1, s: 0 },
        Weight { x: 1, y: -1, s: 0 },
        Weight { x: -1, y: 1, s: 0 },
        Weight { x: -1, y: -1, s: 0 },
        Weight { x: 1, y: 2, s: 0 },
        Weight { x: 2, y: 1, s: 0 },
    ]
}
