//! What the layers of a catalogue keep, as the contract of a function that does nothing.

ghost use Rattle.std.specs.Prelude.{All};
ghost use Rattle.lam_stock.specs.Scale.{scale_of};
ghost use Rattle.lam_stock.specs.Energy.{LayerEnergyBetween};

use lam_stock::Stock;

/// No layer of a catalogue is softer than the catalogue's floor, whichever way it is strained, and
/// none is stiffer than its `q0`: the stress of each does at least floor, and at most `q0`, times
/// the squares of the strain.
pub fn layers_work_between(stock: &Stock)
    ensures { All (LayerEnergyBetween (scale_of stock.now).floor (scale_of stock.now).q0)
        stock.now }
{
    let _scale = stock.scale();
    let _items = stock.items();
}
