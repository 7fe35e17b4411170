//! The catalogue of laminae: its reader, its items with their limits, its scale, and lists of
//! items.
#![tactic(auto)]

// causes and faults
mod fault;
// blanks, letters, kinds, and the public readers of numbers
pub mod field;
// items, laminae, numbers of items
mod item;
// the numbers of the limits
mod limit_numbers;
// the limits of an item
mod limits;
// the stiffness cap and floor of a lamina
mod moduli;
// names of items
mod name;
// records read as items
mod reading;
// records of the bytes
mod rows;
// q0 and floor
mod scale;
// lists of at most 64 items
mod stack;
// the catalogue
mod stock;

pub use fault::{StockCause, StockError, StockFault};
pub use item::{Item, ItemNo, Kind, Lamina};
pub use name::Name;
pub use reading::read_stock;
pub use scale::Scale;
pub use stack::Stack;
pub use stock::Stock;
