//! What the modes answer, one file a mode.

pub mod analyse;
pub mod check;
pub mod design;
pub mod sample;
