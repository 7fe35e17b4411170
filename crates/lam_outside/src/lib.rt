//! Files that are read and a sink that is written, as traits that a program is generic over, with
//! one implementation in memory and one over std for each.
#![tactic(auto)]

// Files that are read whole, by name, and sinks that are written piece by piece.
mod reading;
mod writing;
// Both in memory, with calls that are to fail.
mod failing;
mod kept_files;
mod memory_sink;
// Both over the system.
mod host;
#[cfg(test)]
mod tests;

pub use host::{HostFiles, HostSink};
pub use kept_files::MemoryFiles;
pub use memory_sink::MemorySink;
pub use reading::{Bytes, Files, TakeFault, Taken};
pub use writing::{Failed, Sink, WriteFault, put_all, put_text};
