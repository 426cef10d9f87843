//! Named files that are read, and a sink for text: two traits that count their faults, each with a
//! version in memory and one for the system.
#![tactic(auto)]

mod disk_shelf;
mod fault_counts;
mod memory_shelf;
mod memory_sink;
mod out_sink;
mod shelf;
mod sink;

pub use disk_shelf::DiskShelf;
pub use memory_shelf::MemoryShelf;
pub use memory_sink::MemorySink;
pub use out_sink::OutSink;
pub use shelf::{ReadError, Shelf};
pub use sink::{Sink, WriteError};
