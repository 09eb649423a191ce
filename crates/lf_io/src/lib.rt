//! What lies outside the program: sources, sinks and shelves, in memory and real.
#![tactic(auto)]

mod calls;
mod failed;
mod file;
mod file_shelf;
mod memory_shelf;
mod memory_sink;
mod memory_source;
mod read_source;
mod shelf;
mod sink;
mod source;
#[cfg(test)]
mod tests;
mod write_sink;

pub use calls::Calls;
pub use failed::Failed;
pub use file::File;
pub use file_shelf::FileShelf;
pub use memory_shelf::MemoryShelf;
pub use memory_sink::MemorySink;
pub use memory_source::MemorySource;
pub use read_source::ReadSource;
pub use shelf::{Shelf, ShelfErr};
pub use sink::{Sink, write_all};
pub use source::{PIECE, Source, read_all};
pub use write_sink::WriteSink;
