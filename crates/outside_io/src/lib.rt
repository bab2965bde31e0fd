//! The outside of the program: a source of named files, a sink of bytes, and the two calls that go whole through
//! them. A program runs over `FileShelf` and `StdSink`; a test runs over the memory forms, whose failing calls it
//! chooses, or over the steady forms, which fail only where a sink's room is used up.
#![tactic(auto)]

mod byte_text;
mod failing;
mod file_shelf;
mod files;
mod memory_shelf;
mod memory_sink;
mod shelf;
mod sink;
mod std_sink;
mod steady_shelf;
mod steady_sink;
mod whole;

pub use byte_text::ByteText;
pub use file_shelf::FileShelf;
pub use memory_shelf::MemoryShelf;
pub use memory_sink::MemorySink;
pub use shelf::{Got, Opened, Shelf};
pub use sink::{Put, Sink};
pub use std_sink::StdSink;
pub use steady_shelf::SteadyShelf;
pub use steady_sink::SteadySink;
pub use whole::{ReadAns, Written, read_file, write_all};

#[cfg(test)]
mod tests;
