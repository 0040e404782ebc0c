//! Reading bytes from a source, and handing bytes to a sink.
//!
//! `Source` and `Sink` are what the crates above read from and write to. `InSource` and `OutSink` make them of a
//! reader and a writer of std, `PageSink` gathers bytes before it hands them to a writer of std, and `MemorySource` and
//! `MemorySink` keep their bytes in memory and fail where they are told to. `read_all` reads a whole input up to a limit,
//! and `put` hands in a whole piece. `Status` is how a call of a program ends that reads and writes them.
#![tactic(auto)]

mod adapters;
mod memory;
mod pages;
mod reads;
mod status;
#[cfg(test)]
mod tests;
mod traits;
mod writes;

pub use adapters::{InSource, OutSink};
pub use memory::{MemorySink, MemorySource};
pub use pages::PageSink;
pub use reads::{ReadError, read_all};
pub use status::Status;
pub use traits::{Failed, NoMemory, Sink, Source};
pub use writes::put;
