//! Sources and sinks of bytes: the traits, those in memory, those over std's files and standard
//! streams, and the write of all bytes.
#![tactic(auto)]

pub mod io;
pub mod memory;
pub mod standard;
pub mod write;

pub use io::{Failed, Sink, Source};
pub use memory::{GrowingSink, MemorySink, MemorySource};
pub use standard::{FileSource, StdSink, StdSource};
pub use write::write_all;
