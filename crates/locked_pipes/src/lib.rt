//! Pipes in memory that several owners share, each behind a lock.
#![tactic(auto)]

pub mod input;
pub mod output;
mod room;

pub use input::MemoryInputPipe;
pub use output::MemoryOutputPipe;
