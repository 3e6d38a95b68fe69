//! Streams that lie in memory, for one owner: what a guest reads from a pipe, what it writes to
//! one, and streams that take or give nothing.
#![tactic(auto)]

pub mod input;
pub mod output;
pub mod pipe;
pub mod plain;

pub use input::InputPipeCore;
pub use output::OutputPipeCore;
pub use pipe::OutputPipe;
pub use plain::{ClosedInputStream, ClosedOutputStream, SinkOutputStream};
