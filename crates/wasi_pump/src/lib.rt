//! Moves all bytes of a source to a sink, by a read stream and a write stream, each with a worker
//! in a thread of its own.
#![tactic(auto)]

mod copying;
mod error;
mod outcome;
mod piece;
mod pumping;

pub use error::PumpError;
pub use outcome::Pumped;
pub use pumping::pump;
