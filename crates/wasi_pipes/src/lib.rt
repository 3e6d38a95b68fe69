//! Streams whose reads and writes are made by workers.
//!
//! What owner and worker share of a stream is a core (module `cores`): numbers and flags alone,
//! with one method an event. What the events mean is stated by records that remember every length
//! (specs/WriteRecord, specs/ReadRecord).
#![tactic(auto)]

pub mod cores;

pub use cores::{ReadCore, ReadFault, Work, WorkerFault, WriteCore};
