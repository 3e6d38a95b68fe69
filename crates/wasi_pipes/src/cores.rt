//! The pure cores of the worker streams.

pub mod fault;
pub mod read;
pub mod write;

pub use fault::WorkerFault;
pub use read::{ReadCore, ReadFault};
pub use write::{Work, WriteCore};
