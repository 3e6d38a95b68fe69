//! Why a pump ended early.

use thiserror::Error;

/// Why not all was moved.
#[derive(Clone, Copy, Debug, PartialEq, Eq, Error)]
pub enum PumpError {
    /// The budget is 0.
    #[error("the budget is 0")]
    NoBudget,
    /// A spawner counted a refusal.
    #[error("a worker could not be started")]
    NoWorker,
    /// The source counted a fault.
    #[error("a read failed")]
    SourceFault,
    /// The sink counted a fault or a refused piece, and the source no fault.
    #[error("a write failed")]
    SinkFault,
    /// Memory ran out.
    #[error("memory ran out")]
    Memory,
}
