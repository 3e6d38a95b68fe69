//! How a worker stream ended.

/// What a stream's `finish` gives back: the source or the sink that it was made with, and how it
/// ended.
#[derive(Debug, PartialEq, Eq, Drop)]
pub struct Finished<T> {
    /// The source or the sink.
    pub inner: T,
    /// Ok where all was done.
    pub outcome: Result<(), Ended>,
}

/// Why a stream ended early.
#[derive(Clone, Copy, Debug, PartialEq, Eq)]
pub enum Ended {
    /// A call of the source or the sink failed, or the sink took nothing of a piece.
    Fault,
    /// Its owner cancelled it.
    Cancelled,
    /// The worker of a reader found no memory.
    Memory,
}
