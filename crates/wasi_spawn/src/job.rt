//! What a worker does.

use std::sync::Wait;
use std::thread::Threads;

/// Work that is done once, in a thread of its own or in that of its owner. What it means is its
/// ghost `may_give`: the results that it may give.
pub trait Job: Drop + Send + 'static {
    /// What it gives.
    type Out: Drop + Send + 'static;

    ghost may_give: { Self → Self.Out → Type 0 };

    /// Does the work. It may wait for others, and then gives no promise to return.
    fn run<R: Threads + Wait>(self, rt: &R) -> Self::Out
        ensures { may_give self result };
}

/// Why a job wasn't started. The job comes back, not run.
#[derive(Debug, PartialEq, Eq, Drop)]
pub enum StartError<T> {
    /// No worker was to be had, which its spawner counted as a refusal.
    NoWorker(T),
    /// Memory was wanted.
    Memory(T),
}
