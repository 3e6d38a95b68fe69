//! The read stream whose reads a worker makes.
//!
//! What the two sides have under one lock is in `lock`, how they wait for each other in `shared`,
//! and what each of them knows while the other has the lock in `owner_facts` and `worker_facts`.
#![tactic(auto)]

pub mod buffer;
mod lock;
mod mark;
pub mod names;
mod owner_facts;
mod shared;
pub mod stage;
pub mod stream;
pub mod taken;
pub mod worker;
mod worker_facts;

pub use names::{LedgerNames, Names, ReadParts};
pub use stream::AsyncReadStream;
pub use worker::ReadWorker;
