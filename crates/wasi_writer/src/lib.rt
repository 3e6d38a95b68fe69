//! The write stream whose writes a worker makes.
//!
//! What the two sides have under one lock is in `lock`, how they wait for each other in `shared`,
//! and what each of them knows while the other has the lock in `owner_facts` and `worker_facts`.
#![tactic(auto)]

mod lock;
pub mod names;
mod owner_facts;
mod shared;
pub mod stream;
mod task;
pub mod worker;
mod worker_facts;

pub use names::{LedgerNames, Names, WriteParts};
pub use stream::AsyncWriteStream;
pub use worker::WriteWorker;
