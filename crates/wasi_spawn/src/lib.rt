//! Jobs, and what starts them in threads of their own.
#![tactic(auto)]

pub mod fake;
pub mod handle;
pub mod job;
mod run;
pub mod spawner;
pub mod start;
pub mod thread;

pub use fake::FakeSpawner;
pub use handle::Handle;
pub use job::{Job, StartError};
pub use spawner::Spawner;
pub use thread::ThreadSpawner;
