//! The looks that a line makes at network sockets, and the world that is waited for before it.
#![tactic(auto)]

pub mod look;
pub mod waits;

pub use look::{Look, Readiness};
pub use waits::WaitsForLooks;
