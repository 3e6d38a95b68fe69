//! What TCP and UDP sockets have in common: who asks, polls in rounds, whether a socket is bound,
//! and the options of its network socket (`sockets/util` of the crate `wasmtime-wasi`).
#![tactic(auto)]

mod asker;
mod bound;
mod options;
mod rounds;
mod setting;

pub use asker::Asker;
pub use bound::tells_bound;
pub use options::{get_of_side, largest_value, set_of_side};
pub use rounds::{InRounds, poll_rounds};
pub use setting::Setting;
pub use wasi_world::Opt;
