//! Runs a script again on the answers of a recorded log, whole or cut, and tells whether it asks the
//! same.
#![tactic(auto)]

pub mod front;
pub mod laws;
pub mod replaying;

pub use front::{FrontEnd, replay_front};
pub use laws::replays_do_not_differ;
pub use replaying::{ReplayEnd, replay};
