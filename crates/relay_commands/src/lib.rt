//! The words of `kaxtubor relay`, and what it does with them: it relays connections over the
//! network that a scenario plans, or over this machine's own.
#![tactic(auto)]

pub mod live;
pub mod main_words;
pub mod pair_lines;
pub mod progress;
pub mod report;
pub mod scripted;
pub mod status;
pub mod words;

pub use live::{LiveEnd, relay_live};
pub use main_words::{RelayMain, relay_main};
pub use status::RelayStatus;
pub use words::live_in;
