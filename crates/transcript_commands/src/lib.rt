//! What `kaxtubor check-streams`, `check-replays` and `check-all` do with a file of transcripts:
//! its scripts are run over streams that fail, and run again on their logs.
#![tactic(auto)]

pub mod also;
pub mod replays;
pub mod streams;
pub mod tried;

pub use also::{Also, NOTHING_ELSE, also_in};
pub use replays::{Replays, replay_text};
pub use streams::Failed;
pub use tried::{Tried, try_text};
