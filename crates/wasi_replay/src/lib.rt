//! Recorded runs: the text of a log, how it is written and how it is read, which answers fit which
//! call, a world that answers from a log, and one that notes what is asked of another.
#![tactic(auto)]

pub mod call;
pub mod cut;
pub mod entry;
pub mod fields;
pub mod laws;
pub mod line;
pub mod parse;
pub mod recording_world;
pub mod replay_world;
pub mod same;
pub mod text;
pub mod told;

pub use cut::parse_cut_log;
pub use entry::fits;
pub use laws::{cut_logs_are_read, logs_are_read_exactly};
pub use parse::{LogError, MOST_BYTES, parse_log};
pub use recording_world::RecordingWorld;
pub use replay_world::{Recorded, ReplayWorld};
pub use text::{contexts_text, entries_text, log_text};
