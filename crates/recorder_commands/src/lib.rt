//! The words `record`, `replay` and `draw`, and what is done with them: a script is run and the log
//! of the run is written, a script is run on the answers of such a log, or one is drawn.
#![tactic(auto)]

pub mod draw;
pub mod ended;
pub mod log;
pub mod log_file;
pub mod main_words;
pub mod new_file;
pub mod recording;
pub mod replay;
pub mod report;
pub mod scenario;
pub mod status;
pub mod writing_world;

pub use log::{Unwritten, log_path, write_log};
pub use log_file::{LogFile, NoLogFile, create_log};
pub use main_words::{ReplayDone, replay_main};
pub use new_file::NewFile;
pub use status::RecorderStatus;
pub use writing_world::{Begun, WritingWorld};
