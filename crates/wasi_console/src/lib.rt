//! What the programs share: the words of their command lines, and what they print on standard error
//! when they stop.
#![tactic(auto)]

mod command_line;
mod files;
mod lines;
mod report;

pub use command_line::command_words;
pub use files::{is_longer, why_unread};
pub use lines::{Front, LineSource, front_in, line_of};
pub use report::{end, end_at_line, end_of_run, end_too_long, end_unread, print};
