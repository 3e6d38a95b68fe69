//! What several programs share: how they end, what they do with `--help` and `--version`, where
//! their scenario is, and how it and other inputs are read.
#![tactic(auto)]

pub mod choices;
pub mod reading;
pub mod scenario;
pub mod status;

pub use choices::{Choice, ShownLine, choice_in, scenario_path, shown_line};
pub use status::Status;
