//! Runs a script of guest calls over one table of handles: cuts it into lines, does each as a step,
//! and answers it by one line.
#![tactic(auto)]

pub mod before;
mod error;
pub mod lines;
pub mod run;

pub use before::{AtOnce, BeforeStep};
pub use error::RunError;
pub use run::{RunEnd, run_script, run_script_with};
