//! Transcripts of scripts: each line of a script, beneath it the calls that it made on the network,
//! and its reply; files of transcripts that are run again and compared; and scripts that are run
//! again for each call of their network, with a fault at that call.
#![tactic(auto)]

pub mod cases;
pub mod check;
mod exchange;
pub mod fault_report;
pub mod faults;
pub mod laws;
pub mod lines;
pub mod program;
mod report;
pub mod show;
pub mod survey;

pub use cases::Case;
pub use check::{Came, Checked};
pub use faults::{FaultRun, run_with_fault};
pub use lines::{LineReader, NextLine};
pub use show::show_script;
