//! The words `run`, `pump`, `gen` and `gen3`, and what is done with them: a script is run, bytes are
//! pumped, or a generated script is run.
#![tactic(auto)]

pub mod commands;
pub mod program;

pub use commands::Command;
pub use program::{Done, run_main};
