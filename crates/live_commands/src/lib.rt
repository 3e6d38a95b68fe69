//! The words of `kaxtubor live`, and its runs: a script over the system's sockets, also under rules
//! or recorded.
#![tactic(auto)]

pub mod command;
pub mod hosts;
pub mod options;
pub mod recorded;
pub mod ruled;
pub mod script;
pub mod waits_before;

pub use command::{Command, command_in, limit_in};
pub use hosts::{NoHosts, read_hosts};
pub use options::{Options, options_in};
pub use recorded::{Recorded, run_recorded, run_recorded_under};
pub use ruled::run_ruled;
pub use script::{Network, Setup, allowed, every_port, patience, run_live};
