//! `run_script` with the laws of runs in its contract.
#![tactic(auto)]

pub mod run;

pub use run::run_by_laws;
