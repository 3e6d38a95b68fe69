//! The host's background work: what a job is, and the list of those that go on.
#![tactic(auto)]

mod ahead;
pub mod job;
pub mod job_list;

pub use job::{HostJob, Listed};
pub use job_list::JobList;
