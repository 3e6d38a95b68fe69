//! What needs all of the host: drops of handles, pollables, the turn of jobs, and pending calls.
#![tactic(auto)]

mod cancelling;
mod dropping;
mod jobs;
pub mod pending;
mod pollables;
pub mod polling;

pub use cancelling::cancel;
pub use dropping::drop_handle;
pub use jobs::turn;
pub use pending::{Outcome, resume};
pub use pollables::{ready, subscribe};
pub use polling::{block, poll};
