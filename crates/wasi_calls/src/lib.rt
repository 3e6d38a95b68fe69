//! Does the steps of a script: makes the view for each, and the host's call that it is, and makes the
//! reply of its answer.
#![tactic(auto)]

mod calls;
mod p3_calls;
mod progress;
mod settings;
mod socket_calls;
mod stream_calls;

pub use progress::Progress;
