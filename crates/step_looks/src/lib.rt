//! Which looks at the network a step will make, from the state that it finds alone.
#![tactic(auto)]

mod calls;
mod jobs;
pub mod outlook;
mod records;
pub mod steps;

pub use outlook::Outlook;
pub use steps::{first_outlook, step_looks, waits_inside};
