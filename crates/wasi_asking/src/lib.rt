//! Checks that are decided by rules, and where no rule matches by the embedder, who is asked and
//! answers later.
#![tactic(auto)]

pub mod asking;
pub mod asks;

pub use asking::AskingWorld;
pub use asks::{Ask, Asks, Question, Verdict};
