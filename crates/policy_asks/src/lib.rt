//! Answers questions about rules: what they decide of a use of an address, and which rule decided;
//! and says which rules are odd.
#![tactic(auto)]

pub mod answer;
pub mod asking;
pub mod findings;
pub mod question;
pub mod read;

pub use answer::Form;
pub use asking::{AskError, ask};
pub use findings::check;
pub use question::Question;
