//! What `kaxtubor policy` does with its words.
#![tactic(auto)]

pub mod main_words;
pub mod report;
pub mod rules;
pub mod rules_text;
pub mod run;
pub mod status;

pub use main_words::{PolicyDone, policy_main};
pub use rules::{FoundRules, read_rules};
pub use rules_text::RulesText;
pub use status::PolicyStatus;
