//! Rules that decide which addresses sockets may use: their grammar, the decision by the first rule
//! that matches, and a world that answers address checks by them.
#![tactic(auto)]

pub mod cells;
pub mod covering;
pub mod decide;
pub mod deciding;
pub mod denied;
pub mod explain;
pub mod findings;
pub mod grammar;
pub mod index;
pub mod node;
pub mod nodes;
pub mod overlap;
pub mod parse;
pub mod points;
pub mod policy;
pub mod reach;
pub mod rule;
pub mod world;

pub use denied::Denied;
pub use findings::Conflicts;
pub use grammar::rules_are_read_exactly;
pub use parse::RulesError;
pub use policy::Policy;
pub use rule::{Action, Decision, Explanation, Net, Rule};
pub use world::{PolicyWorld, Rules};
