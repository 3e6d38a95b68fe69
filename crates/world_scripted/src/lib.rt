//! A network that goes by a plan: the scenario that spells the plan, and the world that answers by
//! it.
#![tactic(auto)]

pub mod arming;
mod defaults;
pub mod lists;
mod queue;
pub mod scenario;
pub mod scripted;
mod sides;

pub use arming::{Arming, code_fits};
pub use lists::Lists;
pub use scenario::ScenarioError;
pub use scripted::ScriptedWorld;
