//! The machine that does steps. Its definition is in specs/; here are the replies of its calls.
#![tactic(auto)]

pub mod replies;
