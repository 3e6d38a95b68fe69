//! The lookups of both generations: functions over the store.
#![tactic(auto)]

mod lookup_calls;
mod resolving;

pub use lookup_calls::{drop_lookup, lookup_ready, next_address, resolve};
pub use resolving::{reresolve_host, resolve_host};
