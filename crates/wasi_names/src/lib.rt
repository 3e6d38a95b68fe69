//! What a host name that a guest gives is: an address, or a domain that is to be looked up.
#![tactic(auto)]

mod bytes;
mod host;
pub mod name;

pub use name::{HostName, host_for, read_name, read_name_bytes};
