//! The record of a lookup of a host name: what it asks of the network, and the addresses that it
//! hands out.
#![tactic(auto)]

pub mod name_lookup;

pub use name_lookup::{Addresses, Lookup, LookupOp, unresolvable};
