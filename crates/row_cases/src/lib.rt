//! A case of the programs `library_rows` and `command_rows`: what stands in their `stdin`.
#![tactic(auto)]

pub mod case;

pub use case::{Case, Stream, Tried, Tries, number, short_number};
