//! The law on two runs whose contexts differ in the limit of one.
#![tactic(auto)]

pub mod laws;
