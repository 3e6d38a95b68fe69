//! Scripts that are drawn from a seed, and what their runs counted.
#![tactic(auto)]

pub mod counts;
pub mod drawn;
pub mod generate;
mod text_source;

pub use counts::Counts;
