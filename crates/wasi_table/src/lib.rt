//! The table of handles: what a guest holds by number, and what is a child of what.
#![tactic(auto)]

pub mod handles;
pub mod slot;
pub mod table;

pub use handles::Handles;
pub use slot::Slot;
pub use table::{Table, TableError};
