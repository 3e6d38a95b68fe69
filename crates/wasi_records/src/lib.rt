//! The records that handles name: TCP and UDP sockets, lookups, pipes and result slots, the list of
//! them by number, how one is found in it, and how all are closed at the end.
#![tactic(auto)]

pub mod accepted;
pub mod closing;
pub mod record_list;
pub mod records;
mod totals;

pub use accepted::keep_accepted;
pub use closing::close_sides;
pub use record_list::{RecordId, RecordList, SlotKey};
pub use records::{Record, Stored, find, find_mut, find_mut_in};
