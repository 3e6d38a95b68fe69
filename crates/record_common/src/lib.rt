//! What the crates of records share: how their calls end, the names of a line's operations, and the
//! network sockets that a log made and closed.
#![tactic(auto)]

pub mod error;

pub use error::SocketError;
