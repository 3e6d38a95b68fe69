//! The record of a TCP socket: its bind, connect and listen, its two streams, what each asks of the
//! network and what the record is afterwards, and the result slots of its streams.
#![tactic(auto)]

pub mod ends;
mod halves;
mod holding;
mod readiness;
mod releasing;
pub mod slot;
pub mod socket;
pub mod tcp_binding;
pub mod tcp_listening;

pub use slot::{Slot, StreamResult};
pub use socket::{Streams, TcpRecord};
pub use tcp_binding::{AsyncOperation, InProgress};
pub use tcp_listening::Listening;
