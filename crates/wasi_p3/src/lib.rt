//! The calls of the 0.3 interface, one function each, over a view of a context, a table and a
//! store: of TCP and UDP sockets those that are never pending, their binds and their connects, the
//! creation of a UDP socket, the listen of a TCP socket with the polls of its listener, the ends of
//! its connection's streams, and the lookup of a host name.
#![tactic(auto)]

mod error;
pub mod ip_name_lookup;
pub mod listening;
mod options;
pub mod streams;
pub mod tcp;
pub mod udp;

pub use error::SocketError;
pub use listening::ListenStreamProducer;
pub use streams::{ReceiveStreamProducer, SendStreamConsumer};
