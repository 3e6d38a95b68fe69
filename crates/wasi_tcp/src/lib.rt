//! TCP sockets: their states, and operations on them that are polled (`sockets/tcp` of the crate
//! `wasmtime-wasi`).
//!
//! Each call's contract says by one tree what it asks of the world, what it answers and what the
//! socket is then.
#![tactic(auto)]

mod accept;
mod bind;
mod connect;
mod halves;
mod job;
pub mod laws;
mod listen;
mod listener;
mod options;
mod reader;
mod socket;
mod streams;
mod writer;

pub use accept::AcceptOp;
pub use bind::BindOp;
pub use connect::ConnectOp;
pub use halves::{TcpReceiveStream, TcpSendStream};
pub use job::WriteJob;
pub use listen::ListenOp;
pub use listener::{Accepting, TcpListenStream};
pub use options::NonInheritedOptions;
pub use reader::ReadState;
pub use socket::{Connection, TcpSocket, TcpState};
pub use socket_common::{Asker, Setting, largest_value};
pub use wasi_world::Opt;
pub use writer::{WriteError, WriteState};
