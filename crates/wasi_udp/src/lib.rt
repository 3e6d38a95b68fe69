//! UDP sockets, and operations on them that are polled (`sockets/udp` of the crate
//! `wasmtime-wasi`).
//!
//! Each call's contract says by one tree what it asks of the world, what it answers and what the
//! socket is then.
#![tactic(auto)]

mod address;
mod bind;
mod connect;
mod create;
pub mod laws;
mod options;
mod receive;
mod send;
mod socket;

pub use bind::UdpBindOp;
pub use connect::UdpConnectOp;
pub use create::CreateOp;
pub use receive::RecvOp;
pub use send::SendOp;
pub use socket::UdpSocket;
pub use socket_common::{Asker, Setting, largest_value};
pub use wasi_world::Opt;
