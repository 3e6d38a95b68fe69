//! The record of a UDP socket: its create, bind and connect, and the datagrams that it sends and
//! receives; what each asks of the network and what the record is afterwards.
#![tactic(auto)]

pub mod datagrams;
mod receiving;
pub mod udp;
pub mod udp_connecting;

pub use datagrams::{Incoming, Outgoing, PendingReceive, PendingSend, Receiving, Sending};
pub use udp::{OpenUdp, PendingCreate, UdpInProgress, UdpRecord};
