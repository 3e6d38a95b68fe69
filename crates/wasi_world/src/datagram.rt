//! Datagrams, as a guest is given and gives them.

ghost use Rattle.std.specs.Prelude.{◌≡◌, length};

use crate::octets::Octets;
use std::marker::Model;
use wasi_addr::IpSocketAddress;

/// A datagram that was received, and who sent it (`incoming-datagram`).
#[derive(Drop)]
pub struct IncomingDatagram {
    pub bytes: Octets,
    pub remote_address: IpSocketAddress,
}

/// A datagram to send, and where to; with no address it goes to the one that its socket is
/// connected to (`outgoing-datagram`).
#[derive(Drop)]
pub struct OutgoingDatagram {
    pub bytes: Octets,
    pub remote_address: Option<IpSocketAddress>,
}

/// Datagrams that were received, in order, which contracts see as a list.
#[derive(Drop)]
pub struct IncomingDatagrams {
    datagrams: Vec<IncomingDatagram>,
}

impl Model for IncomingDatagrams {
    ghost use Rattle.std.specs.Prelude.{List};
    ghost use Rattle.wasi_world.specs.declared.datagram.IncomingDatagram.{IncomingDatagram};

    ghost Value = { List IncomingDatagram };

    ghost view = { λ list. list.datagrams.items };
}

impl IncomingDatagrams {
    /// The datagrams of a vector, in its order. Takes no memory.
    pub fn from_vec(datagrams: Vec<IncomingDatagram>) -> IncomingDatagrams
        ensures { result ≡ datagrams.items }
    {
        IncomingDatagrams { datagrams }
    }

    /// The datagrams as a vector, in order. Takes no memory.
    pub fn into_vec(self) -> Vec<IncomingDatagram>
        ensures { result.items ≡ self }
    {
        self.datagrams
    }

    /// The datagrams, to be read.
    pub fn as_slice(&self) -> &[IncomingDatagram]
        ensures { result.now ≡ self.now }
    {
        self.datagrams.as_slice()
    }
}

/// Datagrams to send, in order, which contracts see as a list.
#[derive(Drop)]
pub struct OutgoingDatagrams {
    datagrams: Vec<OutgoingDatagram>,
}

impl Model for OutgoingDatagrams {
    ghost use Rattle.std.specs.Prelude.{List};
    ghost use Rattle.wasi_world.specs.declared.datagram.OutgoingDatagram.{OutgoingDatagram};

    ghost Value = { List OutgoingDatagram };

    ghost view = { λ list. list.datagrams.items };
}

impl OutgoingDatagrams {
    /// The datagrams of a vector, in its order. Takes no memory.
    pub fn from_vec(datagrams: Vec<OutgoingDatagram>) -> OutgoingDatagrams
        ensures { result ≡ datagrams.items }
    {
        OutgoingDatagrams { datagrams }
    }

    /// The datagrams as a vector, in order. Takes no memory.
    pub fn into_vec(self) -> Vec<OutgoingDatagram>
        ensures { result.items ≡ self }
    {
        self.datagrams
    }

    /// The datagrams, to be read.
    pub fn as_slice(&self) -> &[OutgoingDatagram]
        ensures { result.now ≡ self.now }
    {
        self.datagrams.as_slice()
    }

    /// How many datagrams there are.
    pub fn len(&self) -> usize
        ensures { result ≡ length self.now }
    {
        self.datagrams.len()
    }
}
