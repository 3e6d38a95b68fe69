//! What handles stand for.

ghost use Rattle.std.specs.Prelude.{◌≡◌};
ghost use Rattle.host_store.specs.Kinds.{name_of, table_parent, udp_kind};

use wasi_records::RecordId;
use wasi_world::{Handle, HandleKind};

/// An end of a stream of a 0.3 connection. It is open while its half is in the record of its socket.
#[derive(Clone, Copy, Debug, PartialEq, Eq)]
pub struct ConnectionEnd {
    /// The record number of its socket; `None` where its half couldn't be taken, so that it is
    /// closed.
    pub socket: Option<RecordId>,
    /// The record number of its result slot, which may be dropped before it.
    pub slot: RecordId,
}

/// What a pollable watches, with a record number.
#[derive(Clone, Copy, Debug, PartialEq, Eq)]
pub enum Watched {
    /// The connect of a TCP socket in progress, or the accept of a listener.
    Socket(RecordId),
    /// Whether there is something to read from a connection.
    Input(RecordId),
    /// Whether something may be written to a connection.
    Output(RecordId),
    /// A UDP socket, which is always ready.
    Udp(RecordId),
    /// Whether a datagram has come.
    Incoming(RecordId),
    /// Whether a datagram may be sent.
    Outgoing(RecordId),
    /// Whether a lookup has ended.
    Lookup(RecordId),
    /// A stream in memory, which is always ready.
    Plain,
}

/// What an input in memory reads from.
#[derive(Clone, Copy, Debug, PartialEq, Eq)]
pub enum PlainInput {
    /// The pipe with this record number.
    Pipe(RecordId),
    /// Nothing: it is closed.
    Closed,
}

/// What an output in memory writes to.
#[derive(Clone, Copy, Debug, PartialEq, Eq)]
pub enum PlainOutput {
    /// The pipe with this record number.
    Pipe(RecordId),
    /// A sink, which takes everything and keeps none of it.
    Sink,
    /// Nothing: it is closed.
    Closed,
}

/// The two interfaces of a guest.
#[derive(Clone, Copy, Debug, PartialEq, Eq)]
pub enum Interface {
    /// 0.2.
    P2,
    /// 0.3.
    P3,
}

impl Interface {
    /// What the handle of a UDP socket stands for.
    pub fn udp_kind(self, place: RecordId) -> Kind
        ensures { result ≡ udp_kind self place }
    {
        match self {
            Interface::P2 => Kind::Udp2(place),
            Interface::P3 => Kind::Udp3(place),
        }
    }
}

/// What a handle stands for, with the number of its record in the store.
#[derive(Clone, Copy, Debug, PartialEq, Eq)]
pub enum Kind {
    /// The network.
    Network,
    /// A TCP socket of the 0.2 interface.
    Tcp2(RecordId),
    /// A UDP socket of the 0.2 interface.
    Udp2(RecordId),
    /// The input of a connection, with the number of its socket's record.
    Input(RecordId),
    /// The output of a connection, with the number of its socket's record.
    Output(RecordId),
    /// An input in memory: a pipe, or a closed one.
    PlainInput(PlainInput),
    /// An output in memory: a pipe, a sink, or a closed one.
    PlainOutput(PlainOutput),
    /// The incoming datagram stream of a UDP socket, with the number of its record.
    Incoming(RecordId),
    /// The outgoing datagram stream of a UDP socket, with the number of its record.
    Outgoing(RecordId),
    /// A pollable, with what it watches.
    Pollable(Watched),
    /// A lookup of a host name, with the number of its record.
    Lookup(RecordId),
    /// The error of a stream's operation.
    ErrorValue,
    /// A TCP socket of the 0.3 interface.
    Tcp3(RecordId),
    /// A UDP socket of the 0.3 interface.
    Udp3(RecordId),
    /// The listener of a TCP socket of the 0.3 interface, with the number of its socket's record.
    Listen3(RecordId),
    /// The read end of a connection of 0.3.
    Receive3(ConnectionEnd),
    /// The write end of a connection of 0.3.
    Send3(ConnectionEnd),
    /// The result slot of such an end, with the number of its record.
    Result3(RecordId),
}

impl Kind {
    /// The kind that the log has for it.
    pub fn name(self) -> HandleKind
        ensures { result ≡ name_of self }
    {
        match self {
            Kind::Network => HandleKind::Network,
            Kind::Tcp2(_) => HandleKind::Tcp2,
            Kind::Udp2(_) => HandleKind::Udp2,
            Kind::Input(_) | Kind::PlainInput(_) => HandleKind::Input,
            Kind::Output(_) | Kind::PlainOutput(_) => HandleKind::Output,
            Kind::Incoming(_) => HandleKind::Incoming,
            Kind::Outgoing(_) => HandleKind::Outgoing,
            Kind::Pollable(_) => HandleKind::Pollable,
            Kind::Lookup(_) => HandleKind::Lookup,
            Kind::ErrorValue => HandleKind::ErrorValue,
            Kind::Tcp3(_) => HandleKind::Tcp3,
            Kind::Udp3(_) => HandleKind::Udp3,
            Kind::Listen3(_) => HandleKind::Listen3,
            Kind::Receive3(_) => HandleKind::Receive3,
            Kind::Send3(_) => HandleKind::Send3,
            Kind::Result3(_) => HandleKind::Result3,
        }
    }

    /// The parent in the table of a handle that the log gives this parent: a pollable is a child of
    /// what it watches, and the streams of a socket are its children. The parent of an error and
    /// that of a lookup are in the log alone, and a pipe has none.
    pub fn table_parent(self, parent: Option<Handle>) -> Option<Handle>
        ensures { result ≡ table_parent self parent }
    {
        match self {
            Kind::Input(_)
            | Kind::Output(_)
            | Kind::Incoming(_)
            | Kind::Outgoing(_)
            | Kind::Pollable(_) => parent,
            Kind::Network
            | Kind::Tcp2(_)
            | Kind::Udp2(_)
            | Kind::PlainInput(_)
            | Kind::PlainOutput(_)
            | Kind::Lookup(_)
            | Kind::ErrorValue
            | Kind::Tcp3(_)
            | Kind::Udp3(_)
            | Kind::Listen3(_) => None,
            | Kind::Receive3(_) | Kind::Send3(_) | Kind::Result3(_) => None,
        }
    }
}
