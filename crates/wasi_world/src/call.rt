//! What is asked of a world, and what it answers.

ghost use Rattle.std.specs.Prelude.{◌≡◌, IfOk};

use crate::ids::{OpId, Sock};
use crate::octets::{IpList, NameText, Octets};
use std::alloc::AllocError;
use wasi_addr::{ErrorCode, IpSocketAddress, ShutdownType, SocketAddrUse, SocketAddressFamily};

/// A socket option, with the unit of its value.
#[derive(Clone, Copy, Debug, PartialEq, Eq)]
pub enum Opt {
    /// Whether keep-alive probes are sent: 0 is no, 1 is yes.
    KeepAliveEnabled,
    /// How long a connection is idle before the first probe, in nanoseconds.
    KeepAliveIdleTime,
    /// The time between probes, in nanoseconds.
    KeepAliveInterval,
    /// How many probes are sent before the connection is given up.
    KeepAliveCount,
    /// How many hops a packet may take.
    HopLimit,
    /// The size of the receive buffer, in bytes.
    ReceiveBufferSize,
    /// The size of the send buffer, in bytes.
    SendBufferSize,
}

/// What kind of resource a handle stands for. The six kinds whose names end in 3 are of 0.3.
#[derive(Clone, Copy, Debug, PartialEq, Eq)]
pub enum HandleKind {
    /// `network`.
    Network,
    /// `tcp-socket`.
    Tcp2,
    /// `udp-socket`.
    Udp2,
    /// `input-stream`.
    Input,
    /// `output-stream`.
    Output,
    /// `incoming-datagram-stream`.
    Incoming,
    /// `outgoing-datagram-stream`.
    Outgoing,
    /// `pollable`.
    Pollable,
    /// `resolve-address-stream`.
    Lookup,
    /// `error` of `wasi:io`.
    ErrorValue,
    Tcp3,
    Udp3,
    Listen3,
    Receive3,
    Send3,
    Result3,
}

/// One call of a world. One that is answered pending is made again, with equal arguments, at the
/// next poll of its operation.
#[derive(Drop)]
pub enum Call {
    /// Asks the embedder's check.
    Check {
        ctx: u32,
        addr: IpSocketAddress,
        usage: SocketAddrUse,
    },
    /// Looks up the IP addresses of a host name.
    Lookup {
        host: NameText,
    },
    /// Creates a TCP socket, which has the name of this operation.
    TcpCreate {
        ctx: u32,
        family: SocketAddressFamily,
    },
    /// Creates a UDP socket, which has the name of this operation.
    UdpCreate {
        ctx: u32,
        family: SocketAddressFamily,
    },
    /// Whether a UDP socket can send now.
    UdpWritable {
        sock: Sock,
    },
    /// Reads the local address.
    Local {
        sock: Sock,
    },
    /// Reads the remote address.
    Peer {
        sock: Sock,
    },
    /// Binds a TCP socket.
    Bind {
        sock: Sock,
        addr: IpSocketAddress,
    },
    /// Binds a UDP socket.
    UdpBind {
        sock: Sock,
        addr: IpSocketAddress,
    },
    /// Connects a UDP socket.
    UdpConnect {
        sock: Sock,
        addr: IpSocketAddress,
    },
    /// Makes a TCP socket listen.
    Listen {
        sock: Sock,
        backlog: u32,
    },
    /// Sets the backlog of a listener.
    SetBacklog {
        sock: Sock,
        backlog: u32,
    },
    /// Connects a TCP socket.
    Connect {
        sock: Sock,
        addr: IpSocketAddress,
    },
    /// Takes the next arrival of a listener.
    Accept {
        sock: Sock,
    },
    /// Hands over the connection that arrived at the listener `sock`; it has the name of this
    /// operation.
    Hand {
        sock: Sock,
        peer: IpSocketAddress,
    },
    /// Closes the connection that arrived at the listener `sock`.
    Refuse {
        sock: Sock,
        peer: IpSocketAddress,
    },
    /// Reads at most `size` bytes.
    Read {
        sock: Sock,
        size: u32,
    },
    /// Whether a read would be answered now.
    ReadReady {
        sock: Sock,
    },
    /// Whether a write would be answered now.
    WriteReady {
        sock: Sock,
    },
    /// Offers bytes, of which the log keeps the number alone; made by [`crate::World::write`].
    Write {
        sock: Sock,
        offered: u32,
    },
    /// Shuts down one half of a connection, never both.
    Shutdown {
        sock: Sock,
        how: ShutdownType,
    },
    /// Takes its remote address from a UDP socket.
    UdpDisconnect {
        sock: Sock,
    },
    /// Sends one datagram; made by [`crate::World::send`].
    Send {
        sock: Sock,
        addr: IpSocketAddress,
        bytes: Octets,
    },
    /// Receives one datagram.
    Recv {
        sock: Sock,
    },
    /// Reads an option.
    GetOption {
        sock: Sock,
        option: Opt,
    },
    /// Sets an option.
    SetOption {
        sock: Sock,
        option: Opt,
        value: u64,
    },
    /// Closes a socket.
    Close {
        sock: Sock,
    },
    /// Logs that a handle was made: its kind, the handle that it is a child of, and its socket.
    Made {
        handle: u32,
        kind: HandleKind,
        parent: Option<u32>,
        sock: Option<Sock>,
    },
}

/// What a world answers. Which answers fit which call is `Fits` in specs/.
#[derive(Drop)]
pub enum Told {
    /// No answer yet.
    Pending,
    /// The call is done, with no value.
    Done,
    /// The check allows it.
    Yes,
    /// The check denies it.
    No,
    /// The call failed with this code.
    Code(ErrorCode),
    /// A local or a remote address.
    Addr(IpSocketAddress),
    /// The peer of an arrival at a listener.
    Arrived(IpSocketAddress),
    /// What a read gave; none is the end.
    Bytes(Octets),
    /// What a write took, from the front of what was offered.
    Took(Octets),
    /// A datagram that was received, and its sender.
    Datagram(Octets, IpSocketAddress),
    /// The value of an option.
    Value(u64),
    /// The addresses of a host name.
    Names(IpList),
}

impl Told {
    /// A copy. Takes memory where the answer holds bytes or names.
    pub fn try_clone(&self) -> Result<Told, AllocError>
        ensures { IfOk result (λ told. told ≡ self.now) }
    {
        match self {
            Told::Pending => Ok(Told::Pending),
            Told::Done => Ok(Told::Done),
            Told::Yes => Ok(Told::Yes),
            Told::No => Ok(Told::No),
            Told::Code(code) => Ok(Told::Code(*code)),
            Told::Addr(addr) => Ok(Told::Addr(*addr)),
            Told::Arrived(addr) => Ok(Told::Arrived(*addr)),
            Told::Bytes(bytes) => {
                let copy = bytes.try_clone()?;
                Ok(Told::Bytes(copy))
            }
            Told::Took(bytes) => {
                let copy = bytes.try_clone()?;
                Ok(Told::Took(copy))
            }
            Told::Datagram(bytes, addr) => {
                let copy = bytes.try_clone()?;
                Ok(Told::Datagram(copy, *addr))
            }
            Told::Value(value) => Ok(Told::Value(*value)),
            Told::Names(names) => {
                let copy = names.try_clone()?;
                Ok(Told::Names(copy))
            }
        }
    }
}

/// One call of the log: who asked, what, and what was answered.
#[derive(Drop)]
pub struct Entry {
    pub op: OpId,
    pub call: Call,
    pub answer: Told,
}
