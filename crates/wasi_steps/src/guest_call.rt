//! The calls of a guest.

use crate::setting::{TcpSetting, UdpOption, UdpSetting};
use wasi_addr::{IpSocketAddress, ShutdownType, SocketAddressFamily};
use wasi_world::{Handle, NameText, NumberList, Octets, Opt, OutgoingDatagram, OutgoingDatagrams};

/// A call that a guest makes, with its arguments, by its kind.
#[derive(Drop)]
pub enum GuestCall {
    /// TCP sockets.
    Tcp(TcpCall),
    /// UDP sockets and their streams of datagrams.
    Udp(UdpCall),
    /// The network, lookups and errors.
    Names(NameCall),
    /// Streams of bytes.
    Stream(StreamCall),
    /// Pipes and other streams in memory.
    Pipe(PipeCall),
    /// Pollables, and drops of handles.
    Pollable(PollableCall),
    /// TCP sockets of 0.3 and the ends of their streams.
    P3Tcp(P3TcpCall),
    /// UDP sockets of 0.3.
    P3Udp(P3UdpCall),
    /// Lookups of 0.3.
    P3Names(P3NameCall),
}

/// A call of a TCP socket.
#[derive(Drop)]
pub enum TcpCall {
    /// Makes a TCP socket of this family (`create-tcp-socket`).
    Create {
        family: SocketAddressFamily,
    },
    /// Begins to bind the socket to the address (`start-bind`).
    StartBind {
        socket: Handle,
        network: Handle,
        addr: IpSocketAddress,
    },
    /// Ends a bind that was begun (`finish-bind`).
    FinishBind {
        socket: Handle,
    },
    /// Begins to connect the socket to the address (`start-connect`).
    StartConnect {
        socket: Handle,
        network: Handle,
        addr: IpSocketAddress,
    },
    /// Polls a connect that was begun, and makes the two streams of the connection
    /// (`finish-connect`).
    FinishConnect {
        socket: Handle,
    },
    /// Begins to make the socket listen (`start-listen`).
    StartListen {
        socket: Handle,
    },
    /// Ends a listen that was begun (`finish-listen`).
    FinishListen {
        socket: Handle,
    },
    /// Accepts a connection of the listener, and makes its socket and its two streams (`accept`).
    Accept {
        socket: Handle,
    },
    /// The address that the socket is bound to (`local-address`).
    LocalAddress {
        socket: Handle,
    },
    /// The address of the other end of the connection (`remote-address`).
    RemoteAddress {
        socket: Handle,
    },
    /// Whether the socket is listening (`is-listening`).
    IsListening {
        socket: Handle,
    },
    /// The socket's family (`address-family`).
    AddressFamily {
        socket: Handle,
    },
    /// The value of an option of the socket (its getter: `keep-alive-enabled`, and so on).
    Get {
        socket: Handle,
        option: Opt,
    },
    /// Sets an option of the socket, or its backlog (its setter: `set-keep-alive-enabled`, and so
    /// on).
    Set {
        socket: Handle,
        setting: TcpSetting,
    },
    /// Shuts down this half of the connection, or both (`shutdown`).
    Shutdown {
        socket: Handle,
        how: ShutdownType,
    },
}

/// A call of a UDP socket, or of its streams of datagrams.
#[derive(Drop)]
pub enum UdpCall {
    /// Makes a UDP socket of this family (`create-udp-socket`).
    Create {
        family: SocketAddressFamily,
    },
    /// Begins to bind the UDP socket to the address (`start-bind`).
    StartBind {
        socket: Handle,
        network: Handle,
        addr: IpSocketAddress,
    },
    /// Ends a bind of the UDP socket that was begun (`finish-bind`).
    FinishBind {
        socket: Handle,
    },
    /// The address that the UDP socket is bound to (`local-address`).
    LocalAddress {
        socket: Handle,
    },
    /// The one address that the UDP socket sends to and receives from, where there is one
    /// (`remote-address`).
    RemoteAddress {
        socket: Handle,
    },
    /// The UDP socket's family (`address-family`).
    AddressFamily {
        socket: Handle,
    },
    /// The value of an option of the UDP socket (its getter: `unicast-hop-limit`, and so on).
    Get {
        socket: Handle,
        option: UdpOption,
    },
    /// Sets an option of the UDP socket (its setter: `set-unicast-hop-limit`, and so on).
    Set {
        socket: Handle,
        setting: UdpSetting,
    },
    /// Makes the two datagram streams of the UDP socket, which is connected to the address first,
    /// or else disconnected from where it was connected (`udp-socket.stream`).
    Stream {
        socket: Handle,
        remote: Option<IpSocketAddress>,
    },
    /// Receives at most so many datagrams (`incoming-datagram-stream.receive`).
    Receive {
        incoming: Handle,
        max_results: u64,
    },
    /// How many datagrams may be sent (`outgoing-datagram-stream.check-send`).
    CheckSend {
        outgoing: Handle,
    },
    /// Sends the datagrams, of which there are no more than was permitted
    /// (`outgoing-datagram-stream.send`).
    Send {
        outgoing: Handle,
        datagrams: OutgoingDatagrams,
    },
}

/// A call of the network, of a lookup or of an error.
#[derive(Drop)]
pub enum NameCall {
    /// Makes a handle of the network (`instance-network`).
    Network,
    /// Begins to look up the addresses of a host name (`resolve-addresses`).
    Resolve { network: Handle, name: NameText },
    /// Takes the next address that a lookup found (`resolve-next-address`).
    ResolveNext { lookup: Handle },
    /// The network's code in the error of a stream, which is always `none` in 0.2: the code was
    /// returned when the stream failed (`network-error-code`).
    NetworkErrorCode { error: Handle },
}

/// A call of a stream of bytes.
#[derive(Drop)]
pub enum StreamCall {
    /// Reads at most so many bytes (`input-stream.read`).
    Read {
        input: Handle,
        len: u64,
    },
    /// Reads at most so many bytes and gives only how many they were (`input-stream.skip`).
    Skip {
        input: Handle,
        len: u64,
    },
    /// How many bytes may be written (`output-stream.check-write`).
    CheckWrite {
        output: Handle,
    },
    /// Writes the bytes, of which there are no more than was permitted (`output-stream.write`).
    Write {
        output: Handle,
        bytes: Octets,
    },
    /// Writes so many zeroes, of which there are no more than was permitted
    /// (`output-stream.write-zeroes`).
    WriteZeroes {
        output: Handle,
        len: u64,
    },
    /// Reports a kept error of an output; asks nothing (`output-stream.flush`).
    Flush {
        output: Handle,
    },
    /// Writes to the output at most so many bytes that are read from the input
    /// (`output-stream.splice`).
    Splice {
        output: Handle,
        input: Handle,
        len: u64,
    },
    /// Reads at most this many bytes, once there are bytes to read (`input-stream.blocking-read`).
    BlockingRead {
        input: Handle,
        len: u64,
    },
    /// Reads at most this many bytes, once there are bytes to read, and gives only how many they
    /// were (`input-stream.blocking-skip`).
    BlockingSkip {
        input: Handle,
        len: u64,
    },
    /// Writes all the bytes, of which there are at most 4096, as the output permits them, and
    /// flushes it (`output-stream.blocking-write-and-flush`).
    BlockingWrite {
        output: Handle,
        bytes: Octets,
    },
    /// Writes so many zeroes, at most 4096, as the output permits them, and flushes it
    /// (`output-stream.blocking-write-zeroes-and-flush`).
    BlockingZeroes {
        output: Handle,
        len: u64,
    },
    /// Flushes the output, until it permits writes again (`output-stream.blocking-flush`).
    BlockingFlush {
        output: Handle,
    },
    /// Writes to the output at most this many bytes that are read from the input, once the output
    /// permits it and there are bytes to read (`output-stream.blocking-splice`).
    BlockingSplice {
        output: Handle,
        input: Handle,
        len: u64,
    },
}

/// A call of a pipe or of another stream in memory; the host's own.
#[derive(Drop)]
pub enum PipeCall {
    /// Makes an input over the bytes; the host's own, as an embedder's `MemoryInputPipe`.
    In {
        bytes: Octets,
    },
    /// Makes an output that keeps what is written to it; the host's own, as an embedder's
    /// `MemoryOutputPipe`.
    Out {
        /// How many bytes it holds, at most 65536.
        capacity: u32,
    },
    /// What was written to an output that [`PipeCall::Out`] made (`MemoryOutputPipe::contents`).
    Contents {
        output: Handle,
    },
    /// Makes an output that takes all bytes and keeps none; the host's own, as an embedder's
    /// `SinkOutputStream`.
    Sink,
    /// Makes an input that is closed; the host's own, as an embedder's `ClosedInputStream`.
    ClosedIn,
    /// Makes an output that is closed; the host's own, as an embedder's `ClosedOutputStream`.
    ClosedOut,
}

/// A call of a pollable, or the drop of a handle.
#[derive(Drop)]
pub enum PollableCall {
    /// Makes a pollable for what the handle stands for (`subscribe` of the resource).
    Subscribe { handle: Handle },
    /// Whether what the pollable watches is ready (`pollable.ready`).
    Ready { pollable: Handle },
    /// Waits until what the pollable watches is ready (`pollable.block`).
    Block { pollable: Handle },
    /// Waits until what one of the pollables watches is ready (`poll`).
    PollList { pollables: NumberList },
    /// Drops the handle (`resource drop`).
    Drop { handle: Handle },
}

/// A call of a TCP socket of 0.3, or of an end of its streams.
#[derive(Drop)]
pub enum P3TcpCall {
    /// Makes a TCP socket of the 0.3 interface, of this family (`create`).
    Create {
        family: SocketAddressFamily,
    },
    /// Binds the 0.3 socket to an address (`bind`).
    Bind {
        socket: Handle,
        addr: IpSocketAddress,
    },
    /// Connects the 0.3 socket to an address (`connect`).
    Connect {
        socket: Handle,
        addr: IpSocketAddress,
    },
    /// Makes the 0.3 socket listen, and makes its listener (`listen`).
    Listen {
        socket: Handle,
    },
    /// Accepts a connection of the listener; with nothing remaining it is only looked whether one
    /// has come.
    Accept {
        listener: Handle,
        remaining: u64,
    },
    /// The address that the 0.3 socket is bound to (`get-local-address`).
    LocalAddress {
        socket: Handle,
    },
    /// The address of the other end of the 0.3 socket's connection (`get-remote-address`).
    RemoteAddress {
        socket: Handle,
    },
    /// Whether the 0.3 socket is listening (`get-is-listening`).
    IsListening {
        socket: Handle,
    },
    /// The 0.3 socket's family (`get-address-family`).
    AddressFamily {
        socket: Handle,
    },
    /// The value of an option of the 0.3 socket (its getter: `get-keep-alive-enabled`, and so on).
    Get {
        socket: Handle,
        option: Opt,
    },
    /// Sets an option of the 0.3 socket, or its backlog (its setter: `set-keep-alive-enabled`, and
    /// so on).
    Set {
        socket: Handle,
        setting: TcpSetting,
    },
    /// Makes the write end of the 0.3 socket's connection, and its result slot (`send`).
    Send {
        socket: Handle,
    },
    /// Writes bytes by the write end.
    Write {
        end: Handle,
        bytes: Octets,
    },
    /// Makes the read end of the 0.3 socket's connection, and its result slot (`receive`).
    Receive {
        socket: Handle,
    },
    /// Reads at most this many bytes by the read end.
    Read {
        end: Handle,
        len: u64,
    },
    /// Takes the result out of the slot, once its end is closed.
    Result {
        slot: Handle,
    },
}

/// A call of a UDP socket of 0.3.
#[derive(Drop)]
pub enum P3UdpCall {
    /// Makes a UDP socket of the 0.3 interface, of this family (`create`).
    Create {
        family: SocketAddressFamily,
    },
    /// Binds the 0.3 UDP socket to an address (`bind`).
    Bind {
        socket: Handle,
        addr: IpSocketAddress,
    },
    /// Connects the 0.3 UDP socket to an address (`connect`).
    Connect {
        socket: Handle,
        addr: IpSocketAddress,
    },
    /// Takes the 0.3 UDP socket's remote address away (`disconnect`).
    Disconnect {
        socket: Handle,
    },
    /// Sends a datagram on the 0.3 UDP socket (`send`).
    Send {
        socket: Handle,
        datagram: OutgoingDatagram,
    },
    /// Receives a datagram on the 0.3 UDP socket (`receive`).
    Receive {
        socket: Handle,
    },
    /// The address that the 0.3 UDP socket is bound to (`get-local-address`).
    LocalAddress {
        socket: Handle,
    },
    /// The address that the 0.3 UDP socket is connected to (`get-remote-address`).
    RemoteAddress {
        socket: Handle,
    },
    /// The 0.3 UDP socket's family (`get-address-family`).
    AddressFamily {
        socket: Handle,
    },
    /// The value of an option of the 0.3 UDP socket (its getter: `get-unicast-hop-limit`, and so
    /// on).
    Get {
        socket: Handle,
        option: UdpOption,
    },
    /// Sets an option of the 0.3 UDP socket (its setter: `set-unicast-hop-limit`, and so on).
    Set {
        socket: Handle,
        setting: UdpSetting,
    },
}

/// A lookup of 0.3.
#[derive(Drop)]
pub enum P3NameCall {
    /// Looks up a host name (`resolve-addresses` of 0.3).
    Resolve { name: NameText },
}
