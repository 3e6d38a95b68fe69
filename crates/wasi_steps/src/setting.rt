//! The options that a step names, and what a `tcp-set` and a `udp-set` set.

use socket_common::Setting;

/// What a `tcp-set` sets (the setters of `tcp-socket` in `wasi:sockets/tcp`).
#[derive(Clone, Copy, Debug, PartialEq, Eq)]
pub enum TcpSetting {
    /// An option, to a value of its own width.
    Option(Setting),
    /// How many connections may wait to be accepted (`set-listen-backlog-size`).
    ListenBacklogSize(u64),
}

/// An option of a UDP socket (the getters of `udp-socket` in `wasi:sockets/udp`).
#[derive(Clone, Copy, Debug, PartialEq, Eq)]
pub enum UdpOption {
    /// How many hops a packet lives (`unicast-hop-limit`).
    HopLimit,
    /// The size of the buffer for what comes in, in bytes (`receive-buffer-size`).
    ReceiveBufferSize,
    /// The size of the buffer for what goes out, in bytes (`send-buffer-size`).
    SendBufferSize,
}

/// What a `udp-set` sets: an option of the socket, to a value of its own width (the setters of
/// `udp-socket` in `wasi:sockets/udp`).
#[derive(Clone, Copy, Debug, PartialEq, Eq)]
pub enum UdpSetting {
    /// How many hops a packet lives (`set-unicast-hop-limit`).
    HopLimit(u8),
    /// The size of the buffer for what comes in, in bytes (`set-receive-buffer-size`).
    ReceiveBufferSize(u64),
    /// The size of the buffer for what goes out, in bytes (`set-send-buffer-size`).
    SendBufferSize(u64),
}
