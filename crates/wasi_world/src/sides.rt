//! What a world that goes by a plan knows of a network socket: what the defaults of `local`, `peer`
//! and `get-option` go by.

use wasi_addr::{IpSocketAddress, SocketAddressFamily};

/// The value of each option of a network socket.
#[derive(Clone, Copy)]
pub struct Options {
    pub keep_alive_enabled: u64,
    pub keep_alive_idle_time: u64,
    pub keep_alive_interval: u64,
    pub keep_alive_count: u64,
    pub hop_limit: u64,
    pub receive_buffer_size: u64,
    pub send_buffer_size: u64,
}

/// A network socket: its family, the address that it is bound to, its peer, and its options.
#[derive(Clone, Copy)]
pub struct Side {
    pub family: SocketAddressFamily,
    pub local: Option<IpSocketAddress>,
    pub peer: Option<IpSocketAddress>,
    pub options: Options,
}
