//! The address types, which both generations of the interface share.

/// The family of a socket (`ip-address-family` of `wasi:sockets/network`).
#[derive(Clone, Copy, Debug, PartialEq, Eq)]
pub enum SocketAddressFamily {
    Ipv4,
    Ipv6,
}

/// An IP address: four bytes, or eight segments of 16 bits (`ip-address`).
#[derive(Clone, Copy, Debug, PartialEq, Eq)]
pub enum IpAddress {
    Ipv4((u8, u8, u8, u8)),
    Ipv6((u16, u16, u16, u16, u16, u16, u16, u16)),
}

/// An IPv4 address with a port (`ipv4-socket-address`).
#[derive(Clone, Copy, Debug, PartialEq, Eq)]
pub struct Ipv4SocketAddress {
    pub port: u16,
    pub address: (u8, u8, u8, u8),
}

/// An IPv6 address with a port, flow info and scope (`ipv6-socket-address`).
#[derive(Clone, Copy, Debug, PartialEq, Eq)]
pub struct Ipv6SocketAddress {
    pub port: u16,
    pub flow_info: u32,
    pub address: (u16, u16, u16, u16, u16, u16, u16, u16),
    pub scope_id: u32,
}

/// An address with a port, of either family (`ip-socket-address`).
#[derive(Clone, Copy, Debug, PartialEq, Eq)]
pub enum IpSocketAddress {
    Ipv4(Ipv4SocketAddress),
    Ipv6(Ipv6SocketAddress),
}

/// What an address is about to be used for; the embedder's check is told it (`SocketAddrUse` of
/// `wasmtime-wasi`).
#[derive(Clone, Copy, Debug, PartialEq, Eq)]
pub enum SocketAddrUse {
    TcpBind,
    TcpListen,
    TcpAccept,
    TcpConnect,
    UdpBind,
    UdpSend,
    UdpReceive,
}

/// Which half of a connection is shut down (`shutdown-type`).
#[derive(Clone, Copy, Debug, PartialEq, Eq)]
pub enum ShutdownType {
    Receive,
    Send,
    Both,
}
