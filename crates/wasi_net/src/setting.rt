//! The options of the system's sockets that are set or read here.

/// An option of a socket of the system.
#[derive(Clone, Copy, Debug, PartialEq, Eq)]
pub enum Setting {
    ReuseAddress,
    Error,
    SendBuffer,
    ReceiveBuffer,
    KeepAlive,
    KeepIdle,
    KeepInterval,
    KeepCount,
    Ttl,
    V6Only,
}
