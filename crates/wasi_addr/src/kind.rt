//! The kinds of system fault that a network call may meet.

/// What a fault of the system was. A call over the real system reports it, and each generation's
/// code enum has a `from_kind` (the arms on `io::ErrorKind` in the `From` impls of
/// `wasmtime-wasi`'s codes).
#[derive(Clone, Copy, Debug, PartialEq, Eq)]
pub enum NetKind {
    AddrInUse,
    AddrNotAvailable,
    ConnectionAborted,
    ConnectionRefused,
    ConnectionReset,
    Interrupted,
    InvalidInput,
    NotConnected,
    OutOfMemory,
    PermissionDenied,
    TimedOut,
    Unsupported,
    WouldBlock,
    HostUnreachable,
    NetworkUnreachable,
    NetworkDown,
    BrokenPipe,
    /// Any other kind.
    Unlisted,
}
