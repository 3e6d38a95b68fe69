//! A look at a network socket.

use wasi_world::Sock;

/// What a network socket may be ready for.
#[derive(Clone, Copy, Debug, PartialEq, Eq)]
pub enum Readiness {
    /// Bytes, a datagram or an arrival.
    Read,
    /// Room for bytes or a datagram, or the end of a connect.
    Write,
}

/// A look at a network socket: whether it is ready so.
#[derive(Clone, Copy, Debug, PartialEq, Eq)]
pub struct Look {
    pub sock: Sock,
    pub readiness: Readiness,
}
