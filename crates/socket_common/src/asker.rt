//! Who asks.

use wasi_world::{OpId, Sock};

/// Who asks: the name of an operation, the network socket that it works on, and the number of the
/// context that created that socket, which its checks name.
#[derive(Clone, Copy, Debug, PartialEq, Eq)]
pub struct Asker {
    pub op: OpId,
    pub side: Sock,
    pub maker: u32,
}
