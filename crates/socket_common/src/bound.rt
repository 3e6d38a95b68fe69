//! Whether a socket is bound.

ghost use Rattle.std.specs.Prelude.{◌≡◌};
ghost use Rattle.socket_common.specs.Bound.{tells_bound};

use wasi_addr::{ErrorCode, IpSocketAddress, SocketAddressFamily, is_unspecified_addr};

/// Whether the network's answer about a socket's local address says that the socket is bound: it
/// does if it is an address other than the wildcard, and not if it is a code.
pub fn tells_bound(told: Result<IpSocketAddress, ErrorCode>, family: SocketAddressFamily) -> bool
    ensures { result ≡ tells_bound family told }
{
    match told {
        Ok(addr) => !is_unspecified_addr(addr, family),
        Err(_) => false,
    }
}
