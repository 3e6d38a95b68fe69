//! What is read from addresses.

ghost use Rattle.std.specs.Prelude.{◌≡◌};
ghost use Rattle.wasi_addr.specs.Address.{same_address};
ghost use Rattle.wasi_world.specs.Operation.{remote_told};

use wasi_addr::{ErrorCode, IpSocketAddress, SocketAddressFamily, is_unspecified_addr};

/// The remote address to keep for what the network reports: `None` for a code, or the wildcard.
pub(crate) fn remote_told(
    told: Result<IpSocketAddress, ErrorCode>,
    family: SocketAddressFamily,
) -> Option<IpSocketAddress>
    ensures { result ≡ remote_told family told }
{
    match told {
        Ok(addr) => {
            if is_unspecified_addr(addr, family) {
                None
            } else {
                Some(addr)
            }
        }
        Err(_) => None,
    }
}

/// Whether two addresses are equal: IP address, port, flow info and scope.
pub(crate) fn same_address(a: IpSocketAddress, b: IpSocketAddress) -> bool
    ensures { result ≡ same_address a b }
{
    a == b
}
