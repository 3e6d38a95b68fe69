//! What a relay is asked for.

ghost use Rattle.std.specs.Prelude.{◌≡◌};
ghost use Rattle.wasi_relay.specs.Order.{family_of};

use wasi_addr::{IpSocketAddress, SocketAddressFamily};

/// What a relay is asked for.
#[derive(Clone, Copy, Debug, PartialEq, Eq)]
pub struct Order {
    /// The address that it listens on.
    pub listen: IpSocketAddress,
    /// The address that each arrival is connected to.
    pub target: IpSocketAddress,
    /// How many arrivals it takes.
    pub connections: u32,
    /// How many turns it makes at most.
    pub turns: u32,
}

impl Order {
    /// More turns than a session has steps for: the relay ends when all arrivals are over, or when
    /// no number is left for a step, `StepError::TooMany`.
    pub const ENDLESS: u32 = u32::MAX;
}

/// The family of an address.
pub(crate) fn family_of(addr: IpSocketAddress) -> SocketAddressFamily
    ensures { result ≡ family_of addr }
{
    match addr {
        IpSocketAddress::Ipv4(_) => SocketAddressFamily::Ipv4,
        IpSocketAddress::Ipv6(_) => SocketAddressFamily::Ipv6,
    }
}
