//! Tests on addresses (functions of `wasmtime-wasi`'s `sockets` module), and the wildcard.

ghost use Rattle.std.specs.Prelude.{◌≡◌, ◌↔◌, ◌/◌, ◌%◌, true};
ghost use Rattle.wasi_addr.specs.Address.{canonical, ip_of, port_of, is_deprecated, is_ipv6};
ghost use Rattle.wasi_addr.specs.Address.{is_of_family, is_unspecified, is_remote, is_unicast};
ghost use Rattle.wasi_addr.specs.Address.{is_wildcard, wildcard, same_address};
ghost use Rattle.wasi_addr.specs.declared.address.SocketAddressFamily.{SocketAddressFamily};
ghost use Rattle.wasi_addr.specs.declared.address.IpSocketAddress.{IpSocketAddress};

use crate::address::{
    IpAddress, IpSocketAddress, Ipv4SocketAddress, Ipv6SocketAddress, SocketAddressFamily,
};

impl IpAddress {
    /// An IPv4 address that is mapped into IPv6 becomes IPv4; any other address stays.
    pub fn to_canonical(self) -> IpAddress
        ensures { result ≡ canonical self }
    {
        match self {
            IpAddress::Ipv6((0, 0, 0, 0, 0, 0xffff, high, low)) => {
                let (a, b) = bytes_of(high);
                let (c, d) = bytes_of(low);
                IpAddress::Ipv4((a, b, c, d))
            }
            other => other,
        }
    }
}

impl IpSocketAddress {
    /// The address without its port.
    pub fn ip(self) -> IpAddress
        ensures { result ≡ ip_of self }
    {
        match self {
            IpSocketAddress::Ipv4(v4) => IpAddress::Ipv4(v4.address),
            IpSocketAddress::Ipv6(v6) => IpAddress::Ipv6(v6.address),
        }
    }

    /// The port.
    pub fn port(self) -> u16
        ensures { result ≡ port_of self }
    {
        match self {
            IpSocketAddress::Ipv4(v4) => v4.port,
            IpSocketAddress::Ipv6(v6) => v6.port,
        }
    }
}

/// The two bytes of a segment, the high one first.
fn bytes_of(segment: u16) -> (u8, u8)
    ensures { result ≡ (segment / 256, segment % 256) }
{
    ((segment / 256) as u8, (segment % 256) as u8)
}

/// Whether this is a deprecated IPv4-compatible address: IPv6 with its first six segments 0, and
/// neither `::` nor `::1`.
pub fn is_deprecated_ipv4_compatible(addr: IpAddress) -> bool
    ensures { result ≡ is_deprecated addr }
{
    match addr {
        IpAddress::Ipv6((0, 0, 0, 0, 0, 0, high, low)) => high != 0 || low > 1,
        _ => false,
    }
}

/// Whether a socket of this family may use the address: IPv4 with IPv4; IPv6 with IPv6, unless it
/// stands for an IPv4 address, as the deprecated compatible and the mapped ones do.
pub fn is_valid_address_family(addr: IpAddress, socket_family: SocketAddressFamily) -> bool
    ensures { result ≡ is_of_family addr socket_family }
{
    match (addr, socket_family) {
        (IpAddress::Ipv4(_), SocketAddressFamily::Ipv4) => true,
        (IpAddress::Ipv6(_), SocketAddressFamily::Ipv6) => {
            !is_deprecated_ipv4_compatible(addr) && is_ipv6(addr.to_canonical())
        }
        _ => false,
    }
}

/// Whether one may connect or send to this address: its IP address, in canonical form, isn't all
/// zeros, and its port isn't 0.
pub fn is_valid_remote_address(addr: IpSocketAddress) -> bool
    ensures { result ≡ is_remote addr }
{
    !is_unspecified(addr.ip().to_canonical()) && addr.port() != 0
}

/// Whether this address, in canonical form, is neither multicast nor the IPv4 broadcast address.
pub fn is_valid_unicast_address(addr: IpAddress) -> bool
    ensures { result ≡ is_unicast addr }
{
    match addr.to_canonical() {
        IpAddress::Ipv4((a, b, c, d)) => {
            !(224..=239).contains(&a) && !(a == 255 && b == 255 && c == 255 && d == 255)
        }
        IpAddress::Ipv6((first, _, _, _, _, _, _, _)) => first < 0xff00,
    }
}

/// The wildcard of a family: all zeros, port, flow info and scope too.
pub fn unspecified_addr(family: SocketAddressFamily) -> IpSocketAddress
    ensures { result ≡ wildcard family }
{
    match family {
        SocketAddressFamily::Ipv4 => IpSocketAddress::Ipv4(Ipv4SocketAddress {
            port: 0,
            address: (0, 0, 0, 0),
        }),
        SocketAddressFamily::Ipv6 => IpSocketAddress::Ipv6(Ipv6SocketAddress {
            port: 0,
            flow_info: 0,
            address: (0, 0, 0, 0, 0, 0, 0, 0),
            scope_id: 0,
        }),
    }
}

/// Whether this address is exactly the wildcard of this family: all zeros, port, flow info and
/// scope too.
pub fn is_unspecified_addr(addr: IpSocketAddress, family: SocketAddressFamily) -> bool
    ensures { result ≡ is_wildcard family addr }
{
    match (family, addr) {
        (SocketAddressFamily::Ipv4, IpSocketAddress::Ipv4(v4)) => {
            v4.port == 0 && is_unspecified(IpAddress::Ipv4(v4.address))
        }
        (SocketAddressFamily::Ipv6, IpSocketAddress::Ipv6(v6)) => {
            v6.port == 0
                && v6.flow_info == 0
                && v6.scope_id == 0
                && is_unspecified(IpAddress::Ipv6(v6.address))
        }
        _ => false,
    }
}

/// The tests for a wildcard and for equal addresses are exact.
///
/// - `wildcard`: `is_wildcard` is true of the wildcard of its family and of no other address.
/// - `same`: two addresses pass `same_address` exactly where they are equal.
///
/// It runs no code: its contract is a law about the definitions that contracts cite.
pub fn address_tests_are_exact()
    ensures wildcard { (f : SocketAddressFamily) (a : IpSocketAddress) →
        (is_wildcard f a ≡ true) ↔ (a ≡ wildcard f) }
    ensures same { (a b : IpSocketAddress) → (same_address a b ≡ true) ↔ (a ≡ b) }
{}

fn is_ipv6(addr: IpAddress) -> bool
    ensures { result ≡ is_ipv6 addr }
{
    matches!(addr, IpAddress::Ipv6(_))
}

fn is_unspecified(addr: IpAddress) -> bool
    ensures { result ≡ is_unspecified addr }
{
    matches!(
        addr,
        IpAddress::Ipv4((0, 0, 0, 0)) | IpAddress::Ipv6((0, 0, 0, 0, 0, 0, 0, 0))
    )
}
