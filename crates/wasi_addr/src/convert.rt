//! Conversions between the interface's addresses and std's (the `From` and `ToSocketAddrs` impls of
//! `wasmtime-wasi`'s address types).

ghost use Rattle.std.specs.Prelude.{◌≡◌};
ghost use Rattle.std.specs.Net.Addr.{IsIpv4Addr, IsIpv6Addr};
ghost use Rattle.std.specs.Net.Socket.{IsSocketAddrV4, IsSocketAddrV6, IsSocketAddr};
ghost use Rattle.wasi_addr.specs.Conversion.{AreInverse, IsIpAddr, ipv4_to_std, ipv4_from_std};
ghost use Rattle.wasi_addr.specs.Conversion.{ipv6_to_std, ipv6_from_std, ip_to_std, ip_from_std};
ghost use Rattle.wasi_addr.specs.Conversion.{ipv4_socket_to_std, ipv4_socket_from_std};
ghost use Rattle.wasi_addr.specs.Conversion.{ipv6_socket_to_std, ipv6_socket_from_std};
ghost use Rattle.wasi_addr.specs.Conversion.{socket_to_std, socket_from_std};

use crate::address::{IpAddress, IpSocketAddress, Ipv4SocketAddress, Ipv6SocketAddress};
use std::net::{IpAddr, Ipv4Addr, Ipv6Addr, SocketAddr, SocketAddrV4, SocketAddrV6};

/// The four bytes as std's address, by place.
pub fn to_ipv4_addr(addr: (u8, u8, u8, u8)) -> Ipv4Addr
    ensures { result ≡ ipv4_to_std addr }
{
    let (a, b, c, d) = addr;
    Ipv4Addr::new(a, b, c, d)
}

/// The four bytes of std's address, by place.
pub fn from_ipv4_addr(addr: Ipv4Addr) -> (u8, u8, u8, u8)
    ensures value { result ≡ ipv4_from_std addr }
    ensures given_back { ipv4_to_std result ≡ addr }
{
    let [a, b, c, d] = addr.octets();
    (a, b, c, d)
}

/// The eight segments as std's address, by place.
pub fn to_ipv6_addr(addr: (u16, u16, u16, u16, u16, u16, u16, u16)) -> Ipv6Addr
    ensures { result ≡ ipv6_to_std addr }
{
    let (a, b, c, d, e, f, g, h) = addr;
    Ipv6Addr::new(a, b, c, d, e, f, g, h)
}

/// The eight segments of std's address, by place.
pub fn from_ipv6_addr(addr: Ipv6Addr) -> (u16, u16, u16, u16, u16, u16, u16, u16)
    ensures value { result ≡ ipv6_from_std addr }
    ensures given_back { ipv6_to_std result ≡ addr }
{
    let [a, b, c, d, e, f, g, h] = addr.segments();
    (a, b, c, d, e, f, g, h)
}

impl IpAddress {
    /// This address as std's `IpAddr`.
    pub fn to_std(self) -> IpAddr
        ensures { result ≡ ip_to_std self }
    {
        match self {
            IpAddress::Ipv4(addr) => IpAddr::V4(to_ipv4_addr(addr)),
            IpAddress::Ipv6(addr) => IpAddr::V6(to_ipv6_addr(addr)),
        }
    }

    /// std's `IpAddr` as an address of the interface.
    pub fn from_std(addr: IpAddr) -> IpAddress
        ensures value { result ≡ ip_from_std addr }
        ensures given_back { ip_to_std result ≡ addr }
    {
        match addr {
            IpAddr::V4(v4) => IpAddress::Ipv4(from_ipv4_addr(v4)),
            IpAddr::V6(v6) => IpAddress::Ipv6(from_ipv6_addr(v6)),
        }
    }
}

impl Ipv4SocketAddress {
    /// This address and its port as std's `SocketAddrV4`.
    pub fn to_std(self) -> SocketAddrV4
        ensures { result ≡ ipv4_socket_to_std self }
    {
        SocketAddrV4::new(to_ipv4_addr(self.address), self.port)
    }

    /// std's `SocketAddrV4` as an address of the interface, port included.
    pub fn from_std(addr: SocketAddrV4) -> Ipv4SocketAddress
        ensures value { result ≡ ipv4_socket_from_std addr }
        ensures given_back { ipv4_socket_to_std result ≡ addr }
    {
        Ipv4SocketAddress {
            port: addr.port(),
            address: from_ipv4_addr(*addr.ip()),
        }
    }

    /// This address and its port as std's `SocketAddr::V4`.
    pub fn to_socket_addr(self) -> SocketAddr
        ensures { result ≡ SocketAddr.V4 (ipv4_socket_to_std self) }
    {
        SocketAddr::V4(self.to_std())
    }
}

impl Ipv6SocketAddress {
    /// This address as std's `SocketAddrV6`, with its port, flow info and scope.
    pub fn to_std(self) -> SocketAddrV6
        ensures { result ≡ ipv6_socket_to_std self }
    {
        SocketAddrV6::new(
            to_ipv6_addr(self.address),
            self.port,
            self.flow_info,
            self.scope_id,
        )
    }

    /// std's `SocketAddrV6` as an address of the interface, with its port, flow info and scope.
    pub fn from_std(addr: SocketAddrV6) -> Ipv6SocketAddress
        ensures value { result ≡ ipv6_socket_from_std addr }
        ensures given_back { ipv6_socket_to_std result ≡ addr }
    {
        Ipv6SocketAddress {
            port: addr.port(),
            flow_info: addr.flowinfo(),
            address: from_ipv6_addr(*addr.ip()),
            scope_id: addr.scope_id(),
        }
    }

    /// This address as std's `SocketAddr::V6`, with its port, flow info and scope.
    pub fn to_socket_addr(self) -> SocketAddr
        ensures { result ≡ SocketAddr.V6 (ipv6_socket_to_std self) }
    {
        SocketAddr::V6(self.to_std())
    }
}

impl IpSocketAddress {
    /// This address as std's `SocketAddr`; an IPv6 address keeps its flow info and scope.
    pub fn to_std(self) -> SocketAddr
        ensures { result ≡ socket_to_std self }
    {
        match self {
            IpSocketAddress::Ipv4(v4) => SocketAddr::V4(v4.to_std()),
            IpSocketAddress::Ipv6(v6) => SocketAddr::V6(v6.to_std()),
        }
    }

    /// std's `SocketAddr` as an address of the interface; an IPv6 address keeps its flow info and
    /// scope.
    pub fn from_std(addr: SocketAddr) -> IpSocketAddress
        ensures value { result ≡ socket_from_std addr }
        ensures given_back { socket_to_std result ≡ addr }
    {
        match addr {
            SocketAddr::V4(v4) => IpSocketAddress::Ipv4(Ipv4SocketAddress::from_std(v4)),
            SocketAddr::V6(v6) => IpSocketAddress::Ipv6(Ipv6SocketAddress::from_std(v6)),
        }
    }

    /// This address as std's `SocketAddr`, under the name that the two families' types use too.
    pub fn to_socket_addr(self) -> SocketAddr
        ensures { result ≡ socket_to_std self }
    {
        self.to_std()
    }
}

/// Each conversion to std and the one from std are inverse both ways, flow info and scope included.
///
/// It runs no code: its contract is a law about the definitions by which the conversions are
/// stated. On std's side the law speaks of the values that std's types have: four bytes or eight
/// segments, and numbers that fit.
pub fn conversions_are_inverse()
    ensures ipv4 { AreInverse ipv4_to_std ipv4_from_std IsIpv4Addr }
    ensures ipv6 { AreInverse ipv6_to_std ipv6_from_std IsIpv6Addr }
    ensures ip { AreInverse ip_to_std ip_from_std IsIpAddr }
    ensures ipv4_socket { AreInverse ipv4_socket_to_std ipv4_socket_from_std IsSocketAddrV4 }
    ensures ipv6_socket { AreInverse ipv6_socket_to_std ipv6_socket_from_std IsSocketAddrV6 }
    ensures socket { AreInverse socket_to_std socket_from_std IsSocketAddr }
{}
