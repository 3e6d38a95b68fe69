//! Codes of system faults, and addresses beside those of std. Rows of the tests on addresses and of
//! the clamps are computed on their definitions (`proofs/AddressRows`).

use std::alloc::AllocError;
use std::fmt::Write;
use std::net::{Ipv6Addr, SocketAddr, SocketAddrV4, SocketAddrV6};
use wasi_addr::p2::ErrorCode as P2;
use wasi_addr::p3::ErrorCode as P3;
use wasi_addr::{
    ErrorCode, IpAddress, IpSocketAddress, Ipv4SocketAddress, Ipv6SocketAddress, NetKind,
};

const KINDS: [NetKind; 18] = [
    NetKind::AddrInUse,
    NetKind::AddrNotAvailable,
    NetKind::ConnectionAborted,
    NetKind::ConnectionRefused,
    NetKind::ConnectionReset,
    NetKind::Interrupted,
    NetKind::InvalidInput,
    NetKind::NotConnected,
    NetKind::OutOfMemory,
    NetKind::PermissionDenied,
    NetKind::TimedOut,
    NetKind::Unsupported,
    NetKind::WouldBlock,
    NetKind::HostUnreachable,
    NetKind::NetworkUnreachable,
    NetKind::NetworkDown,
    NetKind::BrokenPipe,
    NetKind::Unlisted,
];

/// `codes`: each kind with its base, 0.2 and 0.3 code.
pub fn codes(text: &mut String) -> Result<(), AllocError> {
    for kind in KINDS {
        let base = ErrorCode::from_kind(kind);
        let (second, third) = (P2::from_kind(kind), P3::from_kind(kind));
        write!(text, "{kind:?} {base:?} {second:?} {third:?}\n")?;
    }
    Ok(())
}

/// Whether an IPv4 address is that of std, each way.
fn is_std4() -> [bool; 3] {
    let address = (192, 0, 2, 1);
    let v4 = Ipv4SocketAddress { port: 80, address };
    let (Ok(there), Ok(either)) = (
        "192.0.2.1:80".parse::<SocketAddrV4>(),
        "192.0.2.1:80".parse::<SocketAddr>(),
    ) else {
        return [false; 3];
    };
    [
        v4.to_std() == there,
        v4.to_socket_addr() == either,
        Ipv4SocketAddress::from_std(v4.to_std()) == v4,
    ]
}

/// Whether an IPv6 address is that of std, each way.
fn is_std6() -> [bool; 4] {
    let v6 = Ipv6SocketAddress {
        port: 443,
        flow_info: 9,
        address: (0x2001, 0xdb8, 0, 0, 0, 0, 0, 7),
        scope_id: 5,
    };
    let Ok(ip) = "2001:db8::7".parse::<Ipv6Addr>() else {
        return [false; 4];
    };
    let there = SocketAddrV6::new(ip, 443, 9, 5);
    [
        v6.to_std() == there,
        v6.to_socket_addr() == SocketAddr::V6(there),
        Ipv6SocketAddress::from_std(there) == v6,
        IpSocketAddress::Ipv6(v6).to_socket_addr() == SocketAddr::V6(there),
    ]
}

/// Whether an IPv4 address in IPv6 has its parts.
fn is_mapped() -> [bool; 3] {
    let Ok(there) = "[::ffff:192.0.2.1]:80".parse::<SocketAddr>() else {
        return [false; 3];
    };
    let mapped = IpSocketAddress::from_std(there);
    [
        mapped.ip().to_canonical() == IpAddress::Ipv4((192, 0, 2, 1)),
        mapped.port() == 80,
        mapped.to_std() == there,
    ]
}

/// `addresses`: whether they are those of std.
pub fn addresses(text: &mut String) -> Result<(), AllocError> {
    write!(text, "{:?}\n", is_std4())?;
    write!(text, "{:?}\n", is_std6())?;
    write!(text, "{:?}\n", is_mapped())
}
