//! Addresses as numbers of their family.

ghost use Rattle.std.specs.Prelude.{◌≡◌, ◌+◌, ◌*◌, ◌≤◌, true};
ghost use Rattle.world_text.specs.Written.{FitsIpv4, FitsIpv6};
ghost use Rattle.wasi_policy.specs.Decision.{ipv4_number, ipv6_number};
ghost use Rattle.wasi_policy.specs.Points.{is_canonical, IsAt};

use wasi_addr::{IpSocketAddress, Ipv4SocketAddress, Ipv6SocketAddress, SocketAddressFamily};

/// The number of the first IPv6 address that stands for an IPv4 one, `::ffff:0:0`.
pub const FIRST_MAPPED: u128 = 281_470_681_743_360;

/// The number of the first IPv6 address behind those.
pub const AFTER_MAPPED: u128 = 281_474_976_710_656;

/// Whether a canonical address of the family has this number.
pub fn is_canonical(family: SocketAddressFamily, number: u128) -> bool
    ensures { result ≡ is_canonical family number }
{
    match family {
        SocketAddressFamily::Ipv4 => number < 4_294_967_296,
        SocketAddressFamily::Ipv6 => number < FIRST_MAPPED || AFTER_MAPPED <= number,
    }
}

/// The IPv4 address with this number.
fn ipv4_of(number: u32) -> (u8, u8, u8, u8)
    ensures number { ipv4_number result ≡ number }
    ensures fits { FitsIpv4 result }
{
    let front = number / 65_536;
    let back = number % 65_536;
    (
        (front / 256) as u8,
        (front % 256) as u8,
        (back / 256) as u8,
        (back % 256) as u8,
    )
}

/// Four segments with this number, the first one highest.
fn half_of(number: u64) -> (u16, u16, u16, u16)
    ensures number { ((result.0 * 65536 + result.1) * 65536 + result.2) * 65536 + result.3
        ≡ number }
    ensures fits { (result.0 ≤ 65535) × (result.1 ≤ 65535) × (result.2 ≤ 65535)
        × (result.3 ≤ 65535) }
{
    let front = number / 4_294_967_296;
    let back = number % 4_294_967_296;
    (
        (front / 65_536) as u16,
        (front % 65_536) as u16,
        (back / 65_536) as u16,
        (back % 65_536) as u16,
    )
}

/// The IPv6 address with this number.
fn ipv6_of(number: u128) -> (u16, u16, u16, u16, u16, u16, u16, u16)
    ensures number { ipv6_number result ≡ number }
    ensures fits { FitsIpv6 result }
{
    let front = number / 18_446_744_073_709_551_616;
    let back = number % 18_446_744_073_709_551_616;
    let (a, b, c, d) = half_of(front as u64);
    let (e, f, g, h) = half_of(back as u64);
    (a, b, c, d, e, f, g, h)
}

/// The canonical address of a family with this number, at this port.
pub fn address_at(family: SocketAddressFamily, number: u128, port: u16) -> IpSocketAddress
    requires { is_canonical family number ≡ true }
    ensures { IsAt family number port result }
{
    match family {
        SocketAddressFamily::Ipv4 => IpSocketAddress::Ipv4(Ipv4SocketAddress {
            port,
            address: ipv4_of(number as u32),
        }),
        SocketAddressFamily::Ipv6 => IpSocketAddress::Ipv6(Ipv6SocketAddress {
            port,
            flow_info: 0,
            address: ipv6_of(number),
            scope_id: 0,
        }),
    }
}
