//! An address as the bytes of C's `sockaddr_in` and `sockaddr_in6`, and back.

ghost use Rattle.std.specs.Prelude.{◌≡◌, ℕ, ◌+◌, ◌≤◌, ◌↔◌, List, ◌++◌, length, IsSome, IfSome};
ghost use Rattle.std.specs.Int.{w16, from_le_bytes};
ghost use Rattle.std.specs.Net.SockAddr.{family_and_port, sockaddr_in, sockaddr_in6, in_storage};
ghost use Rattle.std.specs.Net.SockAddr.{HoldsSockAddr};
ghost use Rattle.wasi_net.specs.Storage.{storage, storage_len, Holds};

use crate::system::Storage;
use libc::net::{AF_INET, AF_INET6};
use std::net::{Ipv4Addr, Ipv6Addr, SocketAddr, SocketAddrV4, SocketAddrV6};
use wasi_addr::IpSocketAddress;

/// How many bytes an IPv4 address has as C has it.
const V4_LEN: u32 = 16;

/// How many bytes an IPv6 address has as C has it.
const V6_LEN: u32 = 28;

/// The bytes of an address, and how many of them are the address's.
pub fn encode(addr: IpSocketAddress) -> (Storage, u32)
    ensures bytes { result.0 ≡ storage addr }
    ensures len { result.1 ≡ storage_len addr }
    ensures within { result.1 ≤ 128 }
{
    match addr.to_std() {
        SocketAddr::V4(addr) => (encode_v4(addr), V4_LEN),
        SocketAddr::V6(addr) => (encode_v6(addr), V6_LEN),
    }
}

/// Writes the next field.
fn put(raw: &mut Storage, at: usize, bytes: &[u8])
    requires { at + length bytes.now ≤ 128 }
    ensures { (front : List ℕ) → length front ≡ at → raw.old ≡ in_storage front
        → raw.new ≡ in_storage (front ++ bytes.now) }
{
    raw[at..at + bytes.len()].copy_from_slice(bytes);
}

/// The two fields that both families begin with.
fn family_and_port(family: u16, port: u16) -> Storage
    ensures { result ≡ in_storage (family_and_port family port) }
{
    let mut raw = [0u8; 128];
    put(&mut raw, 0, &family.to_ne_bytes());
    put(&mut raw, 2, &port.to_be_bytes());
    raw
}

fn encode_v4(addr: SocketAddrV4) -> Storage
    ensures { result ≡ in_storage (sockaddr_in addr) }
{
    let mut raw = family_and_port(AF_INET as u16, addr.port());
    put(&mut raw, 4, &addr.ip().octets());
    raw
}

fn encode_v6(addr: SocketAddrV6) -> Storage
    ensures { result ≡ in_storage (sockaddr_in6 addr) }
{
    let mut raw = family_and_port(AF_INET6 as u16, addr.port());
    put(&mut raw, 4, &addr.flowinfo().to_ne_bytes());
    put(&mut raw, 8, &addr.ip().octets());
    put(&mut raw, 24, &addr.scope_id().to_ne_bytes());
    raw
}

/// The address in the first bytes, where they hold one of either family.
pub fn decode(raw: &Storage, len: u32) -> Option<IpSocketAddress>
    ensures known { IsSome result ↔ HoldsSockAddr raw.now len }
    ensures held { IfSome result (Holds raw.now) }
{
    let family = i32::from(u16::from_ne_bytes([raw[0], raw[1]]));
    if family == AF_INET && len >= V4_LEN {
        Some(decode_v4(raw))
    } else if family == AF_INET6 && len >= V6_LEN {
        Some(decode_v6(raw))
    } else {
        None
    }
}

/// The IPv4 address in the bytes.
fn decode_v4(raw: &Storage) -> IpSocketAddress
    requires { from_le_bytes w16 raw.now ≡ 2 }
    ensures { Holds raw.now result }
{
    let ip = Ipv4Addr::new(raw[4], raw[5], raw[6], raw[7]);
    let port = u16::from_be_bytes([raw[2], raw[3]]);
    IpSocketAddress::from_std(SocketAddr::V4(SocketAddrV4::new(ip, port)))
}

/// The IPv6 address in the bytes.
fn decode_v6(raw: &Storage) -> IpSocketAddress
    requires { from_le_bytes w16 raw.now ≡ 10 }
    ensures { Holds raw.now result }
{
    let port = u16::from_be_bytes([raw[2], raw[3]]);
    let flow_info = u32::from_ne_bytes([raw[4], raw[5], raw[6], raw[7]]);
    let mut octets = [0u8; 16];
    octets.copy_from_slice(&raw[8..24]);
    let scope_id = u32::from_ne_bytes([raw[24], raw[25], raw[26], raw[27]]);
    let ip = Ipv6Addr::from_octets(octets);
    IpSocketAddress::from_std(SocketAddr::V6(SocketAddrV6::new(ip, port, flow_info, scope_id)))
}
