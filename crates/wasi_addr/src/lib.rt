//! Addresses, families and codes of the socket interface, the tests that are made on addresses, the
//! limits on option values, and the conversions to and from std's addresses.
//!
//! Every call is total and takes no memory.
#![tactic(auto)]

pub mod address;
pub mod clamp;
pub mod code;
pub mod convert;
pub mod kind;
pub mod lookup;
pub mod p2;
pub mod p3;
pub mod validity;

pub use address::{
    IpAddress, IpSocketAddress, Ipv4SocketAddress, Ipv6SocketAddress, ShutdownType, SocketAddrUse,
    SocketAddressFamily,
};
pub use clamp::{
    clamp_backlog, clamp_keep_alive_count, clamp_keep_alive_time, normalize_get_buffer_size,
    normalize_set_buffer_size,
};
pub use code::ErrorCode;
pub use convert::{from_ipv4_addr, from_ipv6_addr, to_ipv4_addr, to_ipv6_addr};
pub use kind::NetKind;
pub use validity::{
    is_deprecated_ipv4_compatible, is_unspecified_addr, is_valid_address_family,
    is_valid_remote_address, is_valid_unicast_address, unspecified_addr,
};
