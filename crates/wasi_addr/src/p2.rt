//! Codes of the 0.2 interface.

ghost use Rattle.std.specs.Prelude.{◌≡◌};
ghost use Rattle.wasi_addr.specs.Code.{p2_of_code, p2_of_lookup, codes_of_kind};

use crate::kind::NetKind;
use crate::{code, lookup};

/// `error-code` of `wasi:sockets/network@0.2`.
#[derive(Clone, Copy, Debug, PartialEq, Eq)]
pub enum ErrorCode {
    Unknown,
    AccessDenied,
    NotSupported,
    InvalidArgument,
    OutOfMemory,
    Timeout,
    ConcurrencyConflict,
    NotInProgress,
    WouldBlock,
    InvalidState,
    NewSocketLimit,
    AddressNotBindable,
    AddressInUse,
    RemoteUnreachable,
    ConnectionRefused,
    ConnectionReset,
    ConnectionAborted,
    DatagramTooLarge,
    NameUnresolvable,
    TemporaryResolverFailure,
    PermanentResolverFailure,
}

impl ErrorCode {
    /// The 0.2 code of a base code: `Other` and `ConnectionBroken` have no name in 0.2 and become
    /// `Unknown`.
    pub fn from_code(code: code::ErrorCode) -> ErrorCode
        ensures { result ≡ p2_of_code code }
    {
        match code {
            code::ErrorCode::AccessDenied => ErrorCode::AccessDenied,
            code::ErrorCode::NotSupported => ErrorCode::NotSupported,
            code::ErrorCode::InvalidArgument => ErrorCode::InvalidArgument,
            code::ErrorCode::OutOfMemory => ErrorCode::OutOfMemory,
            code::ErrorCode::Timeout => ErrorCode::Timeout,
            code::ErrorCode::InvalidState => ErrorCode::InvalidState,
            code::ErrorCode::AddressNotBindable => ErrorCode::AddressNotBindable,
            code::ErrorCode::AddressInUse => ErrorCode::AddressInUse,
            code::ErrorCode::RemoteUnreachable => ErrorCode::RemoteUnreachable,
            code::ErrorCode::ConnectionRefused => ErrorCode::ConnectionRefused,
            code::ErrorCode::ConnectionReset => ErrorCode::ConnectionReset,
            code::ErrorCode::ConnectionAborted => ErrorCode::ConnectionAborted,
            code::ErrorCode::DatagramTooLarge => ErrorCode::DatagramTooLarge,
            code::ErrorCode::ConnectionBroken | code::ErrorCode::Other => ErrorCode::Unknown,
        }
    }

    /// The 0.2 code of a lookup code: `Other` has no name in 0.2 and becomes `Unknown`.
    pub fn from_lookup(code: lookup::ErrorCode) -> ErrorCode
        ensures { result ≡ p2_of_lookup code }
    {
        match code {
            lookup::ErrorCode::AccessDenied => ErrorCode::AccessDenied,
            lookup::ErrorCode::InvalidArgument => ErrorCode::InvalidArgument,
            lookup::ErrorCode::NameUnresolvable => ErrorCode::NameUnresolvable,
            lookup::ErrorCode::TemporaryResolverFailure => ErrorCode::TemporaryResolverFailure,
            lookup::ErrorCode::PermanentResolverFailure => ErrorCode::PermanentResolverFailure,
            lookup::ErrorCode::Other => ErrorCode::Unknown,
        }
    }

    /// The 0.2 code of a system fault. An interrupted call would block, and an unreachable network
    /// is `Unknown` here, though the base code names it.
    pub fn from_kind(kind: NetKind) -> ErrorCode
        ensures { result ≡ (codes_of_kind kind).p2 }
    {
        match kind {
            NetKind::Interrupted | NetKind::WouldBlock => ErrorCode::WouldBlock,
            NetKind::HostUnreachable | NetKind::NetworkUnreachable | NetKind::NetworkDown => {
                ErrorCode::Unknown
            }
            _ => ErrorCode::from_code(code::ErrorCode::from_kind(kind)),
        }
    }
}
