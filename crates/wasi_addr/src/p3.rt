//! Codes of the 0.3 interface.

ghost use Rattle.std.specs.Prelude.{◌≡◌};
ghost use Rattle.wasi_addr.specs.Code.{p3_of_code, codes_of_kind};

use crate::code;
use crate::kind::NetKind;

/// `error-code` of `wasi:sockets/types@0.3`. The text that 0.3 gives its `other` isn't kept here.
#[derive(Clone, Copy, Debug, PartialEq, Eq)]
pub enum ErrorCode {
    AccessDenied,
    NotSupported,
    InvalidArgument,
    OutOfMemory,
    Timeout,
    InvalidState,
    AddressNotBindable,
    AddressInUse,
    RemoteUnreachable,
    ConnectionRefused,
    ConnectionBroken,
    ConnectionReset,
    ConnectionAborted,
    DatagramTooLarge,
    Other,
}

impl ErrorCode {
    /// The 0.3 code of a base code: each base code has a 0.3 code with its name.
    pub fn from_code(code: code::ErrorCode) -> ErrorCode
        ensures { result ≡ p3_of_code code }
    {
        match code {
            code::ErrorCode::AccessDenied => ErrorCode::AccessDenied,
            code::ErrorCode::NotSupported => ErrorCode::NotSupported,
            code::ErrorCode::InvalidArgument => ErrorCode::InvalidArgument,
            code::ErrorCode::OutOfMemory => ErrorCode::OutOfMemory,
            code::ErrorCode::Timeout => ErrorCode::Timeout,
            code::ErrorCode::InvalidState => ErrorCode::InvalidState,
            code::ErrorCode::AddressNotBindable => ErrorCode::AddressNotBindable,
            code::ErrorCode::AddressInUse => ErrorCode::AddressInUse,
            code::ErrorCode::RemoteUnreachable => ErrorCode::RemoteUnreachable,
            code::ErrorCode::ConnectionRefused => ErrorCode::ConnectionRefused,
            code::ErrorCode::ConnectionBroken => ErrorCode::ConnectionBroken,
            code::ErrorCode::ConnectionReset => ErrorCode::ConnectionReset,
            code::ErrorCode::ConnectionAborted => ErrorCode::ConnectionAborted,
            code::ErrorCode::DatagramTooLarge => ErrorCode::DatagramTooLarge,
            code::ErrorCode::Other => ErrorCode::Other,
        }
    }

    /// The 0.3 code of a system fault. An unreachable network and a broken pipe are `Other` here,
    /// though the base code names them.
    pub fn from_kind(kind: NetKind) -> ErrorCode
        ensures { result ≡ (codes_of_kind kind).p3 }
    {
        match kind {
            NetKind::HostUnreachable
            | NetKind::NetworkUnreachable
            | NetKind::NetworkDown
            | NetKind::BrokenPipe => ErrorCode::Other,
            _ => ErrorCode::from_code(code::ErrorCode::from_kind(kind)),
        }
    }
}
