//! The base code that a network call may tell.

ghost use Rattle.std.specs.Prelude.{◌≡◌, Some};
ghost use Rattle.wasi_addr.specs.Code.{code_name, codes_of_kind};

use crate::kind::NetKind;
use std::error::Error;
use std::fmt;

/// Why a network call failed (`ErrorCode` of `wasmtime-wasi`'s `sockets` module). It prints as its
/// variant's name.
#[derive(Clone, Copy, Debug, PartialEq, Eq)]
pub enum ErrorCode {
    AccessDenied,
    NotSupported,
    InvalidArgument,
    OutOfMemory,
    Timeout,
    InvalidState,
    AddressNotBindable,
    AddressInUse,
    RemoteUnreachable,
    ConnectionRefused,
    ConnectionBroken,
    ConnectionReset,
    ConnectionAborted,
    DatagramTooLarge,
    Other,
}

impl ErrorCode {
    /// The base code of a system fault (`From<io::Error>` of `wasmtime-wasi`'s code, by kind
    /// alone).
    pub fn from_kind(kind: NetKind) -> ErrorCode
        ensures { result ≡ (codes_of_kind kind).base }
    {
        match kind {
            NetKind::AddrInUse => ErrorCode::AddressInUse,
            NetKind::AddrNotAvailable => ErrorCode::AddressNotBindable,
            NetKind::ConnectionAborted => ErrorCode::ConnectionAborted,
            NetKind::ConnectionRefused => ErrorCode::ConnectionRefused,
            NetKind::ConnectionReset => ErrorCode::ConnectionReset,
            NetKind::InvalidInput => ErrorCode::InvalidArgument,
            NetKind::NotConnected => ErrorCode::InvalidState,
            NetKind::OutOfMemory => ErrorCode::OutOfMemory,
            NetKind::PermissionDenied => ErrorCode::AccessDenied,
            NetKind::TimedOut => ErrorCode::Timeout,
            NetKind::Unsupported => ErrorCode::NotSupported,
            NetKind::HostUnreachable | NetKind::NetworkUnreachable | NetKind::NetworkDown => {
                ErrorCode::RemoteUnreachable
            }
            NetKind::BrokenPipe => ErrorCode::ConnectionBroken,
            NetKind::Interrupted | NetKind::WouldBlock | NetKind::Unlisted => ErrorCode::Other,
        }
    }

    // The variant's name.
    fn name(self) -> &'static str
        ensures { result.now ≡ code_name self }
    {
        match self {
            ErrorCode::AccessDenied => "AccessDenied",
            ErrorCode::NotSupported => "NotSupported",
            ErrorCode::InvalidArgument => "InvalidArgument",
            ErrorCode::OutOfMemory => "OutOfMemory",
            ErrorCode::Timeout => "Timeout",
            ErrorCode::InvalidState => "InvalidState",
            ErrorCode::AddressNotBindable => "AddressNotBindable",
            ErrorCode::AddressInUse => "AddressInUse",
            ErrorCode::RemoteUnreachable => "RemoteUnreachable",
            ErrorCode::ConnectionRefused => "ConnectionRefused",
            ErrorCode::ConnectionBroken => "ConnectionBroken",
            ErrorCode::ConnectionReset => "ConnectionReset",
            ErrorCode::ConnectionAborted => "ConnectionAborted",
            ErrorCode::DatagramTooLarge => "DatagramTooLarge",
            ErrorCode::Other => "Other",
        }
    }
}

impl fmt::Display for ErrorCode {
    ghost output = { λ code. Some (code_name code) };

    fn fmt<W: fmt::Write>(&self, f: &mut fmt::Formatter<W>) -> fmt::Result {
        f.write_str(self.name())
    }
}

impl Error for ErrorCode {}
