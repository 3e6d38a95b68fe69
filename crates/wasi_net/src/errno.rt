//! The faults of the system by their numbers, and the code of each.

ghost use Rattle.std.specs.Prelude.{◌≡◌};
ghost use Rattle.wasi_net.specs.Errno.{is_unreachable, is_unsupported, code_of, may_retry, goes_on};
ghost use Rattle.wasi_net.specs.Errno.{bind_code, is_pending_error, accept_code, told_failed};

use wasi_addr::ErrorCode;
use wasi_world::Told;

/// Why a call of the system failed: Linux's number of the fault.
#[derive(Clone, Copy, Debug, PartialEq, Eq)]
pub struct Errno {
    pub number: u32,
}

/// ENOBUFS: of a buffer size it is no fault.
pub const NO_BUFFERS: u32 = 105;

/// EINVAL: a UDP connect over another interface has to be dissolved first.
pub const INVALID: u32 = 22;

/// EINPROGRESS: of a UDP connect it is no fault.
pub const IN_PROGRESS: u32 = 115;

/// EAFNOSUPPORT: also what a socket's address in an unknown family is read as.
pub const NO_FAMILY: u32 = 97;

/// Whether the other end can't be reached.
fn is_unreachable(number: u32) -> bool
    ensures { result ≡ is_unreachable number }
{
    number == 113 || number == 112 || number == 100 || number == 101 || number == 64
}

/// Whether the system doesn't have what was asked for.
fn is_unsupported(number: u32) -> bool
    ensures { result ≡ is_unsupported number }
{
    number == 95
        || number == 92
        || number == 96
        || number == 93
        || number == 91
        || number == 94
        || number == 97
}

/// Whether the fault befell a connection that arrived.
fn is_pending_error(number: u32) -> bool
    ensures { result ≡ is_pending_error number }
{
    number == 104
        || number == 102
        || number == 71
        || number == 92
        || number == 95
        || is_unreachable(number)
}

impl Errno {
    /// The code that a call reports, by the one table.
    pub fn code(self) -> ErrorCode
        ensures { result ≡ code_of self }
    {
        match self.number {
            1 | 13 => ErrorCode::AccessDenied,
            98 => ErrorCode::AddressInUse,
            99 => ErrorCode::AddressNotBindable,
            110 => ErrorCode::Timeout,
            32 => ErrorCode::ConnectionBroken,
            111 => ErrorCode::ConnectionRefused,
            104 => ErrorCode::ConnectionReset,
            103 => ErrorCode::ConnectionAborted,
            22 => ErrorCode::InvalidArgument,
            n if is_unreachable(n) => ErrorCode::RemoteUnreachable,
            106 | 107 | 89 => ErrorCode::InvalidState,
            90 => ErrorCode::DatagramTooLarge,
            12 | 105 => ErrorCode::OutOfMemory,
            n if is_unsupported(n) => ErrorCode::NotSupported,
            _ => ErrorCode::Other,
        }
    }

    /// Whether the call would have had to wait, or was interrupted: it may be made again.
    pub fn may_retry(self) -> bool
        ensures { result ≡ may_retry self }
    {
        self.number == 11 || self.number == 4
    }

    /// Whether a connect goes on without the caller.
    pub fn goes_on(self) -> bool
        ensures { result ≡ goes_on self }
    {
        self.number == 115 || self.number == 4
    }

    /// The code of a bind and of a UDP connect: an address of another family is an invalid
    /// argument.
    pub fn bind_code(self) -> ErrorCode
        ensures { result ≡ bind_code self }
    {
        if self.number == NO_FAMILY {
            return ErrorCode::InvalidArgument;
        }
        self.code()
    }

    /// The code of an accept: what befell the connection that arrived is its end.
    pub fn accept_code(self) -> ErrorCode
        ensures { result ≡ accept_code self }
    {
        if is_pending_error(self.number) {
            return ErrorCode::ConnectionAborted;
        }
        self.code()
    }
}

/// The answer for a call that failed with this code: pending where it may be made again.
pub fn told_failed(error: Errno, code: ErrorCode) -> Told
    ensures { result ≡ told_failed error code }
{
    if error.may_retry() {
        Told::Pending
    } else {
        Told::Code(code)
    }
}
