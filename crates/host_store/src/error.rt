//! How calls of streams end, and those of the store that serve both generations.

ghost use Rattle.std.specs.Prelude.{◌≡◌, IfOk, Ok};
ghost use Rattle.wasi_addr.specs.Code.{p2_of_code};
ghost use Rattle.record_common.specs.Stops.{host_outcome};
ghost use Rattle.host_store.specs.BaseStops.{base_outcome, ends_as, named_as};

use record_common::SocketError;
use std::alloc::AllocError;
use thiserror::Error;
use wasi_addr::{ErrorCode, lookup, p2};
use wasi_streams::{Fault, HostError};
use wasi_world::{Handle, Refusal, TrapKind};

/// Why a call of the store has no value, where its codes have no interface's names yet.
pub type StoreError = HostError<ErrorCode>;

/// The error of a lookup of 0.3.
pub type LookupError = HostError<lookup::ErrorCode>;

/// What a socket answered, as an error of the store.
pub fn unnamed<T>(told: Result<T, Refusal>) -> Result<T, StoreError>
    ensures told { ends_as result ≡ base_outcome told }
    ensures ok { IfOk result (λ value. told ≡ Ok value) }
{
    match told {
        Ok(value) => Ok(value),
        Err(Refusal::Code(code)) => Err(StoreError::Code(code)),
        Err(Refusal::Memory(e)) => Err(StoreError::Memory(e)),
    }
}

/// What the store answered, with the 0.2 name of its code.
pub fn named<T>(told: Result<T, StoreError>) -> Result<T, SocketError>
    ensures { host_outcome result ≡ named_as p2_of_code (ends_as told) }
{
    match told {
        Ok(value) => Ok(value),
        Err(StoreError::Code(code)) => Err(SocketError::Code(p2::ErrorCode::from_code(code))),
        Err(StoreError::Trap(kind)) => Err(SocketError::Trap(kind)),
        Err(StoreError::Memory(e)) => Err(SocketError::Memory(e)),
    }
}

/// Why a call of a stream has no value.
#[derive(Debug, Drop, Error)]
pub enum CallError {
    /// The stream's last operation failed with this code; the handle is that of the new error.
    #[error("the last operation failed: {0}")]
    Failed(ErrorCode, Handle),
    /// The stream is at its end, or closed.
    #[error("the stream is closed")]
    Closed,
    /// The call broke a rule, which ends the guest's run.
    #[error("trap: {0}")]
    Trap(TrapKind),
    /// Memory ran out.
    #[error("out of memory")]
    Memory(AllocError),
}

impl From<AllocError> for CallError {
    ghost use Rattle.std.specs.Prelude.{◌≡◌};
    ghost use Rattle.host_store.specs.declared.error.CallError.TheVariants.{Memory};

    ghost from_gives = { λ e error. error ≡ Memory e };

    fn from(e: AllocError) -> CallError {
        CallError::Memory(e)
    }
}

impl From<Fault> for CallError {
    ghost use Rattle.std.specs.Prelude.{◌≡◌};
    ghost use Rattle.host_store.specs.CallStops.{call_fault};

    ghost from_gives = { λ fault error. error ≡ call_fault fault };

    fn from(fault: Fault) -> CallError {
        match fault {
            Fault::Trap(kind) => CallError::Trap(kind),
            Fault::Memory(e) => CallError::Memory(e),
        }
    }
}
