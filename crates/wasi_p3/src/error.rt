//! How the calls of 0.3 end.

ghost use Rattle.std.specs.Prelude.{◌≡◌, IfOk, Ok};
ghost use Rattle.wasi_addr.specs.Code.{p3_of_code};
ghost use Rattle.host_store.specs.BaseStops.{named_as};
ghost use Rattle.wasi_p3.specs.Stops.{ends_as, p3_outcome, p3_told};

use host_store::StoreError;
use wasi_addr::{ErrorCode, p3};
use wasi_streams::HostError;
use wasi_world::Refusal;

/// The error of a 0.3 call (`SocketError` of the crate wasmtime-wasi).
pub type SocketError = HostError<p3::ErrorCode>;

/// What a socket answered, with the 0.3 name of its code.
pub(crate) fn answered<T>(told: Result<T, Refusal>) -> Result<T, SocketError>
    ensures told { ends_as result ≡ p3_outcome told }
    ensures ok { IfOk result (λ value. told ≡ Ok value) }
{
    match told {
        Ok(value) => Ok(value),
        Err(Refusal::Code(code)) => Err(SocketError::Code(p3::ErrorCode::from_code(code))),
        Err(Refusal::Memory(e)) => Err(SocketError::Memory(e)),
    }
}

/// What a socket told without asking, with the 0.3 name of its code.
pub(crate) fn told<T>(told: Result<T, ErrorCode>) -> Result<T, SocketError>
    ensures { ends_as result ≡ Ok (p3_told told) }
{
    match told {
        Ok(value) => Ok(value),
        Err(code) => Err(SocketError::Code(p3::ErrorCode::from_code(code))),
    }
}

/// What the store answered, with the 0.3 name of its code.
pub(crate) fn named<T>(told: Result<T, StoreError>) -> Result<T, SocketError>
    ensures { ends_as result ≡ named_as p3_of_code (ends_as told) }
{
    match told {
        Ok(value) => Ok(value),
        Err(StoreError::Code(code)) => Err(SocketError::Code(p3::ErrorCode::from_code(code))),
        Err(StoreError::Trap(kind)) => Err(SocketError::Trap(kind)),
        Err(StoreError::Memory(e)) => Err(SocketError::Memory(e)),
    }
}
