//! The error of a stream's call.

use std::alloc::AllocError;
use thiserror::Error;
use wasi_addr::ErrorCode;
use wasi_world::TrapKind;

/// Why a call of a stream failed (`StreamError` of the crate wasmtime-wasi, with out of memory
/// beside it).
#[derive(Debug, PartialEq, Eq, Drop, Error)]
pub enum StreamError {
    /// An earlier operation failed in the background with this code. It is reported once.
    #[error("the last operation failed: {0}")]
    LastOperationFailed(ErrorCode),
    /// The stream is at its end, was closed, or its failure was reported.
    #[error("the stream is closed")]
    Closed,
    /// The call broke a rule of streams, which ends the guest's run.
    #[error("trap: {0}")]
    Trap(TrapKind),
    /// Memory ran out.
    #[error("out of memory")]
    Memory(AllocError),
}

impl From<AllocError> for StreamError {
    ghost use Rattle.std.specs.Prelude.{◌≡◌};
    ghost use Rattle.wasi_streams.specs.declared.error.StreamError.TheVariants.{Memory};

    ghost from_gives = { λ e error. error ≡ Memory e };

    fn from(e: AllocError) -> StreamError {
        StreamError::Memory(e)
    }
}
