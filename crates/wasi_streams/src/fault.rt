//! How host calls end.

use std::alloc::AllocError;
use std::fmt::Debug;
use thiserror::Error;
use wasi_addr::p2;
use wasi_world::{Refusal, TrapKind};

/// Why a host call that returns no codes has no value.
#[derive(Debug, Drop, Error)]
pub enum Fault {
    /// The call broke a rule, which ends the guest's run.
    #[error("trap: {0}")]
    Trap(TrapKind),
    /// Memory ran out.
    #[error("out of memory")]
    Memory(AllocError),
}

impl From<AllocError> for Fault {
    ghost use Rattle.std.specs.Prelude.{◌≡◌};
    ghost use Rattle.wasi_streams.specs.declared.fault.Fault.TheVariants.{Memory};

    ghost from_gives = { λ e fault. fault ≡ Memory e };

    fn from(e: AllocError) -> Fault {
        Fault::Memory(e)
    }
}

/// Why a host call has no value (`SocketError` of the crate wasmtime-wasi, with out of memory
/// beside it). `C` is the type of the codes of one generation of the interface.
#[derive(Debug, Drop, Error)]
#[error_bound(C: Debug)]
pub enum HostError<C> {
    /// This code is returned to the guest.
    #[error("refused: {0:?}")]
    Code(C),
    /// The call broke a rule, which ends the guest's run.
    #[error("trap: {0}")]
    Trap(TrapKind),
    /// Memory ran out.
    #[error("out of memory")]
    Memory(AllocError),
}

impl<C> From<AllocError> for HostError<C> {
    ghost use Rattle.std.specs.Prelude.{◌≡◌};
    ghost use Rattle.wasi_streams.specs.declared.fault.HostError.TheVariants.{Memory};

    ghost from_gives = { λ e error. error ≡ Memory e };

    fn from(e: AllocError) -> HostError<C> {
        HostError::Memory(e)
    }
}

impl<C> From<Fault> for HostError<C> {
    ghost use Rattle.std.specs.Prelude.{◌≡◌};
    ghost use Rattle.wasi_streams.specs.HostError.{of_fault};

    ghost from_gives = { λ fault error. error ≡ of_fault fault };

    fn from(fault: Fault) -> HostError<C> {
        match fault {
            Fault::Trap(kind) => HostError::Trap(kind),
            Fault::Memory(e) => HostError::Memory(e),
        }
    }
}

impl From<Refusal> for HostError<p2::ErrorCode> {
    ghost use Rattle.std.specs.Prelude.{◌≡◌};
    ghost use Rattle.wasi_streams.specs.HostError.{of_refusal};

    ghost from_gives = { λ refusal error. error ≡ of_refusal refusal };

    fn from(refusal: Refusal) -> HostError<p2::ErrorCode> {
        match refusal {
            Refusal::Code(code) => HostError::Code(p2::ErrorCode::from_code(code)),
            Refusal::Memory(e) => HostError::Memory(e),
        }
    }
}
