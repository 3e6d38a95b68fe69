//! Why a script is left.

use std::alloc::AllocError;
use thiserror::Error;

/// Why a script was left. The whole lines before that were done and answered.
#[derive(Clone, Copy, Debug, PartialEq, Eq, Error)]
pub enum RunError {
    /// Memory ran out; the step at which it did has no reply.
    #[error("memory ran out")]
    Memory,
    /// The line with this number, counted from 1, isn't a step or names no context, or the input
    /// ended inside it.
    #[error("line {0} is not a step")]
    BadStep(u32),
    /// The script is longer than its limit.
    #[error("the script is longer than its limit")]
    TooLong,
    /// The reader counted a fault.
    #[error("a read failed")]
    ReadFault,
    /// The writer counted a fault, or refused a piece; the last reply may be cut.
    #[error("a write failed")]
    WriteFault,
}

impl From<AllocError> for RunError {
    ghost use Rattle.std.specs.Prelude.{◌≡◌};
    ghost use Rattle.wasi_run.specs.declared.error.RunError.TheVariants.{Memory};

    ghost from_gives = { λ _ e. e ≡ Memory };

    fn from(_: AllocError) -> RunError {
        RunError::Memory
    }
}
