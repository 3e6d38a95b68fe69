//! Why a step has no reply.

use std::alloc::AllocError;
use thiserror::Error;

/// Why a step has no reply.
#[derive(Clone, Copy, Debug, PartialEq, Eq, Error)]
pub enum StepError {
    /// An earlier step trapped or ran out of memory. Nothing was done.
    #[error("the session is over")]
    Over,
    /// 4,294,967,295 steps were done, and no further one has a number. Nothing was done.
    #[error("no number is left for a step")]
    TooMany,
    /// There is no context with this number. Nothing was done.
    #[error("there is no context {0}")]
    NoContext(u32),
    /// Memory ran out within the step, which may have asked a part of its calls. The session is
    /// over.
    #[error("memory ran out")]
    Memory,
}

impl From<AllocError> for StepError {
    ghost use Rattle.std.specs.Prelude.{◌≡◌};
    ghost use Rattle.wasi_session.specs.declared.error.StepError.TheVariants.{Memory};

    ghost from_gives = { λ _ e. e ≡ Memory };

    fn from(_: AllocError) -> StepError {
        StepError::Memory
    }
}
