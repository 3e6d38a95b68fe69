//! How a call of an export ends.

ghost use Rattle.std.specs.Prelude.{◌≡◌};
ghost use Rattle.wasi_embed.specs.Told.{number_of};

use embed_flat::Refusal;
use std::alloc::AllocError;
use wasi_session::StepError;

/// How a call of an export ends.
#[derive(Clone, Copy, Debug, PartialEq, Eq)]
pub enum Status {
    /// It is done.
    Ok,
    /// The guest's call is pending, and is polled by its number.
    Pending,
    /// The guest's call broke a rule of the interface. The host does no more of them.
    Trap,
    /// Another call of the guest is pending, so this one wasn't made.
    Busy,
    /// No call is pending under this number.
    NoCall,
    /// An earlier call trapped or ran out of memory. Nothing was done.
    Over,
    /// 4,294,967,295 calls were made, and no further one has a number. Nothing was done.
    TooMany,
    /// There is no such context. Nothing was done.
    Context,
    /// Memory ran out.
    Memory,
    /// The host was closed. Nothing was done.
    Closed,
    /// A text isn't UTF-8. Nothing was done.
    Text,
    /// A line is no step. Nothing was done.
    Line,
    /// A buffer is too small.
    Room,
    /// A place isn't within the guest's memory. Nothing was done.
    Bounds,
    /// No call has this number, or an argument is missing or too great. Nothing was done.
    Argument,
    /// A line isn't in the grammar of rules. Nothing was done.
    Rules,
    /// What a polled call gave doesn't fit where its result was to lie: another call was pending
    /// under that number. It is lost.
    Misfit,
    /// No check waits for an answer, or none of this number.
    NoAsk,
}

impl Status {
    /// Its number, as the header has it.
    pub fn number(self) -> u32
        ensures { result ≡ number_of self }
    {
        match self {
            Status::Ok => 0,
            Status::Pending => 1,
            Status::Trap => 2,
            Status::Busy => 3,
            Status::NoCall => 4,
            Status::Over => 5,
            Status::TooMany => 6,
            Status::Context => 7,
            Status::Memory => 8,
            Status::Closed => 9,
            Status::Text => 10,
            Status::Line => 11,
            Status::Room => 12,
            Status::Bounds => 13,
            Status::Argument => 14,
            Status::Rules => 15,
            Status::Misfit => 16,
            Status::NoAsk => 17,
        }
    }
}

impl From<AllocError> for Status {
    ghost use Rattle.std.specs.Prelude.{◌≡◌};
    ghost use Rattle.wasi_embed.specs.declared.status.Status.TheVariants.{Memory};

    ghost from_gives = { λ _ s. s ≡ Memory };

    fn from(_: AllocError) -> Status {
        Status::Memory
    }
}

impl From<StepError> for Status {
    ghost use Rattle.std.specs.Prelude.{◌≡◌};
    ghost use Rattle.wasi_embed.specs.Told.{status_of};

    ghost from_gives = { λ e s. s ≡ status_of e };

    fn from(error: StepError) -> Status {
        match error {
            StepError::Over => Status::Over,
            StepError::TooMany => Status::TooMany,
            StepError::NoContext(_) => Status::Context,
            StepError::Memory => Status::Memory,
        }
    }
}

impl From<Refusal> for Status {
    ghost use Rattle.std.specs.Prelude.{◌≡◌};
    ghost use Rattle.wasi_embed.specs.Told.{refused_as};

    ghost from_gives = { λ r s. s ≡ refused_as r };

    fn from(refusal: Refusal) -> Status {
        match refusal {
            Refusal::Argument => Status::Argument,
            Refusal::Bounds => Status::Bounds,
            Refusal::Room => Status::Room,
            Refusal::Memory => Status::Memory,
        }
    }
}
