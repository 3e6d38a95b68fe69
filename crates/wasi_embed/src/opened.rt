//! A host that is open.

ghost use Rattle.std.specs.Prelude.{◌≡◌, IfSome};
ghost use Rattle.wasi_embed.specs.HasDid.{HasDid, HasLicence, state_of};
ghost use Rattle.wasi_embed.specs.Stepped.{DidStep};
ghost use Rattle.wasi_embed.specs.Told.{told_of};

use crate::kept::Kept;
use crate::status::Status;
use wasi_session::{Reply, Step, StepError};
use wasi_world::Entry;

/// A step's result, with a status where it has no reply.
fn told_of(done: Result<Reply, StepError>) -> Result<Reply, Status>
    ensures { result ≡ told_of done }
{
    match done {
        Ok(reply) => Ok(reply),
        Err(error) => Err(Status::from(error)),
    }
}

/// A host that is open: its session, and that it did nothing but steps.
#[derive(Drop)]
pub struct Open {
    pub(crate) kept: Kept,
    pub(crate) ghost did: { ∥ HasDid kept ∥₁ },
}

impl Open {
    /// Does a step, as [`Session::step`](wasi_session::Session::step) does.
    pub fn step(&mut self, step: Step) -> Result<Reply, Status>
        ensures { DidStep (state_of self.old.kept) (state_of self.new.kept) step result }
    {
        told_of(self.kept.step(step))
    }

    /// Answers a check of this number; and whether it waited for an answer.
    pub fn decide(&mut self, ask: u64, yes: bool) -> bool
        ensures { state_of self.new.kept ≡ state_of self.old.kept }
    {
        self.kept.decide(ask, yes)
    }

    /// The log so far, which is licensed, whatever program made the calls.
    pub fn entries(&self) -> Option<&[Entry]>
        ensures { IfSome result (λ log. ∥ HasLicence self.now.kept log.now ∥₁) }
    {
        self.kept.entries()
    }
}
