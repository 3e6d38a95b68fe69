//! The session of a host, whether its log is kept or not.

ghost use Rattle.std.specs.Prelude.{◌≡◌, List, [], IfSome, Some, Err};
ghost use Rattle.wasi_world.specs.Seen.{Seen};
ghost use Rattle.wasi_steps.specs.declared.step.Step.{Step};
ghost use Rattle.wasi_steps.specs.declared.reply.Reply.{Reply};
ghost use Rattle.wasi_session.specs.declared.error.StepError.{StepError};
ghost use Rattle.wasi_session.specs.Did.{Did, DidNext, HasWhy, may_step, is_over_after};
ghost use Rattle.wasi_embed.specs.HasDid.{state_of, first_log};

use wasi_asking::AskingWorld;
use wasi_net::{Linux, SystemWorld};
use wasi_replay::RecordingWorld;
use wasi_session::{Reply, Session, Step, StepError};
use wasi_world::Entry;

/// The system's sockets, with checks that rules and the embedder decide.
pub type Network = AskingWorld<SystemWorld<Linux>>;

/// The session of a host, whether its log is kept or not.
#[derive(Drop)]
pub enum Kept {
    Silent(Session<Network>),
    Noted(Session<RecordingWorld<Network>>),
}

impl Kept {
    /// Does a step, as [`Session::step`] does.
    pub fn step(&mut self, step: Step) -> Result<Reply, StepError>
        ensures refused { (e : StepError) → may_step (state_of self.old) step ≡ Err e
            → (result ≡ Err e) × (self.new ≡ self.old) }
        ensures why { HasWhy (state_of self.old) step result }
        ensures over { (state_of self.new).over
            ≡ is_over_after (state_of self.old).over result }
        ensures did { (steps : List Step) (replies : List Reply) (start : Seen)
            → Did (state_of self.old) steps replies start
            → DidNext result step steps replies start (state_of self.new) }
        ensures contexts { (state_of self.new).contexts ≡ (state_of self.old).contexts }
        ensures kind { first_log self.new ≡ first_log self.old }
    {
        match self {
            Kept::Silent(session) => session.step(step),
            Kept::Noted(session) => session.step(step),
        }
    }

    /// Answers a check of this number; and whether it waited for an answer. Asks nothing.
    pub fn decide(&mut self, ask: u64, yes: bool) -> bool
        ensures same { state_of self.new ≡ state_of self.old }
        ensures kind { first_log self.new ≡ first_log self.old }
    {
        match self {
            Kept::Silent(session) => session.decide(ask, yes),
            Kept::Noted(session) => session.decide(ask, yes),
        }
    }

    /// The network, to look at.
    pub fn network(&self) -> &Network {
        match self {
            Kept::Silent(session) => session.world(),
            Kept::Noted(session) => session.world().inner(),
        }
    }

    /// The log so far, where it is kept.
    pub fn entries(&self) -> Option<&[Entry]>
        ensures kind { IfSome result (λ log. first_log self.now ≡ Some []) }
        ensures log { IfSome result (λ log. (state_of self.now).seen.log ≡ Some log.now) }
    {
        match self {
            Kept::Silent(_) => None,
            Kept::Noted(session) => Some(session.world().entries()),
        }
    }

    /// Ends the session, and closes what is open.
    pub fn finish(self) {
        match self {
            Kept::Silent(session) => drop(session.finish()),
            Kept::Noted(session) => drop(session.finish()),
        }
    }
}
