//! The steps of one guest, one after another.

ghost use Rattle.std.specs.Prelude.{◌≡◌, ◌+◌, ◌<◌, ◌^◌, IfOk, List, [], ◌∷◌, ◌++◌, false, true, Err};
ghost use Rattle.wasi_world.specs.Seen.{Seen};
ghost use Rattle.wasi_records.specs.Closing.{AsksNothing, HasClosedAll, HasClosedEach};
ghost use Rattle.wasi_records.specs.Closing.{IsFresh};
ghost use Rattle.host_store.specs.Machine.{first_state};
ghost use Rattle.wasi_steps.specs.Reply.{is_trap};
ghost use Rattle.wasi_steps.specs.declared.step.Step.{Step};
ghost use Rattle.wasi_steps.specs.declared.reply.Reply.{Reply};
ghost use Rattle.wasi_session.specs.declared.error.StepError.{StepError};
ghost use Rattle.wasi_session.specs.State.{State};
ghost use Rattle.wasi_session.specs.Did.{Did, DidNext, HasWhy, may_step, is_over_after};

use crate::error::StepError;
use std::alloc::Global;
use std::marker::Model;
use wasi_calls::Progress;
use wasi_decides::Decides;
use wasi_steps::{Reply, Step};
use wasi_world::{Waits, WasiSocketsCtx, World};

/// A guest's handles and sockets, and the world that its calls are asked of. A host makes one for
/// each guest, and through it the guest's calls, one after another.
///
/// The session owns its world, so that nothing else is asked of it in between. What the guest may
/// do is decided by the world's check, which is asked for each context by its number.
#[derive(Drop)]
pub struct Session<W: World> {
    world: W,
    contexts: Vec<WasiSocketsCtx>,
    progress: Progress,
    over: bool,
}

impl<W: World> Model for Session<W> {
    ghost use Rattle.std.specs.Prelude.{◌≡◌, false};
    ghost use Rattle.wasi_session.specs.State.{State};

    ghost Value = { State };

    ghost view = { λ s. record {
      contexts = s.contexts.items;
      machine = s.progress.machine;
      lines = s.progress.lines;
      over = s.over;
      seen = W.seen s.world;
    } };

    ghost invariant = { λ s. (W.seen s.world).ended ≡ false };
}

impl<W: World> Session<W> {
    /// A session with no handle, before its first step, over a world whose end mark isn't set.
    /// Takes no memory.
    ///
    /// A call names its context by its place in `contexts`, counted from 0.
    pub fn new(alloc: Global, world: W, contexts: Vec<WasiSocketsCtx>) -> Session<W>
        requires { (W.seen world).ended ≡ false }
        ensures contexts { result.contexts ≡ contexts.items }
        ensures seen { result.seen ≡ W.seen world }
        ensures going { result.over ≡ false }
        ensures did { Did result [] [] (W.seen world) }
    {
        Session {
            world,
            contexts,
            progress: Progress::new(alloc),
            over: false,
        }
    }

    /// Does a step of the guest, and returns its reply. Takes memory for what the step makes and
    /// for its reply.
    ///
    /// - After a step that trapped or ran out of memory the session is over: `Over`.
    /// - After 4,294,967,295 steps: `TooMany`.
    /// - A context that isn't there: `NoContext`. These three change nothing.
    /// - `Memory`: what was asked is a part of what the step asks, and it has no reply.
    pub fn step(&mut self, step: Step) -> Result<Reply, StepError>
        ensures refused { (e : StepError) → may_step self.old step ≡ Err e
            → (result ≡ Err e) × (self.new ≡ self.old) }
        ensures why { HasWhy self.old step result }
        ensures over { self.new.over ≡ is_over_after self.old.over result }
        ensures did { (steps : List Step) (replies : List Reply) (start : Seen)
            → Did self.old steps replies start
            → DidNext result step steps replies start self.new }
        ensures contexts { self.new.contexts ≡ self.old.contexts }
    {
        self.may_step(&step)?;
        let alloc = *self.contexts.allocator();
        self.over = true;
        let contexts = self.contexts.as_slice();
        let reply = self.progress.step(alloc, &mut self.world, contexts, step)?;
        self.over = reply.is_trap();
        Ok(reply)
    }

    /// Whether the step can be done.
    fn may_step(&self, step: &Step) -> Result<(), StepError>
        ensures may { result ≡ may_step self.now step.now }
        ensures numbers { IfOk result (λ done. self.now.lines + 1 < 2 ^ 32) }
    {
        if self.over {
            return Err(StepError::Over);
        }
        if self.progress.lines == u32::MAX {
            return Err(StepError::TooMany);
        }
        match step.context() {
            Some(context) if context as usize >= self.contexts.len() => {
                Err(StepError::NoContext(context))
            }
            _ => Ok(()),
        }
    }

    /// Ends the session: sets the end mark, and then closes each network socket that is open.
    /// Returns its world. Takes no memory.
    pub fn finish(self) -> W
        ensures ended { (W.seen result).ended ≡ true }
        ensures quiet { AsksNothing self.seen (W.seen result) }
        ensures closed { (steps : List Step) (replies : List Reply) (start : Seen)
            → Did self steps replies start → IsFresh start → HasClosedAll (W.seen result) }
        ensures each { (steps : List Step) (replies : List Reply) (start : Seen)
            → Did self steps replies start → IsFresh start
            → HasClosedEach (W.seen result) (W.closed result) }
    {
        let mut world = self.world;
        self.progress.finish(&mut world);
        world
    }

    /// Whether no more steps are done: one trapped or ran out of memory.
    pub fn is_over(&self) -> bool
        ensures { result ≡ self.now.over }
    {
        self.over
    }

    /// How many steps were done, the last of which is the one at which the session ended.
    pub fn steps(&self) -> u32
        ensures { result ≡ self.now.lines }
    {
        self.progress.lines
    }

    /// The world, to look at.
    pub fn world(&self) -> &W
        ensures { W.seen result.now ≡ self.now.seen }
    {
        &self.world
    }
}

impl<W: Waits> Session<W> {
    /// Waits until a call that the world answered pending may go on, for at most so many
    /// milliseconds, or without limit where they are negative; and whether one may. A world that
    /// can't tell returns `false` at once. Does no step, and all that is known of the session
    /// stays.
    pub fn wait(&mut self, timeout: i32) -> bool
        ensures { self.new ≡ self.old }
    {
        self.world.wait(timeout)
    }
}

impl<W: Decides> Session<W> {
    /// Answers a check of this number, which its world left pending; and whether it waited for an
    /// answer. Asks nothing.
    pub fn decide(&mut self, ask: u64, yes: bool) -> bool
        ensures { self.new ≡ self.old }
    {
        self.world.decide(ask, yes)
    }
}
