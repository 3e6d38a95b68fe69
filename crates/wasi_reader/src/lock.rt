//! What the owner and the worker of a read stream have under one lock.

ghost use Rattle.std.specs.Prelude.{◌≡◌, ◌<◌, ◌+◌, None, IsSome, IfSome, IfNone, true, false};
ghost use Rattle.std.specs.Prelude.{length};
ghost use Rattle.wasi_pipes.specs.ReadState.{fresh_state};
ghost use Rattle.wasi_reader.specs.declared.stage.Stage.TheVariants.{Open, Ended, Failed, Starved};
ghost use Rattle.wasi_reader.specs.Knows.{nothing_yet, idle};
ghost use Rattle.wasi_reader.specs.Keeps.{Keeps};
ghost use Rattle.wasi_reader.specs.Answers.{HasTaken, TakesNone, HasOffered, Settled};

use crate::names::Names;
use crate::owner_facts::{OwnerFacts, OwnerKeys};
use crate::stage::Stage;
use crate::taken::{Offered, Taken};
use crate::worker_facts::{WorkerFacts, WorkerKeys};
use bytes::Bytes;
use std::sync::Wait;
use wasi_addr::ErrorCode;
use wasi_pipes::ReadCore;
use worker_shared::{Line, PopEnd, PushEnd};

/// The core of a read stream, beside what each side knows of it. One method is one hold of the
/// lock.
#[derive(Drop)]
pub struct Locked<N: Names> {
    core: ReadCore,
    owner: OwnerFacts<N>,
    worker: WorkerFacts<N>,
    ghost keeps: { Keeps core owner worker },
}

impl<N: Names> Locked<N> {
    /// What a new stream has under its lock.
    pub fn new(core: ReadCore, owner: OwnerFacts<N>, worker: WorkerFacts<N>) -> Locked<N>
        requires core { core ≡ fresh_state }
        requires knows { (owner ≡ nothing_yet) × (worker ≡ idle) }
    {
        Locked {
            core,
            owner,
            worker,
        }
    }

    /// The owner takes the chunk in the slot, or is told how the stream ended, where it did. None
    /// where the line gave no chunk, which is no event.
    pub fn take<R: Wait>(
        &mut self,
        rt: &R,
        keys: &mut OwnerKeys<N>,
        line: &Line,
        pop: &mut PopEnd,
    ) -> Option<Taken>
        requires line { pop.old.line ≡ line.now }
        requires first { keys.old.heard ≡ Open }
        ensures some { IfSome result (HasTaken keys.old pop.old keys.new pop.new) }
        ensures none { IfNone result ((keys.new ≡ keys.old) × (pop.new ≡ pop.old)) }
    {
        self.owner.agree(keys);
        if self.core.slot() == 0 {
            return Some(self.take_none(keys));
        }
        let chunk = pop.pop(rt, line)?;
        self.take_slot(keys);
        Some(Taken::Chunk(chunk))
    }

    /// The owner looks whether it needn't wait.
    pub fn poll_ready(&mut self, keys: &mut OwnerKeys<N>) -> bool
        ensures yes { result ≡ true → keys.new ≡ record keys.old { ready = true } }
        ensures no { result ≡ false → (keys.new ≡ keys.old) × (keys.old.ready ≡ false)
            × (keys.old.stopped ≡ false) }
    {
        self.owner.agree(keys);
        let ready = self.core.is_ready();
        if ready {
            self.owner.find_ready(keys);
        }
        ready
    }

    /// The owner stops the stream.
    pub fn stop(&mut self, keys: &mut OwnerKeys<N>)
        ensures { keys.new ≡ record keys.old { stopped = true } }
    {
        self.owner.agree(keys);
        self.core.stop();
        self.owner.stop(keys);
    }

    /// What each side knows, once both are back in one place.
    pub fn settle(&mut self, owner: &mut OwnerKeys<N>, worker: &mut WorkerKeys<N>)
        ensures same { (owner.new ≡ owner.old) × (worker.new ≡ worker.old) }
        ensures settled { Settled owner.old worker.old }
    {
        self.owner.agree(owner);
        self.worker.agree(worker);
    }

    /// The worker puts a chunk into the slot, if that is empty, and pushes it onto the line, both
    /// under one hold of the lock.
    pub fn offer<R: Wait>(
        &mut self,
        rt: &R,
        keys: &mut WorkerKeys<N>,
        line: &Line,
        push: &mut PushEnd,
        chunk: Bytes,
    ) -> Offered
        requires line { push.old.line ≡ line.now }
        requires filled { 0 < length chunk }
        requires open { keys.old.stage ≡ Open }
        ensures { HasOffered keys.old push.old chunk keys.new push.new result }
    {
        self.worker.agree(keys);
        if self.owner.is_stopped() {
            return Offered::Stopped;
        }
        if self.core.slot() != 0 {
            return Offered::Full(chunk);
        }
        let len = chunk.len();
        if push.push(rt, line, chunk).is_err() {
            return Offered::Refused;
        }
        self.fill_slot(keys, len);
        Offered::Put
    }

    /// The worker has met the end of its source.
    pub fn end(&mut self, keys: &mut WorkerKeys<N>)
        requires { keys.old.stage ≡ Open }
        ensures { keys.new ≡ record keys.old { stage = Ended } }
    {
        self.worker.agree(keys);
        self.core.end();
        self.worker.end(keys, Stage::Ended);
    }

    /// A read failed.
    pub fn fail(&mut self, keys: &mut WorkerKeys<N>, code: ErrorCode)
        requires { keys.old.stage ≡ Open }
        ensures { keys.new ≡ record keys.old { stage = Failed } }
    {
        self.worker.agree(keys);
        self.core.fail(code);
        self.worker.end(keys, Stage::Failed);
    }

    /// The worker found no memory.
    pub fn starve(&mut self, keys: &mut WorkerKeys<N>)
        requires { keys.old.stage ≡ Open }
        ensures { keys.new ≡ record keys.old { stage = Starved } }
    {
        self.worker.agree(keys);
        self.core.starve();
        self.worker.end(keys, Stage::Starved);
    }

    /// The owner takes the length in the slot, whose chunk it popped.
    fn take_slot(&mut self, keys: &mut OwnerKeys<N>)
        requires agreed { self.old.owner ≡ keys.old }
        requires full { IsSome self.old.core.slot }
        ensures { keys.new ≡ record keys.old { popped = keys.old.popped + 1; ready = false } }
    {
        let _ = self.core.take();
        self.owner.take(keys);
    }

    /// The owner finds the slot empty.
    fn take_none(&mut self, keys: &mut OwnerKeys<N>) -> Taken
        requires agreed { self.old.owner ≡ keys.old }
        requires empty { self.old.core.slot ≡ None }
        requires first { keys.old.heard ≡ Open }
        ensures { TakesNone keys.old keys.new result }
    {
        match self.core.take() {
            Ok(_) => Taken::Nothing,
            Err(e) => {
                self.owner.hear(keys, &e);
                Taken::Told(e)
            }
        }
    }

    /// The worker fills the slot with the length of a chunk that it pushed.
    fn fill_slot(&mut self, keys: &mut WorkerKeys<N>, len: usize)
        requires agreed { self.old.worker ≡ keys.old }
        requires empty { self.old.core.slot ≡ None }
        requires filled { 0 < len }
        requires open { keys.old.stage ≡ Open }
        ensures { keys.new ≡ record keys.old { pushed = keys.old.pushed + 1 } }
    {
        self.core.offer(len);
        self.worker.push(keys);
    }
}
