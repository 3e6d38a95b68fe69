//! What the owner and the worker of a write stream have under one lock.

ghost use Rattle.std.specs.Prelude.{◌≡◌, ◌≤◌, ◌<◌, IfOk, IfErr, IfSome, IfNone, OnSome, true};
ghost use Rattle.std.specs.Prelude.{false, not, ◌||◌, length, is_ok, Ok};
ghost use Rattle.wasi_pipes.specs.WriteRecord.{accept_answer};
ghost use Rattle.wasi_pipes.specs.WriteState.{fresh_state};
ghost use Rattle.wasi_writer.specs.Knows.{nothing_yet, idle};
ghost use Rattle.wasi_writer.specs.Keeps.{KeepsCounts, KeepsOwner, KeepsWorker, KeepsFlush};
ghost use Rattle.wasi_writer.specs.Answers.{after_write, after_flush, after_check, after_push};
ghost use Rattle.wasi_writer.specs.Answers.{with_bytes, TrapCause, ErrorCause, IsRefused, IsFull};
ghost use Rattle.wasi_writer.specs.Answers.{HasTask, Settled};

use crate::names::Names;
use crate::owner_facts::{OwnerFacts, OwnerKeys};
use crate::task::Task;
use crate::worker_facts::{WorkerFacts, WorkerKeys};
use bytes::Bytes;
use std::alloc::AllocError;
use std::sync::Wait;
use wasi_addr::ErrorCode;
use wasi_pipes::{Work, WriteCore};
use wasi_streams::StreamError;
use worker_shared::{Line, PopEnd, PushEnd};

/// The core of a write stream, beside what each side knows of it. One method is one hold of the
/// lock.
#[derive(Drop)]
pub struct Locked<N: Names> {
    core: WriteCore,
    owner: OwnerFacts<N>,
    worker: WorkerFacts<N>,
    ghost counts: { KeepsCounts N.initial core.state owner worker },
    ghost owner_knows: { KeepsOwner core.state owner worker },
    ghost worker_knows: { KeepsWorker core.state owner worker },
    ghost flushes: { KeepsFlush core.state owner worker },
}

impl<N: Names> Locked<N> {
    /// What a new stream has under its lock.
    pub fn new(core: WriteCore, owner: OwnerFacts<N>, worker: WorkerFacts<N>) -> Locked<N>
        requires core { core.state ≡ fresh_state N.initial }
        requires knows { (owner ≡ nothing_yet) × (worker ≡ idle) }
    {
        Locked {
            core,
            owner,
            worker,
        }
    }

    /// The owner writes a chunk: it is accepted and pushed onto the line, both under one hold of
    /// the lock. An empty one isn't pushed.
    ///
    /// Out of memory nothing changes.
    pub fn write<R: Wait>(
        &mut self,
        rt: &R,
        keys: &mut OwnerKeys<N>,
        line: &Line,
        push: &mut PushEnd,
        chunk: Bytes,
    ) -> Result<(), StreamError>
        requires { push.old.line ≡ line.now }
        ensures knows { keys.new ≡ after_write keys.old (length chunk) result }
        ensures pushed { push.new ≡ after_push push.old chunk result }
        ensures cause { IfErr result (ErrorCause keys.old (TrapCause N.initial keys.old
            (length chunk))) }
        ensures refused { IsRefused keys.old result }
    {
        self.owner.agree(keys);
        let len = chunk.len();
        if len == 0 || !self.core.would_accept(len) {
            return self.accept_none(keys, len);
        }
        self.core.reserve()?;
        if push.push(rt, line, chunk).is_err() {
            return Err(StreamError::Memory(AllocError));
        }
        self.accept(keys, len)
    }

    /// The owner asks for a flush.
    pub fn flush(&mut self, keys: &mut OwnerKeys<N>) -> Result<(), StreamError>
        ensures knows { keys.new ≡ after_flush keys.old result }
        ensures cause { IfErr result (ErrorCause keys.old (λ kind. ⊥)) }
        ensures refused { IsRefused keys.old result }
    {
        self.owner.agree(keys);
        let result = self.core.flush();
        match &result {
            Ok(()) => self.owner.ask_flush(keys),
            Err(StreamError::LastOperationFailed(_)) => self.owner.tell(keys),
            Err(_) => {}
        }
        result
    }

    /// The owner asks how many bytes it may write.
    pub fn check(&mut self, keys: &mut OwnerKeys<N>) -> Result<usize, StreamError>
        ensures knows { keys.new ≡ after_check keys.old result }
        ensures cause { IfErr result (ErrorCause keys.old (λ kind. ⊥)) }
        ensures refused { IsRefused keys.old result }
        ensures bound { IfOk result (λ count. count ≤ N.initial) }
        ensures none { IfOk result (λ count. count ≡ 0 → IsFull N.initial keys.old) }
        ensures ready { keys.old.ready ≡ true → IfOk result (λ count. 0 < count) }
    {
        self.owner.agree(keys);
        let result = self.core.check();
        match &result {
            Ok(count) => self.owner.permit(keys, *count as u64),
            Err(StreamError::LastOperationFailed(_)) => self.owner.tell(keys),
            Err(_) => {}
        }
        result
    }

    /// The owner looks whether it needn't wait.
    pub fn poll_ready(&mut self, keys: &mut OwnerKeys<N>) -> bool
        ensures yes { result ≡ true → keys.new ≡ record keys.old { ready = true } }
        ensures no { result ≡ false → (keys.new ≡ keys.old) × IsFull N.initial keys.old }
        ensures ended { result ≡ false → (keys.old.told ≡ false) × (keys.old.stopped ≡ false) }
    {
        self.owner.agree(keys);
        let ready = self.core.is_ready();
        if ready {
            self.owner.find_ready(keys);
        }
        ready
    }

    /// The owner stops the stream.
    pub fn cancel(&mut self, keys: &mut OwnerKeys<N>)
        ensures { keys.new ≡ record keys.old { stopped = true } }
    {
        self.owner.agree(keys);
        let done = self.owner.is_done();
        self.core.stop();
        self.owner.stop(keys, done);
    }

    /// Where nothing is left to wait for, the owner stops the stream, and is told whether it was
    /// stopped before.
    pub fn close(&mut self, keys: &mut OwnerKeys<N>) -> Option<bool>
        ensures was { IfSome result (λ cancelled. cancelled ≡ keys.old.stopped) }
        ensures some { OnSome result (keys.new ≡ record keys.old
            { stopped = true; done = not keys.old.stopped || keys.old.done }) }
        ensures none { IfNone result (keys.new ≡ keys.old) }
    {
        self.owner.agree(keys);
        if !self.core.is_done() {
            return None;
        }
        let cancelled = self.owner.is_stopped();
        let done = !cancelled || self.owner.is_done();
        self.core.stop();
        self.owner.stop(keys, done);
        Some(cancelled)
    }

    /// What each side knows, once both are back in one place.
    pub fn settle(&mut self, owner: &mut OwnerKeys<N>, worker: &mut WorkerKeys<N>)
        ensures same { (owner.new ≡ owner.old) × (worker.new ≡ worker.old) }
        ensures settled { Settled owner.old worker.old }
    {
        self.owner.agree(owner);
        self.worker.agree(worker);
    }

    /// The worker looks for work. None where there is nothing to do yet.
    pub fn next<R: Wait>(
        &mut self,
        rt: &R,
        keys: &mut WorkerKeys<N>,
        line: &Line,
        pop: &mut PopEnd,
    ) -> Option<Task>
        requires line { pop.old.line ≡ line.now }
        requires hand { keys.old.hand ≡ false }
        ensures some { IfSome result (HasTask keys.old pop.old keys.new pop.new) }
        ensures none { IfNone result ((keys.new ≡ keys.old) × (pop.new ≡ pop.old)) }
    {
        self.worker.agree(keys);
        match self.core.peek() {
            Work::Write(_) => {
                let Some(chunk) = pop.pop(rt, line) else {
                    return Some(Task::Again);
                };
                self.core.pop();
                self.worker.take(keys);
                Some(Task::Write(chunk))
            }
            Work::Flush => {
                self.worker.drain(keys);
                Some(Task::Flush)
            }
            Work::Stop => Some(Task::Stop),
            Work::Idle => None,
        }
    }

    /// The worker has wholly written the chunk in its hand.
    pub fn wrote(&mut self, keys: &mut WorkerKeys<N>)
        requires { keys.old.hand ≡ true }
        ensures { keys.new ≡ record keys.old { hand = false } }
    {
        self.worker.agree(keys);
        self.core.wrote();
        self.worker.write(keys);
    }

    /// The worker has flushed the sink.
    pub fn flushed(&mut self, keys: &mut WorkerKeys<N>)
        requires { keys.old.drained ≡ true }
        ensures { keys.new ≡ record keys.old { drained = false; flushed = true } }
    {
        self.worker.agree(keys);
        self.core.flushed();
        self.worker.flush(keys);
    }

    /// The worker's first fault.
    pub fn failed(&mut self, keys: &mut WorkerKeys<N>, code: ErrorCode)
        requires { keys.old.met ≡ false }
        ensures { keys.new ≡ record keys.old { met = true; drained = false } }
    {
        self.worker.agree(keys);
        self.core.failed(code);
        self.worker.fail(keys);
    }

    /// A chunk that was pushed is accepted.
    fn accept(&mut self, keys: &mut OwnerKeys<N>, len: usize) -> Result<(), StreamError>
        requires agreed { self.old.owner ≡ keys.old }
        requires bytes { 0 < len }
        requires fits { accept_answer self.old.core.state.flags self.old.core.state.budget len
            ≡ Ok tt }
        requires room { self.old.core.room ≡ true }
        ensures ok { result ≡ Ok tt }
        ensures knows { keys.new ≡ with_bytes keys.old len }
        ensures open { (keys.old.told ≡ false) × (keys.old.stopped ≡ false) }
    {
        let result = self.core.accept(len);
        self.owner.accept(keys, len as u64);
        result
    }

    /// A write that pushes nothing: it is refused, or has no bytes.
    fn accept_none(&mut self, keys: &mut OwnerKeys<N>, len: usize) -> Result<(), StreamError>
        requires agreed { self.old.owner ≡ keys.old }
        requires none { 0 < len → is_ok (accept_answer self.old.core.state.flags
            self.old.core.state.budget len) ≡ false }
        ensures knows { keys.new ≡ after_write keys.old len result }
        ensures empty { IfOk result (λ done. len ≡ 0) }
        ensures cause { IfErr result (ErrorCause keys.old (TrapCause N.initial keys.old len)) }
        ensures refused { IsRefused keys.old result }
    {
        let result = self.core.accept(len);
        if let Err(StreamError::LastOperationFailed(_)) = &result {
            self.owner.tell(keys);
        }
        result
    }
}
