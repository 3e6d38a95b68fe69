//! What the two sides of a write stream share, and how each waits for the other.

ghost use Rattle.std.specs.Prelude.{◌≡◌, ◌≤◌, ◌<◌, IfOk, IfErr, true, false, not, ◌||◌, length};
ghost use Rattle.wasi_writer.specs.Answers.{after_write, after_flush, after_check, after_push};
ghost use Rattle.wasi_writer.specs.Answers.{TrapCause, ErrorCause, IsRefused, IsFull, HasTask};
ghost use Rattle.wasi_writer.specs.Answers.{Settled, HasLeft};

use crate::lock::Locked;
use crate::names::Names;
use crate::owner_facts::OwnerKeys;
use crate::task::Task;
use crate::worker_facts::WorkerKeys;
use bytes::Bytes;
use std::sync::{Condvar, Mutex, Wait};
use wasi_addr::ErrorCode;
use wasi_streams::StreamError;
use worker_shared::{Line, PopEnd, PushEnd, count_left};

/// The lock of a write stream, and its line beside it: chunks are pushed and popped under the lock
/// alone.
#[derive(Drop)]
pub struct Shared<N: Names> {
    lock: Mutex<Locked<N>>,
    line: Line,
    /// Where the worker waits for work.
    work: Condvar,
    /// Where the owner waits for the worker.
    progress: Condvar,
    ghost ours: { line ≡ N.line },
}

impl<N: Names> Shared<N> {
    /// The lock, with the stream's line beside it.
    pub fn new(locked: Locked<N>, line: Line) -> Shared<N>
        requires { line ≡ N.line }
    {
        Shared {
            lock: Mutex::new(locked),
            line,
            work: Condvar::new(),
            progress: Condvar::new(),
        }
    }

    /// The owner writes a chunk.
    pub fn write<R: Wait>(
        &self,
        rt: &R,
        keys: &mut OwnerKeys<N>,
        push: &mut PushEnd,
        chunk: Bytes,
    ) -> Result<(), StreamError>
        requires { push.old.line ≡ N.line }
        ensures knows { keys.new ≡ after_write keys.old (length chunk) result }
        ensures pushed { push.new ≡ after_push push.old chunk result }
        ensures cause { IfErr result (ErrorCause keys.old (TrapCause N.initial keys.old
            (length chunk))) }
        ensures refused { IsRefused keys.old result }
    {
        let result = self.lock.lock(rt).write(rt, keys, &self.line, push, chunk);
        self.work.notify_one();
        result
    }

    /// The owner asks for a flush.
    pub fn flush<R: Wait>(&self, rt: &R, keys: &mut OwnerKeys<N>) -> Result<(), StreamError>
        ensures knows { keys.new ≡ after_flush keys.old result }
        ensures cause { IfErr result (ErrorCause keys.old (λ kind. ⊥)) }
        ensures refused { IsRefused keys.old result }
    {
        let result = self.lock.lock(rt).flush(keys);
        self.work.notify_one();
        result
    }

    /// The owner asks how many bytes it may write.
    pub fn check<R: Wait>(&self, rt: &R, keys: &mut OwnerKeys<N>) -> Result<usize, StreamError>
        ensures knows { keys.new ≡ after_check keys.old result }
        ensures cause { IfErr result (ErrorCause keys.old (λ kind. ⊥)) }
        ensures refused { IsRefused keys.old result }
        ensures bound { IfOk result (λ count. count ≤ N.initial) }
        ensures none { IfOk result (λ count. count ≡ 0 → IsFull N.initial keys.old) }
        ensures ready { keys.old.ready ≡ true → IfOk result (λ count. 0 < count) }
    {
        self.lock.lock(rt).check(keys)
    }

    /// The owner looks whether it needn't wait.
    pub fn poll_ready<R: Wait>(&self, rt: &R, keys: &mut OwnerKeys<N>) -> bool
        ensures yes { result ≡ true → keys.new ≡ record keys.old { ready = true } }
        ensures no { result ≡ false → (keys.new ≡ keys.old) × IsFull N.initial keys.old }
        ensures ended { result ≡ false → (keys.old.told ≡ false) × (keys.old.stopped ≡ false) }
    {
        self.lock.lock(rt).poll_ready(keys)
    }

    /// The owner waits until it needn't.
    pub fn wait_ready<R: Wait>(&self, rt: &R, keys: &mut OwnerKeys<N>)
        ensures { keys.new ≡ record keys.old { ready = true } }
    {
        let mut guard = self.lock.lock(rt);
        for _ in rt.forever() {
            if guard.poll_ready(keys) {
                return;
            }
            guard = self.progress.wait(rt, guard);
        }
        unreachable!()
    }

    /// The owner stops the stream.
    pub fn cancel<R: Wait>(&self, rt: &R, keys: &mut OwnerKeys<N>)
        ensures { keys.new ≡ record keys.old { stopped = true } }
    {
        self.lock.lock(rt).cancel(keys);
        self.work.notify_one();
    }

    /// The owner waits until nothing is left to wait for, and stops the stream. Returns whether it
    /// was stopped before.
    pub fn close<R: Wait>(&self, rt: &R, keys: &mut OwnerKeys<N>) -> bool
        ensures was { result ≡ keys.old.stopped }
        ensures knows { keys.new ≡ record keys.old {
          stopped = true;
          done = not keys.old.stopped
              || keys.old.done;
        } }
    {
        let mut guard = self.lock.lock(rt);
        for _ in rt.forever() {
            if let Some(cancelled) = guard.close(keys) {
                self.work.notify_one();
                return cancelled;
            }
            guard = self.progress.wait(rt, guard);
        }
        unreachable!()
    }

    /// The worker waits for its next task.
    pub fn next<R: Wait>(&self, rt: &R, keys: &mut WorkerKeys<N>, pop: &mut PopEnd) -> Task
        requires line { pop.old.line ≡ N.line }
        requires hand { keys.old.hand ≡ false }
        ensures { HasTask keys.old pop.old keys.new pop.new result }
    {
        let mut guard = self.lock.lock(rt);
        for _ in rt.forever() {
            if let Some(task) = guard.next(rt, keys, &self.line, pop) {
                return task;
            }
            guard = self.work.wait(rt, guard);
        }
        unreachable!()
    }

    /// The worker has wholly written the chunk in its hand.
    pub fn wrote<R: Wait>(&self, rt: &R, keys: &mut WorkerKeys<N>)
        requires { keys.old.hand ≡ true }
        ensures { keys.new ≡ record keys.old { hand = false } }
    {
        self.lock.lock(rt).wrote(keys);
        self.progress.notify_one();
    }

    /// The worker has flushed the sink.
    pub fn flushed<R: Wait>(&self, rt: &R, keys: &mut WorkerKeys<N>)
        requires { keys.old.drained ≡ true }
        ensures { keys.new ≡ record keys.old { drained = false; flushed = true } }
    {
        self.lock.lock(rt).flushed(keys);
        self.progress.notify_one();
    }

    /// The worker's first fault.
    pub fn failed<R: Wait>(&self, rt: &R, keys: &mut WorkerKeys<N>, code: ErrorCode)
        requires { keys.old.met ≡ false }
        ensures { keys.new ≡ record keys.old { met = true; drained = false } }
    {
        self.lock.lock(rt).failed(keys, code);
        self.progress.notify_one();
    }

    /// Both sides are back in one place: what was popped is a prefix of what was pushed.
    pub fn settle<R: Wait>(
        &self,
        rt: &R,
        push: PushEnd,
        mut owner: OwnerKeys<N>,
        pop: PopEnd,
        mut worker: WorkerKeys<N>,
    )
        requires line { (push.line ≡ N.line) × (pop.line ≡ N.line) }
        requires counted { (owner.pushed ≡ length push.chunks)
            × (worker.popped ≡ length pop.chunks) }
        ensures knows { Settled owner worker }
        ensures chunks { HasLeft push.chunks pop.chunks (owner.done ≡ true) (worker.met ≡ false) }
    {
        self.lock.lock(rt).settle(&mut owner, &mut worker);
        count_left(rt, &self.line, push, pop);
    }
}
