//! What the two sides of a read stream share, and how each waits for the other.

ghost use Rattle.std.specs.Prelude.{◌≡◌, ◌<◌, true, false, length};
ghost use Rattle.wasi_reader.specs.declared.stage.Stage.TheVariants.{Open, Ended, Failed, Starved};
ghost use Rattle.wasi_reader.specs.Answers.{HasTaken, HasOffered, IsDone, Settled, HasLeft};

use crate::lock::Locked;
use crate::names::Names;
use crate::owner_facts::OwnerKeys;
use crate::taken::{Offered, Taken};
use crate::worker_facts::WorkerKeys;
use bytes::Bytes;
use std::sync::{Condvar, Mutex, Wait};
use wasi_addr::ErrorCode;
use worker_shared::{Line, PopEnd, PushEnd, count_left};

/// The lock of a read stream, and its line beside it: chunks are pushed and popped under the lock
/// alone.
#[derive(Drop)]
pub struct Shared<N: Names> {
    lock: Mutex<Locked<N>>,
    line: Line,
    /// Where the worker waits for an empty slot.
    room: Condvar,
    /// Where the owner waits for the worker.
    progress: Condvar,
    ghost ours: { line ≡ N.line },
}

impl<N: Names> Shared<N> {
    /// The lock, with the stream's line beside it.
    pub fn new(locked: Locked<N>, line: Line) -> Shared<N>
        requires { line ≡ N.line }
    {
        Shared {
            lock: Mutex::new(locked),
            line,
            room: Condvar::new(),
            progress: Condvar::new(),
        }
    }

    /// The owner takes what there is.
    pub fn take<R: Wait>(&self, rt: &R, keys: &mut OwnerKeys<N>, pop: &mut PopEnd) -> Taken
        requires line { pop.old.line ≡ N.line }
        requires first { keys.old.heard ≡ Open }
        ensures { HasTaken keys.old pop.old keys.new pop.new result }
    {
        for _ in rt.forever() {
            if let Some(taken) = self.lock.lock(rt).take(rt, keys, &self.line, pop) {
                self.room.notify_one();
                return taken;
            }
        }
        unreachable!()
    }

    /// The owner looks whether it needn't wait.
    pub fn poll_ready<R: Wait>(&self, rt: &R, keys: &mut OwnerKeys<N>) -> bool
        ensures yes { result ≡ true → keys.new ≡ record keys.old { ready = true } }
        ensures no { result ≡ false → (keys.new ≡ keys.old) × (keys.old.ready ≡ false)
            × (keys.old.stopped ≡ false) }
    {
        self.lock.lock(rt).poll_ready(keys)
    }

    /// The owner waits until it needn't.
    pub fn wait_ready<R: Wait>(&self, rt: &R, keys: &mut OwnerKeys<N>)
        ensures { keys.new ≡ record keys.old { ready = true } }
    {
        let mut guard = self.lock.lock(rt);
        for _ in rt.forever() {
            if guard.poll_ready(keys) {
                return;
            }
            guard = self.progress.wait(rt, guard);
        }
        unreachable!()
    }

    /// The owner stops the stream.
    pub fn stop<R: Wait>(&self, rt: &R, keys: &mut OwnerKeys<N>)
        ensures { keys.new ≡ record keys.old { stopped = true } }
    {
        self.lock.lock(rt).stop(keys);
        self.room.notify_one();
    }

    /// The worker puts a chunk into the slot, for which it waits until that is empty, or the stream
    /// is stopped.
    pub fn offer<R: Wait>(
        &self,
        rt: &R,
        keys: &mut WorkerKeys<N>,
        push: &mut PushEnd,
        chunk: Bytes,
    ) -> Offered
        requires line { push.old.line ≡ N.line }
        requires filled { 0 < length chunk }
        requires open { keys.old.stage ≡ Open }
        ensures offered { HasOffered keys.old push.old chunk keys.new push.new result }
        ensures done { IsDone result }
    {
        let mut chunk = chunk;
        let mut guard = self.lock.lock(rt);
        for _ in rt.forever() {
            match guard.offer(rt, keys, &self.line, push, chunk) {
                Offered::Full(back) => chunk = back,
                offered => {
                    drop(guard);
                    self.progress.notify_one();
                    return offered;
                }
            }
            guard = self.room.wait(rt, guard);
        }
        unreachable!()
    }

    /// The worker has met the end of its source.
    pub fn end<R: Wait>(&self, rt: &R, keys: &mut WorkerKeys<N>)
        requires { keys.old.stage ≡ Open }
        ensures { keys.new ≡ record keys.old { stage = Ended } }
    {
        self.lock.lock(rt).end(keys);
        self.progress.notify_one();
    }

    /// A read failed.
    pub fn fail<R: Wait>(&self, rt: &R, keys: &mut WorkerKeys<N>, code: ErrorCode)
        requires { keys.old.stage ≡ Open }
        ensures { keys.new ≡ record keys.old { stage = Failed } }
    {
        self.lock.lock(rt).fail(keys, code);
        self.progress.notify_one();
    }

    /// The worker found no memory.
    pub fn starve<R: Wait>(&self, rt: &R, keys: &mut WorkerKeys<N>)
        requires { keys.old.stage ≡ Open }
        ensures { keys.new ≡ record keys.old { stage = Starved } }
    {
        self.lock.lock(rt).starve(keys);
        self.progress.notify_one();
    }

    /// Both sides are back in one place: what was popped is a prefix of what was pushed.
    pub fn settle<R: Wait>(
        &self,
        rt: &R,
        pop: PopEnd,
        mut owner: OwnerKeys<N>,
        push: PushEnd,
        mut worker: WorkerKeys<N>,
    )
        requires line { (push.line ≡ N.line) × (pop.line ≡ N.line) }
        ensures knows { Settled owner worker }
        ensures chunks { HasLeft push.chunks pop.chunks }
    {
        self.lock.lock(rt).settle(&mut owner, &mut worker);
        count_left(rt, &self.line, push, pop);
    }
}
