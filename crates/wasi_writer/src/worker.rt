//! The worker of a write stream.

ghost use Rattle.std.specs.Prelude.{◌≡◌, OnOk, OnErr, true, false, [], length, is_err};
ghost use Rattle.world_io.specs.Io.{Writing, HasFlushed};
ghost use Rattle.world_io.specs.Written.{TookAll, TookPart};
ghost use Rattle.wasi_writer.specs.Knows.{idle};
ghost use Rattle.wasi_writer.specs.Answers.{HasTask};
ghost use Rattle.wasi_writer.specs.Worked.{Worked};

use crate::names::Names;
use crate::shared::Shared;
use crate::task::Task;
use crate::worker_facts::WorkerKeys;
use bytes::Bytes;
use std::alloc::Global;
use std::sync::{Arc, Wait};
use std::thread::Threads;
use wasi_addr::ErrorCode;
use wasi_spawn::Job;
use worker_shared::PopEnd;
use world_io::{Failed, Sink, write_all};

/// The worker's side of a write stream.
#[derive(Drop)]
pub struct WorkerSide<N: Names> {
    pub(crate) shared: Arc<Shared<N>, Global>,
    pub(crate) pop: PopEnd,
    pub(crate) keys: WorkerKeys<N>,
    pub ghost ours: { pop.line ≡ N.line },
    pub ghost counted: { keys.popped ≡ length pop.chunks },
}

/// Writes the chunks of a write stream to its sink. It takes no memory.
#[derive(Drop)]
pub struct WriteWorker<K: Sink, N: Names> {
    pub(crate) sink: K,
    pub(crate) side: WorkerSide<N>,
    ghost begins: { (side.keys ≡ idle) × (side.pop.chunks ≡ []) },
}

/// What a worker gives back.
#[derive(Drop)]
pub struct WriteEnd<K: Sink, N: Names> {
    pub(crate) sink: K,
    pub(crate) side: WorkerSide<N>,
    pub(crate) failed: bool,
    pub ghost met: { failed ≡ side.keys.met },
}

impl<N: Names> WorkerSide<N> {
    /// Waits for the next task.
    fn next<R: Wait>(&mut self, rt: &R) -> Task
        requires { self.old.keys.hand ≡ false }
        ensures { HasTask self.old.keys self.old.pop self.new.keys self.new.pop result }
    {
        let WorkerSide { shared, pop, keys } = self;
        shared.next(rt, keys, pop)
    }

    /// The chunk in hand is wholly written.
    fn wrote<R: Wait>(&mut self, rt: &R)
        requires { self.old.keys.hand ≡ true }
        ensures keys { self.new.keys ≡ record self.old.keys { hand = false } }
        ensures pop { self.new.pop ≡ self.old.pop }
    {
        self.shared.wrote(rt, &mut self.keys);
    }

    /// The sink is flushed.
    fn flushed<R: Wait>(&mut self, rt: &R)
        requires { self.old.keys.drained ≡ true }
        ensures keys { self.new.keys ≡ record self.old.keys { drained = false; flushed = true } }
        ensures pop { self.new.pop ≡ self.old.pop }
    {
        self.shared.flushed(rt, &mut self.keys);
    }

    /// A call of the sink failed.
    fn failed<R: Wait>(&mut self, rt: &R)
        requires { self.old.keys.met ≡ false }
        ensures keys { self.new.keys ≡ record self.old.keys { met = true; drained = false } }
        ensures pop { self.new.pop ≡ self.old.pop }
    {
        self.shared.failed(rt, &mut self.keys, ErrorCode::Other);
    }
}

/// Works until the stream is stopped, or a call of the sink fails.
fn work<K: Sink, N: Names, R: Wait>(
    rt: &R,
    sink: &mut K,
    side: &mut WorkerSide<N>,
) -> Result<(), Failed>
    requires { (side.old.keys ≡ idle) × (side.old.pop.chunks ≡ []) }
    ensures worked { Worked (K.writing sink.old) side.new.pop.chunks side.new.keys
        (K.writing sink.new) }
    ensures met { side.new.keys.met ≡ is_err result }
{
    for _ in rt.forever() {
        if !step(rt, sink, side)? {
            return Ok(());
        }
    }
    unreachable!()
}

/// Waits for a task and does it. Returns whether there may be another.
fn step<K: Sink, N: Names, R: Wait>(
    rt: &R,
    sink: &mut K,
    side: &mut WorkerSide<N>,
) -> Result<bool, Failed>
    requires { (side.old.keys.hand ≡ false) × (side.old.keys.met ≡ false) }
    ensures worked { (began : Writing) → Worked began side.old.pop.chunks side.old.keys
        (K.writing sink.old) → Worked began side.new.pop.chunks side.new.keys (K.writing sink.new) }
    ensures met { side.new.keys.met ≡ is_err result }
    ensures hand { OnOk result (side.new.keys.hand ≡ false) }
{
    match side.next(rt) {
        Task::Write(chunk) => {
            write_chunk(rt, sink, side, &chunk)?;
            Ok(true)
        }
        Task::Flush => {
            flush_sink(rt, sink, side)?;
            Ok(true)
        }
        Task::Again => Ok(true),
        Task::Stop => Ok(false),
    }
}

/// Writes the chunk in hand.
fn write_chunk<K: Sink, N: Names, R: Wait>(
    rt: &R,
    sink: &mut K,
    side: &mut WorkerSide<N>,
    chunk: &Bytes,
) -> Result<(), Failed>
    requires { (side.old.keys.hand ≡ true) × (side.old.keys.met ≡ false) }
    ensures ok { OnOk result (TookAll (K.writing sink.old) chunk.now (K.writing sink.new)) }
    ensures err { OnErr result (TookPart (K.writing sink.old) chunk.now (K.writing sink.new)) }
    ensures wrote { OnOk result (side.new.keys ≡ record side.old.keys { hand = false }) }
    ensures failed { OnErr result (side.new.keys ≡ record side.old.keys
        { met = true; drained = false }) }
    ensures pop { side.new.pop ≡ side.old.pop }
{
    if let Err(failed) = write_all(sink, chunk.as_slice()) {
        side.failed(rt);
        return Err(failed);
    }
    side.wrote(rt);
    Ok(())
}

/// Flushes the sink.
fn flush_sink<K: Sink, N: Names, R: Wait>(
    rt: &R,
    sink: &mut K,
    side: &mut WorkerSide<N>,
) -> Result<(), Failed>
    requires { (side.old.keys.drained ≡ true) × (side.old.keys.met ≡ false) }
    ensures sink { HasFlushed (K.writing sink.old) (K.writing sink.new) result }
    ensures flushed { OnOk result (side.new.keys ≡ record side.old.keys
        { drained = false; flushed = true }) }
    ensures failed { OnErr result (side.new.keys ≡ record side.old.keys
        { met = true; drained = false }) }
    ensures pop { side.new.pop ≡ side.old.pop }
{
    if let Err(failed) = sink.flush() {
        side.failed(rt);
        return Err(failed);
    }
    side.flushed(rt);
    Ok(())
}

impl<K: Sink + Drop + Send + 'static, N: Names + Send + Sync + 'static> Job for WriteWorker<K, N> {
    type Out = WriteEnd<K, N>;

    ghost may_give = { λ job end. Worked (K.writing job.sink) end.side.pop.chunks end.side.keys
        (K.writing end.sink) };

    fn run<R: Threads + Wait>(self, rt: &R) -> WriteEnd<K, N> {
        let WriteWorker { mut sink, mut side } = self;
        let failed = work(rt, &mut sink, &mut side).is_err();
        WriteEnd { sink, side, failed }
    }
}
