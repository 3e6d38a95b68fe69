//! The worker of a read stream.

ghost use Rattle.std.specs.Prelude.{◌≡◌, ◌<◌, ◌≤◌, [], ◌++◌, ◌∷◌, length, take, IfSome, IfNone};
ghost use Rattle.wasi_reader.specs.declared.stage.Stage.TheVariants.{Open, Ended, Failed, Starved};
ghost use Rattle.wasi_reader.specs.Knows.{idle};
ghost use Rattle.wasi_reader.specs.Answers.{HasOffered, IsDone};
ghost use Rattle.wasi_reader.specs.Worked.{Worked, HasStepped, HasHanded};

use crate::buffer::ReadBuffer;
use crate::names::Names;
use crate::shared::Shared;
use crate::stage::Stage;
use crate::taken::Offered;
use crate::worker_facts::WorkerKeys;
use bytes::Bytes;
use std::alloc::Global;
use std::sync::{Arc, Wait};
use std::thread::Threads;
use wasi_addr::ErrorCode;
use wasi_spawn::Job;
use worker_shared::PushEnd;
use world_io::{Failed, Source};

/// The worker's side of a read stream.
#[derive(Drop)]
pub struct WorkerSide<N: Names> {
    pub(crate) shared: Arc<Shared<N>, Global>,
    pub(crate) push: PushEnd,
    pub(crate) keys: WorkerKeys<N>,
    pub(crate) alloc: Global,
    pub ghost ours: { push.line ≡ N.line },
    pub ghost counted: { keys.pushed ≡ length push.chunks },
}

/// Reads a source into chunks of a read stream. Takes memory for each chunk.
#[derive(Drop)]
pub struct ReadWorker<S: Source, N: Names> {
    pub(crate) source: S,
    pub(crate) side: WorkerSide<N>,
    pub(crate) buffer: ReadBuffer,
    ghost begins: { (side.keys ≡ idle) × (side.push.chunks ≡ []) },
}

/// What a worker gives back.
#[derive(Drop)]
pub struct ReadEnd<S: Source, N: Names> {
    pub(crate) source: S,
    pub(crate) side: WorkerSide<N>,
    pub(crate) stage: Stage,
    pub ghost at: { side.keys.stage ≡ stage },
}

impl<N: Names> WorkerSide<N> {
    /// Waits until the slot is empty, and puts a chunk there.
    fn offer<R: Wait>(&mut self, rt: &R, chunk: Bytes) -> Offered
        requires filled { 0 < length chunk }
        requires open { self.old.keys.stage ≡ Open }
        ensures offered { HasOffered self.old.keys self.old.push chunk self.new.keys self.new.push
            result }
        ensures done { IsDone result }
    {
        let WorkerSide {
            shared,
            push,
            keys,
            alloc: _,
        } = self;
        shared.offer(rt, keys, push, chunk)
    }

    /// Hands the first bytes of the buffer on as a chunk. Returns how the worker stops, where it
    /// does: it is stopped (at `Open`), or runs out of memory.
    fn hand_on<R: Wait>(&mut self, rt: &R, buffer: &mut ReadBuffer, count: usize) -> Option<Stage>
        requires filled { (0 < count) × (count ≤ length buffer.old) }
        requires open { self.old.keys.stage ≡ Open }
        ensures handed { HasHanded result (take count buffer.old) self.old.push.chunks
            self.new.push.chunks }
        ensures stage { self.new.keys.stage ≡ Open }
    {
        let Ok(chunk) = buffer.chunk(self.alloc, count) else {
            return Some(Stage::Starved);
        };
        match self.offer(rt, chunk) {
            Offered::Put => None,
            Offered::Stopped => Some(Stage::Open),
            Offered::Refused | Offered::Full(_) => Some(Stage::Starved),
        }
    }

    /// Returns how the worker stops.
    fn stop<R: Wait>(&mut self, rt: &R, stage: Stage)
        requires { self.old.keys.stage ≡ Open }
        ensures stage { self.new.keys.stage ≡ stage }
        ensures push { self.new.push ≡ self.old.push }
    {
        match stage {
            Stage::Open => {}
            Stage::Ended => self.shared.end(rt, &mut self.keys),
            Stage::Failed => self.shared.fail(rt, &mut self.keys, ErrorCode::Other),
            Stage::Starved => self.shared.starve(rt, &mut self.keys),
        }
    }
}

/// Reads once, and hands on what came. Returns how the worker stops, where it does.
fn step<S: Source, N: Names, R: Wait>(
    rt: &R,
    source: &mut S,
    side: &mut WorkerSide<N>,
    buffer: &mut ReadBuffer,
) -> Option<Stage>
    requires open { side.old.keys.stage ≡ Open }
    ensures stepped { HasStepped result (S.reading source.old) (S.reading source.new)
        side.old.push.chunks side.new.push.chunks }
    ensures stage { side.new.keys.stage ≡ Open }
{
    match buffer.fill(source) {
        Ok(0) => Some(Stage::Ended),
        Ok(count) => side.hand_on(rt, buffer, count),
        Err(Failed) => Some(Stage::Failed),
    }
}

/// Reads until the source ends or fails, or memory is wanted, or the stream is stopped.
fn work<S: Source, N: Names, R: Wait>(
    rt: &R,
    source: &mut S,
    side: &mut WorkerSide<N>,
    buffer: &mut ReadBuffer,
) -> Stage
    requires begins { (side.old.keys ≡ idle) × (side.old.push.chunks ≡ []) }
    ensures worked { Worked (S.reading source.old) side.new.push.chunks result
        (S.reading source.new) }
    ensures stage { side.new.keys.stage ≡ result }
{
    for _ in rt.forever() {
        match step(rt, source, side, buffer) {
            None => {}
            Some(stage) => {
                side.stop(rt, stage);
                return stage;
            }
        }
    }
    unreachable!()
}

impl<S: Source + Drop + Send + 'static, N: Names + Send + Sync + 'static> Job for ReadWorker<S, N> {
    type Out = ReadEnd<S, N>;

    ghost may_give = { λ job end. Worked (S.reading job.source) end.side.push.chunks end.stage
        (S.reading end.source) };

    fn run<R: Threads + Wait>(self, rt: &R) -> ReadEnd<S, N> {
        let ReadWorker {
            mut source,
            mut side,
            mut buffer,
        } = self;
        let stage = work(rt, &mut source, &mut side, &mut buffer);
        ReadEnd {
            source,
            side,
            stage,
        }
    }
}
