//! The read stream.

ghost use Rattle.std.specs.Prelude.{◌≡◌, IfOk, IfErr, OnOk, OnErr, ◌<◌, true, false, []};
ghost use Rattle.wasi_world.specs.Seen.{Rose};
ghost use Rattle.wasi_spawn.specs.Start.{job_of, RefusedAs};
ghost use Rattle.wasi_spawn.specs.Handles.{started_with};
ghost use Rattle.wasi_streams.specs.declared.error.StreamError.TheVariants.{Closed};
ghost use Rattle.wasi_reader.specs.Names.{ledgers_of};
ghost use Rattle.wasi_reader.specs.Stream.{opened, outcome_of, IsReady, MayWait, Refilled};
ghost use Rattle.wasi_reader.specs.Stream.{EndsReads, IsCut, IsMemory, HasRead, HasFinished};

use crate::buffer::ReadBuffer;
use crate::lock::Locked;
use crate::names::{Names, ReadParts};
use crate::owner_facts::{OwnerFacts, OwnerKeys};
use crate::shared::Shared;
use crate::stage::Stage;
use crate::taken::Taken;
use crate::worker::{ReadEnd, ReadWorker, WorkerSide};
use crate::worker_facts::WorkerFacts;
use bytes::Bytes;
use std::alloc::{AllocError, Global};
use std::marker::Model;
use std::sync::{Arc, Wait};
use std::thread::Threads;
use wasi_pipes::ReadCore;
use wasi_spawn::{Handle, Spawner, StartError};
use wasi_streams::StreamError;
use worker_shared::{Ended, Finished, PopEnd};
use world_io::Source;

/// A stream whose reads a worker makes, beside its owner (`AsyncReadStream` of the crate
/// wasmtime-wasi).
///
/// The worker reads at most 65536 bytes at a time, one chunk ahead of the one that waits for the
/// owner. Beside those it keeps a buffer of 65536 bytes, and the memory of at most three earlier
/// chunks for later reads. It must be spent by [`finish`](AsyncReadStream::finish).
///
/// Each call but [`new`](AsyncReadStream::new) takes a lock that the worker takes too, so it may
/// wait.
pub struct AsyncReadStream<S: Source + Drop + Send + 'static, N: Names + Send + Sync + 'static> {
    shared: Arc<Shared<N>, Global>,
    pop: PopEnd,
    keys: OwnerKeys<N>,
    /// What is left of the chunk that was taken last.
    rest: Bytes,
    closed: bool,
    handle: Handle<ReadWorker<S, N>>,
}

impl<S: Source + Drop + Send + 'static, N: Names + Send + Sync + 'static> Model
    for AsyncReadStream<S, N> {
    ghost use Rattle.wasi_spawn.specs.Handles.{started_with};
    ghost use Rattle.wasi_reader.specs.Stream.{ReadStream, given_of};
    ghost use Rattle.wasi_reader.specs.Owned.{Owned};

    ghost Value = { ReadStream };

    ghost view = { λ s. record {
      began = S.reading (started_with s.handle).source;
      given = given_of s.pop.chunks s.rest;
      kept = s.rest;
      ready = s.keys.ready;
      stopped = s.keys.stopped;
      closed = s.closed;
      heard = s.keys.heard;
    } };

    ghost invariant = { λ s. Owned N.line s.pop s.keys s.rest s.closed };
}

impl<S: Source + Drop + Send + 'static, N: Names + Send + Sync + 'static> AsyncReadStream<S, N> {
    /// Starts a worker for the source. Where there is none, the source comes back: as `NoWorker`
    /// only where the spawner counted a refusal, as `Memory` for lack of memory.
    ///
    /// The parts are those of `N`'s names.
    pub fn new<P: Spawner, R: Threads + Wait + Copy + Send + 'static>(
        rt: &R,
        alloc: Global,
        spawner: &mut P,
        parts: ReadParts,
        reader: S,
    ) -> Result<AsyncReadStream<S, N>, StartError<S>>
        requires ledgers { ledgers_of parts ≡ N.ledgers }
        requires line { parts.line ≡ N.line }
        ensures stream { IfOk result (λ stream. stream ≡ opened (S.reading reader)) }
        ensures rose { OnOk result (Rose (P.starts spawner.old) (P.starts spawner.new)) }
        ensures stayed { OnErr result (P.starts spawner.new ≡ P.starts spawner.old) }
        ensures back { IfErr result (λ e. job_of e ≡ reader) }
        ensures refused { IfErr result (λ e. RefusedAs e (P.refusals spawner.old)
            (P.refusals spawner.new)) }
    {
        let ReadParts {
            line,
            push,
            pop,
            owner,
            worker,
        } = parts;
        let (owner, keys) = OwnerFacts::<N>::open(owner);
        let (worker, worker_keys) = WorkerFacts::<N>::open(worker);
        let locked = Locked::new(ReadCore::new(), owner, worker);
        let Ok(
            Room {
                shared,
                theirs,
                buffer,
            },
        ) = make_room(alloc, Shared::new(locked, line))
        else {
            return Err(StartError::Memory(reader));
        };
        let side = WorkerSide {
            shared: theirs,
            push,
            keys: worker_keys,
            alloc,
        };
        let worker = ReadWorker {
            source: reader,
            side,
            buffer,
        };
        match spawner.start(rt, alloc, worker) {
            Ok(handle) => Ok(AsyncReadStream {
                shared,
                pop,
                keys,
                rest: Bytes::new(),
                closed: false,
                handle,
            }),
            Err(e) => Err(e.map(|worker| worker.source)),
        }
    }

    /// Reads at most `size` bytes; no bytes where there is nothing yet.
    ///
    /// Gives the front of the chunk that was taken last, and takes the next where nothing is left
    /// of that. Where there is none, reports a fault of the worker once, and then `Closed`, as
    /// after the end and after [`cancel`](AsyncReadStream::cancel). Where the worker ran out of
    /// memory, that is reported like a fault. Takes memory to cut a chunk, and running out of it
    /// loses nothing; no byte is copied.
    pub fn read<R: Wait>(&mut self, rt: &R, size: usize) -> Result<Bytes, StreamError>
        ensures read { HasRead self.old size result self.new }
        ensures closed { self.old.closed ≡ true → (result ≡ Err Closed) × (self.new ≡ self.old) }
    {
        if !self.rest.is_empty() {
            return self.cut(size);
        }
        self.refill(rt)?;
        self.cut(size)
    }

    /// Takes the next chunk, where nothing is left of the last.
    fn refill<R: Wait>(&mut self, rt: &R) -> Result<(), StreamError>
        requires { self.old.kept ≡ [] }
        ensures ok { OnOk result (Refilled self.old self.new) }
        ensures err { IfErr result (EndsReads self.old self.new) }
        ensures closed { self.old.closed ≡ true → (result ≡ Err Closed) × (self.new ≡ self.old) }
    {
        if self.closed {
            return Err(StreamError::Closed);
        }
        match self.shared.take(rt, &mut self.keys, &mut self.pop) {
            Taken::Chunk(chunk) => {
                self.rest = chunk;
                Ok(())
            }
            Taken::Nothing => Ok(()),
            Taken::Told(e) => {
                self.closed = true;
                Err(e)
            }
        }
    }

    /// Cuts at most `size` bytes off the front of what is left of the chunk.
    fn cut(&mut self, size: usize) -> Result<Bytes, StreamError>
        ensures ok { IfOk result (λ bytes. IsCut self.old size bytes self.new) }
        ensures err { IfErr result (λ e. IsMemory e × (self.new ≡ self.old)) }
    {
        let count = size.min(self.rest.len());
        Ok(self.rest.split_to(count)?)
    }

    /// Whether the next read of at least one byte gives bytes or an error.
    pub fn poll_ready<R: Wait>(&mut self, rt: &R) -> bool
        ensures stream { self.new ≡ record self.old { ready = self.new.ready } }
        ensures yes { result ≡ true → IsReady self.new }
        ensures no { result ≡ false → (self.new ≡ self.old) × MayWait self.old }
    {
        if self.closed || !self.rest.is_empty() {
            return true;
        }
        self.shared.poll_ready(rt, &mut self.keys)
    }

    /// Waits until the next read of at least one byte gives bytes or an error.
    pub fn ready<R: Wait>(&mut self, rt: &R)
        ensures stream { self.new ≡ record self.old { ready = self.new.ready } }
        ensures ready { IsReady self.new }
    {
        if self.closed || !self.rest.is_empty() {
            return;
        }
        self.shared.wait_ready(rt, &mut self.keys);
    }

    /// Stops the stream. The worker's current call of the source continues to its end. What was
    /// read before is still given, and a kept fault reported; later reads are answered `Closed`.
    pub fn cancel<R: Wait>(&mut self, rt: &R)
        ensures { self.new ≡ record self.old { stopped = true } }
    {
        self.shared.stop(rt, &mut self.keys);
    }

    /// Stops the stream, waits for the worker, and gives the source back.
    ///
    /// In every case what reads gave is a prefix of what the source gave, in order, and all of it
    /// where a read reported the end. It is Ok where the source gave its end, `Fault` where a read
    /// of it failed, `Memory` where the worker found none, else `Cancelled`.
    pub fn finish<P: Spawner, R: Threads + Wait>(self, rt: &R, spawner: &mut P) -> Finished<S>
        ensures finished { HasFinished self (S.reading result.inner) result.outcome }
        ensures starts { P.starts spawner.new ≡ P.starts spawner.old }
    {
        let AsyncReadStream {
            shared,
            pop,
            mut keys,
            rest: _,
            closed: _,
            handle,
        } = self;
        shared.stop(rt, &mut keys);
        let ReadEnd {
            source,
            side,
            stage,
        } = spawner.join(rt, handle);
        shared.settle(rt, pop, keys, side.push, side.keys);
        Finished {
            inner: source,
            outcome: outcome_of(stage),
        }
    }
}

/// What a stream takes memory for at its start.
#[derive(Drop)]
struct Room<N: Names> {
    shared: Arc<Shared<N>, Global>,
    theirs: Arc<Shared<N>, Global>,
    buffer: ReadBuffer,
}

fn make_room<N: Names>(alloc: Global, shared: Shared<N>) -> Result<Room<N>, AllocError> {
    let shared = Arc::new(alloc, shared)?;
    let theirs = Arc::try_clone(&shared)?;
    let buffer = ReadBuffer::new(alloc)?;
    Ok(Room {
        shared,
        theirs,
        buffer,
    })
}

/// How a stream ends, whose worker is at this stage.
fn outcome_of(stage: Stage) -> Result<(), Ended>
    ensures { result ≡ outcome_of stage }
{
    match stage {
        Stage::Open => Err(Ended::Cancelled),
        Stage::Ended => Ok(()),
        Stage::Failed => Err(Ended::Fault),
        Stage::Starved => Err(Ended::Memory),
    }
}
