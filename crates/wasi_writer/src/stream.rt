//! The write stream.

ghost use Rattle.std.specs.Prelude.{◌≡◌, ◌≤◌, ◌<◌, IfOk, IfErr, OnOk, OnErr, true, false, []};
ghost use Rattle.std.specs.Prelude.{length};
ghost use Rattle.wasi_world.specs.Seen.{Rose};
ghost use Rattle.wasi_spawn.specs.Start.{job_of, RefusedAs};
ghost use Rattle.wasi_spawn.specs.Handles.{started_with};
ghost use Rattle.wasi_writer.specs.Names.{ledgers_of};
ghost use Rattle.wasi_writer.specs.Knows.{nothing_yet, idle};
ghost use Rattle.wasi_writer.specs.Answers.{TrapCause, ErrorCause, IsRefused, IsFull};
ghost use Rattle.wasi_writer.specs.Stream.{opened, knows_of, after_write, after_flush, after_check};
ghost use Rattle.wasi_writer.specs.Stream.{outcome_of, HasFinished};

use crate::lock::Locked;
use crate::names::{Names, WriteParts};
use crate::owner_facts::{OwnerFacts, OwnerKeys};
use crate::shared::Shared;
use crate::worker::{WorkerSide, WriteEnd, WriteWorker};
use crate::worker_facts::WorkerFacts;
use bytes::Bytes;
use std::alloc::{AllocError, Global};
use std::marker::Model;
use std::sync::{Arc, Wait};
use std::thread::Threads;
use wasi_pipes::WriteCore;
use wasi_spawn::{Handle, Spawner, StartError};
use wasi_streams::StreamError;
use worker_shared::{Ended, Finished, PushEnd};
use world_io::Sink;

/// A stream whose writes a worker makes, beside its owner (`AsyncWriteStream` of the crate
/// wasmtime-wasi).
///
/// A write is accepted within the budget and is copied once; the worker hands that copy to the
/// sink. The length leaves the budget until the sink took all of it. It must be spent by
/// [`finish`](AsyncWriteStream::finish).
///
/// Each call but [`new`](AsyncWriteStream::new) takes a lock that the worker takes too, so it may
/// wait.
pub struct AsyncWriteStream<K: Sink + Drop + Send + 'static, N: Names + Send + Sync + 'static> {
    shared: Arc<Shared<N>, Global>,
    push: PushEnd,
    keys: OwnerKeys<N>,
    alloc: Global,
    handle: Handle<WriteWorker<K, N>>,
}

impl<K: Sink + Drop + Send + 'static, N: Names + Send + Sync + 'static> Model
    for AsyncWriteStream<K, N> {
    ghost use Rattle.std.specs.Prelude.{◌≡◌};
    ghost use Rattle.wasi_spawn.specs.Handles.{started_with};
    ghost use Rattle.wasi_writer.specs.Stream.{WriteStream, knows_of};

    ghost Value = { WriteStream };

    ghost view = { λ s. record {
      began = K.writing (started_with s.handle).sink;
      chunks = s.push.chunks;
      permit = s.keys.permit;
      flush = s.keys.flush;
      ready = s.keys.ready;
      told = s.keys.told;
      stopped = s.keys.stopped;
    } };

    ghost invariant = { λ s. (s.push.line ≡ N.line) × (s.keys ≡ knows_of (record {
      began = K.writing (started_with s.handle).sink;
      chunks = s.push.chunks;
      permit = s.keys.permit;
      flush = s.keys.flush;
      ready = s.keys.ready;
      told = s.keys.told;
      stopped = s.keys.stopped;
    })) };
}

impl<K: Sink + Drop + Send + 'static, N: Names + Send + Sync + 'static> AsyncWriteStream<K, N> {
    /// Starts a worker for the sink. Where there is none, the sink comes back: as `NoWorker` only
    /// where the spawner counted a refusal, as `Memory` for lack of memory.
    ///
    /// The parts hold the budget, in bytes, and are those of `N`'s names.
    pub fn new<P: Spawner, R: Threads + Wait + Copy + Send + 'static>(
        rt: &R,
        alloc: Global,
        spawner: &mut P,
        parts: WriteParts,
        writer: K,
    ) -> Result<AsyncWriteStream<K, N>, StartError<K>>
        requires ledgers { ledgers_of parts ≡ N.ledgers }
        requires line { (parts.line ≡ N.line) × (parts.budget ≡ N.initial) }
        ensures stream { IfOk result (λ stream. stream ≡ opened (K.writing writer)) }
        ensures rose { OnOk result (Rose (P.starts spawner.old) (P.starts spawner.new)) }
        ensures stayed { OnErr result (P.starts spawner.new ≡ P.starts spawner.old) }
        ensures back { IfErr result (λ e. job_of e ≡ writer) }
        ensures refused { IfErr result (λ e. RefusedAs e (P.refusals spawner.old)
            (P.refusals spawner.new)) }
    {
        let Ok(
            Sides {
                shared,
                push,
                keys,
                side,
            },
        ) = make_sides(alloc, parts)
        else {
            return Err(StartError::Memory(writer));
        };
        let worker = WriteWorker { sink: writer, side };
        match spawner.start(rt, alloc, worker) {
            Ok(handle) => Ok(AsyncWriteStream {
                shared,
                push,
                keys,
                alloc,
                handle,
            }),
            Err(e) => Err(e.map(|worker| worker.sink)),
        }
    }

    /// Writes the bytes in the background. No bytes are written at once.
    ///
    /// Reports a fault of the worker once, and then `Closed`, as after
    /// [`cancel`](AsyncWriteStream::cancel). Traps with `FlushPending` while a flush is pending,
    /// and with `Budget` for more bytes than the budget has: never for as many as the last
    /// [`check_write`](AsyncWriteStream::check_write) reported, less what was written since. Takes
    /// memory for a copy of the bytes and a place in the line; running out of it changes nothing.
    pub fn write<R: Wait>(&mut self, rt: &R, bytes: &[u8]) -> Result<(), StreamError>
        ensures stream { self.new ≡ after_write self.old bytes.now result }
        ensures cause { IfErr result (ErrorCause (knows_of self.old)
            (TrapCause N.initial (knows_of self.old) (length bytes.now))) }
        ensures refused { IsRefused (knows_of self.old) result }
    {
        let chunk = Bytes::copy_from_slice(self.alloc, bytes)?;
        self.write_chunk(rt, chunk)
    }

    /// Writes the bytes as [`write`](AsyncWriteStream::write) does, without a copy.
    pub fn write_chunk<R: Wait>(&mut self, rt: &R, chunk: Bytes) -> Result<(), StreamError>
        ensures stream { self.new ≡ after_write self.old chunk result }
        ensures cause { IfErr result (ErrorCause (knows_of self.old)
            (TrapCause N.initial (knows_of self.old) (length chunk))) }
        ensures refused { IsRefused (knows_of self.old) result }
    {
        self.shared.write(rt, &mut self.keys, &mut self.push, chunk)
    }

    /// Asks the worker to flush the sink once all that was accepted is written. Until then the
    /// budget is 0.
    ///
    /// Reports a fault of the worker once, and then `Closed`, as after
    /// [`cancel`](AsyncWriteStream::cancel).
    pub fn flush<R: Wait>(&mut self, rt: &R) -> Result<(), StreamError>
        ensures stream { self.new ≡ after_flush self.old result }
        ensures cause { IfErr result (ErrorCause (knows_of self.old) (λ kind. ⊥)) }
        ensures refused { IsRefused (knows_of self.old) result }
    {
        self.shared.flush(rt, &mut self.keys)
    }

    /// How many bytes may be written now: at most the initial budget, and 0 only after an accepted
    /// flush, or where as many bytes were accepted as the initial budget has.
    ///
    /// Reports a fault of the worker once, and then `Closed`, as after
    /// [`cancel`](AsyncWriteStream::cancel).
    pub fn check_write<R: Wait>(&mut self, rt: &R) -> Result<usize, StreamError>
        ensures stream { self.new ≡ after_check self.old result }
        ensures cause { IfErr result (ErrorCause (knows_of self.old) (λ kind. ⊥)) }
        ensures refused { IsRefused (knows_of self.old) result }
        ensures bound { IfOk result (λ count. count ≤ N.initial) }
        ensures none { IfOk result (λ count. count ≡ 0 → IsFull N.initial (knows_of self.old)) }
        ensures ready { self.old.ready ≡ true → IfOk result (λ count. 0 < count) }
    {
        self.shared.check(rt, &mut self.keys)
    }

    /// Whether its owner needn't wait: a fault is kept, the stream is closed, or there is budget.
    /// What made it ready is ended by its owner alone.
    pub fn poll_ready<R: Wait>(&mut self, rt: &R) -> bool
        ensures yes { result ≡ true → self.new ≡ record self.old { ready = true } }
        ensures no { result ≡ false → (self.new ≡ self.old) × IsFull N.initial (knows_of self.old) }
        ensures ended { result ≡ false → (self.old.told ≡ false) × (self.old.stopped ≡ false) }
    {
        self.shared.poll_ready(rt, &mut self.keys)
    }

    /// Waits until its owner needn't wait.
    pub fn ready<R: Wait>(&mut self, rt: &R)
        ensures { self.new ≡ record self.old { ready = true } }
    {
        self.shared.wait_ready(rt, &mut self.keys);
    }

    /// Stops the stream. The worker's current call of the sink continues to its end. Later calls
    /// are answered `Closed`, once a kept fault was reported.
    pub fn cancel<R: Wait>(&mut self, rt: &R)
        ensures { self.new ≡ record self.old { stopped = true } }
    {
        self.shared.cancel(rt, &mut self.keys);
    }

    /// Waits until all is written and no flush is pending, or the worker failed, or the stream was
    /// cancelled. Then waits for the worker, and gives the sink back.
    ///
    /// In every case the sink took a prefix of what was accepted, in order, and at Ok all of it. It
    /// is `Fault` where a call of the sink failed, or took nothing of a piece; else `Cancelled`
    /// where the stream was cancelled; else Ok.
    pub fn finish<P: Spawner, R: Threads + Wait>(self, rt: &R, spawner: &mut P) -> Finished<K>
        ensures finished { HasFinished self (K.writing result.inner) result.outcome }
        ensures starts { P.starts spawner.new ≡ P.starts spawner.old }
    {
        let AsyncWriteStream {
            shared,
            push,
            mut keys,
            alloc: _,
            handle,
        } = self;
        let cancelled = shared.close(rt, &mut keys);
        let WriteEnd { sink, side, failed } = spawner.join(rt, handle);
        shared.settle(rt, push, keys, side.pop, side.keys);
        Finished {
            inner: sink,
            outcome: outcome_of(failed, cancelled),
        }
    }
}

/// The two sides of a stream that did nothing yet.
#[derive(Drop)]
struct Sides<N: Names> {
    shared: Arc<Shared<N>, Global>,
    push: PushEnd,
    keys: OwnerKeys<N>,
    side: WorkerSide<N>,
    ghost owner: { (push ≡ record { line = N.line; chunks = [] }) × (keys ≡ nothing_yet) },
    ghost worker: { (side.keys ≡ idle) × (side.pop.chunks ≡ []) },
}

fn make_sides<N: Names>(alloc: Global, parts: WriteParts) -> Result<Sides<N>, AllocError>
    requires ledgers { ledgers_of parts ≡ N.ledgers }
    requires line { (parts.line ≡ N.line) × (parts.budget ≡ N.initial) }
{
    let WriteParts {
        budget,
        line,
        push,
        pop,
        owner,
        worker,
    } = parts;
    let (owner, keys) = OwnerFacts::<N>::open(owner);
    let (worker, worker_keys) = WorkerFacts::<N>::open(worker);
    let locked = Locked::new(WriteCore::new(alloc, budget), owner, worker);
    let (shared, theirs) = share(alloc, Shared::new(locked, line))?;
    Ok(Sides {
        shared,
        push,
        keys,
        side: WorkerSide {
            shared: theirs,
            pop,
            keys: worker_keys,
        },
    })
}

/// The lock of a stream, once for each side.
fn share<N: Names>(
    alloc: Global,
    shared: Shared<N>,
) -> Result<(Arc<Shared<N>, Global>, Arc<Shared<N>, Global>), AllocError> {
    let shared = Arc::new(alloc, shared)?;
    let theirs = Arc::try_clone(&shared)?;
    Ok((shared, theirs))
}

/// How a stream ends.
fn outcome_of(failed: bool, cancelled: bool) -> Result<(), Ended>
    ensures { result ≡ outcome_of failed cancelled }
{
    if failed {
        return Err(Ended::Fault);
    }
    if cancelled {
        return Err(Ended::Cancelled);
    }
    Ok(())
}
