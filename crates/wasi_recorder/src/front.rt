//! Runs a script on the answers of a log that was cut.

ghost use Rattle.std.specs.Prelude.{◌≡◌, ◌<◌, ◌^◌, true, None, IfOk, IfErr, length};
ghost use Rattle.std.specs.List.{list_all};
ghost use Rattle.wasi_world.specs.Contexts.{AreNumbered};
ghost use Rattle.wasi_replay.specs.Recorded.{fits_entry};
ghost use Rattle.wasi_recorder.specs.Front.{FrontReplayed, FrontStops, FinishesFront};
ghost use Rattle.wasi_recorder.specs.Front.{WritesReplies, FinishesAsWhole};
ghost use Rattle.wasi_recorder.specs.Causes.{Causes, ReplayCompletes};

use crate::replaying::{ReplayEnd, finish, first_difference};
use std::alloc::{AllocError, Global};
use std::marker::Brand;
use wasi_addr::IpSocketAddress;
use wasi_replay::{Recorded, ReplayWorld};
use wasi_run::{RunEnd, RunError, run_script};
use wasi_world::{Call, Entry, OpId, Sock, Told, WasiSocketsCtx, World};
use world_io::{GrowingSink, Sink, Source, write_all};

/// How a replay of a log that was cut ended.
#[derive(Clone, Copy, Debug, PartialEq, Eq)]
pub enum FrontEnd {
    /// The run asked just what is recorded, and then more: the replies to the lines before were
    /// written.
    LogEnds,
    /// It ended as on a whole log.
    Of(ReplayEnd),
}

/// A world that answers from a log as long as each call is the next that is recorded, and is out of
/// memory at the first call behind the last of the log: so the run ends there. A call that differs
/// before is answered as [`ReplayWorld`] does.
#[derive(Drop)]
struct FrontWorld<R: Recorded> {
    inner: ReplayWorld<R>,
    count: usize,
}

impl<R: Recorded> FrontWorld<R> {
    /// Whether all that is recorded was asked, and nothing else.
    fn is_at_end(&self) -> bool {
        is_at_end(self.inner.differs(), self.inner.entries().len(), self.count)
    }
}

impl<R: Recorded> World for FrontWorld<R> {
    ghost use Rattle.std.specs.Prelude.{Some, take};
    ghost use Rattle.wasi_world.specs.Script.{without_plan};
    ghost use Rattle.wasi_replay.specs.Replayed.{seen_of};

    ghost seen = { λ world. seen_of (take world.inner.made world.inner.entries.items)
        world.inner.ended world.inner.closings world.inner.faults };

    ghost closed = { λ world. world.inner.closed };

    ghost scripted = { λ world. without_plan (Some (take world.inner.made
        world.inner.entries.items)) };

    fn call(&mut self, op: OpId, call: Call) -> Result<Told, AllocError> {
        if self.is_at_end() {
            return Err(AllocError);
        }
        self.inner.call(op, call)
    }

    fn write(&mut self, op: OpId, sock: Sock, bytes: &[u8]) -> Result<Told, AllocError> {
        if self.is_at_end() {
            return Err(AllocError);
        }
        self.inner.write(op, sock, bytes)
    }

    fn send(
        &mut self,
        op: OpId,
        sock: Sock,
        addr: IpSocketAddress,
        bytes: &[u8],
    ) -> Result<Told, AllocError> {
        if self.is_at_end() {
            return Err(AllocError);
        }
        self.inner.send(op, sock, addr, bytes)
    }

    fn end(&mut self) {
        self.inner.end();
    }

    fn close_after_end(&mut self, sock: Sock) {
        self.inner.close_after_end(sock);
    }
}

/// Whether all that is recorded was asked, and nothing else.
fn is_at_end(differs: Option<u32>, made: usize, count: usize) -> bool
    ensures { result ≡ true → (differs ≡ None) × (made ≡ count) }
{
    differs.is_none() && made == count
}

/// Writes the replies to the lines before the log ended.
fn write_replies<K: Sink>(replies: &[u8], writer: &mut K) -> Result<FrontEnd, RunError>
    ensures { WritesReplies replies.now (K.writing writer.old) (K.writing writer.new) result }
{
    match write_all(writer, replies) {
        Ok(()) => Ok(FrontEnd::LogEnds),
        Err(_) => Err(RunError::WriteFault),
    }
}

/// Ends a replay as on a whole log.
fn finish_as_whole<K: Sink>(
    outcome: Result<RunEnd, RunError>,
    differs: Option<u32>,
    replies: &[u8],
    writer: &mut K,
) -> Result<FrontEnd, RunError>
    ensures { FinishesAsWhole outcome differs replies.now (K.writing writer.old)
        (K.writing writer.new) result }
{
    match finish(outcome, differs, replies, writer) {
        Ok(end) => Ok(FrontEnd::Of(end)),
        Err(error) => Err(error),
    }
}

/// Ends a replay whose replies are these bytes, of which none were written.
fn finish_front<K: Sink>(
    outcome: Result<RunEnd, RunError>,
    at_end: bool,
    differs: Option<u32>,
    replies: &[u8],
    writer: &mut K,
) -> Result<FrontEnd, RunError>
    ensures { FinishesFront outcome at_end differs replies.now (K.writing writer.old)
        (K.writing writer.new) result }
{
    match outcome {
        Err(RunError::Memory) if at_end => write_replies(replies, writer),
        outcome => finish_as_whole(outcome, differs, replies, writer),
    }
}

/// Runs the script on the answers of the recorded log, of which proofs know.
fn replay_front_on<R: Recorded, S: Source, K: Sink>(
    alloc: Global,
    recorded: Vec<Entry>,
    contexts: &mut Vec<WasiSocketsCtx>,
    limit: u32,
    reader: &mut S,
    writer: &mut K,
) -> Result<FrontEnd, RunError>
    requires recorded { recorded.items ≡ R.recorded }
    requires entries { length recorded.items < 4294967295 }
    requires fits { list_all fits_entry recorded.items ≡ true }
    requires few { length contexts.old.items < 2 ^ 32 }
    requires numbered { AreNumbered contexts.old.items }
    ensures done { IfOk result (λ end. FrontReplayed contexts.old.items R.recorded limit
        (S.reading reader.old) (S.reading reader.new) (K.writing writer.old)
        (K.writing writer.new) end) }
    ensures stopped { IfErr result (λ e. FrontStops contexts.old.items R.recorded limit
        (S.reading reader.old) (S.reading reader.new) (K.writing writer.old)
        (K.writing writer.new) e) }
    ensures cause { IfErr result (λ e. Causes (length contexts.old.items) limit
        (S.reading reader.old) (S.reading reader.new) e) }
    ensures complete { ReplayCompletes (length contexts.old.items) limit
        (S.reading reader.old) (S.reading reader.new) (K.writing writer.old)
        (K.writing writer.new) result }
    ensures contexts { contexts.new.items ≡ contexts.old.items }
{
    let count = recorded.len();
    let inner = ReplayWorld::<R>::new(recorded);
    let mut world = FrontWorld { inner, count };
    let mut replies = GrowingSink::new(alloc);
    let outcome = run_script(alloc, &mut world, contexts, limit, reader, &mut replies);
    let made = world.inner.entries().len();
    let first = world.inner.differs();
    let at_end = is_at_end(first, made, count);
    let place = first_difference(first, made, count);
    finish_front(outcome, at_end, place, replies.bytes(), writer)
}

/// Runs the script that the reader gives on the answers of a log that was cut. Where the run asks
/// just what is recorded and then more, it ends there, and the replies to the lines before are
/// written; else it ends as [`crate::replay`] does.
pub fn replay_front<S: Source, K: Sink>(
    alloc: Global,
    recorded: Vec<Entry>,
    contexts: &mut Vec<WasiSocketsCtx>,
    limit: u32,
    reader: &mut S,
    writer: &mut K,
) -> Result<FrontEnd, RunError>
    requires entries { length recorded.items < 4294967295 }
    requires fits { list_all fits_entry recorded.items ≡ true }
    requires few { length contexts.old.items < 2 ^ 32 }
    requires numbered { AreNumbered contexts.old.items }
    ensures done { IfOk result (λ end. FrontReplayed contexts.old.items recorded.items limit
        (S.reading reader.old) (S.reading reader.new) (K.writing writer.old)
        (K.writing writer.new) end) }
    ensures stopped { IfErr result (λ e. FrontStops contexts.old.items recorded.items limit
        (S.reading reader.old) (S.reading reader.new) (K.writing writer.old)
        (K.writing writer.new) e) }
    ensures cause { IfErr result (λ e. Causes (length contexts.old.items) limit
        (S.reading reader.old) (S.reading reader.new) e) }
    ensures complete { ReplayCompletes (length contexts.old.items) limit
        (S.reading reader.old) (S.reading reader.new) (K.writing writer.old)
        (K.writing writer.new) result }
    ensures contexts { contexts.new.items ≡ contexts.old.items }
{
    replay_front_on::<Brand, S, K>(alloc, recorded, contexts, limit, reader, writer)
}
