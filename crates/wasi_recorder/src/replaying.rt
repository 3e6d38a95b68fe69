//! Runs a script on the answers of a recorded log.

ghost use Rattle.std.specs.Prelude.{◌≡◌, ◌<◌, ◌^◌, true, IfOk, IfErr, None, length};
ghost use Rattle.std.specs.List.{list_all};
ghost use Rattle.wasi_world.specs.Contexts.{AreNumbered};
ghost use Rattle.wasi_replay.specs.Recorded.{fits_entry};
ghost use Rattle.wasi_recorder.specs.Outcome.{Replayed, Compares, Stops};
ghost use Rattle.wasi_recorder.specs.Outcome.{first_difference, Finishes};
ghost use Rattle.wasi_recorder.specs.Causes.{Causes, ReplayCompletes};

use std::alloc::Global;
use std::marker::Brand;
use wasi_replay::{Recorded, ReplayWorld};
use wasi_run::{RunEnd, RunError, run_script};
use wasi_world::{Entry, WasiSocketsCtx};
use world_io::{GrowingSink, Sink, Source, write_all};

/// How a replay ended.
#[derive(Clone, Copy, Debug, PartialEq, Eq)]
pub enum ReplayEnd {
    /// The run asked just what is recorded, and ended so.
    Same(RunEnd),
    /// The place, counted from 0, of the first recorded entry that the run didn't ask next; as many
    /// as are recorded, where it asked more.
    Differs(u32),
}

/// Where the run differs that made so many calls, of as many recorded ones: where its log does, or
/// after all its calls, where more are recorded.
pub(crate) fn first_difference(differs: Option<u32>, made: usize, count: usize) -> Option<u32>
    requires { differs ≡ None → made < 2 ^ 32 }
    ensures { result ≡ first_difference differs made count }
{
    match differs {
        Some(place) => Some(place),
        None if made < count => Some(made as u32),
        None => None,
    }
}

/// Ends a replay whose replies are these bytes, of which none were written. A run into memory fails
/// to write only where memory ran out.
pub(crate) fn finish<K: Sink>(
    outcome: Result<RunEnd, RunError>,
    differs: Option<u32>,
    replies: &[u8],
    writer: &mut K,
) -> Result<ReplayEnd, RunError>
    ensures { Finishes outcome differs replies.now (K.writing writer.old) (K.writing writer.new)
        result }
{
    let end = match outcome {
        Ok(end) => end,
        Err(RunError::ReadFault) => return Err(RunError::ReadFault),
        Err(RunError::BadStep(line)) => return Err(RunError::BadStep(line)),
        Err(RunError::TooLong) => return Err(RunError::TooLong),
        Err(RunError::WriteFault | RunError::Memory) => return Err(RunError::Memory),
    };
    match differs {
        Some(place) => Ok(ReplayEnd::Differs(place)),
        None => match write_all(writer, replies) {
            Ok(()) => Ok(ReplayEnd::Same(end)),
            Err(_) => Err(RunError::WriteFault),
        },
    }
}

/// Runs the script on the answers of the recorded log, of which proofs know.
fn replay_on<R: Recorded, S: Source, K: Sink>(
    alloc: Global,
    recorded: Vec<Entry>,
    contexts: &mut Vec<WasiSocketsCtx>,
    limit: u32,
    reader: &mut S,
    writer: &mut K,
) -> Result<ReplayEnd, RunError>
    requires recorded { recorded.items ≡ R.recorded }
    requires entries { length recorded.items < 4294967295 }
    requires fits { list_all fits_entry recorded.items ≡ true }
    requires few { length contexts.old.items < 2 ^ 32 }
    requires numbered { AreNumbered contexts.old.items }
    ensures done { IfOk result (λ end. Replayed contexts.old.items limit (S.reading reader.old)
        (S.reading reader.new) (Compares contexts.old.items R.recorded (K.writing writer.old)
        (K.writing writer.new) end)) }
    ensures stopped { IfErr result (λ e. Stops contexts.old.items R.recorded limit
        (S.reading reader.old) (S.reading reader.new) (K.writing writer.old)
        (K.writing writer.new) e) }
    ensures cause { IfErr result (λ e. Causes (length contexts.old.items) limit
        (S.reading reader.old) (S.reading reader.new) e) }
    ensures complete { ReplayCompletes (length contexts.old.items) limit
        (S.reading reader.old) (S.reading reader.new) (K.writing writer.old)
        (K.writing writer.new) result }
    ensures contexts { contexts.new.items ≡ contexts.old.items }
{
    let count = recorded.len();
    let mut world = ReplayWorld::<R>::new(recorded);
    let mut replies = GrowingSink::new(alloc);
    let outcome = run_script(alloc, &mut world, contexts, limit, reader, &mut replies);
    let differs = first_difference(world.differs(), world.entries().len(), count);
    finish(outcome, differs, replies.bytes(), writer)
}

/// Runs the script that the reader gives on the answers of a recorded log. Where the run asks just
/// what is recorded, its replies are written; where it differs, nothing is, and the end says at
/// which entry.
///
/// A write of the guest is the recorded one only where the bytes that are recorded as taken stand
/// first in it. Takes memory for the replies.
pub fn replay<S: Source, K: Sink>(
    alloc: Global,
    recorded: Vec<Entry>,
    contexts: &mut Vec<WasiSocketsCtx>,
    limit: u32,
    reader: &mut S,
    writer: &mut K,
) -> Result<ReplayEnd, RunError>
    requires entries { length recorded.items < 4294967295 }
    requires fits { list_all fits_entry recorded.items ≡ true }
    requires few { length contexts.old.items < 2 ^ 32 }
    requires numbered { AreNumbered contexts.old.items }
    ensures done { IfOk result (λ end. Replayed contexts.old.items limit (S.reading reader.old)
        (S.reading reader.new) (Compares contexts.old.items recorded.items
        (K.writing writer.old) (K.writing writer.new) end)) }
    ensures stopped { IfErr result (λ e. Stops contexts.old.items recorded.items limit
        (S.reading reader.old) (S.reading reader.new) (K.writing writer.old)
        (K.writing writer.new) e) }
    ensures cause { IfErr result (λ e. Causes (length contexts.old.items) limit
        (S.reading reader.old) (S.reading reader.new) e) }
    ensures complete { ReplayCompletes (length contexts.old.items) limit
        (S.reading reader.old) (S.reading reader.new) (K.writing writer.old)
        (K.writing writer.new) result }
    ensures contexts { contexts.new.items ≡ contexts.old.items }
{
    replay_on::<Brand, S, K>(alloc, recorded, contexts, limit, reader, writer)
}
