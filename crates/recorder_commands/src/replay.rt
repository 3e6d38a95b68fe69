//! Runs a script on the answers of a log.

ghost use Rattle.std.specs.Prelude.{◌≡◌, ◌<◌, ◌^◌, [], true, length};
ghost use Rattle.std.specs.List.{list_all};
ghost use Rattle.wasi_world.specs.Contexts.{AreNumbered};
ghost use Rattle.wasi_replay.specs.Recorded.{fits_entry};
ghost use Rattle.recorder_commands.specs.Replay.{RunsOnLog, ReplayEnds, status_of, place_of};
ghost use Rattle.recorder_commands.specs.Replay.{RunsOnCut, status_of_front, place_of_front};

use crate::ended::Ended;
use crate::log::{FoundLog, read_log};
use crate::status::RecorderStatus;
use std::alloc::Global;
use wasi_program::Status;
use wasi_program::status::bad_line;
use wasi_recorder::{FrontEnd, ReplayEnd, replay, replay_front};
use wasi_run::RunError;
use wasi_world::{Entry, WasiSocketsCtx};
use world_io::{Sink, Source};

/// How a replay is reported.
fn status_of(outcome: Result<ReplayEnd, RunError>) -> RecorderStatus
    ensures { result ≡ status_of outcome }
{
    match outcome {
        Ok(ReplayEnd::Same(_)) => RecorderStatus::Of(Status::Ok),
        Ok(ReplayEnd::Differs(_)) => RecorderStatus::Differs,
        Err(error) => RecorderStatus::Of(Status::of_run(Err(error))),
    }
}

/// The place of the first entry that differs, counted from 0, or the line of a step that is none,
/// counted from 1, else 0.
fn place_of(outcome: Result<ReplayEnd, RunError>) -> u32
    ensures { result ≡ place_of outcome }
{
    match outcome {
        Ok(ReplayEnd::Differs(place)) => place,
        Ok(ReplayEnd::Same(_)) => 0,
        Err(error) => bad_line(Err(error)),
    }
}

/// How a replay of a log that was cut is reported.
fn status_of_front(outcome: Result<FrontEnd, RunError>) -> RecorderStatus
    ensures { result ≡ status_of_front outcome }
{
    match outcome {
        Ok(FrontEnd::LogEnds) => RecorderStatus::LogEnds,
        Ok(FrontEnd::Of(end)) => status_of(Ok(end)),
        Err(error) => status_of(Err(error)),
    }
}

/// Its place, where it ended as on a whole log, else 0.
fn place_of_front(outcome: Result<FrontEnd, RunError>) -> u32
    ensures { result ≡ place_of_front outcome }
{
    match outcome {
        Ok(FrontEnd::LogEnds) => 0,
        Ok(FrontEnd::Of(end)) => place_of(Ok(end)),
        Err(error) => place_of(Err(error)),
    }
}

/// Runs the script on the answers of these entries of a log that was cut.
fn replay_cut<S: Source, K: Sink>(
    alloc: Global,
    mut contexts: Vec<WasiSocketsCtx>,
    entries: Vec<Entry>,
    limit: u32,
    source: &mut S,
    sink: &mut K,
) -> Ended
    requires numbered { AreNumbered contexts.items }
    requires few_contexts { length contexts.items < 2 ^ 32 }
    requires fits { list_all fits_entry entries.items ≡ true }
    requires few_entries { length entries.items < 4294967295 }
    ensures ran { RunsOnCut limit contexts.items entries.items (S.reading source.old)
        (S.reading source.new) (K.writing sink.old) (K.writing sink.new) result.place
        result.status }
    ensures log { result.log.items ≡ [] }
{
    let outcome = replay_front(alloc, entries, &mut contexts, limit, source, sink);
    Ended::without_log(alloc, status_of_front(outcome), place_of_front(outcome))
}

/// Runs the script on the answers of these entries.
fn replay_entries<S: Source, K: Sink>(
    alloc: Global,
    mut contexts: Vec<WasiSocketsCtx>,
    entries: Vec<Entry>,
    limit: u32,
    source: &mut S,
    sink: &mut K,
) -> Ended
    requires numbered { AreNumbered contexts.items }
    requires few_contexts { length contexts.items < 2 ^ 32 }
    requires fits { list_all fits_entry entries.items ≡ true }
    requires few_entries { length entries.items < 4294967295 }
    ensures ran { RunsOnLog limit contexts.items entries.items (S.reading source.old)
        (S.reading source.new) (K.writing sink.old) (K.writing sink.new) result.place
        result.status }
    ensures log { result.log.items ≡ [] }
{
    let outcome = replay(alloc, entries, &mut contexts, limit, source, sink);
    Ended::without_log(alloc, status_of(outcome), place_of(outcome))
}

/// Reads a log, and runs the script on its answers; of one that was cut, up to there.
pub fn replay_log<L: Source, S: Source, K: Sink>(
    alloc: Global,
    limit: u32,
    log_in: &mut L,
    source: &mut S,
    sink: &mut K,
) -> Ended
    ensures ends { ReplayEnds limit (L.reading log_in.old) (L.reading log_in.new)
        (S.reading source.old) (S.reading source.new) (K.writing sink.old) (K.writing sink.new)
        result.place result.status }
    ensures log { result.log.items ≡ [] }
{
    match read_log(alloc, log_in) {
        FoundLog::Read(contexts, entries) => {
            return replay_entries(alloc, contexts, entries, limit, source, sink);
        }
        FoundLog::Cut(contexts, entries) => {
            return replay_cut(alloc, contexts, entries, limit, source, sink);
        }
        FoundLog::Stopped(status, line) => return Ended::without_log(alloc, status, line),
    }
}
