//! Runs a script, and writes the log of the run.

ghost use Rattle.std.specs.Prelude.{◌≡◌, ◌<◌, ◌^◌, ℕ, List, Err, false, length};
ghost use Rattle.wasi_replay.specs.Log.{log_text};
ghost use Rattle.wasi_world.specs.Contexts.{AreNumbered};
ghost use Rattle.world_scripted.specs.Scripted.{seen_by};
ghost use Rattle.wasi_program.specs.Scenario.{IsPlanned};
ghost use Rattle.recorder_commands.specs.Log.{WritesLog};
ghost use Rattle.recorder_commands.specs.Record.{RecordsPlan, RecordEnds, status_after, place_after};

use crate::ended::Ended;
use crate::log::{Unwritten, write_log};
use crate::scenario::{FoundScenario, find_scenario};
use crate::status::RecorderStatus;
use std::alloc::Global;
use wasi_program::Status;
use wasi_program::status::bad_line;
use wasi_run::{RunEnd, RunError, run_script};
use wasi_world::{Entry, WasiSocketsCtx};
use world_io::{Sink, Source};
use world_scripted::ScriptedWorld;

/// How a run is reported whose log was written so.
pub fn status_after(
    outcome: Result<RunEnd, RunError>,
    written: Result<(), Unwritten>,
) -> RecorderStatus
    ensures { result ≡ status_after outcome written }
{
    match written {
        Ok(()) => RecorderStatus::Of(Status::of_run(outcome)),
        Err(Unwritten::Fault) => RecorderStatus::LogFault,
        Err(Unwritten::Memory) => RecorderStatus::Of(Status::Memory),
    }
}

/// The line of a step that is none, counted from 1, where that is how the run is reported, else 0.
pub fn place_after(outcome: Result<RunEnd, RunError>, written: Result<(), Unwritten>) -> u32
    ensures { result ≡ place_after outcome written }
{
    match written {
        Ok(()) => bad_line(outcome),
        Err(_) => 0,
    }
}

/// Writes the log of a run, unless memory ran out in the run.
pub fn keep_log<M: Sink>(
    alloc: Global,
    outcome: Result<RunEnd, RunError>,
    contexts: &[WasiSocketsCtx],
    log: &[Entry],
    log_out: &mut M,
) -> Result<(), Unwritten>
    ensures wrote { WritesLog (log_text contexts.now log.now) (M.writing log_out.old)
        (M.writing log_out.new) result }
    ensures no_memory { outcome ≡ Err RunError.Memory → result ≡ Err Unwritten.Memory }
{
    match outcome {
        Err(RunError::Memory) => Err(Unwritten::Memory),
        _ => write_log(alloc, contexts, log, log_out),
    }
}

/// Runs the script over a world that goes by a scenario's plan, and writes its log.
fn record_plan<M: Sink, S: Source, K: Sink>(
    alloc: Global,
    mut world: ScriptedWorld,
    mut contexts: Vec<WasiSocketsCtx>,
    limit: u32,
    log_out: &mut M,
    source: &mut S,
    sink: &mut K,
) -> Ended
    requires open { (seen_by world).ended ≡ false }
    requires numbered { AreNumbered contexts.items }
    requires few { length contexts.items < 2 ^ 32 }
    ensures { (text : List ℕ) → IsPlanned text world contexts.items
        → RecordsPlan limit text contexts.items (M.writing log_out.old) (M.writing log_out.new)
        (S.reading source.old) (S.reading source.new) (K.writing sink.old) (K.writing sink.new)
        result.log.items result.place result.status }
{
    let outcome = run_script(alloc, &mut world, &mut contexts, limit, source, sink);
    let log = world.into_entries();
    let written = keep_log(alloc, outcome, contexts.as_slice(), log.as_slice(), log_out);
    Ended {
        status: status_after(outcome, written),
        place: place_after(outcome, written),
        log,
    }
}

/// Reads the scenario, runs the script over it, and writes the log of the run.
pub fn record_run<C: Source, M: Sink, S: Source, K: Sink>(
    alloc: Global,
    limit: u32,
    scenario: &mut C,
    log_out: &mut M,
    source: &mut S,
    sink: &mut K,
) -> Ended
    ensures { RecordEnds limit (C.reading scenario.old) (C.reading scenario.new)
        (M.writing log_out.old) (M.writing log_out.new) (S.reading source.old)
        (S.reading source.new) (K.writing sink.old) (K.writing sink.new) result.log.items
        result.place result.status }
{
    match find_scenario(alloc, scenario) {
        FoundScenario::Planned(world, contexts) => {
            return record_plan(alloc, world, contexts, limit, log_out, source, sink);
        }
        FoundScenario::Stopped(status, line) => {
            return Ended::without_log(alloc, RecorderStatus::Of(status), line);
        }
    }
}
