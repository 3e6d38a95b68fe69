//! Prints the transcript of a script.

ghost use Rattle.std.specs.Prelude.{◌≡◌, ◌++◌, ◌<◌, ◌^◌, IfOk, IfErr, OnOk, OnErr, length, true};
ghost use Rattle.std.specs.Prelude.{false};
ghost use Rattle.wasi_world.specs.Script.{GoesByPlan};
ghost use Rattle.world_scripted.specs.Scripted.{seen_by};
ghost use Rattle.host_store.specs.Machine.{first_state};
ghost use Rattle.wasi_records.specs.Closing.{IsFresh, HasClosedAll};
ghost use Rattle.world_io.specs.Written.{TookAll, TookPart};
ghost use Rattle.wasi_transcript.specs.Shown.{stop_text, ending_text, IsShown};
ghost use Rattle.wasi_transcript.specs.Showing.{LinesShown, IsHalt, ended};

use crate::exchange::{LineEnd, do_line, no_step_text};
use crate::lines::{LineReader, NextLine};
use std::alloc::{AllocError, Global};
use std::fmt::Write;
use wasi_calls::Progress;
use wasi_run::{RunEnd, RunError};
use wasi_world::WasiSocketsCtx;
use world_io::{Sink, Source, write_all};
use world_scripted::ScriptedWorld;

/// Why the lines of a script end, where neither memory ran out nor a write failed.
#[derive(Clone, Copy, Debug, PartialEq, Eq)]
pub enum Stop {
    /// The source ended after the last whole line.
    AllRead,
    /// A step trapped.
    Trapped,
    /// The line with this number, counted from 1, is no step.
    BadStep(u32),
    /// The script is longer than its limit.
    TooLong,
    /// A read of the script failed.
    ReadFault,
}

impl Stop {
    ghost use Rattle.wasi_transcript.specs.Shown.{outcome_of};

    /// The outcome of a run that ends for this reason.
    pub fn outcome(self) -> Result<RunEnd, RunError>
        ensures { result ≡ outcome_of self }
    {
        match self {
            Stop::AllRead => Ok(RunEnd::AllRead),
            Stop::Trapped => Ok(RunEnd::Trapped),
            Stop::BadStep(line) => Err(RunError::BadStep(line)),
            Stop::TooLong => Err(RunError::TooLong),
            Stop::ReadFault => Err(RunError::ReadFault),
        }
    }
}

/// Writes a text whole.
fn put<K: Sink>(writer: &mut K, text: &[u8]) -> Result<(), RunError>
    ensures all { OnOk result (TookAll (K.writing writer.old) text.now (K.writing writer.new)) }
    ensures front { OnErr result (TookPart (K.writing writer.old) text.now
        (K.writing writer.new)) }
    ensures fault { OnErr result (result ≡ Err RunError.WriteFault) }
{
    match write_all(writer, text) {
        Ok(()) => Ok(()),
        Err(_) => Err(RunError::WriteFault),
    }
}

/// Does the lines of a script until it stops, and prints what became of each as soon as it is done.
/// `line` is then the last line that was read.
fn show_lines<S: Source, K: Sink>(
    alloc: Global,
    progress: &mut Progress,
    world: &mut ScriptedWorld,
    contexts: &[WasiSocketsCtx],
    limit: u32,
    reader: &mut S,
    writer: &mut K,
    line: &mut Vec<u8>,
) -> Result<Stop, RunError>
    requires open { (seen_by world.old).ended ≡ false }
    requires few { length contexts.now < 2 ^ 32 }
    requires machine { progress.old.machine ≡ first_state }
    requires lines { progress.old.lines ≡ 0 }
    ensures shown { LinesShown contexts.now limit
        (S.reading reader.old) (S.reading reader.new)
        (K.writing writer.old) (K.writing writer.new)
        (seen_by world.old) (seen_by world.new) progress.new.machine line.new.items (ended result) }
    ensures halts { IfErr result IsHalt }
    ensures open { (seen_by world.new).ended ≡ false }
{
    let mut lines = LineReader::new(alloc, limit);
    'lines: loop {
        match lines.next(reader, line)? {
            NextLine::Whole => {}
            NextLine::End => return Ok(Stop::AllRead),
            NextLine::Unfinished => return Ok(Stop::BadStep(progress.lines + 1)),
            NextLine::TooLong => return Ok(Stop::TooLong),
            NextLine::Failed => return Ok(Stop::ReadFault),
        }
        match do_line(alloc, progress, world, contexts, line.as_slice())? {
            LineEnd::Answered(text) => put(writer, text.as_slice())?,
            LineEnd::Trapped(text) => {
                put(writer, text.as_slice())?;
                return Ok(Stop::Trapped);
            }
            LineEnd::NoStep => return Ok(Stop::BadStep(progress.lines + 1)),
        }
    }
}

/// The line that is no step, where one stopped the run.
fn stop_text(alloc: Global, stop: Stop, line: &[u8]) -> Result<Vec<u8>, AllocError>
    ensures { IfOk result (λ text. text.items ≡ stop_text stop line.now) }
{
    match stop {
        Stop::BadStep(_) => no_step_text(alloc, line),
        _ => Ok(Vec::new(alloc)),
    }
}

/// The last lines of a transcript: the line that is no step, if one stopped the run, and how many
/// sockets the end of the run closed. Takes memory for them.
fn ending_text(alloc: Global, stop: Stop, line: &[u8], closings: u64) -> Result<Vec<u8>, AllocError>
    ensures { IfOk result (λ text. text.items ≡ ending_text stop line.now closings) }
{
    let mut text = stop_text(alloc, stop, line)?;
    let closes = format!(in alloc; "closes {closings}\n")?;
    text.extend_from_slice(closes.as_bytes())?;
    Ok(text)
}

/// Runs the script that the reader gives over a scripted network, and prints its transcript: each
/// line behind `> `, the calls that it made on the network, and its reply; and at last how many
/// sockets the end of the run closed.
///
/// - Lines are done in order, as `wasi_run::run_script` does them, and each is printed as soon as
///   it is done.
/// - A line that is no step is printed with `no step` below it. Out of memory nothing more is
///   printed.
/// - At every return the end mark is set and the open sockets are closed. The writer isn't flushed.
/// - Takes memory for the text of one line at a time, beside what the steps take.
pub fn show_script<S: Source, K: Sink>(
    alloc: Global,
    world: &mut ScriptedWorld,
    contexts: &[WasiSocketsCtx],
    limit: u32,
    reader: &mut S,
    writer: &mut K,
) -> Result<RunEnd, RunError>
    requires open { (seen_by world.old).ended ≡ false }
    requires few { length contexts.now < 2 ^ 32 }
    ensures shown { IsShown contexts.now limit
        (S.reading reader.old) (S.reading reader.new)
        (K.writing writer.old) (K.writing writer.new)
        (seen_by world.old) (seen_by world.new) result }
    ensures planned { GoesByPlan (seen_by world.new) }
    ensures ended { (seen_by world.new).ended ≡ true }
    ensures closed { IsFresh (seen_by world.old) → HasClosedAll (seen_by world.new) }
{
    let mut progress = Progress::new(alloc);
    let mut line = Vec::new(alloc);
    let stop = show_lines(
        alloc,
        &mut progress,
        world,
        contexts,
        limit,
        reader,
        writer,
        &mut line,
    );
    progress.finish(world);
    let stop = stop?;
    let text = ending_text(alloc, stop, line.as_slice(), world.closed_after_end())?;
    put(writer, text.as_slice())?;
    stop.outcome()
}
