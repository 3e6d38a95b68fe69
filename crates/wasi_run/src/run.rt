//! Runs a script: reads its lines, does them in order, and writes one reply per line.

ghost use Rattle.std.specs.Prelude.{◌≡◌, ℕ, ◌<◌, ◌^◌, OnOk, length, false, true};
ghost use Rattle.wasi_world.specs.Contexts.{AreNumbered};
ghost use Rattle.host_store.specs.Machine.{first_state};
ghost use Rattle.wasi_records.specs.Closing.{HasClosedAll, HasClosedEach, IsFresh};
ghost use Rattle.wasi_run.specs.Script.{RanOver, RanScript, Completes};
ghost use Rattle.wasi_run.specs.Headline.{RunsLicensed};
ghost use Rattle.wasi_run.specs.Causes.{BeginsRun, DoneLines, ReadsAll, StopsAtTrap};
ghost use Rattle.wasi_run.specs.Causes.{StopsAtBadStep, StopsTooLong, StopsAtReadFault};
ghost use Rattle.wasi_run.specs.Causes.{StopsAtWriteFault, StopsForMemory};

use crate::before::{AtOnce, BeforeStep};
use crate::error::RunError;
use crate::lines::{LinesEnd, do_piece};
use std::alloc::Global;
use wasi_calls::Progress;
use wasi_world::{WasiSocketsCtx, World};
use world_io::{Sink, Source};

/// How many bytes are read at a time.
const PIECE_SIZE: usize = 4096;

/// How a script ended.
#[derive(Clone, Copy, Debug, PartialEq, Eq)]
pub enum RunEnd {
    /// The reader ended after the last whole line.
    AllRead,
    /// A step trapped, which is the last reply.
    Trapped,
}

/// Reads pieces until the run stops, and does each line as soon as it is whole.
fn run_lines<W: World, B: BeforeStep<W>, S: Source, K: Sink>(
    alloc: Global,
    progress: &mut Progress,
    before: &mut B,
    world: &mut W,
    contexts: &[WasiSocketsCtx],
    limit: u32,
    reader: &mut S,
    writer: &mut K,
) -> Result<RunEnd, RunError>
    requires open { (W.seen world.old).ended ≡ false }
    requires few { length contexts.now < 2 ^ 32 }
    requires machine { progress.old.machine ≡ first_state }
    requires lines { progress.old.lines ≡ 0 }
    ensures { RanOver contexts.now limit
        (S.reading reader.old) (S.reading reader.new)
        (K.writing writer.old) (K.writing writer.new)
        (W.seen world.old) (W.seen world.new) progress.new.machine result }
{
    let mut line = Vec::new(alloc);
    let mut text = Vec::new(alloc);
    let mut taken = 0;
    let mut piece = [0u8; PIECE_SIZE];
    'reading: while taken <= limit as usize {
        let room = (limit as usize + 1 - taken).min(PIECE_SIZE);
        let Ok(count) = reader.read(&mut piece[..room]) else {
            return Err(RunError::ReadFault);
        };
        if count == 0 {
            if line.is_empty() {
                return Ok(RunEnd::AllRead);
            }
            return Err(RunError::BadStep(progress.lines + 1));
        }
        let within = count.min(limit as usize - taken);
        taken += count;
        let LinesEnd::AllDone = do_piece(
            alloc,
            progress,
            before,
            world,
            contexts,
            writer,
            &mut text,
            &mut line,
            &piece[..within],
        )?
        else {
            return Ok(RunEnd::Trapped);
        };
    }
    Err(RunError::TooLong)
}

/// Runs a script as [`run_script`] does, and does this before each step.
///
/// What is done before a step asks the world for nothing, so the run and all that is said of it are
/// those of [`run_script`]. Where a line isn't a step nothing is done before it.
pub fn run_script_with<W: World, B: BeforeStep<W>, S: Source, K: Sink>(
    alloc: Global,
    world: &mut W,
    contexts: &mut Vec<WasiSocketsCtx>,
    limit: u32,
    reader: &mut S,
    writer: &mut K,
    before: &mut B,
) -> Result<RunEnd, RunError>
    requires open { (W.seen world.old).ended ≡ false }
    requires few { length contexts.old.items < 2 ^ 32 }
    requires numbered { AreNumbered contexts.old.items }
    // What was read, done, asked and written.
    ensures ran { RanScript contexts.old.items limit
        (S.reading reader.old) (S.reading reader.new)
        (K.writing writer.old) (K.writing writer.new)
        (W.seen world.old) (W.seen world.new) result }
    ensures began { BeginsRun contexts.old.items limit
        (S.reading reader.old) (S.reading reader.new)
        (W.seen world.old) (W.seen world.new) }
    ensures whole { OnOk result (DoneLines contexts.old.items limit
        (S.reading reader.old) (S.reading reader.new)
        (K.writing writer.old) (K.writing writer.new)
        (W.seen world.old) (W.seen world.new)) }
    // Whatever it answers, the log is licensed by the lines done and met, with the replies to them.
    ensures licensed { RunsLicensed contexts.old.items limit
        (S.reading reader.old) (S.reading reader.new)
        (K.writing writer.old) (K.writing writer.new)
        (W.seen world.old) (W.seen world.new) result }
    ensures complete { Completes (length contexts.old.items) limit
        (S.reading reader.old) (S.reading reader.new)
        (K.writing writer.old) (K.writing writer.new) result }

    // Why it ended so.
    ensures all_read { result ≡ Ok RunEnd.AllRead →
        ReadsAll contexts.old.items limit
        (S.reading reader.old) (S.reading reader.new)
        (K.writing writer.old) (K.writing writer.new)
        (W.seen world.old) (W.seen world.new) }
    ensures ahead { result ≡ Ok RunEnd.Trapped →
        StopsAtTrap 4095 contexts.old.items limit
        (S.reading reader.old) (S.reading reader.new)
        (K.writing writer.old) (K.writing writer.new)
        (W.seen world.old) (W.seen world.new) }
    ensures bad_step { (line : ℕ) → result ≡ Err (RunError.BadStep line) →
        StopsAtBadStep contexts.old.items limit
        (S.reading reader.old) (S.reading reader.new)
        (K.writing writer.old) (K.writing writer.new)
        (W.seen world.old) (W.seen world.new) line }
    ensures too_long { result ≡ Err RunError.TooLong →
        StopsTooLong contexts.old.items limit
        (S.reading reader.old) (S.reading reader.new)
        (K.writing writer.old) (K.writing writer.new)
        (W.seen world.old) (W.seen world.new) }
    ensures read_fault { result ≡ Err RunError.ReadFault →
        StopsAtReadFault contexts.old.items limit
        (S.reading reader.old) (S.reading reader.new)
        (K.writing writer.old) (K.writing writer.new)
        (W.seen world.old) (W.seen world.new) }
    ensures write_fault { result ≡ Err RunError.WriteFault →
        StopsAtWriteFault contexts.old.items limit
        (S.reading reader.old) (S.reading reader.new)
        (K.writing writer.old) (K.writing writer.new)
        (W.seen world.old) (W.seen world.new) }
    ensures memory { result ≡ Err RunError.Memory →
        StopsForMemory contexts.old.items limit
        (S.reading reader.old) (S.reading reader.new)
        (K.writing writer.old) (K.writing writer.new)
        (W.seen world.old) (W.seen world.new) }

    // What is left.
    ensures ended { (W.seen world.new).ended ≡ true }
    ensures closed { IsFresh (W.seen world.old) → HasClosedAll (W.seen world.new) }
    ensures each { IsFresh (W.seen world.old)
        → HasClosedEach (W.seen world.new) (W.closed world.new) }
    ensures contexts { contexts.new.items ≡ contexts.old.items }
{
    let mut progress = Progress::new(alloc);
    let result = run_lines(
        alloc,
        &mut progress,
        before,
        world,
        contexts.as_slice(),
        limit,
        reader,
        writer,
    );
    progress.finish(world);
    result
}

/// Runs the script that the reader gives, and writes one reply per line.
///
/// - Lines are done in order, each as soon as it is whole, and its reply is written before the next
///   one is done.
/// - A trap ends the run after its reply.
/// - At every return the end mark is set and the open network sockets are closed. The writer isn't
///   flushed.
/// - Takes memory for the line that isn't whole yet, beside what the steps take.
pub fn run_script<W: World, S: Source, K: Sink>(
    alloc: Global,
    world: &mut W,
    contexts: &mut Vec<WasiSocketsCtx>,
    limit: u32,
    reader: &mut S,
    writer: &mut K,
) -> Result<RunEnd, RunError>
    requires open { (W.seen world.old).ended ≡ false }
    requires few { length contexts.old.items < 2 ^ 32 }
    requires numbered { AreNumbered contexts.old.items }
    // What was read, done, asked and written.
    ensures ran { RanScript contexts.old.items limit
        (S.reading reader.old) (S.reading reader.new)
        (K.writing writer.old) (K.writing writer.new)
        (W.seen world.old) (W.seen world.new) result }
    ensures began { BeginsRun contexts.old.items limit
        (S.reading reader.old) (S.reading reader.new)
        (W.seen world.old) (W.seen world.new) }
    ensures whole { OnOk result (DoneLines contexts.old.items limit
        (S.reading reader.old) (S.reading reader.new)
        (K.writing writer.old) (K.writing writer.new)
        (W.seen world.old) (W.seen world.new)) }
    // Whatever it answers, the log is licensed by the lines done and met, with the replies to them.
    ensures licensed { RunsLicensed contexts.old.items limit
        (S.reading reader.old) (S.reading reader.new)
        (K.writing writer.old) (K.writing writer.new)
        (W.seen world.old) (W.seen world.new) result }
    ensures complete { Completes (length contexts.old.items) limit
        (S.reading reader.old) (S.reading reader.new)
        (K.writing writer.old) (K.writing writer.new) result }

    // Why it ended so.
    ensures all_read { result ≡ Ok RunEnd.AllRead →
        ReadsAll contexts.old.items limit
        (S.reading reader.old) (S.reading reader.new)
        (K.writing writer.old) (K.writing writer.new)
        (W.seen world.old) (W.seen world.new) }
    ensures ahead { result ≡ Ok RunEnd.Trapped →
        StopsAtTrap 4095 contexts.old.items limit
        (S.reading reader.old) (S.reading reader.new)
        (K.writing writer.old) (K.writing writer.new)
        (W.seen world.old) (W.seen world.new) }
    ensures bad_step { (line : ℕ) → result ≡ Err (RunError.BadStep line) →
        StopsAtBadStep contexts.old.items limit
        (S.reading reader.old) (S.reading reader.new)
        (K.writing writer.old) (K.writing writer.new)
        (W.seen world.old) (W.seen world.new) line }
    ensures too_long { result ≡ Err RunError.TooLong →
        StopsTooLong contexts.old.items limit
        (S.reading reader.old) (S.reading reader.new)
        (K.writing writer.old) (K.writing writer.new)
        (W.seen world.old) (W.seen world.new) }
    ensures read_fault { result ≡ Err RunError.ReadFault →
        StopsAtReadFault contexts.old.items limit
        (S.reading reader.old) (S.reading reader.new)
        (K.writing writer.old) (K.writing writer.new)
        (W.seen world.old) (W.seen world.new) }
    ensures write_fault { result ≡ Err RunError.WriteFault →
        StopsAtWriteFault contexts.old.items limit
        (S.reading reader.old) (S.reading reader.new)
        (K.writing writer.old) (K.writing writer.new)
        (W.seen world.old) (W.seen world.new) }
    ensures memory { result ≡ Err RunError.Memory →
        StopsForMemory contexts.old.items limit
        (S.reading reader.old) (S.reading reader.new)
        (K.writing writer.old) (K.writing writer.new)
        (W.seen world.old) (W.seen world.new) }

    // What is left.
    ensures ended { (W.seen world.new).ended ≡ true }
    ensures closed { IsFresh (W.seen world.old) → HasClosedAll (W.seen world.new) }
    ensures each { IsFresh (W.seen world.old)
        → HasClosedEach (W.seen world.new) (W.closed world.new) }
    ensures contexts { contexts.new.items ≡ contexts.old.items }
{
    let mut at_once = AtOnce;
    run_script_with(alloc, world, contexts, limit, reader, writer, &mut at_once)
}
