//! Does the lines of a script, and writes their replies.

ghost use Rattle.std.specs.Prelude.{◌≡◌, ◌∷◌, ◌+◌, ◌<◌, ◌≤◌, ◌^◌, [], Ok, length};
ghost use Rattle.std.specs.Prelude.{take, drop, false};
ghost use Rattle.world_text.specs.Lines.{lines_of, lines_from};
ghost use Rattle.wasi_run.specs.Lines.{LeftAt, KeptOf};
ghost use Rattle.wasi_run.specs.Ran.{LinesRan};

use crate::before::BeforeStep;
use crate::error::RunError;
use std::alloc::Global;
use wasi_calls::Progress;
use wasi_steps::parse::parse_step;
use wasi_steps::reply::append_reply;
use wasi_world::{WasiSocketsCtx, World};
use world_io::{Sink, write_all};
use world_text::lines::newline_at;

/// How a piece of a script ended.
#[derive(Clone, Copy, Debug, PartialEq, Eq)]
pub enum LinesEnd {
    /// All its whole lines were done.
    AllDone,
    /// A line trapped; the lines after it weren't done.
    Trapped,
}

/// Does the next line, and writes its reply, whose text replaces that of the one before.
fn do_line<W: World, B: BeforeStep<W>, K: Sink>(
    alloc: Global,
    progress: &mut Progress,
    before: &mut B,
    world: &mut W,
    contexts: &[WasiSocketsCtx],
    writer: &mut K,
    text: &mut Vec<u8>,
    line: &[u8],
) -> Result<LinesEnd, RunError>
    requires open { (W.seen world.old).ended ≡ false }
    requires few { length contexts.now < 2 ^ 32 }
    requires numbers { progress.old.lines + 1 < 2 ^ 32 }
    ensures ran { LinesRan contexts.now (W.seen world.old) (W.seen world.new) (K.writing writer.old)
        (K.writing writer.new)
        progress.old.machine (progress.old.lines + 1) (line.now ∷ []) result progress.new.machine }
    ensures count { result ≡ Ok LinesEnd.AllDone → progress.new.lines ≡ progress.old.lines + 1 }
{
    let Some(step) = parse_step(alloc, line, contexts.len() as u32)? else {
        return Err(RunError::BadStep(progress.lines + 1));
    };
    before.before(world, &mut progress.machine, &step);
    let reply = progress.step(alloc, world, contexts, step)?;
    text.clear();
    append_reply(text, &reply)?;
    let Ok(()) = write_all(writer, text.as_slice()) else {
        return Err(RunError::WriteFault);
    };
    if reply.is_trap() {
        return Ok(LinesEnd::Trapped);
    }
    Ok(LinesEnd::AllDone)
}

/// Does the whole lines from a place in the bytes on, and moves the place past them.
fn do_lines<W: World, B: BeforeStep<W>, K: Sink>(
    alloc: Global,
    progress: &mut Progress,
    before: &mut B,
    world: &mut W,
    contexts: &[WasiSocketsCtx],
    writer: &mut K,
    text: &mut Vec<u8>,
    at: &mut usize,
    bytes: &[u8],
) -> Result<LinesEnd, RunError>
    requires open { (W.seen world.old).ended ≡ false }
    requires few { length contexts.now < 2 ^ 32 }
    requires within { at.old ≤ length bytes.now }
    requires numbers { progress.old.lines + length bytes.now < 2 ^ 32 + at.old }
    ensures ran { LinesRan contexts.now (W.seen world.old) (W.seen world.new) (K.writing writer.old)
        (K.writing writer.new)
        progress.old.machine (progress.old.lines + 1) (lines_of (drop at.old bytes.now)) result progress.new.machine }
    ensures place { result ≡ Ok LinesEnd.AllDone
        → LeftAt progress.old.lines at.old bytes.now progress.new.lines at.new }
{
    while let Some(end) = newline_at(&bytes[*at..]) {
        let line = &bytes[*at..*at + end];
        let LinesEnd::AllDone = do_line(
            alloc, progress, before, world, contexts, writer, text, line,
        )?
        else {
            return Ok(LinesEnd::Trapped);
        };
        *at += end + 1;
    }
    Ok(LinesEnd::AllDone)
}

/// Does the lines that end in the piece, the first of which may begin before it, and keeps the
/// unfinished one.
pub fn do_piece<W: World, B: BeforeStep<W>, K: Sink>(
    alloc: Global,
    progress: &mut Progress,
    before: &mut B,
    world: &mut W,
    contexts: &[WasiSocketsCtx],
    writer: &mut K,
    text: &mut Vec<u8>,
    line: &mut Vec<u8>,
    piece: &[u8],
) -> Result<LinesEnd, RunError>
    requires open { (W.seen world.old).ended ≡ false }
    requires few { length contexts.now < 2 ^ 32 }
    requires numbers { progress.old.lines + length piece.now < 2 ^ 32 }
    ensures ran { LinesRan contexts.now (W.seen world.old) (W.seen world.new) (K.writing writer.old)
        (K.writing writer.new)
        progress.old.machine (progress.old.lines + 1) (lines_from line.old.items piece.now) result progress.new.machine }
    ensures kept { result ≡ Ok LinesEnd.AllDone
        → KeptOf progress.old.lines line.old.items piece.now progress.new.lines line.new.items }
{
    let Some(end) = newline_at(piece) else {
        line.extend_from_slice(piece)?;
        return Ok(LinesEnd::AllDone);
    };
    line.extend_from_slice(&piece[..end])?;
    let LinesEnd::AllDone = do_line(
        alloc,
        progress,
        before,
        world,
        contexts,
        writer,
        text,
        line.as_slice(),
    )?
    else {
        return Ok(LinesEnd::Trapped);
    };
    line.clear();
    let mut at = end + 1;
    let LinesEnd::AllDone = do_lines(
        alloc, progress, before, world, contexts, writer, text, &mut at, piece,
    )?
    else {
        return Ok(LinesEnd::Trapped);
    };
    line.extend_from_slice(&piece[at..])?;
    Ok(LinesEnd::AllDone)
}
