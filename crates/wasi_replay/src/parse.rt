//! Reads a log.

ghost use Rattle.std.specs.Prelude.{◌≡◌, ◌≤◌, ◌<◌, ◌+◌, ◌^◌, IfOk, IfErr, IfSome, OnOk, Some, None};
ghost use Rattle.std.specs.Prelude.{true, false, Ok, Err, ◌∷◌, ◌++◌, [], length, take};
ghost use Rattle.wasi_replay.specs.Log.{so_far, add_line, with_line, log_within, log_of};
ghost use Rattle.wasi_replay.specs.Parsed.{bad_line};
ghost use Rattle.wasi_replay.specs.Recorded.{fits_entry};
ghost use Rattle.wasi_world.specs.Contexts.{AreNumbered};
ghost use Rattle.std.specs.List.{list_all};

use crate::line::{Line, parse_line};
use std::alloc::{AllocError, Global};
use thiserror::Error;
use wasi_world::{Entry, WasiSocketsCtx};
use world_text::lines::newline_at;

/// How many bytes a log has at most: its lines have numbers of 32 bits.
pub const MOST_BYTES: usize = 4_294_967_294;

/// Why a log wasn't read.
#[derive(Clone, Copy, Debug, PartialEq, Eq, Error)]
pub enum LogError {
    /// The first line that isn't in the grammar, counted from 1: also a line that the text ends
    /// inside or before, one behind `end`, and the line that holds byte 4,294,967,295.
    #[error("line {0} of the log is not in its grammar")]
    BadLog(u32),
    #[error("memory ran out")]
    Memory(AllocError),
}

impl From<AllocError> for LogError {
    ghost use Rattle.std.specs.Prelude.{◌≡◌};
    ghost use Rattle.wasi_replay.specs.declared.parse.LogError.TheVariants.{Memory};

    ghost from_gives = { λ e error. error ≡ Memory e };

    fn from(e: AllocError) -> LogError {
        LogError::Memory(e)
    }
}

/// What the lines so far say.
#[derive(Drop)]
struct SoFar {
    contexts: Vec<WasiSocketsCtx>,
    entries: Vec<Entry>,
    ended: bool,
}

/// Adds the last context.
fn add_context(
    contexts: &mut Vec<WasiSocketsCtx>,
    context: WasiSocketsCtx,
) -> Result<(), AllocError>
    ensures { OnOk result (contexts.new.items ≡ contexts.old.items ++ context ∷ []) }
{
    contexts.push(context)?;
    Ok(())
}

/// Adds the last entry.
fn add_entry(entries: &mut Vec<Entry>, entry: Entry) -> Result<(), AllocError>
    ensures { OnOk result (entries.new.items ≡ entries.old.items ++ entry ∷ []) }
{
    entries.push(entry)?;
    Ok(())
}

/// Adds what a line says; whether it may stand there.
fn add_line(log: &mut SoFar, line: Line) -> Result<bool, AllocError>
    ensures added { IfOk result (λ may. may ≡ true → add_line (so_far log.old.contexts.items
        log.old.entries.items log.old.ended) line ≡ Some (so_far log.new.contexts.items
        log.new.entries.items log.new.ended)) }
    ensures few { IfOk result (λ may. length log.new.contexts.items
        ≤ length log.old.contexts.items + 1) }
    ensures bad { IfOk result (λ may. may ≡ false → add_line (so_far log.old.contexts.items
        log.old.entries.items log.old.ended) line ≡ None) }
{
    match line {
        Line::Context(context) => {
            if !log.entries.is_empty() {
                return Ok(false);
            }
            add_context(&mut log.contexts, context)?;
        }
        Line::Entry(entry) => {
            if log.contexts.is_empty() {
                return Ok(false);
            }
            add_entry(&mut log.entries, entry)?;
        }
        Line::End => {
            if log.contexts.is_empty() {
                return Ok(false);
            }
            log.ended = true;
        }
    }
    Ok(true)
}

/// Takes in what a line says. The line has this number.
fn take_line(alloc: Global, log: &mut SoFar, number: u32, line: &[u8]) -> Result<(), LogError>
    requires few { length log.old.contexts.items < 2 ^ 32 }
    ensures ok { OnOk result (with_line (so_far log.old.contexts.items log.old.entries.items
        log.old.ended) line.now ≡ Some (so_far log.new.contexts.items log.new.entries.items
        log.new.ended)) }
    ensures few { OnOk result (length log.new.contexts.items ≤ length log.old.contexts.items
        + 1) }
    ensures bad { IfErr result (λ e. IfSome (bad_line e) (λ n. (n ≡ number)
        × (with_line (so_far log.old.contexts.items log.old.entries.items log.old.ended) line.now
        ≡ None))) }
{
    if log.ended {
        return Err(LogError::BadLog(number));
    }
    let Some(read) = parse_line(alloc, line, log.contexts.len() as u32)? else {
        return Err(LogError::BadLog(number));
    };
    if add_line(log, read)? {
        Ok(())
    } else {
        Err(LogError::BadLog(number))
    }
}

/// As many of the bytes as lie within the limit.
#[tactic(auto, using(std::proofs::lemmas::List::take_min))]
fn first_bytes(bytes: &[u8], limit: usize) -> &[u8]
    ensures { result.now ≡ take limit bytes.now }
{
    &bytes[..bytes.len().min(limit)]
}

/// What a text of at most so many bytes says.
fn log_within(alloc: Global, bytes: &[u8], most: usize) -> Result<SoFar, LogError>
    requires { most + 1 < 2 ^ 32 }
    ensures ok { IfOk result (λ log. log_within most bytes.now ≡ Ok (
      log.contexts.items,
      log.entries.items,
    )) }
    ensures bad { IfErr result (λ e. IfSome (bad_line e) (λ n. log_within most bytes.now
        ≡ Err n)) }
{
    let text = first_bytes(bytes, most);
    let mut log = SoFar {
        contexts: Vec::new(alloc),
        entries: Vec::new(alloc),
        ended: false,
    };
    let mut number = 1;
    let mut at = 0;
    while let Some(end) = newline_at(&text[at..]) {
        take_line(alloc, &mut log, number, &text[at..at + end])?;
        number += 1;
        at += end + 1;
    }
    if at < bytes.len() {
        return Err(LogError::BadLog(number));
    }
    if !log.ended {
        return Err(LogError::BadLog(number));
    }
    Ok(log)
}

/// The contexts and the entries of a log: the only ones whose text these bytes are. Each context
/// has its place as its name, and each entry's answer fits its call. Takes memory for them.
pub fn parse_log(alloc: Global, bytes: &[u8]) -> Result<(Vec<WasiSocketsCtx>, Vec<Entry>), LogError>
    ensures ok { IfOk result (λ log. log_of bytes.now ≡ Ok (log.0.items, log.1.items)) }
    ensures bad { IfErr result (λ e. IfSome (bad_line e) (λ n. log_of bytes.now ≡ Err n)) }
    ensures fits { IfOk result (λ log. list_all fits_entry log.1.items ≡ true) }
    ensures numbered { IfOk result (λ log. AreNumbered log.0.items) }
    ensures few_contexts { IfOk result (λ log. length log.0.items < 2 ^ 32) }
    ensures few_entries { IfOk result (λ log. length log.1.items < 4294967295) }
{
    let SoFar {
        contexts,
        entries,
        ended: _,
    } = log_within(alloc, bytes, MOST_BYTES)?;
    Ok((contexts, entries))
}
