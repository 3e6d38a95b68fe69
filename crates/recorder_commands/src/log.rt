//! The text of a log: how it is written, and how it is read.

ghost use Rattle.std.specs.Prelude.{◌≡◌};
ghost use Rattle.wasi_replay.specs.Log.{log_text};
ghost use Rattle.recorder_commands.specs.Log.{WritesLog, IsLogFoundSo, IsCutSo, log_file};

use crate::status::RecorderStatus;
use std::alloc::Global;
use wasi_program::Status;
use wasi_program::reading::{Unread, read_within};
use wasi_replay::{LogError, MOST_BYTES, log_text, parse_cut_log, parse_log};
use wasi_world::{Entry, WasiSocketsCtx};
use world_io::{Sink, Source, write_all};

/// The path of the file that has the log.
pub fn log_path() -> &'static str
    ensures { result.now ≡ log_file }
{
    "log.txt"
}

/// Why a log wasn't written.
#[derive(Clone, Copy, Debug, PartialEq, Eq)]
pub enum Unwritten {
    /// A write failed.
    Fault,
    /// Memory ran out, and nothing was written.
    Memory,
}

/// Writes a log's text. Takes memory for it.
pub fn write_log<M: Sink>(
    alloc: Global,
    contexts: &[WasiSocketsCtx],
    log: &[Entry],
    log_out: &mut M,
) -> Result<(), Unwritten>
    ensures { WritesLog (log_text contexts.now log.now) (M.writing log_out.old)
        (M.writing log_out.new) result }
{
    let Ok(text) = log_text(alloc, contexts, log) else {
        return Err(Unwritten::Memory);
    };
    match write_all(log_out, text.as_slice()) {
        Ok(()) => Ok(()),
        Err(_) => Err(Unwritten::Fault),
    }
}

/// A log, or how a program ends without it.
#[derive(Drop)]
pub enum FoundLog {
    /// The contexts of its run, and its entries.
    Read(Vec<WasiSocketsCtx>, Vec<Entry>),
    /// The same of a log that was cut: what its whole lines say.
    Cut(Vec<WasiSocketsCtx>, Vec<Entry>),
    /// With the number of the bad line, or 0.
    Stopped(RecorderStatus, u32),
}

/// What the whole lines of a log say that isn't whole: this is the number of its first line that
/// isn't in the grammar, or where a line is missing. Takes memory for its text and its entries.
fn read_cut_log(alloc: Global, text: &[u8], line: u32) -> FoundLog
    ensures { IsCutSo text.now line result }
{
    if text.len() > MOST_BYTES {
        return FoundLog::Stopped(RecorderStatus::BadLog, line);
    }
    match parse_cut_log(alloc, text) {
        Ok((contexts, entries)) => FoundLog::Cut(contexts, entries),
        Err(LogError::BadLog(_)) => FoundLog::Stopped(RecorderStatus::BadLog, line),
        Err(LogError::Memory(_)) => FoundLog::Stopped(RecorderStatus::Of(Status::Memory), 0),
    }
}

/// Reads a log to its end, or to one byte past the 4,294,967,294 that it may have, and its grammar.
/// One that has no line `end`, as that of a run that was killed, is cut: what follows its last
/// newline is dropped. Takes memory for its text and its entries.
pub fn read_log<L: Source>(alloc: Global, log_in: &mut L) -> FoundLog
    ensures { IsLogFoundSo (L.reading log_in.old) (L.reading log_in.new) result }
{
    let text = match read_within(alloc, log_in, MOST_BYTES) {
        Ok(text) => text,
        Err(Unread::Fault) => return FoundLog::Stopped(RecorderStatus::LogFault, 0),
        Err(Unread::Memory(_)) => {
            return FoundLog::Stopped(RecorderStatus::Of(Status::Memory), 0);
        }
    };
    match parse_log(alloc, text.as_slice()) {
        Ok((contexts, entries)) => FoundLog::Read(contexts, entries),
        Err(LogError::BadLog(line)) => read_cut_log(alloc, text.as_slice(), line),
        Err(LogError::Memory(_)) => FoundLog::Stopped(RecorderStatus::Of(Status::Memory), 0),
    }
}
