//! Draws a log.

ghost use Rattle.std.specs.Prelude.{◌≡◌, []};
ghost use Rattle.recorder_commands.specs.Draw.{DrawsSo, DrawEnds};

use crate::ended::Ended;
use crate::log::{FoundLog, read_log};
use crate::status::RecorderStatus;
use log_picture::{Part, draw};
use std::alloc::Global;
use wasi_program::Status;
use wasi_world::Entry;
use world_io::{Sink, Source, write_all};

/// Draws the part of these entries.
fn draw_entries<K: Sink>(
    alloc: Global,
    entries: &[Entry],
    part: Part,
    sink: &mut K,
) -> RecorderStatus
    ensures { DrawsSo (K.writing sink.old) (K.writing sink.new) result }
{
    let Ok(picture) = draw(alloc, entries, part) else {
        return RecorderStatus::Of(Status::Memory);
    };
    match write_all(sink, picture.as_str().as_bytes()) {
        Ok(()) => RecorderStatus::Of(Status::Ok),
        Err(_) => RecorderStatus::Of(Status::WriteFault),
    }
}

/// Draws the part of a log's entries, and ends so.
fn draw_found<K: Sink>(alloc: Global, entries: &[Entry], part: Part, sink: &mut K) -> Ended
    ensures draws { DrawsSo (K.writing sink.old) (K.writing sink.new) result.status }
    ensures place { result.place ≡ 0 }
    ensures log { result.log.items ≡ [] }
{
    Ended::without_log(alloc, draw_entries(alloc, entries, part, sink), 0)
}

/// Reads a log, whole or cut, and draws the part of its entries.
pub fn draw_log<L: Source, K: Sink>(
    alloc: Global,
    part: Part,
    log_in: &mut L,
    sink: &mut K,
) -> Ended
    ensures ends { DrawEnds (L.reading log_in.old) (L.reading log_in.new) (K.writing sink.old)
        (K.writing sink.new) result.place result.status }
    ensures log { result.log.items ≡ [] }
{
    match read_log(alloc, log_in) {
        FoundLog::Read(_, entries) => return draw_found(alloc, entries.as_slice(), part, sink),
        FoundLog::Cut(_, entries) => return draw_found(alloc, entries.as_slice(), part, sink),
        FoundLog::Stopped(status, line) => return Ended::without_log(alloc, status, line),
    }
}
