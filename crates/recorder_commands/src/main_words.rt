//! What the program does with its words.

ghost use Rattle.std.specs.Prelude.{◌≡◌, ◌↔◌, None, map, string_bytes};
ghost use Rattle.recorder_commands.specs.Words.{command_in, number_of};
ghost use Rattle.recorder_commands.specs.Ends.{CommandEnds, RanMain};

use crate::draw::draw_log;
use crate::ended::Ended;
use crate::recording::record_run;
use crate::replay::replay_log;
use crate::status::{Command, RecorderStatus, command_in};
use std::alloc::Global;
use wasi_program::Status;
use wasi_world::Entry;
use world_io::{Sink, Source};

/// What the program gives back. `place` is the bad line of statuses 2, 3 and 13, counted from 1,
/// and the place of status 15, counted from 0; else 0. `log` is the log of a run that is recorded,
/// and else empty.
#[derive(Drop)]
pub struct ReplayDone<S, K> {
    pub status: u8,
    pub place: u32,
    pub log: Vec<Entry>,
    pub source: S,
    pub sink: K,
}

/// Does a command.
fn do_command<C: Source, L: Source, M: Sink, S: Source, K: Sink>(
    alloc: Global,
    command: Command,
    scenario: &mut C,
    log_in: &mut L,
    log_out: &mut M,
    source: &mut S,
    sink: &mut K,
) -> Ended
    ensures { CommandEnds command (C.reading scenario.old) (C.reading scenario.new)
        (L.reading log_in.old) (L.reading log_in.new) (M.writing log_out.old)
        (M.writing log_out.new) (S.reading source.old) (S.reading source.new) (K.writing sink.old)
        (K.writing sink.new) result.log.items result.place result.status }
{
    match command {
        Command::Record(limit) => record_run(alloc, limit, scenario, log_out, source, sink),
        Command::Replay(limit) => replay_log(alloc, limit, log_in, source, sink),
        Command::Draw(part) => draw_log(alloc, part, log_in, sink),
    }
}

/// Does what the program's words say. `record LIMIT` runs the script that the source gives, of at
/// most LIMIT bytes, over the scenario's world, as `kaxtubor run LIMIT` does, and then writes the
/// log of the run. `replay LIMIT` reads a log, and runs the script on its answers: its replies go to
/// the sink where the run asks just what is recorded, and else nothing (status 15). Of a log that
/// was cut, the replies up to there go to the sink (status 25). `draw` and `draw FROM TO` read a
/// log, and write a picture of it, or of these lines of its script, to the sink. Other words are
/// status 1.
///
/// The words are tested first. A log that can't be written is status 14, whatever the run's end
/// was; so is one that can't be read, and one with a bad line is status 13.
pub fn replay_main<C: Source, L: Source, M: Sink, S: Source, K: Sink>(
    alloc: Global,
    words: &[String],
    scenario: &mut C,
    log_in: &mut L,
    log_out: &mut M,
    mut source: S,
    mut sink: K,
) -> ReplayDone<S, K>
    ensures ran { RanMain (map (λ w. string_bytes w) words.now) (C.reading scenario.old)
        (C.reading scenario.new) (L.reading log_in.old) (L.reading log_in.new)
        (M.writing log_out.old) (M.writing log_out.new) (S.reading source) (S.reading result.source)
        (K.writing sink) (K.writing result.sink) result.log.items result.place result.status }
    ensures words { (result.status ≡ 1) ↔ (command_in (map (λ w. string_bytes w) words.now)
        ≡ None) }
{
    let ended = match command_in(words) {
        None => Ended::without_log(alloc, RecorderStatus::Of(Status::BadWords), 0),
        Some(command) => {
            do_command(
                alloc,
                command,
                scenario,
                log_in,
                log_out,
                &mut source,
                &mut sink,
            )
        }
    };
    ReplayDone {
        status: ended.status.number(),
        place: ended.place,
        log: ended.log,
        source,
        sink,
    }
}
