//! `record`, `replay` and `draw`: writes the log of a script's run, runs a script on the answers of
//! such a log, and draws one.

ghost use Rattle.std.specs.Prelude.{◌≡◌};
ghost use Rattle.std.specs.Process.{exit_status};

use crate::words::end_at_words;
use recorder_commands::report::{end_at_cut, end_at_difference, end_at_log_line, end_without_log};
use recorder_commands::{NewFile, log_path, replay_main};
use std::fs;
use std::process::ExitCode;
use std::rt::Files;
use wasi_console::{LineSource, end_of_run, end_unread};
use wasi_program::{Status, scenario_path};
use world_io::{FileSource, StdSink, StdSource};

/// Does what the words ask for.
pub fn run(rt: HostRuntime, words: &[String]) -> ExitCode {
    let mut scenario = FileSource::open(&rt, scenario_path());
    let mut log_in = FileSource::open(&rt, log_path());
    let mut log_out = StdSink::new(NewFile::new(&rt, log_path()));
    let done = replay_main(
        rt.alloc(),
        words,
        &mut scenario,
        &mut log_in,
        &mut log_out,
        LineSource::new(StdSource::new(rt.stdin())),
        StdSink::new(rt.stdout()),
    );
    match done.status {
        0 => end_of_drawing(&rt, words),
        1 => end_at_words(&rt, words),
        14 if !is_recording(words) => end_unread(&rt, 14, log_path()),
        status => stop(&rt, status, done.place, &done.source),
    }
}

/// Whether a log was to be written.
fn is_recording(words: &[String]) -> bool {
    match words {
        [command, ..] => command.as_str() == "record",
        [] => false,
    }
}

/// Says that no entry of the log has the lines that a picture was to be of, if so.
fn end_of_drawing(rt: &HostRuntime, words: &[String]) -> ExitCode {
    match words {
        [_, from, to] => note_empty(rt, from.as_str(), to.as_str()),
        _ => {}
    }
    ExitCode::from(Status::Ok.number())
}

fn note_empty(rt: &HostRuntime, from: &str, to: &str) {
    let (Ok(first), Ok(last)) = (from.parse::<u64>(), to.parse::<u64>()) else {
        return;
    };
    let path = log_path();
    let Ok(log) = fs::read_to_string(rt, path) else {
        return;
    };
    let mut greatest = 0;
    for line in log.lines() {
        let step = step_of(line);
        if first <= step && step <= last {
            return;
        }
        greatest = greatest.max(step);
    }
    let _ = eprintln!(rt;
        "no entry of {path} has a line from {from} to {to}: they go from 1 to {greatest}"
    );
}

/// The line of the script that an entry is of; 0 where this is no entry.
fn step_of(line: &str) -> u64 {
    match line.split(' ').next() {
        Some(word) => word.parse().unwrap_or(0),
        None => 0,
    }
}

/// Prints how it ended on standard error, with the bad line of the scenario, the script or the log,
/// and ends so.
fn stop<R: Eprint + Files, I>(rt: &R, number: u8, place: u32, script: &LineSource<I>) -> ExitCode
    ensures { exit_status result ≡ number }
{
    match number {
        13 => end_at_log_line(rt, number, place),
        14 => end_without_log(rt, number, log_path()),
        15 => end_at_difference(rt, number, place),
        25 => end_at_cut(rt, number),
        _ => end_of_run(rt, number, place, script),
    }
}
