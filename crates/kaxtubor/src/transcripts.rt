//! `show`, `faults` and the checks: prints what a script of `wasi:sockets` calls makes of the
//! scripted network of `scenario.txt`, runs files of such transcripts again, records and replays
//! them, and tries a script with a fault at each call of its network.

use crate::words::end_at_words;
use std::alloc::AllocError;
use std::process::ExitCode;
use std::rt::Files;
use std::{fs, io};
use transcript_commands::{Also, NOTHING_ELSE, Replays, Tried, also_in, replay_text, try_text};
use wasi_console::{LineSource, end, end_of_run, end_unread};
use wasi_program::{Status, scenario_path};
use wasi_transcript::program::{End, Words, check, show, words_in};
use wasi_transcript::survey::faults;
use world_io::{FileSource, StdSink, StdSource};

/// How the program ends where all was in order.
const DONE: End = End::Run(Status::Ok, 0);

/// Does what the words ask for.
pub fn run(rt: HostRuntime, words: &[String]) -> ExitCode {
    if let Some((also, files)) = also_in(words) {
        return check_all(rt, files, also);
    }
    match words_in(words) {
        None => end_at_words(&rt, words),
        Some(Words::Show(limit)) => show_script(rt, limit),
        Some(Words::Check(files)) => check_all(rt, files, NOTHING_ELSE),
        Some(Words::Faults(limit)) => try_script(rt, limit),
    }
}

/// Prints the transcript of the script on standard input.
fn show_script(rt: HostRuntime, limit: u32) -> ExitCode {
    let mut scenario = FileSource::open(&rt, scenario_path());
    let mut source = LineSource::new(StdSource::new(rt.stdin()));
    let mut sink = StdSink::new(rt.stdout());
    match show(rt.alloc(), limit, &mut scenario, &mut source, &mut sink) {
        End::Run(status, line) => end_of_run(&rt, status.number(), line, &source),
        ended => stop(&rt, ended),
    }
}

/// Runs the script on standard input again for each call of its network that may fail.
fn try_script(rt: HostRuntime, limit: u32) -> ExitCode {
    let mut scenario = FileSource::open(&rt, scenario_path());
    let mut source = LineSource::new(StdSource::new(rt.stdin()));
    let mut sink = StdSink::new(rt.stdout());
    match faults(rt.alloc(), limit, &mut scenario, &mut source, &mut sink) {
        End::Run(status, line) => end_of_run(&rt, status.number(), line, &source),
        ended => stop(&rt, ended),
    }
}

/// Checks each file, with what else is asked for, and ends as the first that isn't in order.
fn check_all(rt: HostRuntime, files: &[String], also: Also) -> ExitCode {
    let mut first = (DONE, "");
    for file in files {
        let ended = check_file(rt, file.as_str(), also);
        if first.0 == DONE {
            first = (ended, file.as_str());
        }
    }
    match first {
        (End::NoFile, file) => end_unread(&rt, End::NoFile.number(), file),
        (ended, _) => stop(&rt, ended),
    }
}

fn check_file(rt: HostRuntime, file: &str, also: Also) -> End {
    let mut sink = StdSink::new(rt.stdout());
    let text = match fs::read(&rt, file) {
        Ok(text) => text,
        Err(error) => match error.kind() {
            io::ErrorKind::OutOfMemory => return End::Run(Status::Memory, 0),
            _ => return End::NoFile,
        },
    };
    let ended = check(rt.alloc(), file, text.as_slice(), &mut sink);
    if ended != DONE {
        return ended;
    }
    check_also(rt, file, text.as_slice(), also)
}

/// Does what else is asked for with a file whose transcripts hold.
fn check_also(rt: HostRuntime, file: &str, text: &[u8], also: Also) -> End {
    if let Some(tries) = also.tries {
        let ended = try_file(rt, file, text, tries);
        if ended != DONE {
            return ended;
        }
    }
    if also.replays {
        return replay_file(rt, file, text);
    }
    DONE
}

/// Runs each script of the file over streams that fail, and prints how many runs there were, or the
/// line of the first case that differs.
fn try_file(rt: HostRuntime, file: &str, text: &[u8], tries: u64) -> End {
    match try_text(rt.alloc(), text, tries) {
        Ok(Tried::Held(runs)) => {
            let _ = println!(rt; "{file}: {runs} runs hold");
            DONE
        }
        Ok(Tried::Failed(line, failed)) => {
            let _ = println!(rt; "{file}:{line}: {failed:?}");
            End::Differs
        }
        Ok(Tried::NotCases) => End::NotCases,
        Err(AllocError) => End::Run(Status::Memory, 0),
    }
}

/// Records each script of the file and runs it again on its log, and prints how many there were, or
/// the line of the first case whose replay differs.
fn replay_file(rt: HostRuntime, file: &str, text: &[u8]) -> End {
    match replay_text(rt.alloc(), text) {
        Ok(Replays::Same(count)) => {
            let _ = println!(rt; "{file}: {count} replays are the same");
            DONE
        }
        Ok(Replays::Differs(line)) => {
            let _ = println!(rt; "{file}:{line}: the replay differs");
            End::Differs
        }
        Ok(Replays::NotCases) => End::NotCases,
        Err(AllocError) => End::Run(Status::Memory, 0),
    }
}

/// Prints how it ended on standard error, and ends so.
fn stop<R: Eprint>(rt: &R, ended: End) -> ExitCode {
    let status = ended.number();
    let why = match ended {
        End::Run(status, line) => return end(rt, status, line, None),
        End::Differs => "a case does not hold; standard output has the first line that differs",
        End::NotCases => "a file is not a list of cases; standard output has the line",
        End::NoFile => "a file can't be opened and read",
        End::Trapped => "a fault of the network made a step trap",
        End::Lost => "with a fault a run broke off, or left a network socket open",
    };
    let _ = eprintln!(rt; "status {status}\n{why}");
    ExitCode::from(status)
}
