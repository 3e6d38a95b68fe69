//! `run`, `gen`, `gen3` and `pump`: runs a script of `wasi:sockets` calls from standard input over
//! the scripted network of `scenario.txt`, and writes one reply per line; or copies standard input
//! to standard output by worker streams.

use crate::words::end_at_words;
use std::process::ExitCode;
use std::sync::Wait;
use std::thread::Threads;
use wasi_commands::run_main;
use wasi_console::{LineSource, end_of_run};
use wasi_program::scenario_path;
use wasi_spawn::ThreadSpawner;
use world_io::{FileSource, StdSink, StdSource};

/// Does what the words ask for. A pump's workers are threads of `threads`.
pub fn run<T: Threads + Wait + Copy + Send + 'static>(
    rt: HostRuntime,
    threads: T,
    words: &[String],
) -> ExitCode {
    let mut scenario = FileSource::open(&rt, scenario_path());
    let done = run_main(
        threads,
        rt.alloc(),
        words,
        &mut scenario,
        LineSource::new(StdSource::new(rt.stdin())),
        StdSink::new(rt.stdout()),
        &mut ThreadSpawner::new(),
        &mut ThreadSpawner::new(),
    );
    match done.status {
        1 => end_at_words(&rt, words),
        status => end_of_run(&rt, status, done.line, &done.source),
    }
}
