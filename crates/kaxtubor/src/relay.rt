//! `relay`: listens on a port, connects each arrival to another one, and copies both ways, over the
//! scripted network of `scenario.txt` or over this machine's own.

use crate::words::end_at_words;
use relay_commands::report::{end_of_live, end_of_relay};
use relay_commands::{live_in, relay_live, relay_main};
use std::io::IsTerminal;
use std::process::ExitCode;
use wasi_console::end_unread;
use wasi_program::scenario_path;
use wasi_relay::Order;
use world_io::{FileSource, StdSink};

/// Relays as the words ask. `rest` are those behind `relay`.
pub fn run(rt: HostRuntime, words: &[String], rest: &[String]) -> ExitCode {
    match live_in(rest) {
        Some(order) => run_live(&rt, order),
        None => run_scripted(&rt, words),
    }
}

/// Relays over this machine's own network.
fn run_live(rt: &HostRuntime, order: Order) -> ExitCode {
    let is_shown = rt.stderr().is_terminal();
    let mut sink = StdSink::new(rt.stdout());
    let ended = relay_live(rt, rt.alloc(), order, is_shown, &mut sink);
    end_of_live(rt, ended)
}

/// Relays over the network of the scenario.
fn run_scripted(rt: &HostRuntime, words: &[String]) -> ExitCode {
    let mut scenario = FileSource::open(rt, scenario_path());
    let sink = StdSink::new(rt.stdout());
    let done = relay_main(rt.alloc(), words, &mut scenario, sink);
    match done.status {
        1 => end_at_words(rt, words),
        8 => end_unread(rt, 8, scenario_path()),
        status => end_of_relay(rt, status, done.line),
    }
}
