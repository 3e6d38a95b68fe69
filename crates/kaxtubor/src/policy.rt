//! `policy`: answers questions about the rules of `rules.txt`, says which of them are odd, or runs a
//! script of `wasi:sockets` calls under them, over the scripted network of `scenario.txt`.

ghost use Rattle.std.specs.Prelude.{◌≡◌};
ghost use Rattle.std.specs.Process.{exit_status};

use crate::words::end_at_words;
use policy_commands::report::end_at_rules;
use policy_commands::status::command_in;
use policy_commands::{RulesText, policy_main};
use std::process::ExitCode;
use std::rt::Files;
use wasi_console::{LineSource, end, end_at_line, end_of_run, end_unread};
use wasi_program::scenario::Unread;
use wasi_program::{Status, scenario_path};
use world_io::{FileSource, StdSink, StdSource};

/// Where the rules are.
const RULES_PATH: &str = "rules.txt";

/// The status where the rules can't be read.
const RULES_FAULT: u8 = 17;

const QUESTION_LINES: &str =
    "a use and an address such as `tcp-connect 4 127 0 0 1 80`, ended by a newline";

/// Does what the words behind `policy` ask for. `all` has that word too.
pub fn run(rt: HostRuntime, all: &[String], words: &[String]) -> ExitCode {
    if command_in(words).is_none() {
        return end_at_words(&rt, all);
    }
    let file = FileSource::open(&rt, RULES_PATH);
    match RulesText::read(rt.alloc(), file) {
        Ok(rules) => run_under(rt, words, &rules),
        Err(Unread::Fault) => end_unread(&rt, RULES_FAULT, RULES_PATH),
        Err(Unread::Memory(_)) => end(&rt, Status::Memory, 0, None),
    }
}

/// Does it under these rules.
fn run_under(rt: HostRuntime, words: &[String], text: &RulesText) -> ExitCode {
    let Ok(mut rules) = text.source() else {
        return end(&rt, Status::Memory, 0, None);
    };
    let mut scenario = FileSource::open(&rt, scenario_path());
    let done = policy_main(
        rt.alloc(),
        words,
        &mut rules,
        &mut scenario,
        LineSource::new(StdSource::new(rt.stdin())),
        StdSink::new(rt.stdout()),
    );
    match done.status {
        16 => end_at_rules(&rt, 16, RULES_PATH, done.line, text),
        status => stop(&rt, words, status, done.line, &done.source),
    }
}

/// Whether the words ask for a run.
fn is_run(words: &[String]) -> bool {
    match words {
        [word, _] => word.as_str() == "run",
        _ => false,
    }
}

/// Prints how it ended on standard error, with the bad line of the scenario or the input, and ends
/// so.
fn stop<R: Eprint + Files, I>(
    rt: &R,
    words: &[String],
    number: u8,
    line: u32,
    input: &LineSource<I>,
) -> ExitCode
    ensures { exit_status result ≡ number }
{
    if is_run(words) {
        return end_of_run(rt, number, line, input);
    }
    match number {
        3 => {
            let front = input.line(u64::from(line));
            end_at_line(rt, number, "the questions", line, front, QUESTION_LINES)
        }
        4 => {
            let printed = eprintln!(rt;
                "status {number}\nthe questions are longer than LIMIT bytes; the whole lines within them were answered"
            );
            let _ = printed;
            ExitCode::from(number)
        }
        _ => end_of_run(rt, number, line, input),
    }
}
