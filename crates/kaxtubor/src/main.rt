//! The program `kaxtubor`: runs scripts of `wasi:sockets` calls over a scripted network or this
//! machine's own, prints, checks and replays what they do, and relays connections.
#![tactic(auto)]

mod forms;
mod help;
mod live;
mod live_options;
mod policy;
mod recorder;
mod relay;
mod scripts;
mod subcommand;
mod transcripts;
mod words;

use help::{OVERVIEW, VERSION};
use std::process::ExitCode;
use subcommand::Subcommand;
use wasi_console::{command_words, print};
use wasi_program::{Choice, choice_in};
use words::end_at_words;

fn main(rt: HostRuntime) -> ExitCode {
    let words = match command_words(&rt, &[OVERVIEW], VERSION) {
        Ok(words) => words,
        Err(code) => return code,
    };
    let words = words.as_slice();
    let (subcommand, rest) = match asked(&rt, words) {
        Ok(asked) => asked,
        Err(code) => return code,
    };
    match subcommand {
        Subcommand::Scripts => scripts::run(rt, rt, words),
        Subcommand::Transcripts => transcripts::run(rt, words),
        Subcommand::Recorder => recorder::run(rt, words),
        Subcommand::Policy => policy::run(rt, words, rest),
        Subcommand::Live => live::run(rt, rest),
        Subcommand::Relay => relay::run(rt, words, rest),
    }
}

/// The subcommand that the first word names, and the words behind it; or how the program ends in
/// its place, after its help was printed, say.
fn asked<'a, R: Print + Eprint>(
    rt: &R,
    words: &'a [String],
) -> Result<(Subcommand, &'a [String]), ExitCode> {
    let Some((word, rest)) = words.split_first() else {
        return Err(end_at_words(rt, words));
    };
    let Some(subcommand) = Subcommand::of_word(word.as_str()) else {
        return Err(end_at_words(rt, words));
    };
    match choice_in(rest) {
        Choice::Help => Err(print(rt, subcommand.help())),
        Choice::Version => Err(print(rt, &[VERSION])),
        Choice::Command => Ok((subcommand, rest)),
    }
}
