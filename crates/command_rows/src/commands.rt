//! Cases of the commands `policy`, `relay`, `record`, `replay`, `draw` and `check`.
//!
//! A command is done in a function of its own without a clause, so that what it ensures isn't carried
//! through the text that is made of it.

use crate::scripts::{push_end, push_written};
use policy_commands::{PolicyDone, policy_main};
use recorder_commands::{ReplayDone, replay_main};
use relay_commands::{RelayMain, relay_main};
use row_cases::{Case, Stream};
use std::alloc::{AllocError, Global};
use std::fmt::Write;
use wasi_transcript::program;
use wasi_world::Entry;
use world_io::{GrowingSink, MemorySink, MemorySource};
use world_text::EntryText;

/// Adds what was written, and how it ended.
fn push_ended(
    text: &mut String,
    sink: &MemorySink,
    status: u8,
    line: u32,
) -> Result<(), AllocError> {
    push_written(text, sink.bytes())?;
    push_end(text, status, line)
}

/// Adds a line for each entry of a log.
fn push_entries(text: &mut String, front: &str, log: &[Entry]) -> Result<(), AllocError> {
    for entry in log {
        write!(text, "{front}{}\n", EntryText(entry))?;
    }
    Ok(())
}

/// Does what the words behind `policy` say.
fn do_policy(
    alloc: Global,
    case: &Case,
) -> Result<PolicyDone<MemorySource, MemorySink>, AllocError> {
    let mut rules = case.source(alloc, Stream::Rules)?;
    let mut scenario = case.source(alloc, Stream::Scenario)?;
    let source = case.source(alloc, Stream::Input)?;
    let sink = case.sink(alloc, Stream::Output)?;
    let words = case.words_from(1);
    Ok(policy_main(alloc, words, &mut rules, &mut scenario, source, sink))
}

/// `policy ..`: what was written, the status and the bad line, the checks that were denied, each
/// with its place, and the calls that were handed on.
pub fn policy(text: &mut String, alloc: Global, case: &Case) -> Result<(), AllocError> {
    let done = do_policy(alloc, case)?;
    push_ended(text, &done.sink, done.status, done.line)?;
    text.push_str("\n")?;
    for denied in done.denied.iter() {
        let (place, entry) = (denied.place, EntryText(&denied.entry));
        write!(text, "denied at {place}: {entry}\n")?;
    }
    push_entries(text, "handed on: ", done.inner.as_slice())
}

/// Does what the words of `relay` say.
fn do_relay(alloc: Global, case: &Case) -> Result<RelayMain<MemorySink>, AllocError> {
    let mut scenario = case.source(alloc, Stream::Scenario)?;
    let sink = case.sink(alloc, Stream::Output)?;
    Ok(relay_main(alloc, case.words_from(0), &mut scenario, sink))
}

/// `relay ..`: what was written, the status and the bad line, and the log.
pub fn relay(text: &mut String, alloc: Global, case: &Case) -> Result<(), AllocError> {
    let done = do_relay(alloc, case)?;
    push_ended(text, &done.sink, done.status, done.line)?;
    text.push_str("\n")?;
    push_entries(text, "", done.log.as_slice())
}

/// Does what the words of a recorder say, which writes a log to the last sink.
fn do_recorder(
    alloc: Global,
    case: &Case,
    log_out: &mut MemorySink,
) -> Result<ReplayDone<MemorySource, MemorySink>, AllocError> {
    let mut scenario = case.source(alloc, Stream::Scenario)?;
    let mut log_in = case.source(alloc, Stream::Log)?;
    let source = case.source(alloc, Stream::Input)?;
    let sink = case.sink(alloc, Stream::Output)?;
    Ok(replay_main(
        alloc,
        case.words_from(0),
        &mut scenario,
        &mut log_in,
        log_out,
        source,
        sink,
    ))
}

/// `record ..`, `replay ..`, `draw ..`: what was written, the status and the place, the length of
/// the log, and the log that was written.
pub fn recorder(text: &mut String, alloc: Global, case: &Case) -> Result<(), AllocError> {
    let mut log_out = case.sink(alloc, Stream::Log)?;
    let done = do_recorder(alloc, case, &mut log_out)?;
    push_ended(text, &done.sink, done.status, done.place)?;
    write!(text, " log {}\n", done.log.len())?;
    push_written(text, log_out.bytes())
}

/// `check FILE`: what is printed of a file whose text is the input, and the status.
pub fn check(text: &mut String, alloc: Global, case: &Case) -> Result<(), AllocError> {
    let mut sink = GrowingSink::new(alloc);
    let end = program::check(alloc, case.word(1), case.text(Stream::Input), &mut sink);
    push_written(text, sink.bytes())?;
    write!(text, "status {}\n", end.number())
}
