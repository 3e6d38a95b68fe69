//! Scripts that are recorded, and run again on their logs.

use crate::streams::{PIECE_SIZE, replies_in};
use std::alloc::{AllocError, Global};
use wasi_program::scenario::{Scenario, parse_scenario};
use wasi_recorder::{ReplayEnd, replay};
use wasi_replay::{LogError, log_text, parse_log};
use wasi_run::{RunEnd, RunError, run_script};
use wasi_transcript::Case;
use wasi_transcript::cases::{TextLines, read_case};
use wasi_world::Octets;
use world_io::{GrowingSink, MemorySource};

/// What came of the replays of a file.
#[derive(Clone, Copy)]
pub enum Replays {
    /// Each script, run again on its log, ended as before; how many there were, up to the greatest
    /// `u64`.
    Same(u64),
    /// The line of the first case whose script didn't.
    Differs(u32),
    /// It isn't a list of cases.
    NotCases,
}

/// A run that was recorded: how it ended, and the text of its log.
#[derive(Drop)]
struct Recording {
    outcome: Result<RunEnd, RunError>,
    log: Octets,
}

fn script_of(alloc: Global, case: &Case<'_>) -> Result<MemorySource, AllocError> {
    let script = case.script.as_slice().to_vec(alloc)?;
    Ok(MemorySource::new(script, PIECE_SIZE, Vec::new(alloc)))
}

/// Runs the script over its scenario's network, and keeps the log; `None` where the scenario isn't
/// in its grammar.
fn record(alloc: Global, case: &Case<'_>) -> Result<Option<Recording>, AllocError> {
    let Scenario::Planned(mut world, mut contexts) = parse_scenario(
        alloc,
        case.scenario.as_slice(),
    )?
    else {
        return Ok(None);
    };
    let mut source = script_of(alloc, case)?;
    let mut sink = GrowingSink::new(alloc);
    let outcome = run_script(
        alloc,
        &mut world,
        &mut contexts,
        u32::MAX,
        &mut source,
        &mut sink,
    );
    let entries = world.into_entries();
    let log = log_text(alloc, contexts.as_slice(), entries.as_slice())?;
    Ok(Some(Recording { outcome, log }))
}

/// Whether the script, run on the answers of the log, ends as it did, with these replies. None are
/// written where it ended with an error.
fn is_same(
    alloc: Global,
    case: &Case<'_>,
    recording: &Recording,
    replies: &[u8],
) -> Result<bool, AllocError> {
    let (mut contexts, entries) = match parse_log(alloc, recording.log.as_slice()) {
        Ok(log) => log,
        Err(LogError::BadLog(_)) => return Ok(false),
        Err(LogError::Memory(error)) => return Err(error),
    };
    let mut source = script_of(alloc, case)?;
    let mut sink = GrowingSink::new(alloc);
    let ended = replay(
        alloc,
        entries,
        &mut contexts,
        u32::MAX,
        &mut source,
        &mut sink,
    );
    Ok(match ended {
        Ok(ReplayEnd::Same(end)) => recording.outcome == Ok(end) && sink.bytes() == replies,
        Ok(ReplayEnd::Differs(_)) => false,
        Err(error) => recording.outcome == Err(error) && sink.bytes().is_empty(),
    })
}

/// Records the script of a case, and runs it again on the log; whether it ends so again, with the
/// replies of its transcript.
fn is_replayed(alloc: Global, case: &Case<'_>) -> Result<bool, AllocError> {
    let replies = replies_in(alloc, case.wanted.as_slice())?;
    match record(alloc, case)? {
        Some(recording) => is_same(alloc, case, &recording, replies.as_slice()),
        None => Ok(false),
    }
}

/// Records the script of each case, and runs it again on its log. Takes memory for one case and its
/// runs at a time. The only error is out of memory.
pub fn replay_text(alloc: Global, text: &[u8]) -> Result<Replays, AllocError> {
    let mut lines = TextLines::of(text);
    let mut count = 0u64;
    'cases: while !lines.is_done() {
        let line = lines.number();
        let Some(case) = read_case(alloc, &mut lines)? else {
            return Ok(Replays::NotCases);
        };
        if !is_replayed(alloc, &case)? {
            return Ok(Replays::Differs(line));
        }
        count = count.saturating_add(1);
    }
    Ok(Replays::Same(count))
}
