//! A script over streams that fail at a call, and that give and take one byte per call.

use std::alloc::{AllocError, Global};
use wasi_program::scenario::{Scenario, parse_scenario};
use wasi_run::run_script;
use wasi_transcript::Case;
use wasi_transcript::cases::TextLines;
use world_io::{MemorySink, MemorySource};

/// How many bytes of a script are read at a time, at most.
pub const PIECE_SIZE: usize = 4096;

/// More than any reply has.
const WHOLE: usize = 1_048_576;

/// The streams of a run: how many bytes a call gives or takes at most, and which read and which
/// write fail, counted from 1; 0 for none.
#[derive(Clone, Copy, Debug, PartialEq, Eq)]
pub struct Failed {
    pub most: usize,
    pub read: u32,
    pub write: u32,
}

/// The replies in a transcript, each with its newline.
pub fn replies_in(alloc: Global, transcript: &[u8]) -> Result<Vec<u8>, AllocError> {
    let mut replies = Vec::new(alloc);
    let mut lines = TextLines::of(transcript);
    'lines: while let Some(line) = lines.next() {
        let is_other = line.starts_with(b"> ")
            || line.starts_with(b"    ")
            || line.starts_with(b"closes ")
            || line == b"no step".as_slice();
        if !is_other {
            replies.extend_from_slice(line)?;
            replies.extend_from_slice(b"\n")?;
        }
    }
    Ok(replies)
}

/// So many first lines of a text.
fn first_lines(text: &[u8], count: usize) -> &[u8] {
    let mut left = count;
    for at in 0..text.len() {
        if left == 0 {
            return &text[..at];
        }
        if text[at] == b'\n' {
            left -= 1;
        }
    }
    text
}

fn count_lines(text: &[u8]) -> usize {
    text.iter().filter(|byte| **byte == b'\n').count()
}

/// What the script writes over these streams.
fn written(
    alloc: Global,
    case: &Case<'_>,
    room: usize,
    streams: Failed,
) -> Result<MemorySink, AllocError> {
    let mut fails = Vec::new(alloc);
    fails.push(streams.write)?;
    let mut sink = MemorySink::new(alloc, streams.most, room, fails)?;
    let Scenario::Planned(mut world, mut contexts) = parse_scenario(
        alloc,
        case.scenario.as_slice(),
    )?
    else {
        return Ok(sink);
    };
    let mut fails = Vec::new(alloc);
    fails.push(streams.read)?;
    let script = case.script.as_slice().to_vec(alloc)?;
    let most = streams.most.max(1).min(PIECE_SIZE);
    let mut source = MemorySource::new(script, most, fails);
    let _ = run_script(
        alloc,
        &mut world,
        &mut contexts,
        u32::MAX,
        &mut source,
        &mut sink,
    );
    Ok(sink)
}

/// What has to be written over these streams: the replies to the lines that are whole before the
/// read that fails, and of these what was taken before the write that fails.
fn wanted<'a>(script: &[u8], replies: &'a [u8], streams: Failed) -> &'a [u8] {
    let mut front = replies;
    if let Some(reads) = streams.read.checked_sub(1) {
        let given = (reads as usize).saturating_mul(streams.most.min(PIECE_SIZE));
        let lines = count_lines(&script[..given.min(script.len())]);
        front = first_lines(front, lines);
    }
    if let Some(writes) = streams.write.checked_sub(1) {
        let writes = writes as usize;
        if streams.most == 1 {
            return &front[..writes.min(front.len())];
        }
        return first_lines(front, writes);
    }
    front
}

/// Runs the script, and returns whether it wrote what it has to.
fn holds(
    alloc: Global,
    case: &Case<'_>,
    replies: &[u8],
    streams: Failed,
) -> Result<bool, AllocError> {
    let room = replies.len().saturating_add(1);
    let sink = written(alloc, case, room, streams)?;
    Ok(sink.bytes() == wanted(case.script.as_slice(), replies, streams))
}

/// Which stream of a run fails.
#[derive(Clone, Copy)]
enum Stream {
    Read,
    Write,
}

/// The streams of which one fails at this call.
fn failing(most: usize, stream: Stream, call: u32) -> Failed {
    match stream {
        Stream::Read => Failed {
            most,
            read: call,
            write: 0,
        },
        Stream::Write => Failed {
            most,
            read: 0,
            write: call,
        },
    }
}

/// Runs the script with a fault at each of at most `tries` calls of a stream, of `calls` that there
/// may be. Returns how many runs there were, or the streams of the first that wrote something else.
fn try_calls(
    alloc: Global,
    case: &Case<'_>,
    replies: &[u8],
    most: usize,
    stream: Stream,
    calls: usize,
    tries: u64,
) -> Result<Result<u64, Failed>, AllocError> {
    let calls = u32::try_from(calls).unwrap_or(u32::MAX);
    let others = u64::from(calls).saturating_sub(1);
    let apart = others.checked_div(tries).unwrap_or(u64::MAX);
    let mut runs = 0u64;
    let mut wait = 0u64;
    for call in 1..=calls {
        if wait > 0 {
            wait -= 1;
            continue;
        }
        wait = apart;
        let streams = failing(most, stream, call);
        if !holds(alloc, case, replies, streams)? {
            return Ok(Err(streams));
        }
        runs = runs.saturating_add(1);
    }
    Ok(Ok(runs))
}

/// Runs the script over streams of one byte per call; over streams that fail at a call; and over
/// such that do both.
pub fn try_script(
    alloc: Global,
    case: &Case<'_>,
    tries: u64,
) -> Result<Result<u64, Failed>, AllocError> {
    let replies = replies_in(alloc, case.wanted.as_slice())?;
    let replies = replies.as_slice();
    let mut runs = 1u64;
    let plain = Failed {
        most: 1,
        read: 0,
        write: 0,
    };
    if !holds(alloc, case, replies, plain)? {
        return Ok(Err(plain));
    }
    let script = case.script.len();
    let plans = [
        (WHOLE, Stream::Read, (script / PIECE_SIZE).saturating_add(2)),
        (WHOLE, Stream::Write, count_lines(replies)),
        (1, Stream::Read, script.saturating_add(1)),
        (1, Stream::Write, replies.len()),
    ];
    for (most, stream, calls) in plans {
        match try_calls(alloc, case, replies, most, stream, calls, tries)? {
            Ok(count) => runs = runs.saturating_add(count),
            Err(failed) => return Ok(Err(failed)),
        }
    }
    Ok(Ok(runs))
}
