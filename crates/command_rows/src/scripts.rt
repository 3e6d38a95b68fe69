//! Cases of the commands of scripts: `run`, `gen`, `gen3`, `pump`.
//!
//! Printed are what was written, the status and the bad line, and the length of the log. What the
//! streams counted are the faults of the source and of the sink, the pieces that the sink refused,
//! and how many bytes were left.

use crate::tries;
use row_cases::{Case, Stream};
use std::alloc::{AllocError, Global};
use std::fmt::Write;
use std::sync::Wait;
use std::thread::Threads;
use wasi_commands::{Done, run_main};
use wasi_spawn::FakeSpawner;
use world_io::{MemorySink, MemorySource};

/// Adds what was written, with `\c` behind it where no newline ends it.
pub fn push_written(text: &mut String, bytes: &[u8]) -> Result<(), AllocError> {
    let written = str::from_utf8(bytes).unwrap_or("no text");
    text.push_str(written)?;
    if !written.is_empty() && !written.ends_with('\n') {
        text.push_str("\\c\n")?;
    }
    Ok(())
}

/// Adds a status, and the line where there is one.
pub fn push_end(text: &mut String, status: u8, line: u32) -> Result<(), AllocError> {
    match line {
        0 => write!(text, "status {status}"),
        _ => write!(text, "status {status} line {line}"),
    }
}

/// The last lines of what was written, or all.
fn last_lines(bytes: &[u8], last: Option<usize>) -> &[u8] {
    let Some(last) = last else {
        return bytes;
    };
    let mut ends = 0usize;
    for (at, byte) in bytes.iter().enumerate().rev() {
        if *byte == b'\n' {
            if ends == last {
                return bytes.get(at.saturating_add(1)..).unwrap_or(bytes);
            }
            ends = ends.saturating_add(1);
        }
    }
    bytes
}

/// Does what the words of a case say, over its streams.
pub fn run_case<R: Threads + Wait + Copy + Send + 'static>(
    rt: &R,
    alloc: Global,
    case: &Case,
) -> Result<Done<MemorySource, MemorySink>, AllocError> {
    let mut scenario = case.source(alloc, Stream::Scenario)?;
    let mut writers = FakeSpawner::new(case.fails(alloc, Stream::Writer)?);
    let mut readers = FakeSpawner::new(case.fails(alloc, Stream::Reader)?);
    let source = case.source(alloc, Stream::Input)?;
    let sink = case.sink(alloc, Stream::Output)?;
    Ok(run_main(
        *rt,
        alloc,
        case.words_from(0),
        &mut scenario,
        source,
        sink,
        &mut writers,
        &mut readers,
    ))
}

/// Adds what came of a case.
fn push_done(
    text: &mut String,
    case: &Case,
    done: &Done<MemorySource, MemorySink>,
) -> Result<(), AllocError> {
    push_written(text, last_lines(done.sink.bytes(), case.last))?;
    push_end(text, done.status, done.line)?;
    write!(text, " log {}", done.log.len())?;
    if case.counts {
        let (faults, wrong) = (done.source.faults(), done.sink.faults());
        let (refused, left) = (done.sink.refused(), done.source.left().len());
        write!(
            text,
            " faults {faults} {wrong} refused {refused} left {left}"
        )?;
    }
    text.push_str("\n")
}

/// Adds what came of a case.
pub fn run<R: Threads + Wait + Copy + Send + 'static>(
    rt: &R,
    text: &mut String,
    alloc: Global,
    case: &mut Case,
) -> Result<(), AllocError> {
    if let Some(tries) = case.tries {
        return tries::report(rt, text, alloc, case, tries);
    }
    let done = run_case(rt, alloc, case)?;
    push_done(text, case, &done)
}
