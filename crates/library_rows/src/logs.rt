//! Cases of logs: the first bad line, and a log of which a byte is another.

use row_cases::{Case, Stream, number};
use std::alloc::{AllocError, Global};
use std::fmt::Write;
use wasi_replay::{LogError, log_text, parse_log};

/// What a text is as a log.
#[derive(Clone, Copy, Debug, PartialEq, Eq)]
enum Read {
    /// A log, of which this is the text.
    Whole,
    /// A log, of which this isn't the text.
    Other,
    /// This line isn't in the grammar.
    BadLine(u32),
}

fn read_log(alloc: Global, text: &[u8]) -> Result<Read, AllocError> {
    match parse_log(alloc, text) {
        Ok((contexts, entries)) => {
            let again = log_text(alloc, contexts.as_slice(), entries.as_slice())?;
            if again.as_slice() == text {
                return Ok(Read::Whole);
            }
            Ok(Read::Other)
        }
        Err(LogError::BadLog(line)) => Ok(Read::BadLine(line)),
        Err(LogError::Memory(e)) => Err(e),
    }
}

/// The number of the line that has this byte.
fn line_of(text: &[u8], at: usize) -> u32 {
    let mut line: u32 = 1;
    for byte in text.iter().take(at) {
        if *byte == b'\n' {
            line = line.saturating_add(1);
        }
    }
    line
}

/// Changes a byte of the log so many times, and counts the texts that are refused at the line of
/// that byte or the next, those that are another log's, and those of which neither holds.
fn changed(alloc: Global, log: &[u8], times: usize) -> Result<[u32; 3], AllocError> {
    let mut counts = [0u32; 3];
    let mut x: u64 = 1;
    for _ in 0..times {
        x = x
            .wrapping_mul(6364136223846793005)
            .wrapping_add(1442695040888963407);
        let at = ((x >> 33) as usize) % log.len().max(1);
        let mut text = log.to_vec(alloc)?;
        if let Some(byte) = text.get_mut(at) {
            *byte ^= x.to_le_bytes()[3] | 1;
        }
        let line = line_of(log, at);
        let kind = match read_log(alloc, text.as_slice())? {
            Read::BadLine(bad) if bad == line || bad == line.saturating_add(1) => 0,
            Read::Whole => 1,
            _ => 2,
        };
        counts[kind] = counts[kind].saturating_add(1);
    }
    Ok(counts)
}

/// `log`: what the input is as a log. `log changed N`: what it is where a byte is another, N times.
pub fn log(text: &mut String, alloc: Global, case: &Case) -> Result<(), AllocError> {
    let log = case.text(Stream::Input);
    if case.word(1) != "changed" {
        let read = read_log(alloc, log)?;
        return write!(text, "{read:?}\n");
    }
    let [refused, others, wrong] = changed(alloc, log, number(case.word(2)))?;
    let both = refused > 0 && others > 0;
    write!(
        text,
        "refused at their line and other logs: {both}, neither: {wrong}\n"
    )
}
