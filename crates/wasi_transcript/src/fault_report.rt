//! What is printed of runs whose network failed at one call.

use crate::cases::TextLines;
use crate::faults::FaultRun;
use crate::program::End;
use crate::report::first_difference;
use std::alloc::{AllocError, Global};
use std::fmt::Write;
use wasi_addr::ErrorCode;
use wasi_program::Status;
use world_text::EntryText;

/// What a fault at one call did to a run.
#[derive(Clone, Copy, Debug, PartialEq, Eq)]
pub enum Came {
    /// All replies are those of the run without it.
    Kept,
    /// The first reply that differs is no trap.
    Refused,
    /// The first reply that differs is a trap.
    Trapped,
    /// The run broke off, or left a network socket open.
    Lost,
}

/// How many runs came to what, each up to the greatest `u32`.
#[derive(Clone, Copy, Debug, PartialEq, Eq)]
pub struct Tally {
    pub kept: u32,
    pub refused: u32,
    pub trapped: u32,
    pub lost: u32,
}

/// The last line of a text, and its number, counted from 1.
fn last_line(text: &[u8]) -> (u32, &[u8]) {
    let mut lines = TextLines::of(text);
    let (mut number, mut last) = (0u32, b"".as_slice());
    'lines: while let Some(line) = lines.next() {
        number = number.saturating_add(1);
        last = line;
    }
    (number, last)
}

/// Appends `line N: ` and the reply there.
fn push_reply(
    alloc: Global,
    text: &mut Vec<u8>,
    number: u32,
    reply: &[u8],
) -> Result<(), AllocError> {
    let place = format!(in alloc; "line {number}: ")?;
    text.extend_from_slice(place.as_bytes())?;
    text.extend_from_slice(reply)
}

/// Appends the first reply that isn't the plain run's, and the trap with which the run ended later,
/// if one did; returns what the fault did.
fn push_replies(
    alloc: Global,
    text: &mut Vec<u8>,
    plain: &FaultRun,
    run: &FaultRun,
) -> Result<Came, AllocError> {
    let found = first_difference(plain.replies.as_slice(), run.replies.as_slice());
    let Some(reply) = found.came else {
        text.extend_from_slice(b"all replies kept")?;
        return Ok(Came::Kept);
    };
    let number = found.line.saturating_add(1);
    push_reply(alloc, text, number, reply)?;
    if reply.starts_with(b"trap ") {
        return Ok(Came::Trapped);
    }
    let (last, reply) = last_line(run.replies.as_slice());
    if reply.starts_with(b"trap ") {
        text.extend_from_slice(b"; ")?;
        push_reply(alloc, text, last, reply)?;
    }
    Ok(Came::Refused)
}

/// What is printed of the run whose `nth` call was answered by the code, beside the plain run: the
/// call, and the first reply that differs. Returns what the fault did, too.
pub fn run_text(
    alloc: Global,
    plain: &FaultRun,
    run: &FaultRun,
    nth: u32,
    code: ErrorCode,
) -> Result<(Came, Vec<u8>), AllocError> {
    let mut text = Vec::new(alloc);
    if let Some(call) = run.fitting(nth, code) {
        let call = format!(in alloc; "    {}\n", EntryText(call))?;
        text.extend_from_slice(call.as_bytes())?;
    }
    let came = push_replies(alloc, &mut text, plain, run)?;
    text.extend_from_slice(b"\n")?;
    if run.is_whole() {
        return Ok((came, text));
    }
    text.extend_from_slice(b"this run broke off, or left a network socket open\n")?;
    Ok((Came::Lost, text))
}

impl Tally {
    /// No runs.
    pub fn new() -> Tally {
        Tally {
            kept: 0,
            refused: 0,
            trapped: 0,
            lost: 0,
        }
    }

    /// Counts a run.
    pub fn count(&mut self, came: Came) {
        let count = match came {
            Came::Kept => &mut self.kept,
            Came::Refused => &mut self.refused,
            Came::Trapped => &mut self.trapped,
            Came::Lost => &mut self.lost,
        };
        *count = count.saturating_add(1);
    }

    /// How the program ends.
    pub fn end(&self) -> End {
        if self.lost > 0 {
            End::Lost
        } else if self.trapped > 0 {
            End::Trapped
        } else {
            End::Run(Status::Ok, 0)
        }
    }

    /// The line that reports it.
    pub fn summary(&self, alloc: Global) -> Result<String, AllocError> {
        let mut text = String::new(alloc);
        write!(
            text,
            "{} kept all replies, {} were refused, {} trapped, {} broke off\n",
            self.kept, self.refused, self.trapped, self.lost
        )?;
        Ok(text)
    }
}
