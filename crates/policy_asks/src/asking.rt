//! Answers a text of questions, line by line.

ghost use Rattle.std.specs.Prelude.{◌≡◌, ◌≤◌, ◌<◌, ◌+◌, ◌^◌, Some, None, OnOk, IfErr, IfSome};
ghost use Rattle.std.specs.Prelude.{length, take};
ghost use Rattle.policy_asks.specs.Answer.{answer_line};
ghost use Rattle.policy_asks.specs.Asked.{AskEnds, LinesEnd};
ghost use Rattle.policy_asks.specs.OneLine.{LineEnds};
ghost use Rattle.policy_asks.specs.Question.{question_in};

use crate::answer::{Form, answer_line};
use crate::question::parse_question;
use crate::read::{ReadEnd, read_text};
use std::alloc::{AllocError, Global};
use thiserror::Error;
use wasi_policy::Policy;
use world_io::{Sink, Source, write_all};
use world_text::lines::newline_at;

/// Why questions weren't all answered. What was answered before is written.
#[derive(Clone, Copy, Debug, PartialEq, Eq, Error)]
pub enum AskError {
    /// The first line that is no question, counted from 1: also a last line without its newline.
    #[error("line {0} is no question")]
    BadLine(u32),
    #[error("the questions are longer than their limit")]
    TooLong,
    #[error("a read failed")]
    ReadFault,
    #[error("a write failed")]
    WriteFault,
    #[error("memory ran out")]
    Memory,
}

impl From<AllocError> for AskError {
    ghost use Rattle.std.specs.Prelude.{◌≡◌};
    ghost use Rattle.policy_asks.specs.declared.asking.AskError.TheVariants.{Memory};

    ghost from_gives = { λ e error. error ≡ Memory };

    fn from(_e: AllocError) -> AskError {
        AskError::Memory
    }
}

/// Answers a line, which has this number.
fn answer_one<K: Sink>(
    alloc: Global,
    policy: &Policy,
    form: Form,
    number: u32,
    line: &[u8],
    sink: &mut K,
) -> Result<(), AskError>
    ensures { LineEnds policy.now form number line.now (K.writing sink.old) (K.writing sink.new)
        result }
{
    let Some(question) = parse_question(line) else {
        return Err(AskError::BadLine(number));
    };
    let text = answer_line(alloc, policy, form, question)?;
    let Ok(()) = write_all(sink, text.as_str().as_bytes()) else {
        return Err(AskError::WriteFault);
    };
    Ok(())
}

/// Answers the whole lines of a text; returns the number of a last line without its newline, if
/// there is one.
fn answer_lines<K: Sink>(
    alloc: Global,
    policy: &Policy,
    form: Form,
    text: &[u8],
    sink: &mut K,
) -> Result<Option<u32>, AskError>
    requires { length text.now < 2 ^ 32 }
    ensures { LinesEnd policy.now form text.now (K.writing sink.old) (K.writing sink.new) result }
{
    let mut number: u64 = 1;
    let mut at = 0;
    while let Some(end) = newline_at(&text[at..]) {
        answer_one(
            alloc,
            policy,
            form,
            number as u32,
            &text[at..at + end],
            sink,
        )?;
        number += 1;
        at += end + 1;
    }
    if at < text.len() {
        return Ok(Some(number as u32));
    }
    Ok(None)
}

/// As many of the bytes as lie within the limit.
#[tactic(auto, using(std::proofs::lemmas::List::take_min))]
fn first_bytes(bytes: &[u8], limit: usize) -> &[u8]
    ensures { result.now ≡ take limit bytes.now }
{
    &bytes[..bytes.len().min(limit)]
}

/// Reads questions to the end, to the limit or to a read that fails, and writes an answer for each
/// line, up to the first that is no question. The sink isn't flushed. Takes memory for what was
/// read and for an answer at a time.
pub fn ask<S: Source, K: Sink>(
    alloc: Global,
    policy: &Policy,
    form: Form,
    limit: u32,
    source: &mut S,
    sink: &mut K,
) -> Result<(), AskError>
    ensures { AskEnds policy.now form limit (S.reading source.old) (S.reading source.new)
        (K.writing sink.old) (K.writing sink.new) result }
{
    let (text, end) = read_text(alloc, source, limit)?;
    let within = first_bytes(text.as_slice(), limit as usize);
    let unfinished = answer_lines(alloc, policy, form, within, sink)?;
    match end {
        ReadEnd::TooLong => return Err(AskError::TooLong),
        ReadEnd::Fault => return Err(AskError::ReadFault),
        ReadEnd::Whole => {}
    }
    match unfinished {
        Some(number) => Err(AskError::BadLine(number)),
        None => Ok(()),
    }
}
