//! Cases of sources and sinks over memory. An answer is its number, or `failed`.

use row_cases::{Case, Stream, number};
use std::alloc::{AllocError, Global};
use std::fmt::Write;
use std::io::{Stdin, Stdout};
use world_io::{Failed, MemorySink, MemorySource, Sink, Source, StdSink, StdSource};

/// Adds an answer and a space.
pub fn push_answer(text: &mut String, answer: Result<usize, Failed>) -> Result<(), AllocError> {
    match answer {
        Ok(count) => write!(text, "{count} "),
        Err(Failed) => text.push_str("failed "),
    }
}

/// The text that these bytes are.
pub fn text_of(bytes: &[u8]) -> &str {
    str::from_utf8(bytes).unwrap_or("no text")
}

/// What a flush answered.
pub fn flush_text(answer: Result<(), Failed>) -> &'static str {
    match answer {
        Ok(()) => "flushed ",
        Err(Failed) => "failed ",
    }
}

/// `source READS SIZE`: the answers to so many reads of the input into buffers of at most 8 bytes,
/// the bytes that were given, and what the source says then.
pub fn source(text: &mut String, alloc: Global, case: &Case) -> Result<(), AllocError> {
    let mut source = case.source(alloc, Stream::Input)?;
    let mut given = String::new(alloc);
    let mut buf = [0; 8];
    let size = number(case.word(2)).min(8);
    for _ in 0..number(case.word(1)) {
        let told = source.read(&mut buf[..size]);
        push_answer(text, told)?;
        given.push_str(text_of(&buf[..told.unwrap_or(0)]))?;
    }
    let (left, ended, faults) = (source.left().len(), source.has_ended(), source.faults());
    write!(
        text,
        "gave {given} left {left} ended {ended} faults {faults}\n"
    )
}

/// `sink WRITES`: the answers to so many writes of the input, and after each of what it didn't take;
/// and what the sink says then.
pub fn sink(text: &mut String, alloc: Global, case: &Case) -> Result<(), AllocError> {
    let mut sink = case.sink(alloc, Stream::Output)?;
    let mut rest = case.text(Stream::Input);
    for _ in 0..number(case.word(1)) {
        let told = sink.write(rest);
        push_answer(text, told)?;
        rest = &rest[told.unwrap_or(0)..];
    }
    let (has, refused, faults) = (text_of(sink.bytes()), sink.refused(), sink.faults());
    write!(text, "has {has} refused {refused} faults {faults}\n")
}

/// `flushes`: the answers to three writes and to a flush behind each, and whether it was flushed then.
pub fn flushes(text: &mut String, alloc: Global, case: &Case) -> Result<(), AllocError> {
    let mut sink = case.sink(alloc, Stream::Output)?;
    for _ in 0..3 {
        push_answer(text, sink.write(b"hi"))?;
        text.push_str(flush_text(sink.flush()))?;
        text.push_str(if sink.is_flushed() {
            "all "
        } else {
            "not all "
        })?;
    }
    write!(text, "faults {}\n", sink.faults())
}

fn assert_send<T: Send>() {}

/// All may be moved to threads.
pub fn are_moved_to_threads() {
    assert_send::<MemorySource>();
    assert_send::<MemorySink>();
    assert_send::<StdSource<Stdin>>();
    assert_send::<StdSink<Stdout>>();
}
