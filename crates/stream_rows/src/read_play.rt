//! A stream that is used step by step, over a gated source.

ghost use Rattle.std.specs.Prelude.{◌≡◌};
ghost use Rattle.wasi_reader.specs.Names.{ledgers_of};

use crate::read_gate::{Gate, GatedSource, TURNS, gated};
use bytes::Bytes;
use std::alloc::Global;
use std::marker::Brand;
use std::sync::Wait;
use std::test::*;
use std::thread;
use std::thread::Threads;
use wasi_reader::{AsyncReadStream, Names, ReadParts};
use wasi_spawn::{StartError, ThreadSpawner};
use wasi_streams::StreamError;
use worker_shared::Finished;
use world_io::MemorySource;

/// One call of the owner.
#[derive(Clone, Copy)]
pub enum Step {
    Read(usize),
    Poll,
    /// Poll until it is ready.
    PollOn,
    Ready,
    Cancel,
    /// Look until the source's first read began.
    See,
    /// Let the source's first read continue.
    Open,
}

/// What a call was answered.
#[derive(Debug, PartialEq, Eq, Drop)]
pub enum Answer {
    Done,
    Count(usize),
    Error(StreamError),
    Is(bool),
}

/// The answer of a read.
fn answer_of(read: Result<Bytes, StreamError>) -> Answer {
    match read {
        Ok(bytes) => Answer::Count(bytes.len()),
        Err(e) => Answer::Error(e),
    }
}

/// Polls until the stream is ready. Returns whether it was.
fn poll_on<N: Names + Send + Sync + 'static, R: Wait>(
    rt: &R,
    stream: &mut AsyncReadStream<GatedSource, N>,
) -> bool {
    for _turn in 0..TURNS {
        if stream.poll_ready(rt) {
            return true;
        }
        thread::yield_now();
    }
    false
}

/// Takes one step.
fn take_step<N: Names + Send + Sync + 'static, R: Wait>(
    rt: &R,
    stream: &mut AsyncReadStream<GatedSource, N>,
    gate: &Gate,
    step: Step,
) -> Answer {
    match step {
        Step::Read(size) => answer_of(stream.read(rt, size)),
        Step::Poll => Answer::Is(stream.poll_ready(rt)),
        Step::PollOn => Answer::Is(poll_on(rt, stream)),
        Step::Ready => {
            stream.ready(rt);
            Answer::Done
        }
        Step::Cancel => {
            stream.cancel(rt);
            Answer::Done
        }
        Step::See => Answer::Is(gate.sees_first_read()),
        Step::Open => {
            gate.open();
            Answer::Done
        }
    }
}

/// A whole stream: the number of the first step that isn't answered so, and how the stream ended.
type Played = (Option<usize>, Finished<GatedSource>);

fn play_by<N: Names + Send + Sync + 'static, R: Threads + Wait + Copy + Send + 'static>(
    rt: &R,
    alloc: Global,
    parts: ReadParts,
    gate: Gate,
    source: GatedSource,
    steps: &[(Step, Answer)],
) -> Result<Played, StartError<GatedSource>>
    requires ledgers { ledgers_of parts ≡ N.ledgers }
    requires line { parts.line ≡ N.line }
{
    let mut spawner = ThreadSpawner::new();
    let mut stream = AsyncReadStream::<GatedSource, N>::new(
        rt,
        alloc,
        &mut spawner,
        parts,
        source,
    )?;
    let mut other = None;
    for number in 0..steps.len() {
        let (step, answer) = &steps[number];
        if take_step(rt, &mut stream, &gate, *step) != *answer && other.is_none() {
            other = Some(number);
        }
    }
    gate.open();
    Ok((other, stream.finish(rt, &mut spawner)))
}

/// Takes the steps on a stream with parts and names of its own, over the source behind a gate.
pub fn play<R: Threads + Wait + Copy + Send + 'static>(
    rt: &R,
    alloc: Global,
    source: MemorySource,
    steps: &[(Step, Answer)],
) -> Result<Played, Fail> {
    let (gate, source) = gated(alloc, source)?;
    let parts = ReadParts::new(alloc)?;
    match play_by::<Brand, R>(rt, alloc, parts, gate, source, steps) {
        Ok(played) => Ok(played),
        Err(_) => Err(Fail::new("no worker")),
    }
}
