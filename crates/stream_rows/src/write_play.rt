//! A stream that is used step by step, over a gated sink.

ghost use Rattle.std.specs.Prelude.{◌≡◌};
ghost use Rattle.wasi_writer.specs.Names.{ledgers_of};

use crate::write_gate::{Gate, GatedSink};
use std::alloc::Global;
use std::marker::Brand;
use std::sync::Wait;
use std::test::*;
use std::thread::Threads;
use wasi_spawn::{StartError, ThreadSpawner};
use wasi_streams::StreamError;
use wasi_writer::{AsyncWriteStream, Names, WriteParts};
use worker_shared::Finished;

/// One call of the owner.
#[derive(Clone, Copy)]
pub enum Step {
    Write(&'static [u8]),
    Flush,
    Check,
    Poll,
    Ready,
    Cancel,
    /// Look until the sink's first write began.
    See,
    /// Let the sink's first write continue.
    Open,
    /// Let the sink's first write fail.
    Fail,
}

/// What a call was answered.
#[derive(Debug, PartialEq, Eq, Drop)]
pub enum Answer {
    Done(Result<(), StreamError>),
    Count(Result<usize, StreamError>),
    Is(bool),
}

/// Takes one step.
fn take_step<N: Names + Send + Sync + 'static, R: Wait>(
    rt: &R,
    stream: &mut AsyncWriteStream<GatedSink, N>,
    gate: &Gate,
    step: Step,
) -> Answer {
    match step {
        Step::Write(bytes) => Answer::Done(stream.write(rt, bytes)),
        Step::Flush => Answer::Done(stream.flush(rt)),
        Step::Check => Answer::Count(stream.check_write(rt)),
        Step::Poll => Answer::Is(stream.poll_ready(rt)),
        Step::Ready => {
            stream.ready(rt);
            Answer::Done(Ok(()))
        }
        Step::Cancel => {
            stream.cancel(rt);
            Answer::Done(Ok(()))
        }
        Step::See => Answer::Is(gate.sees_first_write()),
        Step::Open => {
            gate.open();
            Answer::Done(Ok(()))
        }
        Step::Fail => {
            gate.fail();
            Answer::Done(Ok(()))
        }
    }
}

/// A whole stream: the number of the first step that isn't answered so, and how the stream ended.
type Played = (Option<usize>, Finished<GatedSink>);

fn play_by<N: Names + Send + Sync + 'static, R: Threads + Wait + Copy + Send + 'static>(
    rt: &R,
    alloc: Global,
    parts: WriteParts,
    gate: Gate,
    sink: GatedSink,
    steps: &[(Step, Answer)],
) -> Result<Played, StartError<GatedSink>>
    requires ledgers { ledgers_of parts ≡ N.ledgers }
    requires line { (parts.line ≡ N.line) × (parts.budget ≡ N.initial) }
{
    let mut spawner = ThreadSpawner::new();
    let mut stream = AsyncWriteStream::<GatedSink, N>::new(rt, alloc, &mut spawner, parts, sink)?;
    let mut other = None;
    for number in 0..steps.len() {
        let (step, answer) = &steps[number];
        if take_step(rt, &mut stream, &gate, *step) != *answer && other.is_none() {
            other = Some(number);
        }
    }
    Ok((other, stream.finish(rt, &mut spawner)))
}

/// Takes the steps on a stream with parts and names of its own, and with this budget.
pub fn play<R: Threads + Wait + Copy + Send + 'static>(
    rt: &R,
    alloc: Global,
    budget: usize,
    gate: Gate,
    sink: GatedSink,
    steps: &[(Step, Answer)],
) -> Result<Played, StartError<GatedSink>> {
    let Ok(parts) = WriteParts::new(alloc, budget) else {
        return Err(StartError::Memory(sink));
    };
    play_by::<Brand, R>(rt, alloc, parts, gate, sink, steps)
}
