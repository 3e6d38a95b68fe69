//! What a stream answers while its worker is held in the source's first read, and after.

ghost use Rattle.std.specs.Prelude.{◌≤◌};

use crate::read_play::{Answer, Step, play};
use crate::same::same;
use std::alloc::Global;
use std::process::Abort;
use std::sync::Wait;
use std::test::*;
use std::thread::Threads;
use wasi_addr::ErrorCode;
use wasi_streams::StreamError;
use worker_shared::Ended;
use world_io::MemorySource;

const CLOSED: Answer = Answer::Error(StreamError::Closed);

const FAULT: Answer = Answer::Error(StreamError::LastOperationFailed(ErrorCode::Other));

const NOTHING: Answer = Answer::Count(0);

/// Takes the steps on a stream over 123 bytes, of which the source gives at most `most` at a time
/// and whose calls with these numbers fail. Each step is to be answered so, and then the stream is
/// to end so.
fn plays<R: Threads + Wait + Abort + Copy + Send + 'static>(
    rt: &R,
    alloc: Global,
    most: usize,
    fails: Vec<u32>,
    steps: &[(Step, Answer)],
    outcome: Result<(), Ended>,
) -> Result<(), Fail>
    requires { 1 ≤ most }
{
    let source = MemorySource::new(vec![in alloc; 1u8; 123]?, most, fails);
    let (other, finished) = play(rt, alloc, source, steps)?;
    same(rt, other, None);
    same(rt, finished.outcome, outcome);
    same(rt, finished.inner.inner().has_ended(), outcome.is_ok());
    Ok(())
}

/// The most bytes that the source gives at a time, the call of it that fails, where 0 is none; the
/// steps and their answers, and how the stream ends.
const PLAYS: [(usize, u32, &[(Step, Answer)], Result<(), Ended>); 5] = [
    // The owner sees that the worker began the source's first read, while it holds it.
    (
        123,
        0,
        &[
            (Step::See, Answer::Is(true)),
            (Step::Poll, Answer::Is(false)),
            (Step::Read(1), NOTHING),
            (Step::Open, Answer::Done),
            (Step::Ready, Answer::Done),
            (Step::Read(123), Answer::Count(123)),
            (Step::Ready, Answer::Done),
            (Step::Read(0), CLOSED),
            (Step::Read(0), CLOSED),
            (Step::Poll, Answer::Is(true)),
        ],
        Ok(()),
    ),
    // The stream becomes ready by itself.
    (
        123,
        0,
        &[
            (Step::Open, Answer::Done),
            (Step::PollOn, Answer::Is(true)),
            (Step::Read(0), NOTHING),
            (Step::Poll, Answer::Is(true)),
            (Step::Read(100), Answer::Count(100)),
            (Step::Poll, Answer::Is(true)),
            (Step::Read(100), Answer::Count(23)),
            (Step::Ready, Answer::Done),
            (Step::Read(1), CLOSED),
        ],
        Ok(()),
    ),
    // The worker's fault is reported once, also after a cancel, and then the stream is closed.
    (
        123,
        1,
        &[
            (Step::Open, Answer::Done),
            (Step::Ready, Answer::Done),
            (Step::Cancel, Answer::Done),
            (Step::Read(0), FAULT),
            (Step::Read(0), CLOSED),
            (Step::Poll, Answer::Is(true)),
            (Step::Read(9), CLOSED),
        ],
        Err(Ended::Fault),
    ),
    // A stream is cancelled while its worker is held in a read.
    (
        123,
        0,
        &[
            (Step::See, Answer::Is(true)),
            (Step::Cancel, Answer::Done),
            (Step::Poll, Answer::Is(true)),
            (Step::Read(1), CLOSED),
            (Step::Cancel, Answer::Done),
            (Step::Open, Answer::Done),
            (Step::Ready, Answer::Done),
            (Step::Read(1), CLOSED),
        ],
        Err(Ended::Cancelled),
    ),
    // The chunk in the slot, and what is left of a chunk, are still read after a cancel.
    (
        10,
        0,
        &[
            (Step::Open, Answer::Done),
            (Step::Ready, Answer::Done),
            (Step::Cancel, Answer::Done),
            (Step::Read(4), Answer::Count(4)),
            (Step::Read(100), Answer::Count(6)),
            (Step::Read(1), CLOSED),
            (Step::Read(1), CLOSED),
        ],
        Err(Ended::Cancelled),
    ),
];

#[test]
fn each_step_is_answered_so(rt: HostRuntime) -> Result<(), Fail> {
    for (most, failing, steps, outcome) in PLAYS {
        let fails = vec![in rt.alloc(); failing]?;
        plays(&rt, rt.alloc(), most.max(1), fails, steps, outcome)?;
    }
    Ok(())
}
