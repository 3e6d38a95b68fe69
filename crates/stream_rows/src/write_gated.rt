//! What a stream answers while its worker is held in the sink's first write.

use crate::same::same;
use crate::write_gate::gated;
use crate::write_play::{Answer, Step, play};
use std::alloc::Global;
use std::process::Abort;
use std::sync::Wait;
use std::test::*;
use std::thread::Threads;
use wasi_addr::ErrorCode;
use wasi_streams::StreamError;
use wasi_world::TrapKind;
use worker_shared::Ended;

const OK: Answer = Answer::Done(Ok(()));

const CLOSED: Answer = Answer::Done(Err(StreamError::Closed));

const ABOVE: Answer = Answer::Done(Err(StreamError::Trap(TrapKind::Budget)));

const FAULT: Answer = Answer::Done(Err(StreamError::LastOperationFailed(ErrorCode::Other)));

const PENDING: Answer = Answer::Done(Err(StreamError::Trap(TrapKind::FlushPending)));

/// Takes the steps on a stream with a budget of 10 bytes, each of which is to be answered so. Then
/// it is to end so, with so many bytes in the sink.
fn plays<R: Threads + Wait + Abort + Copy + Send + 'static>(
    rt: &R,
    alloc: Global,
    steps: &[(Step, Answer)],
    outcome: Result<(), Ended>,
    bytes: u64,
) -> Result<(), Fail> {
    let (gate, sink) = gated(alloc)?;
    let Ok((other, finished)) = play(rt, alloc, 10, gate, sink, steps) else {
        return Err(Fail::new("no worker"));
    };
    same(rt, other, None);
    same(rt, finished.outcome, outcome);
    same(rt, finished.inner.bytes(), bytes);
    Ok(())
}

/// The steps and their answers, how the stream ends, and how many bytes the sink has.
const PLAYS: [(&[(Step, Answer)], Result<(), Ended>, u64); 4] = [
    // The owner sees that the worker began the sink's first write, while it holds it.
    (
        &[
            (Step::Write(&[1, 2, 3]), OK),
            (Step::See, Answer::Is(true)),
            (Step::Check, Answer::Count(Ok(7))),
            (Step::Open, OK),
        ],
        Ok(()),
        3,
    ),
    // The budget is used up, a flush is pending, and then all of the budget is there again.
    (
        &[
            (Step::Check, Answer::Count(Ok(10))),
            (Step::Write(&[0; 11]), ABOVE),
            (Step::Write(&[0; 4]), OK),
            (Step::Write(&[]), OK),
            (Step::Check, Answer::Count(Ok(6))),
            (Step::Poll, Answer::Is(true)),
            (Step::Write(&[0; 6]), OK),
            (Step::Check, Answer::Count(Ok(0))),
            (Step::Poll, Answer::Is(false)),
            (Step::Write(&[0]), ABOVE),
            (Step::Flush, OK),
            (Step::Flush, OK),
            (Step::Write(&[]), PENDING),
            (Step::Check, Answer::Count(Ok(0))),
            (Step::Open, OK),
            (Step::Ready, OK),
            (Step::Check, Answer::Count(Ok(10))),
            (Step::Write(&[0; 10]), OK),
        ],
        Ok(()),
        20,
    ),
    // A stream is cancelled while a chunk is being written and another waits.
    (
        &[
            (Step::Write(&[1, 2, 3]), OK),
            (Step::See, Answer::Is(true)),
            (Step::Write(&[4, 5]), OK),
            (Step::Cancel, OK),
            (Step::Poll, Answer::Is(true)),
            (Step::Write(&[6]), CLOSED),
            (Step::Flush, CLOSED),
            (Step::Check, Answer::Count(Err(StreamError::Closed))),
            (Step::Cancel, OK),
            (Step::Open, OK),
        ],
        Err(Ended::Cancelled),
        3,
    ),
    // The worker's fault is reported once, also after a cancel, and then the stream is closed.
    (
        &[
            (Step::Fail, OK),
            (Step::Write(&[0; 10]), OK),
            (Step::Ready, OK),
            (Step::Cancel, OK),
            (Step::Flush, FAULT),
            (Step::Write(&[]), CLOSED),
            (Step::Check, Answer::Count(Err(StreamError::Closed))),
        ],
        Err(Ended::Fault),
        0,
    ),
];

#[test]
fn each_step_is_answered_so(rt: HostRuntime) -> Result<(), Fail> {
    for (steps, outcome, bytes) in PLAYS {
        plays(&rt, rt.alloc(), steps, outcome, bytes)?;
    }
    Ok(())
}
