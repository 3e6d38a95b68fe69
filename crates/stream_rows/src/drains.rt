//! Whole read streams: bytes in pieces of every size, sources that fail, streams that are cancelled,
//! and a start that is refused.

use crate::drain::{Drained, Use, drain};
use crate::same::{pattern, same};
use std::test::*;
use wasi_addr::ErrorCode;
use wasi_spawn::{FakeSpawner, StartError, ThreadSpawner};
use wasi_streams::StreamError;
use worker_shared::{Ended, Finished};
use world_io::MemorySource;

/// What a number does.
#[derive(Clone, Copy, Debug, PartialEq, Eq)]
enum Early {
    /// The call of the source with it fails.
    Fails,
    /// The stream is cancelled after so many reads.
    Cancels,
    /// Nothing.
    Never,
}

/// What a number does; the first number, and the one behind the last; the number of bytes; and the
/// most bytes of a read of the owner and of one of the source.
type Case = (Early, u32, u32, usize, usize, usize);

/// Whatever call of the source fails; whenever the stream is cancelled; and sizes, small, odd and
/// large. A source with no bytes ends at once.
const CASES: [Case; 12] = [
    (Early::Fails, 1, 40, 600, 7, 20),
    (Early::Cancels, 0, 20, 600, 50, 70),
    (Early::Never, 0, 1, 0, 0, 1),
    (Early::Never, 0, 1, 1_000_000, 4096, 700),
    (Early::Never, 0, 1, 1_000_000, 1, 700),
    (Early::Never, 0, 1, 1_000_000, 1000, 99),
    (Early::Never, 0, 1, 1_000_000, 65536, 65536),
    (Early::Never, 0, 1, 20_000, 1, 1),
    (Early::Never, 0, 1, 20_000, 3, 2),
    (Early::Never, 0, 1, 20_000, 17, 5),
    (Early::Never, 0, 1, 20_000, 4095, 699),
    (Early::Never, 0, 1, 100_000, 4096, 1),
];

/// How a stream is to end, what its last read but one answers, and whether as many bytes came as the
/// source gave: before the call that failed, some before a cancel, all where nothing ends it early.
fn wanted(
    early: Early,
    number: u32,
    finished: &Finished<MemorySource>,
    drained: &Drained,
    len: usize,
    most: usize,
) -> (Result<(), Ended>, StreamError, bool) {
    let source = &finished.inner;
    let given = len.saturating_sub(source.left().len());
    let all = drained.bytes.len() == given;
    if early == Early::Fails && source.faults() > 0 {
        let before = (number as usize).saturating_sub(1).saturating_mul(most);
        let told = StreamError::LastOperationFailed(ErrorCode::Other);
        return (Err(Ended::Fault), told, all && given == before);
    }
    if early == Early::Cancels {
        let some = drained.bytes.len() <= given;
        let outcome = if source.has_ended() {
            Ok(())
        } else {
            Err(Ended::Cancelled)
        };
        return (outcome, StreamError::Closed, some);
    }
    let whole = all && given == len && source.has_ended();
    (Ok(()), StreamError::Closed, whole)
}

/// Reads give a front of what the source gave, a fault once, and then `Closed`.
#[test]
fn reads_give_a_front_in_order(rt: HostRuntime) -> Result<(), Fail> {
    let mut spawner = ThreadSpawner::new();
    for (early, first, end, len, piece, most) in CASES {
        let bytes = pattern(rt.alloc(), len)?;
        for number in first..end {
            let mut fails = Vec::new(rt.alloc());
            let mut cancel_after = None;
            match early {
                Early::Fails => fails.push(number)?,
                Early::Cancels => cancel_after = Some(number as usize),
                Early::Never => {}
            }
            let how = Use {
                piece,
                cancel_after,
            };
            let source = MemorySource::new(pattern(rt.alloc(), len)?, most.max(1), fails);
            let Ok((finished, drained)) = drain(&rt, rt.alloc(), &mut spawner, source, how) else {
                return Err(Fail::new("no worker"));
            };
            let front = bytes.as_slice().starts_with(drained.bytes.as_slice());
            let (outcome, error, whole) = wanted(early, number, &finished, &drained, len, most);
            let case = (early, number, len, piece);
            let empty_or_long = (drained.was_empty, drained.was_long);
            let came = (finished.outcome, front, whole, empty_or_long);
            same(
                &rt,
                (case, came),
                (case, (outcome, true, true, (false, false))),
            );
            let told = (drained.error, drained.again);
            let closed = (Some(error), Some(StreamError::Closed));
            same(&rt, (case, told), (case, closed));
        }
    }
    Ok(())
}

#[test]
fn a_refused_start_hands_the_source_back(rt: HostRuntime) -> Result<(), Fail> {
    let bytes = pattern(rt.alloc(), 10)?;
    let how = Use {
        piece: 8,
        cancel_after: None,
    };
    let mut spawner = FakeSpawner::new(vec![in rt.alloc(); 1u32]?);
    let source = MemorySource::new(pattern(rt.alloc(), 10)?, 7, Vec::new(rt.alloc()));
    let Err(StartError::NoWorker(source)) = drain(&rt, rt.alloc(), &mut spawner, source, how) else {
        return Err(Fail::new("it started"));
    };
    same(&rt, source.left().len(), 10);
    same(&rt, (spawner.starts(), spawner.refusals()), (0, 1));
    let Ok((finished, drained)) = drain(&rt, rt.alloc(), &mut spawner, source, how) else {
        return Err(Fail::new("the second start was refused"));
    };
    same(&rt, drained.bytes == bytes, true);
    same(&rt, (finished.outcome, spawner.starts()), (Ok(()), 1));
    Ok(())
}
