//! Whole write streams: bytes in pieces of every size, sinks that fail or have too little room,
//! streams that are cancelled, and a start that is refused.

use crate::pour::{Use, pour};
use crate::same::{pattern, same};
use std::test::*;
use wasi_spawn::{FakeSpawner, StartError, ThreadSpawner};
use worker_shared::{Ended, Finished};
use world_io::MemorySink;

/// What a number does.
#[derive(Clone, Copy, Debug, PartialEq, Eq)]
enum Early {
    /// The call of the sink with it fails.
    Fails,
    /// The stream is cancelled after so many writes.
    Cancels,
    /// Nothing.
    Never,
}

/// What a number does; the first number, and the one behind the last; the budget; the most bytes of
/// a write of the owner and of one of the sink; the sink's room; and how many bytes there are.
type Case = (Early, u32, u32, usize, usize, usize, usize, usize);

/// Whatever call of the sink fails; whenever the stream is cancelled; a sink with too little room;
/// and sizes, small, odd and large: a million bytes, and fewer in pieces or writes of a few bytes.
/// The least budget is one byte.
const CASES: [Case; 12] = [
    (Early::Fails, 1, 40, 64, 50, 20, 600, 600),
    (Early::Cancels, 0, 14, 128, 50, 7, 600, 600),
    (Early::Never, 0, 1, 4096, 100, 30, 250, 600),
    (Early::Never, 0, 1, 4096, 1, 1, 20_000, 20_000),
    (Early::Never, 0, 1, 4096, 3, 700, 20_000, 20_000),
    (Early::Never, 0, 1, 4096, 17, 5, 20_000, 20_000),
    (Early::Never, 0, 1, 4096, 1000, 1, 20_000, 20_000),
    (Early::Never, 0, 1, 4096, 256, 256, 1_000_000, 1_000_000),
    (Early::Never, 0, 1, 4096, 4096, 97, 1_000_000, 1_000_000),
    (Early::Never, 0, 1, 4096, 4095, 699, 1_000_000, 1_000_000),
    (Early::Never, 0, 1, 4096, 4096, 700, 1_000_000, 1_000_000),
    (Early::Never, 0, 1, 1, 4096, 9, 300, 300),
];

/// How a stream is to end, by what its sink met and by how much of the bytes was accepted.
fn wanted(
    early: Early,
    finished: &Finished<MemorySink>,
    accepted: usize,
    room: usize,
    size: usize,
) -> (Result<(), Ended>, u64, bool) {
    let sink = &finished.inner;
    if room < size {
        return (Err(Ended::Fault), 1, sink.bytes().len() == room);
    }
    if early == Early::Fails && sink.faults() > 0 {
        return (Err(Ended::Fault), 0, true);
    }
    if early == Early::Cancels && accepted < size {
        return (Err(Ended::Cancelled), 0, true);
    }
    let whole = accepted == size && sink.bytes().len() == size && sink.is_flushed();
    (Ok(()), 0, whole)
}

/// The sink has a front of what was accepted, and all where nothing ends the stream early. One with
/// too little room takes nothing of a piece in the end.
#[test]
fn the_sink_gets_a_front_in_order(rt: HostRuntime) -> Result<(), Fail> {
    let mut spawner = ThreadSpawner::new();
    for (early, first, end, budget, piece, most, room, size) in CASES {
        let bytes = pattern(rt.alloc(), size)?;
        for number in first..end {
            let mut fails = Vec::new(rt.alloc());
            let mut cancel_after = None;
            match early {
                Early::Fails => fails.push(number)?,
                Early::Cancels => cancel_after = Some(number as usize),
                Early::Never => {}
            }
            let how = Use {
                budget,
                piece: piece.max(1),
                cancel_after,
            };
            let sink = MemorySink::new(rt.alloc(), most, room, fails)?;
            let Ok((finished, accepted)) = pour(
                &rt,
                rt.alloc(),
                &mut spawner,
                sink,
                bytes.as_slice(),
                how,
            ) else {
                return Err(Fail::new("no worker"));
            };
            let sink = &finished.inner;
            let front = bytes.as_slice().starts_with(sink.bytes());
            let within = sink.bytes().len() <= accepted;
            let (outcome, refused, whole) = wanted(early, &finished, accepted, room, size);
            let case = (early, number, budget, piece);
            let came = (finished.outcome, sink.refused(), front, within, whole);
            same(
                &rt,
                (case, came),
                (case, (outcome, refused, true, true, true)),
            );
        }
    }
    Ok(())
}

#[test]
fn a_refused_start_hands_the_sink_back(rt: HostRuntime) -> Result<(), Fail> {
    let bytes = pattern(rt.alloc(), 10)?;
    let how = Use {
        budget: 8,
        piece: 8,
        cancel_after: None,
    };
    let mut spawner = FakeSpawner::new(vec![in rt.alloc(); 1u32]?);
    let sink = MemorySink::new(rt.alloc(), 7, 10, Vec::new(rt.alloc()))?;
    let Err(StartError::NoWorker(sink)) = pour(
        &rt,
        rt.alloc(),
        &mut spawner,
        sink,
        bytes.as_slice(),
        how,
    ) else {
        return Err(Fail::new("it started"));
    };
    same(&rt, sink.bytes().len(), 0);
    same(&rt, (spawner.starts(), spawner.refusals()), (0, 1));
    let Ok((finished, _)) = pour(&rt, rt.alloc(), &mut spawner, sink, bytes.as_slice(), how) else {
        return Err(Fail::new("the second start was refused"));
    };
    same(&rt, finished.inner.bytes() == bytes.as_slice(), true);
    same(&rt, spawner.starts(), 1);
    Ok(())
}
