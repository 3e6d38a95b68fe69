//! Pumps that end early, and pumps that move all bytes.

use crate::same::{pattern, same};
use crate::threads::pumps;
use std::test::*;
use wasi_pump::PumpError;
use world_io::{MemorySink, MemorySource};

const BUDGETS: &[usize] = &[1, 7, 1000];

/// How many bytes the source has, how many a read of it gives at most, and how many a write of the
/// sink takes at most; the call of the source and the call of the sink that fail, counted from 1,
/// where 0 is none; the sink's room; the budgets; and how the pump ends.
type Case = (
    usize,
    usize,
    usize,
    u32,
    u32,
    usize,
    &'static [usize],
    Result<u64, PumpError>,
);

const CASES: [Case; 8] = [
    (600, 20, 30, 0, 0, 600, BUDGETS, Ok(600)),
    (600, 20, 30, 1, 0, 600, BUDGETS, Err(PumpError::SourceFault)),
    (
        600,
        20,
        30,
        17,
        0,
        600,
        BUDGETS,
        Err(PumpError::SourceFault),
    ),
    (
        600,
        20,
        30,
        31,
        0,
        600,
        BUDGETS,
        Err(PumpError::SourceFault),
    ),
    (600, 20, 30, 0, 1, 600, BUDGETS, Err(PumpError::SinkFault)),
    (600, 20, 30, 0, 9, 600, BUDGETS, Err(PumpError::SinkFault)),
    (600, 20, 30, 0, 0, 599, BUDGETS, Err(PumpError::SinkFault)),
    (
        1_000_000,
        70_000,
        50_000,
        0,
        0,
        1_000_000,
        &[65_536],
        Ok(1_000_000),
    ),
];

#[test]
fn a_pump_moves_all_bytes_or_ends_by_its_faults(rt: HostRuntime) -> Result<(), Fail> {
    let alloc = rt.alloc();
    for (len, given, taken, source_fails, sink_fails, room, budgets, outcome) in CASES {
        let bytes = pattern(alloc, len)?;
        for budget in budgets {
            let source = MemorySource::new(
                pattern(alloc, len)?,
                given.max(1),
                vec![in alloc; source_fails]?,
            );
            let sink = MemorySink::new(alloc, taken.max(1), room, vec![in alloc; sink_fails]?)?;
            let (pumped, _, _) = pumps(&rt, alloc, source, sink, *budget);
            same(&rt, (*budget, pumped.outcome), (*budget, outcome));
            let front = bytes.as_slice().starts_with(pumped.sink.bytes());
            let whole = pumped.sink.bytes().len() == len && pumped.sink.is_flushed();
            same(
                &rt,
                (*budget, front, whole || outcome.is_err()),
                (*budget, true, true),
            );
        }
    }
    Ok(())
}
