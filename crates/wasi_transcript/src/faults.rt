//! A script run again for each call of its network that may fail, with a fault at that call.

ghost use Rattle.std.specs.Prelude.{IfErr};
ghost use Rattle.wasi_transcript.specs.Faults.{BadLineIn};

use std::alloc::Global;
use wasi_addr::ErrorCode;
use wasi_program::scenario::{Scenario, parse_scenario};
use wasi_run::{RunEnd, RunError, run_script};
use wasi_world::{Call, Entry, Told};
use world_io::{GrowingSink, MemorySource};
use world_scripted::code_fits;

/// How many bytes of a script are read at a time.
const PIECE_SIZE: usize = 4096;

/// What a run came to, over a network of which one call may have been answered by a code.
#[derive(Drop)]
pub struct FaultRun {
    /// How it ended.
    pub outcome: Result<RunEnd, RunError>,
    /// Its replies, a line each.
    pub replies: Vec<u8>,
    /// The calls that it made.
    pub log: Vec<Entry>,
    /// How many network sockets were closed after the end mark.
    pub closings: u64,
}

/// Why a script wasn't run.
#[derive(Clone, Copy, Debug, PartialEq, Eq)]
pub enum NotRun {
    /// This line of the scenario, counted from 1, isn't in its grammar.
    BadScenario(u32),
    /// Memory ran out.
    Memory,
}

/// Runs a script of at most `limit` bytes over the network that a scenario plans, of which the
/// `nth` call that the code fits, counted from 1, is answered by the code; with 0 none is. Takes
/// memory for the script, its replies and its log.
pub fn run_with_fault(
    alloc: Global,
    scenario: &[u8],
    limit: u32,
    script: &[u8],
    nth: u32,
    code: ErrorCode,
) -> Result<FaultRun, NotRun>
    ensures { IfErr result (λ e. BadLineIn scenario.now e) }
{
    let Ok(parsed) = parse_scenario(alloc, scenario) else {
        return Err(NotRun::Memory);
    };
    let (mut world, mut contexts) = match parsed {
        Scenario::Planned(world, contexts) => (world, contexts),
        Scenario::BadLine(line) => return Err(NotRun::BadScenario(line)),
    };
    let mut text = Vec::new(alloc);
    let Ok(()) = text.extend_from_slice(script) else {
        return Err(NotRun::Memory);
    };
    world.arm(nth, code);
    let mut source = MemorySource::new(text, PIECE_SIZE, Vec::new(alloc));
    let mut sink = GrowingSink::new(alloc);
    let outcome = run_script(
        alloc,
        &mut world,
        &mut contexts,
        limit,
        &mut source,
        &mut sink,
    );
    Ok(FaultRun {
        outcome,
        replies: sink.into_bytes(),
        closings: world.closed_after_end(),
        log: world.into_entries(),
    })
}

/// How many network sockets the calls made, less those that they closed; `None` where more were
/// closed than made.
fn count_open(log: &[Entry]) -> Option<u64> {
    let mut open = 0u64;
    for entry in log {
        match (&entry.call, &entry.answer) {
            (Call::TcpCreate { .. } | Call::UdpCreate { .. } | Call::Hand { .. }, Told::Done) =>
                open = open.checked_add(1)?,
            (Call::Close { .. }, _) => open = open.checked_sub(1)?,
            _ => {}
        }
    }
    Some(open)
}

impl FaultRun {
    /// Whether it was done to its end, and closed each network socket that it made.
    pub fn is_whole(&self) -> bool {
        self.outcome.is_ok() && count_open(self.log.as_slice()) == Some(self.closings)
    }

    /// How many of its calls the code fits, up to the greatest `u32`.
    pub fn count_fitting(&self, code: ErrorCode) -> u32 {
        let mut count = 0u32;
        for entry in &self.log {
            if code_fits(&entry.call, code) {
                count = count.saturating_add(1);
            }
        }
        count
    }

    /// The `nth` of its calls that the code fits, counted from 1.
    pub fn fitting(&self, nth: u32, code: ErrorCode) -> Option<&Entry> {
        let mut left = nth;
        for entry in &self.log {
            if code_fits(&entry.call, code) {
                left = left.saturating_sub(1);
                if left == 0 {
                    return Some(entry);
                }
            }
        }
        None
    }
}
