//! `faults LIMIT`: a script, run again for each call of its network that may fail.

use crate::fault_report::{Tally, run_text};
use crate::faults::{FaultRun, NotRun, run_with_fault};
use crate::program::End;
use std::alloc::{AllocError, Global};
use wasi_addr::ErrorCode;
use wasi_program::Status;
use wasi_program::scenario::{Unread, read_scenario};
use wasi_program::status::bad_line;
use wasi_run::RunError;
use world_io::{Sink, Source, write_all};

/// The code of each fault.
const CODE: ErrorCode = ErrorCode::ConnectionReset;

/// How many bytes are read at a time.
const PIECE_SIZE: usize = 4096;

/// Reads a script to its end, or to one byte past its limit. Takes memory for its bytes.
fn read_script<S: Source>(alloc: Global, source: &mut S, limit: u32) -> Result<Vec<u8>, Unread> {
    let most = limit as usize + 1;
    let mut script = Vec::new(alloc);
    let mut piece = [0u8; PIECE_SIZE];
    'reading: while script.len() < most {
        let room = (most - script.len()).min(PIECE_SIZE);
        let Ok(count) = source.read(&mut piece[..room]) else {
            return Err(Unread::Fault);
        };
        if count == 0 {
            return Ok(script);
        }
        let Ok(()) = script.extend_from_slice(&piece[..count]) else {
            return Err(Unread::Memory(AllocError));
        };
    }
    Ok(script)
}

/// Writes a text whole.
fn put<K: Sink>(sink: &mut K, text: &[u8]) -> Result<(), End> {
    match write_all(sink, text) {
        Ok(()) => Ok(()),
        Err(_) => Err(End::Run(Status::WriteFault, 0)),
    }
}

/// Runs the script, with a fault at its `nth` call that may fail. Out of memory for the replies
/// too.
fn run(
    alloc: Global,
    scenario: &[u8],
    limit: u32,
    script: &[u8],
    nth: u32,
) -> Result<FaultRun, End> {
    let run = match run_with_fault(alloc, scenario, limit, script, nth, CODE) {
        Ok(run) => run,
        Err(NotRun::BadScenario(line)) => return Err(End::Run(Status::BadScenario, line)),
        Err(NotRun::Memory) => return Err(End::Run(Status::Memory, 0)),
    };
    match run.outcome {
        Err(RunError::Memory | RunError::WriteFault) => Err(End::Run(Status::Memory, 0)),
        _ => Ok(run),
    }
}

/// Runs the script once to count the calls that may fail, and then once for each, with a fault at
/// it. Prints what came of each run, and counts.
fn survey<K: Sink>(
    alloc: Global,
    scenario: &[u8],
    limit: u32,
    script: &[u8],
    sink: &mut K,
) -> Result<Tally, End> {
    let plain = run(alloc, scenario, limit, script, 0)?;
    if plain.outcome.is_err() {
        let status = Status::of_run(plain.outcome);
        return Err(End::Run(status, bad_line(plain.outcome)));
    }
    let mut tally = Tally::new();
    for nth in 1..=plain.count_fitting(CODE) {
        let run = run(alloc, scenario, limit, script, nth)?;
        let Ok((came, text)) = run_text(alloc, &plain, &run, nth, CODE) else {
            return Err(End::Run(Status::Memory, 0));
        };
        put(sink, text.as_slice())?;
        tally.count(came);
    }
    let Ok(text) = tally.summary(alloc) else {
        return Err(End::Run(Status::Memory, 0));
    };
    put(sink, text.as_str().as_bytes())?;
    Ok(tally)
}

/// Reads the scenario and the script, of at most `limit` bytes, and runs the script once for each
/// call of its network that may fail, with a fault at that call. Prints for each run the call, the
/// first reply that isn't that of the run without a fault, and the line that it answers; and at
/// last how many runs came to what.
///
/// - It ends with another status than 0 where a fault made a step trap, where a run broke off, or
///   where one left a network socket open.
/// - A script that isn't done to its end without a fault ends it as `show` does.
/// - Takes memory for the script, and for one run and the plain one at a time.
pub fn faults<C: Source, S: Source, K: Sink>(
    alloc: Global,
    limit: u32,
    scenario: &mut C,
    source: &mut S,
    sink: &mut K,
) -> End {
    let scenario = match read_scenario(alloc, scenario) {
        Ok(text) => text,
        Err(Unread::Fault) => return End::Run(Status::ScenarioFault, 0),
        Err(Unread::Memory(_)) => return End::Run(Status::Memory, 0),
    };
    let script = match read_script(alloc, source, limit) {
        Ok(text) => text,
        Err(Unread::Fault) => return End::Run(Status::ReadFault, 0),
        Err(Unread::Memory(_)) => return End::Run(Status::Memory, 0),
    };
    match survey(alloc, scenario.as_slice(), limit, script.as_slice(), sink) {
        Ok(tally) => tally.end(),
        Err(end) => end,
    }
}
