//! Cases that are run once as they are, and then at each of some numbers.
//!
//! `try STREAM N M`: with the call of the stream with each number from N to M failing. `try network
//! N M`: with the call of the network with that number, of those that a code may answer, answered by
//! a reset. `try front N M`: with so many bytes of the input alone. Printed is what came of the case
//! as it is; and then the first number at which something else came of it than at the one before:
//! how it ended, how many bytes stood there as without the fault, and what else.

use crate::scripts::{push_end, push_written, run_case};
use row_cases::{Case, Stream, Tried, Tries};
use std::alloc::{AllocError, Global};
use std::fmt::Write;
use std::sync::Wait;
use std::thread::Threads;
use wasi_addr::ErrorCode;
use wasi_transcript::run_with_fault;

/// How a try ended, and what was written.
#[derive(Drop)]
struct Came {
    end: String,
    wrote: Vec<u8>,
}

/// How many bytes of two texts are the same, from their front.
fn common(one: &[u8], other: &[u8]) -> usize {
    one.iter()
        .zip(other.iter())
        .take_while(|(a, b)| a == b)
        .count()
}

/// Runs the script over a network of which a call is answered by a code.
fn over_network(alloc: Global, case: &Case, nth: u32) -> Result<Came, AllocError> {
    let (scenario, script) = (case.text(Stream::Scenario), case.text(Stream::Input));
    let code = ErrorCode::ConnectionReset;
    let mut end = String::new(alloc);
    let Ok(run) = run_with_fault(alloc, scenario, u32::MAX, script, nth, code) else {
        end.push_str("a scenario that is none")?;
        let wrote = Vec::new(alloc);
        return Ok(Came { end, wrote });
    };
    end.push_str(if run.is_whole() {
        "whole"
    } else {
        "broken off"
    })?;
    Ok(Came {
        end,
        wrote: run.replies,
    })
}

/// Runs the case with what stands in it, and takes back the calls that fail.
fn over_streams<R: Threads + Wait + Copy + Send + 'static>(
    rt: &R,
    alloc: Global,
    case: &mut Case,
) -> Result<Came, AllocError> {
    let done = run_case(rt, alloc, case)?;
    case.fails.clear();
    let mut end = String::new(alloc);
    push_end(&mut end, done.status, done.line)?;
    let wrote = done.sink.bytes().to_vec(alloc)?;
    Ok(Came { end, wrote })
}

/// Runs the case so; as it is where the number is none.
fn attempt<R: Threads + Wait + Copy + Send + 'static>(
    rt: &R,
    alloc: Global,
    case: &mut Case,
    what: Tried,
    number: Option<u32>,
) -> Result<Came, AllocError> {
    match (what, number) {
        (Tried::Network, _) => return over_network(alloc, case, number.unwrap_or(0)),
        (Tried::Front, Some(number)) => case.front = number as usize,
        (Tried::Fails(stream), Some(number)) => case.fails.push((stream, number))?,
        _ => {}
    }
    over_streams(rt, alloc, case)
}

/// Makes the text of how a try ended otherwise than the case as it is.
fn push_came(now: &mut String, plain: &Came, came: &Came) -> Result<(), AllocError> {
    let same = common(plain.wrote.as_slice(), came.wrote.as_slice());
    write!(now, "{}, {same} bytes\n", came.end)?;
    push_written(now, came.wrote.get(same..).unwrap_or(&[]))
}

/// Adds what came of a case as it is, and at each number.
pub fn report<R: Threads + Wait + Copy + Send + 'static>(
    rt: &R,
    text: &mut String,
    alloc: Global,
    case: &mut Case,
    tries: Tries,
) -> Result<(), AllocError> {
    let plain = attempt(rt, alloc, case, tries.what, None)?;
    push_written(text, plain.wrote.as_slice())?;
    write!(text, "{}\n", plain.end)?;
    let mut before = String::new(alloc);
    for number in tries.first..=tries.last {
        let came = attempt(rt, alloc, case, tries.what, Some(number))?;
        let mut now = String::new(alloc);
        push_came(&mut now, &plain, &came)?;
        if now != before {
            write!(text, "at {number}: {now}")?;
            before = now;
        }
    }
    Ok(())
}
