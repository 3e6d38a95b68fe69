//! Runs the cases of a file of transcripts again, and compares.

ghost use Rattle.std.specs.Prelude.{◌≡◌, ◌↔◌, IsTrue, IfOk};
ghost use Rattle.wasi_transcript.specs.CaseHolds.{IsWhole, CameOf, CameAs, ChecksText};

use crate::cases::{Case, TextLines, read_case};
use crate::show::show_script;
use std::alloc::{AllocError, Global};
use wasi_program::scenario::{Scenario, parse_scenario};
use wasi_run::{RunEnd, RunError};
use world_io::{GrowingSink, MemorySource};

/// How many bytes of a script are read at a time.
const PIECE_SIZE: usize = 4096;

/// What comes of a case.
#[derive(Drop)]
pub enum Came {
    /// This transcript.
    Shown(Vec<u8>),
    /// This line of the scenario, counted from 1, isn't in its grammar.
    BadScenario(u32),
}

/// Whether neither memory ran out nor a write failed.
fn is_whole(outcome: Result<RunEnd, RunError>) -> bool
    ensures { IsTrue result ↔ IsWhole outcome }
{
    !matches!(outcome, Err(RunError::Memory | RunError::WriteFault))
}

fn copy_of(alloc: Global, bytes: &[u8]) -> Result<Vec<u8>, AllocError>
    ensures { IfOk result (λ copy. copy.items ≡ bytes.now) }
{
    let mut copy = Vec::new(alloc);
    copy.extend_from_slice(bytes)?;
    Ok(copy)
}

/// Runs a script in a scenario's contexts over the network that it plans, and returns its
/// transcript. The script may have 4,294,967,295 bytes. Takes memory for the script and its
/// transcript, beside what the run takes.
pub fn run_case(alloc: Global, scenario: &[u8], script: &[u8]) -> Result<Came, AllocError>
    ensures { IfOk result (λ came. CameOf scenario.now script.now came) }
{
    let (mut world, contexts) = match parse_scenario(alloc, scenario)? {
        Scenario::Planned(world, contexts) => (world, contexts),
        Scenario::BadLine(line) => return Ok(Came::BadScenario(line)),
    };
    let script = copy_of(alloc, script)?;
    let mut source = MemorySource::new(script, PIECE_SIZE, Vec::new(alloc));
    let mut sink = GrowingSink::new(alloc);
    let shown = show_script(
        alloc,
        &mut world,
        contexts.as_slice(),
        u32::MAX,
        &mut source,
        &mut sink,
    );
    if is_whole(shown) {
        return Ok(Came::Shown(sink.into_bytes()));
    }
    Err(AllocError)
}

impl Came {
    /// Whether this is the transcript that is wanted.
    pub fn is(&self, wanted: &[u8]) -> bool
        ensures { IsTrue result ↔ CameAs wanted.now self.now }
    {
        match self {
            Came::Shown(text) => text.as_slice() == wanted,
            Came::BadScenario(_) => false,
        }
    }
}

/// A case that doesn't hold: the number of its first line, counted from 1, and what it came to.
#[derive(Drop)]
pub struct Failed<'a> {
    pub line: u32,
    pub case: Case<'a>,
    pub came: Came,
}

/// What the check of a file of transcripts found.
#[derive(Drop)]
pub enum Checked<'a> {
    /// All its cases hold; their number, up to the greatest `u32`.
    Holds(u32),
    /// The first case that doesn't hold.
    Fails(Failed<'a>),
    /// The text from this line on isn't a list of cases.
    NotCases(u32),
}

/// Runs the cases of a file in order, up to the first that doesn't hold. A case holds exactly where
/// `show_script` prints its transcript for its script and its scenario. Takes memory for one case
/// at a time.
pub fn check_text(alloc: Global, text: &[u8]) -> Result<Checked<'_>, AllocError>
    ensures { IfOk result (λ checked. ChecksText text.now checked) }
{
    let mut lines = TextLines::of(text);
    let mut count = 0u32;
    'cases: while !lines.is_done() {
        let line = lines.number();
        let Some(case) = read_case(alloc, &mut lines)? else {
            return Ok(Checked::NotCases(line));
        };
        let came = run_case(alloc, case.scenario.as_slice(), case.script.as_slice())?;
        if !came.is(case.wanted.as_slice()) {
            return Ok(Checked::Fails(Failed { line, case, came }));
        }
        count = count.saturating_add(1);
    }
    Ok(Checked::Holds(count))
}
