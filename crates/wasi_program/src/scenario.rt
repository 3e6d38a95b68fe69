//! Reads a scenario from a source, and its grammar.

ghost use Rattle.std.specs.Prelude.{◌≡◌, IfOk};
ghost use Rattle.wasi_world.specs.Seen.{Rose};
ghost use Rattle.wasi_program.specs.Scenario.{ReadScenario, IsParsed};

pub use crate::reading::Unread;
use crate::reading::read_within;
use std::alloc::{AllocError, Global};
use wasi_world::WasiSocketsCtx;
use world_io::Source;
use world_scripted::{ScenarioError, ScriptedWorld};

/// A scenario has at most so many bytes.
const MOST_SCENARIO: usize = 1_048_576;

/// Reads a scenario to its end, or to one byte past the 1,048,576 that it may have. Takes memory
/// for its bytes.
pub fn read_scenario<C: Source>(alloc: Global, scenario: &mut C) -> Result<Vec<u8>, Unread>
    ensures read { IfOk result (λ text. ReadScenario (C.reading scenario.old)
        (C.reading scenario.new) text.items) }
    ensures fault { result ≡ Err Unread.Fault
        → Rose (C.reading scenario.old).faults (C.reading scenario.new).faults }
{
    read_within(alloc, scenario, MOST_SCENARIO)
}

/// What a scenario plans and its contexts, or the first line that isn't in its grammar.
#[derive(Drop)]
pub enum Scenario {
    /// The network that it plans, and its contexts.
    Planned(ScriptedWorld, Vec<WasiSocketsCtx>),
    /// The number, counted from 1, of the first line that isn't in its grammar.
    BadLine(u32),
}

/// Reads the grammar of scenarios. Takes memory for what is planned.
pub fn parse_scenario(alloc: Global, text: &[u8]) -> Result<Scenario, AllocError>
    ensures { IfOk result (λ scenario. IsParsed text.now scenario) }
{
    match ScriptedWorld::parse(alloc, text) {
        Ok((world, contexts)) => Ok(Scenario::Planned(world, contexts)),
        Err(ScenarioError::BadScenario(line)) => Ok(Scenario::BadLine(line)),
        Err(ScenarioError::Memory(e)) => Err(e),
    }
}
