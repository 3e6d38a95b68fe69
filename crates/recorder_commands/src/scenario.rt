//! The scenario of a run.

ghost use Rattle.recorder_commands.specs.Record.{IsFoundSo};

use std::alloc::Global;
use wasi_program::Status;
use wasi_program::scenario::{Scenario, Unread, parse_scenario, read_scenario};
use wasi_world::WasiSocketsCtx;
use world_io::Source;
use world_scripted::ScriptedWorld;

/// What a scenario plans, or how a program ends without it.
#[derive(Drop)]
pub enum FoundScenario {
    /// The network that it plans, and its contexts.
    Planned(ScriptedWorld, Vec<WasiSocketsCtx>),
    /// With the number of the bad line, or 0.
    Stopped(Status, u32),
}

/// Reads a scenario to its end, and its grammar. Takes memory for its text and its plan.
pub fn find_scenario<C: Source>(alloc: Global, scenario: &mut C) -> FoundScenario
    ensures { IsFoundSo (C.reading scenario.old) (C.reading scenario.new) result }
{
    let text = match read_scenario(alloc, scenario) {
        Ok(text) => text,
        Err(Unread::Fault) => return FoundScenario::Stopped(Status::ScenarioFault, 0),
        Err(Unread::Memory(_)) => return FoundScenario::Stopped(Status::Memory, 0),
    };
    match parse_scenario(alloc, text.as_slice()) {
        Ok(Scenario::Planned(world, contexts)) => FoundScenario::Planned(world, contexts),
        Ok(Scenario::BadLine(line)) => FoundScenario::Stopped(Status::BadScenario, line),
        Err(_) => FoundScenario::Stopped(Status::Memory, 0),
    }
}
