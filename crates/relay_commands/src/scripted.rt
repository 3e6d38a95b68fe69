//! A relay over the network that a scenario plans.

ghost use Rattle.std.specs.Prelude.{◌≡◌, ℕ, List, Err, false, []};
ghost use Rattle.world_scripted.specs.Scripted.{seen_by};
ghost use Rattle.wasi_program.specs.Scenario.{IsPlanned};
ghost use Rattle.relay_commands.specs.Ends.{WritesPairs, RelayedPlan, OrderEnds, TextEnds};

use crate::pair_lines::pair_lines;
use crate::status::{RelayStatus, Unwritten, status_after};
use std::alloc::Global;
use wasi_program::Status;
use wasi_program::scenario::{Scenario, Unread, parse_scenario, read_scenario};
use wasi_relay::{NoWait, Order, Pair, RelayEnd, Relayed, relay};
use wasi_session::StepError;
use wasi_world::{Entry, WasiSocketsCtx};
use world_io::{Sink, Source, write_all};
use world_scripted::ScriptedWorld;

/// How a relay ended, before the sink is given back.
#[derive(Drop)]
pub struct Ended {
    pub status: RelayStatus,
    pub line: u32,
    pub log: Vec<Entry>,
}

impl Ended {
    /// No relay began.
    pub fn without_relay(alloc: Global, status: Status, line: u32) -> Ended
        ensures status { result.status ≡ RelayStatus.Of status }
        ensures line { result.line ≡ line }
        ensures log { result.log.items ≡ [] }
    {
        Ended {
            status: RelayStatus::Of(status),
            line,
            log: Vec::new(alloc),
        }
    }
}

/// Writes the lines of pairs. Takes memory for them.
fn write_lines<K: Sink>(alloc: Global, pairs: &[Pair], sink: &mut K) -> Result<(), Unwritten>
    ensures { WritesPairs pairs.now (K.writing sink.old) (K.writing sink.new) result }
{
    let Ok(text) = pair_lines(alloc, pairs) else {
        return Err(Unwritten::Memory);
    };
    match write_all(sink, text.as_str().as_bytes()) {
        Ok(()) => Ok(()),
        Err(_) => Err(Unwritten::Fault),
    }
}

/// Writes the lines of a relay's pairs, unless memory ran out in it.
pub fn write_pairs<K: Sink>(
    alloc: Global,
    end: Result<RelayEnd, StepError>,
    pairs: &[Pair],
    sink: &mut K,
) -> Result<(), Unwritten>
    ensures wrote { WritesPairs pairs.now (K.writing sink.old) (K.writing sink.new) result }
    ensures no_memory { end ≡ Err StepError.Memory → result ≡ Err Unwritten.Memory }
{
    match end {
        Err(StepError::Memory) => Err(Unwritten::Memory),
        _ => write_lines(alloc, pairs, sink),
    }
}

/// Relays over a world that goes by a scenario's plan.
fn relay_plan<K: Sink>(
    alloc: Global,
    world: ScriptedWorld,
    contexts: Vec<WasiSocketsCtx>,
    order: Order,
    sink: &mut K,
) -> Ended
    requires open { (seen_by world).ended ≡ false }
    ensures relayed { (text : List ℕ) → IsPlanned text world contexts.items
        → RelayedPlan order text contexts.items (K.writing sink.old) (K.writing sink.new)
        result.log.items result.status }
    ensures line { result.line ≡ 0 }
{
    let done = relay(alloc, world, contexts, order, &mut NoWait);
    let Relayed { end, pairs, world } = done;
    let written = write_pairs(alloc, end, pairs.as_slice(), sink);
    Ended {
        status: status_after(end, written),
        line: 0,
        log: world.into_entries(),
    }
}

/// Relays over the scenario that the text spells.
fn relay_text<K: Sink>(alloc: Global, text: &[u8], order: Order, sink: &mut K) -> Ended
    ensures { TextEnds order text.now (K.writing sink.old) (K.writing sink.new) result.log.items
        result.line result.status }
{
    let Ok(scenario) = parse_scenario(alloc, text) else {
        return Ended::without_relay(alloc, Status::Memory, 0);
    };
    match scenario {
        Scenario::Planned(world, contexts) => relay_plan(alloc, world, contexts, order, sink),
        Scenario::BadLine(line) => Ended::without_relay(alloc, Status::BadScenario, line),
    }
}

/// Reads the scenario, and relays over it.
pub fn relay_scenario<C: Source, K: Sink>(
    alloc: Global,
    order: Order,
    scenario: &mut C,
    sink: &mut K,
) -> Ended
    ensures { OrderEnds order (C.reading scenario.old) (C.reading scenario.new)
        (K.writing sink.old) (K.writing sink.new) result.log.items result.line result.status }
{
    let text = match read_scenario(alloc, scenario) {
        Ok(text) => text,
        Err(Unread::Fault) => return Ended::without_relay(alloc, Status::ScenarioFault, 0),
        Err(Unread::Memory(_)) => return Ended::without_relay(alloc, Status::Memory, 0),
    };
    relay_text(alloc, text.as_slice(), order, sink)
}
