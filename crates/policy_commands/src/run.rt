//! Runs a script under rules.

ghost use Rattle.std.specs.Prelude.{◌≡◌, ◌<◌, ◌^◌, Some, [], false, length};
ghost use Rattle.wasi_world.specs.Contexts.{AreNumbered};
ghost use Rattle.world_scripted.specs.Scripted.{seen_by};
ghost use Rattle.wasi_world.specs.Seen.{Plan};
ghost use Rattle.policy_commands.specs.Run.{RanUnder, PlanEnds};
ghost use Rattle.policy_commands.specs.Ends.{AsksEnd, CommandEnds, FindingsEnd, TextEnds};

use crate::status::{Command, PolicyStatus, bad_line_of_ask};
use policy_asks::{Form, ask, check};
use std::alloc::Global;
use std::marker::Brand;
use wasi_policy::{Denied, Policy, PolicyWorld, Rules};
use wasi_program::Status;
use wasi_program::scenario::{Scenario, Unread, parse_scenario, read_scenario};
use wasi_program::status::bad_line;
use wasi_run::{RunEnd, RunError, run_script};
use wasi_world::{Entry, WasiSocketsCtx};
use world_io::{Sink, Source};
use world_scripted::ScriptedWorld;

/// How a command ended, before the source and the sink are given back.
#[derive(Drop)]
pub struct Ended {
    pub status: PolicyStatus,
    pub line: u32,
    pub denied: Vec<Denied>,
    pub inner: Vec<Entry>,
}

impl Ended {
    /// Nothing was asked of a world.
    pub fn without_run(alloc: Global, status: PolicyStatus, line: u32) -> Ended
        ensures status { result.status ≡ status }
        ensures line { result.line ≡ line }
        ensures denied { result.denied.items ≡ [] }
        ensures inner { result.inner.items ≡ [] }
    {
        Ended {
            status,
            line,
            denied: Vec::new(alloc),
            inner: Vec::new(alloc),
        }
    }
}

/// What a run under rules gives back.
#[derive(Drop)]
struct Ran {
    outcome: Result<RunEnd, RunError>,
    denied: Vec<Denied>,
    inner: Vec<Entry>,
}

/// Runs the script under the rules, over a world that goes by a plan.
fn run_under<R: Rules, S: Source, K: Sink>(
    alloc: Global,
    policy: Policy,
    world: ScriptedWorld,
    contexts: &mut Vec<WasiSocketsCtx>,
    limit: u32,
    source: &mut S,
    sink: &mut K,
) -> Ran
    requires rules { policy ≡ R.rules }
    requires plan { (seen_by world).plan ≡ R.plan }
    requires log { (seen_by world).log ≡ Some [] }
    requires open { (seen_by world).ended ≡ false }
    requires closings { (seen_by world).closings ≡ 0 }
    requires faults { (seen_by world).faults ≡ 0 }
    requires numbered { AreNumbered contexts.old.items }
    requires few { length contexts.old.items < 2 ^ 32 }
    ensures { (plan : Plan) → R.plan ≡ Some plan
        → RanUnder R.rules plan contexts.old.items limit (S.reading source.old)
        (S.reading source.new) (K.writing sink.old) (K.writing sink.new) result.denied.items
        result.inner.items result.outcome }
{
    let mut world: PolicyWorld<ScriptedWorld, R> = PolicyWorld::new(alloc, policy, world);
    let outcome = run_script(alloc, &mut world, contexts, limit, source, sink);
    let (denied, inner) = world.into_parts();
    Ran {
        outcome,
        denied,
        inner: inner.into_entries(),
    }
}

/// Runs the script under the rules, over the plan of a scenario.
fn run_plan<S: Source, K: Sink>(
    alloc: Global,
    policy: Policy,
    world: ScriptedWorld,
    mut contexts: Vec<WasiSocketsCtx>,
    limit: u32,
    source: &mut S,
    sink: &mut K,
) -> Ended
    requires log { (seen_by world).log ≡ Some [] }
    requires open { (seen_by world).ended ≡ false }
    requires closings { (seen_by world).closings ≡ 0 }
    requires faults { (seen_by world).faults ≡ 0 }
    requires numbered { AreNumbered contexts.items }
    requires few { length contexts.items < 2 ^ 32 }
    ensures { PlanEnds policy (seen_by world).plan contexts.items limit (S.reading source.old)
        (S.reading source.new) (K.writing sink.old) (K.writing sink.new) result.denied.items
        result.inner.items result.line result.status }
{
    let ran = run_under::<Brand, S, K>(alloc, policy, world, &mut contexts, limit, source, sink);
    Ended {
        status: PolicyStatus::Of(Status::of_run(ran.outcome)),
        line: bad_line(ran.outcome),
        denied: ran.denied,
        inner: ran.inner,
    }
}

/// Runs the script under the rules, over the scenario that the text spells.
fn run_text<S: Source, K: Sink>(
    alloc: Global,
    policy: Policy,
    limit: u32,
    text: &[u8],
    source: &mut S,
    sink: &mut K,
) -> Ended
    ensures { TextEnds policy limit text.now (S.reading source.old) (S.reading source.new)
        (K.writing sink.old) (K.writing sink.new) result.denied.items result.inner.items result.line
        result.status }
{
    let Ok(scenario) = parse_scenario(alloc, text) else {
        return Ended::without_run(alloc, PolicyStatus::Of(Status::Memory), 0);
    };
    match scenario {
        Scenario::Planned(world, contexts) => {
            return run_plan(alloc, policy, world, contexts, limit, source, sink);
        }
        Scenario::BadLine(line) => {
            return Ended::without_run(alloc, PolicyStatus::Of(Status::BadScenario), line);
        }
    }
}

/// Reads the scenario, and runs the script under the rules over it.
pub fn run_scenario<C: Source, S: Source, K: Sink>(
    alloc: Global,
    policy: Policy,
    limit: u32,
    scenario: &mut C,
    source: &mut S,
    sink: &mut K,
) -> Ended
    ensures { CommandEnds policy (Command.Run limit) (C.reading scenario.old)
        (C.reading scenario.new) (S.reading source.old) (S.reading source.new) (K.writing sink.old)
        (K.writing sink.new) result.denied.items result.inner.items result.line result.status }
{
    let text = match read_scenario(alloc, scenario) {
        Ok(text) => text,
        Err(Unread::Fault) => {
            return Ended::without_run(alloc, PolicyStatus::Of(Status::ScenarioFault), 0);
        }
        Err(Unread::Memory(_)) => {
            return Ended::without_run(alloc, PolicyStatus::Of(Status::Memory), 0);
        }
    };
    run_text(alloc, policy, limit, text.as_slice(), source, sink)
}

/// Answers the questions by the rules.
pub fn answer_questions<S: Source, K: Sink>(
    alloc: Global,
    policy: &Policy,
    form: Form,
    limit: u32,
    source: &mut S,
    sink: &mut K,
) -> Ended
    ensures { AsksEnd policy.now form limit (S.reading source.old) (S.reading source.new)
        (K.writing sink.old) (K.writing sink.new) result.denied.items result.inner.items result.line
        result.status }
{
    let outcome = ask(alloc, policy, form, limit, source, sink);
    Ended::without_run(
        alloc,
        PolicyStatus::of_ask(outcome),
        bad_line_of_ask(outcome),
    )
}

/// Writes what is odd about the rules.
pub fn write_findings<K: Sink>(alloc: Global, policy: &Policy, sink: &mut K) -> Ended
    ensures { FindingsEnd policy.now (K.writing sink.old) (K.writing sink.new) result.denied.items
        result.inner.items result.line result.status }
{
    let outcome = check(alloc, policy, sink);
    Ended::without_run(alloc, PolicyStatus::of_ask(outcome), 0)
}
