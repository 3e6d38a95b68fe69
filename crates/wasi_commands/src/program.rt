//! What the program does with its words.

ghost use Rattle.std.specs.Prelude.{◌≡◌, ◌↔◌, ◌⊎◌, ◌<◌, ◌^◌, ℕ, None, map, string_bytes, length};
ghost use Rattle.std.specs.Prelude.{[], false, List};
ghost use Rattle.wasi_world.specs.Contexts.{AreNumbered};
ghost use Rattle.wasi_world.specs.Seen.{Rose};
ghost use Rattle.world_scripted.specs.Scripted.{seen_by};
ghost use Rattle.wasi_program.specs.Status.{number_of};
ghost use Rattle.wasi_program.specs.Scenario.{IsPlanned};
ghost use Rattle.wasi_commands.specs.Commands.{command_in, IsPump};
ghost use Rattle.wasi_commands.specs.Program.{pump_status, RanText, RanMain, RunEnds, TextEnds};
ghost use Rattle.wasi_commands.specs.Program.{GeneratedEnds};
ghost use Rattle.wasi_commands.specs.Completeness.{ProgramCompletes};

use crate::commands::{Command, command_in};
use drawn_scripts::counts::run_generated;
use drawn_scripts::drawn::Drawn;
use std::alloc::Global;
use std::sync::Wait;
use std::thread::Threads;
use wasi_program::Status;
use wasi_program::scenario::{Scenario, Unread, parse_scenario, read_scenario};
use wasi_program::status::bad_line;
use wasi_pump::{PumpError, pump};
use wasi_run::run_script;
use wasi_spawn::Spawner;
use wasi_world::{Entry, WasiSocketsCtx};
use world_io::{Sink, Source, write_all};
use world_scripted::ScriptedWorld;

/// What the program gives back. `line` is the bad line of statuses 2 and 3, else 0; `log` is the
/// log of the run, and empty where none began.
#[derive(Drop)]
pub struct Done<S, K> {
    pub status: u8,
    pub line: u32,
    pub log: Vec<Entry>,
    pub source: S,
    pub sink: K,
}

/// How it ended, before the source and the sink are given back.
#[derive(Drop)]
struct Ended {
    status: Status,
    line: u32,
    log: Vec<Entry>,
}

impl Ended {
    /// No run began.
    fn without_run(alloc: Global, status: Status, line: u32) -> Ended
        ensures status { result.status ≡ status }
        ensures line { result.line ≡ line }
        ensures log { result.log.items ≡ [] }
    {
        Ended {
            status,
            line,
            log: Vec::new(alloc),
        }
    }

    /// What the program gives back.
    fn with<S, K>(self, source: S, sink: K) -> Done<S, K>
        ensures number { result.status ≡ number_of self.status }
        ensures line { result.line ≡ self.line }
        ensures log { result.log.items ≡ self.log.items }
        ensures source { result.source ≡ source }
        ensures sink { result.sink ≡ sink }
    {
        Done {
            status: self.status.number(),
            line: self.line,
            log: self.log,
            source,
            sink,
        }
    }
}

/// Runs the script over a world that goes by a scenario's plan.
fn run_plan<S: Source, K: Sink>(
    alloc: Global,
    mut world: ScriptedWorld,
    mut contexts: Vec<WasiSocketsCtx>,
    limit: u32,
    source: &mut S,
    sink: &mut K,
) -> Ended
    requires open { (seen_by world).ended ≡ false }
    requires numbered { AreNumbered contexts.items }
    requires few { length contexts.items < 2 ^ 32 }
    ensures { (text : List ℕ) → IsPlanned text world contexts.items
        → RanText limit text (S.reading source.old) (S.reading source.new) (K.writing sink.old)
        (K.writing sink.new) result.log.items result.line result.status }
{
    let outcome = run_script(alloc, &mut world, &mut contexts, limit, source, sink);
    Ended {
        status: Status::of_run(outcome),
        line: bad_line(outcome),
        log: world.into_entries(),
    }
}

/// Runs the script over the scenario that the text spells.
fn run_text<S: Source, K: Sink>(
    alloc: Global,
    limit: u32,
    text: &[u8],
    source: &mut S,
    sink: &mut K,
) -> Ended
    ensures { TextEnds limit text.now (S.reading source.old) (S.reading source.new)
        (K.writing sink.old) (K.writing sink.new) result.log.items result.line result.status }
{
    let Ok(scenario) = parse_scenario(alloc, text) else {
        return Ended::without_run(alloc, Status::Memory, 0);
    };
    match scenario {
        Scenario::Planned(world, contexts) => {
            return run_plan(alloc, world, contexts, limit, source, sink);
        }
        Scenario::BadLine(line) => {
            return Ended::without_run(alloc, Status::BadScenario, line);
        }
    }
}

/// Reads the scenario, and runs the script over it.
fn run_scenario<C: Source, S: Source, K: Sink>(
    alloc: Global,
    limit: u32,
    scenario: &mut C,
    source: &mut S,
    sink: &mut K,
) -> Ended
    ensures { RunEnds limit (C.reading scenario.old) (C.reading scenario.new) (S.reading source.old)
        (S.reading source.new) (K.writing sink.old) (K.writing sink.new) result.log.items
        result.line result.status }
{
    let text = match read_scenario(alloc, scenario) {
        Ok(text) => text,
        Err(Unread::Fault) => return Ended::without_run(alloc, Status::ScenarioFault, 0),
        Err(Unread::Memory(_)) => return Ended::without_run(alloc, Status::Memory, 0),
    };
    run_text(alloc, limit, text.as_slice(), source, sink)
}

/// Runs a generated script, and writes the line that reports its counts.
fn tell_generated<K: Sink>(
    alloc: Global,
    kind: Drawn,
    seed: u64,
    steps: u32,
    sink: &mut K,
) -> Status
    ensures { GeneratedEnds kind seed steps (K.writing sink.old) (K.writing sink.new) result }
{
    let Ok(counts) = run_generated(alloc, kind, seed, steps) else {
        return Status::Memory;
    };
    let Ok(line) = counts.summary(alloc) else {
        return Status::Memory;
    };
    match write_all(sink, line.as_str().as_bytes()) {
        Ok(()) => Status::Ok,
        Err(_) => Status::WriteFault,
    }
}

/// How a pump's end is reported.
fn pump_status(outcome: Result<u64, PumpError>) -> Status
    ensures { result ≡ pump_status outcome }
{
    match outcome {
        Ok(_) => Status::Ok,
        Err(PumpError::NoBudget) => Status::NoBudget,
        Err(PumpError::NoWorker) => Status::NoWorker,
        Err(PumpError::SourceFault) => Status::SourceFault,
        Err(PumpError::SinkFault) => Status::SinkFault,
        Err(PumpError::Memory) => Status::Memory,
    }
}

/// Does what the words say.
fn run_command<
    R: Threads + Wait + Copy + Send + 'static,
    C: Source,
    S: Source + Drop + Send + 'static,
    K: Sink + Drop + Send + 'static,
    P: Spawner,
    Q: Spawner,
>(
    rt: R,
    alloc: Global,
    words: &[String],
    scenario: &mut C,
    mut source: S,
    mut sink: K,
    writers: &mut P,
    readers: &mut Q,
) -> Done<S, K>
    ensures ran { RanMain (map (λ w. string_bytes w) words.now) (C.reading scenario.old)
        (C.reading scenario.new) (S.reading source) (S.reading result.source) (K.writing sink)
        (K.writing result.sink) result.log.items result.status result.line }
    ensures words { (result.status ≡ 1) ↔ (command_in (map (λ w. string_bytes w) words.now)
        ≡ None) }
    ensures no_worker { IsPump (command_in (map (λ w. string_bytes w) words.now))
        → result.status ≡ 10 → Rose (P.refusals writers.old) (P.refusals writers.new)
        ⊎ Rose (Q.refusals readers.old) (Q.refusals readers.new) }
    ensures started { IsPump (command_in (map (λ w. string_bytes w) words.now)) → result.status ≡ 0
        → Rose (P.starts writers.old) (P.starts writers.new)
        × Rose (Q.starts readers.old) (Q.starts readers.new) }
{
    match command_in(words) {
        None => return Ended::without_run(alloc, Status::BadWords, 0).with(source, sink),
        Some(Command::Run(limit)) => {
            let ended = run_scenario(alloc, limit, scenario, &mut source, &mut sink);
            return ended.with(source, sink);
        }
        Some(Command::Pump(budget)) => {
            let budget = budget as usize;
            let pumped = pump(&rt, alloc, writers, readers, source, sink, budget);
            let status = pump_status(pumped.outcome);
            return Ended::without_run(alloc, status, 0).with(pumped.source, pumped.sink);
        }
        Some(Command::Generate(kind, seed, steps)) => {
            let status = tell_generated(alloc, kind, seed, steps, &mut sink);
            return Ended::without_run(alloc, status, 0).with(source, sink);
        }
    }
}

/// Does what the program's words say. `run LIMIT` reads the scenario, and then runs the script that
/// the source gives, of at most LIMIT bytes, over the scenario's world; replies go to the sink.
/// `pump BUDGET` moves all bytes of the source to the sink, by streams with this budget and a
/// worker each, which `readers` and `writers` start; it may wait for its workers. `gen SEED STEPS`
/// runs the script of calls of 0.2 that is generated from the seed, of at most 100000 lines, over
/// the empty scenario, and writes one line to the sink, which says what it came to; it reads
/// nothing. `gen3 SEED STEPS` does so with calls of both generations. Other words are status 1.
///
/// The words are tested first, then the scenario is read whole (a failed read is status 8), then it
/// is parsed (status 2).
pub fn run_main<
    R: Threads + Wait + Copy + Send + 'static,
    C: Source,
    S: Source + Drop + Send + 'static,
    K: Sink + Drop + Send + 'static,
    P: Spawner,
    Q: Spawner,
>(
    rt: R,
    alloc: Global,
    words: &[String],
    scenario: &mut C,
    source: S,
    sink: K,
    writers: &mut P,
    readers: &mut Q,
) -> Done<S, K>
    ensures ran { RanMain (map (λ w. string_bytes w) words.now) (C.reading scenario.old)
        (C.reading scenario.new) (S.reading source) (S.reading result.source) (K.writing sink)
        (K.writing result.sink) result.log.items result.status result.line }
    ensures complete { ProgramCompletes (command_in (map (λ w. string_bytes w) words.now))
        (C.reading scenario.old) (C.reading scenario.new) (S.reading source)
        (S.reading result.source) (K.writing sink) (K.writing result.sink)
        (Rose (P.refusals writers.old) (P.refusals writers.new)
        ⊎ Rose (Q.refusals readers.old) (Q.refusals readers.new)) result.status }
    ensures words { (result.status ≡ 1) ↔ (command_in (map (λ w. string_bytes w) words.now)
        ≡ None) }
    ensures no_worker { IsPump (command_in (map (λ w. string_bytes w) words.now))
        → result.status ≡ 10 → Rose (P.refusals writers.old) (P.refusals writers.new)
        ⊎ Rose (Q.refusals readers.old) (Q.refusals readers.new) }
    ensures started { IsPump (command_in (map (λ w. string_bytes w) words.now)) → result.status ≡ 0
        → Rose (P.starts writers.old) (P.starts writers.new)
        × Rose (Q.starts readers.old) (Q.starts readers.new) }
{
    run_command(rt, alloc, words, scenario, source, sink, writers, readers)
}
