//! What the program does with its words.

ghost use Rattle.std.specs.Prelude.{◌≡◌, ◌↔◌, None, map, string_bytes};
ghost use Rattle.policy_commands.specs.Words.{command_in, number_of};
ghost use Rattle.policy_commands.specs.Ends.{CommandEnds, RulesEnd, RanMain};

use crate::rules::{FoundRules, read_rules};
use crate::run::{Ended, answer_questions, run_scenario, write_findings};
use crate::status::{Command, PolicyStatus, command_in};
use std::alloc::Global;
use wasi_policy::{Denied, Policy};
use wasi_program::Status;
use wasi_world::Entry;
use world_io::{Sink, Source};

/// What the program gives back. `line` is the bad line of statuses 2, 3 and 16, else 0. `inner` is
/// the log of the world that the rules handed on to, and `denied` the checks that they denied, each
/// with its place in it; both are empty where no run began.
#[derive(Drop)]
pub struct PolicyDone<S, K> {
    pub status: u8,
    pub line: u32,
    pub denied: Vec<Denied>,
    pub inner: Vec<Entry>,
    pub source: S,
    pub sink: K,
}

/// Does a command under rules.
fn do_command<C: Source, S: Source, K: Sink>(
    alloc: Global,
    policy: Policy,
    command: Command,
    scenario: &mut C,
    source: &mut S,
    sink: &mut K,
) -> Ended
    ensures { CommandEnds policy command (C.reading scenario.old) (C.reading scenario.new)
        (S.reading source.old) (S.reading source.new) (K.writing sink.old) (K.writing sink.new)
        result.denied.items result.inner.items result.line result.status }
{
    match command {
        Command::Run(limit) => run_scenario(alloc, policy, limit, scenario, source, sink),
        Command::Ask(form, limit) => { answer_questions(alloc, &policy, form, limit, source, sink) }
        Command::Check => write_findings(alloc, &policy, sink),
    }
}

/// Reads the rules, and does a command under them.
fn do_under_rules<R: Source, C: Source, S: Source, K: Sink>(
    alloc: Global,
    command: Command,
    rules: &mut R,
    scenario: &mut C,
    source: &mut S,
    sink: &mut K,
) -> Ended
    ensures { RulesEnd command (R.reading rules.old) (R.reading rules.new) (C.reading scenario.old)
        (C.reading scenario.new) (S.reading source.old) (S.reading source.new) (K.writing sink.old)
        (K.writing sink.new) result.denied.items result.inner.items result.line result.status }
{
    match read_rules(alloc, rules) {
        FoundRules::Read(policy) => do_command(alloc, policy, command, scenario, source, sink),
        FoundRules::Stopped(status, line) => Ended::without_run(alloc, status, line),
    }
}

/// Does what the program's words say. `run LIMIT` runs the script that the source gives, of at most
/// LIMIT bytes, under the rules over the scenario's world; replies go to the sink. `ask LIMIT`
/// answers the questions that the source gives, of at most LIMIT bytes: what the rules decide, and
/// by which line. `explain LIMIT` answers them with the rule that decided. `check` writes which
/// rules decide nothing, and which overlap and say otherwise, and reads no source. Other words are
/// status 1.
///
/// The words are tested first, then the rules are read whole (a failed read is status 17) and
/// parsed (status 16), and then for `run` the scenario (statuses 8 and 2).
pub fn policy_main<R: Source, C: Source, S: Source, K: Sink>(
    alloc: Global,
    words: &[String],
    rules: &mut R,
    scenario: &mut C,
    mut source: S,
    mut sink: K,
) -> PolicyDone<S, K>
    ensures ran { RanMain (map (λ w. string_bytes w) words.now) (R.reading rules.old)
        (R.reading rules.new) (C.reading scenario.old) (C.reading scenario.new) (S.reading source)
        (S.reading result.source) (K.writing sink) (K.writing result.sink) result.denied.items
        result.inner.items result.status result.line }
    ensures words { (result.status ≡ 1) ↔ (command_in (map (λ w. string_bytes w) words.now)
        ≡ None) }
{
    let ended = match command_in(words) {
        None => Ended::without_run(alloc, PolicyStatus::Of(Status::BadWords), 0),
        Some(command) => { do_under_rules(alloc, command, rules, scenario, &mut source, &mut sink) }
    };
    PolicyDone {
        status: ended.status.number(),
        line: ended.line,
        denied: ended.denied,
        inner: ended.inner,
        source,
        sink,
    }
}
