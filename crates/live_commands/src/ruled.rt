//! The script's run over the system's sockets under rules.

ghost use Rattle.std.specs.Prelude.{◌≡◌, ◌⊎◌, None};
ghost use Rattle.live_commands.specs.Live.{RanLive};
ghost use Rattle.live_commands.specs.Ruled.{EndsUnderRules};

use crate::script::{Setup, contexts};
use crate::waits_before::WaitsBefore;
use policy_commands::{FoundRules, PolicyStatus, read_rules};
use std::alloc::Global;
use std::marker::Brand;
use std::net::Net;
use wasi_policy::{Policy, PolicyWorld, Rules};
use wasi_program::Status;
use wasi_program::status::bad_line;
use wasi_run::{RunEnd, RunError, run_script_with};
use world_io::{Sink, Source};

/// Runs the script under rules, over the system's sockets.
fn run_under<P: Rules, R: Net, S: Source, K: Sink>(
    rt: &R,
    alloc: Global,
    policy: Policy,
    setup: Setup,
    source: &mut S,
    sink: &mut K,
) -> Result<RunEnd, RunError>
    requires rules { policy ≡ P.rules }
    requires plan { P.plan ≡ None }
    ensures { RanLive setup.limit (S.reading source.old) (S.reading source.new)
        (K.writing sink.old) (K.writing sink.new) result }
{
    let Setup { limit, network } = setup;
    let mut contexts = contexts(alloc)?;
    let network = network.world(rt, alloc);
    let mut world = PolicyWorld::<_, P>::new(alloc, policy, network);
    let mut before = WaitsBefore::new(alloc);
    run_script_with(
        alloc,
        &mut world,
        &mut contexts,
        limit,
        source,
        sink,
        &mut before,
    )
}

/// Reads rules, and runs the script that the source gives over the system's sockets, of which the
/// rules allow some addresses. Replies go to the sink. Returns how the program ends,
/// and the number of the bad line of the rules or of the script, or 0.
pub fn run_ruled<R: Net, F: Source, S: Source, K: Sink>(
    rt: &R,
    alloc: Global,
    rules: &mut F,
    setup: Setup,
    source: &mut S,
    sink: &mut K,
) -> (PolicyStatus, u32)
    ensures { EndsUnderRules setup.limit (F.reading rules.old) (F.reading rules.new)
        (S.reading source.old) (S.reading source.new) (K.writing sink.old) (K.writing sink.new)
        result.1 result.0 }
{
    let policy = match read_rules(alloc, rules) {
        FoundRules::Read(policy) => policy,
        FoundRules::Stopped(status, line) => return (status, line),
    };
    let outcome = run_under::<Brand, R, S, K>(rt, alloc, policy, setup, source, sink);
    (PolicyStatus::Of(Status::of_run(outcome)), bad_line(outcome))
}
