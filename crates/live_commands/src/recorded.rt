//! The script's run over the system's sockets, of which a log is kept.

ghost use Rattle.std.specs.Prelude.{◌≡◌, ◌∷◌, [], None, false};
ghost use Rattle.wasi_world.specs.Contexts.{free_context};
ghost use Rattle.wasi_net.specs.Net.{counts_of};
ghost use Rattle.live_commands.specs.Recorded.{EndsRecorded, RanRecorded};

use crate::script::{Setup, contexts};
use crate::waits_before::WaitsBefore;
use recorder_commands::recording::{place_after, status_after};
use recorder_commands::{Begun, RecorderStatus, WritingWorld};
use std::alloc::Global;
use std::marker::Brand;
use std::net::Net;
use wasi_looks::WaitsForLooks;
use wasi_policy::{Policy, PolicyWorld, Rules};
use wasi_program::Status;
use wasi_run::run_script_with;
use wasi_world::WasiSocketsCtx;
use world_io::{Sink, Source};

/// How a run ended of which a log is kept: how the program ends, the number of the bad line of the
/// script, or 0, and where the log went.
#[derive(Drop)]
pub struct Recorded<M> {
    pub status: RecorderStatus,
    pub place: u32,
    pub log_out: M,
}

/// Runs the script over a world, whose log is written as it comes.
fn record_on<B: Begun, W: WaitsForLooks + Drop, M: Sink, S: Source, K: Sink>(
    alloc: Global,
    inner: W,
    mut contexts: Vec<WasiSocketsCtx>,
    limit: u32,
    log_out: M,
    source: &mut S,
    sink: &mut K,
) -> Recorded<M>
    requires free { contexts.items ≡ free_context ∷ [] }
    requires silent { W.seen inner ≡ counts_of false 0 0 }
    requires contexts { B.contexts ≡ free_context ∷ [] }
    requires begun { B.begun ≡ M.writing log_out }
    ensures { RanRecorded limit (M.writing log_out) (M.writing result.log_out)
        (S.reading source.old) (S.reading source.new) (K.writing sink.old) (K.writing sink.new)
        result.place result.status }
{
    let mut world = WritingWorld::<W, M, B>::new(alloc, inner, contexts.as_slice(), log_out);
    let mut before = WaitsBefore::new(alloc);
    let outcome = run_script_with(
        alloc,
        &mut world,
        &mut contexts,
        limit,
        source,
        sink,
        &mut before,
    );
    let (written, log_out) = world.finish(outcome);
    Recorded {
        status: status_after(outcome, written),
        place: place_after(outcome, written),
        log_out,
    }
}

/// The same, with the one context that may use all that is built.
fn record_over<W: WaitsForLooks + Drop, M: Sink, S: Source, K: Sink>(
    alloc: Global,
    inner: W,
    limit: u32,
    log_out: M,
    source: &mut S,
    sink: &mut K,
) -> Recorded<M>
    requires silent { W.seen inner ≡ counts_of false 0 0 }
    ensures { EndsRecorded limit (M.writing log_out) (M.writing result.log_out)
        (S.reading source.old) (S.reading source.new) (K.writing sink.old) (K.writing sink.new)
        result.place result.status }
{
    match contexts(alloc) {
        Ok(contexts) => {
            return record_on::<Brand, W, M, S, K>(
                alloc, inner, contexts, limit, log_out, source, sink,
            );
        }
        Err(_) => {
            return Recorded {
                status: RecorderStatus::Of(Status::Memory),
                place: 0,
                log_out,
            };
        }
    }
}

/// Runs the script that the source gives over the system's sockets, and writes the log of the run
/// as it comes: each call on the check and the network, with its answer, as soon as it is answered.
/// Replies go to the sink. Where memory ran out in the run, the log has no line `end`.
pub fn run_recorded<R, M, S, K>(
    rt: &R,
    alloc: Global,
    setup: Setup,
    log_out: M,
    source: &mut S,
    sink: &mut K,
) -> Recorded<M>
where
    R: Net,
    M: Sink,
    S: Source,
    K: Sink,
    ensures { EndsRecorded setup.limit (M.writing log_out) (M.writing result.log_out)
        (S.reading source.old) (S.reading source.new) (K.writing sink.old) (K.writing sink.new)
        result.place result.status }
{
    let Setup { limit, network } = setup;
    record_over(
        alloc,
        network.world(rt, alloc),
        limit,
        log_out,
        source,
        sink,
    )
}

/// The same under rules, of which proofs know.
fn record_under<P: Rules, R: Net, M: Sink, S: Source, K: Sink>(
    rt: &R,
    alloc: Global,
    policy: Policy,
    setup: Setup,
    log_out: M,
    source: &mut S,
    sink: &mut K,
) -> Recorded<M>
    requires rules { policy ≡ P.rules }
    requires plan { P.plan ≡ None }
    ensures { EndsRecorded setup.limit (M.writing log_out) (M.writing result.log_out)
        (S.reading source.old) (S.reading source.new) (K.writing sink.old) (K.writing sink.new)
        result.place result.status }
{
    let Setup { limit, network } = setup;
    let world = PolicyWorld::<_, P>::new(alloc, policy, network.world(rt, alloc));
    record_over(alloc, world, limit, log_out, source, sink)
}

/// Runs the script as [`run_recorded`] does, under these rules: they decide each check, and the log
/// has what they decided.
pub fn run_recorded_under<R, M, S, K>(
    rt: &R,
    alloc: Global,
    policy: Policy,
    setup: Setup,
    log_out: M,
    source: &mut S,
    sink: &mut K,
) -> Recorded<M>
where
    R: Net,
    M: Sink,
    S: Source,
    K: Sink,
    ensures { EndsRecorded setup.limit (M.writing log_out) (M.writing result.log_out)
        (S.reading source.old) (S.reading source.new) (K.writing sink.old) (K.writing sink.new)
        result.place result.status }
{
    record_under::<Brand, R, M, S, K>(rt, alloc, policy, setup, log_out, source, sink)
}
