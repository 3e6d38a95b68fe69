//! The script's run over the system's sockets.

ghost use Rattle.std.specs.Prelude.{◌≡◌, [], ◌∷◌, IfOk, Some, None, false};
ghost use Rattle.wasi_world.specs.Contexts.{free_context};
ghost use Rattle.wasi_net.specs.Allowed.{policy_of};
ghost use Rattle.live_commands.specs.Live.{RanLive};

use crate::waits_before::WaitsBefore;
use std::alloc::{AllocError, Global};
use std::net::Net;
use wasi_net::{Allowed, Hosts, Linux, Patience, PatientWorld, SystemWorld};
use wasi_run::{RunEnd, RunError, run_script_with};
use wasi_world::WasiSocketsCtx;
use world_io::{Sink, Source};

/// The one context, which may use all that is built. Its check goes by the ports.
const FREE: WasiSocketsCtx = WasiSocketsCtx {
    name: 0,
    ip_name_lookup: true,
    udp: true,
    tcp: true,
    write_limit: u64::MAX,
};

pub fn contexts(alloc: Global) -> Result<Vec<WasiSocketsCtx>, AllocError>
    ensures { IfOk result (λ contexts. contexts.items ≡ free_context ∷ []) }
{
    Ok(vec![in alloc; FREE]?)
}

/// How long a line waits, in milliseconds, where it doesn't wait without limit.
const PATIENCE: i32 = 1000;

/// What a run goes by: the most bytes of its script, and its network.
#[derive(Drop)]
pub struct Setup {
    pub limit: u32,
    pub network: Network,
}

/// The network of a run: which addresses may be used, which names are found, and how lines wait.
#[derive(Drop)]
pub struct Network {
    pub allowed: Allowed,
    pub hosts: Hosts,
    pub patience: Patience,
}

impl Network {
    ghost use Rattle.wasi_net.specs.Net.{counts_of, patient_seen};

    /// It, over the system's sockets. It answered nothing yet, and opens nothing.
    pub fn world<R: Net>(self, rt: &R, alloc: Global) -> PatientWorld<Linux>
        ensures { patient_seen result ≡ counts_of false 0 0 }
    {
        let Network {
            allowed,
            hosts,
            patience,
        } = self;
        let system = SystemWorld::new(Linux::new(rt), alloc, allowed, hosts);
        PatientWorld::new(system, patience)
    }
}

/// How lines wait: without limit, or for about a second.
pub fn patience(endless: bool) -> Patience {
    if endless {
        Patience::Endless
    } else {
        Patience::AtMost(PATIENCE)
    }
}

/// The addresses that may be used: the ports, on every address or on this machine's own alone.
pub fn allowed(ports: Vec<u16>, anywhere: bool) -> Allowed
    ensures { policy_of result ≡ record { ports = Some ports.items; anywhere = anywhere } }
{
    if anywhere {
        Allowed::anywhere(ports)
    } else {
        Allowed::loopback(ports)
    }
}

/// The addresses that rules may allow: every one, or this machine's own alone.
pub fn every_port(anywhere: bool) -> Allowed
    ensures { policy_of result ≡ record { ports = None; anywhere = anywhere } }
{
    if anywhere {
        Allowed::everything()
    } else {
        Allowed::every_loopback()
    }
}

/// Runs the script that the source gives over the system's sockets, and writes the replies to the
/// sink. What is open at its end is closed.
pub fn run_live<R, S, K>(
    rt: &R,
    alloc: Global,
    setup: Setup,
    source: &mut S,
    sink: &mut K,
) -> Result<RunEnd, RunError>
where
    R: Net,
    S: Source,
    K: Sink,
    ensures { RanLive setup.limit (S.reading source.old) (S.reading source.new)
        (K.writing sink.old) (K.writing sink.new) result }
{
    let Setup { limit, network } = setup;
    let mut world = network.world(rt, alloc);
    let mut contexts = contexts(alloc)?;
    let mut before = WaitsBefore::new(alloc);
    run_script_with(
        alloc,
        &mut world,
        &mut contexts,
        limit,
        source,
        sink,
        &mut before,
    )
}
