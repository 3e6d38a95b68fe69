//! A relay over the system's sockets.

ghost use Rattle.std.specs.Prelude.{◌≡◌, IfOk, false};
ghost use Rattle.wasi_net.specs.Net.{counts_of, seen_by};

use crate::progress::Progress;
use crate::scripted::write_pairs;
use crate::status::{RelayStatus, status_after};
use std::alloc::{AllocError, Global};
use std::net::Net;
use std::rt::Clock;
use wasi_net::{Allowed, Hosts, Linux, SystemWorld};
use wasi_program::Status;
use wasi_relay::{Order, RelayEnd, Relayed, relay};
use wasi_session::StepError;
use wasi_steps::CodeWord;
use wasi_world::WasiSocketsCtx;
use world_io::Sink;

/// The one context, which may use TCP.
const TCP_CONTEXT: WasiSocketsCtx = WasiSocketsCtx {
    name: 0,
    ip_name_lookup: false,
    udp: false,
    tcp: true,
    write_limit: u64::MAX,
};

/// How a relay over the system's sockets ended: with the code, where a call of its setup was
/// refused, and how many of how many connections had a pair.
#[derive(Clone, Copy, Debug, PartialEq, Eq)]
pub struct LiveEnd {
    pub status: RelayStatus,
    pub refused: Option<CodeWord>,
    pub paired: usize,
    pub ordered: u32,
}

/// The code of a setup that was refused.
fn refused_with(end: Result<RelayEnd, StepError>) -> Option<CodeWord> {
    match end {
        Ok(RelayEnd::SetupRefused(code)) => Some(code),
        _ => None,
    }
}

/// The network: this machine's own addresses with the two ports of the order.
fn network<R: Net>(rt: &R, alloc: Global, order: &Order) -> Result<SystemWorld<Linux>, AllocError>
    ensures { IfOk result (λ world. seen_by world ≡ counts_of false 0 0) }
{
    let ports = vec![in alloc; order.listen.port(), order.target.port()]?;
    let allowed = Allowed::loopback(ports);
    Ok(SystemWorld::new(Linux::new(rt), alloc, allowed, Hosts::none(alloc)))
}

/// Serves an order over the system's sockets, and writes the lines of its pairs to the sink. After
/// a turn that moved nothing it waits until a socket may go on. If it is to be shown how far it is,
/// that is on standard error, once a second. For the port 0 the system chooses one that is free,
/// which is told there.
pub fn relay_live<R: Net + Eprint + Clock, K: Sink>(
    rt: &R,
    alloc: Global,
    order: Order,
    is_shown: bool,
    sink: &mut K,
) -> LiveEnd {
    let Ok(world) = network(rt, alloc, &order) else {
        return without_memory(&order);
    };
    let Ok(contexts) = vec![in alloc; TCP_CONTEXT] else {
        return without_memory(&order);
    };
    let tells_port = order.listen.port() == 0;
    let mut progress = Progress::new(rt, is_shown, tells_port);
    let done = relay(alloc, world, contexts, order, &mut progress);
    let Relayed { end, pairs, world } = done;
    // What is still open was closed at the relay's end.
    drop(world);
    progress.end(pairs.as_slice());
    let written = write_pairs(alloc, end, pairs.as_slice(), sink);
    LiveEnd {
        status: status_after(end, written),
        refused: refused_with(end),
        paired: pairs.len(),
        ordered: order.connections,
    }
}

/// No relay began, for lack of memory.
fn without_memory(order: &Order) -> LiveEnd {
    LiveEnd {
        status: RelayStatus::Of(Status::Memory),
        refused: None,
        paired: 0,
        ordered: order.connections,
    }
}
