//! Giving pending calls up.

ghost use Rattle.std.specs.Prelude.{◌≡◌, false, OnErr};
ghost use Rattle.wasi_world.specs.Asks.{AsksFor};
ghost use Rattle.wasi_host.specs.Cancel.{cancel_on, cancel_asks, uncancelled, cancel_left, beside_cancelled, beside_left};
ghost use Rattle.host_store.specs.Standing.{call_of};
ghost use Rattle.host_store.specs.Beside.{beside_of};
ghost use Rattle.host_store.specs.KnownSides.{KnowsSides};
ghost use Rattle.host_store.specs.Views.{SameView, state_of};

use host_store::{BesideCall, StandingCall, Store, WasiSocketsCtxView};
use host_tcp::{cancel_listen, tcp_cancel_bind};
use host_udp::{
    cancel_create, cancel_drop_outgoing, cancel_udp_bind, cancel_udp_connect, drop_datagram,
};
use std::alloc::AllocError;
use wasi_world::World;

/// Gives this call up. An output whose drop waits is gone already, and what a blocking call
/// wrote stays written.
fn give_up<W: World>(store: &mut Store, world: &mut W, call: StandingCall) -> Result<(), AllocError>
    requires { (W.seen world.old).ended ≡ false }
    ensures asked { AsksFor (cancel_on store.old call) (W.seen world.old) (W.seen world.new)
        (λ done. store.new) result }
    ensures left { OnErr result (store.new ≡ uncancelled store.old call) }
    ensures unasked { OnErr result (W.seen world.new ≡ W.seen world.old) }
    ensures sides { KnowsSides (W.seen world.old) store.old
        → KnowsSides (W.seen world.new) store.new }
{
    match call {
        StandingCall::Bind { socket, .. } => tcp_cancel_bind(store, socket),
        StandingCall::Listen { socket, .. } => cancel_listen(store, world, socket)?,
        StandingCall::UdpCreate { socket, .. } => cancel_create(store, world, socket)?,
        StandingCall::UdpBind { socket, .. } => cancel_udp_bind(store, socket),
        StandingCall::UdpConnect { socket, .. } => cancel_udp_connect(store, socket),
        StandingCall::UdpConnect3 { socket } => cancel_udp_connect(store, socket),
        StandingCall::DropOutgoing { socket } => cancel_drop_outgoing(store, socket),
        StandingCall::DropOutput { .. } | StandingCall::Blocking(_) => (),
    }
    Ok(())
}

/// Gives the call with this number up that stands beside others; `false` exactly where there is
/// none. A datagram closes the network socket where nothing else holds it.
fn cancel_beside<W: World>(store: &mut Store, world: &mut W, line: u32) -> Result<bool, AllocError>
    requires { (W.seen world.old).ended ≡ false }
    ensures asked { AsksFor (beside_cancelled store.old line (beside_of store.old line))
        (W.seen world.old) (W.seen world.new) (λ given_up. (given_up, store.new)) result }
    ensures left { OnErr result (store.new ≡ beside_left store.old line (beside_of store.old line)) }
    ensures unasked { OnErr result (W.seen world.new ≡ W.seen world.old) }
    ensures sides { KnowsSides (W.seen world.old) store.old
        → KnowsSides (W.seen world.new) store.new }
{
    let Some(beside) = store.find_beside(line) else {
        return Ok(false);
    };
    match &beside.call {
        BesideCall::Connect { .. } => {
            store.beside.remove(line);
            Ok(true)
        }
        BesideCall::Resolve { .. } => {
            store.beside.remove(line);
            Ok(true)
        }
        BesideCall::Send { socket, .. } => {
            let socket = *socket;
            drop_datagram(store, world, line, socket)?;
            Ok(true)
        }
        BesideCall::Receive { socket, .. } => {
            let socket = *socket;
            drop_datagram(store, world, line, socket)?;
            Ok(true)
        }
    }
}

/// Gives the pending call with this number up; `false` exactly where there is none.
///
/// - A bind, or a connect of a UDP socket, leaves its socket as it was.
/// - A connect of a TCP socket leaves it connecting for good.
/// - A listen closes its network socket, and the socket stays closed.
/// - A create closes its network socket.
/// - The drop of an outgoing datagram stream loses its datagram.
/// - A datagram of 0.3 closes its socket's network socket where nothing else holds it any more.
/// - The drop of an output, a call that blocks and a lookup change nothing.
///
/// Out of memory nothing was asked, so no network socket is closed
/// and its record keeps it. The call isn't pending any more.
pub fn cancel<W: World>(
    view: &mut WasiSocketsCtxView<'_>,
    world: &mut W,
    line: u32,
) -> Result<bool, AllocError>
    requires { (W.seen world.old).ended ≡ false }
    ensures asked { AsksFor (cancel_asks (state_of view.old) line) (W.seen world.old)
        (W.seen world.new) (λ cancelled. (cancelled, state_of view.new)) result }
    ensures left { OnErr result (state_of view.new ≡ cancel_left (state_of view.old) line
        (call_of view.old.store.now.standing line)) }
    ensures unasked { OnErr result (W.seen world.new ≡ W.seen world.old) }
    ensures sides { KnowsSides (W.seen world.old) view.old.store.now
        → KnowsSides (W.seen world.new) view.new.store.now }
    ensures view { SameView view.old view.new }
{
    let Some(standing) = view.store.take(line) else {
        return cancel_beside(view.store, world, line);
    };
    give_up(view.store, world, standing.call)?;
    Ok(true)
}
