//! What a handle that is dropped takes with it.

ghost use Rattle.std.specs.Prelude.{◌≡◌, is_some, false, Ok, OnErr};
ghost use Rattle.wasi_world.specs.Asks.{AsksFor};
ghost use Rattle.record_common.specs.Stops.{fault_outcome};
ghost use Rattle.host_store.specs.Kinds.{without_handle};
ghost use Rattle.wasi_host.specs.HandleDrops.{drop_asks, drop_kind};
ghost use Rattle.host_store.specs.Views.{state_of, HostKept};

use host_lookups::drop_lookup;
use host_store::{Kind, WasiSocketsCtxView, handles};
use host_streams::{drop_plain_input, drop_plain_output};
use host_tcp::{drop_end, drop_listener, drop_output, drop_slot, tcp_drop, tcp_release};
use host_udp::{drop_incoming, drop_outgoing, drop_udp, release_udp};
use wasi_addr::ShutdownType;
use wasi_streams::Fault;
use wasi_world::{Answer, Handle, Ids, World};

/// Drops a handle (`drop` of each resource). A handle that has a live child: `HasChildren`. The
/// handle is gone even where memory runs out after that.
///
/// - A TCP socket of 0.2 releases its listener, its open halves and its network socket; one of 0.3
///   its network socket, where nothing else holds it; a UDP socket its network socket.
/// - A listener of 0.3 refuses an arrival in hand, or closes a connection that isn't taken, and
///   then releases the network socket, where nothing else holds it.
/// - An output waits until its writer is ready, and an outgoing datagram stream until its datagram
///   in the background is sent or has failed. The call is pending until then, and
///   [`resume`](crate::resume) continues it.
/// - An incoming datagram stream gives up its receive.
/// - An end of a stream of 0.3 that is open releases its half of the connection.
/// - The network isn't asked about a lookup any more.
/// - The record of a socket, a lookup, a pipe or a result slot is given back.
///
/// No call may be pending before.
pub fn drop_handle<W: World>(
    view: &mut WasiSocketsCtxView<'_>,
    world: &mut W,
    ids: &mut Ids,
    this: Handle,
) -> Result<Answer<()>, Fault>
    requires open { (W.seen world.old).ended ≡ false }
    requires free { is_some view.old.store.now.standing ≡ false }
    ensures asked { AsksFor (drop_asks (state_of view.old) ids.old this) (W.seen world.old)
        (W.seen world.new) (λ answer. (answer, state_of view.new)) (fault_outcome result) }
    ensures gone { OnErr (fault_outcome result) ((state_of view.new).table
        ≡ without_handle (state_of view.old).table this) }
    ensures kept { HostKept view.old view.new ids.old ids.new (W.seen world.old)
        (W.seen world.new) }
{
    let kind = handles::remove(view.table, this)?;
    release_kind(view, world, ids, kind)
}

/// Releases what a handle of this kind stands for.
fn release_kind<W: World>(
    view: &mut WasiSocketsCtxView<'_>,
    world: &mut W,
    ids: &mut Ids,
    kind: Kind,
) -> Result<Answer<()>, Fault>
    requires { (W.seen world.old).ended ≡ false }
    ensures asked { AsksFor (drop_kind (state_of view.old) ids.old kind) (W.seen world.old)
        (W.seen world.new) (λ answer. (answer, state_of view.new)) (fault_outcome result) }
    ensures table { (state_of view.new).table ≡ (state_of view.old).table }
    ensures kept { HostKept view.old view.new ids.old ids.new (W.seen world.old)
        (W.seen world.new) }
{
    match kind {
        Kind::Tcp2(place) => {
            tcp_release(view.store, world, ids.own(), place)?;
            Ok(Answer::Ready(()))
        }
        Kind::Tcp3(place) => {
            tcp_drop(view.store, world, ids.own(), place)?;
            Ok(Answer::Ready(()))
        }
        Kind::Listen3(place) => {
            drop_listener(view.store, world, ids.own(), place)?;
            Ok(Answer::Ready(()))
        }
        Kind::Udp2(place) => {
            release_udp(view.store, world, ids.own(), place)?;
            Ok(Answer::Ready(()))
        }
        Kind::Udp3(place) => {
            drop_udp(view.store, world, ids.own(), place)?;
            Ok(Answer::Ready(()))
        }
        Kind::Output(place) => {
            let answer = drop_output(view.store, world, *ids, place)?;
            Ok(answer)
        }
        Kind::Incoming(place) => {
            drop_incoming(view.store, place);
            Ok(Answer::Ready(()))
        }
        Kind::Outgoing(place) => Ok(drop_outgoing(view.store, *ids, place)),
        Kind::Lookup(place) => {
            drop_lookup(view.store, place);
            Ok(Answer::Ready(()))
        }
        Kind::PlainInput(input) => {
            drop_plain_input(view.store, input);
            Ok(Answer::Ready(()))
        }
        Kind::PlainOutput(output) => {
            drop_plain_output(view.store, output);
            Ok(Answer::Ready(()))
        }
        Kind::Receive3(end) => {
            drop_end(view.store, world, ids.own(), ShutdownType::Receive, end)?;
            Ok(Answer::Ready(()))
        }
        Kind::Send3(end) => {
            drop_end(view.store, world, ids.own(), ShutdownType::Send, end)?;
            Ok(Answer::Ready(()))
        }
        Kind::Result3(slot) => {
            drop_slot(view.store, slot);
            Ok(Answer::Ready(()))
        }
        Kind::Network | Kind::Input(_) | Kind::Pollable(_) | Kind::ErrorValue => {
            Ok(Answer::Ready(()))
        }
    }
}
