//! Binds of UDP sockets of 0.3, and how a bind of either interface that was pending goes on.

ghost use Rattle.std.specs.Prelude.{◌≡◌, false};
ghost use Rattle.wasi_world.specs.Asks.{AsksFor};
ghost use Rattle.host_store.specs.BaseStops.{ends_as};
ghost use Rattle.host_udp.specs.UdpBinds.{udp_bound_as, udp_bind_of, udp_rebind_of};
ghost use Rattle.host_store.specs.KnownSides.{KnowsSides};

use host_store::{Interface, StandingCall, Store, StoreError, unnamed};
use udp_records::{OpenUdp, UdpInProgress};
use wasi_addr::IpSocketAddress;
use wasi_records::{RecordId, find_mut};
use wasi_world::{Answer, Ids, TrapKind, World};

/// The same of a UDP socket.
fn leave_udp_bound(socket: &mut OpenUdp, interface: Interface, answer: Answer<()>)
    ensures { socket.new ≡ udp_bound_as interface answer socket.old }
{
    match (interface, answer) {
        (Interface::P3, Answer::Ready(())) => socket.in_progress = UdpInProgress::Nothing,
        (Interface::P3, Answer::Pending) | (Interface::P2, _) => (),
    }
}

/// Binds the UDP socket with this record number (`bind` of 0.3). While its check is pending it
/// is the pending call; once it is done nothing is in progress.
pub fn bind_udp<W: World>(
    store: &mut Store,
    world: &mut W,
    ids: Ids,
    place: RecordId,
    addr: IpSocketAddress,
) -> Result<Answer<()>, StoreError>
    requires { (W.seen world.old).ended ≡ false }
    ensures asked { AsksFor (udp_bind_of ids place addr store.old) (W.seen world.old)
        (W.seen world.new) (λ answer. (answer, store.new)) (ends_as result) }
    ensures sides { KnowsSides (W.seen world.old) store.old
        → KnowsSides (W.seen world.new) store.new }
{
    let Some(socket) = find_mut::<OpenUdp>(&mut store.records, place) else {
        return Err(StoreError::Trap(TrapKind::NoSuchHandle));
    };
    let answer = unnamed(socket.begin_bind(world, ids.own(), addr))?;
    leave_udp_bound(socket, Interface::P3, answer);
    let call = StandingCall::UdpBind {
        socket: place,
        interface: Interface::P3,
    };
    Ok(store.stand(ids, call, answer))
}

/// Polls the bind of the UDP socket with this record number, for this interface. If it is still
/// pending it is stored again.
pub fn rebind_udp<W: World>(
    store: &mut Store,
    world: &mut W,
    ids: Ids,
    place: RecordId,
    interface: Interface,
) -> Result<Answer<()>, StoreError>
    requires { (W.seen world.old).ended ≡ false }
    ensures asked { AsksFor (udp_rebind_of interface ids place store.old) (W.seen world.old)
        (W.seen world.new) (λ answer. (answer, store.new)) (ends_as result) }
    ensures sides { KnowsSides (W.seen world.old) store.old
        → KnowsSides (W.seen world.new) store.new }
{
    let Some(socket) = find_mut::<OpenUdp>(&mut store.records, place) else {
        return Err(StoreError::Trap(TrapKind::NoSuchHandle));
    };
    let answer = unnamed(socket.poll_bind(world))?;
    leave_udp_bound(socket, interface, answer);
    let call = StandingCall::UdpBind {
        socket: place,
        interface,
    };
    Ok(store.stand(ids, call, answer))
}
