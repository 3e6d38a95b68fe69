//! Connects of UDP sockets of 0.3.

ghost use Rattle.std.specs.Prelude.{◌≡◌, false};
ghost use Rattle.wasi_world.specs.Asks.{AsksFor};
ghost use Rattle.host_store.specs.BaseStops.{ends_as};
ghost use Rattle.host_store.specs.KnownSides.{KnowsSides};
ghost use Rattle.host_udp.specs.UdpConnects.{udp_connect_of, udp_reconnect_of};

use host_store::{StandingCall, Store, StoreError, unnamed};
use udp_records::OpenUdp;
use wasi_addr::{ErrorCode, IpSocketAddress};
use wasi_records::{RecordId, find_mut};
use wasi_world::{Answer, Ids, TrapKind, World};

/// Connects the UDP socket with this record number (`connect` of 0.3). Datagram streams alive,
/// which a socket of 0.3 hasn't: `InvalidState`. While a check is pending it is the pending
/// call.
pub fn connect_udp<W: World>(
    store: &mut Store,
    world: &mut W,
    ids: Ids,
    place: RecordId,
    addr: IpSocketAddress,
) -> Result<Answer<()>, StoreError>
    requires { (W.seen world.old).ended ≡ false }
    ensures asked { AsksFor (udp_connect_of ids place addr store.old) (W.seen world.old)
        (W.seen world.new) (λ answer. (answer, store.new)) (ends_as result) }
    ensures sides { KnowsSides (W.seen world.old) store.old
        → KnowsSides (W.seen world.new) store.new }
{
    let Some(socket) = find_mut::<OpenUdp>(&mut store.records, place) else {
        return Err(StoreError::Trap(TrapKind::NoSuchHandle));
    };
    if socket.has_streams() {
        return Err(StoreError::Code(ErrorCode::InvalidState));
    }
    let answer = unnamed(socket.connect(world, ids.own(), addr))?;
    Ok(store.stand(ids, StandingCall::UdpConnect3 { socket: place }, answer))
}

/// Polls the connect of the UDP socket of 0.3 with this record number. If it is still pending
/// it is stored again.
pub fn reconnect_udp<W: World>(
    store: &mut Store,
    world: &mut W,
    ids: Ids,
    place: RecordId,
) -> Result<Answer<()>, StoreError>
    requires { (W.seen world.old).ended ≡ false }
    ensures asked { AsksFor (udp_reconnect_of ids place store.old) (W.seen world.old)
        (W.seen world.new) (λ answer. (answer, store.new)) (ends_as result) }
    ensures sides { KnowsSides (W.seen world.old) store.old
        → KnowsSides (W.seen world.new) store.new }
{
    let Some(socket) = find_mut::<OpenUdp>(&mut store.records, place) else {
        return Err(StoreError::Trap(TrapKind::NoSuchHandle));
    };
    let answer = unnamed(socket.reconnect(world))?;
    Ok(store.stand(ids, StandingCall::UdpConnect3 { socket: place }, answer))
}
