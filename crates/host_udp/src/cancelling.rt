//! How the pending calls of UDP sockets are given up.

ghost use Rattle.std.specs.Prelude.{◌≡◌, false, OnErr};
ghost use Rattle.wasi_world.specs.Asks.{AsksFor};
ghost use Rattle.wasi_world.specs.Seen.{Seen};
ghost use Rattle.host_udp.specs.UdpCancels.{other_than_datagram, cancel_udp_bind_at, cancel_create_at, cancel_udp_connect_at, cancel_drop_outgoing_at};
ghost use Rattle.wasi_records.specs.Records.{udp2_at, open_at};
ghost use Rattle.host_store.specs.KnownSides.{KnowsSides};

use host_store::Store;
use std::alloc::AllocError;
use udp_records::{OpenUdp, UdpInProgress, UdpRecord};
use wasi_records::{RecordId, find, find_mut};
use wasi_world::World;

/// Gives up the create of the UDP socket with this record number: its network socket is closed
/// and its record given back. It had no handle. Out of memory nothing was asked, and the record
/// keeps the create.
pub fn cancel_create<W: World>(
    store: &mut Store,
    world: &mut W,
    place: RecordId,
) -> Result<(), AllocError>
    requires { (W.seen world.old).ended ≡ false }
    ensures asked { AsksFor (cancel_create_at store.old place (udp2_at store.old.records place))
        (W.seen world.old) (W.seen world.new) (λ done. store.new) result }
    ensures left { OnErr result (store.new ≡ store.old) }
    ensures unasked { OnErr result (W.seen world.new ≡ W.seen world.old) }
    ensures sides { KnowsSides (W.seen world.old) store.old
        → KnowsSides (W.seen world.new) store.new }
{
    let Some(socket) = find::<UdpRecord>(&store.records, place) else {
        return Ok(());
    };
    let UdpRecord::Creating(create) = socket else {
        return Ok(());
    };
    create.cancel(world)?;
    store.give_back(place);
    Ok(())
}

/// Gives up the bind of the UDP socket with this record number: the socket stays as it was,
/// with nothing in progress.
pub fn cancel_udp_bind(store: &mut Store, place: RecordId)
    ensures state { store.new ≡ cancel_udp_bind_at store.old place
        (open_at store.old.records place) }
    ensures sides { (s : Seen) → KnowsSides s store.old → KnowsSides s store.new }
{
    let Some(socket) = find_mut::<OpenUdp>(&mut store.records, place) else {
        return;
    };
    socket.in_progress = UdpInProgress::Nothing;
}

/// Gives up the connect of the UDP socket with this record number: the socket stays as it was,
/// without datagram streams.
pub fn cancel_udp_connect(store: &mut Store, place: RecordId)
    ensures state { store.new ≡ cancel_udp_connect_at store.old place
        (open_at store.old.records place) }
    ensures sides { (s : Seen) → KnowsSides s store.old → KnowsSides s store.new }
{
    let Some(socket) = find_mut::<OpenUdp>(&mut store.records, place) else {
        return;
    };
    socket.connecting = None;
}

/// Gives up the wait for the outgoing stream of the UDP socket with this record number: the
/// stream is gone, and its datagram is lost.
pub fn cancel_drop_outgoing(store: &mut Store, place: RecordId)
    ensures state { store.new ≡ cancel_drop_outgoing_at store.old place
        (open_at store.old.records place) }
    ensures sides { (s : Seen) → KnowsSides s store.old → KnowsSides s store.new }
{
    let Some(socket) = find_mut::<OpenUdp>(&mut store.records, place) else {
        return;
    };
    socket.outgoing = None;
    forget_datagrams(store, place);
}

/// Takes the sends of this record out of the jobs.
fn forget_datagrams(store: &mut Store, place: RecordId)
    ensures { store.new ≡ record store.old { jobs = other_than_datagram place store.old.jobs } }
{
    store.jobs.forget_datagrams(place);
}
