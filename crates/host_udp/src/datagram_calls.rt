//! The calls on the datagram streams of a UDP socket.

ghost use Rattle.std.specs.Prelude.{◌≡◌, ◌+◌, ◌<◌, ◌^◌, false, IfOk, Ok, OnErr};
ghost use Rattle.wasi_world.specs.Asks.{AsksFor};
ghost use Rattle.wasi_world.specs.Seen.{Seen};
ghost use Rattle.host_udp.specs.DatagramCalls.{start_streams_at, reconnect_udp_at, mark_streams, make_streams_asks, remake_streams_asks, check_send_at, send_datagrams_at, receive_datagrams_at, ready_incoming_at, incoming_names, drop_incoming_at, drop_outgoing_at, outgoing_ready, StoreLoses};
ghost use Rattle.tcp_records.specs.Listening.{TakesOne};
ghost use Rattle.record_common.specs.Stops.{fault_outcome, host_outcome};
ghost use Rattle.record_common.specs.Names.{RoseUpTo};
ghost use Rattle.wasi_records.specs.Records.{open_at};
ghost use Rattle.host_store.specs.KnownSides.{KnowsSides};

use crate::udp_calls::udp_side;
use host_store::{Kind, StandingCall, Store, handles, keep_job};
use record_common::SocketError;
use std::alloc::Global;
use udp_records::OpenUdp;
use wasi_addr::IpSocketAddress;
use wasi_jobs::HostJob;
use wasi_records::{RecordId, find, find_mut, find_mut_in};
use wasi_streams::Fault;
use wasi_table::Table;
use wasi_world::{Answer, Handle, Ids, IncomingDatagrams, OpId, OutgoingDatagram, TrapKind, World};

/// Makes the datagram streams of the UDP socket with this record number, under its handle
/// (`udp-socket.stream`).
///
/// - While one of its streams is live: `StreamsAlive`. Not bound: `InvalidState`.
/// - With an address the socket is connected to it first; while that is pending, so is the
///   call.
/// - Without one a connected socket is disconnected.
pub fn make_streams<W: World>(
    store: &mut Store,
    table: &mut Table<Kind>,
    world: &mut W,
    ids: Ids,
    handle: Handle,
    remote: Option<IpSocketAddress>,
    place: RecordId,
) -> Result<Answer<(Handle, Handle)>, SocketError>
    requires { (W.seen world.old).ended ≡ false }
    ensures asked { AsksFor (make_streams_asks (record { table = table.old; store = store.old })
        ids handle remote place) (W.seen world.old) (W.seen world.new)
        (λ answer. (answer, record { table = table.new; store = store.new }))
        (host_outcome result) }
    ensures sides { KnowsSides (W.seen world.old) store.old
        → KnowsSides (W.seen world.new) store.new }
{
    match start_streams(store, world, ids, place, handle, remote)? {
        Answer::Pending => Ok(Answer::Pending),
        Answer::Ready(()) => mark_streams(store, table, world, ids.own(), handle),
    }
}

/// Polls the connect of the UDP socket with this record number. If it is still pending it is
/// stored again; done, the streams get their handles.
pub fn remake_streams<W: World>(
    store: &mut Store,
    table: &mut Table<Kind>,
    world: &mut W,
    ids: Ids,
    place: RecordId,
    handle: Handle,
) -> Result<Answer<(Handle, Handle)>, SocketError>
    requires { (W.seen world.old).ended ≡ false }
    ensures asked { AsksFor (remake_streams_asks (record {
      table = table.old;
      store = store.old;
    }) ids place handle) (W.seen world.old) (W.seen world.new)
        (λ answer. (answer, record { table = table.new; store = store.new }))
        (host_outcome result) }
    ensures sides { KnowsSides (W.seen world.old) store.old
        → KnowsSides (W.seen world.new) store.new }
{
    match reconnect(store, world, ids, place, handle)? {
        Answer::Pending => Ok(Answer::Pending),
        Answer::Ready(()) => mark_streams(store, table, world, ids.own(), handle),
    }
}

/// Begins to make the streams of the UDP socket with this record number. A connect that is
/// pending is the pending call.
fn start_streams<W: World>(
    store: &mut Store,
    world: &mut W,
    ids: Ids,
    place: RecordId,
    handle: Handle,
    remote: Option<IpSocketAddress>,
) -> Result<Answer<()>, SocketError>
    requires { (W.seen world.old).ended ≡ false }
    ensures asked { AsksFor (start_streams_at store.old ids place handle remote
        (open_at store.old.records place)) (W.seen world.old) (W.seen world.new)
        (λ answer. (answer, store.new)) (host_outcome result) }
    ensures sides { KnowsSides (W.seen world.old) store.old
        → KnowsSides (W.seen world.new) store.new }
{
    let Some(socket) = find_mut::<OpenUdp>(&mut store.records, place) else {
        return Err(SocketError::Trap(TrapKind::NoSuchHandle));
    };
    if socket.has_streams() {
        return Err(SocketError::Trap(TrapKind::StreamsAlive));
    }
    let answer = socket.begin_streams(world, ids.own(), remote)?;
    let call = StandingCall::UdpConnect {
        socket: place,
        handle,
    };
    Ok(store.stand(ids, call, answer))
}

/// Polls the connect of the UDP socket with this record number. If it is still pending it is
/// stored again.
fn reconnect<W: World>(
    store: &mut Store,
    world: &mut W,
    ids: Ids,
    place: RecordId,
    handle: Handle,
) -> Result<Answer<()>, SocketError>
    requires { (W.seen world.old).ended ≡ false }
    ensures asked { AsksFor (reconnect_udp_at store.old ids place handle
        (open_at store.old.records place)) (W.seen world.old) (W.seen world.new)
        (λ answer. (answer, store.new)) (host_outcome result) }
    ensures sides { KnowsSides (W.seen world.old) store.old
        → KnowsSides (W.seen world.new) store.new }
{
    let Some(socket) = find_mut::<OpenUdp>(&mut store.records, place) else {
        return Err(SocketError::Trap(TrapKind::NoSuchHandle));
    };
    let answer = socket.poll_connect(world)?;
    let call = StandingCall::UdpConnect {
        socket: place,
        handle,
    };
    Ok(store.stand(ids, call, answer))
}

/// Makes the handles of the streams under that of their socket, the incoming one first.
fn mark_streams<W: World>(
    store: &Store,
    table: &mut Table<Kind>,
    world: &mut W,
    own: OpId,
    handle: Handle,
) -> Result<Answer<(Handle, Handle)>, SocketError>
    requires { (W.seen world.old).ended ≡ false }
    ensures asked { AsksFor (mark_streams (record { table = table.old; store = store.now }) own
        handle) (W.seen world.old) (W.seen world.new)
        (λ answer. (answer, record { table = table.new; store = store.now }))
        (host_outcome result) }
    ensures sides { KnowsSides (W.seen world.old) store.now
        → KnowsSides (W.seen world.new) store.now }
{
    let place = handles::udp_socket(table, handle)?;
    let side = udp_side(store, place);
    let kind = Kind::Incoming(place);
    let incoming = handles::make(table, world, own, kind, Some(handle), side)?;
    let kind = Kind::Outgoing(place);
    let outgoing = handles::make(table, world, own, kind, Some(handle), side)?;
    Ok(Answer::Ready((incoming, outgoing)))
}

/// Permits datagrams on the outgoing stream of the UDP socket with this record number, and
/// returns how many (`check-send`): 16, or none while the last one isn't sent yet. Asks
/// nothing. Takes no memory.
pub fn check_send(store: &mut Store, place: RecordId) -> Result<u64, SocketError>
    ensures sides { (s : Seen) → KnowsSides s store.old → KnowsSides s store.new }
    ensures answer { host_outcome result
        ≡ Ok (check_send_at store.old place (open_at store.old.records place)).0 }
    ensures state { store.new ≡ (check_send_at store.old place
        (open_at store.old.records place)).1 }
{
    let Some(socket) = find_mut::<OpenUdp>(&mut store.records, place) else {
        return Err(SocketError::Trap(TrapKind::NoSuchHandle));
    };
    let Some(outgoing) = &mut socket.outgoing else {
        return Err(SocketError::Trap(TrapKind::NoSuchHandle));
    };
    Ok(u64::from(outgoing.check_send()))
}

/// Sends datagrams on the outgoing stream of the UDP socket with this record number, no more
/// than its permit (`send`). One that isn't sent at once is a job.
pub fn send_datagrams<W: World>(
    store: &mut Store,
    world: &mut W,
    ids: &mut Ids,
    place: RecordId,
    datagrams: Vec<OutgoingDatagram>,
) -> Result<u64, SocketError>
    requires open { (W.seen world.old).ended ≡ false }
    requires names { ids.old.next_part + 255 < 2 ^ 64 }
    ensures asked { AsksFor (send_datagrams_at store.old ids.old place datagrams.items
        (open_at store.old.records place)) (W.seen world.old) (W.seen world.new)
        (λ sent. (sent, store.new)) (host_outcome result) }
    ensures line { ids.new.line ≡ ids.old.line }
    ensures parts { RoseUpTo 255 ids.old ids.new }
    ensures sides { KnowsSides (W.seen world.old) store.old
        → KnowsSides (W.seen world.new) store.new }
{
    let slot = store.records.slot_of(place);
    let Some(socket) = find_mut_in::<OpenUdp>(&mut store.records, slot, place) else {
        return Err(SocketError::Trap(TrapKind::NoSuchHandle));
    };
    // The job comes first, so that a datagram in the background has its job whatever memory
    // there is.
    store.jobs.push(HostJob::Datagram { socket: place }, slot)?;
    let before = socket.sends();
    let sent = socket.send_datagrams(world, ids, datagrams);
    let begins = !before && socket.sends();
    keep_job(&mut store.jobs, begins);
    sent
}

/// Takes datagrams from the incoming stream of the UDP socket with this record number
/// (`receive`): at most this many, at most 16, and until their lengths, with one more for each,
/// reach 65,536. A code is returned where no datagram comes before it, and dropped else. A
/// receive that is in progress then is a job.
///
/// Out of memory the datagrams that this call took are lost, and no others, and the socket is
/// otherwise as it was; the next one's receive wasn't begun, or it stays in progress.
pub fn receive_datagrams<W: World>(
    store: &mut Store,
    alloc: Global,
    world: &mut W,
    ids: &mut Ids,
    place: RecordId,
    most: u64,
) -> Result<IncomingDatagrams, SocketError>
    requires open { (W.seen world.old).ended ≡ false }
    requires names { ids.old.next_part + 16 < 2 ^ 64 }
    ensures asked { AsksFor (receive_datagrams_at store.old ids.old place most
        (open_at store.old.records place)) (W.seen world.old) (W.seen world.new)
        (λ received. (received, store.new)) (host_outcome result) }
    ensures line { ids.new.line ≡ ids.old.line }
    ensures parts { RoseUpTo 16 ids.old ids.new }
    ensures lost { OnErr (host_outcome result) (StoreLoses most ids.old place store.old store.new
        (open_at store.old.records place) (W.seen world.old) (W.seen world.new)) }
    ensures sides { KnowsSides (W.seen world.old) store.old
        → KnowsSides (W.seen world.new) store.new }
{
    let slot = store.records.slot_of(place);
    let Some(socket) = find_mut_in::<OpenUdp>(&mut store.records, slot, place) else {
        return Err(SocketError::Trap(TrapKind::NoSuchHandle));
    };
    // The job comes first, so that a receive in progress has its job whatever memory there is.
    store.jobs.push(HostJob::Receive { socket: place }, slot)?;
    let before = socket.receives();
    let received = socket.receive_datagrams(alloc, world, ids, most);
    let begins = !before && socket.receives();
    keep_job(&mut store.jobs, begins);
    received
}

/// Whether the incoming stream of the UDP socket with this record number has something to take,
/// a datagram or a code. Begins a receive where there is none, which is a job while it is in
/// progress.
pub fn incoming_ready<W: World>(
    store: &mut Store,
    world: &mut W,
    ids: &mut Ids,
    place: RecordId,
) -> Result<bool, Fault>
    requires open { (W.seen world.old).ended ≡ false }
    requires names { ids.old.next_part + 1 < 2 ^ 64 }
    ensures asked { AsksFor (ready_incoming_at store.old ids.old place
        (open_at store.old.records place)) (W.seen world.old) (W.seen world.new)
        (λ ready. (ready, store.new)) (fault_outcome result) }
    ensures ids { TakesOne ids.old ids.new }
    ensures names { IfOk (fault_outcome result) (λ ready. ids.new
        ≡ incoming_names ids.old (open_at store.old.records place)) }
    ensures sides { KnowsSides (W.seen world.old) store.old
        → KnowsSides (W.seen world.new) store.new }
{
    let slot = store.records.slot_of(place);
    let Some(socket) = find_mut_in::<OpenUdp>(&mut store.records, slot, place) else {
        return Err(Fault::Trap(TrapKind::NoSuchHandle));
    };
    // The job comes first, so that a receive in progress has its job whatever memory there is.
    store.jobs.push(HostJob::Receive { socket: place }, slot)?;
    let before = socket.receives();
    let looked = socket.look_incoming(world, ids);
    let waits = socket.receives();
    keep_job(&mut store.jobs, !before && waits);
    looked?;
    Ok(!waits)
}

/// Drops the incoming stream of the UDP socket with this record number, and gives its receive
/// up. Takes no memory.
pub fn drop_incoming(store: &mut Store, place: RecordId)
    ensures sides { (s : Seen) → KnowsSides s store.old → KnowsSides s store.new }
    ensures state { store.new ≡ (drop_incoming_at store.old place
        (open_at store.old.records place)).1 }
{
    if let Some(socket) = find_mut::<OpenUdp>(&mut store.records, place) {
        socket.incoming = None;
        store.forget_receives(place);
    }
}

/// Drops the outgoing stream of the UDP socket with this record number. While a datagram of it
/// isn't sent yet, the drop is pending, under the line of these names.
pub fn drop_outgoing(store: &mut Store, ids: Ids, place: RecordId) -> Answer<()>
    ensures sides { (s : Seen) → KnowsSides s store.old → KnowsSides s store.new }
    ensures dropped { (result, store.new) ≡ drop_outgoing_at store.old ids place
        (open_at store.old.records place) }
{
    let Some(socket) = find_mut::<OpenUdp>(&mut store.records, place) else {
        return Answer::Ready(());
    };
    if socket.sends() {
        let call = StandingCall::DropOutgoing { socket: place };
        return store.stand(ids, call, Answer::Pending);
    }
    socket.outgoing = None;
    Answer::Ready(())
}

/// Whether the outgoing stream of the UDP socket with this record number has no send in
/// progress. Takes no memory.
pub fn outgoing_ready(store: &Store, place: RecordId) -> bool
    ensures { result ≡ outgoing_ready (open_at store.now.records place) }
{
    match find::<OpenUdp>(&store.records, place) {
        Some(socket) => !socket.sends(),
        None => true,
    }
}
