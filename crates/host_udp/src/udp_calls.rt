//! The calls on a UDP socket, by the number of its record.

ghost use Rattle.std.specs.Prelude.{◌≡◌, ◌≤◌, false, IfOk, Ok, OnErr, Some};
ghost use Rattle.wasi_world.specs.Asks.{AsksFor};
ghost use Rattle.wasi_world.specs.Seen.{Seen};
ghost use Rattle.socket_common.specs.Options.{largest_value, option_of, number_of};
ghost use Rattle.record_common.specs.Stops.{host_outcome};
ghost use Rattle.wasi_records.specs.Records.{open_at, udp2_at};
ghost use Rattle.host_store.specs.KnownSides.{KnowsSides};
ghost use Rattle.host_udp.specs.UdpCalls.{start_udp_bind_at, finish_udp_bind_at, udp_local_at, udp_remote_at, udp_family_at, get_udp_option_at, set_udp_option_at, release_udp_at, udp_left};
ghost use Rattle.host_store.specs.BaseStops.{ends_as};
ghost use Rattle.host_udp.specs.UdpCreates.{create_udp_asks, create_udp, create_on, mark_udp, poll_create_at, udp_side_at};

use host_store::{
    Interface, Kind, Standing, StandingCall, Store, StoreError, handles, named, unnamed,
};
use record_common::SocketError;
use socket_common::Setting;
use std::alloc::AllocError;
use udp_records::{OpenUdp, PendingCreate, UdpInProgress, UdpRecord};
use wasi_addr::{IpSocketAddress, SocketAddressFamily, p2};
use wasi_records::{Record, RecordId, find, find_mut};
use wasi_table::Table;
use wasi_udp::UdpSocket;
use wasi_world::{Answer, Handle, Ids, OpId, Opt, Sock, TrapKind, WasiSocketsCtx, World};

/// Begins to create a UDP socket of 0.2 and polls that once (`create-udp-socket`); see
/// [`create_udp`](Store::create_udp).
pub fn create_udp_socket<W: World>(
    store: &mut Store,
    table: &mut Table<Kind>,
    world: &mut W,
    ids: Ids,
    ctx: &WasiSocketsCtx,
    family: SocketAddressFamily,
) -> Result<Answer<Handle>, SocketError>
    requires { (W.seen world.old).ended ≡ false }
    ensures asked { AsksFor (create_udp_asks (record { table = table.old; store = store.old })
        ids ctx.now family) (W.seen world.old) (W.seen world.new)
        (λ answer. (answer, record { table = table.new; store = store.new }))
        (host_outcome result) }
    ensures sides { KnowsSides (W.seen world.old) store.old
        → KnowsSides (W.seen world.new) store.new }
{
    named(create_udp(store, table, world, ids, ctx, family, Interface::P2))
}

/// Begins to create a UDP socket of this interface and polls that once. Takes memory for the
/// record before the network socket is made, so that every network socket has a record, also
/// where no handle can be made for it.
pub fn create_udp<W: World>(
    store: &mut Store,
    table: &mut Table<Kind>,
    world: &mut W,
    ids: Ids,
    ctx: &WasiSocketsCtx,
    family: SocketAddressFamily,
    interface: Interface,
) -> Result<Answer<Handle>, StoreError>
    requires { (W.seen world.old).ended ≡ false }
    ensures asked { AsksFor (create_udp interface (record {
      table = table.old;
      store = store.old;
    }) ids ctx.now family) (W.seen world.old) (W.seen world.new)
        (λ answer. (answer, record { table = table.new; store = store.new })) (ends_as result) }
    ensures sides { KnowsSides (W.seen world.old) store.old
        → KnowsSides (W.seen world.new) store.new }
{
    store.records.reserve()?;
    let create = unnamed(UdpSocket::new(world, ids.own(), ctx, family))?;
    let place = store.records.len();
    let creating = UdpRecord::Creating(PendingCreate::new(create));
    store.records.push_reserved(Record::Udp(creating));
    create_on(store, table, world, ids, place, interface)
}

/// Polls the create in the record with this number. Pending, it is the pending call; done, the
/// socket gets its handle in this interface.
pub fn create_on<W: World>(
    store: &mut Store,
    table: &mut Table<Kind>,
    world: &mut W,
    ids: Ids,
    place: RecordId,
    interface: Interface,
) -> Result<Answer<Handle>, StoreError>
    requires { (W.seen world.old).ended ≡ false }
    ensures asked { AsksFor (create_on interface (record {
      table = table.old;
      store = store.old;
    }) ids place) (W.seen world.old) (W.seen world.new)
        (λ answer. (answer, record { table = table.new; store = store.new })) (ends_as result) }
    ensures sides { KnowsSides (W.seen world.old) store.old
        → KnowsSides (W.seen world.new) store.new }
{
    match poll_create(store, world, place)? {
        Answer::Pending => {
            let call = StandingCall::UdpCreate {
                socket: place,
                interface,
            };
            store.standing = Some(Standing { ids, call });
            Ok(Answer::Pending)
        }
        Answer::Ready(()) => make_udp_handle(store, table, world, place, interface),
    }
}

/// Makes the handle of the UDP socket with this record number in this interface. It is logged
/// under the name of the create, which is the network socket's name, too.
fn make_udp_handle<W: World>(
    store: &Store,
    table: &mut Table<Kind>,
    world: &mut W,
    place: RecordId,
    interface: Interface,
) -> Result<Answer<Handle>, StoreError>
    requires { (W.seen world.old).ended ≡ false }
    ensures asked { AsksFor (mark_udp interface (record {
      table = table.old;
      store = store.now;
    }) place (udp2_at store.now.records place)) (W.seen world.old) (W.seen world.new)
        (λ answer. (answer, record { table = table.new; store = store.now })) (ends_as result) }
    ensures sides { KnowsSides (W.seen world.old) store.now
        → KnowsSides (W.seen world.new) store.now }
{
    let Some(side) = udp_side(store, place) else {
        return Err(StoreError::Trap(TrapKind::NoSuchHandle));
    };
    let kind = interface.udp_kind(place);
    let handle = handles::make(table, world, side, kind, None, Some(side))?;
    Ok(Answer::Ready(handle))
}

/// Polls the create in the record with this number once. Refused, the record is given back.
fn poll_create<W: World>(
    store: &mut Store,
    world: &mut W,
    place: RecordId,
) -> Result<Answer<()>, StoreError>
    requires { (W.seen world.old).ended ≡ false }
    ensures asked { AsksFor (poll_create_at store.old place (udp2_at store.old.records place))
        (W.seen world.old) (W.seen world.new) (λ answer. (answer, store.new))
        (ends_as result) }
    ensures sides { KnowsSides (W.seen world.old) store.old
        → KnowsSides (W.seen world.new) store.new }
{
    let Some(record) = find_mut::<UdpRecord>(&mut store.records, place) else {
        return Err(StoreError::Trap(TrapKind::NoSuchHandle));
    };
    match record.poll_create(world) {
        Ok(answer) => Ok(answer),
        Err(refusal) => {
            leave_udp(store, place);
            unnamed(Err(refusal))
        }
    }
}

/// The network socket that the UDP socket with this record number was made with.
pub fn udp_side(store: &Store, place: RecordId) -> Option<Sock>
    ensures { result ≡ udp_side_at (udp2_at store.now.records place) }
{
    Some(find::<UdpRecord>(&store.records, place)?.side())
}

/// Begins a bind of the UDP socket with this record number (`start-bind`). An operation in
/// progress: `ConcurrencyConflict`. A live datagram stream: `InvalidState`. While its check is
/// pending it is the pending call.
pub fn start_udp_bind<W: World>(
    store: &mut Store,
    world: &mut W,
    ids: Ids,
    place: RecordId,
    addr: IpSocketAddress,
) -> Result<Answer<()>, SocketError>
    requires { (W.seen world.old).ended ≡ false }
    ensures asked { AsksFor (start_udp_bind_at store.old ids place addr
        (open_at store.old.records place)) (W.seen world.old) (W.seen world.new)
        (λ answer. (answer, store.new)) (host_outcome result) }
    ensures sides { KnowsSides (W.seen world.old) store.old
        → KnowsSides (W.seen world.new) store.new }
{
    let Some(socket) = find_mut::<OpenUdp>(&mut store.records, place) else {
        return Err(SocketError::Trap(TrapKind::NoSuchHandle));
    };
    if !socket.in_progress.is_nothing() {
        return Err(SocketError::Code(p2::ErrorCode::ConcurrencyConflict));
    }
    if socket.has_streams() {
        return Err(SocketError::Code(p2::ErrorCode::InvalidState));
    }
    let answer = socket.begin_bind(world, ids.own(), addr)?;
    let call = StandingCall::UdpBind {
        socket: place,
        interface: Interface::P2,
    };
    Ok(store.stand(ids, call, answer))
}

/// Finishes the bind that was started (`finish-bind`). None was: `NotInProgress`.
pub fn finish_udp_bind(store: &mut Store, place: RecordId) -> Result<(), SocketError>
    ensures sides { (s : Seen) → KnowsSides s store.old → KnowsSides s store.new }
    ensures answer { host_outcome result
        ≡ Ok (finish_udp_bind_at store.old place (open_at store.old.records place)).0 }
    ensures state { store.new ≡ (finish_udp_bind_at store.old place
        (open_at store.old.records place)).1 }
{
    let Some(socket) = find_mut::<OpenUdp>(&mut store.records, place) else {
        return Err(SocketError::Trap(TrapKind::NoSuchHandle));
    };
    if !socket.in_progress.is_bound() {
        return Err(SocketError::Code(p2::ErrorCode::NotInProgress));
    }
    socket.in_progress = UdpInProgress::Nothing;
    Ok(())
}

/// The local address of the UDP socket with this record number. Not bound: `InvalidState`.
pub fn udp_local_address<W: World>(
    store: &mut Store,
    world: &mut W,
    op: OpId,
    place: RecordId,
) -> Result<IpSocketAddress, SocketError>
    requires { (W.seen world.old).ended ≡ false }
    ensures asked { AsksFor (udp_local_at store.old op place (open_at store.old.records place))
        (W.seen world.old) (W.seen world.new) (λ told. (told, store.new)) (host_outcome result) }
    ensures sides { KnowsSides (W.seen world.old) store.old
        → KnowsSides (W.seen world.new) store.new }
{
    let Some(socket) = find_mut::<OpenUdp>(&mut store.records, place) else {
        return Err(SocketError::Trap(TrapKind::NoSuchHandle));
    };
    let addr = socket.local_address(world, op)?;
    Ok(addr)
}

/// The remote address of the UDP socket with this record number. None: `InvalidState`. Asks
/// nothing.
pub fn udp_remote_address(store: &Store, place: RecordId) -> Result<IpSocketAddress, SocketError>
    ensures { host_outcome result ≡ Ok (udp_remote_at (open_at store.now.records place)) }
{
    let Some(socket) = find::<OpenUdp>(&store.records, place) else {
        return Err(SocketError::Trap(TrapKind::NoSuchHandle));
    };
    match socket.inner.remote_address() {
        Ok(addr) => Ok(addr),
        Err(code) => Err(SocketError::Code(p2::ErrorCode::from_code(code))),
    }
}

/// The family of the UDP socket with this record number.
pub fn udp_address_family(
    store: &Store,
    place: RecordId,
) -> Result<SocketAddressFamily, SocketError>
    ensures { host_outcome result ≡ Ok (udp_family_at (open_at store.now.records place)) }
{
    match find::<OpenUdp>(&store.records, place) {
        Some(socket) => Ok(socket.inner.address_family()),
        None => Err(SocketError::Trap(TrapKind::NoSuchHandle)),
    }
}

/// Reads an option of the UDP socket with this record number (`UdpSocket::get_option`).
pub fn get_udp_option<W: World>(
    store: &Store,
    world: &mut W,
    op: OpId,
    place: RecordId,
    option: Opt,
) -> Result<u64, SocketError>
    requires { (W.seen world.old).ended ≡ false }
    ensures asked { AsksFor (get_udp_option_at store.now op option
        (open_at store.now.records place)) (W.seen world.old) (W.seen world.new)
        (λ told. (told, store.now)) (host_outcome result) }
    ensures within { IfOk result (λ value. value ≤ largest_value option) }
    ensures sides { KnowsSides (W.seen world.old) store.now
        → KnowsSides (W.seen world.new) store.now }
{
    let Some(socket) = find::<OpenUdp>(&store.records, place) else {
        return Err(SocketError::Trap(TrapKind::NoSuchHandle));
    };
    let value = socket.inner.get_option(world, op, option)?;
    Ok(value)
}

/// Sets an option of the UDP socket with this record number (`UdpSocket::set_option`). The
/// records stay as they were.
pub fn set_udp_option<W: World>(
    store: &mut Store,
    world: &mut W,
    op: OpId,
    place: RecordId,
    setting: Setting,
) -> Result<(), SocketError>
    requires { (W.seen world.old).ended ≡ false }
    ensures asked { AsksFor (set_udp_option_at store.old op (option_of setting)
        (number_of setting) (open_at store.old.records place)) (W.seen world.old)
        (W.seen world.new) (λ told. (told, store.new)) (host_outcome result) }
    ensures sides { KnowsSides (W.seen world.old) store.old
        → KnowsSides (W.seen world.new) store.new }
{
    let Some(socket) = find_mut::<OpenUdp>(&mut store.records, place) else {
        return Err(SocketError::Trap(TrapKind::NoSuchHandle));
    };
    socket.inner.set_option(world, op, setting)?;
    Ok(())
}

/// Closes the network socket of the UDP socket with this record number, as its drop does, and
/// gives the record back.
pub fn release_udp<W: World>(
    store: &mut Store,
    world: &mut W,
    op: OpId,
    place: RecordId,
) -> Result<(), AllocError>
    requires { (W.seen world.old).ended ≡ false }
    ensures asked { AsksFor (release_udp_at store.old op place (udp2_at store.old.records place))
        (W.seen world.old) (W.seen world.new) (λ done. (done, store.new)) result }
    ensures exclusive { store.new.standing ≡ store.old.standing }
    ensures err { OnErr result (store.new ≡ store.old) }
    ensures unasked { OnErr result (W.seen world.new ≡ W.seen world.old) }
    ensures sides { KnowsSides (W.seen world.old) store.old
        → KnowsSides (W.seen world.new) store.new }
{
    let Some(record) = find_mut::<UdpRecord>(&mut store.records, place) else {
        return Ok(());
    };
    record.close(world, op)?;
    leave_udp(store, place);
    Ok(())
}

/// Gives back the record of the UDP socket with this number, if its network socket is closed.
fn leave_udp(store: &mut Store, place: RecordId)
    ensures exclusive { store.new.standing ≡ store.old.standing }
    ensures state { (u : UdpRecord) → udp2_at store.old.records place ≡ Some u
        → store.new ≡ udp_left store.old place u }
    ensures sides { (s : Seen) → KnowsSides s store.old → KnowsSides s store.new }
{
    let Some(socket) = find::<UdpRecord>(&store.records, place) else {
        return;
    };
    let UdpRecord::Closed(_) = socket else {
        return;
    };
    store.give_back(place);
}
