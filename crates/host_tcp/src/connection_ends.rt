//! The ends of the streams of a 0.3 connection, and their result slots.

ghost use Rattle.std.specs.Prelude.{◌≡◌, IfOk, false};
ghost use Rattle.wasi_world.specs.Asks.{AsksFor};
ghost use Rattle.wasi_world.specs.Seen.{Seen};
ghost use Rattle.tcp_records.specs.Ends.{take_receive_end, take_send_end};
ghost use Rattle.wasi_records.specs.Records.{tcp2_at};
ghost use Rattle.host_store.specs.BaseStops.{ends_as};
ghost use Rattle.host_tcp.specs.ConnectionEnds.{close_end, drop_end, drop_slot, end_of, fill, let_go, open_in, shut_at, take_end};
ghost use Rattle.host_store.specs.KnownSides.{KnowsSides};

use host_store::{ConnectionEnd, Store, StoreError};
use std::alloc::AllocError;
use tcp_records::{Slot, TcpRecord};
use wasi_addr::{ErrorCode, ShutdownType};
use wasi_records::{Record, RecordId, find, find_mut};
use wasi_world::{OpId, TrapKind, World};

/// The end of a half of the TCP socket with this record number, which was taken, or why not.
fn connection_end(place: RecordId, slot: RecordId, taken: Result<(), ErrorCode>) -> ConnectionEnd
    ensures { result ≡ end_of place slot taken }
{
    let socket = match taken {
        Ok(()) => Some(place),
        Err(_) => None,
    };
    ConnectionEnd { socket, slot }
}

/// Takes the receiving half of the connection of the TCP socket with this record number as a
/// read end, and makes its slot. Where it can't be taken the end is closed, and the slot has the
/// code.
pub fn take_receive_end(store: &mut Store, place: RecordId) -> Result<ConnectionEnd, StoreError>
    ensures taken { IfOk (ends_as result)
        (λ told. (told, store.new) ≡ take_end take_receive_end place store.old) }
    ensures sides { (s : Seen) → KnowsSides s store.old → KnowsSides s store.new }
{
    store.records.reserve()?;
    let slot = store.records.len();
    let Some(record) = find_mut::<TcpRecord>(&mut store.records, place) else {
        return Err(StoreError::Trap(TrapKind::NoSuchHandle));
    };
    let taken = record.take_receive_end();
    store.records.push_reserved(Record::Slot(Slot::new(taken)));
    Ok(connection_end(place, slot, taken))
}

/// Takes the sending half as a write end, likewise.
pub fn take_send_end(store: &mut Store, place: RecordId) -> Result<ConnectionEnd, StoreError>
    ensures taken { IfOk (ends_as result)
        (λ told. (told, store.new) ≡ take_end take_send_end place store.old) }
    ensures sides { (s : Seen) → KnowsSides s store.old → KnowsSides s store.new }
{
    store.records.reserve()?;
    let slot = store.records.len();
    let Some(record) = find_mut::<TcpRecord>(&mut store.records, place) else {
        return Err(StoreError::Trap(TrapKind::NoSuchHandle));
    };
    let taken = record.take_send_end();
    store.records.push_reserved(Record::Slot(Slot::new(taken)));
    Ok(connection_end(place, slot, taken))
}

/// The end of the slot with this record number is closed, and this became of the stream. Nobody
/// asks for it where the slot was dropped before.
fn fill(store: &mut Store, slot: RecordId, ended: Result<(), ErrorCode>)
    ensures state { store.new ≡ fill ended slot store.old }
    ensures sides { (s : Seen) → KnowsSides s store.old → KnowsSides s store.new }
{
    let Some(found) = find_mut::<Slot>(&mut store.records, slot) else {
        return;
    };
    found.fill(ended);
}

/// The slot with this record number goes, with its handle.
pub fn drop_slot(store: &mut Store, slot: RecordId)
    ensures state { store.new ≡ drop_slot slot store.old }
    ensures sides { (s : Seen) → KnowsSides s store.old → KnowsSides s store.new }
{
    let Some(_dropped) = find::<Slot>(&store.records, slot) else {
        return;
    };
    store.give_back(slot);
}

/// Releases one half of the connection of the TCP socket with this record number.
fn shut_half<W: World>(
    store: &mut Store,
    world: &mut W,
    op: OpId,
    how: ShutdownType,
    place: RecordId,
) -> Result<(), AllocError>
    requires { (W.seen world.old).ended ≡ false }
    ensures asked { AsksFor (shut_at op how place store.old (tcp2_at store.old.records place))
        (W.seen world.old) (W.seen world.new) (λ done. (done, store.new)) result }
    ensures sides { KnowsSides (W.seen world.old) store.old
        → KnowsSides (W.seen world.new) store.new }
{
    let Some(record) = find_mut::<TcpRecord>(&mut store.records, place) else {
        return Ok(());
    };
    record.shut_half(world, op, how)
}

/// Releases the network socket of the TCP socket with this record number, where nothing holds
/// it any more, and gives the record back.
fn let_go<W: World>(
    store: &mut Store,
    world: &mut W,
    op: OpId,
    place: RecordId,
) -> Result<(), AllocError>
    requires { (W.seen world.old).ended ≡ false }
    ensures asked { AsksFor (let_go op place store.old) (W.seen world.old) (W.seen world.new)
        (λ done. (done, store.new)) result }
    ensures sides { KnowsSides (W.seen world.old) store.old
        → KnowsSides (W.seen world.new) store.new }
{
    let Some(record) = find_mut::<TcpRecord>(&mut store.records, place) else {
        return Ok(());
    };
    if record.let_go(world, op)? {
        store.give_back(place);
        return Ok(());
    }
    Ok(())
}

/// Closes an end that is open by the TCP socket with this record number: its half is released,
/// its slot says what became of the stream, and the network socket is released with the last of
/// its holders. Out of memory after that the end is closed, and the network socket isn't
/// released.
pub(crate) fn close_end<W: World>(
    store: &mut Store,
    world: &mut W,
    op: OpId,
    how: ShutdownType,
    slot: RecordId,
    socket: RecordId,
    ended: Result<(), ErrorCode>,
) -> Result<(), AllocError>
    requires { (W.seen world.old).ended ≡ false }
    ensures asked { AsksFor (close_end op how slot socket ended store.old) (W.seen world.old)
        (W.seen world.new) (λ done. (done, store.new)) result }
    ensures sides { KnowsSides (W.seen world.old) store.old
        → KnowsSides (W.seen world.new) store.new }
{
    shut_half(store, world, op, how, socket)?;
    fill(store, slot, ended);
    let_go(store, world, op, socket)
}

/// Drops an end: one that is open is closed, and all went well with its stream.
pub fn drop_end<W: World>(
    store: &mut Store,
    world: &mut W,
    op: OpId,
    how: ShutdownType,
    end: ConnectionEnd,
) -> Result<(), AllocError>
    requires { (W.seen world.old).ended ≡ false }
    ensures asked { AsksFor (drop_end op how end store.old) (W.seen world.old)
        (W.seen world.new) (λ done. (done, store.new)) result }
    ensures sides { KnowsSides (W.seen world.old) store.old
        → KnowsSides (W.seen world.new) store.new }
{
    let Some(socket) = open_socket(store, how, end.socket) else {
        return Ok(());
    };
    close_end(store, world, op, how, end.slot, socket, Ok(()))
}

/// The record number of the socket whose half of this name is open; `None` where it isn't.
fn open_socket(store: &Store, how: ShutdownType, socket: Option<RecordId>) -> Option<RecordId>
    ensures { result ≡ open_in how store.now socket }
{
    let place = socket?;
    let record = find::<TcpRecord>(&store.records, place)?;
    if record.has_half(how) {
        return Some(place);
    }
    None
}
