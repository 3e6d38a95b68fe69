//! Listens of 0.3, and the accepts of their listeners.

ghost use Rattle.std.specs.Prelude.{◌≡◌, ◌+◌, ◌<◌, ◌^◌, false, IfOk};
ghost use Rattle.wasi_world.specs.Asks.{AsksFor, outcome};
ghost use Rattle.tcp_records.specs.Listening.{TakesOne};
ghost use Rattle.wasi_records.specs.Records.{tcp2_at};
ghost use Rattle.tcp_records.specs.Sides.{Balances};
ghost use Rattle.record_common.specs.Sides.{no_socket};
ghost use Rattle.host_store.specs.BaseStops.{ends_as};
ghost use Rattle.host_tcp.specs.Listens.{listens, relistens, listen_in, relisten_in, make_listener, listen_of, relisten_of, look_accept, accept_in};
ghost use Rattle.host_tcp.specs.TcpCalls.{accept_ids_at};
ghost use Rattle.host_store.specs.KnownSides.{KnowsSides};

use crate::binding::leave_bound;
use host_store::{Interface, Kind, StandingCall, Store, StoreError, handles, unnamed};
use tcp_records::TcpRecord;
use wasi_addr::ErrorCode;
use wasi_records::{Record, RecordId, find_mut};
use wasi_table::Table;
use wasi_world::{Answer, Handle, Ids, OpId, Refusal, TrapKind, World};

/// Begins a listen and polls it once. Done, it leaves nothing in progress: no call finishes it.
fn listen<W: World>(record: &mut TcpRecord, world: &mut W, op: OpId) -> Result<Answer<()>, Refusal>
    requires { (W.seen world.old).ended ≡ false }
    ensures asked { AsksFor (listens op record.old) (W.seen world.old) (W.seen world.new)
        (λ answer. (answer, record.new)) (outcome result) }
    ensures sides { Balances (W.seen world.old) (W.seen world.new) no_socket record.old
        record.new }
{
    let answer = record.listen_once(world, op)?;
    leave_bound(record, Interface::P3, answer);
    Ok(answer)
}

/// Polls the listen in progress once, likewise.
fn relisten<W: World>(record: &mut TcpRecord, world: &mut W) -> Result<Answer<()>, Refusal>
    requires { (W.seen world.old).ended ≡ false }
    ensures asked { AsksFor (relistens record.old) (W.seen world.old) (W.seen world.new)
        (λ answer. (answer, record.new)) (outcome result) }
    ensures sides { Balances (W.seen world.old) (W.seen world.new) no_socket record.old
        record.new }
{
    let answer = record.poll_listen(world)?;
    leave_bound(record, Interface::P3, answer);
    Ok(answer)
}

/// Makes the TCP socket with this record number listen (`listen` of 0.3), and makes the handle
/// of its listener under that of the socket. While it is pending it is the pending call.
pub fn listen_tcp<W: World>(
    store: &mut Store,
    table: &mut Table<Kind>,
    world: &mut W,
    ids: Ids,
    place: RecordId,
    handle: Handle,
) -> Result<Answer<Handle>, StoreError>
    requires { (W.seen world.old).ended ≡ false }
    ensures asked { AsksFor (listen_of ids handle place (record {
      table = table.old;
      store = store.old;
    })) (W.seen world.old) (W.seen world.new)
        (λ answer. (answer, record { table = table.new; store = store.new })) (ends_as result) }
    ensures sides { KnowsSides (W.seen world.old) store.old
        → KnowsSides (W.seen world.new) store.new }
{
    match begin_listen(store, world, ids, place, handle)? {
        Answer::Ready(()) => make_listener(store, table, world, ids.own(), handle),
        Answer::Pending => Ok(Answer::Pending),
    }
}

/// Polls the listen of the TCP socket with this record number, likewise. If it is still pending
/// it is stored again.
pub fn relisten_tcp<W: World>(
    store: &mut Store,
    table: &mut Table<Kind>,
    world: &mut W,
    ids: Ids,
    place: RecordId,
    handle: Handle,
) -> Result<Answer<Handle>, StoreError>
    requires { (W.seen world.old).ended ≡ false }
    ensures asked { AsksFor (relisten_of ids handle place (record {
      table = table.old;
      store = store.old;
    })) (W.seen world.old) (W.seen world.new)
        (λ answer. (answer, record { table = table.new; store = store.new })) (ends_as result) }
    ensures sides { KnowsSides (W.seen world.old) store.old
        → KnowsSides (W.seen world.new) store.new }
{
    match poll_listen(store, world, ids, place, handle)? {
        Answer::Ready(()) => make_listener(store, table, world, ids.own(), handle),
        Answer::Pending => Ok(Answer::Pending),
    }
}

/// Begins a listen of the TCP socket with this record number and polls it once.
fn begin_listen<W: World>(
    store: &mut Store,
    world: &mut W,
    ids: Ids,
    place: RecordId,
    handle: Handle,
) -> Result<Answer<()>, StoreError>
    requires { (W.seen world.old).ended ≡ false }
    ensures asked { AsksFor (listen_in ids handle place store.old) (W.seen world.old)
        (W.seen world.new) (λ answer. (answer, store.new)) (ends_as result) }
    ensures sides { KnowsSides (W.seen world.old) store.old
        → KnowsSides (W.seen world.new) store.new }
{
    let Some(record) = find_mut::<TcpRecord>(&mut store.records, place) else {
        return Err(StoreError::Trap(TrapKind::NoSuchHandle));
    };
    if !record.in_progress.is_nothing() {
        return Err(StoreError::Code(ErrorCode::InvalidState));
    }
    let answer = unnamed(listen(record, world, ids.own()))?;
    let call = StandingCall::Listen {
        socket: place,
        handle: Some(handle),
    };
    Ok(store.stand(ids, call, answer))
}

/// Polls the listen of the TCP socket with this record number once.
fn poll_listen<W: World>(
    store: &mut Store,
    world: &mut W,
    ids: Ids,
    place: RecordId,
    handle: Handle,
) -> Result<Answer<()>, StoreError>
    requires { (W.seen world.old).ended ≡ false }
    ensures asked { AsksFor (relisten_in ids handle place store.old) (W.seen world.old)
        (W.seen world.new) (λ answer. (answer, store.new)) (ends_as result) }
    ensures sides { KnowsSides (W.seen world.old) store.old
        → KnowsSides (W.seen world.new) store.new }
{
    let Some(record) = find_mut::<TcpRecord>(&mut store.records, place) else {
        return Err(StoreError::Trap(TrapKind::NoSuchHandle));
    };
    let answer = unnamed(relisten(record, world))?;
    let call = StandingCall::Listen {
        socket: place,
        handle: Some(handle),
    };
    Ok(store.stand(ids, call, answer))
}

/// Makes the handle of the listener of the socket that this handle names. Its mark has this
/// name, and the handle as its parent.
fn make_listener<W: World>(
    store: &Store,
    table: &mut Table<Kind>,
    world: &mut W,
    own: OpId,
    handle: Handle,
) -> Result<Answer<Handle>, StoreError>
    requires { (W.seen world.old).ended ≡ false }
    ensures asked { AsksFor (make_listener own handle (record {
      table = table.old;
      store = store.now;
    })) (W.seen world.old) (W.seen world.new)
        (λ answer. (answer, record { table = table.new; store = store.now })) (ends_as result) }
    ensures sides { KnowsSides (W.seen world.old) store.now
        → KnowsSides (W.seen world.new) store.now }
{
    let place = handles::tcp3_socket(table, handle)?;
    let side = store.side(place);
    let kind = Kind::Listen3(place);
    let listener = handles::make(table, world, own, kind, Some(handle), side)?;
    Ok(Answer::Ready(listener))
}

/// Looks whether the listener of the TCP socket with this record number has something to give,
/// which it keeps.
pub fn look_accept<W: World>(
    store: &mut Store,
    world: &mut W,
    ids: &mut Ids,
    place: RecordId,
) -> Result<Answer<()>, StoreError>
    requires open { (W.seen world.old).ended ≡ false }
    requires names { ids.old.next_part + 1 < 2 ^ 64 }
    ensures asked { AsksFor (look_accept ids.old place store.old) (W.seen world.old)
        (W.seen world.new) (λ answer. (answer, store.new)) (ends_as result) }
    ensures sides { KnowsSides (W.seen world.old) store.old
        → KnowsSides (W.seen world.new) store.new }
    ensures names { ids.new ≡ accept_ids_at ids.old (tcp2_at store.old.records place) }
{
    let Some(record) = find_mut::<TcpRecord>(&mut store.records, place) else {
        return Err(StoreError::Trap(TrapKind::NoSuchHandle));
    };
    unnamed(record.look_accept(world, ids))
}

/// Accepts a connection of the listener of the TCP socket with this record number, and returns
/// the number of the record of its socket; that of a fault is closed with its code. Takes memory
/// for the record before anything is asked, so that every connection that is handed over has a
/// record. Nothing has arrived that the check allows: pending. Not a listener: `InvalidState`.
pub fn accept_tcp<W: World>(
    store: &mut Store,
    world: &mut W,
    ids: &mut Ids,
    place: RecordId,
) -> Result<Answer<RecordId>, StoreError>
    requires open { (W.seen world.old).ended ≡ false }
    requires names { ids.old.next_part + 1 < 2 ^ 64 }
    ensures asked { AsksFor (accept_in ids.old place store.old) (W.seen world.old)
        (W.seen world.new) (λ accepted. (accepted, store.new)) (ends_as result) }
    ensures sides { KnowsSides (W.seen world.old) store.old
        → KnowsSides (W.seen world.new) store.new }
    ensures ids { TakesOne ids.old ids.new }
    ensures names { IfOk (ends_as result) (λ answer. ids.new
        ≡ accept_ids_at ids.old (tcp2_at store.old.records place)) }
{
    store.records.reserve()?;
    let Some(record) = find_mut::<TcpRecord>(&mut store.records, place) else {
        return Err(StoreError::Trap(TrapKind::NoSuchHandle));
    };
    let answer = unnamed(record.poll_accept(world, ids))?;
    match answer {
        Answer::Pending => Ok(Answer::Pending),
        Answer::Ready(socket) => {
            let accepted = store.records.len();
            store
                .records
                .push_reserved(Record::Tcp(TcpRecord::new(socket)));
            Ok(Answer::Ready(accepted))
        }
    }
}
