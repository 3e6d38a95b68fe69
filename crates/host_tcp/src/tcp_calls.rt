//! The calls on a TCP socket, by the number of its record: bind, connect, listen, accept, its
//! addresses and its shutdown.

ghost use Rattle.std.specs.Prelude.{◌≡◌, None, Ok, false, ◌+◌, ◌<◌, ◌^◌, IfOk};
ghost use Rattle.wasi_world.specs.Asks.{AsksFor};
ghost use Rattle.wasi_records.specs.Records.{tcp2_at};
ghost use Rattle.record_common.specs.Stops.{host_outcome};
ghost use Rattle.host_tcp.specs.TcpCalls.{relisten_at, start_bind_at, finish_at, start_connect_at, start_listen_at, accept_at, accept_ids_at, shutdown_at};
ghost use Rattle.host_store.specs.KnownSides.{KnowsSides};
ghost use Rattle.wasi_world.specs.Seen.{Seen};
ghost use Rattle.tcp_records.specs.InProgress.{is_started};
ghost use Rattle.tcp_records.specs.Listening.{TakesOne};
ghost use Rattle.host_store.specs.Lines.{finish_connect_of, on_tcp, told_of};
ghost use Rattle.tcp_records.specs.Sockets.{tell_local_asks, tell_remote_asks};
ghost use Rattle.wasi_tcp.specs.Addresses.{is_listening};

use host_store::{Interface, StandingCall, Store};
use record_common::SocketError;
use tcp_records::{AsyncOperation, InProgress, TcpRecord};
use wasi_addr::{ErrorCode, IpSocketAddress, ShutdownType, SocketAddressFamily, p2};
use wasi_records::{RecordId, find, find_mut, keep_accepted};
use wasi_world::{Answer, Ids, OpId, TrapKind, World};

/// Polls the listen of the TCP socket with this record number. If it is still pending it is
/// stored again.
pub fn relisten<W: World>(
    store: &mut Store,
    world: &mut W,
    ids: Ids,
    place: RecordId,
) -> Result<Answer<()>, SocketError>
    requires { (W.seen world.old).ended ≡ false }
    ensures asked { AsksFor (relisten_at store.old ids place (tcp2_at store.old.records place))
        (W.seen world.old) (W.seen world.new) (λ answer. (answer, store.new))
        (host_outcome result) }
    ensures sides { KnowsSides (W.seen world.old) store.old
        → KnowsSides (W.seen world.new) store.new }
{
    let Some(record) = find_mut::<TcpRecord>(&mut store.records, place) else {
        return Err(SocketError::Trap(TrapKind::NoSuchHandle));
    };
    let answer = record.poll_listen(world)?;
    let call = StandingCall::Listen {
        socket: place,
        handle: None,
    };
    Ok(store.stand(ids, call, answer))
}

/// Begins a bind of the TCP socket with this record number (`start-bind`). An operation in
/// progress: `ConcurrencyConflict`. While its check is pending it is the pending call.
pub fn tcp_start_bind<W: World>(
    store: &mut Store,
    world: &mut W,
    ids: Ids,
    place: RecordId,
    addr: IpSocketAddress,
) -> Result<Answer<()>, SocketError>
    requires { (W.seen world.old).ended ≡ false }
    ensures asked { AsksFor (start_bind_at store.old ids place addr
        (tcp2_at store.old.records place)) (W.seen world.old) (W.seen world.new)
        (λ answer. (answer, store.new)) (host_outcome result) }
    ensures sides { KnowsSides (W.seen world.old) store.old
        → KnowsSides (W.seen world.new) store.new }
{
    let Some(record) = find_mut::<TcpRecord>(&mut store.records, place) else {
        return Err(SocketError::Trap(TrapKind::NoSuchHandle));
    };
    if !record.in_progress.is_nothing() {
        return Err(SocketError::Code(p2::ErrorCode::ConcurrencyConflict));
    }
    let answer = record.begin_bind(world, ids.own(), addr)?;
    let call = StandingCall::Bind {
        socket: place,
        interface: Interface::P2,
    };
    Ok(store.stand(ids, call, answer))
}

/// Finishes an operation that was started (`finish-bind`, `finish-listen`). It wasn't:
/// `NotInProgress`.
pub fn tcp_finish(
    store: &mut Store,
    place: RecordId,
    operation: AsyncOperation,
) -> Result<(), SocketError>
    ensures sides { (s : Seen) → KnowsSides s store.old → KnowsSides s store.new }
    ensures answer { host_outcome result
        ≡ Ok (finish_at (is_started operation) store.old place
        (tcp2_at store.old.records place)).0 }
    ensures state { store.new ≡ (finish_at (is_started operation) store.old place
        (tcp2_at store.old.records place)).1 }
{
    let Some(record) = find_mut::<TcpRecord>(&mut store.records, place) else {
        return Err(SocketError::Trap(TrapKind::NoSuchHandle));
    };
    if !record.in_progress.is_started(operation) {
        return Err(SocketError::Code(p2::ErrorCode::NotInProgress));
    }
    record.in_progress = InProgress::Nothing;
    Ok(())
}

/// Begins a connect of the TCP socket with this record number (`start-connect`). An operation
/// in progress: `ConcurrencyConflict`.
pub fn tcp_start_connect<W: World>(
    store: &mut Store,
    world: &mut W,
    op: OpId,
    place: RecordId,
    addr: IpSocketAddress,
) -> Result<(), SocketError>
    requires { (W.seen world.old).ended ≡ false }
    ensures asked { AsksFor (start_connect_at store.old op place addr
        (tcp2_at store.old.records place)) (W.seen world.old) (W.seen world.new)
        (λ done. (done, store.new)) (host_outcome result) }
    ensures sides { KnowsSides (W.seen world.old) store.old
        → KnowsSides (W.seen world.new) store.new }
{
    let Some(record) = find_mut::<TcpRecord>(&mut store.records, place) else {
        return Err(SocketError::Trap(TrapKind::NoSuchHandle));
    };
    if !record.in_progress.is_nothing() {
        return Err(SocketError::Code(p2::ErrorCode::ConcurrencyConflict));
    }
    record.begin_connect(world, op, addr)?;
    Ok(())
}

/// Polls the connect in progress of the TCP socket with this record number once
/// (`finish-connect`). None: `NotInProgress`. Pending: `WouldBlock`. Connected or refused, it
/// is in progress no more.
pub fn tcp_finish_connect<W: World>(
    store: &mut Store,
    world: &mut W,
    place: RecordId,
) -> Result<(), SocketError>
    requires { (W.seen world.old).ended ≡ false }
    ensures asked { AsksFor (finish_connect_of place store.old) (W.seen world.old)
        (W.seen world.new) (λ done. (done, store.new)) (host_outcome result) }
    ensures sides { KnowsSides (W.seen world.old) store.old
        → KnowsSides (W.seen world.new) store.new }
{
    let Some(record) = find_mut::<TcpRecord>(&mut store.records, place) else {
        return Err(SocketError::Trap(TrapKind::NoSuchHandle));
    };
    if !record.in_progress.is_started(AsyncOperation::Connect) {
        return Err(SocketError::Code(p2::ErrorCode::NotInProgress));
    }
    record.poll_connect(world)
}

/// The local address of the TCP socket with this record number.
pub fn tcp_local_address<W: World>(
    store: &mut Store,
    world: &mut W,
    op: OpId,
    place: RecordId,
) -> Result<IpSocketAddress, SocketError>
    requires { (W.seen world.old).ended ≡ false }
    ensures asked { AsksFor (on_tcp place (tell_local_asks op) store.old) (W.seen world.old)
        (W.seen world.new) (λ told. (told, store.new)) (host_outcome result) }
    ensures sides { KnowsSides (W.seen world.old) store.old
        → KnowsSides (W.seen world.new) store.new }
{
    let Some(record) = find_mut::<TcpRecord>(&mut store.records, place) else {
        return Err(SocketError::Trap(TrapKind::NoSuchHandle));
    };
    let addr = record.local_address(world, op)?;
    Ok(addr)
}

/// The remote address of the TCP socket with this record number.
pub fn tcp_remote_address<W: World>(
    store: &mut Store,
    world: &mut W,
    op: OpId,
    place: RecordId,
) -> Result<IpSocketAddress, SocketError>
    requires { (W.seen world.old).ended ≡ false }
    ensures asked { AsksFor (on_tcp place (tell_remote_asks op) store.old) (W.seen world.old)
        (W.seen world.new) (λ told. (told, store.new)) (host_outcome result) }
    ensures sides { KnowsSides (W.seen world.old) store.old
        → KnowsSides (W.seen world.new) store.new }
{
    let Some(record) = find_mut::<TcpRecord>(&mut store.records, place) else {
        return Err(SocketError::Trap(TrapKind::NoSuchHandle));
    };
    let addr = record.remote_address(world, op)?;
    Ok(addr)
}

/// Whether the TCP socket with this record number is listening.
pub fn is_listening(store: &Store, place: RecordId) -> Result<bool, SocketError>
    ensures { host_outcome result ≡ Ok (told_of (λ r. is_listening r.inner.state)
        (tcp2_at store.now.records place)) }
{
    match find::<TcpRecord>(&store.records, place) {
        Some(record) => Ok(record.inner.is_listening()),
        None => Err(SocketError::Trap(TrapKind::NoSuchHandle)),
    }
}

/// The family of the TCP socket with this record number.
pub fn tcp_address_family(
    store: &Store,
    place: RecordId,
) -> Result<SocketAddressFamily, SocketError>
    ensures { host_outcome result ≡ Ok (told_of (λ r. r.inner.family)
        (tcp2_at store.now.records place)) }
{
    match find::<TcpRecord>(&store.records, place) {
        Some(record) => Ok(record.inner.address_family()),
        None => Err(SocketError::Trap(TrapKind::NoSuchHandle)),
    }
}

/// Begins a listen of the TCP socket with this record number (`start-listen`). An operation in
/// progress: `ConcurrencyConflict`. While its check is pending it is the pending call.
pub fn start_listen<W: World>(
    store: &mut Store,
    world: &mut W,
    ids: Ids,
    place: RecordId,
) -> Result<Answer<()>, SocketError>
    requires { (W.seen world.old).ended ≡ false }
    ensures asked { AsksFor (start_listen_at store.old ids place
        (tcp2_at store.old.records place)) (W.seen world.old) (W.seen world.new)
        (λ answer. (answer, store.new)) (host_outcome result) }
    ensures sides { KnowsSides (W.seen world.old) store.old
        → KnowsSides (W.seen world.new) store.new }
{
    let Some(record) = find_mut::<TcpRecord>(&mut store.records, place) else {
        return Err(SocketError::Trap(TrapKind::NoSuchHandle));
    };
    if !record.in_progress.is_nothing() {
        return Err(SocketError::Code(p2::ErrorCode::ConcurrencyConflict));
    }
    let answer = record.begin_listen(world, ids.own())?;
    let call = StandingCall::Listen {
        socket: place,
        handle: None,
    };
    Ok(store.stand(ids, call, answer))
}

/// Accepts a connection of the listener with this record number (`accept`), and returns the
/// number of the record of its socket, which has its streams. Takes memory for the record
/// before anything is asked, so that every connection that is handed over has a record. Nothing
/// has arrived that the check allows: `WouldBlock`. Not a listener: `InvalidState`. The code of
/// a fault is returned.
pub fn accept<W: World>(
    store: &mut Store,
    world: &mut W,
    ids: &mut Ids,
    place: RecordId,
) -> Result<RecordId, SocketError>
    requires open { (W.seen world.old).ended ≡ false }
    requires names { ids.old.next_part + 1 < 2 ^ 64 }
    ensures asked { AsksFor (accept_at store.old ids.old place (tcp2_at store.old.records place))
        (W.seen world.old) (W.seen world.new) (λ accepted. (accepted, store.new))
        (host_outcome result) }
    ensures sides { KnowsSides (W.seen world.old) store.old
        → KnowsSides (W.seen world.new) store.new }
    ensures ids { TakesOne ids.old ids.new }
    ensures names { IfOk (host_outcome result) (λ answer. ids.new
        ≡ accept_ids_at ids.old (tcp2_at store.old.records place)) }
{
    store.records.reserve()?;
    let Some(record) = find_mut::<TcpRecord>(&mut store.records, place) else {
        return Err(SocketError::Trap(TrapKind::NoSuchHandle));
    };
    let answer = record.poll_accept(world, ids)?;
    match answer {
        Answer::Pending => Err(SocketError::Code(p2::ErrorCode::WouldBlock)),
        Answer::Ready(socket) => keep_accepted(&mut store.records, socket),
    }
}

/// Releases one half of the connection of the TCP socket with this record number, or both
/// (`shutdown`).
pub fn shutdown<W: World>(
    store: &mut Store,
    world: &mut W,
    op: OpId,
    place: RecordId,
    how: ShutdownType,
) -> Result<(), SocketError>
    requires { (W.seen world.old).ended ≡ false }
    ensures asked { AsksFor (shutdown_at store.old op how place (tcp2_at store.old.records place))
        (W.seen world.old) (W.seen world.new) (λ done. (done, store.new)) (host_outcome result) }
    ensures sides { KnowsSides (W.seen world.old) store.old
        → KnowsSides (W.seen world.new) store.new }
{
    let Some(record) = find_mut::<TcpRecord>(&mut store.records, place) else {
        return Err(SocketError::Trap(TrapKind::NoSuchHandle));
    };
    record.shutdown(world, op, how)
}
