//! Connects of 0.3, which stand beside other calls while they are pending.

ghost use Rattle.std.specs.Prelude.{◌≡◌, List, [], ◌∷◌, ◌++◌, OnErr, false};
ghost use Rattle.wasi_world.specs.Asks.{AsksFor, outcome};
ghost use Rattle.tcp_records.specs.Sides.{Balances};
ghost use Rattle.record_common.specs.Sides.{no_socket};
ghost use Rattle.host_store.specs.BaseStops.{ends_as};
ghost use Rattle.host_store.specs.Beside.{begun_beside, polled_beside};
ghost use Rattle.host_tcp.specs.Connects.{connects, reconnects, connect_of, reconnect_of};
ghost use Rattle.host_store.specs.KnownSides.{KnowsSides};
ghost use Rattle.host_store.specs.declared.beside.Beside.{Beside};

use host_store::{Beside, BesideCall, BesideList, Store, StoreError, unnamed};
use tcp_records::TcpRecord;
use wasi_addr::{ErrorCode, IpSocketAddress};
use wasi_records::{RecordId, find_mut};
use wasi_world::{Answer, Ids, OpId, Refusal, TrapKind, World};

/// Keeps the call that was added last where it is pending, and takes it out else.
fn keep_begun(calls: &mut BesideList, connected: &Result<Answer<()>, Refusal>)
    ensures { (before : List Beside) (last : Beside) → calls.old ≡ before ++ last ∷ []
        → calls.new ≡ begun_beside before last connected.now }
{
    match connected {
        Ok(Answer::Pending) => {}
        Ok(Answer::Ready(())) | Err(_) => calls.withdraw(),
    }
}

/// Keeps the call with this number where it is pending still, and takes it out where it is over.
fn keep_polled(calls: &mut BesideList, line: u32, connected: &Result<Answer<()>, Refusal>)
    ensures { calls.new ≡ polled_beside calls.old line connected.now }
{
    match connected {
        Ok(Answer::Pending) | Err(Refusal::Memory(_)) => {}
        Ok(Answer::Ready(())) | Err(Refusal::Code(_)) => calls.remove(line),
    }
}

/// Begins a connect of a TCP socket, and polls it at once.
fn connect<W: World>(
    record: &mut TcpRecord,
    world: &mut W,
    op: OpId,
    addr: IpSocketAddress,
) -> Result<Answer<()>, Refusal>
    requires { (W.seen world.old).ended ≡ false }
    ensures asked { AsksFor (connects op addr record.old) (W.seen world.old) (W.seen world.new)
        (λ answer. (answer, record.new)) (outcome result) }
    ensures sides { Balances (W.seen world.old) (W.seen world.new) no_socket record.old
        record.new }
{
    record.inner.start_connect(world, op, addr)?;
    reconnect(record, world)
}

/// Polls the connect of a TCP socket.
fn reconnect<W: World>(record: &mut TcpRecord, world: &mut W) -> Result<Answer<()>, Refusal>
    requires { (W.seen world.old).ended ≡ false }
    ensures asked { AsksFor (reconnects record.old) (W.seen world.old) (W.seen world.new)
        (λ answer. (answer, record.new)) (outcome result) }
    ensures sides { Balances (W.seen world.old) (W.seen world.new) no_socket record.old
        record.new }
{
    record.inner.poll_finish_connect(world)
}

/// Connects the TCP socket with this record number (`connect` of 0.3). An operation in
/// progress: `InvalidState`. While it is pending it stands beside other calls.
pub fn connect_tcp<W: World>(
    store: &mut Store,
    world: &mut W,
    ids: Ids,
    place: RecordId,
    addr: IpSocketAddress,
) -> Result<Answer<()>, StoreError>
    requires { (W.seen world.old).ended ≡ false }
    ensures asked { AsksFor (connect_of ids.line place addr store.old) (W.seen world.old)
        (W.seen world.new) (λ answer. (answer, store.new)) (ends_as result) }
    ensures sides { KnowsSides (W.seen world.old) store.old
        → KnowsSides (W.seen world.new) store.new }
{
    let Some(record) = find_mut::<TcpRecord>(&mut store.records, place) else {
        return Err(StoreError::Trap(TrapKind::NoSuchHandle));
    };
    if !record.in_progress.is_nothing() {
        return Err(StoreError::Code(ErrorCode::InvalidState));
    }
    // The call comes before the first ask, so that a connect that is pending has its call
    // whatever memory there is.
    store.beside.push(Beside {
        line: ids.line,
        call: BesideCall::Connect { socket: place },
    })?;
    let connected = connect(record, world, ids.own(), addr);
    keep_begun(&mut store.beside, &connected);
    unnamed(connected)
}

/// Polls the connect of the TCP socket with this record number, which is pending under this
/// number. A socket that is gone: the trap `NoSuchHandle`. If it is pending still, and out of
/// memory, it keeps its place beside other calls.
pub fn reconnect_tcp<W: World>(
    store: &mut Store,
    world: &mut W,
    line: u32,
    place: RecordId,
) -> Result<Answer<()>, StoreError>
    requires { (W.seen world.old).ended ≡ false }
    ensures asked { AsksFor (reconnect_of line place store.old) (W.seen world.old)
        (W.seen world.new) (λ answer. (answer, store.new)) (ends_as result) }
    ensures exclusive { store.new.standing ≡ store.old.standing }
    ensures stays { OnErr (ends_as result) (store.new.beside ≡ store.old.beside) }
    ensures sides { KnowsSides (W.seen world.old) store.old
        → KnowsSides (W.seen world.new) store.new }
{
    let Some(record) = find_mut::<TcpRecord>(&mut store.records, place) else {
        store.beside.remove(line);
        return Err(StoreError::Trap(TrapKind::NoSuchHandle));
    };
    let connected = reconnect(record, world);
    keep_polled(&mut store.beside, line, &connected);
    unnamed(connected)
}
