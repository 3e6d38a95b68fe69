//! Binds of TCP sockets of 0.3, and how a bind of either interface that was pending goes on.

ghost use Rattle.std.specs.Prelude.{◌≡◌, false};
ghost use Rattle.wasi_world.specs.Asks.{AsksFor};
ghost use Rattle.host_store.specs.BaseStops.{ends_as};
ghost use Rattle.host_tcp.specs.Binds.{bound_as, bind_of, rebind_of};
ghost use Rattle.host_store.specs.KnownSides.{KnowsSides};

use host_store::{Interface, StandingCall, Store, StoreError, unnamed};
use tcp_records::{InProgress, TcpRecord};
use wasi_addr::IpSocketAddress;
use wasi_records::{RecordId, find_mut};
use wasi_world::{Answer, Ids, TrapKind, World};

/// Leaves nothing in progress where a bind of 0.3 is done: no call finishes it there.
pub(crate) fn leave_bound(record: &mut TcpRecord, interface: Interface, answer: Answer<()>)
    ensures { record.new ≡ bound_as interface answer record.old }
{
    match (interface, answer) {
        (Interface::P3, Answer::Ready(())) => record.in_progress = InProgress::Nothing,
        (Interface::P3, Answer::Pending) | (Interface::P2, _) => (),
    }
}

/// Binds the TCP socket with this record number (`bind` of 0.3). While its check is pending it
/// is the pending call; once it is done nothing is in progress.
pub fn bind_tcp<W: World>(
    store: &mut Store,
    world: &mut W,
    ids: Ids,
    place: RecordId,
    addr: IpSocketAddress,
) -> Result<Answer<()>, StoreError>
    requires { (W.seen world.old).ended ≡ false }
    ensures asked { AsksFor (bind_of ids place addr store.old) (W.seen world.old)
        (W.seen world.new) (λ answer. (answer, store.new)) (ends_as result) }
    ensures sides { KnowsSides (W.seen world.old) store.old
        → KnowsSides (W.seen world.new) store.new }
{
    let Some(record) = find_mut::<TcpRecord>(&mut store.records, place) else {
        return Err(StoreError::Trap(TrapKind::NoSuchHandle));
    };
    let answer = unnamed(record.begin_bind(world, ids.own(), addr))?;
    leave_bound(record, Interface::P3, answer);
    let call = StandingCall::Bind {
        socket: place,
        interface: Interface::P3,
    };
    Ok(store.stand(ids, call, answer))
}

/// Polls the bind of the TCP socket with this record number, for this interface. If it is still
/// pending it is stored again.
pub fn tcp_rebind<W: World>(
    store: &mut Store,
    world: &mut W,
    ids: Ids,
    place: RecordId,
    interface: Interface,
) -> Result<Answer<()>, StoreError>
    requires { (W.seen world.old).ended ≡ false }
    ensures asked { AsksFor (rebind_of interface ids place store.old) (W.seen world.old)
        (W.seen world.new) (λ answer. (answer, store.new)) (ends_as result) }
    ensures sides { KnowsSides (W.seen world.old) store.old
        → KnowsSides (W.seen world.new) store.new }
{
    let Some(record) = find_mut::<TcpRecord>(&mut store.records, place) else {
        return Err(StoreError::Trap(TrapKind::NoSuchHandle));
    };
    let answer = unnamed(record.poll_bind(world))?;
    leave_bound(record, interface, answer);
    let call = StandingCall::Bind {
        socket: place,
        interface,
    };
    Ok(store.stand(ids, call, answer))
}
