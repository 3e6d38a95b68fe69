//! What of a TCP socket goes with its handles.

ghost use Rattle.std.specs.Prelude.{◌≡◌, false, Ok};
ghost use Rattle.wasi_world.specs.Asks.{AsksFor};
ghost use Rattle.tcp_records.specs.Holding.{drop_listener_asks, drop_socket_asks};
ghost use Rattle.wasi_records.specs.Records.{tcp2_at};
ghost use Rattle.host_tcp.specs.Dropping.{release_at, let_go_at, wait_at, drop_output_at, released};
ghost use Rattle.host_store.specs.KnownSides.{KnowsSides};

use host_store::{StandingCall, Store};
use std::alloc::AllocError;
use tcp_records::TcpRecord;
use wasi_records::{RecordId, find_mut};
use wasi_world::{Answer, Ids, OpId, World};

/// Releases what the TCP socket with this record number has: its listener, its open halves, the
/// receiving one first, and its network socket. A write in progress ends with its rest
/// unwritten. The record is given back.
pub fn tcp_release<W: World>(
    store: &mut Store,
    world: &mut W,
    op: OpId,
    place: RecordId,
) -> Result<(), AllocError>
    requires { (W.seen world.old).ended ≡ false }
    ensures asked { AsksFor (release_at store.old op place (tcp2_at store.old.records place))
        (W.seen world.old) (W.seen world.new) (λ done. (done, store.new)) result }
    ensures sides { KnowsSides (W.seen world.old) store.old
        → KnowsSides (W.seen world.new) store.new }
{
    let Some(record) = find_mut::<TcpRecord>(&mut store.records, place) else {
        return Ok(());
    };
    record.release(world, op)?;
    store.give_back(place);
    Ok(())
}

/// Drops the handle of 0.3 of the TCP socket with this record number. Where nothing else holds
/// its network socket it is released, and the record is given back.
pub fn tcp_drop<W: World>(
    store: &mut Store,
    world: &mut W,
    op: OpId,
    place: RecordId,
) -> Result<(), AllocError>
    requires { (W.seen world.old).ended ≡ false }
    ensures asked { AsksFor (let_go_at store.old place (drop_socket_asks op)
        (tcp2_at store.old.records place)) (W.seen world.old) (W.seen world.new)
        (λ done. (done, store.new)) result }
    ensures sides { KnowsSides (W.seen world.old) store.old
        → KnowsSides (W.seen world.new) store.new }
{
    let Some(record) = find_mut::<TcpRecord>(&mut store.records, place) else {
        return Ok(());
    };
    if record.drop_socket(world, op)? {
        store.give_back(place);
        return Ok(());
    }
    Ok(())
}

/// Drops the listener of the TCP socket with this record number. Where nothing else holds the
/// network socket it is released, and the record is given back.
pub fn drop_listener<W: World>(
    store: &mut Store,
    world: &mut W,
    op: OpId,
    place: RecordId,
) -> Result<(), AllocError>
    requires { (W.seen world.old).ended ≡ false }
    ensures asked { AsksFor (let_go_at store.old place (drop_listener_asks op)
        (tcp2_at store.old.records place)) (W.seen world.old) (W.seen world.new)
        (λ done. (done, store.new)) result }
    ensures sides { KnowsSides (W.seen world.old) store.old
        → KnowsSides (W.seen world.new) store.new }
{
    let Some(record) = find_mut::<TcpRecord>(&mut store.records, place) else {
        return Ok(());
    };
    if record.drop_listener(world, op)? {
        store.give_back(place);
        return Ok(());
    }
    Ok(())
}

/// Looks once whether the writer of the TCP socket with this record number is ready. While it
/// isn't, the drop of its output is pending, under the line of these names.
pub fn drop_output<W: World>(
    store: &mut Store,
    world: &mut W,
    ids: Ids,
    place: RecordId,
) -> Result<Answer<()>, AllocError>
    requires { (W.seen world.old).ended ≡ false }
    ensures asked { AsksFor (drop_output_at store.old ids place (tcp2_at store.old.records place))
        (W.seen world.old) (W.seen world.new) (λ answer. (answer, store.new)) result }
    ensures sides { KnowsSides (W.seen world.old) store.old
        → KnowsSides (W.seen world.new) store.new }
{
    let answer = poll_writer(store, world, ids.own(), place)?;
    Ok(store.stand(ids, StandingCall::DropOutput { socket: place }, answer))
}

/// Looks once at the writer of the TCP socket with this record number; an error is ready, too.
fn poll_writer<W: World>(
    store: &mut Store,
    world: &mut W,
    op: OpId,
    place: RecordId,
) -> Result<Answer<()>, AllocError>
    requires { (W.seen world.old).ended ≡ false }
    ensures asked { AsksFor (wait_at store.old op place (tcp2_at store.old.records place))
        (W.seen world.old) (W.seen world.new) (λ answer. (answer, store.new)) result }
    ensures sides { KnowsSides (W.seen world.old) store.old
        → KnowsSides (W.seen world.new) store.new }
{
    let Some(record) = find_mut::<TcpRecord>(&mut store.records, place) else {
        return Ok(Answer::Ready(()));
    };
    record.poll_writer(world, op)
}
