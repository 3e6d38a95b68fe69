//! The options of a socket, and its backlog, by the number of its record.

ghost use Rattle.std.specs.Prelude.{◌≡◌, ◌≤◌, false, IfOk};
ghost use Rattle.wasi_world.specs.Asks.{AsksFor};
ghost use Rattle.socket_common.specs.Options.{largest_value, option_of, number_of};
ghost use Rattle.wasi_records.specs.Records.{tcp2_at};
ghost use Rattle.record_common.specs.Stops.{host_outcome};
ghost use Rattle.host_store.specs.KnownSides.{KnowsSides};
ghost use Rattle.host_tcp.specs.Options.{get_option_at, set_option_at, set_backlog_at};

use host_store::Store;
use record_common::SocketError;
use tcp_records::TcpRecord;
use wasi_records::{RecordId, find, find_mut};
use wasi_tcp::Setting;
use wasi_world::{OpId, Opt, TrapKind, World};

/// Reads an option of the TCP socket with this record number (`TcpSocket::get_option`).
pub fn tcp_get_option<W: World>(
    store: &Store,
    world: &mut W,
    op: OpId,
    place: RecordId,
    option: Opt,
) -> Result<u64, SocketError>
    requires { (W.seen world.old).ended ≡ false }
    ensures asked { AsksFor (get_option_at store.now op option (tcp2_at store.now.records place))
        (W.seen world.old) (W.seen world.new) (λ told. (told, store.now)) (host_outcome result) }
    ensures within { IfOk result (λ value. value ≤ largest_value option) }
    ensures sides { KnowsSides (W.seen world.old) store.now
        → KnowsSides (W.seen world.new) store.now }
{
    let Some(record) = find::<TcpRecord>(&store.records, place) else {
        return Err(SocketError::Trap(TrapKind::NoSuchHandle));
    };
    let value = record.inner.get_option(world, op, option)?;
    Ok(value)
}

/// Sets an option of the TCP socket with this record number (`TcpSocket::set_option`). The
/// records stay as they were.
pub fn tcp_set_option<W: World>(
    store: &mut Store,
    world: &mut W,
    op: OpId,
    place: RecordId,
    setting: Setting,
) -> Result<(), SocketError>
    requires { (W.seen world.old).ended ≡ false }
    ensures asked { AsksFor (set_option_at store.old op (option_of setting) (number_of setting)
        (tcp2_at store.old.records place)) (W.seen world.old) (W.seen world.new)
        (λ told. (told, store.new)) (host_outcome result) }
    ensures sides { KnowsSides (W.seen world.old) store.old
        → KnowsSides (W.seen world.new) store.new }
{
    let Some(record) = find_mut::<TcpRecord>(&mut store.records, place) else {
        return Err(SocketError::Trap(TrapKind::NoSuchHandle));
    };
    record.inner.set_option(world, op, setting)?;
    Ok(())
}

/// Sets the backlog of the TCP socket with this record number
/// (`TcpSocket::set_listen_backlog_size`).
pub fn set_backlog<W: World>(
    store: &mut Store,
    world: &mut W,
    op: OpId,
    place: RecordId,
    value: u64,
) -> Result<(), SocketError>
    requires { (W.seen world.old).ended ≡ false }
    ensures asked { AsksFor (set_backlog_at store.old op place value
        (tcp2_at store.old.records place)) (W.seen world.old) (W.seen world.new)
        (λ told. (told, store.new)) (host_outcome result) }
    ensures sides { KnowsSides (W.seen world.old) store.old
        → KnowsSides (W.seen world.new) store.new }
{
    let Some(record) = find_mut::<TcpRecord>(&mut store.records, place) else {
        return Err(SocketError::Trap(TrapKind::NoSuchHandle));
    };
    record.inner.set_listen_backlog_size(world, op, value)?;
    Ok(())
}
