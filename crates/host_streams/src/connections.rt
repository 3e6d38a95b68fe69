//! The streams of a connection, by the number of its record.

ghost use Rattle.std.specs.Prelude.{◌≡◌, false, Some, ◌-◌, min};
ghost use Rattle.wasi_world.specs.Asks.{AsksFor};
ghost use Rattle.host_streams.specs.Blocking.{look_at};
ghost use Rattle.record_common.specs.Stops.{fault_outcome};
ghost use Rattle.wasi_records.specs.Records.{tcp2_at};
ghost use Rattle.host_store.specs.KnownSides.{KnowsSides};
ghost use Rattle.host_store.specs.Jobs.{write_at};
ghost use Rattle.host_store.specs.Store.{stream_at};
ghost use Rattle.tcp_records.specs.Halves.{reader_asks, writer_asks, flush_asks};
ghost use Rattle.wasi_streams.specs.StreamStop.{stream_outcome};
ghost use Rattle.wasi_tcp.specs.Reader.{read_state_asks};
ghost use Rattle.wasi_tcp.specs.Writer.{write_state_asks};
ghost use Rattle.host_store.specs.Limits.{check_record, most_at};

use host_store::{Store, keep_job, limit_of};
use std::alloc::Global;
use tcp_records::TcpRecord;
use wasi_jobs::HostJob;
use wasi_records::{RecordId, SlotKey, find, find_mut, find_mut_in};
use wasi_streams::{Fault, StreamError};
use wasi_world::{Octets, OpId, TrapKind, World};

/// The most bytes that a permit is of.
const MOST_PERMITTED: u64 = 65536;

/// Whether there is something to read from the connection of the TCP socket with this record
/// number.
pub fn input_ready<W: World>(
    store: &mut Store,
    world: &mut W,
    op: OpId,
    place: RecordId,
) -> Result<bool, Fault>
    requires { (W.seen world.old).ended ≡ false }
    ensures asked { AsksFor (look_at store.old op place (tcp2_at store.old.records place))
        (W.seen world.old) (W.seen world.new) (λ ready. (ready, store.new))
        (fault_outcome result) }
    ensures sides { KnowsSides (W.seen world.old) store.old
        → KnowsSides (W.seen world.new) store.new }
{
    let Some(record) = find_mut::<TcpRecord>(&mut store.records, place) else {
        return Err(Fault::Trap(TrapKind::NoSuchHandle));
    };
    record.input_ready(world, op)
}

/// How many bytes may be permitted to the writer of the TCP socket with this record number: as
/// many as the other writers of the context that made it leave of its limit, 65536 at most; none
/// where there is no such socket. Takes no memory.
fn most_for(store: &Store, slot: SlotKey, place: RecordId) -> usize
    ensures { result ≡ most_at store.now (tcp2_at store.now.records place) }
{
    let Some(record) = find::<TcpRecord>(&store.records, place) else {
        return 0;
    };
    let limit = limit_of(store.limits.as_slice(), record.maker).unwrap_or(0);
    let others = store.records.used_but(slot, place, record.maker);
    MOST_PERMITTED.min(limit.saturating_sub(others)) as usize
}

/// Reads from the connection of the TCP socket with this record number.
pub fn read<W: World>(
    store: &mut Store,
    alloc: Global,
    world: &mut W,
    op: OpId,
    place: RecordId,
    len: usize,
) -> Result<Octets, StreamError>
    requires { (W.seen world.old).ended ≡ false }
    ensures asked { AsksFor (stream_at store.old place (reader_asks
        (λ r. read_state_asks op r len)) (tcp2_at store.old.records place)) (W.seen world.old)
        (W.seen world.new) (λ answer. (answer, store.new)) (stream_outcome result) }
    ensures sides { KnowsSides (W.seen world.old) store.old
        → KnowsSides (W.seen world.new) store.new }
{
    let Some(record) = find_mut::<TcpRecord>(&mut store.records, place) else {
        return Err(StreamError::Trap(TrapKind::NoSuchHandle));
    };
    record.read(alloc, world, op, len)
}

/// The permit: how many bytes may be written to the connection of the TCP socket with this
/// record number. No more than the other writers of the context that made it leave of its limit.
pub fn check_write<W: World>(
    store: &mut Store,
    world: &mut W,
    op: OpId,
    place: RecordId,
) -> Result<usize, StreamError>
    requires { (W.seen world.old).ended ≡ false }
    ensures asked { AsksFor (stream_at store.old place (check_record store.old op)
        (tcp2_at store.old.records place)) (W.seen world.old) (W.seen world.new)
        (λ answer. (answer, store.new)) (stream_outcome result) }
    ensures sides { KnowsSides (W.seen world.old) store.old
        → KnowsSides (W.seen world.new) store.new }
{
    let slot = store.records.slot_of(place);
    let most = most_for(store, slot, place);
    let Some(record) = find_mut_in::<TcpRecord>(&mut store.records, slot, place) else {
        return Err(StreamError::Trap(TrapKind::NoSuchHandle));
    };
    record.check_write(world, op, most)
}

/// Writes bytes to the connection of the TCP socket with this record number. A write that is in
/// progress afterwards is a job.
pub fn write<W: World>(
    store: &mut Store,
    world: &mut W,
    op: OpId,
    place: RecordId,
    bytes: Octets,
) -> Result<(), StreamError>
    requires { (W.seen world.old).ended ≡ false }
    ensures asked { AsksFor (write_at store.old place (writer_asks
        (λ w. write_state_asks op w bytes)) (tcp2_at store.old.records place)) (W.seen world.old)
        (W.seen world.new) (λ answer. (answer, store.new)) (stream_outcome result) }
    ensures sides { KnowsSides (W.seen world.old) store.old
        → KnowsSides (W.seen world.new) store.new }
{
    let slot = store.records.slot_of(place);
    let Some(record) = find_mut_in::<TcpRecord>(&mut store.records, slot, place) else {
        return Err(StreamError::Trap(TrapKind::NoSuchHandle));
    };
    // The job comes before the write, so that a write in progress has its job whatever memory
    // there is.
    store.jobs.push(HostJob::Write { socket: place }, slot)?;
    let (written, begins) = record.write_noting(world, op, bytes);
    keep_job(&mut store.jobs, begins);
    written
}

/// Returns the error with which the writer of the TCP socket with this record number is closed,
/// if it is; asks nothing.
pub fn flush<W: World>(store: &mut Store, world: &mut W, place: RecordId) -> Result<(), StreamError>
    requires { (W.seen world.old).ended ≡ false }
    ensures asked { AsksFor (stream_at store.old place (writer_asks flush_asks)
        (tcp2_at store.old.records place)) (W.seen world.old) (W.seen world.new)
        (λ answer. (answer, store.new)) (stream_outcome result) }
    ensures sides { KnowsSides (W.seen world.old) store.old
        → KnowsSides (W.seen world.new) store.new }
{
    let Some(record) = find_mut::<TcpRecord>(&mut store.records, place) else {
        return Err(StreamError::Trap(TrapKind::NoSuchHandle));
    };
    record.flush(world)
}
