//! One poll of an end of a 0.3 connection's streams.

ghost use Rattle.std.specs.Prelude.{◌≡◌, ◌≤◌, ◌<◌, ◌^◌, [], length, false};
ghost use Rattle.wasi_world.specs.Asks.{AsksFor, outcome};
ghost use Rattle.tcp_records.specs.Ends.{half_of, receive_half, send_half, look_to_read, look_to_write, read_by_half, write_by_half};
ghost use Rattle.wasi_records.specs.Records.{tcp2_at};
ghost use Rattle.host_store.specs.BaseStops.{ends_as};
ghost use Rattle.host_tcp.specs.EndPolls.{ends_by, looked, not_yet, read_end, read_told, write_end, write_told};
ghost use Rattle.host_store.specs.KnownSides.{KnowsSides};

use crate::connection_ends::close_end;
use host_store::{ConnectionEnd, Store, StoreError};
use std::alloc::{AllocError, Global};
use tcp_records::{StreamResult, TcpRecord};
use wasi_addr::{ErrorCode, ShutdownType};
use wasi_records::{RecordId, find_mut};
use wasi_world::{Answer, Octets, OpId, Refusal, World};

/// How many bytes one read of 0.3 asks for at most.
const MOST_READ: usize = 8192;

/// How many bytes one write of 0.3 offers at most.
const MOST_WRITTEN: usize = 4294967295;

/// What a poll of an end answers where nothing can be done yet: one that is the last gives up.
pub fn not_yet<V>(finish: bool) -> Answer<StreamResult<V>>
    ensures { result ≡ not_yet finish }
{
    if finish {
        Answer::Ready(StreamResult::Cancelled)
    } else {
        Answer::Pending
    }
}

/// What a look at an end answers, whose half may be gone.
fn looked<V: Drop>(finish: bool, nothing: V, answer: Option<Answer<()>>) -> Answer<StreamResult<V>>
    ensures { result ≡ looked finish nothing answer }
{
    match answer {
        Some(Answer::Ready(())) => Answer::Ready(StreamResult::Completed(nothing)),
        Some(Answer::Pending) => not_yet(finish),
        None => Answer::Ready(StreamResult::Dropped),
    }
}

/// No bytes.
fn nothing(alloc: Global) -> Octets
    ensures { result ≡ [] }
{
    Octets::from_vec(Vec::new(alloc))
}

/// What a half answered, apart from running out of memory.
fn told<T: Drop>(answer: Result<T, Refusal>) -> Result<Result<T, ErrorCode>, AllocError>
    ensures { result ≡ outcome answer }
{
    match answer {
        Ok(value) => Ok(Ok(value)),
        Err(Refusal::Code(code)) => Ok(Err(code)),
        Err(Refusal::Memory(e)) => Err(e),
    }
}

/// Polls a read end: reads at most `len` bytes, and at most 8192. With `len` 0 it is only looked whether there are some. At the end of the stream
/// and at a fault the end is closed, and the answer is `Dropped`, as it is of an end that was
/// closed before. With nothing to be had a poll that is the last gives up.
pub fn poll_read_end<W: World>(
    store: &mut Store,
    alloc: Global,
    world: &mut W,
    op: OpId,
    end: ConnectionEnd,
    len: usize,
    finish: bool,
) -> Result<Answer<StreamResult<Octets>>, StoreError>
    requires { (W.seen world.old).ended ≡ false }
    ensures asked { AsksFor (read_end op finish len end store.old) (W.seen world.old)
        (W.seen world.new) (λ answer. (answer, store.new)) (ends_as result) }
    ensures sides { KnowsSides (W.seen world.old) store.old
        → KnowsSides (W.seen world.new) store.new }
{
    let Some(socket) = end.socket else {
        return Ok(Answer::Ready(StreamResult::Dropped));
    };
    if len == 0 {
        let answer = look_to_read(store, world, op, socket)?;
        return Ok(looked(finish, nothing(alloc), answer));
    }
    let most = len.min(MOST_READ);
    let answer = told(read_by_half(store, alloc, world, op, socket, most))?;
    after_read(store, world, op, end.slot, socket, finish, answer)
}

/// Whether there is something to read from the connection of the TCP socket with this record
/// number; `None` where its receiving half isn't open.
fn look_to_read<W: World>(
    store: &mut Store,
    world: &mut W,
    op: OpId,
    place: RecordId,
) -> Result<Option<Answer<()>>, AllocError>
    requires { (W.seen world.old).ended ≡ false }
    ensures asked { AsksFor (look_to_read op (half_of receive_half
        (tcp2_at store.old.records place))) (W.seen world.old) (W.seen world.new)
        (λ answer. answer) result }
    ensures same { store.new ≡ store.old }
{
    let Some(record) = find_mut::<TcpRecord>(&mut store.records, place) else {
        return Ok(None);
    };
    record.look_to_read(world, op)
}

/// Reads from it at most `size` bytes.
fn read_by_half<W: World>(
    store: &mut Store,
    alloc: Global,
    world: &mut W,
    op: OpId,
    place: RecordId,
    size: usize,
) -> Result<Option<Answer<Octets>>, Refusal>
    requires { (W.seen world.old).ended ≡ false }
    ensures asked { AsksFor (read_by_half op size (half_of receive_half
        (tcp2_at store.old.records place))) (W.seen world.old) (W.seen world.new)
        (λ answer. answer) (outcome result) }
    ensures same { store.new ≡ store.old }
{
    let Some(record) = find_mut::<TcpRecord>(&mut store.records, place) else {
        return Ok(None);
    };
    record.read_by_half(alloc, world, op, size)
}

/// What a poll of a read end makes of its read: no bytes are the end of the stream.
fn after_read<W: World>(
    store: &mut Store,
    world: &mut W,
    op: OpId,
    slot: RecordId,
    socket: RecordId,
    finish: bool,
    answer: Result<Option<Answer<Octets>>, ErrorCode>,
) -> Result<Answer<StreamResult<Octets>>, StoreError>
    requires { (W.seen world.old).ended ≡ false }
    ensures asked { AsksFor (read_told op finish slot socket answer store.old) (W.seen world.old)
        (W.seen world.new) (λ answer. (answer, store.new)) (ends_as result) }
    ensures sides { KnowsSides (W.seen world.old) store.old
        → KnowsSides (W.seen world.new) store.new }
{
    match answer {
        Ok(None) => Ok(Answer::Ready(StreamResult::Dropped)),
        Ok(Some(Answer::Pending)) => Ok(not_yet(finish)),
        Ok(Some(Answer::Ready(bytes))) => {
            if bytes.is_empty() {
                return end_by(
                    store,
                    world,
                    op,
                    ShutdownType::Receive,
                    slot,
                    socket,
                    Ok(()),
                );
            }
            Ok(Answer::Ready(StreamResult::Completed(bytes)))
        }
        Err(code) => end_by(
            store,
            world,
            op,
            ShutdownType::Receive,
            slot,
            socket,
            Err(code),
        ),
    }
}

/// The end meets its own end, or a fault: it is closed.
fn end_by<W: World, V>(
    store: &mut Store,
    world: &mut W,
    op: OpId,
    how: ShutdownType,
    slot: RecordId,
    socket: RecordId,
    ended: Result<(), ErrorCode>,
) -> Result<Answer<StreamResult<V>>, StoreError>
    requires { (W.seen world.old).ended ≡ false }
    ensures asked { AsksFor (ends_by op how slot socket ended store.old) (W.seen world.old)
        (W.seen world.new) (λ answer. (answer, store.new)) (ends_as result) }
    ensures sides { KnowsSides (W.seen world.old) store.old
        → KnowsSides (W.seen world.new) store.new }
{
    close_end(store, world, op, how, slot, socket, ended)?;
    Ok(Answer::Ready(StreamResult::Dropped))
}

/// Polls a write end: offers bytes, at most the first 4294967295 of them, and answers how many were taken. With no bytes it is only looked whether
/// some may be written. At a fault the end is closed, and the answer is `Dropped`, as it is of an
/// end that was closed before. Where none can be taken yet a poll that is the last gives up.
pub fn poll_write_end<W: World>(
    store: &mut Store,
    world: &mut W,
    op: OpId,
    end: ConnectionEnd,
    bytes: &[u8],
    finish: bool,
) -> Result<Answer<StreamResult<usize>>, StoreError>
    requires { (W.seen world.old).ended ≡ false }
    ensures asked { AsksFor (write_end op finish bytes.now end store.old) (W.seen world.old)
        (W.seen world.new) (λ answer. (answer, store.new)) (ends_as result) }
    ensures sides { KnowsSides (W.seen world.old) store.old
        → KnowsSides (W.seen world.new) store.new }
{
    let Some(socket) = end.socket else {
        return Ok(Answer::Ready(StreamResult::Dropped));
    };
    if bytes.is_empty() {
        let answer = look_to_write(store, world, op, socket)?;
        return Ok(looked(finish, 0, answer));
    }
    let most = MOST_WRITTEN.min(bytes.len());
    let answer = told(write_by_half(store, world, op, socket, &bytes[..most]))?;
    after_write(store, world, op, end.slot, socket, finish, answer)
}

/// Whether something may be written to the connection of the TCP socket with this record number;
/// `None` where its sending half isn't open.
fn look_to_write<W: World>(
    store: &mut Store,
    world: &mut W,
    op: OpId,
    place: RecordId,
) -> Result<Option<Answer<()>>, AllocError>
    requires { (W.seen world.old).ended ≡ false }
    ensures asked { AsksFor (look_to_write op (half_of send_half
        (tcp2_at store.old.records place))) (W.seen world.old) (W.seen world.new)
        (λ answer. answer) result }
    ensures same { store.new ≡ store.old }
{
    let Some(record) = find_mut::<TcpRecord>(&mut store.records, place) else {
        return Ok(None);
    };
    record.look_to_write(world, op)
}

/// Offers bytes to it, at least one.
fn write_by_half<W: World>(
    store: &mut Store,
    world: &mut W,
    op: OpId,
    place: RecordId,
    bytes: &[u8],
) -> Result<Option<Answer<usize>>, Refusal>
    requires open { (W.seen world.old).ended ≡ false }
    requires some { 1 ≤ length bytes.now }
    requires short { length bytes.now < 2 ^ 32 }
    ensures asked { AsksFor (write_by_half op bytes.now (half_of send_half
        (tcp2_at store.old.records place))) (W.seen world.old) (W.seen world.new)
        (λ answer. answer) (outcome result) }
    ensures same { store.new ≡ store.old }
{
    let Some(record) = find_mut::<TcpRecord>(&mut store.records, place) else {
        return Ok(None);
    };
    record.write_by_half(world, op, bytes)
}

/// What a poll of a write end makes of its write.
fn after_write<W: World>(
    store: &mut Store,
    world: &mut W,
    op: OpId,
    slot: RecordId,
    socket: RecordId,
    finish: bool,
    answer: Result<Option<Answer<usize>>, ErrorCode>,
) -> Result<Answer<StreamResult<usize>>, StoreError>
    requires { (W.seen world.old).ended ≡ false }
    ensures asked { AsksFor (write_told op finish slot socket answer store.old)
        (W.seen world.old) (W.seen world.new) (λ answer. (answer, store.new))
        (ends_as result) }
    ensures sides { KnowsSides (W.seen world.old) store.old
        → KnowsSides (W.seen world.new) store.new }
{
    match answer {
        Ok(None) => Ok(Answer::Ready(StreamResult::Dropped)),
        Ok(Some(Answer::Pending)) => Ok(not_yet(finish)),
        Ok(Some(Answer::Ready(count))) => Ok(Answer::Ready(StreamResult::Completed(count))),
        Err(code) => end_by(
            store,
            world,
            op,
            ShutdownType::Send,
            slot,
            socket,
            Err(code),
        ),
    }
}
