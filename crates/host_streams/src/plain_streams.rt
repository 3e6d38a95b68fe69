//! Streams in memory: pipes, sinks, and streams that are closed. They ask nothing of the network.

ghost use Rattle.std.specs.Prelude.{◌≡◌, false, IfOk, OnErr, Ok};
ghost use Rattle.wasi_world.specs.Asks.{AsksFor};
ghost use Rattle.wasi_world.specs.Seen.{Seen};
ghost use Rattle.wasi_streams.specs.StreamStop.{stream_outcome};
ghost use Rattle.record_common.specs.Stops.{fault_outcome};
ghost use Rattle.host_store.specs.CallStops.{plain_outcome, call_outcome};
ghost use Rattle.host_store.specs.Machine.{own_of};
ghost use Rattle.host_streams.specs.PlainStreams.{read_plain, check_plain, write_pipe_at, write_plain, flush_plain, pipe_asks, input_pipe_asks, output_pipe_asks, plain_asks, contents_at, contents_asks, drop_plain_input, drop_plain_output};
ghost use Rattle.wasi_records.specs.Records.{output_pipe_at};
ghost use Rattle.host_store.specs.KnownSides.{KnowsSides};
ghost use Rattle.wasi_records.specs.Sides.{held_by};
ghost use Rattle.record_common.specs.Sides.{no_socket};
ghost use Rattle.host_store.specs.Views.{state_of, HostKept};

use bytes::Bytes;
use host_store::{CallError, Kind, PlainInput, PlainOutput, Store, WasiSocketsCtxView, handles};
use memory_streams::{InputPipeCore, OutputPipe};
use std::alloc::{AllocError, Global};
use wasi_records::{Record, find, find_mut};
use wasi_streams::{Fault, StreamError};
use wasi_table::Table;
use wasi_world::{Handle, Ids, Octets, OpId, TrapKind, World};

/// How many bytes a sink permits.
const SINK_PERMIT: usize = 65536;

/// The answer to the guest of a call of a stream in memory, which has no last operation that fails.
pub(crate) fn plain<T>(answer: Result<T, StreamError>) -> Result<T, CallError>
    ensures { call_outcome result ≡ plain_outcome answer }
{
    match answer {
        Ok(value) => Ok(value),
        Err(StreamError::LastOperationFailed(_)) => Err(CallError::Trap(TrapKind::NoSuchHandle)),
        Err(StreamError::Closed) => Err(CallError::Closed),
        Err(StreamError::Trap(kind)) => Err(CallError::Trap(kind)),
        Err(StreamError::Memory(e)) => Err(CallError::Memory(e)),
    }
}

/// Flushes an output in memory. Nothing is left to do, but a closed output is `Closed`.
pub(crate) fn flush_plain(output: PlainOutput) -> Result<(), StreamError>
    ensures { stream_outcome result ≡ Ok (flush_plain output) }
{
    match output {
        PlainOutput::Pipe(_) | PlainOutput::Sink => Ok(()),
        PlainOutput::Closed => Err(StreamError::Closed),
    }
}

/// Reads at most `len` bytes from an input in memory. Takes memory for them; out of memory
/// nothing changes.
pub(crate) fn read_plain(
    store: &mut Store,
    alloc: Global,
    input: PlainInput,
    len: usize,
) -> Result<Octets, StreamError>
    ensures given { IfOk (stream_outcome result) (λ answer. (answer, store.new)
        ≡ read_plain store.old input len) }
    ensures memory { OnErr (stream_outcome result) (store.new ≡ store.old) }
    ensures sides { (s : Seen) → KnowsSides s store.old → KnowsSides s store.new }
{
    let PlainInput::Pipe(place) = input else {
        return Err(StreamError::Closed);
    };
    let Some(pipe) = find_mut::<InputPipeCore>(&mut store.records, place) else {
        return Err(StreamError::Trap(TrapKind::NoSuchHandle));
    };
    pipe.read_octets(alloc, len)
}

/// How many bytes may be written to an output in memory.
pub(crate) fn check_plain(store: &Store, output: PlainOutput) -> Result<usize, StreamError>
    ensures { stream_outcome result ≡ Ok (check_plain store.now output) }
{
    match output {
        PlainOutput::Pipe(place) => match find::<OutputPipe>(&store.records, place) {
            Some(pipe) => pipe.check_write(),
            None => Err(StreamError::Trap(TrapKind::NoSuchHandle)),
        },
        PlainOutput::Sink => Ok(SINK_PERMIT),
        PlainOutput::Closed => Err(StreamError::Closed),
    }
}

/// Writes to an output in memory. Out of memory nothing changes.
pub(crate) fn write_plain(
    store: &mut Store,
    output: PlainOutput,
    bytes: &[u8],
) -> Result<(), StreamError>
    ensures given { IfOk (stream_outcome result) (λ answer. (answer, store.new)
        ≡ write_plain store.old output bytes.now) }
    ensures memory { OnErr (stream_outcome result) (store.new ≡ store.old) }
    ensures sides { (s : Seen) → KnowsSides s store.old → KnowsSides s store.new }
{
    match output {
        PlainOutput::Pipe(place) => write_pipe(store, place, bytes),
        PlainOutput::Sink => Ok(()),
        PlainOutput::Closed => Err(StreamError::Closed),
    }
}

/// Writes to the pipe with this record number. Takes memory for the bytes; out of memory
/// nothing changes.
fn write_pipe(store: &mut Store, place: usize, bytes: &[u8]) -> Result<(), StreamError>
    ensures given { IfOk (stream_outcome result) (λ answer. (answer, store.new)
        ≡ write_pipe_at store.old place bytes.now (output_pipe_at store.old.records place)) }
    ensures memory { OnErr (stream_outcome result) (store.new ≡ store.old) }
    ensures sides { (s : Seen) → KnowsSides s store.old → KnowsSides s store.new }
{
    let Some(pipe) = find_mut::<OutputPipe>(&mut store.records, place) else {
        return Err(StreamError::Trap(TrapKind::NoSuchHandle));
    };
    pipe.write(bytes)
}

/// Drops an input in memory: a pipe is given back with its bytes.
pub fn drop_plain_input(store: &mut Store, input: PlainInput)
    ensures state { store.new ≡ drop_plain_input store.old input }
    ensures sides { (s : Seen) → KnowsSides s store.old → KnowsSides s store.new }
{
    let PlainInput::Pipe(place) = input else {
        return;
    };
    let Some(_dropped) = find::<InputPipeCore>(&store.records, place) else {
        return;
    };
    store.give_back(place);
}

/// Drops an output in memory: a pipe is given back with its bytes.
pub fn drop_plain_output(store: &mut Store, output: PlainOutput)
    ensures state { store.new ≡ drop_plain_output store.old output }
    ensures sides { (s : Seen) → KnowsSides s store.old → KnowsSides s store.new }
{
    let PlainOutput::Pipe(place) = output else {
        return;
    };
    let Some(_dropped) = find::<OutputPipe>(&store.records, place) else {
        return;
    };
    store.give_back(place);
}

/// Makes the handle of a pipe, and then its record.
fn make_pipe<W: World>(
    store: &mut Store,
    table: &mut Table<Kind>,
    world: &mut W,
    own: OpId,
    kind: Kind,
    pipe: Record,
) -> Result<Handle, Fault>
    requires open { (W.seen world.old).ended ≡ false }
    requires holds_none { held_by pipe ≡ no_socket }
    ensures asked { AsksFor (pipe_asks (record { table = table.old; store = store.old }) own kind
        pipe) (W.seen world.old) (W.seen world.new) (λ made.
        (made, record { table = table.new; store = store.new })) (fault_outcome result) }
    ensures sides { KnowsSides (W.seen world.old) store.old
        → KnowsSides (W.seen world.new) store.new }
{
    store.records.reserve()?;
    let handle = handles::make(table, world, own, kind, None, None)?;
    store.records.push_reserved(pipe);
    Ok(handle)
}

/// Makes an input that reads these bytes, with its record.
fn input_pipe<W: World>(
    store: &mut Store,
    table: &mut Table<Kind>,
    world: &mut W,
    own: OpId,
    bytes: Octets,
) -> Result<Handle, Fault>
    requires { (W.seen world.old).ended ≡ false }
    ensures asked { AsksFor (input_pipe_asks (record { table = table.old; store = store.old })
        own bytes) (W.seen world.old) (W.seen world.new)
        (λ made. (made, record { table = table.new; store = store.new }))
        (fault_outcome result) }
    ensures sides { KnowsSides (W.seen world.old) store.old
        → KnowsSides (W.seen world.new) store.new }
{
    let chunk = chunk_of(bytes)?;
    let kind = Kind::PlainInput(PlainInput::Pipe(store.records.len()));
    let pipe = Record::InputPipe(InputPipeCore::new(chunk));
    make_pipe(store, table, world, own, kind, pipe)
}

/// Makes an output that keeps at most this many bytes, with its record.
fn output_pipe<W: World>(
    store: &mut Store,
    alloc: Global,
    table: &mut Table<Kind>,
    world: &mut W,
    own: OpId,
    capacity: usize,
) -> Result<Handle, Fault>
    requires { (W.seen world.old).ended ≡ false }
    ensures asked { AsksFor (output_pipe_asks (record { table = table.old; store = store.old })
        own capacity) (W.seen world.old) (W.seen world.new)
        (λ made. (made, record { table = table.new; store = store.new }))
        (fault_outcome result) }
    ensures sides { KnowsSides (W.seen world.old) store.old
        → KnowsSides (W.seen world.new) store.new }
{
    let kind = Kind::PlainOutput(PlainOutput::Pipe(store.records.len()));
    let pipe = Record::OutputPipe(OutputPipe::new(alloc, capacity));
    make_pipe(store, table, world, own, kind, pipe)
}

/// A copy of what was written to the pipe with this record number. Takes memory for it.
fn contents_of(store: &Store, alloc: Global, place: usize) -> Result<Octets, Fault>
    ensures { IfOk (fault_outcome result) (λ answer. answer
        ≡ contents_at (output_pipe_at store.now.records place)) }
{
    match find::<OutputPipe>(&store.records, place) {
        Some(pipe) => Ok(Octets::copy_of(alloc, pipe.contents())?),
        None => Err(Fault::Trap(TrapKind::NoSuchHandle)),
    }
}

/// The bytes as a chunk that can be cut without copying.
fn chunk_of(bytes: Octets) -> Result<Bytes, AllocError>
    ensures { IfOk result (λ chunk. chunk ≡ bytes) }
{
    Ok(Bytes::from_vec(bytes.into_vec())?)
}

/// Makes an input that reads these bytes, without copying them, and then is at its end
/// (`MemoryInputPipe` of the crate wasmtime-wasi, as an `input-stream`).
pub fn make_input_pipe<W: World>(
    view: &mut WasiSocketsCtxView<'_>,
    world: &mut W,
    ids: &mut Ids,
    bytes: Octets,
) -> Result<Handle, Fault>
    requires { (W.seen world.old).ended ≡ false }
    ensures asked { AsksFor (input_pipe_asks (state_of view.old) (own_of ids.old.line) bytes)
        (W.seen world.old) (W.seen world.new) (λ made. (made, state_of view.new))
        (fault_outcome result) }
    ensures kept { HostKept view.old view.new ids.old ids.new (W.seen world.old)
        (W.seen world.new) }
{
    input_pipe(view.store, view.table, world, ids.own(), bytes)
}

/// Makes an output that keeps what is written to it, at most this many bytes (`MemoryOutputPipe` of
/// the crate wasmtime-wasi, as an `output-stream`). Takes no memory for them yet.
pub fn make_output_pipe<W: World>(
    alloc: Global,
    view: &mut WasiSocketsCtxView<'_>,
    world: &mut W,
    ids: &mut Ids,
    capacity: usize,
) -> Result<Handle, Fault>
    requires { (W.seen world.old).ended ≡ false }
    ensures asked { AsksFor (output_pipe_asks (state_of view.old) (own_of ids.old.line) capacity)
        (W.seen world.old) (W.seen world.new) (λ made. (made, state_of view.new))
        (fault_outcome result) }
    ensures kept { HostKept view.old view.new ids.old ids.new (W.seen world.old)
        (W.seen world.new) }
{
    output_pipe(view.store, alloc, view.table, world, ids.own(), capacity)
}

/// Makes the handle of a stream that has no record.
fn make_plain<W: World>(
    view: &mut WasiSocketsCtxView<'_>,
    world: &mut W,
    ids: &mut Ids,
    kind: Kind,
) -> Result<Handle, Fault>
    requires { (W.seen world.old).ended ≡ false }
    ensures asked { AsksFor (plain_asks (state_of view.old) (own_of ids.old.line) kind)
        (W.seen world.old) (W.seen world.new) (λ made. (made, state_of view.new))
        (fault_outcome result) }
    ensures kept { HostKept view.old view.new ids.old ids.new (W.seen world.old)
        (W.seen world.new) }
{
    handles::make(view.table, world, ids.own(), kind, None, None)
}

/// Makes an output that takes whatever is written to it, and keeps none of it (`SinkOutputStream`
/// of the crate wasmtime-wasi).
pub fn make_sink<W: World>(
    view: &mut WasiSocketsCtxView<'_>,
    world: &mut W,
    ids: &mut Ids,
) -> Result<Handle, Fault>
    requires { (W.seen world.old).ended ≡ false }
    ensures asked { AsksFor (plain_asks (state_of view.old) (own_of ids.old.line)
        (Kind.PlainOutput PlainOutput.Sink)) (W.seen world.old) (W.seen world.new)
        (λ made. (made, state_of view.new)) (fault_outcome result) }
    ensures kept { HostKept view.old view.new ids.old ids.new (W.seen world.old)
        (W.seen world.new) }
{
    make_plain(view, world, ids, Kind::PlainOutput(PlainOutput::Sink))
}

/// Makes an input that is closed (`ClosedInputStream` of the crate wasmtime-wasi).
pub fn make_closed_input<W: World>(
    view: &mut WasiSocketsCtxView<'_>,
    world: &mut W,
    ids: &mut Ids,
) -> Result<Handle, Fault>
    requires { (W.seen world.old).ended ≡ false }
    ensures asked { AsksFor (plain_asks (state_of view.old) (own_of ids.old.line)
        (Kind.PlainInput PlainInput.Closed)) (W.seen world.old) (W.seen world.new)
        (λ made. (made, state_of view.new)) (fault_outcome result) }
    ensures kept { HostKept view.old view.new ids.old ids.new (W.seen world.old)
        (W.seen world.new) }
{
    make_plain(view, world, ids, Kind::PlainInput(PlainInput::Closed))
}

/// Makes an output that is closed (`ClosedOutputStream` of the crate wasmtime-wasi).
pub fn make_closed_output<W: World>(
    view: &mut WasiSocketsCtxView<'_>,
    world: &mut W,
    ids: &mut Ids,
) -> Result<Handle, Fault>
    requires { (W.seen world.old).ended ≡ false }
    ensures asked { AsksFor (plain_asks (state_of view.old) (own_of ids.old.line)
        (Kind.PlainOutput PlainOutput.Closed)) (W.seen world.old) (W.seen world.new)
        (λ made. (made, state_of view.new)) (fault_outcome result) }
    ensures kept { HostKept view.old view.new ids.old ids.new (W.seen world.old)
        (W.seen world.new) }
{
    make_plain(view, world, ids, Kind::PlainOutput(PlainOutput::Closed))
}

/// A copy of what was written to a pipe (`MemoryOutputPipe::contents`). Takes memory for it. A
/// handle of another kind: `NoSuchHandle`.
pub fn pipe_contents(
    alloc: Global,
    view: &WasiSocketsCtxView<'_>,
    this: Handle,
) -> Result<Octets, Fault>
    ensures { IfOk (fault_outcome result) (λ answer. answer
        ≡ contents_asks (state_of view.now) this) }
{
    let Some(PlainOutput::Pipe(place)) = handles::plain_output(view.table, this) else {
        return Err(Fault::Trap(TrapKind::NoSuchHandle));
    };
    contents_of(view.store, alloc, place)
}
