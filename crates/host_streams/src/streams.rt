//! The calls of streams that don't block.

ghost use Rattle.std.specs.Prelude.{◌≡◌, false};
ghost use Rattle.wasi_streams.specs.StreamStop.{StreamStop};
ghost use Rattle.wasi_streams.specs.Streams.{zeros};
ghost use Rattle.wasi_world.specs.Asks.{AsksFor};
ghost use Rattle.host_store.specs.CallStops.{call_outcome, error_outcome, failed_outcome, IsStreamStop, IfStreamMemory};
ghost use Rattle.host_store.specs.Machine.{own_of};
ghost use Rattle.host_streams.specs.StreamCalls.{read_asks, skip_asks, check_asks, write_asks, write_zeroes_asks, flushed_asks, splice_asks, splice_some, convert_asks};
ghost use Rattle.host_streams.specs.StreamEnds.{NamesInput, NamesOutput};
ghost use Rattle.host_store.specs.Views.{state_of, HostKept};

use crate::stream_ends::{NamedInput, NamedOutput};
use host_store::{CallError, Kind, WasiSocketsCtxView, handles};
use std::alloc::Global;
use wasi_addr::ErrorCode;
use wasi_records::RecordId;
use wasi_streams::{Fault, StreamError, zeros};
use wasi_world::{Handle, Ids, Octets, World};

/// Reads at most `len` bytes from an input (`input-stream.read`). No bytes: there is nothing yet,
/// or `len` is 0.
pub fn read<W: World>(
    alloc: Global,
    view: &mut WasiSocketsCtxView<'_>,
    world: &mut W,
    ids: &mut Ids,
    this: Handle,
    len: u64,
) -> Result<Octets, CallError>
    requires { (W.seen world.old).ended ≡ false }
    ensures asked { AsksFor (read_asks (state_of view.old) (own_of ids.old.line) this len)
        (W.seen world.old) (W.seen world.new) (λ read. (read, state_of view.new))
        (call_outcome result) }
    ensures kept { HostKept view.old view.new ids.old ids.new (W.seen world.old)
        (W.seen world.new) }
{
    let input = NamedInput::resolve(view.table, this)?;
    input.read(alloc, view, world, ids, len)
}

/// The permit: how many bytes may be written to an output (`output-stream.check-write`).
pub fn check_write<W: World>(
    view: &mut WasiSocketsCtxView<'_>,
    world: &mut W,
    ids: &mut Ids,
    this: Handle,
) -> Result<u64, CallError>
    requires { (W.seen world.old).ended ≡ false }
    ensures asked { AsksFor (check_asks (state_of view.old) (own_of ids.old.line) this)
        (W.seen world.old) (W.seen world.new) (λ permit. (permit, state_of view.new))
        (call_outcome result) }
    ensures kept { HostKept view.old view.new ids.old ids.new (W.seen world.old)
        (W.seen world.new) }
{
    let output = NamedOutput::resolve(view.table, this)?;
    output.check_write(view, world, ids)
}

/// Writes bytes to an output, no more than its permit (`output-stream.write`).
pub fn write<W: World>(
    view: &mut WasiSocketsCtxView<'_>,
    world: &mut W,
    ids: &mut Ids,
    this: Handle,
    bytes: Octets,
) -> Result<(), CallError>
    requires { (W.seen world.old).ended ≡ false }
    ensures asked { AsksFor (write_asks (state_of view.old) (own_of ids.old.line) this bytes)
        (W.seen world.old) (W.seen world.new) (λ written. (written, state_of view.new))
        (call_outcome result) }
    ensures kept { HostKept view.old view.new ids.old ids.new (W.seen world.old)
        (W.seen world.new) }
{
    let output = NamedOutput::resolve(view.table, this)?;
    output.write(view, world, ids, bytes)
}

/// Returns the error of an output that is closed (`output-stream.flush`).
pub fn flush<W: World>(
    view: &mut WasiSocketsCtxView<'_>,
    world: &mut W,
    ids: &mut Ids,
    this: Handle,
) -> Result<(), CallError>
    requires { (W.seen world.old).ended ≡ false }
    ensures asked { AsksFor (flushed_asks (state_of view.old) (own_of ids.old.line) this)
        (W.seen world.old) (W.seen world.new) (λ flushed. (flushed, state_of view.new))
        (call_outcome result) }
    ensures kept { HostKept view.old view.new ids.old ids.new (W.seen world.old)
        (W.seen world.new) }
{
    let output = NamedOutput::resolve(view.table, this)?;
    output.flush(view, world, ids)
}

/// Reads at most `len` bytes from an input and discards them; returns how many there were
/// (`input-stream.skip`).
pub fn skip<W: World>(
    alloc: Global,
    view: &mut WasiSocketsCtxView<'_>,
    world: &mut W,
    ids: &mut Ids,
    this: Handle,
    len: u64,
) -> Result<u64, CallError>
    requires { (W.seen world.old).ended ≡ false }
    ensures asked { AsksFor (skip_asks (state_of view.old) (own_of ids.old.line) this len)
        (W.seen world.old) (W.seen world.new) (λ done. (done, state_of view.new))
        (call_outcome result) }
    ensures kept { HostKept view.old view.new ids.old ids.new (W.seen world.old)
        (W.seen world.new) }
{
    let input = NamedInput::resolve(view.table, this)?;
    input.skip(alloc, view, world, ids, len)
}

/// Writes zeros to an output, no more than its permit (`output-stream.write-zeroes`). Takes memory
/// for them, and for 65,537 where there are more: no permit is that high.
pub fn write_zeroes<W: World>(
    alloc: Global,
    view: &mut WasiSocketsCtxView<'_>,
    world: &mut W,
    ids: &mut Ids,
    this: Handle,
    len: u64,
) -> Result<(), CallError>
    requires { (W.seen world.old).ended ≡ false }
    ensures asked { AsksFor (write_zeroes_asks (state_of view.old) (own_of ids.old.line) this len)
        (W.seen world.old) (W.seen world.new) (λ done. (done, state_of view.new))
        (call_outcome result) }
    ensures kept { HostKept view.old view.new ids.old ids.new (W.seen world.old)
        (W.seen world.new) }
{
    let bytes = zeros(alloc, len as usize)?;
    write(view, world, ids, this, bytes)
}

/// Reads from an input what an output permits, at most `len` bytes, and writes them there; returns
/// how many they were (`output-stream.splice`). 0: there is nothing to read yet, no permit, or
/// `len` is 0. An error is that of the stream whose call failed; where the write fails, what was
/// read is lost.
pub fn splice<W: World>(
    alloc: Global,
    view: &mut WasiSocketsCtxView<'_>,
    world: &mut W,
    ids: &mut Ids,
    output: Handle,
    input: Handle,
    len: u64,
) -> Result<u64, CallError>
    requires { (W.seen world.old).ended ≡ false }
    ensures asked { AsksFor (splice_asks (state_of view.old) (own_of ids.old.line) output input len)
        (W.seen world.old) (W.seen world.new) (λ done. (done, state_of view.new))
        (call_outcome result) }
    ensures kept { HostKept view.old view.new ids.old ids.new (W.seen world.old)
        (W.seen world.new) }
{
    let to = NamedOutput::resolve(view.table, output)?;
    let from = NamedInput::resolve(view.table, input)?;
    let permit = to.check_write(view, world, ids)?;
    splice_some(alloc, view, world, ids, to, from, permit.min(len))
}

/// Reads at most as many bytes from the input as the output permits, and writes them there.
fn splice_some<W: World>(
    alloc: Global,
    view: &mut WasiSocketsCtxView<'_>,
    world: &mut W,
    ids: &mut Ids,
    to: NamedOutput,
    from: NamedInput,
    count: u64,
) -> Result<u64, CallError>
    requires open { (W.seen world.old).ended ≡ false }
    requires output { NamesOutput view.old.table.now to }
    requires input { NamesInput view.old.table.now from }
    ensures asked { AsksFor (splice_some (own_of ids.old.line) to.handle from.handle
        (state_of view.old) count) (W.seen world.old) (W.seen world.new)
        (λ done. (done, state_of view.new)) (call_outcome result) }
    ensures kept { HostKept view.old view.new ids.old ids.new (W.seen world.old)
        (W.seen world.new) }
{
    if count == 0 {
        return Ok(0);
    }
    let bytes = from.read(alloc, view, world, ids, count)?;
    if bytes.is_empty() {
        return Ok(0);
    }
    let count = bytes.len() as u64;
    to.write(view, world, ids, bytes)?;
    Ok(count)
}

/// Makes the error of a call on the stream of a connection (`convert_stream_error` of the crate
/// wasmtime-wasi), which has this handle and is of the TCP socket with this record number. A
/// failure gets the handle of a new error, whose parent is the stream. Where no handle can be made:
/// `Trap(Full)` or out of memory.
pub fn convert_stream_error<W: World>(
    view: &mut WasiSocketsCtxView<'_>,
    world: &mut W,
    ids: &mut Ids,
    this: Handle,
    place: RecordId,
    error: StreamError,
) -> CallError
    requires { (W.seen world.old).ended ≡ false }
    ensures asked { IsStreamStop error (λ stop. AsksFor (convert_asks (state_of view.old)
        (own_of ids.old.line) this place stop) (W.seen world.old) (W.seen world.new)
        (λ converted. (converted, state_of view.new)) (error_outcome result)) }
    ensures memory { IfStreamMemory error (λ e. (result ≡ CallError.Memory e)
        × (state_of view.new ≡ state_of view.old) × (W.seen world.new ≡ W.seen world.old)) }
    ensures kept { HostKept view.old view.new ids.old ids.new (W.seen world.old)
        (W.seen world.new) }
{
    match error {
        StreamError::LastOperationFailed(code) => failed(view, world, ids, this, place, code),
        StreamError::Closed => CallError::Closed,
        StreamError::Trap(kind) => CallError::Trap(kind),
        StreamError::Memory(e) => CallError::Memory(e),
    }
}

/// Makes the handle of an error, and the error with it.
fn failed<W: World>(
    view: &mut WasiSocketsCtxView<'_>,
    world: &mut W,
    ids: &mut Ids,
    this: Handle,
    place: RecordId,
    code: ErrorCode,
) -> CallError
    requires { (W.seen world.old).ended ≡ false }
    ensures asked { AsksFor (convert_asks (state_of view.old) (own_of ids.old.line) this place
        (StreamStop.Failed code)) (W.seen world.old) (W.seen world.new)
        (λ converted. (converted, state_of view.new)) (error_outcome result) }
    ensures kept { HostKept view.old view.new ids.old ids.new (W.seen world.old)
        (W.seen world.new) }
{
    let side = view.store.side(place);
    let made = handles::make(
        view.table,
        world,
        ids.own(),
        Kind::ErrorValue,
        Some(this),
        side,
    );
    failed_with(code, made)
}

/// The error with its handle; where none was made, the trap or out of memory.
fn failed_with(code: ErrorCode, made: Result<Handle, Fault>) -> CallError
    ensures { error_outcome result ≡ failed_outcome code made }
{
    match made {
        Ok(handle) => CallError::Failed(code, handle),
        Err(Fault::Trap(kind)) => CallError::Trap(kind),
        Err(Fault::Memory(e)) => CallError::Memory(e),
    }
}
