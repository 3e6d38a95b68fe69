//! The calls of streams that block. One that can't end yet is pending, and
//! `resume` of `wasi_host` continues it.

ghost use Rattle.std.specs.Prelude.{◌≡◌, false, take, drop, IfOk};
ghost use Rattle.wasi_world.specs.declared.outcome.Answer.TheVariants.{Pending};
ghost use Rattle.wasi_world.specs.Asks.{AsksFor};
ghost use Rattle.host_streams.specs.Blocking.{blocking_read_asks, blocking_skip_asks, blocking_flush_asks, last_check_asks, finish_write_asks, write_rounds, blocking_write_asks, blocking_zeroes_asks, blocking_splice_asks, write_rest_asks, write_told};
ghost use Rattle.host_store.specs.CallStops.{call_outcome};
ghost use Rattle.host_streams.specs.StreamEnds.{NamesOutput};
ghost use Rattle.host_store.specs.Views.{state_of, HostKept};

use crate::stream_ends::{NamedInput, NamedOutput};
use host_store::{BlockingCall, CallError, WasiSocketsCtxView};
use std::alloc::{AllocError, Global};
use wasi_streams::zeros;
use wasi_world::{Answer, Handle, Ids, Octets, TrapKind, World};

/// How many bytes a blocking write has at most.
const MOST_BYTES: u64 = 4096;

/// How many rounds of a blocking write one poll makes at most. A round writes at least a byte.
const MOST_ROUNDS: u32 = 4096;

/// The first `count` bytes, or all where there are fewer, and those after them. Takes memory for
/// both where it cuts.
fn cut(alloc: Global, bytes: Octets, count: u64) -> Result<(Octets, Octets), AllocError>
    ensures { IfOk result (λ parts. (parts.0 ≡ take count bytes) × (parts.1 ≡ drop count bytes)) }
{
    let count = count as usize;
    if count >= bytes.len() {
        return Ok((bytes, Octets::from_vec(Vec::new(alloc))));
    }
    let first = Octets::copy_of(alloc, &bytes.as_slice()[..count])?;
    let rest = Octets::copy_of(alloc, &bytes.as_slice()[count..])?;
    Ok((first, rest))
}

/// After the last byte, `Closed` counts as success.
fn write_end(error: CallError) -> Result<Answer<()>, CallError>
    ensures { call_outcome result ≡ write_told error }
{
    match error {
        CallError::Closed => Ok(Answer::Ready(())),
        error => Err(error),
    }
}

/// Reads at most `len` bytes from an input (`input-stream.blocking-read`). Pending while there is
/// nothing to read; where `len` is 0 the answer is no bytes.
pub fn blocking_read<W: World>(
    alloc: Global,
    view: &mut WasiSocketsCtxView<'_>,
    world: &mut W,
    ids: &mut Ids,
    input: Handle,
    len: u64,
) -> Result<Answer<Octets>, CallError>
    requires { (W.seen world.old).ended ≡ false }
    ensures asked { AsksFor (blocking_read_asks (state_of view.old) ids.old input len)
        (W.seen world.old) (W.seen world.new) (λ done. (done, state_of view.new))
        (call_outcome result) }
    ensures kept { HostKept view.old view.new ids.old ids.new (W.seen world.old)
        (W.seen world.new) }
{
    let from = NamedInput::resolve(view.table, input)?;
    if !from.is_ready(view, world, ids)? {
        let call = BlockingCall::Read { input, len };
        return Ok(view.store.block_as(*ids, call));
    }
    let bytes = from.read(alloc, view, world, ids, len)?;
    if len == 0 {
        return Ok(Answer::Ready(bytes));
    }
    if bytes.is_empty() {
        let call = BlockingCall::Read { input, len };
        return Ok(view.store.block_as(*ids, call));
    }
    Ok(Answer::Ready(bytes))
}

/// Reads at most `len` bytes from an input and discards them; returns how many there were
/// (`input-stream.blocking-skip`). Pending while there is nothing to read.
pub fn blocking_skip<W: World>(
    alloc: Global,
    view: &mut WasiSocketsCtxView<'_>,
    world: &mut W,
    ids: &mut Ids,
    input: Handle,
    len: u64,
) -> Result<Answer<u64>, CallError>
    requires { (W.seen world.old).ended ≡ false }
    ensures asked { AsksFor (blocking_skip_asks (state_of view.old) ids.old input len)
        (W.seen world.old) (W.seen world.new) (λ done. (done, state_of view.new))
        (call_outcome result) }
    ensures kept { HostKept view.old view.new ids.old ids.new (W.seen world.old)
        (W.seen world.new) }
{
    let from = NamedInput::resolve(view.table, input)?;
    if !from.is_ready(view, world, ids)? {
        let call = BlockingCall::Skip { input, len };
        return Ok(view.store.block_as(*ids, call));
    }
    let count = from.skip(alloc, view, world, ids, len)?;
    if len == 0 {
        return Ok(Answer::Ready(count));
    }
    if count == 0 {
        let call = BlockingCall::Skip { input, len };
        return Ok(view.store.block_as(*ids, call));
    }
    Ok(Answer::Ready(count))
}

/// Flushes an output (`output-stream.blocking-flush`). Pending while nothing may be written.
pub fn blocking_flush<W: World>(
    view: &mut WasiSocketsCtxView<'_>,
    world: &mut W,
    ids: &mut Ids,
    output: Handle,
) -> Result<Answer<()>, CallError>
    requires { (W.seen world.old).ended ≡ false }
    ensures asked { AsksFor (blocking_flush_asks (state_of view.old) ids.old output)
        (W.seen world.old) (W.seen world.new) (λ done. (done, state_of view.new))
        (call_outcome result) }
    ensures kept { HostKept view.old view.new ids.old ids.new (W.seen world.old)
        (W.seen world.new) }
{
    let to = NamedOutput::resolve(view.table, output)?;
    to.flush(view, world, ids)?;
    let permit = to.check_write(view, world, ids)?;
    if permit == 0 {
        let call = BlockingCall::Flush { output };
        return Ok(view.store.block_as(*ids, call));
    }
    Ok(Answer::Ready(()))
}

/// Waits until what was written is flushed: pending while nothing may be written.
fn last_check<W: World>(
    view: &mut WasiSocketsCtxView<'_>,
    world: &mut W,
    ids: &mut Ids,
    to: NamedOutput,
) -> Result<Answer<()>, CallError>
    requires open { (W.seen world.old).ended ≡ false }
    requires named { NamesOutput view.old.table.now to }
    ensures asked { AsksFor (last_check_asks (state_of view.old) ids.old to.handle)
        (W.seen world.old) (W.seen world.new) (λ done. (done, state_of view.new))
        (call_outcome result) }
    ensures kept { HostKept view.old view.new ids.old ids.new (W.seen world.old)
        (W.seen world.new) }
{
    match to.check_write(view, world, ids) {
        Ok(0) => {
            let call = BlockingCall::Finish { output: to.handle };
            Ok(view.store.block_as(*ids, call))
        }
        Ok(_) => Ok(Answer::Ready(())),
        Err(error) => write_end(error),
    }
}

/// Flushes what was written, and waits until that is done.
fn finish_write<W: World>(
    view: &mut WasiSocketsCtxView<'_>,
    world: &mut W,
    ids: &mut Ids,
    to: NamedOutput,
) -> Result<Answer<()>, CallError>
    requires open { (W.seen world.old).ended ≡ false }
    requires named { NamesOutput view.old.table.now to }
    ensures asked { AsksFor (finish_write_asks (state_of view.old) ids.old to.handle)
        (W.seen world.old) (W.seen world.new) (λ done. (done, state_of view.new))
        (call_outcome result) }
    ensures kept { HostKept view.old view.new ids.old ids.new (W.seen world.old)
        (W.seen world.new) }
{
    match to.flush(view, world, ids) {
        Ok(()) => last_check(view, world, ids, to),
        Err(error) => write_end(error),
    }
}

/// Writes the bytes in at most this many rounds, each as many as are permitted, and then flushes.
fn write_rounds<W: World>(
    alloc: Global,
    view: &mut WasiSocketsCtxView<'_>,
    world: &mut W,
    ids: &mut Ids,
    to: NamedOutput,
    rest: Octets,
    rounds: u32,
) -> Result<Answer<()>, CallError>
    requires open { (W.seen world.old).ended ≡ false }
    requires named { NamesOutput view.old.table.now to }
    ensures asked { AsksFor (write_rounds rounds ids.old to.handle (state_of view.old) rest)
        (W.seen world.old) (W.seen world.new) (λ done. (done, state_of view.new))
        (call_outcome result) }
    ensures kept { HostKept view.old view.new ids.old ids.new (W.seen world.old)
        (W.seen world.new) }
{
    let output = to.handle;
    if rounds == 0 {
        let call = BlockingCall::Write { output, rest };
        return Ok(view.store.block_as(*ids, call));
    }
    let permit = to.check_write(view, world, ids)?;
    if permit == 0 {
        let call = BlockingCall::Write { output, rest };
        return Ok(view.store.block_as(*ids, call));
    }
    let (now, later) = cut(alloc, rest, permit)?;
    to.write(view, world, ids, now)?;
    if later.is_empty() {
        return finish_write(view, world, ids, to);
    }
    write_rounds(alloc, view, world, ids, to, later, rounds - 1)
}

/// Goes on with a write of which these bytes are left.
pub fn write_rest<W: World>(
    alloc: Global,
    view: &mut WasiSocketsCtxView<'_>,
    world: &mut W,
    ids: &mut Ids,
    output: Handle,
    rest: Octets,
) -> Result<Answer<()>, CallError>
    requires { (W.seen world.old).ended ≡ false }
    ensures asked { AsksFor (write_rest_asks (state_of view.old) ids.old output rest)
        (W.seen world.old) (W.seen world.new) (λ done. (done, state_of view.new))
        (call_outcome result) }
    ensures kept { HostKept view.old view.new ids.old ids.new (W.seen world.old)
        (W.seen world.new) }
{
    let to = NamedOutput::resolve(view.table, output)?;
    write_rounds(alloc, view, world, ids, to, rest, MOST_ROUNDS)
}

/// Goes on with a write that is flushed and not ready yet.
pub fn finish_rest<W: World>(
    view: &mut WasiSocketsCtxView<'_>,
    world: &mut W,
    ids: &mut Ids,
    output: Handle,
) -> Result<Answer<()>, CallError>
    requires { (W.seen world.old).ended ≡ false }
    ensures asked { AsksFor (last_check_asks (state_of view.old) ids.old output) (W.seen world.old)
        (W.seen world.new) (λ done. (done, state_of view.new)) (call_outcome result) }
    ensures kept { HostKept view.old view.new ids.old ids.new (W.seen world.old)
        (W.seen world.new) }
{
    let to = NamedOutput::resolve(view.table, output)?;
    last_check(view, world, ids, to)
}

/// Writes all of at most 4,096 bytes to an output, and flushes it
/// (`output-stream.blocking-write-and-flush`). More bytes: `Trap(TooLong)`. Pending while nothing
/// may be written, and then until the flush is done. An output that is closed after the last byte
/// counts as success.
pub fn blocking_write_and_flush<W: World>(
    alloc: Global,
    view: &mut WasiSocketsCtxView<'_>,
    world: &mut W,
    ids: &mut Ids,
    output: Handle,
    bytes: Octets,
) -> Result<Answer<()>, CallError>
    requires { (W.seen world.old).ended ≡ false }
    ensures asked { AsksFor (blocking_write_asks (state_of view.old) ids.old output bytes)
        (W.seen world.old) (W.seen world.new) (λ done. (done, state_of view.new))
        (call_outcome result) }
    ensures kept { HostKept view.old view.new ids.old ids.new (W.seen world.old)
        (W.seen world.new) }
{
    let to = NamedOutput::resolve(view.table, output)?;
    if bytes.len() as u64 > MOST_BYTES {
        return Err(CallError::Trap(TrapKind::TooLong));
    }
    write_rounds(alloc, view, world, ids, to, bytes, MOST_ROUNDS)
}

/// Writes at most 4,096 zeros to an output, all of them, and flushes it
/// (`output-stream.blocking-write-zeroes-and-flush`). More zeros: `Trap(TooLong)`. Pending while
/// nothing may be written, and then until the flush is done. An output that is closed after the
/// last zero counts as success. Takes memory for the zeros.
pub fn blocking_write_zeroes_and_flush<W: World>(
    alloc: Global,
    view: &mut WasiSocketsCtxView<'_>,
    world: &mut W,
    ids: &mut Ids,
    output: Handle,
    len: u64,
) -> Result<Answer<()>, CallError>
    requires { (W.seen world.old).ended ≡ false }
    ensures asked { AsksFor (blocking_zeroes_asks (state_of view.old) ids.old output len)
        (W.seen world.old) (W.seen world.new) (λ done. (done, state_of view.new))
        (call_outcome result) }
    ensures kept { HostKept view.old view.new ids.old ids.new (W.seen world.old)
        (W.seen world.new) }
{
    let to = NamedOutput::resolve(view.table, output)?;
    if len > MOST_BYTES {
        return Err(CallError::Trap(TrapKind::TooLong));
    }
    let bytes = zeros(alloc, len as usize)?;
    write_rounds(alloc, view, world, ids, to, bytes, MOST_ROUNDS)
}

/// Reads from an input what an output permits, at most `len` bytes, and writes them there; returns
/// how many they were (`output-stream.blocking-splice`). Pending while nothing may be written or
/// there is nothing to read.
pub fn blocking_splice<W: World>(
    alloc: Global,
    view: &mut WasiSocketsCtxView<'_>,
    world: &mut W,
    ids: &mut Ids,
    output: Handle,
    input: Handle,
    len: u64,
) -> Result<Answer<u64>, CallError>
    requires { (W.seen world.old).ended ≡ false }
    ensures asked { AsksFor (blocking_splice_asks (state_of view.old) ids.old output input len)
        (W.seen world.old) (W.seen world.new) (λ done. (done, state_of view.new))
        (call_outcome result) }
    ensures kept { HostKept view.old view.new ids.old ids.new (W.seen world.old)
        (W.seen world.new) }
{
    let to = NamedOutput::resolve(view.table, output)?;
    let from = NamedInput::resolve(view.table, input)?;
    let permit = to.check_write(view, world, ids)?;
    if permit == 0 {
        let call = BlockingCall::Splice { output, input, len };
        return Ok(view.store.block_as(*ids, call));
    }
    let most = permit.min(len);
    if most == 0 {
        return Ok(Answer::Ready(0));
    }
    if !from.is_ready(view, world, ids)? {
        let call = BlockingCall::Splice { output, input, len };
        return Ok(view.store.block_as(*ids, call));
    }
    let bytes = from.read(alloc, view, world, ids, most)?;
    if bytes.is_empty() {
        let call = BlockingCall::Splice { output, input, len };
        return Ok(view.store.block_as(*ids, call));
    }
    let count = bytes.len() as u64;
    to.write(view, world, ids, bytes)?;
    Ok(Answer::Ready(count))
}
