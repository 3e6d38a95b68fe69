//! What the handle of a stream names. A call resolves each of its handles once; the calls below are
//! on what was found, and look no handle up.

ghost use Rattle.std.specs.Prelude.{◌≡◌, true, false, Err, IfOk, IfErr, OnOk, OnErr};
ghost use Rattle.wasi_world.specs.Asks.{AsksFor};
ghost use Rattle.wasi_streams.specs.StreamStop.{stream_outcome};
ghost use Rattle.host_streams.specs.Blocking.{look_asks};
ghost use Rattle.host_store.specs.CallStops.{call_outcome};
ghost use Rattle.host_store.specs.Kinds.{kind_at, is_readable, is_writable};
ghost use Rattle.host_store.specs.Machine.{own_of};
ghost use Rattle.host_streams.specs.StreamCalls.{read_asks, skip_asks, check_asks, write_asks, flushed_asks, converted};
ghost use Rattle.host_streams.specs.StreamEnds.{NamesInput, NamesOutput, NoInput, NoOutput};
ghost use Rattle.host_store.specs.Views.{state_of, HostKept};

use crate::connections;
use crate::plain_streams::{check_plain, flush_plain, plain, read_plain, write_plain};
use crate::streams::convert_stream_error;
use host_store::{CallError, Kind, PlainInput, PlainOutput, WasiSocketsCtxView, handles};
use std::alloc::Global;
use wasi_records::RecordId;
use wasi_streams::{Fault, StreamError, TrapKind};
use wasi_table::Table;
use wasi_world::{Handle, Ids, Octets, World};

/// What an input reads from.
#[derive(Clone, Copy)]
pub(crate) enum InputEnd {
    /// The connection of the TCP socket with this record number.
    Connection(RecordId),
    /// A stream in memory.
    Plain(PlainInput),
}

/// What an output writes to.
#[derive(Clone, Copy)]
pub(crate) enum OutputEnd {
    /// The connection of the TCP socket with this record number.
    Connection(RecordId),
    /// A stream in memory.
    Plain(PlainOutput),
}

/// An input that a guest names: its handle, and what it reads from.
#[derive(Clone, Copy)]
pub(crate) struct NamedInput {
    pub(crate) handle: Handle,
    pub(crate) end: InputEnd,
}

/// An output that a guest names: its handle, and what it writes to.
#[derive(Clone, Copy)]
pub(crate) struct NamedOutput {
    pub(crate) handle: Handle,
    pub(crate) end: OutputEnd,
}

impl NamedInput {
    /// The input with this handle. Any other handle: `NoSuchHandle`.
    pub(crate) fn resolve(table: &Table<Kind>, handle: Handle) -> Result<NamedInput, Fault>
        ensures named { IfOk result (λ input. (input.handle ≡ handle)
            × NamesInput table.now input) }
        ensures some { OnOk result (is_readable (kind_at table.now handle) ≡ true) }
        ensures err { IfErr result (λ fault. fault ≡ Fault.Trap TrapKind.NoSuchHandle) }
        ensures none { OnErr result (NoInput (kind_at table.now handle)) }
    {
        match handles::kind(table, handle) {
            Some(Kind::Input(place)) => {
                let end = InputEnd::Connection(place);
                Ok(NamedInput { handle, end })
            }
            Some(Kind::PlainInput(input)) => {
                let end = InputEnd::Plain(input);
                Ok(NamedInput { handle, end })
            }
            _ => Err(Fault::Trap(TrapKind::NoSuchHandle)),
        }
    }

    /// Reads at most `len` bytes.
    pub(crate) fn read<W: World>(
        self,
        alloc: Global,
        view: &mut WasiSocketsCtxView<'_>,
        world: &mut W,
        ids: &mut Ids,
        len: u64,
    ) -> Result<Octets, CallError>
        requires open { (W.seen world.old).ended ≡ false }
        requires named { NamesInput view.old.table.now self }
        ensures asked { AsksFor (read_asks (state_of view.old) (own_of ids.old.line) self.handle
            len) (W.seen world.old) (W.seen world.new) (λ read. (read, state_of view.new))
            (call_outcome result) }
        ensures table { OnOk result (view.new.table.now ≡ view.old.table.now) }
        ensures kept { HostKept view.old view.new ids.old ids.new (W.seen world.old)
            (W.seen world.new) }
    {
        match self.end {
            InputEnd::Plain(stream) => plain(read_plain(view.store, alloc, stream, len as usize)),
            InputEnd::Connection(place) => {
                let answer = connections::read(
                    view.store,
                    alloc,
                    world,
                    ids.own(),
                    place,
                    len as usize,
                );
                answered(view, world, ids, self.handle, place, answer)
            }
        }
    }

    /// Reads at most `len` bytes and discards them; returns how many there were.
    pub(crate) fn skip<W: World>(
        self,
        alloc: Global,
        view: &mut WasiSocketsCtxView<'_>,
        world: &mut W,
        ids: &mut Ids,
        len: u64,
    ) -> Result<u64, CallError>
        requires open { (W.seen world.old).ended ≡ false }
        requires named { NamesInput view.old.table.now self }
        ensures asked { AsksFor (skip_asks (state_of view.old) (own_of ids.old.line) self.handle
            len) (W.seen world.old) (W.seen world.new) (λ done. (done, state_of view.new))
            (call_outcome result) }
        ensures kept { HostKept view.old view.new ids.old ids.new (W.seen world.old)
            (W.seen world.new) }
    {
        let bytes = self.read(alloc, view, world, ids, len)?;
        Ok(bytes.len() as u64)
    }

    /// Whether it is ready to be read: it has bytes, its end or a code. An input in memory is
    /// always ready.
    pub(crate) fn is_ready<W: World>(
        self,
        view: &mut WasiSocketsCtxView<'_>,
        world: &mut W,
        ids: &mut Ids,
    ) -> Result<bool, CallError>
        requires open { (W.seen world.old).ended ≡ false }
        requires named { NamesInput view.old.table.now self }
        ensures asked { AsksFor (look_asks (state_of view.old) (own_of ids.old.line) self.handle)
            (W.seen world.old) (W.seen world.new) (λ done. (done, state_of view.new))
            (call_outcome result) }
        ensures table { OnOk result (view.new.table.now ≡ view.old.table.now) }
        ensures kept { HostKept view.old view.new ids.old ids.new (W.seen world.old)
            (W.seen world.new) }
    {
        match self.end {
            InputEnd::Plain(_) => Ok(true),
            InputEnd::Connection(place) => {
                let ready = connections::input_ready(view.store, world, ids.own(), place)?;
                Ok(ready)
            }
        }
    }
}

impl NamedOutput {
    /// The output with this handle. Any other handle: `NoSuchHandle`.
    pub(crate) fn resolve(table: &Table<Kind>, handle: Handle) -> Result<NamedOutput, Fault>
        ensures named { IfOk result (λ output. (output.handle ≡ handle)
            × NamesOutput table.now output) }
        ensures some { OnOk result (is_writable (kind_at table.now handle) ≡ true) }
        ensures err { IfErr result (λ fault. fault ≡ Fault.Trap TrapKind.NoSuchHandle) }
        ensures none { OnErr result (NoOutput (kind_at table.now handle)) }
    {
        match handles::kind(table, handle) {
            Some(Kind::Output(place)) => {
                let end = OutputEnd::Connection(place);
                Ok(NamedOutput { handle, end })
            }
            Some(Kind::PlainOutput(output)) => {
                let end = OutputEnd::Plain(output);
                Ok(NamedOutput { handle, end })
            }
            _ => Err(Fault::Trap(TrapKind::NoSuchHandle)),
        }
    }

    /// The permit: how many bytes may be written.
    pub(crate) fn check_write<W: World>(
        self,
        view: &mut WasiSocketsCtxView<'_>,
        world: &mut W,
        ids: &mut Ids,
    ) -> Result<u64, CallError>
        requires open { (W.seen world.old).ended ≡ false }
        requires named { NamesOutput view.old.table.now self }
        ensures asked { AsksFor (check_asks (state_of view.old) (own_of ids.old.line) self.handle)
            (W.seen world.old) (W.seen world.new) (λ permit. (permit, state_of view.new))
            (call_outcome result) }
        ensures table { OnOk result (view.new.table.now ≡ view.old.table.now) }
        ensures kept { HostKept view.old view.new ids.old ids.new (W.seen world.old)
            (W.seen world.new) }
    {
        match self.end {
            OutputEnd::Plain(stream) => as_count(plain(check_plain(view.store, stream))),
            OutputEnd::Connection(place) => {
                let answer = connections::check_write(view.store, world, ids.own(), place);
                as_count(answered(view, world, ids, self.handle, place, answer))
            }
        }
    }

    /// Writes bytes, no more than the permit.
    pub(crate) fn write<W: World>(
        self,
        view: &mut WasiSocketsCtxView<'_>,
        world: &mut W,
        ids: &mut Ids,
        bytes: Octets,
    ) -> Result<(), CallError>
        requires open { (W.seen world.old).ended ≡ false }
        requires named { NamesOutput view.old.table.now self }
        ensures asked { AsksFor (write_asks (state_of view.old) (own_of ids.old.line) self.handle
            bytes) (W.seen world.old) (W.seen world.new) (λ written. (written, state_of view.new))
            (call_outcome result) }
        ensures table { OnOk result (view.new.table.now ≡ view.old.table.now) }
        ensures kept { HostKept view.old view.new ids.old ids.new (W.seen world.old)
            (W.seen world.new) }
    {
        match self.end {
            OutputEnd::Plain(stream) => plain(write_plain(view.store, stream, bytes.as_slice())),
            OutputEnd::Connection(place) => {
                let answer = connections::write(view.store, world, ids.own(), place, bytes);
                answered(view, world, ids, self.handle, place, answer)
            }
        }
    }

    /// Returns the error of an output that is closed.
    pub(crate) fn flush<W: World>(
        self,
        view: &mut WasiSocketsCtxView<'_>,
        world: &mut W,
        ids: &mut Ids,
    ) -> Result<(), CallError>
        requires open { (W.seen world.old).ended ≡ false }
        requires named { NamesOutput view.old.table.now self }
        ensures asked { AsksFor (flushed_asks (state_of view.old) (own_of ids.old.line)
            self.handle) (W.seen world.old) (W.seen world.new)
            (λ flushed. (flushed, state_of view.new)) (call_outcome result) }
        ensures table { OnOk result (view.new.table.now ≡ view.old.table.now) }
        ensures kept { HostKept view.old view.new ids.old ids.new (W.seen world.old)
            (W.seen world.new) }
    {
        match self.end {
            OutputEnd::Plain(stream) => plain(flush_plain(stream)),
            OutputEnd::Connection(place) => {
                let answer = connections::flush(view.store, world, place);
                answered(view, world, ids, self.handle, place, answer)
            }
        }
    }
}

/// A permit as the interface has it.
fn as_count(permit: Result<usize, CallError>) -> Result<u64, CallError>
    ensures { call_outcome result ≡ call_outcome permit }
{
    permit.map(|permit| permit as u64)
}

/// The answer to the guest of a call on the stream of a connection, with this record number.
fn answered<W: World, T>(
    view: &mut WasiSocketsCtxView<'_>,
    world: &mut W,
    ids: &mut Ids,
    this: Handle,
    place: RecordId,
    answer: Result<T, StreamError>,
) -> Result<T, CallError>
    requires { (W.seen world.old).ended ≡ false }
    ensures asked { IfOk (stream_outcome answer) (λ told. AsksFor (converted (own_of ids.old.line)
        this place (told, state_of view.old)) (W.seen world.old) (W.seen world.new)
        (λ given. (given, state_of view.new)) (call_outcome result)) }
    ensures memory { IfErr (stream_outcome answer) (λ e. (call_outcome result ≡ Err e)
        × (state_of view.new ≡ state_of view.old) × (W.seen world.new ≡ W.seen world.old)) }
    ensures table { OnOk result (view.new.table.now ≡ view.old.table.now) }
    ensures kept { HostKept view.old view.new ids.old ids.new (W.seen world.old)
        (W.seen world.new) }
{
    match answer {
        Ok(value) => Ok(value),
        Err(error) => Err(convert_stream_error(view, world, ids, this, place, error)),
    }
}
