//! The ends of the streams of a TCP connection of 0.3, and their result slots.

ghost use Rattle.std.specs.Prelude.{◌≡◌, Some, None, Ok, false};
ghost use Rattle.wasi_world.specs.Asks.{AsksFor};
ghost use Rattle.host_store.specs.Kinds.{table_parent};
ghost use Rattle.host_store.specs.Machine.{own_of};
ghost use Rattle.host_store.specs.Views.{HostKept, SameView, state_of};
ghost use Rattle.wasi_p3.specs.Stops.{ends_as};
ghost use Rattle.wasi_p3.specs.Streams.{make_ends, named_end, read, receive, send, take_result, write};
ghost use Rattle.host_store.specs.KnownSides.{KnowsSides};
ghost use Rattle.wasi_world.specs.Seen.{Seen};

use crate::error::{SocketError, named};
use host_store::{Kind, WasiSocketsCtxView, handles};
use std::alloc::Global;
use tcp_records::{Slot, StreamResult};
use wasi_addr::{ErrorCode, p3};
use wasi_records::RecordId;
use wasi_world::{Answer, Handle, Ids, Octets, Sock, TrapKind, World};

/// The write end of a connection, by its handle (`SendStreamConsumer` of the crate wasmtime-wasi).
#[derive(Clone, Copy, Debug, PartialEq, Eq)]
pub struct SendStreamConsumer {
    pub handle: Handle,
}

/// The read end of a connection, by its handle (`ReceiveStreamProducer` of the crate wasmtime-wasi).
#[derive(Clone, Copy, Debug, PartialEq, Eq)]
pub struct ReceiveStreamProducer {
    pub handle: Handle,
}

/// Makes the write end of a connection, and its result slot (`tcp-socket.send`). Where the sending
/// half can't be taken the end is closed, and the slot has the code: `InvalidState` of a socket that
/// isn't connected or has its write end, else the code of a closed socket.
pub fn send<W: World>(
    view: &mut WasiSocketsCtxView<'_>,
    world: &mut W,
    ids: &mut Ids,
    socket: Handle,
) -> Result<(Handle, Handle), SocketError>
    requires { (W.seen world.old).ended ≡ false }
    ensures asked { AsksFor (send (own_of ids.old.line) socket (state_of view.old))
        (W.seen world.old) (W.seen world.new) (λ made. (made, state_of view.new))
        (ends_as result) }
    ensures kept { HostKept view.old view.new ids.old ids.new (W.seen world.old)
        (W.seen world.new) }
{
    let place = handles::tcp3_socket(view.table, socket)?;
    let end = named(host_tcp::take_send_end(view.store, place))?;
    let side = view.store.side(place);
    make_ends(view, world, ids, socket, Kind::Send3(end), end.slot, side)
}

/// Makes the read end of a connection, and its result slot (`tcp-socket.receive`), likewise.
pub fn receive<W: World>(
    view: &mut WasiSocketsCtxView<'_>,
    world: &mut W,
    ids: &mut Ids,
    socket: Handle,
) -> Result<(Handle, Handle), SocketError>
    requires { (W.seen world.old).ended ≡ false }
    ensures asked { AsksFor (receive (own_of ids.old.line) socket (state_of view.old))
        (W.seen world.old) (W.seen world.new) (λ made. (made, state_of view.new))
        (ends_as result) }
    ensures kept { HostKept view.old view.new ids.old ids.new (W.seen world.old)
        (W.seen world.new) }
{
    let place = handles::tcp3_socket(view.table, socket)?;
    let end = named(host_tcp::take_receive_end(view.store, place))?;
    let side = view.store.side(place);
    make_ends(
        view,
        world,
        ids,
        socket,
        Kind::Receive3(end),
        end.slot,
        side,
    )
}

/// Makes the handles of an end and of its slot.
fn make_ends<W: World>(
    view: &mut WasiSocketsCtxView<'_>,
    world: &mut W,
    ids: &mut Ids,
    socket: Handle,
    kind: Kind,
    slot: RecordId,
    side: Option<Sock>,
) -> Result<(Handle, Handle), SocketError>
    requires open { (W.seen world.old).ended ≡ false }
    requires plain { table_parent kind (Some socket) ≡ None }
    ensures asked { AsksFor (make_ends (own_of ids.old.line) socket kind slot side
        (state_of view.old)) (W.seen world.old) (W.seen world.new)
        (λ made. (made, state_of view.new)) (ends_as result) }
    ensures kept { HostKept view.old view.new ids.old ids.new (W.seen world.old)
        (W.seen world.new) }
{
    let own = ids.own();
    let end = handles::make(view.table, world, own, kind, Some(socket), side)?;
    let result3 = Kind::Result3(slot);
    let result_slot = handles::make(view.table, world, own, result3, Some(socket), side)?;
    Ok((end, result_slot))
}

/// What became of a stream, by the 0.3 name of its code.
fn named_end(ended: Result<(), ErrorCode>) -> Result<(), p3::ErrorCode>
    ensures { result ≡ named_end ended }
{
    match ended {
        Ok(()) => Ok(()),
        Err(code) => Err(p3::ErrorCode::from_code(code)),
    }
}

/// Takes the result out of a slot, whose handle is gone then. `None` where the end is open: the slot
/// keeps its handle. Asks nothing.
pub fn take_result(
    view: &mut WasiSocketsCtxView<'_>,
    slot: Handle,
) -> Result<Option<Result<(), p3::ErrorCode>>, SocketError>
    ensures answer { ends_as result ≡ Ok (take_result (state_of view.old) slot).0 }
    ensures state { state_of view.new ≡ (take_result (state_of view.old) slot).1 }
    ensures sides { (s : Seen) → KnowsSides s view.old.store.now → KnowsSides s view.new.store.now }
    ensures view { SameView view.old view.new }
{
    let place = handles::result3(view.table, slot)?;
    let Some(found) = view.store.find::<Slot>(place) else {
        return Err(SocketError::Trap(TrapKind::NoSuchHandle));
    };
    let Some(ended) = found.result() else {
        return Ok(None);
    };
    handles::remove(view.table, slot)?;
    host_tcp::drop_slot(view.store, place);
    Ok(Some(named_end(ended)))
}

impl ReceiveStreamProducer {
    /// Reads at most `remaining` bytes, and at most 8192. With `remaining` 0 it is only looked whether
    /// there are some. At the end of the stream and at a fault the end is closed and its slot filled;
    /// the answer is `Dropped` then, and from then on. Where there is nothing yet the answer is
    /// `Cancelled` if this poll is the last (`finish`), else `Pending`.
    pub fn poll_produce<W: World>(
        &mut self,
        alloc: Global,
        view: &mut WasiSocketsCtxView<'_>,
        world: &mut W,
        ids: &mut Ids,
        remaining: usize,
        finish: bool,
    ) -> Result<Answer<StreamResult<Octets>>, SocketError>
        requires { (W.seen world.old).ended ≡ false }
        ensures asked { AsksFor (read (own_of ids.old.line) finish remaining self.old.handle
            (state_of view.old)) (W.seen world.old) (W.seen world.new)
            (λ answer. (answer, state_of view.new)) (ends_as result) }
        ensures same { self.new ≡ self.old }
        ensures kept { HostKept view.old view.new ids.old ids.new (W.seen world.old)
            (W.seen world.new) }
    {
        let end = handles::receive3(view.table, self.handle)?;
        let own = ids.own();
        named(host_tcp::poll_read_end(view.store, alloc, world, own, end, remaining, finish))
    }
}

impl SendStreamConsumer {
    /// Offers bytes, at most the first 4294967295 of them, and answers how many were taken. With none
    /// it is only looked whether some may be written. At a fault the end is closed and its slot
    /// filled; the answer is `Dropped` then, and from then on. Where none can be taken yet the answer
    /// is `Cancelled` if this poll is the last (`finish`), else `Pending`.
    pub fn poll_consume<W: World>(
        &mut self,
        view: &mut WasiSocketsCtxView<'_>,
        world: &mut W,
        ids: &mut Ids,
        bytes: &[u8],
        finish: bool,
    ) -> Result<Answer<StreamResult<usize>>, SocketError>
        requires { (W.seen world.old).ended ≡ false }
        ensures asked { AsksFor (write (own_of ids.old.line) finish bytes.now self.old.handle
            (state_of view.old)) (W.seen world.old) (W.seen world.new)
            (λ answer. (answer, state_of view.new)) (ends_as result) }
        ensures same { self.new ≡ self.old }
        ensures kept { HostKept view.old view.new ids.old ids.new (W.seen world.old)
            (W.seen world.new) }
    {
        let end = handles::send3(view.table, self.handle)?;
        let own = ids.own();
        named(host_tcp::poll_write_end(view.store, world, own, end, bytes, finish))
    }
}
