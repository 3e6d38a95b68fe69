//! Datagrams of 0.3, which stand beside other calls while they are pending.

ghost use Rattle.std.specs.Prelude.{◌≡◌, true, false, IfOk, OnOk, OnErr, Ok};
ghost use Rattle.socket_common.specs.Rounds.{is_going, stays_going};
ghost use Rattle.wasi_world.specs.Asks.{AsksFor};
ghost use Rattle.wasi_world.specs.Seen.{Seen};
ghost use Rattle.host_store.specs.BaseStops.{base_outcome, ends_as};
ghost use Rattle.host_store.specs.Beside.{beside_as, beside_with, begun_beside, unbeside};
ghost use Rattle.host_store.specs.KnownSides.{KnowsSides};
ghost use Rattle.host_udp.specs.SocketDatagrams.{is_udp_held, let_udp_go, drop_udp, drop_datagram, send_of, receive_of, ResendsOf, RereceivesOf, datagram_told, datagram_in};
ghost use Rattle.host_store.specs.declared.beside.BesideCall.TheVariants.{Send, Receive};

use crate::udp_calls::release_udp;
use host_store::{Beside, BesideCall, Store, StoreError};
use std::alloc::AllocError;
use udp_records::{OpenUdp, PendingReceive, PendingSend};
use wasi_addr::IpSocketAddress;
use wasi_records::{RecordId, find, find_mut};
use wasi_udp::{RecvOp, SendOp};
use wasi_world::{
    Answer, Ids, IncomingDatagram, Octets, OpId, OutgoingDatagram, Refusal, TrapKind, World,
};

/// Whether something holds the network socket of the UDP socket with this record number: its
/// handle, or a datagram in progress. Takes no memory.
fn is_udp_held(store: &Store, place: RecordId) -> bool
    ensures { result ≡ is_udp_held store.now place }
{
    let Some(socket) = find::<OpenUdp>(&store.records, place) else {
        return false;
    };
    !socket.dropped || store.beside.has_datagram(place)
}

/// Closes the network socket of the UDP socket with this record number where nothing holds it
/// any more, and gives the record back then.
fn let_udp_go<W: World>(
    store: &mut Store,
    world: &mut W,
    op: OpId,
    place: RecordId,
) -> Result<(), AllocError>
    requires { (W.seen world.old).ended ≡ false }
    ensures asked { AsksFor (let_udp_go op place store.old) (W.seen world.old)
        (W.seen world.new) (λ done. (done, store.new)) result }
    ensures exclusive { store.new.standing ≡ store.old.standing }
    ensures err { OnErr result (store.new ≡ store.old) }
    ensures unasked { OnErr result (W.seen world.new ≡ W.seen world.old) }
    ensures sides { KnowsSides (W.seen world.old) store.old
        → KnowsSides (W.seen world.new) store.new }
{
    if is_udp_held(store, place) {
        return Ok(());
    }
    release_udp(store, world, op, place)
}

/// Drops the handle of 0.3 of the UDP socket with this record number. Where no datagram in
/// progress holds its network socket it is closed, and the record is given back.
pub fn drop_udp<W: World>(
    store: &mut Store,
    world: &mut W,
    op: OpId,
    place: RecordId,
) -> Result<(), AllocError>
    requires { (W.seen world.old).ended ≡ false }
    ensures asked { AsksFor (drop_udp op place store.old) (W.seen world.old) (W.seen world.new)
        (λ done. (done, store.new)) result }
    ensures sides { KnowsSides (W.seen world.old) store.old
        → KnowsSides (W.seen world.new) store.new }
{
    let Some(socket) = find_mut::<OpenUdp>(&mut store.records, place) else {
        return let_udp_go(store, world, op, place);
    };
    socket.dropped = true;
    let_udp_go(store, world, op, place)
}

/// Takes the datagram in progress of this line away, which is on the UDP socket with this record
/// number, and closes the network socket where nothing holds it any more.
pub fn drop_datagram<W: World>(
    store: &mut Store,
    world: &mut W,
    line: u32,
    place: RecordId,
) -> Result<(), AllocError>
    requires { (W.seen world.old).ended ≡ false }
    ensures asked { AsksFor (drop_datagram line place store.old) (W.seen world.old)
        (W.seen world.new) (λ done. (done, store.new)) result }
    ensures exclusive { store.new.standing ≡ store.old.standing }
    ensures err { OnErr result (store.new ≡ unbeside store.old line) }
    ensures unasked { OnErr result (W.seen world.new ≡ W.seen world.old) }
    ensures sides { KnowsSides (W.seen world.old) store.old
        → KnowsSides (W.seen world.new) store.new }
{
    let own = OpId {
        step: line,
        part: 0,
    };
    store.beside.remove(line);
    let_udp_go(store, world, own, place)
}

/// Sends a datagram (`send` of 0.3) on the UDP socket with this record number, by the name of
/// this line: it begins, and is polled once. While it is pending it stands beside other calls.
pub fn send_datagram<W: World>(
    store: &mut Store,
    world: &mut W,
    ids: Ids,
    place: RecordId,
    datagram: OutgoingDatagram,
) -> Result<Answer<()>, StoreError>
    requires { (W.seen world.old).ended ≡ false }
    ensures asked { AsksFor (send_of ids.line place datagram store.old) (W.seen world.old)
        (W.seen world.new) (λ answer. (answer, store.new)) (ends_as result) }
    ensures sides { KnowsSides (W.seen world.old) store.old
        → KnowsSides (W.seen world.new) store.new }
{
    let Some(socket) = find_mut::<OpenUdp>(&mut store.records, place) else {
        return Err(StoreError::Trap(TrapKind::NoSuchHandle));
    };
    let mut send = socket
        .inner
        .send(world, ids.own(), datagram.bytes, datagram.remote_address)?;
    let polled = send.poll(world, &socket.inner);
    keep_send(store, ids.line, place, send, polled)
}

/// Keeps a send that began where it is pending, as the last of the calls beside others.
fn keep_send(
    store: &mut Store,
    line: u32,
    place: RecordId,
    send: SendOp,
    polled: Result<Answer<()>, Refusal>,
) -> Result<Answer<()>, StoreError>
    requires { is_going send ≡ stays_going polled }
    ensures told { IfOk (ends_as result) (λ told. base_outcome polled ≡ Ok told) }
    ensures calls { OnOk (ends_as result) (store.new ≡ record store.old {
      beside =
          begun_beside store.old.beside (beside_as line (Send place send)) polled;
    }) }
    ensures sides { (s : Seen) → KnowsSides s store.old → KnowsSides s store.new }
{
    match polled {
        Ok(Answer::Ready(())) => Ok(Answer::Ready(())),
        Ok(Answer::Pending) => {
            let send = PendingSend::new(send);
            store.beside.push(Beside {
                line,
                call: BesideCall::Send {
                    socket: place,
                    send,
                },
            })?;
            Ok(Answer::Pending)
        }
        Err(Refusal::Code(code)) => Err(StoreError::Code(code)),
        Err(Refusal::Memory(e)) => Err(StoreError::Memory(e)),
    }
}

/// Polls the send that is pending under this number again, on the UDP socket with this record
/// number and with the remote address that it has now. Pending still, and where memory runs out
/// in the poll, it keeps its place beside other calls.
pub fn resend<W: World>(
    store: &mut Store,
    world: &mut W,
    line: u32,
    place: RecordId,
) -> Result<Answer<()>, StoreError>
    requires { (W.seen world.old).ended ≡ false }
    ensures asked { ResendsOf line place store.old (λ asks. AsksFor asks (W.seen world.old)
        (W.seen world.new) (λ answer. (answer, store.new)) (ends_as result)) }
    ensures exclusive { store.new.standing ≡ store.old.standing }
    ensures sides { KnowsSides (W.seen world.old) store.old
        → KnowsSides (W.seen world.new) store.new }
{
    let Some(socket) = find::<OpenUdp>(&store.records, place) else {
        return Err(StoreError::Trap(TrapKind::NoSuchHandle));
    };
    let away = BesideCall::Connect { socket: place };
    let Some(BesideCall::Send { send, .. }) = store.beside.replace(line, away) else {
        return Err(StoreError::Trap(TrapKind::NoSuchHandle));
    };
    let mut send = send.into_inner();
    match send.poll(world, &socket.inner) {
        Ok(Answer::Ready(())) => {
            drop_datagram(store, world, line, place)?;
            Ok(Answer::Ready(()))
        }
        Ok(Answer::Pending) => {
            put_send(store, line, place, send);
            Ok(Answer::Pending)
        }
        Err(Refusal::Code(code)) => {
            drop_datagram(store, world, line, place)?;
            Err(StoreError::Code(code))
        }
        Err(Refusal::Memory(e)) => {
            put_send(store, line, place, send);
            Err(StoreError::Memory(e))
        }
    }
}

/// Puts a send that is pending still in its place.
fn put_send(store: &mut Store, line: u32, place: RecordId, send: SendOp)
    requires { is_going send ≡ true }
    ensures { store.new ≡ record store.old { beside = beside_with store.old.beside line (Send place send) } }
{
    let send = PendingSend::new(send);
    store.beside.replace(
        line,
        BesideCall::Send {
            socket: place,
            send,
        },
    );
}

/// Receives a datagram (`receive` of 0.3) on the UDP socket with this record number, by the name
/// of this line: it begins, and is polled once. While it is pending it stands beside other calls.
pub fn receive_datagram<W: World>(
    store: &mut Store,
    world: &mut W,
    ids: Ids,
    place: RecordId,
) -> Result<Answer<IncomingDatagram>, StoreError>
    requires { (W.seen world.old).ended ≡ false }
    ensures asked { AsksFor (receive_of ids.line place store.old) (W.seen world.old)
        (W.seen world.new) (λ answer. (answer, store.new)) (ends_as result) }
    ensures sides { KnowsSides (W.seen world.old) store.old
        → KnowsSides (W.seen world.new) store.new }
{
    let Some(socket) = find_mut::<OpenUdp>(&mut store.records, place) else {
        return Err(StoreError::Trap(TrapKind::NoSuchHandle));
    };
    let mut receive = socket.inner.recv(world, ids.own())?;
    let polled = receive.poll(world, None);
    keep_receive(store, ids.line, place, receive, polled)
}

/// Keeps a receive that began where it is pending, as the last of the calls beside others.
fn keep_receive(
    store: &mut Store,
    line: u32,
    place: RecordId,
    receive: RecvOp,
    polled: Result<Answer<(Octets, IpSocketAddress)>, Refusal>,
) -> Result<Answer<IncomingDatagram>, StoreError>
    requires { is_going receive ≡ stays_going polled }
    ensures told { IfOk (ends_as result) (λ told. base_outcome (datagram_told polled) ≡ Ok told) }
    ensures calls { OnOk (ends_as result) (store.new ≡ record store.old {
      beside =
          begun_beside store.old.beside (beside_as line (Receive place receive)) polled;
    }) }
    ensures sides { (s : Seen) → KnowsSides s store.old → KnowsSides s store.new }
{
    match polled {
        Ok(Answer::Ready(came)) => Ok(Answer::Ready(datagram_of(came))),
        Ok(Answer::Pending) => {
            let receive = PendingReceive::new(receive);
            store.beside.push(Beside {
                line,
                call: BesideCall::Receive {
                    socket: place,
                    receive,
                },
            })?;
            Ok(Answer::Pending)
        }
        Err(Refusal::Code(code)) => Err(StoreError::Code(code)),
        Err(Refusal::Memory(e)) => Err(StoreError::Memory(e)),
    }
}

/// Polls the receive that is pending under this number again, on the UDP socket with this record
/// number. Pending still, and where memory runs out in the poll, it keeps its place beside other
/// calls.
pub fn rereceive<W: World>(
    store: &mut Store,
    world: &mut W,
    line: u32,
    place: RecordId,
) -> Result<Answer<IncomingDatagram>, StoreError>
    requires { (W.seen world.old).ended ≡ false }
    ensures asked { RereceivesOf line place store.old (λ asks. AsksFor asks (W.seen world.old)
        (W.seen world.new) (λ answer. (answer, store.new)) (ends_as result)) }
    ensures exclusive { store.new.standing ≡ store.old.standing }
    ensures sides { KnowsSides (W.seen world.old) store.old
        → KnowsSides (W.seen world.new) store.new }
{
    let Some(_socket) = find::<OpenUdp>(&store.records, place) else {
        return Err(StoreError::Trap(TrapKind::NoSuchHandle));
    };
    let away = BesideCall::Connect { socket: place };
    let Some(BesideCall::Receive { receive, .. }) = store.beside.replace(line, away) else {
        return Err(StoreError::Trap(TrapKind::NoSuchHandle));
    };
    let mut receive = receive.into_inner();
    match receive.poll(world, None) {
        Ok(Answer::Ready(came)) => {
            drop_datagram(store, world, line, place)?;
            Ok(Answer::Ready(datagram_of(came)))
        }
        Ok(Answer::Pending) => {
            put_receive(store, line, place, receive);
            Ok(Answer::Pending)
        }
        Err(Refusal::Code(code)) => {
            drop_datagram(store, world, line, place)?;
            Err(StoreError::Code(code))
        }
        Err(Refusal::Memory(e)) => {
            put_receive(store, line, place, receive);
            Err(StoreError::Memory(e))
        }
    }
}

/// Puts a receive that is pending still in its place.
fn put_receive(store: &mut Store, line: u32, place: RecordId, receive: RecvOp)
    requires { is_going receive ≡ true }
    ensures { store.new ≡ record store.old { beside = beside_with store.old.beside line (Receive place receive) } }
{
    let receive = PendingReceive::new(receive);
    store.beside.replace(
        line,
        BesideCall::Receive {
            socket: place,
            receive,
        },
    );
}

/// The datagram of these bytes and this sender. Takes no memory.
fn datagram_of(came: (Octets, IpSocketAddress)) -> IncomingDatagram
    ensures { result ≡ datagram_in came }
{
    let (bytes, remote_address) = came;
    IncomingDatagram {
        bytes,
        remote_address,
    }
}
