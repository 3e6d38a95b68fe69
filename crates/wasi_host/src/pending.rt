//! Pending calls, and how they continue.

ghost use Rattle.std.specs.Prelude.{◌≡◌, None, OnErr, Ok, false};
ghost use Rattle.wasi_world.specs.Asks.{AsksFor};
ghost use Rattle.record_common.specs.Stops.{host_outcome};
ghost use Rattle.wasi_host.specs.Pending.{outcome_of, handle_outcome, pair_outcome, places_outcome, stop_told, blocked_told, nothing_given, unblock_asks, go_on, resume_asks, resume_beside, datagram_outcome, refused_as, answered_told, resolved_told};
ghost use Rattle.host_udp.specs.SocketDatagrams.{is_datagram_in};
ghost use Rattle.host_store.specs.BaseStops.{ends_as};
ghost use Rattle.host_store.specs.declared.kind.Interface.TheVariants.{P3};
ghost use Rattle.host_store.specs.Beside.{beside_of};
ghost use Rattle.host_store.specs.KnownSides.{KnowsSides};
ghost use Rattle.host_store.specs.Standing.{call_of};
ghost use Rattle.host_store.specs.Views.{SameView, state_of};

use crate::polling::{Look, block_by, poll_by};
use host_lookups::reresolve_host;
use host_store::{
    BesideCall, BlockingCall, CallError, Interface, LookupError, StandingCall, StoreError,
    WasiSocketsCtxView,
};
use host_streams::{
    blocking_flush, blocking_read, blocking_skip, blocking_splice, finish_rest, write_rest,
};
use host_tcp::{drop_output, reconnect_tcp, relisten, relisten_tcp, tcp_rebind};
use host_udp::{
    create_on, drop_outgoing, rebind_udp, reconnect_udp, remake_streams, rereceive, resend,
};
use record_common::SocketError;
use std::alloc::Global;
use wasi_addr::{ErrorCode, lookup, p2, p3};
use wasi_records::RecordId;
use wasi_world::{Answer, Handle, Ids, IncomingDatagram, IpList, NumberList, Octets, World};

/// What a pending call gives once it is polled: its value, or the error of a call of a stream.
#[derive(Drop)]
pub enum Outcome {
    /// No value.
    Nothing,
    /// A handle.
    One(Handle),
    /// Two handles.
    Two(Handle, Handle),
    /// A number of bytes.
    Count(u64),
    /// Bytes.
    Bytes(Octets),
    /// The stream's last operation failed; the handle is that of the new error.
    Failed(ErrorCode, Handle),
    /// The stream is at its end, or closed.
    Closed,
    /// The places of the pollables that are ready, counted from 0 and rising.
    Places(NumberList),
    /// A call of 0.3 was refused with this code.
    Refused(p3::ErrorCode),
    /// Addresses that a lookup of 0.3 found.
    Addresses(IpList),
    /// A lookup of 0.3 failed with this code.
    Unresolved(lookup::ErrorCode),
    /// A datagram that a socket of 0.3 received.
    Datagram(IncomingDatagram),
}

impl Outcome {
    /// The outcome of a call without a value.
    fn of_nothing(answer: Answer<()>) -> Answer<Outcome>
        ensures { result ≡ outcome_of answer }
    {
        match answer {
            Answer::Ready(()) => Answer::Ready(Outcome::Nothing),
            Answer::Pending => Answer::Pending,
        }
    }

    /// The outcome of a call whose value is a datagram.
    fn of_datagram(answer: Answer<IncomingDatagram>) -> Answer<Outcome>
        ensures { result ≡ datagram_outcome answer }
    {
        match answer {
            Answer::Ready(datagram) => Answer::Ready(Outcome::Datagram(datagram)),
            Answer::Pending => Answer::Pending,
        }
    }

    /// The outcome of a call whose value is a handle.
    fn of_handle(answer: Answer<Handle>) -> Answer<Outcome>
        ensures { result ≡ handle_outcome answer }
    {
        match answer {
            Answer::Ready(handle) => Answer::Ready(Outcome::One(handle)),
            Answer::Pending => Answer::Pending,
        }
    }

    /// The outcome of a call whose value is two handles.
    fn of_pair(answer: Answer<(Handle, Handle)>) -> Answer<Outcome>
        ensures { result ≡ pair_outcome answer }
    {
        match answer {
            Answer::Ready((first, second)) => Answer::Ready(Outcome::Two(first, second)),
            Answer::Pending => Answer::Pending,
        }
    }

    /// The outcome of a call whose value is places of pollables.
    fn of_places(answer: Answer<NumberList>) -> Answer<Outcome>
        ensures { result ≡ places_outcome answer }
    {
        match answer {
            Answer::Ready(places) => Answer::Ready(Outcome::Places(places)),
            Answer::Pending => Answer::Pending,
        }
    }
}

/// The outcome of a call of a stream that failed; a trap and out of memory are errors here, too.
fn of_stop(error: CallError) -> Result<Answer<Outcome>, SocketError>
    ensures { host_outcome result ≡ stop_told error }
{
    match error {
        CallError::Failed(code, handle) => Ok(Answer::Ready(Outcome::Failed(code, handle))),
        CallError::Closed => Ok(Answer::Ready(Outcome::Closed)),
        CallError::Trap(kind) => Err(SocketError::Trap(kind)),
        CallError::Memory(e) => Err(SocketError::Memory(e)),
    }
}

/// The outcome of a call of a stream whose value is bytes.
fn of_bytes(answer: Result<Answer<Octets>, CallError>) -> Result<Answer<Outcome>, SocketError>
    ensures { host_outcome result ≡ blocked_told Outcome.Bytes answer }
{
    match answer {
        Ok(Answer::Ready(bytes)) => Ok(Answer::Ready(Outcome::Bytes(bytes))),
        Ok(Answer::Pending) => Ok(Answer::Pending),
        Err(error) => of_stop(error),
    }
}

/// The outcome of a call of a stream whose value is a number of bytes.
fn of_count(answer: Result<Answer<u64>, CallError>) -> Result<Answer<Outcome>, SocketError>
    ensures { host_outcome result ≡ blocked_told Outcome.Count answer }
{
    match answer {
        Ok(Answer::Ready(count)) => Ok(Answer::Ready(Outcome::Count(count))),
        Ok(Answer::Pending) => Ok(Answer::Pending),
        Err(error) => of_stop(error),
    }
}

/// The outcome of a call that gives nothing.
fn of_nothing(answer: Result<Answer<()>, CallError>) -> Result<Answer<Outcome>, SocketError>
    ensures { host_outcome result ≡ blocked_told nothing_given answer }
{
    match answer {
        Ok(Answer::Ready(())) => Ok(Answer::Ready(Outcome::Nothing)),
        Ok(Answer::Pending) => Ok(Answer::Pending),
        Err(error) => of_stop(error),
    }
}

/// The outcome of a call that is refused with this code: of 0.2 its error, of 0.3 an outcome.
fn of_refusal(interface: Interface, code: ErrorCode) -> Result<Answer<Outcome>, SocketError>
    ensures { host_outcome result ≡ Ok (refused_as interface code) }
{
    match interface {
        Interface::P2 => Err(SocketError::Code(p2::ErrorCode::from_code(code))),
        Interface::P3 => {
            let code = p3::ErrorCode::from_code(code);
            Ok(Answer::Ready(Outcome::Refused(code)))
        }
    }
}

/// The outcome of a create of a UDP socket or of a listen for this interface.
fn of_handle(
    interface: Interface,
    created: Result<Answer<Handle>, StoreError>,
) -> Result<Answer<Outcome>, SocketError>
    ensures { host_outcome result ≡ answered_told handle_outcome interface (ends_as created) }
{
    match created {
        Ok(answer) => Ok(Outcome::of_handle(answer)),
        Err(StoreError::Code(code)) => of_refusal(interface, code),
        Err(StoreError::Trap(kind)) => Err(SocketError::Trap(kind)),
        Err(StoreError::Memory(e)) => Err(SocketError::Memory(e)),
    }
}

/// The outcome of a bind or a connect for this interface.
fn of_start(
    interface: Interface,
    bound: Result<Answer<()>, StoreError>,
) -> Result<Answer<Outcome>, SocketError>
    ensures { host_outcome result ≡ answered_told outcome_of interface (ends_as bound) }
{
    match bound {
        Ok(answer) => Ok(Outcome::of_nothing(answer)),
        Err(StoreError::Code(code)) => of_refusal(interface, code),
        Err(StoreError::Trap(kind)) => Err(SocketError::Trap(kind)),
        Err(StoreError::Memory(e)) => Err(SocketError::Memory(e)),
    }
}

/// The outcome of a lookup of 0.3.
fn of_lookup(told: Result<Answer<IpList>, LookupError>) -> Result<Answer<Outcome>, SocketError>
    ensures { host_outcome result ≡ resolved_told (ends_as told) }
{
    match told {
        Ok(Answer::Ready(addresses)) => Ok(Answer::Ready(Outcome::Addresses(addresses))),
        Ok(Answer::Pending) => Ok(Answer::Pending),
        Err(LookupError::Code(code)) => Ok(Answer::Ready(Outcome::Unresolved(code))),
        Err(LookupError::Trap(kind)) => Err(SocketError::Trap(kind)),
        Err(LookupError::Memory(e)) => Err(SocketError::Memory(e)),
    }
}

/// The outcome of a receive of 0.3.
fn of_received(
    told: Result<Answer<IncomingDatagram>, StoreError>,
) -> Result<Answer<Outcome>, SocketError>
    ensures { host_outcome result ≡ answered_told datagram_outcome P3 (ends_as told) }
{
    match told {
        Ok(answer) => Ok(Outcome::of_datagram(answer)),
        Err(StoreError::Code(code)) => of_refusal(Interface::P3, code),
        Err(StoreError::Trap(kind)) => Err(SocketError::Trap(kind)),
        Err(StoreError::Memory(e)) => Err(SocketError::Memory(e)),
    }
}

/// Polls a call that blocks, under the names of its line.
fn unblock<W: World>(
    alloc: Global,
    view: &mut WasiSocketsCtxView<'_>,
    world: &mut W,
    ids: Ids,
    call: BlockingCall,
) -> Result<Answer<Outcome>, SocketError>
    requires { (W.seen world.old).ended ≡ false }
    ensures asked { AsksFor (unblock_asks (state_of view.old) ids call) (W.seen world.old)
        (W.seen world.new) (λ answer. (answer, state_of view.new)) (host_outcome result) }
    ensures sides { KnowsSides (W.seen world.old) view.old.store.now
        → KnowsSides (W.seen world.new) view.new.store.now }
    ensures view { SameView view.old view.new }
{
    let mut ids = ids;
    let mut again = Ids {
        line: ids.line,
        next_part: 1,
    };
    match call {
        BlockingCall::Read { input, len } => {
            of_bytes(blocking_read(alloc, view, world, &mut ids, input, len))
        }
        BlockingCall::Skip { input, len } => {
            of_count(blocking_skip(alloc, view, world, &mut ids, input, len))
        }
        BlockingCall::Write { output, rest } => {
            of_nothing(write_rest(alloc, view, world, &mut ids, output, rest))
        }
        BlockingCall::Finish { output } => of_nothing(finish_rest(view, world, &mut ids, output)),
        BlockingCall::Flush { output } => of_nothing(blocking_flush(view, world, &mut ids, output)),
        BlockingCall::Splice { output, input, len } => of_count(blocking_splice(
            alloc, view, world, &mut ids, output, input, len,
        )),
        BlockingCall::Block { pollable } => {
            let answer = block_by(view, world, &mut again, Look::Later, pollable)?;
            Ok(Outcome::of_nothing(answer))
        }
        BlockingCall::Poll { pollables } => {
            let answer = poll_by(alloc, view, world, &mut again, Look::Later, pollables)?;
            Ok(Outcome::of_places(answer))
        }
    }
}

/// Polls a listen once, of either interface: with this handle of its socket it is of 0.3.
fn go_on_listen<W: World>(
    view: &mut WasiSocketsCtxView<'_>,
    world: &mut W,
    ids: Ids,
    socket: RecordId,
    handle: Option<Handle>,
) -> Result<Answer<Outcome>, SocketError>
    requires { (W.seen world.old).ended ≡ false }
    ensures asked { AsksFor (go_on (state_of view.old) ids (StandingCall.Listen socket handle))
        (W.seen world.old) (W.seen world.new) (λ answer. (answer, state_of view.new))
        (host_outcome result) }
    ensures sides { KnowsSides (W.seen world.old) view.old.store.now
        → KnowsSides (W.seen world.new) view.new.store.now }
    ensures view { SameView view.old view.new }
{
    let Some(handle) = handle else {
        let answer = relisten(view.store, world, ids, socket)?;
        return Ok(Outcome::of_nothing(answer));
    };
    let listened = relisten_tcp(view.store, view.table, world, ids, socket, handle);
    of_handle(Interface::P3, listened)
}

/// Polls the pending call once, under the operation names of the line that began it. If it is still
/// pending it is stored again.
fn go_on<W: World>(
    alloc: Global,
    view: &mut WasiSocketsCtxView<'_>,
    world: &mut W,
    ids: Ids,
    call: StandingCall,
) -> Result<Answer<Outcome>, SocketError>
    requires { (W.seen world.old).ended ≡ false }
    ensures asked { AsksFor (go_on (state_of view.old) ids call) (W.seen world.old)
        (W.seen world.new) (λ answer. (answer, state_of view.new)) (host_outcome result) }
    ensures sides { KnowsSides (W.seen world.old) view.old.store.now
        → KnowsSides (W.seen world.new) view.new.store.now }
    ensures view { SameView view.old view.new }
{
    match call {
        StandingCall::Bind { socket, interface } => {
            let bound = tcp_rebind(view.store, world, ids, socket, interface);
            of_start(interface, bound)
        }
        StandingCall::Listen { socket, handle } => go_on_listen(view, world, ids, socket, handle),
        StandingCall::DropOutput { socket } => {
            let answer = drop_output(view.store, world, ids, socket)?;
            Ok(Outcome::of_nothing(answer))
        }
        StandingCall::UdpCreate { socket, interface } => {
            let created = create_on(view.store, view.table, world, ids, socket, interface);
            of_handle(interface, created)
        }
        StandingCall::UdpBind { socket, interface } => {
            let bound = rebind_udp(view.store, world, ids, socket, interface);
            of_start(interface, bound)
        }
        StandingCall::UdpConnect { socket, handle } => {
            let answer = remake_streams(view.store, view.table, world, ids, socket, handle)?;
            Ok(Outcome::of_pair(answer))
        }
        StandingCall::UdpConnect3 { socket } => {
            let connected = reconnect_udp(view.store, world, ids, socket);
            of_start(Interface::P3, connected)
        }
        StandingCall::DropOutgoing { socket } => {
            let answer = drop_outgoing(view.store, ids, socket);
            Ok(Outcome::of_nothing(answer))
        }
        StandingCall::Blocking(call) => unblock(alloc, view, world, ids, call),
    }
}

/// Polls the call with this number once that stands beside others, where it stands, under the
/// operation names of its line; `None` exactly where there is none. If it is over it is taken out.
/// Out of memory a connect and a lookup stand still, and so does a datagram whose poll ran out of
/// it.
fn resume_beside<W: World>(
    view: &mut WasiSocketsCtxView<'_>,
    world: &mut W,
    line: u32,
) -> Result<Option<Answer<Outcome>>, SocketError>
    requires { (W.seen world.old).ended ≡ false }
    ensures asked { AsksFor (resume_beside (state_of view.old) line
        (beside_of view.old.store.now line)) (W.seen world.old) (W.seen world.new)
        (λ answer. (answer, state_of view.new)) (host_outcome result) }
    ensures exclusive { view.new.store.now.standing ≡ view.old.store.now.standing }
    ensures stays { OnErr (host_outcome result)
        (is_datagram_in (beside_of view.old.store.now line) ≡ false
        → view.new.store.now.beside ≡ view.old.store.now.beside) }
    ensures sides { KnowsSides (W.seen world.old) view.old.store.now
        → KnowsSides (W.seen world.new) view.new.store.now }
    ensures view { SameView view.old view.new }
{
    let Some(beside) = view.store.find_beside(line) else {
        return Ok(None);
    };
    match &beside.call {
        BesideCall::Connect { socket } => {
            let socket = *socket;
            let connected = reconnect_tcp(view.store, world, line, socket);
            let answer = of_start(Interface::P3, connected)?;
            Ok(Some(answer))
        }
        BesideCall::Resolve { host } => {
            let host = host.try_clone()?;
            let answer = of_lookup(reresolve_host(view.store, world, line, host))?;
            Ok(Some(answer))
        }
        BesideCall::Send { socket, .. } => {
            let socket = *socket;
            let sent = resend(view.store, world, line, socket);
            let answer = of_start(Interface::P3, sent)?;
            Ok(Some(answer))
        }
        BesideCall::Receive { socket, .. } => {
            let socket = *socket;
            let answer = of_received(rereceive(view.store, world, line, socket))?;
            Ok(Some(answer))
        }
    }
}

/// Polls the pending call with this number once, under the operation names of the line that began
/// it; `None` exactly where there is none. If it is still pending it is stored again.
///
/// While an exclusive call of another number is pending, a call that stands beside others has to
/// answer `busy` in place of this.
///
/// The error of a call of a stream is an [`Outcome`], and so is the code of a call of 0.3. A code
/// that is an error is that of a bind, a listen, a create or a connect of 0.2.
///
/// Out of memory an exclusive call isn't pending any more. A connect and a lookup that stand beside
/// others still are, and so is a datagram, unless it had ended: then its network socket isn't
/// closed.
pub fn resume<W: World>(
    alloc: Global,
    view: &mut WasiSocketsCtxView<'_>,
    world: &mut W,
    line: u32,
) -> Result<Option<Answer<Outcome>>, SocketError>
    requires { (W.seen world.old).ended ≡ false }
    ensures asked { AsksFor (resume_asks (state_of view.old) line) (W.seen world.old)
        (W.seen world.new) (λ answer. (answer, state_of view.new)) (host_outcome result) }
    ensures gone { OnErr (host_outcome result)
        (call_of view.new.store.now.standing line ≡ None) }
    ensures stays { OnErr (host_outcome result)
        (call_of view.old.store.now.standing line ≡ None
        → is_datagram_in (beside_of view.old.store.now line) ≡ false
        → view.new.store.now.beside ≡ view.old.store.now.beside) }
    ensures sides { KnowsSides (W.seen world.old) view.old.store.now
        → KnowsSides (W.seen world.new) view.new.store.now }
    ensures view { SameView view.old view.new }
{
    let Some(standing) = view.store.take(line) else {
        return resume_beside(view, world, line);
    };
    match go_on(alloc, view, world, standing.ids, standing.call) {
        Ok(answer) => Ok(Some(answer)),
        Err(SocketError::Code(code)) => Err(SocketError::Code(code)),
        Err(SocketError::Trap(kind)) => Err(SocketError::Trap(kind)),
        Err(SocketError::Memory(e)) => {
            view.store.forget_call();
            Err(SocketError::Memory(e))
        }
    }
}
