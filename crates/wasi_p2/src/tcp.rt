//! The calls of TCP sockets (`wasi:sockets/tcp` and `tcp-create-socket`). Each tests its handles
//! first: one that isn't live, or is of another kind, is the trap `NoSuchHandle`.

ghost use Rattle.std.specs.Prelude.{◌≡◌, ◌+◌, ◌<◌, ◌^◌, IfOk, IsSome, Ok, false};
ghost use Rattle.wasi_world.specs.Asks.{AsksFor};
ghost use Rattle.wasi_world.specs.Seen.{Seen};
ghost use Rattle.record_common.specs.Stops.{host_outcome};
ghost use Rattle.tcp_records.specs.InProgress.{is_bind, is_listen};
ghost use Rattle.host_store.specs.Kinds.{kind_at};
ghost use Rattle.tcp_records.specs.Listening.{TakesOne};
ghost use Rattle.host_store.specs.Machine.{own_of, socket_at};
ghost use Rattle.host_tcp.specs.Creates.{create_asks};
ghost use Rattle.host_store.specs.KnownSides.{KnowsSides};
ghost use Rattle.host_store.specs.Views.{SameView, state_of, HostKept};
ghost use Rattle.wasi_p2.specs.Tcp.{start_bind_asks, finish_on, start_connect_asks};
ghost use Rattle.wasi_p2.specs.Tcp.{finish_connect, make_streams, local_address, remote_address};
ghost use Rattle.wasi_p2.specs.Tcp.{is_listening, address_family};
ghost use Rattle.wasi_p2.specs.Tcp.{shutdown_on, start_listen_on, accepted_handles, accept_asks};
ghost use Rattle.wasi_p2.specs.Tcp.{ids_after_accept};

use crate::SocketError;
pub use crate::options::{get_option, set_listen_backlog_size, set_option};
use host_store::{Kind, WasiSocketsCtxView, handles};
use tcp_records::AsyncOperation;
use wasi_addr::{IpSocketAddress, ShutdownType, SocketAddressFamily};
use wasi_world::{Answer, Handle, Ids, Sock, World};

/// Creates a TCP socket of this family (`create-tcp-socket`). A context that may not use TCP:
/// `AccessDenied`, and nothing is asked. Takes memory for its record and its handle.
pub fn create_tcp_socket<W: World>(
    view: &mut WasiSocketsCtxView<'_>,
    world: &mut W,
    ids: &mut Ids,
    family: SocketAddressFamily,
) -> Result<Handle, SocketError>
    requires { (W.seen world.old).ended ≡ false }
    ensures asked { AsksFor (create_asks (state_of view.old) (own_of ids.old.line) view.old.ctx.now
        family) (W.seen world.old) (W.seen world.new) (λ made. (made, state_of view.new))
        (host_outcome result) }
    ensures kept { HostKept view.old view.new ids.old ids.new (W.seen world.old)
        (W.seen world.new) }
{
    host_tcp::tcp_create_socket(view.store, view.table, world, ids.own(), view.ctx, family)
}

/// Begins to bind a socket to an address (`start-bind`). The handle of the network is tested first.
/// An operation in progress: `ConcurrencyConflict`. While its check is pending, so is the call;
/// then the bind is in progress until [`finish_bind`].
pub fn start_bind<W: World>(
    view: &mut WasiSocketsCtxView<'_>,
    world: &mut W,
    ids: &mut Ids,
    this: Handle,
    network: Handle,
    addr: IpSocketAddress,
) -> Result<Answer<()>, SocketError>
    requires { (W.seen world.old).ended ≡ false }
    ensures asked { AsksFor (start_bind_asks (state_of view.old) ids.old this network addr)
        (W.seen world.old) (W.seen world.new) (λ answer. (answer, state_of view.new))
        (host_outcome result) }
    ensures kept { HostKept view.old view.new ids.old ids.new (W.seen world.old)
        (W.seen world.new) }
{
    handles::network(view.table, network)?;
    let place = handles::tcp_socket(view.table, this)?;
    host_tcp::tcp_start_bind(view.store, world, *ids, place, addr)
}

/// Ends a bind in progress (`finish-bind`). None in progress: `NotInProgress`. Asks nothing.
pub fn finish_bind(view: &mut WasiSocketsCtxView<'_>, this: Handle) -> Result<(), SocketError>
    ensures answer { host_outcome result ≡ Ok (finish_on is_bind (state_of view.old)
        (socket_at (state_of view.old) this)).0 }
    ensures state { state_of view.new ≡ (finish_on is_bind (state_of view.old)
        (socket_at (state_of view.old) this)).1 }
    ensures sides { (s : Seen) → KnowsSides s view.old.store.now → KnowsSides s view.new.store.now }
    ensures view { SameView view.old view.new }
{
    let place = handles::tcp_socket(view.table, this)?;
    host_tcp::tcp_finish(view.store, place, AsyncOperation::Bind)
}

/// Begins to connect a socket to an address (`start-connect`). An operation in progress:
/// `ConcurrencyConflict`. The connect is in progress until [`finish_connect`] ends it.
pub fn start_connect<W: World>(
    view: &mut WasiSocketsCtxView<'_>,
    world: &mut W,
    ids: &mut Ids,
    this: Handle,
    network: Handle,
    addr: IpSocketAddress,
) -> Result<(), SocketError>
    requires { (W.seen world.old).ended ≡ false }
    ensures asked { AsksFor (start_connect_asks (state_of view.old) (own_of ids.old.line) this
        network addr) (W.seen world.old) (W.seen world.new) (λ done. (done, state_of view.new))
        (host_outcome result) }
    ensures kept { HostKept view.old view.new ids.old ids.new (W.seen world.old)
        (W.seen world.new) }
{
    handles::network(view.table, network)?;
    let place = handles::tcp_socket(view.table, this)?;
    host_tcp::tcp_start_connect(view.store, world, ids.own(), place, addr)
}

/// Polls the connect in progress, and makes the input and the output of the connection once it is
/// done (`finish-connect`). None in progress: `NotInProgress`. Pending: `WouldBlock`.
pub fn finish_connect<W: World>(
    view: &mut WasiSocketsCtxView<'_>,
    world: &mut W,
    ids: &mut Ids,
    this: Handle,
) -> Result<(Handle, Handle), SocketError>
    requires { (W.seen world.old).ended ≡ false }
    ensures asked { AsksFor (finish_connect (own_of ids.old.line) this (state_of view.old))
        (W.seen world.old) (W.seen world.new) (λ made. (made, state_of view.new))
        (host_outcome result) }
    ensures kept { HostKept view.old view.new ids.old ids.new (W.seen world.old)
        (W.seen world.new) }
{
    let place = handles::tcp_socket(view.table, this)?;
    host_tcp::tcp_finish_connect(view.store, world, place)?;
    let side = view.store.side(place);
    make_streams(view, world, ids, this, place, side)
}

/// Makes the input and the output of a connection, as children of its socket.
fn make_streams<W: World>(
    view: &mut WasiSocketsCtxView<'_>,
    world: &mut W,
    ids: &mut Ids,
    this: Handle,
    place: usize,
    side: Option<Sock>,
) -> Result<(Handle, Handle), SocketError>
    requires open { (W.seen world.old).ended ≡ false }
    requires parent { IsSome (kind_at view.old.table.now this) }
    ensures asked { AsksFor (make_streams (own_of ids.old.line) this place side (state_of view.old))
        (W.seen world.old) (W.seen world.new) (λ made. (made, state_of view.new))
        (host_outcome result) }
    ensures kept { HostKept view.old view.new ids.old ids.new (W.seen world.old)
        (W.seen world.new) }
{
    let own = ids.own();
    let input = handles::make(view.table, world, own, Kind::Input(place), Some(this), side)?;
    let output = handles::make(
        view.table,
        world,
        own,
        Kind::Output(place),
        Some(this),
        side,
    )?;
    Ok((input, output))
}

/// Begins to make a socket listen (`start-listen`).
///
/// - An operation in progress: `ConcurrencyConflict`. A socket that isn't bound, or that is
///   connected, listening or closed: `InvalidState`.
/// - While its check is pending, so is the call; then the listen is in progress until
///   [`finish_listen`].
/// - One that is refused leaves the socket closed.
pub fn start_listen<W: World>(
    view: &mut WasiSocketsCtxView<'_>,
    world: &mut W,
    ids: &mut Ids,
    this: Handle,
) -> Result<Answer<()>, SocketError>
    requires { (W.seen world.old).ended ≡ false }
    ensures asked { AsksFor (start_listen_on (state_of view.old) ids.old
        (socket_at (state_of view.old) this)) (W.seen world.old) (W.seen world.new)
        (λ answer. (answer, state_of view.new)) (host_outcome result) }
    ensures kept { HostKept view.old view.new ids.old ids.new (W.seen world.old)
        (W.seen world.new) }
{
    let place = handles::tcp_socket(view.table, this)?;
    host_tcp::start_listen(view.store, world, *ids, place)
}

/// Ends a listen in progress (`finish-listen`). None in progress: `NotInProgress`. Asks nothing.
pub fn finish_listen(view: &mut WasiSocketsCtxView<'_>, this: Handle) -> Result<(), SocketError>
    ensures answer { host_outcome result ≡ Ok (finish_on is_listen (state_of view.old)
        (socket_at (state_of view.old) this)).0 }
    ensures state { state_of view.new ≡ (finish_on is_listen (state_of view.old)
        (socket_at (state_of view.old) this)).1 }
    ensures sides { (s : Seen) → KnowsSides s view.old.store.now → KnowsSides s view.new.store.now }
    ensures view { SameView view.old view.new }
{
    let place = handles::tcp_socket(view.table, this)?;
    host_tcp::tcp_finish(view.store, place, AsyncOperation::Listen)
}

/// Accepts a connection of a listener (`accept`): its socket, its input and its output.
///
/// - Not a listener: `InvalidState`.
/// - Nothing has arrived that the check allows: `WouldBlock`, and the accept stays in progress.
/// - The code of a fault is returned, and the next call begins the next accept.
/// - Where a handle can't be made, `Trap(Full)`, the connection has been taken.
///
/// An accept that begins takes the next name of the line.
pub fn accept<W: World>(
    view: &mut WasiSocketsCtxView<'_>,
    world: &mut W,
    ids: &mut Ids,
    this: Handle,
) -> Result<(Handle, Handle, Handle), SocketError>
    requires open { (W.seen world.old).ended ≡ false }
    requires names { ids.old.next_part + 1 < 2 ^ 64 }
    ensures asked { AsksFor (accept_asks (state_of view.old) ids.old this) (W.seen world.old)
        (W.seen world.new) (λ made. (made, state_of view.new)) (host_outcome result) }
    ensures sides { KnowsSides (W.seen world.old) view.old.store.now
        → KnowsSides (W.seen world.new) view.new.store.now }
    ensures view { SameView view.old view.new }
    ensures ids { TakesOne ids.old ids.new }
    ensures names { IfOk (host_outcome result) (λ answer. ids.new
        ≡ ids_after_accept (state_of view.old) ids.old this) }
{
    let place = handles::tcp_socket(view.table, this)?;
    let accepted = host_tcp::accept(view.store, world, ids, place)?;
    let side = view.store.side(accepted);
    make_accepted(view, world, ids, this, accepted, side)
}

/// Makes the handles of an accepted connection: its socket, a child of the listener, its input and
/// its output.
fn make_accepted<W: World>(
    view: &mut WasiSocketsCtxView<'_>,
    world: &mut W,
    ids: &mut Ids,
    listener: Handle,
    place: usize,
    side: Option<Sock>,
) -> Result<(Handle, Handle, Handle), SocketError>
    requires { (W.seen world.old).ended ≡ false }
    ensures asked { AsksFor (accepted_handles (state_of view.old) (own_of ids.old.line) listener
        place side) (W.seen world.old) (W.seen world.new) (λ made. (made, state_of view.new))
        (host_outcome result) }
    ensures kept { HostKept view.old view.new ids.old ids.new (W.seen world.old)
        (W.seen world.new) }
{
    let kind = Kind::Tcp2(place);
    let socket = handles::make(view.table, world, ids.own(), kind, Some(listener), side)?;
    let (input, output) = make_streams(view, world, ids, socket, place, side)?;
    Ok((socket, input, output))
}

/// The address that a socket is bound to (`local-address`). Not bound, or connecting:
/// `InvalidState`. Closed: its code. A code that the network reports is returned.
pub fn local_address<W: World>(
    view: &mut WasiSocketsCtxView<'_>,
    world: &mut W,
    ids: &mut Ids,
    this: Handle,
) -> Result<IpSocketAddress, SocketError>
    requires { (W.seen world.old).ended ≡ false }
    ensures asked { AsksFor (local_address (own_of ids.old.line) this (state_of view.old))
        (W.seen world.old) (W.seen world.new) (λ told. (told, state_of view.new))
        (host_outcome result) }
    ensures kept { HostKept view.old view.new ids.old ids.new (W.seen world.old)
        (W.seen world.new) }
{
    let place = handles::tcp_socket(view.table, this)?;
    host_tcp::tcp_local_address(view.store, world, ids.own(), place)
}

/// The address of the other end of a connection (`remote-address`). Not connected: `InvalidState`.
/// Closed: its code. A code that the network reports is returned.
pub fn remote_address<W: World>(
    view: &mut WasiSocketsCtxView<'_>,
    world: &mut W,
    ids: &mut Ids,
    this: Handle,
) -> Result<IpSocketAddress, SocketError>
    requires { (W.seen world.old).ended ≡ false }
    ensures asked { AsksFor (remote_address (own_of ids.old.line) this (state_of view.old))
        (W.seen world.old) (W.seen world.new) (λ told. (told, state_of view.new))
        (host_outcome result) }
    ensures kept { HostKept view.old view.new ids.old ids.new (W.seen world.old)
        (W.seen world.new) }
{
    let place = handles::tcp_socket(view.table, this)?;
    host_tcp::tcp_remote_address(view.store, world, ids.own(), place)
}

/// Whether a socket is listening (`is-listening`). Asks nothing.
pub fn is_listening(view: &mut WasiSocketsCtxView<'_>, this: Handle) -> Result<bool, SocketError>
    ensures answer { host_outcome result ≡ Ok (is_listening (state_of view.old) this) }
    ensures state { state_of view.new ≡ state_of view.old }
    ensures sides { (s : Seen) → KnowsSides s view.old.store.now → KnowsSides s view.new.store.now }
    ensures view { SameView view.old view.new }
{
    let place = handles::tcp_socket(view.table, this)?;
    host_tcp::is_listening(view.store, place)
}

/// The family of a socket (`address-family`). Asks nothing.
pub fn address_family(
    view: &mut WasiSocketsCtxView<'_>,
    this: Handle,
) -> Result<SocketAddressFamily, SocketError>
    ensures answer { host_outcome result ≡ Ok (address_family (state_of view.old) this) }
    ensures state { state_of view.new ≡ state_of view.old }
    ensures sides { (s : Seen) → KnowsSides s view.old.store.now → KnowsSides s view.new.store.now }
    ensures view { SameView view.old view.new }
{
    let place = handles::tcp_socket(view.table, this)?;
    host_tcp::tcp_address_family(view.store, place)
}

/// Releases the receiving half of a connection, the sending half, or both in that order
/// (`shutdown`). Before its streams were made: `InvalidState`. While a write is in progress the
/// sending half is released after it.
pub fn shutdown<W: World>(
    view: &mut WasiSocketsCtxView<'_>,
    world: &mut W,
    ids: &mut Ids,
    this: Handle,
    how: ShutdownType,
) -> Result<(), SocketError>
    requires { (W.seen world.old).ended ≡ false }
    ensures asked { AsksFor (shutdown_on (state_of view.old) (own_of ids.old.line) how
        (socket_at (state_of view.old) this)) (W.seen world.old) (W.seen world.new)
        (λ done. (done, state_of view.new)) (host_outcome result) }
    ensures kept { HostKept view.old view.new ids.old ids.new (W.seen world.old)
        (W.seen world.new) }
{
    let place = handles::tcp_socket(view.table, this)?;
    host_tcp::shutdown(view.store, world, ids.own(), place, how)
}
