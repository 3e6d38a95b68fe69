//! The calls of TCP sockets (`tcp-socket` of `wasi:sockets/types@0.3`). Each tests its handle
//! first: one that isn't live, or is of another kind, is the trap `NoSuchHandle`.

ghost use Rattle.std.specs.Prelude.{◌≡◌, Ok, false};
ghost use Rattle.wasi_world.specs.Asks.{AsksFor};
ghost use Rattle.host_store.specs.Machine.{own_of};
ghost use Rattle.host_store.specs.Views.{state_of, HostKept};
ghost use Rattle.wasi_p3.specs.Stops.{ends_as};
ghost use Rattle.wasi_p3.specs.Tcp.{create, bind_to, connect_to, local_address};
ghost use Rattle.wasi_p3.specs.Tcp.{remote_address, is_listening, address_family};

use crate::error::{SocketError, answered, named};
pub use crate::options::{get_option, set_listen_backlog_size, set_option};
use host_store::{Kind, WasiSocketsCtxView, handles};
use tcp_records::TcpRecord;
use wasi_addr::{IpSocketAddress, SocketAddressFamily};
use wasi_world::{Answer, Handle, Ids, TrapKind, World};

/// Creates a TCP socket of this family (`tcp-socket.create`). A context that may not use TCP:
/// `AccessDenied`, and nothing is asked. Takes memory for its record and its handle.
pub fn create<W: World>(
    view: &mut WasiSocketsCtxView<'_>,
    world: &mut W,
    ids: &mut Ids,
    family: SocketAddressFamily,
) -> Result<Handle, SocketError>
    requires { (W.seen world.old).ended ≡ false }
    ensures asked { AsksFor (create (own_of ids.old.line) view.old.ctx.now family
        (state_of view.old)) (W.seen world.old) (W.seen world.new) (λ made. (
          made,
          state_of view.new,
        )) (ends_as result) }
    ensures kept { HostKept view.old view.new ids.old ids.new (W.seen world.old)
        (W.seen world.new) }
{
    let own = ids.own();
    let place = answered(host_tcp::make_tcp(view.store, world, own, view.ctx, family))?;
    let side = view.store.side(place);
    let handle = handles::make(view.table, world, own, Kind::Tcp3(place), None, side)?;
    Ok(handle)
}

/// Binds a socket to an address (`tcp-socket.bind`). Bound already, or not in its first state:
/// `InvalidState`. An address of another family, or that is none of a single host:
/// `InvalidArgument`. The check says no: `AccessDenied`. The network's code is returned. The call
/// is pending while its check is, and `wasi_host::resume` continues it.
pub fn bind<W: World>(
    view: &mut WasiSocketsCtxView<'_>,
    world: &mut W,
    ids: &mut Ids,
    socket: Handle,
    addr: IpSocketAddress,
) -> Result<Answer<()>, SocketError>
    requires { (W.seen world.old).ended ≡ false }
    ensures asked { AsksFor (bind_to ids.old socket addr (state_of view.old)) (W.seen world.old)
        (W.seen world.new) (λ answer. (answer, state_of view.new)) (ends_as result) }
    ensures kept { HostKept view.old view.new ids.old ids.new (W.seen world.old)
        (W.seen world.new) }
{
    let place = handles::tcp3_socket(view.table, socket)?;
    named(host_tcp::bind_tcp(view.store, world, *ids, place, addr))
}

/// Connects a socket to an address (`tcp-socket.connect`).
///
/// - Not in its first state: `InvalidState`.
/// - An address of another family, or that is none of a single other host: `InvalidArgument`.
/// - A check says no: `AccessDenied`. The network's code is returned. Either closes the socket.
///
/// The call is pending while the check or the network's connect is, beside other calls, and
/// `wasi_host::resume` continues it. A socket whose handle is dropped meanwhile is closed.
pub fn connect<W: World>(
    view: &mut WasiSocketsCtxView<'_>,
    world: &mut W,
    ids: &mut Ids,
    socket: Handle,
    addr: IpSocketAddress,
) -> Result<Answer<()>, SocketError>
    requires { (W.seen world.old).ended ≡ false }
    ensures asked { AsksFor (connect_to ids.old.line socket addr (state_of view.old))
        (W.seen world.old) (W.seen world.new) (λ answer. (answer, state_of view.new))
        (ends_as result) }
    ensures kept { HostKept view.old view.new ids.old ids.new (W.seen world.old)
        (W.seen world.new) }
{
    let place = handles::tcp3_socket(view.table, socket)?;
    named(host_tcp::connect_tcp(view.store, world, *ids, place, addr))
}

/// The address that a socket is bound to (`tcp-socket.get-local-address`). Not bound, or
/// connecting: `InvalidState`. Closed: its code. A code that the network reports is returned.
pub fn get_local_address<W: World>(
    view: &mut WasiSocketsCtxView<'_>,
    world: &mut W,
    ids: &mut Ids,
    socket: Handle,
) -> Result<IpSocketAddress, SocketError>
    requires { (W.seen world.old).ended ≡ false }
    ensures asked { AsksFor (local_address (own_of ids.old.line) socket (state_of view.old))
        (W.seen world.old) (W.seen world.new) (λ told. (told, state_of view.new))
        (ends_as result) }
    ensures kept { HostKept view.old view.new ids.old ids.new (W.seen world.old)
        (W.seen world.new) }
{
    let place = handles::tcp3_socket(view.table, socket)?;
    let Some(record) = view.store.find_mut::<TcpRecord>(place) else {
        return Err(SocketError::Trap(TrapKind::NoSuchHandle));
    };
    answered(record.local_address(world, ids.own()))
}

/// The address of the other end of a connection (`tcp-socket.get-remote-address`). Not connected:
/// `InvalidState`. Closed: its code. A code that the network reports is returned.
pub fn get_remote_address<W: World>(
    view: &mut WasiSocketsCtxView<'_>,
    world: &mut W,
    ids: &mut Ids,
    socket: Handle,
) -> Result<IpSocketAddress, SocketError>
    requires { (W.seen world.old).ended ≡ false }
    ensures asked { AsksFor (remote_address (own_of ids.old.line) socket (state_of view.old))
        (W.seen world.old) (W.seen world.new) (λ told. (told, state_of view.new))
        (ends_as result) }
    ensures kept { HostKept view.old view.new ids.old ids.new (W.seen world.old)
        (W.seen world.new) }
{
    let place = handles::tcp3_socket(view.table, socket)?;
    let Some(record) = view.store.find_mut::<TcpRecord>(place) else {
        return Err(SocketError::Trap(TrapKind::NoSuchHandle));
    };
    answered(record.remote_address(world, ids.own()))
}

/// Whether a socket is listening (`tcp-socket.get-is-listening`). Asks nothing.
pub fn get_is_listening(view: &WasiSocketsCtxView<'_>, socket: Handle) -> Result<bool, SocketError>
    ensures { ends_as result ≡ Ok (is_listening (state_of view.now) socket) }
{
    let place = handles::tcp3_socket(view.table, socket)?;
    match view.store.find::<TcpRecord>(place) {
        Some(record) => Ok(record.inner.is_listening()),
        None => Err(SocketError::Trap(TrapKind::NoSuchHandle)),
    }
}

/// The family of a socket (`tcp-socket.get-address-family`). Asks nothing.
pub fn get_address_family(
    view: &WasiSocketsCtxView<'_>,
    socket: Handle,
) -> Result<SocketAddressFamily, SocketError>
    ensures { ends_as result ≡ Ok (address_family (state_of view.now) socket) }
{
    let place = handles::tcp3_socket(view.table, socket)?;
    match view.store.find::<TcpRecord>(place) {
        Some(record) => Ok(record.inner.address_family()),
        None => Err(SocketError::Trap(TrapKind::NoSuchHandle)),
    }
}
