//! The calls of UDP sockets (`udp-socket` of `wasi:sockets/types@0.3`). Each tests its handle
//! first: one that isn't live, or is of another kind, is the trap `NoSuchHandle`.

ghost use Rattle.std.specs.Prelude.{◌≡◌, ◌≤◌, IfOk, Ok, false};
ghost use Rattle.wasi_world.specs.Asks.{AsksFor};
ghost use Rattle.socket_common.specs.Options.{largest_value, option_of, number_of};
ghost use Rattle.host_store.specs.Machine.{own_of};
ghost use Rattle.host_store.specs.Views.{state_of, HostKept};
ghost use Rattle.wasi_p3.specs.Stops.{ends_as};
ghost use Rattle.wasi_p3.specs.Udp.{create, bind_to, connect_to, local_address, remote_address};
ghost use Rattle.wasi_p3.specs.Udp.{send, receive};
ghost use Rattle.wasi_p3.specs.Udp.{address_family, disconnect, get_option, set_option};

use crate::error::{SocketError, answered, named, told};
use host_store::{Interface, WasiSocketsCtxView, handles};
use socket_common::Setting;
use udp_records::OpenUdp;
use wasi_addr::{IpSocketAddress, SocketAddressFamily};
use wasi_world::{Answer, Handle, Ids, IncomingDatagram, Opt, OutgoingDatagram, TrapKind, World};

/// Creates a UDP socket of this family (`udp-socket.create`). A context that may not use UDP:
/// `AccessDenied`, and nothing is asked. The call is pending until the network socket can send, and
/// `wasi_host::resume` continues it. Takes memory for its record and its handle.
pub fn create<W: World>(
    view: &mut WasiSocketsCtxView<'_>,
    world: &mut W,
    ids: &mut Ids,
    family: SocketAddressFamily,
) -> Result<Answer<Handle>, SocketError>
    requires { (W.seen world.old).ended ≡ false }
    ensures asked { AsksFor (create ids.old view.old.ctx.now family (state_of view.old))
        (W.seen world.old) (W.seen world.new) (λ answer. (answer, state_of view.new))
        (ends_as result) }
    ensures kept { HostKept view.old view.new ids.old ids.new (W.seen world.old)
        (W.seen world.new) }
{
    let ids = *ids;
    named(host_udp::create_udp(
        view.store,
        view.table,
        world,
        ids,
        view.ctx,
        family,
        Interface::P3,
    ))
}

/// Binds a socket to an address (`udp-socket.bind`). Bound already: `InvalidState`. An address of
/// another family: `InvalidArgument`. The check says no: `AccessDenied`. The network's code is
/// returned. The call is pending while its check is, and `wasi_host::resume` continues
/// it.
pub fn bind<W: World>(
    view: &mut WasiSocketsCtxView<'_>,
    world: &mut W,
    ids: &mut Ids,
    socket: Handle,
    addr: IpSocketAddress,
) -> Result<Answer<()>, SocketError>
    requires { (W.seen world.old).ended ≡ false }
    ensures asked { AsksFor (bind_to ids.old socket addr (state_of view.old)) (W.seen world.old)
        (W.seen world.new) (λ answer. (answer, state_of view.new)) (ends_as result) }
    ensures kept { HostKept view.old view.new ids.old ids.new (W.seen world.old)
        (W.seen world.new) }
{
    let place = handles::udp3_socket(view.table, socket)?;
    named(host_udp::bind_udp(view.store, world, *ids, place, addr))
}

/// Connects a socket to an address (`udp-socket.connect`), also one that is connected already.
///
/// - An address of another family, or that is none of a single other host: `InvalidArgument`.
/// - A check says no: `AccessDenied`. One that isn't bound has the wildcard checked for the bind,
///   and each has the address checked for sending and for receiving.
/// - The network's code is returned. The remote address is then what the network says it is.
///
/// The call is pending while a check is, and `wasi_host::resume` continues it.
pub fn connect<W: World>(
    view: &mut WasiSocketsCtxView<'_>,
    world: &mut W,
    ids: &mut Ids,
    socket: Handle,
    addr: IpSocketAddress,
) -> Result<Answer<()>, SocketError>
    requires { (W.seen world.old).ended ≡ false }
    ensures asked { AsksFor (connect_to ids.old socket addr (state_of view.old))
        (W.seen world.old) (W.seen world.new) (λ answer. (answer, state_of view.new))
        (ends_as result) }
    ensures kept { HostKept view.old view.new ids.old ids.new (W.seen world.old)
        (W.seen world.new) }
{
    let place = handles::udp3_socket(view.table, socket)?;
    named(host_udp::connect_udp(view.store, world, *ids, place, addr))
}

/// Sends a datagram (`udp-socket.send`), to its address or to the one that the socket is connected
/// to.
///
/// - More than 65,535 bytes: `DatagramTooLarge`.
/// - An address of another family, or that is none of a single other host, or other than the one
///   that the socket is connected to; or none, and the socket isn't connected: `InvalidArgument`.
/// - A check says no: `AccessDenied`. A socket that isn't bound has the wildcard checked for the
///   bind first.
/// - The socket was connected to its address at the start, and is connected to another one now, or
///   to none: `InvalidState`, and it isn't sent.
/// - The network's code is returned.
///
/// While it is pending it stands beside other calls, and holds the socket's network socket.
/// `wasi_host::resume` continues it.
pub fn send<W: World>(
    view: &mut WasiSocketsCtxView<'_>,
    world: &mut W,
    ids: &mut Ids,
    socket: Handle,
    datagram: OutgoingDatagram,
) -> Result<Answer<()>, SocketError>
    requires { (W.seen world.old).ended ≡ false }
    ensures asked { AsksFor (send ids.old.line socket datagram (state_of view.old))
        (W.seen world.old) (W.seen world.new) (λ answer. (answer, state_of view.new))
        (ends_as result) }
    ensures kept { HostKept view.old view.new ids.old ids.new (W.seen world.old)
        (W.seen world.new) }
{
    let place = handles::udp3_socket(view.table, socket)?;
    named(host_udp::send_datagram(view.store, world, *ids, place, datagram))
}

/// Receives a datagram (`udp-socket.receive`), whoever sent it. Not bound: `InvalidState`. A
/// datagram whose sender's check says no is dropped, and the next one is waited for. The network's
/// code is returned.
///
/// While it is pending it stands beside other calls, and holds the socket's network socket.
/// `wasi_host::resume` continues it.
pub fn receive<W: World>(
    view: &mut WasiSocketsCtxView<'_>,
    world: &mut W,
    ids: &mut Ids,
    socket: Handle,
) -> Result<Answer<IncomingDatagram>, SocketError>
    requires { (W.seen world.old).ended ≡ false }
    ensures asked { AsksFor (receive ids.old.line socket (state_of view.old)) (W.seen world.old)
        (W.seen world.new) (λ answer. (answer, state_of view.new)) (ends_as result) }
    ensures kept { HostKept view.old view.new ids.old ids.new (W.seen world.old)
        (W.seen world.new) }
{
    let place = handles::udp3_socket(view.table, socket)?;
    named(host_udp::receive_datagram(view.store, world, *ids, place))
}

/// The address that a socket is bound to (`udp-socket.get-local-address`). Not bound:
/// `InvalidState`. A code that the network reports is returned.
pub fn get_local_address<W: World>(
    view: &mut WasiSocketsCtxView<'_>,
    world: &mut W,
    ids: &mut Ids,
    socket: Handle,
) -> Result<IpSocketAddress, SocketError>
    requires { (W.seen world.old).ended ≡ false }
    ensures asked { AsksFor (local_address (own_of ids.old.line) socket (state_of view.old))
        (W.seen world.old) (W.seen world.new) (λ told. (told, state_of view.new)) (ends_as result) }
    ensures kept { HostKept view.old view.new ids.old ids.new (W.seen world.old)
        (W.seen world.new) }
{
    let place = handles::udp3_socket(view.table, socket)?;
    let Some(socket) = view.store.find_mut::<OpenUdp>(place) else {
        return Err(SocketError::Trap(TrapKind::NoSuchHandle));
    };
    answered(socket.local_address(world, ids.own()))
}

/// The address that a socket is connected to (`udp-socket.get-remote-address`). None:
/// `InvalidState`. Asks nothing.
pub fn get_remote_address(
    view: &WasiSocketsCtxView<'_>,
    socket: Handle,
) -> Result<IpSocketAddress, SocketError>
    ensures { ends_as result ≡ Ok (remote_address (state_of view.now) socket) }
{
    let place = handles::udp3_socket(view.table, socket)?;
    match view.store.find::<OpenUdp>(place) {
        Some(socket) => told(socket.inner.remote_address()),
        None => Err(SocketError::Trap(TrapKind::NoSuchHandle)),
    }
}

/// The family of a socket (`udp-socket.get-address-family`). Asks nothing.
pub fn get_address_family(
    view: &WasiSocketsCtxView<'_>,
    socket: Handle,
) -> Result<SocketAddressFamily, SocketError>
    ensures { ends_as result ≡ Ok (address_family (state_of view.now) socket) }
{
    let place = handles::udp3_socket(view.table, socket)?;
    match view.store.find::<OpenUdp>(place) {
        Some(socket) => Ok(socket.inner.address_family()),
        None => Err(SocketError::Trap(TrapKind::NoSuchHandle)),
    }
}

/// Takes a socket's remote address away (`udp-socket.disconnect`), by which it receives from
/// anywhere again. None: `InvalidState`, and nothing is asked. The network's code is returned once
/// it was asked for the remote address again.
pub fn disconnect<W: World>(
    view: &mut WasiSocketsCtxView<'_>,
    world: &mut W,
    ids: &mut Ids,
    socket: Handle,
) -> Result<(), SocketError>
    requires { (W.seen world.old).ended ≡ false }
    ensures asked { AsksFor (disconnect (own_of ids.old.line) socket (state_of view.old))
        (W.seen world.old) (W.seen world.new) (λ done. (done, state_of view.new)) (ends_as result) }
    ensures kept { HostKept view.old view.new ids.old ids.new (W.seen world.old)
        (W.seen world.new) }
{
    let place = handles::udp3_socket(view.table, socket)?;
    let Some(socket) = view.store.find_mut::<OpenUdp>(place) else {
        return Err(SocketError::Trap(TrapKind::NoSuchHandle));
    };
    answered(socket.inner.disconnect(world, ids.own()))
}

/// Reads an option.
///
/// - `get-unicast-hop-limit`: how many hops a packet lives.
/// - `get-receive-buffer-size`, `get-send-buffer-size`: the size of the buffer for what comes in, and
///   for what goes out, in bytes: half of what is reported.
///
/// Refused, it answers:
///
/// - A code that the network reports is returned.
/// - A reported value above the option's `largest_value` is `NotSupported`.
pub fn get_option<W: World>(
    view: &mut WasiSocketsCtxView<'_>,
    world: &mut W,
    ids: &mut Ids,
    socket: Handle,
    option: Opt,
) -> Result<u64, SocketError>
    requires { (W.seen world.old).ended ≡ false }
    ensures asked { AsksFor (get_option (own_of ids.old.line) socket option (state_of view.old))
        (W.seen world.old) (W.seen world.new) (λ told. (told, state_of view.new)) (ends_as result) }
    ensures within { IfOk result (λ value. value ≤ largest_value option) }
    ensures kept { HostKept view.old view.new ids.old ids.new (W.seen world.old)
        (W.seen world.new) }
{
    let place = handles::udp3_socket(view.table, socket)?;
    let Some(socket) = view.store.find_mut::<OpenUdp>(place) else {
        return Err(SocketError::Trap(TrapKind::NoSuchHandle));
    };
    answered(socket.inner.get_option(world, ids.own(), option))
}

/// Sets an option. The socket stays as it is.
///
/// - `set-unicast-hop-limit`: set as it is.
/// - `set-receive-buffer-size`, `set-send-buffer-size`: in bytes, brought into 1 to 2,147,483,647.
///
/// Refused, it answers:
///
/// - 0 is `InvalidArgument`, and nothing is asked.
/// - A code that the network reports is returned.
pub fn set_option<W: World>(
    view: &mut WasiSocketsCtxView<'_>,
    world: &mut W,
    ids: &mut Ids,
    socket: Handle,
    setting: Setting,
) -> Result<(), SocketError>
    requires { (W.seen world.old).ended ≡ false }
    ensures asked { AsksFor (set_option (own_of ids.old.line) socket (option_of setting)
        (number_of setting) (state_of view.old))
        (W.seen world.old) (W.seen world.new) (λ done. (done, state_of view.new)) (ends_as result) }
    ensures kept { HostKept view.old view.new ids.old ids.new (W.seen world.old)
        (W.seen world.new) }
{
    let place = handles::udp3_socket(view.table, socket)?;
    let Some(socket) = view.store.find_mut::<OpenUdp>(place) else {
        return Err(SocketError::Trap(TrapKind::NoSuchHandle));
    };
    answered(socket.inner.set_option(world, ids.own(), setting))
}
