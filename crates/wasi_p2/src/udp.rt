//! The calls of UDP sockets and of their datagram streams (`wasi:sockets/udp` and
//! `udp-create-socket`). Each tests its handles first: one that isn't live, or is of another kind,
//! is the trap `NoSuchHandle`.

ghost use Rattle.std.specs.Prelude.{◌≡◌, ◌+◌, ◌<◌, ◌≤◌, ◌^◌, IfOk, OnErr, Ok, false};
ghost use Rattle.wasi_world.specs.Asks.{AsksFor};
ghost use Rattle.wasi_world.specs.Seen.{Seen};
ghost use Rattle.socket_common.specs.Options.{largest_value, option_of, number_of};
ghost use Rattle.record_common.specs.Names.{RoseUpTo};
ghost use Rattle.record_common.specs.Stops.{host_outcome};
ghost use Rattle.host_store.specs.Machine.{own_of, udp_socket_at, incoming_at, outgoing_at};
ghost use Rattle.host_store.specs.KnownSides.{KnowsSides};
ghost use Rattle.host_udp.specs.UdpCreates.{create_udp_asks};
ghost use Rattle.host_store.specs.Views.{SameView, state_of, HostKept};
ghost use Rattle.wasi_p2.specs.Udp.{start_udp_bind_asks, finish_udp_bind_on, udp_local_on};
ghost use Rattle.wasi_p2.specs.Udp.{udp_remote_on, udp_family_on, get_udp_option_on};
ghost use Rattle.wasi_p2.specs.Udp.{set_udp_option_on, udp_stream_asks, check_send_on};
ghost use Rattle.wasi_p2.specs.Udp.{send_datagrams_on, receive_datagrams_on, ReceiveLoses};

use crate::SocketError;
use host_store::{WasiSocketsCtxView, handles};
use socket_common::Setting;
use std::alloc::Global;
use wasi_addr::{IpSocketAddress, SocketAddressFamily};
use wasi_world::{Answer, Handle, Ids, IncomingDatagrams, Opt, OutgoingDatagram, World};

/// Creates a UDP socket of this family (`create-udp-socket`). A context that may not use UDP:
/// `AccessDenied`, and nothing is asked. The call is pending until the network socket can send.
/// Takes memory for its record and its handle.
pub fn create_udp_socket<W: World>(
    view: &mut WasiSocketsCtxView<'_>,
    world: &mut W,
    ids: &mut Ids,
    family: SocketAddressFamily,
) -> Result<Answer<Handle>, SocketError>
    requires { (W.seen world.old).ended ≡ false }
    ensures asked { AsksFor (create_udp_asks (state_of view.old) ids.old view.old.ctx.now family)
        (W.seen world.old) (W.seen world.new) (λ answer. (answer, state_of view.new))
        (host_outcome result) }
    ensures kept { HostKept view.old view.new ids.old ids.new (W.seen world.old)
        (W.seen world.new) }
{
    host_udp::create_udp_socket(view.store, view.table, world, *ids, view.ctx, family)
}

/// Begins to bind a socket to an address (`start-bind`). The handle of the network is tested first.
/// An operation in progress: `ConcurrencyConflict`. While its check is pending, so is the call;
/// then the bind is in progress until [`finish_bind`].
pub fn start_bind<W: World>(
    view: &mut WasiSocketsCtxView<'_>,
    world: &mut W,
    ids: &mut Ids,
    this: Handle,
    network: Handle,
    addr: IpSocketAddress,
) -> Result<Answer<()>, SocketError>
    requires { (W.seen world.old).ended ≡ false }
    ensures asked { AsksFor (start_udp_bind_asks (state_of view.old) ids.old this network addr)
        (W.seen world.old) (W.seen world.new) (λ answer. (answer, state_of view.new))
        (host_outcome result) }
    ensures kept { HostKept view.old view.new ids.old ids.new (W.seen world.old)
        (W.seen world.new) }
{
    handles::network(view.table, network)?;
    let place = handles::udp_socket(view.table, this)?;
    host_udp::start_udp_bind(view.store, world, *ids, place, addr)
}

/// Ends a bind in progress (`finish-bind`). None in progress: `NotInProgress`. Asks nothing.
pub fn finish_bind(view: &mut WasiSocketsCtxView<'_>, this: Handle) -> Result<(), SocketError>
    ensures answer { host_outcome result ≡ Ok (finish_udp_bind_on (state_of view.old)
        (udp_socket_at (state_of view.old) this)).0 }
    ensures state { state_of view.new ≡ (finish_udp_bind_on (state_of view.old)
        (udp_socket_at (state_of view.old) this)).1 }
    ensures sides { (s : Seen) → KnowsSides s view.old.store.now → KnowsSides s view.new.store.now }
    ensures view { SameView view.old view.new }
{
    let place = handles::udp_socket(view.table, this)?;
    host_udp::finish_udp_bind(view.store, place)
}

/// The local address of a socket (`local-address`). Not bound: `InvalidState`. A code that the
/// network reports is returned.
pub fn local_address<W: World>(
    view: &mut WasiSocketsCtxView<'_>,
    world: &mut W,
    ids: &mut Ids,
    this: Handle,
) -> Result<IpSocketAddress, SocketError>
    requires { (W.seen world.old).ended ≡ false }
    ensures asked { AsksFor (udp_local_on (state_of view.old) (own_of ids.old.line)
        (udp_socket_at (state_of view.old) this)) (W.seen world.old) (W.seen world.new)
        (λ told. (told, state_of view.new)) (host_outcome result) }
    ensures kept { HostKept view.old view.new ids.old ids.new (W.seen world.old)
        (W.seen world.new) }
{
    let place = handles::udp_socket(view.table, this)?;
    host_udp::udp_local_address(view.store, world, ids.own(), place)
}

/// The remote address of a socket (`remote-address`). None: `InvalidState`. Asks nothing.
pub fn remote_address(
    view: &WasiSocketsCtxView<'_>,
    this: Handle,
) -> Result<IpSocketAddress, SocketError>
    ensures { host_outcome result ≡ Ok (udp_remote_on (state_of view.now)
        (udp_socket_at (state_of view.now) this)) }
{
    let place = handles::udp_socket(view.table, this)?;
    host_udp::udp_remote_address(view.store, place)
}

/// The family of a socket (`address-family`). Asks nothing.
pub fn address_family(
    view: &WasiSocketsCtxView<'_>,
    this: Handle,
) -> Result<SocketAddressFamily, SocketError>
    ensures { host_outcome result ≡ Ok (udp_family_on (state_of view.now)
        (udp_socket_at (state_of view.now) this)) }
{
    let place = handles::udp_socket(view.table, this)?;
    host_udp::udp_address_family(view.store, place)
}

/// Makes the datagram streams of a socket, its incoming and its outgoing one (`stream`).
///
/// - While one of them is live: `Trap(StreamsAlive)`. Not bound: `InvalidState`.
/// - With an address the socket is connected to it first, and datagrams come from there alone;
///   while the connect is pending, so is the call.
/// - Without one a connected socket is disconnected.
pub fn stream<W: World>(
    view: &mut WasiSocketsCtxView<'_>,
    world: &mut W,
    ids: &mut Ids,
    this: Handle,
    remote: Option<IpSocketAddress>,
) -> Result<Answer<(Handle, Handle)>, SocketError>
    requires { (W.seen world.old).ended ≡ false }
    ensures asked { AsksFor (udp_stream_asks (state_of view.old) ids.old this remote)
        (W.seen world.old) (W.seen world.new) (λ answer. (answer, state_of view.new))
        (host_outcome result) }
    ensures kept { HostKept view.old view.new ids.old ids.new (W.seen world.old)
        (W.seen world.new) }
{
    let place = handles::udp_socket(view.table, this)?;
    host_udp::make_streams(view.store, view.table, world, *ids, this, remote, place)
}

/// How many datagrams the next [`send`] may have (`outgoing-datagram-stream.check-send`): 16, or
/// none while the last one isn't sent yet. Asks nothing.
pub fn check_send(view: &mut WasiSocketsCtxView<'_>, this: Handle) -> Result<u64, SocketError>
    ensures answer { host_outcome result ≡ Ok (check_send_on (state_of view.old)
        (outgoing_at (state_of view.old) this)).0 }
    ensures state { state_of view.new ≡ (check_send_on (state_of view.old)
        (outgoing_at (state_of view.old) this)).1 }
    ensures sides { (s : Seen) → KnowsSides s view.old.store.now → KnowsSides s view.new.store.now }
    ensures view { SameView view.old view.new }
{
    let place = handles::outgoing(view.table, this)?;
    host_udp::check_send(view.store, place)
}

/// Sends datagrams one after another, and returns how many were sent
/// (`outgoing-datagram-stream.send`).
///
/// - An empty list sends none, and the permit stays. More than the permit: `Trap(NotPermitted)`.
///   Else the permit is used up.
/// - A datagram that isn't sent at once is sent in the background, counts as sent, and ends the
///   list.
/// - One that is refused ends the list; its code is returned where none was sent before it.
/// - The code of one that failed in the background is returned in place of the first.
pub fn send<W: World>(
    view: &mut WasiSocketsCtxView<'_>,
    world: &mut W,
    ids: &mut Ids,
    this: Handle,
    items: Vec<OutgoingDatagram>,
) -> Result<u64, SocketError>
    requires open { (W.seen world.old).ended ≡ false }
    requires names { ids.old.next_part + 255 < 2 ^ 64 }
    ensures asked { AsksFor (send_datagrams_on (state_of view.old) ids.old items.items
        (outgoing_at (state_of view.old) this)) (W.seen world.old) (W.seen world.new)
        (λ sent. (sent, state_of view.new)) (host_outcome result) }
    ensures sides { KnowsSides (W.seen world.old) view.old.store.now
        → KnowsSides (W.seen world.new) view.new.store.now }
    ensures view { SameView view.old view.new }
    ensures line { ids.new.line ≡ ids.old.line }
    ensures parts { RoseUpTo 255 ids.old ids.new }
{
    let place = handles::outgoing(view.table, this)?;
    host_udp::send_datagrams(view.store, world, ids, place, items)
}

/// Takes the datagrams that have come (`incoming-datagram-stream.receive`): at most this many, at
/// most 16, and until their lengths, with one more for each, reach 65,536.
///
/// - One that hasn't come yet ends the list, and is received in the background.
/// - A code ends the list, too: it is returned where no datagram comes before it, and dropped else.
///
/// Out of memory the datagrams that this call took are lost, and no others, and the stream is
/// otherwise as it was; the next one's receive wasn't begun, or it stays in progress.
pub fn receive<W: World>(
    alloc: Global,
    view: &mut WasiSocketsCtxView<'_>,
    world: &mut W,
    ids: &mut Ids,
    this: Handle,
    max_results: u64,
) -> Result<IncomingDatagrams, SocketError>
    requires open { (W.seen world.old).ended ≡ false }
    requires names { ids.old.next_part + 16 < 2 ^ 64 }
    ensures asked { AsksFor (receive_datagrams_on (state_of view.old) ids.old max_results
        (incoming_at (state_of view.old) this)) (W.seen world.old) (W.seen world.new)
        (λ received. (received, state_of view.new)) (host_outcome result) }
    ensures sides { KnowsSides (W.seen world.old) view.old.store.now
        → KnowsSides (W.seen world.new) view.new.store.now }
    ensures view { SameView view.old view.new }
    ensures line { ids.new.line ≡ ids.old.line }
    ensures parts { RoseUpTo 16 ids.old ids.new }
    ensures lost { OnErr (host_outcome result) (ReceiveLoses max_results ids.old
        (state_of view.old) (state_of view.new) (incoming_at (state_of view.old) this)
        (W.seen world.old) (W.seen world.new)) }
{
    let place = handles::incoming(view.table, this)?;
    host_udp::receive_datagrams(view.store, alloc, world, ids, place, max_results)
}

/// Reads an option.
///
/// - `unicast-hop-limit`: how many hops a packet lives.
/// - `receive-buffer-size`, `send-buffer-size`: the size of the buffer for what comes in, and
///   for what goes out, in bytes: half of what is reported.
///
/// Refused, it answers:
///
/// - A code that the network reports is returned.
/// - A reported value above the option's `largest_value` is `NotSupported`.
pub fn get_option<W: World>(
    view: &mut WasiSocketsCtxView<'_>,
    world: &mut W,
    ids: &mut Ids,
    this: Handle,
    option: Opt,
) -> Result<u64, SocketError>
    requires { (W.seen world.old).ended ≡ false }
    ensures asked { AsksFor (get_udp_option_on (state_of view.old) (own_of ids.old.line) option
        (udp_socket_at (state_of view.old) this)) (W.seen world.old) (W.seen world.new)
        (λ told. (told, state_of view.new)) (host_outcome result) }
    ensures within { IfOk result (λ value. value ≤ largest_value option) }
    ensures kept { HostKept view.old view.new ids.old ids.new (W.seen world.old)
        (W.seen world.new) }
{
    let place = handles::udp_socket(view.table, this)?;
    host_udp::get_udp_option(view.store, world, ids.own(), place, option)
}

/// Sets an option.
///
/// - `set-unicast-hop-limit`: set as it is.
/// - `set-receive-buffer-size`, `set-send-buffer-size`: in bytes, brought into 1 to 2,147,483,647.
///
/// Refused, it answers:
///
/// - 0 is `InvalidArgument`, and nothing is asked.
/// - A code that the network reports is returned.
pub fn set_option<W: World>(
    view: &mut WasiSocketsCtxView<'_>,
    world: &mut W,
    ids: &mut Ids,
    this: Handle,
    setting: Setting,
) -> Result<(), SocketError>
    requires { (W.seen world.old).ended ≡ false }
    ensures asked { AsksFor (set_udp_option_on (state_of view.old) (own_of ids.old.line)
        (option_of setting) (number_of setting) (udp_socket_at (state_of view.old) this))
        (W.seen world.old) (W.seen world.new) (λ done. (done, state_of view.new))
        (host_outcome result) }
    ensures kept { HostKept view.old view.new ids.old ids.new (W.seen world.old)
        (W.seen world.new) }
{
    let place = handles::udp_socket(view.table, this)?;
    host_udp::set_udp_option(view.store, world, ids.own(), place, setting)
}
