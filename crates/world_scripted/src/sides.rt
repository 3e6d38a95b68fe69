//! What a scripted world knows of its network sockets: what the defaults of `local`, `peer` and
//! `get-option` go by.

ghost use Rattle.std.specs.Prelude.{◌≡◌, OnOk, OnErr, None, Some, true};
ghost use Rattle.std.specs.HashMap.{IsUnchanged};
ghost use Rattle.wasi_addr.specs.Address.{wildcard};
ghost use Rattle.wasi_world.specs.declared.call.Told.{Told};
ghost use Rattle.wasi_world.specs.declared.ids.OpId.{OpId};
ghost use Rattle.wasi_world.specs.declared.sides.Side.{Side};
ghost use Rattle.wasi_world.specs.Sides.{unset, value_of, with_value, new_side, chosen_port};
ghost use Rattle.wasi_world.specs.Sides.{with_port, bound, bound_anyway, default_local, connected};
ghost use Rattle.wasi_world.specs.Sides.{disconnected, handed, with_option, change, changed};
ghost use Rattle.wasi_world.specs.Sides.{sides_after};
ghost use Rattle.world_scripted.specs.Known.{known};

use std::alloc::AllocError;
use std::collections::HashMap;
use wasi_addr::{
    IpSocketAddress, Ipv4SocketAddress, Ipv6SocketAddress, SocketAddressFamily, unspecified_addr,
};
use wasi_world::sides::{Options, Side};
use wasi_world::{Call, OpId, Opt, Sock, Told};

/// The options of a network socket that was just made.
const fn unset() -> Options
    ensures { result ≡ unset }
{
    Options {
        keep_alive_enabled: 64,
        keep_alive_idle_time: 64,
        keep_alive_interval: 64,
        keep_alive_count: 64,
        hop_limit: 64,
        receive_buffer_size: 64,
        send_buffer_size: 64,
    }
}

/// The value of an option.
pub fn value_of(options: &Options, option: Opt) -> u64
    ensures { result ≡ value_of options.now option }
{
    match option {
        Opt::KeepAliveEnabled => options.keep_alive_enabled,
        Opt::KeepAliveIdleTime => options.keep_alive_idle_time,
        Opt::KeepAliveInterval => options.keep_alive_interval,
        Opt::KeepAliveCount => options.keep_alive_count,
        Opt::HopLimit => options.hop_limit,
        Opt::ReceiveBufferSize => options.receive_buffer_size,
        Opt::SendBufferSize => options.send_buffer_size,
    }
}

/// Sets an option's value.
fn set(options: &mut Options, option: Opt, value: u64)
    ensures { options.new ≡ with_value options.old option value }
{
    match option {
        Opt::KeepAliveEnabled => options.keep_alive_enabled = value,
        Opt::KeepAliveIdleTime => options.keep_alive_idle_time = value,
        Opt::KeepAliveInterval => options.keep_alive_interval = value,
        Opt::KeepAliveCount => options.keep_alive_count = value,
        Opt::HopLimit => options.hop_limit = value,
        Opt::ReceiveBufferSize => options.receive_buffer_size = value,
        Opt::SendBufferSize => options.send_buffer_size = value,
    }
}

/// The address with a port that isn't 0: port 50000 takes the place of port 0.
fn with_port(addr: IpSocketAddress) -> IpSocketAddress
    ensures { result ≡ with_port addr }
{
    match addr {
        IpSocketAddress::Ipv4(addr) => IpSocketAddress::Ipv4(Ipv4SocketAddress {
            port: chosen_port(addr.port),
            ..addr
        }),
        IpSocketAddress::Ipv6(addr) => IpSocketAddress::Ipv6(Ipv6SocketAddress {
            port: chosen_port(addr.port),
            ..addr
        }),
    }
}

fn chosen_port(port: u16) -> u16
    ensures { result ≡ chosen_port port }
{
    if port == 0 { 50000 } else { port }
}

/// A network socket of this family that was just made.
fn new_side(family: SocketAddressFamily) -> Side
    ensures { result ≡ new_side family }
{
    Side {
        family,
        local: None,
        peer: None,
        options: unset(),
    }
}

/// It is bound to this address, with a port of its own where that is 0.
fn bound(side: Side, addr: IpSocketAddress) -> Side
    ensures { result ≡ bound side addr }
{
    Side {
        local: Some(with_port(addr)),
        ..side
    }
}

/// It is bound: to the wildcard, where it wasn't bound.
fn bound_anyway(side: Side) -> Side
    ensures { result ≡ bound_anyway side }
{
    let wildcard = with_port(unspecified_addr(side.family));
    Side {
        local: Some(side.local.unwrap_or(wildcard)),
        ..side
    }
}

/// It is connected to this address, and bound.
fn connected(side: Side, addr: IpSocketAddress) -> Side
    ensures { result ≡ connected side addr }
{
    Side {
        peer: Some(addr),
        ..bound_anyway(side)
    }
}

/// It has no peer.
fn disconnected(side: Side) -> Side
    ensures { result ≡ disconnected side }
{
    Side { peer: None, ..side }
}

/// The address that `local` reports by default.
pub fn default_local(side: &Side) -> IpSocketAddress
    ensures { result ≡ default_local side.now }
{
    side.local.unwrap_or(unspecified_addr(side.family))
}

/// A connection from `peer` at this listener.
fn handed(side: Side, peer: IpSocketAddress) -> Side
    ensures { result ≡ handed side peer }
{
    Side {
        peer: Some(peer),
        options: unset(),
        ..side
    }
}

/// An option of it has this value.
fn with_option(side: Side, option: Opt, value: u64) -> Side
    ensures { result ≡ with_option side option value }
{
    let mut options = side.options;
    set(&mut options, option, value);
    Side { options, ..side }
}

/// What is known of each network socket that was made or changed, by the step and the part of its
/// name.
pub type Sides = HashMap<(u32, u64), Side>;

/// What is known of a network socket; of one that wasn't made, that of an IPv4 socket that was just
/// made.
pub fn known(sides: &Sides, sock: Sock) -> Side
    ensures { result ≡ known sides.now sock }
{
    match sides.get(&(sock.step, sock.part)) {
        Some(side) => *side,
        None => new_side(SocketAddressFamily::Ipv4),
    }
}

/// The value of an option of a network socket.
#[inline(always)]
pub fn option_of(sides: &Sides, sock: Sock, option: Opt) -> u64
    ensures { result ≡ value_of (known sides.now sock).options option }
{
    match sides.get(&(sock.step, sock.part)) {
        Some(side) => value_of(&side.options, option),
        None => value_of(&unset(), option),
    }
}

/// The address that `local` of a network socket reports by default.
pub fn local_of(sides: &Sides, sock: Sock) -> IpSocketAddress
    ensures { result ≡ default_local (known sides.now sock) }
{
    default_local(&known(sides, sock))
}

/// The peer of a network socket.
pub fn peer_of(sides: &Sides, sock: Sock) -> Option<IpSocketAddress>
    ensures { result ≡ (known sides.now sock).peer }
{
    known(sides, sock).peer
}

/// A bind of the network socket, and what is known of it then.
fn bind_change(sides: &Sides, sock: Sock, addr: IpSocketAddress) -> Option<(Sock, Side)>
    ensures { result ≡ Some (sock, bound (known sides.now sock) addr) }
{
    Some((sock, bound(known(sides, sock), addr)))
}

/// A connect of the network socket, and what is known of it then.
fn connect_change(sides: &Sides, sock: Sock, addr: IpSocketAddress) -> Option<(Sock, Side)>
    ensures { result ≡ Some (sock, connected (known sides.now sock) addr) }
{
    Some((sock, connected(known(sides, sock), addr)))
}

/// A send of the network socket, which binds it, and what is known of it then.
fn send_change(sides: &Sides, sock: Sock) -> Option<(Sock, Side)>
    ensures { result ≡ Some (sock, bound_anyway (known sides.now sock)) }
{
    Some((sock, bound_anyway(known(sides, sock))))
}

/// The connection that a listener hands over, and what is known of it then.
fn hand_change(
    sides: &Sides,
    op: OpId,
    listener: Sock,
    peer: IpSocketAddress,
) -> Option<(Sock, Side)>
    ensures { result ≡ Some (op, handed (known sides.now listener) peer) }
{
    Some((op, handed(known(sides, listener), peer)))
}

/// A disconnect of the network socket, and what is known of it then.
fn disconnect_change(sides: &Sides, sock: Sock) -> Option<(Sock, Side)>
    ensures { result ≡ Some (sock, disconnected (known sides.now sock)) }
{
    Some((sock, disconnected(known(sides, sock))))
}

/// An option of the network socket that is set, and what is known of it then.
fn option_change(sides: &Sides, sock: Sock, option: Opt, value: u64) -> Option<(Sock, Side)>
    ensures { result ≡ Some (sock, with_option (known sides.now sock) option value) }
{
    Some((sock, with_option(known(sides, sock), option, value)))
}

/// The network socket that a call changes once it is answered done, and what is known of that
/// network socket then.
fn change(sides: &Sides, op: OpId, call: &Call) -> Option<(Sock, Side)>
    ensures { result ≡ change (known sides.now) op call.now }
{
    match call {
        Call::TcpCreate { family, .. } | Call::UdpCreate { family, .. } => {
            Some((op, new_side(*family)))
        }
        Call::Bind { sock, addr } | Call::UdpBind { sock, addr } => bind_change(
            sides, *sock, *addr,
        ),
        Call::Connect { sock, addr } | Call::UdpConnect { sock, addr } => {
            connect_change(sides, *sock, *addr)
        }
        Call::Send { sock, .. } => send_change(sides, *sock),
        Call::Hand { sock, peer } => hand_change(sides, op, *sock, *peer),
        Call::UdpDisconnect { sock } => disconnect_change(sides, *sock),
        Call::SetOption {
            sock,
            option,
            value,
        } => option_change(sides, *sock, *option, *value),
        _ => None,
    }
}

/// Keeps what is known of a network socket; takes memory where it is new.
fn put(sides: &mut Sides, sock: Sock, side: Side) -> Result<(), AllocError>
    ensures ok { OnOk result ((other : OpId) → known sides.new other
        ≡ changed (known sides.old) (Some (sock, side)) other) }
    ensures err { OnErr result (IsUnchanged sides.old sides.new) }
{
    sides.insert((sock.step, sock.part), side)?;
    Ok(())
}

/// Whether a call changes no network socket.
#[inline(always)]
fn changes_none(call: &Call) -> bool
    ensures { result ≡ true → (sides : OpId → Side) (op : OpId) → change sides op call.now ≡ None }
{
    match call {
        Call::TcpCreate { .. }
        | Call::UdpCreate { .. }
        | Call::Bind { .. }
        | Call::UdpBind { .. }
        | Call::Connect { .. }
        | Call::UdpConnect { .. }
        | Call::Send { .. }
        | Call::Hand { .. }
        | Call::UdpDisconnect { .. }
        | Call::SetOption { .. } => false,
        _ => true,
    }
}

/// Keeps what a call that is done changed; takes memory where its network socket is new.
#[inline(never)]
fn keep_change(sides: &mut Sides, op: OpId, call: &Call) -> Result<(), AllocError>
    ensures ok { OnOk result ((sock : OpId) → known sides.new sock
        ≡ sides_after (known sides.old) op call.now Told.Done sock) }
    ensures err { OnErr result (IsUnchanged sides.old sides.new) }
{
    let Some((sock, side)) = change(sides, op, call) else {
        return Ok(());
    };
    put(sides, sock, side)
}

/// Keeps what a call that is done changed, where it changes a network socket.
#[inline(always)]
fn keep_done(sides: &mut Sides, op: OpId, call: &Call) -> Result<(), AllocError>
    ensures ok { OnOk result ((sock : OpId) → known sides.new sock
        ≡ sides_after (known sides.old) op call.now Told.Done sock) }
    ensures err { OnErr result (IsUnchanged sides.old sides.new) }
{
    if changes_none(call) {
        return Ok(());
    }
    keep_change(sides, op, call)
}

/// Keeps what an answered call changed; takes memory where its network socket is new.
#[inline(always)]
pub fn keep(sides: &mut Sides, op: OpId, call: &Call, told: &Told) -> Result<(), AllocError>
    ensures ok { OnOk result ((sock : OpId) → known sides.new sock
        ≡ sides_after (known sides.old) op call.now told.now sock) }
    ensures err { OnErr result (IsUnchanged sides.old sides.new) }
{
    match told {
        Told::Done => keep_done(sides, op, call),
        _ => Ok(()),
    }
}
