//! A UDP socket, its addresses, and its end.

ghost use Rattle.std.specs.Prelude.{◌≡◌, true, false, OnErr, IfOk};
ghost use Rattle.wasi_world.specs.Asks.{AsksFor, Reaches, outcome};
ghost use Rattle.wasi_world.specs.Typed.{ask_close};

use crate::address::remote_told;
use socket_common::{Asker, tells_bound};
use std::alloc::AllocError;
use std::marker::Model;
use wasi_addr::{ErrorCode, IpSocketAddress, SocketAddressFamily};
use wasi_world::{OpId, Refusal, Sock, World, asks};

/// A UDP socket. It keeps whether it is bound, once that is known, its remote address, if it has
/// one, and the number of the context that created it, which its checks name.
#[derive(Drop)]
pub struct UdpSocket {
    side: Sock,
    family: SocketAddressFamily,
    bound: bool,
    remote: Option<IpSocketAddress>,
    maker: u32,
}

impl Model for UdpSocket {
    ghost use Rattle.wasi_udp.specs.Shape.{Socket};

    ghost Value = { Socket };

    ghost view = { λ s. record {
      side = s.side;
      family = s.family;
      bound = s.bound;
      remote = s.remote;
      maker = s.maker;
    } };
}

impl UdpSocket {
    ghost use Rattle.wasi_udp.specs.Socket.{new_socket, asker_of, is_connected, remote_of};
    ghost use Rattle.wasi_udp.specs.Socket.{bound_asks, after_local, local_where, local_asks};
    ghost use Rattle.wasi_udp.specs.Socket.{after_peer, disconnect_asks, disconnect_in};

    /// What a create makes: it isn't known to be bound, and has no remote address.
    pub(crate) fn made(side: Sock, family: SocketAddressFamily, maker: u32) -> UdpSocket
        ensures { result ≡ new_socket side maker family }
    {
        UdpSocket {
            side,
            family,
            bound: false,
            remote: None,
            maker,
        }
    }

    /// The network socket; takes no memory.
    pub fn side(&self) -> Sock
        ensures { result ≡ self.now.side }
    {
        self.side
    }

    /// The family that it was made with (`udp-socket.address-family`); takes no memory.
    pub fn address_family(&self) -> SocketAddressFamily
        ensures { result ≡ self.now.family }
    {
        self.family
    }

    /// Who asks in an operation on it.
    pub(crate) fn asker(&self, op: OpId) -> Asker
        ensures { result ≡ asker_of op self.now }
    {
        Asker {
            op,
            side: self.side,
            maker: self.maker,
        }
    }

    /// Whether it has a remote address; takes no memory.
    pub fn is_connected(&self) -> bool
        ensures { result ≡ is_connected self.now.remote }
    {
        self.remote.is_some()
    }

    /// The remote address (`udp-socket.remote-address`), or `InvalidState` where it has none.
    /// Nothing is asked. Takes no memory.
    pub fn remote_address(&self) -> Result<IpSocketAddress, ErrorCode>
        ensures { result ≡ remote_of self.now.remote }
    {
        match self.remote {
            Some(remote) => Ok(remote),
            None => Err(ErrorCode::InvalidState),
        }
    }

    /// The remote address, or `None` where it has none. Takes no memory.
    pub fn remote(&self) -> Option<IpSocketAddress>
        ensures { result ≡ self.now.remote }
    {
        self.remote
    }

    /// Whether it is bound. A yes is kept; until then the network is asked for the local address,
    /// and any but the wildcard is a yes. Out of memory nothing was asked.
    pub fn is_bound<W: World>(&mut self, world: &mut W, op: OpId) -> Result<bool, AllocError>
        requires { (W.seen world.old).ended ≡ false }
        ensures asked { AsksFor (bound_asks op self.old) (W.seen world.old) (W.seen world.new)
            (λ bound. (bound, self.new)) result }
        ensures kept { IfOk result (λ bound. self.new.bound ≡ bound) }
        ensures err { OnErr result (self.new ≡ self.old) }
        ensures unasked { OnErr result (W.seen world.new ≡ W.seen world.old) }
        ensures side { self.new.side ≡ self.old.side }
    {
        if self.bound {
            return Ok(true);
        }
        let told = asks::local(world, op, self.side)?;
        Ok(self.learn_bound(told))
    }

    /// What the local address answers; a yes is kept.
    fn learn_bound(&mut self, told: Result<IpSocketAddress, ErrorCode>) -> bool
        ensures learned { (result, self.new) ≡ after_local self.old told }
        ensures kept { self.old.bound ≡ false → self.new.bound ≡ result }
        ensures side { self.new.side ≡ self.old.side }
    {
        let bound = tells_bound(told, self.family);
        if bound {
            self.bound = true;
        }
        bound
    }

    /// The local address (`udp-socket.local-address`). Not bound: `InvalidState`. A code that the
    /// network reports is returned. Out of memory it may be called again.
    pub fn local_address<W: World>(
        &mut self,
        world: &mut W,
        op: OpId,
    ) -> Result<IpSocketAddress, Refusal>
        requires { (W.seen world.old).ended ≡ false }
        ensures asked { AsksFor (local_asks op self.old) (W.seen world.old) (W.seen world.new)
            (λ answer. (answer, self.new)) (outcome result) }
        ensures err { OnErr (outcome result) (Reaches (local_asks op self.old)
            (local_asks op self.new) (W.seen world.old) (W.seen world.new)) }
        ensures side { self.new.side ≡ self.old.side }
    {
        let bound = self.is_bound(world, op)?;
        self.local_where(world, op, bound)
    }

    /// Asks for the local address of a socket that is bound.
    fn local_where<W: World>(
        &self,
        world: &mut W,
        op: OpId,
        bound: bool,
    ) -> Result<IpSocketAddress, Refusal>
        requires { (W.seen world.old).ended ≡ false }
        ensures asked { AsksFor (local_where op self.now bound) (W.seen world.old)
            (W.seen world.new) (λ answer. (answer, self.now)) (outcome result) }
        ensures err { OnErr (outcome result) (W.seen world.new ≡ W.seen world.old) }
        ensures bound { OnErr (outcome result) (bound ≡ true) }
    {
        if !bound {
            return Err(Refusal::Code(ErrorCode::InvalidState));
        }
        let told = asks::local(world, op, self.side)?;
        match told {
            Ok(addr) => Ok(addr),
            Err(code) => Err(Refusal::Code(code)),
        }
    }

    /// Takes the remote address away (`disconnect` of a `udp-socket` of the crate `wasmtime-wasi`).
    /// Without one: `InvalidState`, and nothing is asked.
    ///
    /// - The socket is kept as bound from now on.
    /// - The network disconnects it, and is asked for the remote address, whatever it answered:
    ///   what it reports is kept, and a code or the wildcard is kept as none.
    /// - The disconnect's code is returned after that.
    /// - Out of memory the remote address stays as it was.
    pub fn disconnect<W: World>(&mut self, world: &mut W, op: OpId) -> Result<(), Refusal>
        requires { (W.seen world.old).ended ≡ false }
        ensures asked { AsksFor (disconnect_asks op self.old) (W.seen world.old) (W.seen world.new)
            (λ answer. (answer, self.new)) (outcome result) }
        ensures err { OnErr (outcome result) (self.new ≡ record self.old { bound = true }) }
        ensures side { self.new.side ≡ self.old.side }
    {
        if !self.is_connected() {
            return Err(Refusal::Code(ErrorCode::InvalidState));
        }
        self.bound = true;
        let done = asks::udp_disconnect(world, op, self.side)?;
        let told = asks::peer(world, op, self.side)?;
        self.learn_remote(told);
        match done {
            Ok(()) => Ok(()),
            Err(code) => Err(Refusal::Code(code)),
        }
    }

    /// Keeps the remote address that the network reports, and none for a code or the wildcard.
    fn learn_remote(&mut self, told: Result<IpSocketAddress, ErrorCode>)
        ensures { self.new ≡ after_peer self.old told }
    {
        self.remote = remote_told(told, self.family);
    }

    /// Keeps this remote address, or none.
    pub(crate) fn set_remote(&mut self, remote: Option<IpSocketAddress>)
        ensures { self.new ≡ record self.old { remote = remote } }
    {
        self.remote = remote;
    }

    /// Closes the network socket, as the drop of a `udp-socket` does. Out of memory nothing was
    /// asked, and the network socket isn't closed.
    pub fn close<W: World>(self, world: &mut W, op: OpId) -> Result<(), AllocError>
        requires { (W.seen world.old).ended ≡ false }
        ensures asked { AsksFor (ask_close op self.side) (W.seen world.old) (W.seen world.new)
            (λ done. done) result }
        ensures unasked { OnErr result (W.seen world.new ≡ W.seen world.old) }
    {
        asks::close(world, op, self.side)
    }
}
