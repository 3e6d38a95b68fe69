//! The addresses of a socket.

ghost use Rattle.std.specs.Prelude.{◌≡◌, true, false, OnErr};
ghost use Rattle.wasi_world.specs.Asks.{AsksFor, Reaches, outcome};
ghost use Rattle.wasi_world.specs.Typed.{ask_local};

use crate::socket::{TcpSocket, TcpState};
use wasi_addr::{ErrorCode, IpSocketAddress};
use wasi_world::{OpId, Refusal, Sock, World, asks};

impl TcpSocket {
    ghost use Rattle.wasi_tcp.specs.Socket.{side_of};
    ghost use Rattle.wasi_tcp.specs.Addresses.{usable_side, local_side, local_asks, local_where};
    ghost use Rattle.wasi_tcp.specs.Addresses.{remote_asks};

    /// The local address (`tcp-socket.local-address`). Not bound, or connecting: `InvalidState`.
    /// Closed: its code. A code that the network reports is returned.
    pub fn local_address<W: World>(
        &mut self,
        world: &mut W,
        op: OpId,
    ) -> Result<IpSocketAddress, Refusal>
        requires { (W.seen world.old).ended ≡ false }
        ensures asked { AsksFor (local_asks op self.old) (W.seen world.old) (W.seen world.new)
            (λ answer. (answer, self.new)) (outcome result) }
        ensures err { OnErr (outcome result) (Reaches (local_asks op self.old)
            (local_asks op self.new) (W.seen world.old) (W.seen world.new)) }
        ensures side { side_of self.new ≡ side_of self.old }
    {
        let bound = self.is_bound(world, op)?;
        self.local_where(world, op, bound)
    }

    /// Asks for the local address of a socket that is bound.
    fn local_where<W: World>(
        &self,
        world: &mut W,
        op: OpId,
        bound: bool,
    ) -> Result<IpSocketAddress, Refusal>
        requires { (W.seen world.old).ended ≡ false }
        ensures asked { AsksFor (local_where op self.now bound) (W.seen world.old)
            (W.seen world.new) (λ answer. (answer, self.now)) (outcome result) }
        ensures err { OnErr (outcome result) (W.seen world.new ≡ W.seen world.old) }
        ensures bound { OnErr (outcome result) (bound ≡ true) }
    {
        match self.local_side(bound) {
            Ok(side) => told_address(world, op, side),
            Err(code) => Err(Refusal::Code(code)),
        }
    }

    /// The network socket whose local address may be asked for.
    fn local_side(&self, bound: bool) -> Result<Sock, ErrorCode>
        ensures { result ≡ local_side self.now bound }
    {
        if !bound {
            return Err(ErrorCode::InvalidState);
        }
        self.usable_side()
    }

    /// The network socket that may be asked about its address and its options: none while it
    /// connects. Closed: its code.
    pub(crate) fn usable_side(&self) -> Result<Sock, ErrorCode>
        ensures { result ≡ usable_side self.now.state }
    {
        match &self.state {
            TcpState::Default(side) | TcpState::Listening(side) => Ok(*side),
            TcpState::Connecting(_) => Err(ErrorCode::InvalidState),
            TcpState::Connected(connection) => Ok(connection.side),
            TcpState::Closed(code) => Err(*code),
        }
    }

    /// The remote address of a connection (`tcp-socket.remote-address`), which is kept once it is
    /// reported. Closed: its code. Not Connected: `InvalidState`. A code that the network reports
    /// is returned. Out of memory nothing was asked, and the socket stays as it was.
    pub fn remote_address<W: World>(
        &mut self,
        world: &mut W,
        op: OpId,
    ) -> Result<IpSocketAddress, Refusal>
        requires { (W.seen world.old).ended ≡ false }
        ensures asked { AsksFor (remote_asks op self.old) (W.seen world.old) (W.seen world.new)
            (λ answer. (answer, self.new)) (outcome result) }
        ensures err { OnErr (outcome result) (self.new ≡ self.old) }
        ensures unasked { OnErr (outcome result) (W.seen world.new ≡ W.seen world.old) }
        ensures side { side_of self.new ≡ side_of self.old }
    {
        self.state.remote_address(world, op)
    }
}

/// The local address of a network socket.
fn told_address<W: World>(world: &mut W, op: OpId, side: Sock) -> Result<IpSocketAddress, Refusal>
    requires { (W.seen world.old).ended ≡ false }
    ensures asked { AsksFor (ask_local op side) (W.seen world.old) (W.seen world.new) (λ told. told)
        (outcome result) }
    ensures err { OnErr (outcome result) (W.seen world.new ≡ W.seen world.old) }
{
    let told = asks::local(world, op, side)?;
    match told {
        Ok(addr) => Ok(addr),
        Err(code) => Err(Refusal::Code(code)),
    }
}
