//! A TCP socket and its states. The calls that bind, connect and listen are in `starts`, those on
//! its addresses in `addresses`, and its backlog in `backlog`.

ghost use Rattle.std.specs.Prelude.{◌≡◌, true, false, OnErr, OnOk, IfOk, Some, None};
ghost use Rattle.wasi_world.specs.Asks.{AsksFor, Reaches, outcome};

mod addresses;
mod backlog;
mod starts;

use crate::connect::ConnectOp;
use crate::halves::{TcpReceiveStream, TcpSendStream};
use socket_common::tells_bound;
use std::alloc::AllocError;
use std::marker::Model;
use wasi_addr::{ErrorCode, IpSocketAddress, SocketAddressFamily};
use wasi_world::{Answer, OpId, Refusal, Sock, WasiSocketsCtx, World, asks};

/// How many connections may wait at a listener, unless it is set.
const DEFAULT_BACKLOG: u32 = 128;

/// A connection: its network socket, the remote address once it was reported, and which of its two
/// halves were taken.
#[derive(Clone, Copy, Debug, PartialEq, Eq)]
pub struct Connection {
    pub side: Sock,
    pub peer: Option<IpSocketAddress>,
    pub receive_taken: bool,
    pub send_taken: bool,
}

impl Connection {
    ghost use Rattle.wasi_tcp.specs.Connecting.{new_connection};
    ghost use Rattle.wasi_tcp.specs.Addresses.{peer_asks};
    ghost use Rattle.wasi_tcp.specs.Halves.{taken_receive, taken_send};

    fn new(side: Sock) -> Connection
        ensures { result ≡ new_connection side }
    {
        Connection {
            side,
            peer: None,
            receive_taken: false,
            send_taken: false,
        }
    }

    fn take_receive(&mut self) -> Result<TcpReceiveStream, ErrorCode>
        ensures { (result, self.new) ≡ taken_receive self.old self.old.receive_taken }
    {
        if self.receive_taken {
            return Err(ErrorCode::InvalidState);
        }
        self.receive_taken = true;
        Ok(TcpReceiveStream { side: self.side })
    }

    fn take_send(&mut self) -> Result<TcpSendStream, ErrorCode>
        ensures { (result, self.new) ≡ taken_send self.old self.old.send_taken }
    {
        if self.send_taken {
            return Err(ErrorCode::InvalidState);
        }
        self.send_taken = true;
        Ok(TcpSendStream { side: self.side })
    }

    /// The remote address, which is kept once it is reported.
    fn remote_address<W: World>(
        &mut self,
        world: &mut W,
        op: OpId,
    ) -> Result<IpSocketAddress, Refusal>
        requires { (W.seen world.old).ended ≡ false }
        ensures asked { AsksFor (peer_asks op self.old) (W.seen world.old) (W.seen world.new)
            (λ answer. (answer, self.new)) (outcome result) }
        ensures err { OnErr (outcome result) (self.new ≡ self.old) }
        ensures unasked { OnErr (outcome result) (W.seen world.new ≡ W.seen world.old) }
        ensures side { self.new.side ≡ self.old.side }
    {
        if let Some(peer) = self.peer {
            return Ok(peer);
        }
        let told = asks::peer(world, op, self.side)?;
        match told {
            Ok(peer) => {
                self.peer = Some(peer);
                Ok(peer)
            }
            Err(code) => Err(Refusal::Code(code)),
        }
    }
}

/// The state of a socket, with its network socket where it has one.
#[derive(Drop)]
pub enum TcpState {
    /// Created, and perhaps bound.
    Default(Sock),
    /// A listen was done; arrivals are accepted.
    Listening(Sock),
    /// A connect was begun, and is polled until it ends.
    Connecting(ConnectOp),
    /// A connect was done, or the socket was accepted.
    Connected(Connection),
    /// Without a network socket, and why.
    Closed(ErrorCode),
}

impl TcpState {
    ghost use Rattle.wasi_tcp.specs.Socket.{side_in};
    ghost use Rattle.wasi_tcp.specs.Connecting.{finish_in, settled, HoldsConnect};
    ghost use Rattle.wasi_tcp.specs.Addresses.{remote_in};

    /// Polls the connect, where there is one.
    fn poll_finish_connect<W: World>(&mut self, world: &mut W) -> Result<Answer<()>, Refusal>
        requires { (W.seen world.old).ended ≡ false }
        ensures asked { AsksFor (finish_in self.old) (W.seen world.old) (W.seen world.new)
            (λ answer. (answer, self.new)) (outcome result) }
        ensures err { OnErr (outcome result) (Reaches (finish_in self.old) (finish_in self.new)
            (W.seen world.old) (W.seen world.new)) }
        ensures side { OnErr (outcome result) (side_in self.new ≡ side_in self.old) }
        ensures before { HoldsConnect self.old }
        ensures after { HoldsConnect self.new }
    {
        match self {
            TcpState::Default(_) | TcpState::Listening(_) => {
                Err(Refusal::Code(ErrorCode::InvalidState))
            }
            TcpState::Connecting(connect) => {
                let side = connect.side();
                let polled = connect.poll(world);
                self.settle(side, &polled);
                polled
            }
            TcpState::Connected(_) => Ok(Answer::Ready(())),
            TcpState::Closed(code) => Err(Refusal::Code(*code)),
        }
    }

    /// What a poll of the connect makes of the state.
    fn settle(&mut self, side: Sock, polled: &Result<Answer<()>, Refusal>)
        ensures { self.new ≡ settled side self.old polled.now }
    {
        match polled {
            Ok(Answer::Ready(())) => *self = TcpState::Connected(Connection::new(side)),
            Err(Refusal::Code(code)) => *self = TcpState::Closed(*code),
            Ok(Answer::Pending) | Err(Refusal::Memory(_)) => {}
        }
    }

    /// The remote address of a connection.
    fn remote_address<W: World>(
        &mut self,
        world: &mut W,
        op: OpId,
    ) -> Result<IpSocketAddress, Refusal>
        requires { (W.seen world.old).ended ≡ false }
        ensures asked { AsksFor (remote_in op self.old) (W.seen world.old) (W.seen world.new)
            (λ answer. (answer, self.new)) (outcome result) }
        ensures err { OnErr (outcome result) (self.new ≡ self.old) }
        ensures unasked { OnErr (outcome result) (W.seen world.new ≡ W.seen world.old) }
        ensures side { side_in self.new ≡ side_in self.old }
    {
        match self {
            TcpState::Connected(connection) => connection.remote_address(world, op),
            TcpState::Closed(code) => Err(Refusal::Code(*code)),
            TcpState::Default(_) | TcpState::Listening(_) | TcpState::Connecting(_) => {
                Err(Refusal::Code(ErrorCode::InvalidState))
            }
        }
    }
}

/// A TCP socket. It keeps whether it is bound once that is known, and the context that made it,
/// which its checks name.
#[derive(Drop)]
pub struct TcpSocket {
    state: TcpState,
    family: SocketAddressFamily,
    backlog: u32,
    bound: bool,
    maker: u32,
}

impl Model for TcpSocket {
    ghost use Rattle.wasi_tcp.specs.Shape.{Socket};

    ghost Value = { Socket };

    ghost view = { λ s. record {
      state = s.state;
      family = s.family;
      backlog = s.backlog;
      bound = s.bound;
      maker = s.maker;
    } };
}

impl TcpSocket {
    ghost use Rattle.wasi_tcp.specs.Socket.{side_of, new_asks, bound_asks, after_local};
    ghost use Rattle.wasi_tcp.specs.Connecting.{in_socket};
    ghost use Rattle.wasi_tcp.specs.Closing.{close_asks};
    ghost use Rattle.wasi_tcp.specs.Listener.{accepted_socket};
    ghost use Rattle.wasi_tcp.specs.Halves.{take_receive, take_send};
    ghost use Rattle.wasi_tcp.specs.Addresses.{state_text, is_listening};

    /// Makes a socket in the state Default, where the context may use TCP; else `AccessDenied`
    /// without a call. A code that the create reports is answered.
    pub fn new<W: World>(
        world: &mut W,
        op: OpId,
        ctx: &WasiSocketsCtx,
        family: SocketAddressFamily,
    ) -> Result<TcpSocket, Refusal>
        requires { (W.seen world.old).ended ≡ false }
        ensures asked { AsksFor (new_asks op ctx.now family) (W.seen world.old) (W.seen world.new)
            (λ made. made) (outcome result) }
        ensures side { IfOk result (λ socket. side_of socket ≡ Some op) }
        ensures unasked { OnErr (outcome result) (W.seen world.new ≡ W.seen world.old) }
    {
        if !ctx.tcp {
            return Err(Refusal::Code(ErrorCode::AccessDenied));
        }
        let told = asks::tcp_create(world, op, ctx.name, family)?;
        match told {
            Ok(()) => Ok(TcpSocket {
                state: TcpState::Default(op),
                family,
                backlog: DEFAULT_BACKLOG,
                bound: false,
                maker: ctx.name,
            }),
            Err(code) => Err(Refusal::Code(code)),
        }
    }

    /// What an accept makes. It is bound.
    pub(crate) fn accepted(state: TcpState, family: SocketAddressFamily, maker: u32) -> TcpSocket
        ensures { result ≡ accepted_socket family maker state }
    {
        TcpSocket {
            state,
            family,
            backlog: DEFAULT_BACKLOG,
            bound: true,
            maker,
        }
    }

    /// The state's name, as the crate's `Debug` has it.
    pub fn state_name(&self) -> &'static str
        ensures { result.now ≡ state_text self.now.state }
    {
        match self.state {
            TcpState::Default(_) => "Default",
            TcpState::Listening(_) => "Listening",
            TcpState::Connecting(_) => "Connecting",
            TcpState::Connected(_) => "Connected",
            TcpState::Closed(_) => "Closed",
        }
    }

    /// The number of the context that made it; takes no memory.
    pub fn maker(&self) -> u32
        ensures { result ≡ self.now.maker }
    {
        self.maker
    }

    /// The network socket, none where it is closed; takes no memory.
    pub fn side(&self) -> Option<Sock>
        ensures { result ≡ side_of self.now }
    {
        match &self.state {
            TcpState::Default(side) | TcpState::Listening(side) => Some(*side),
            TcpState::Connecting(connect) => Some(connect.side()),
            TcpState::Connected(connection) => Some(connection.side),
            TcpState::Closed(_) => None,
        }
    }

    /// The family that the socket was created with (`tcp-socket.address-family`).
    pub fn address_family(&self) -> SocketAddressFamily
        ensures { result ≡ self.now.family }
    {
        self.family
    }

    /// Whether it is bound. A yes is kept. In the state Default the network is asked for the local
    /// address, and any but the wildcard is a yes; in any other state the socket is bound. Out of
    /// memory nothing was asked.
    pub fn is_bound<W: World>(&mut self, world: &mut W, op: OpId) -> Result<bool, AllocError>
        requires { (W.seen world.old).ended ≡ false }
        ensures asked { AsksFor (bound_asks op self.old) (W.seen world.old) (W.seen world.new)
            (λ bound. (bound, self.new)) result }
        ensures kept { IfOk result (λ bound. self.new.bound ≡ bound) }
        ensures err { OnErr result (self.new ≡ self.old) }
        ensures unasked { OnErr result (W.seen world.new ≡ W.seen world.old) }
        ensures side { side_of self.new ≡ side_of self.old }
    {
        if self.bound {
            return Ok(true);
        }
        match self.state {
            TcpState::Default(side) => {
                let told = asks::local(world, op, side)?;
                Ok(self.learn_bound(told))
            }
            _ => {
                self.bound = true;
                Ok(true)
            }
        }
    }

    /// What the local address answers; a yes is kept.
    fn learn_bound(&mut self, told: Result<IpSocketAddress, ErrorCode>) -> bool
        ensures learned { (result, self.new) ≡ after_local self.old told }
        ensures side { side_of self.new ≡ side_of self.old }
    {
        let bound = tells_bound(told, self.family);
        if bound {
            self.bound = true;
        }
        bound
    }

    /// The receiving half, which is taken once. Taken already, or not Connected: `InvalidState`.
    /// Closed: its code. Takes no memory.
    pub fn take_receive_stream(&mut self) -> Result<TcpReceiveStream, ErrorCode>
        ensures taken { (result, self.new) ≡ in_socket self.old (take_receive self.old.state) }
        ensures side { side_of self.new ≡ side_of self.old }
    {
        match &mut self.state {
            TcpState::Connected(connection) => connection.take_receive(),
            TcpState::Closed(code) => Err(*code),
            TcpState::Default(_) | TcpState::Listening(_) | TcpState::Connecting(_) => {
                Err(ErrorCode::InvalidState)
            }
        }
    }

    /// The sending half, which is taken once. Taken already, or not Connected: `InvalidState`.
    /// Closed: its code. Takes no memory.
    pub fn take_send_stream(&mut self) -> Result<TcpSendStream, ErrorCode>
        ensures taken { (result, self.new) ≡ in_socket self.old (take_send self.old.state) }
        ensures side { side_of self.new ≡ side_of self.old }
    {
        match &mut self.state {
            TcpState::Connected(connection) => connection.take_send(),
            TcpState::Closed(code) => Err(*code),
            TcpState::Default(_) | TcpState::Listening(_) | TcpState::Connecting(_) => {
                Err(ErrorCode::InvalidState)
            }
        }
    }

    /// Closes the network socket, where there is one, as the drop of a `tcp-socket` does; the
    /// socket is Closed then, and its code is `Other`. One that has no network socket asks nothing
    /// and stays as it is. After running out of memory nothing was asked, and the socket is as it
    /// was.
    pub fn close<W: World>(&mut self, world: &mut W, op: OpId) -> Result<(), AllocError>
        requires { (W.seen world.old).ended ≡ false }
        ensures asked { AsksFor (close_asks op self.old) (W.seen world.old) (W.seen world.new)
            (λ done. (done, self.new)) result }
        ensures err { OnErr result (self.new ≡ self.old) }
        ensures unasked { OnErr result (W.seen world.new ≡ W.seen world.old) }
        ensures gone { OnOk result (side_of self.new ≡ None) }
    {
        let Some(side) = self.side() else {
            return Ok(());
        };
        asks::close(world, op, side)?;
        self.state = TcpState::Closed(ErrorCode::Other);
        Ok(())
    }

    /// Whether it listens; takes no memory.
    pub fn is_listening(&self) -> bool
        ensures { result ≡ is_listening self.now.state }
    {
        matches!(self.state, TcpState::Listening(_))
    }
}
