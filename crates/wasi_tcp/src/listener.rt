//! A listener, whose accept is polled, and keeps its result until that is taken.

ghost use Rattle.std.specs.Prelude.{◌≡◌, ◌+◌, ◌<◌, ◌^◌, false, OnErr};
ghost use Rattle.wasi_world.specs.Asks.{AsksFor};
ghost use Rattle.wasi_tcp.specs.Listener.{with_accept, new_listener, begun, has_accept, ids_after};
ghost use Rattle.wasi_tcp.specs.Listener.{readiness, ready_end, listener_ready_asks};
ghost use Rattle.wasi_tcp.specs.Listener.{accepted_socket, accepted_state, accepted};
ghost use Rattle.wasi_tcp.specs.Listener.{without_result, accept_end, listener_accept_asks};
ghost use Rattle.wasi_tcp.specs.Listener.{StandsAccept, untaken_side, listener_give_up_asks};
ghost use Rattle.wasi_tcp.specs.Listener.{HoldsAccept, IsListener, settled, memory_of, TurnFor};

use crate::accept::AcceptOp;
use crate::socket::{Connection, TcpSocket, TcpState};
use socket_common::Asker;
use std::alloc::AllocError;
use std::marker::Model;
use wasi_addr::{ErrorCode, IpSocketAddress, SocketAddressFamily};
use wasi_world::{Answer, Ids, Refusal, Sock, World, asks};

/// How far a listener is with the next connection.
#[derive(Drop)]
pub enum Accepting {
    /// No accept was begun.
    Idle,
    /// One is in progress.
    Asking(AcceptOp),
    /// It ended with a connection that isn't taken yet: a new network socket, and the other end's
    /// address.
    Arrived(Sock, IpSocketAddress),
    /// It ended with a fault that isn't taken yet.
    Failed(ErrorCode),
}

impl Accepting {
    /// Begins an accept where none is in progress.
    fn begin(&mut self, side: Sock, maker: u32, ids: &mut Ids)
        requires names { ids.old.next_part + 1 < 2 ^ 64 }
        requires before { HoldsAccept side maker self.old }
        ensures begun { self.new ≡ begun side maker ids.old self.old }
        ensures ids { ids.new ≡ ids_after self.old ids.old }
        ensures after { HoldsAccept side maker self.new }
    {
        match self {
            Accepting::Idle => {
                let op = ids.begin();
                *self = Accepting::Asking(AcceptOp::new(Asker { op, side, maker }));
            }
            Accepting::Asking(_) | Accepting::Arrived(_, _) | Accepting::Failed(_) => {}
        }
    }

    /// Keeps what a poll of the accept came to.
    fn settle(
        &mut self,
        polled: Result<Answer<(Sock, IpSocketAddress)>, Refusal>,
    ) -> Result<(), AllocError>
        ensures settled { self.new ≡ settled self.old polled }
        ensures memory { result ≡ memory_of polled }
    {
        match polled {
            Ok(Answer::Ready((new, peer))) => {
                *self = Accepting::Arrived(new, peer);
                Ok(())
            }
            Ok(Answer::Pending) => Ok(()),
            Err(Refusal::Code(code)) => {
                *self = Accepting::Failed(code);
                Ok(())
            }
            Err(Refusal::Memory(e)) => Err(e),
        }
    }

    /// Whether there is a result.
    fn readiness(&self) -> Answer<()>
        ensures { result ≡ readiness self.now }
    {
        match self {
            Accepting::Idle | Accepting::Asking(_) => Answer::Pending,
            Accepting::Arrived(_, _) | Accepting::Failed(_) => Answer::Ready(()),
        }
    }
}

/// The state of a socket whose connection was just handed over.
fn connected(new: Sock, peer: IpSocketAddress) -> TcpState
    ensures { result ≡ accepted_state new peer }
{
    TcpState::Connected(Connection {
        side: new,
        peer: Some(peer),
        receive_taken: false,
        send_taken: false,
    })
}

/// Begins an accept where none is in progress, and polls it unless it has its result.
fn turn<W: World>(
    world: &mut W,
    side: Sock,
    maker: u32,
    ids: &mut Ids,
    accept: &mut Accepting,
) -> Result<(), AllocError>
    requires open { (W.seen world.old).ended ≡ false }
    requires names { ids.old.next_part + 1 < 2 ^ 64 }
    requires before { HoldsAccept side maker accept.old }
    ensures turned { TurnFor (begun side maker ids.old accept.old) accept.new (W.seen world.old)
        (W.seen world.new) result }
    ensures ids { ids.new ≡ ids_after accept.old ids.old }
    ensures after { HoldsAccept side maker accept.new }
    ensures open { (W.seen world.new).ended ≡ false }
{
    accept.begin(side, maker, ids);
    match accept {
        Accepting::Asking(op) => {
            let polled = op.poll(world);
            accept.settle(polled)
        }
        Accepting::Idle => Ok(()),
        Accepting::Arrived(_, _) => Ok(()),
        Accepting::Failed(_) => Ok(()),
    }
}

/// A listener: its network socket, its family, and the context that made it, which its checks name.
/// It keeps one result of an accept, a connection or a fault, until that is taken. It must be
/// released in the end.
#[derive(Drop)]
pub struct TcpListenStream {
    side: Sock,
    maker: u32,
    family: SocketAddressFamily,
    accept: Accepting,
}

impl Model for TcpListenStream {
    ghost use Rattle.wasi_tcp.specs.Listener.{Listener, HoldsAccept};

    ghost Value = { Listener };

    ghost view = { λ l. record {
      side = l.side;
      maker = l.maker;
      family = l.family;
      accept = l.accept;
    } };

    ghost invariant = { λ l. HoldsAccept l.side l.maker l.accept };
}

impl TcpListenStream {
    pub(crate) fn new(side: Sock, maker: u32, family: SocketAddressFamily) -> TcpListenStream
        ensures { result ≡ new_listener side maker family }
    {
        TcpListenStream {
            side,
            maker,
            family,
            accept: Accepting::Idle,
        }
    }

    /// The listener's network socket.
    pub fn side(&self) -> Sock
        ensures { result ≡ self.now.side }
    {
        self.side
    }

    /// Whether [`poll_accept`](TcpListenStream::poll_accept) has something to take: a connection or
    /// a fault. Begins an accept where none is in progress, named by the line's next part, and
    /// polls it unless it has its result, which is kept. Out of memory the accept stays after its
    /// last answered call, and may be polled again.
    pub fn poll_ready<W: World>(
        &mut self,
        world: &mut W,
        ids: &mut Ids,
    ) -> Result<Answer<()>, AllocError>
        requires open { (W.seen world.old).ended ≡ false }
        requires names { ids.old.next_part + 1 < 2 ^ 64 }
        ensures asked { AsksFor (listener_ready_asks self.old ids.old) (W.seen world.old)
            (W.seen world.new) (λ answer. (answer, self.new)) result }
        ensures err { OnErr result (StandsAccept (listener_ready_asks self.old ids.old)
            (ready_end self.old) self.new.accept (W.seen world.old) (W.seen world.new)) }
        ensures ids { ids.new ≡ ids_after self.old.accept ids.old }
        ensures same { self.new ≡ with_accept self.old self.new.accept }
        ensures before { IsListener self.old }
        ensures after { IsListener self.new }
    {
        turn(world, self.side, self.maker, ids, &mut self.accept)?;
        Ok(self.accept.readiness())
    }

    /// Accepts a connection (`tcp-socket.accept`): takes the result of the accept in progress, and
    /// begins one, named by the line's next part, where none is.
    ///
    /// - A connection was handed over: the socket is Connected on it and knows its remote address.
    /// - The accept failed: the socket is Closed with the code, and has no network socket.
    /// - No result yet: pending, and the accept stays in progress.
    /// - Out of memory the accept stays after its last answered call, and may be polled again.
    ///
    /// The socket is bound, and has the listener's family and creator. The next call begins the
    /// next accept.
    pub fn poll_accept<W: World>(
        &mut self,
        world: &mut W,
        ids: &mut Ids,
    ) -> Result<Answer<TcpSocket>, AllocError>
        requires open { (W.seen world.old).ended ≡ false }
        requires names { ids.old.next_part + 1 < 2 ^ 64 }
        ensures asked { AsksFor (listener_accept_asks self.old ids.old) (W.seen world.old)
            (W.seen world.new) (λ answer. (answer, self.new)) result }
        ensures err { OnErr result (StandsAccept (listener_accept_asks self.old ids.old)
            (accept_end self.old) self.new.accept (W.seen world.old) (W.seen world.new)) }
        ensures ids { ids.new ≡ ids_after self.old.accept ids.old }
        ensures same { self.new ≡ with_accept self.old self.new.accept }
        ensures before { IsListener self.old }
        ensures after { IsListener self.new }
    {
        turn(world, self.side, self.maker, ids, &mut self.accept)?;
        Ok(self.take())
    }

    /// Whether an accept is in progress, or has a result that isn't taken. Takes no memory.
    pub fn has_accept(&self) -> bool
        ensures { result ≡ has_accept self.now.accept }
    {
        match &self.accept {
            Accepting::Idle => false,
            Accepting::Asking(_) => true,
            Accepting::Arrived(_, _) => true,
            Accepting::Failed(_) => true,
        }
    }

    /// Takes the result, where there is one.
    fn take(&mut self) -> Answer<TcpSocket>
        ensures answer { result ≡ accepted self.old.family self.old.maker self.old.accept }
        ensures taken { self.new ≡ with_accept self.old (without_result self.old.accept) }
        ensures after { IsListener self.new }
    {
        match self.accept {
            Accepting::Idle | Accepting::Asking(_) => Answer::Pending,
            Accepting::Arrived(new, peer) => self.make(connected(new, peer)),
            Accepting::Failed(code) => self.make(TcpState::Closed(code)),
        }
    }

    /// A socket of this state, in exchange for the result.
    fn make(&mut self, state: TcpState) -> Answer<TcpSocket>
        ensures answer { result ≡ Answer.Ready (accepted_socket self.old.family self.old.maker
            state) }
        ensures taken { self.new ≡ with_accept self.old Accepting.Idle }
    {
        self.accept = Accepting::Idle;
        Answer::Ready(TcpSocket::accepted(state, self.family, self.maker))
    }

    /// The network socket of a connection that was handed over and isn't taken; takes no memory.
    pub fn untaken(&self) -> Option<Sock>
        ensures { result ≡ untaken_side self.now.accept }
    {
        match &self.accept {
            Accepting::Arrived(new, _) => Some(*new),
            Accepting::Idle | Accepting::Asking(_) | Accepting::Failed(_) => None,
        }
    }

    /// Releases the listener, but not its own network socket: an arrival in hand is refused, and a
    /// connection that isn't taken is closed, both by the accept's name. Out of memory nothing was
    /// asked.
    pub fn give_up<W: World>(self, world: &mut W) -> Result<(), AllocError>
        requires { (W.seen world.old).ended ≡ false }
        ensures asked { AsksFor (listener_give_up_asks self) (W.seen world.old) (W.seen world.new)
            (λ done. done) result }
        ensures err { OnErr result (W.seen world.new ≡ W.seen world.old) }
        ensures before { IsListener self }
    {
        match &self.accept {
            Accepting::Asking(op) => op.give_up(world),
            Accepting::Arrived(new, _) => asks::close(world, *new, *new),
            Accepting::Idle => Ok(()),
            Accepting::Failed(_) => Ok(()),
        }
    }
}
