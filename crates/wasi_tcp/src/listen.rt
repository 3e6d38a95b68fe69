//! A listen that is polled. Where it is refused it closes its network socket last.

ghost use Rattle.std.specs.Prelude.{◌≡◌, false, None, OnErr};
ghost use Rattle.wasi_world.specs.Asks.{AsksFor, Reaches, outcome};
ghost use Rattle.wasi_world.specs.Operation.{PollsFor, Nothing};
ghost use Rattle.wasi_tcp.specs.Listen.{listen_operation, listen_first, is_over, held_side};
ghost use Rattle.wasi_tcp.specs.Listen.{cancel_asks, IsListen};
ghost use Rattle.socket_common.specs.Rounds.{is_going, stays_going};
ghost use Rattle.wasi_tcp.specs.Socket.{side_of};
ghost use Rattle.wasi_tcp.specs.Listening.{listen_poll_asks, listen_goes_on};

use crate::listener::TcpListenStream;
use crate::socket::TcpSocket;
use socket_common::Asker;
use std::alloc::AllocError;
use std::marker::Model;
use wasi_addr::{ErrorCode, IpSocketAddress, SocketAddrUse};
use wasi_world::asks::Verdict;
use wasi_world::{Answer, Refusal, Sock, World, asks};

/// The next call of a listen.
#[derive(Clone, Copy, Debug, PartialEq, Eq)]
pub enum ListenStage {
    /// The socket was bound at the start: its local address is asked for.
    Local,
    /// The address that was reported is checked for the listen.
    CheckTold(IpSocketAddress),
    /// The socket wasn't bound at the start: the wildcard is checked for the bind.
    CheckBind,
    /// The wildcard is checked for the listen.
    CheckListen,
    /// The socket is bound to the wildcard.
    Bind,
    /// The socket listens.
    Listen,
    /// Refused with this code, and to be closed.
    Close(ErrorCode),
    /// It ended, with a listener or with a code.
    Over,
}

/// A listen in progress (`tcp-socket.start-listen`). A socket that was bound at the start is asked
/// for its local address, which is then checked. For one that wasn't, the wildcard is checked for
/// the bind and for the listen, and bound. Then the socket listens, with the backlog of the start.
#[derive(Drop)]
pub struct ListenOp {
    asker: Asker,
    wildcard: IpSocketAddress,
    backlog: u32,
    stage: ListenStage,
}

impl Model for ListenOp {
    ghost use Rattle.wasi_world.specs.Operation.{Operation};

    ghost Value = { Operation };

    ghost use Rattle.wasi_tcp.specs.Listen.{listen_operation};

    ghost view = { λ o. listen_operation o.asker o.wildcard o.backlog o.stage };
}

impl ListenOp {
    /// A listen that has asked nothing yet, of a socket that was bound or not.
    pub(crate) fn new(
        asker: Asker,
        wildcard: IpSocketAddress,
        backlog: u32,
        bound: bool,
    ) -> ListenOp
        ensures { result ≡ listen_operation asker wildcard backlog (listen_first bound) }
    {
        let stage = if bound {
            ListenStage::Local
        } else {
            ListenStage::CheckBind
        };
        ListenOp {
            asker,
            wildcard,
            backlog,
            stage,
        }
    }

    /// The network socket that it holds: that of the socket that began it, and none once it is
    /// over. Takes no memory.
    pub fn held(&self) -> Option<Sock>
        ensures { result ≡ held_side self.now }
    {
        if self.is_over() {
            return None;
        }
        Some(self.asker.side)
    }

    /// The network socket that it was begun on.
    fn side(&self) -> Sock
        ensures { result ≡ self.now.who.side }
    {
        self.asker.side
    }

    /// Continues the listen of the socket that began it (`tcp-socket.start-listen`) until a call is
    /// pending. Once done, the socket is Listening on its network socket again, and the answer is
    /// the listener.
    ///
    /// - A check that is pending is asked again by the next poll.
    /// - A no is `AccessDenied`, and a code is returned. Both close the network socket first, and
    ///   the socket stays Closed.
    /// - Out of memory it stays after its last answered call, and may be polled again.
    /// - One that has ended is `InvalidState`, and nothing is asked.
    ///
    /// The socket must not hold a network socket: the operation owns it until it ends, and then
    /// puts it back.
    pub fn poll<W: World>(
        &mut self,
        world: &mut W,
        socket: &mut TcpSocket,
    ) -> Result<Answer<TcpListenStream>, Refusal>
        requires open { (W.seen world.old).ended ≡ false }
        requires sideless { side_of socket.old ≡ None }
        ensures asked { AsksFor (listen_poll_asks self.old socket.old) (W.seen world.old)
            (W.seen world.new) (λ answer. (answer, (self.new, socket.new))) (outcome result) }
        ensures err { OnErr (outcome result) (Reaches (listen_goes_on self.old socket.old)
            (listen_goes_on self.new socket.new) (W.seen world.old) (W.seen world.new)) }
        ensures going { is_going self.new ≡ stays_going result }
        ensures before { IsListen self.old }
        ensures after { IsListen self.new }
    {
        let side = self.side();
        let maker = self.maker();
        if self.is_over() {
            return Err(Refusal::Code(ErrorCode::InvalidState));
        }
        let polled = self.poll_asks(world);
        socket.settle_listen(side, maker, polled)
    }

    /// Makes the calls that are left, until one is pending. A check that is pending is asked again
    /// by the next poll. A no is `AccessDenied`, and a code is returned; both close the network
    /// socket first. Out of memory it stays after its last answered call, and may be polled again.
    /// One that has ended is ready, and nothing is asked.
    pub(crate) fn poll_asks<W: World>(&mut self, world: &mut W) -> Result<Answer<()>, Refusal>
        requires { (W.seen world.old).ended ≡ false }
        ensures polled { PollsFor (λ done. Nothing) Nothing self.old self.new (W.seen world.old)
            (W.seen world.new) result }
        ensures going { is_going self.new ≡ stays_going result }
        ensures before { IsListen self.old }
        ensures after { IsListen self.new }
    {
        let (asker, wildcard, backlog) = (self.asker, self.wildcard, self.backlog);
        match self.stage {
            ListenStage::Local => poll_local(world, asker, wildcard, backlog, &mut self.stage),
            ListenStage::CheckTold(addr) => {
                poll_told(world, asker, wildcard, backlog, &mut self.stage, addr)
            }
            ListenStage::CheckBind => {
                poll_check_bind(world, asker, wildcard, backlog, &mut self.stage)
            }
            ListenStage::CheckListen => {
                poll_check_listen(world, asker, wildcard, backlog, &mut self.stage)
            }
            ListenStage::Bind => poll_bind(world, asker, wildcard, backlog, &mut self.stage),
            ListenStage::Listen => poll_listen(world, asker, wildcard, backlog, &mut self.stage),
            ListenStage::Close(code) => {
                poll_close(world, asker, wildcard, backlog, &mut self.stage, code)
            }
            ListenStage::Over => Ok(Answer::Ready(())),
        }
    }

    /// Gives a listen up: its network socket is closed, by the operation's own name. One that has
    /// ended asks nothing: a refusal has closed the network socket already, and else the listener
    /// has it. Out of memory nothing was asked, and the network socket isn't closed.
    pub fn cancel<W: World>(self, world: &mut W) -> Result<(), AllocError>
        requires { (W.seen world.old).ended ≡ false }
        ensures asked { AsksFor (cancel_asks self) (W.seen world.old) (W.seen world.new)
            (λ done. done) result }
        ensures unasked { OnErr result (W.seen world.new ≡ W.seen world.old) }
    {
        if self.is_over() {
            return Ok(());
        }
        asks::close(world, self.asker.op, self.asker.side)
    }

    /// The context that its checks name.
    fn maker(&self) -> u32
        ensures maker { result ≡ self.now.who.context }
        ensures listen { IsListen self.now }
    {
        self.asker.maker
    }

    /// Whether nothing is left to be asked.
    fn is_over(&self) -> bool
        ensures { result ≡ is_over self.now }
    {
        match self.stage {
            ListenStage::Over => true,
            ListenStage::Local
            | ListenStage::CheckTold(_)
            | ListenStage::CheckBind
            | ListenStage::CheckListen
            | ListenStage::Bind
            | ListenStage::Listen
            | ListenStage::Close(_) => false,
        }
    }
}

fn poll_local<W: World>(
    world: &mut W,
    asker: Asker,
    wildcard: IpSocketAddress,
    backlog: u32,
    stage: &mut ListenStage,
) -> Result<Answer<()>, Refusal>
    requires open { (W.seen world.old).ended ≡ false }
    requires stage { stage.old ≡ ListenStage.Local }
    ensures polled { PollsFor (λ done. Nothing) Nothing (listen_operation asker wildcard backlog
        stage.old) (listen_operation asker wildcard backlog stage.new) (W.seen world.old)
        (W.seen world.new) result }
    ensures going { is_going (listen_operation asker wildcard backlog stage.new)
        ≡ stays_going result }
{
    let told = asks::local(world, asker.op, asker.side)?;
    match told {
        Err(code) => {
            *stage = ListenStage::Close(code);
            poll_close(world, asker, wildcard, backlog, stage, code)
        }
        Ok(addr) => {
            *stage = ListenStage::CheckTold(addr);
            poll_told(world, asker, wildcard, backlog, stage, addr)
        }
    }
}

fn poll_told<W: World>(
    world: &mut W,
    asker: Asker,
    wildcard: IpSocketAddress,
    backlog: u32,
    stage: &mut ListenStage,
    addr: IpSocketAddress,
) -> Result<Answer<()>, Refusal>
    requires open { (W.seen world.old).ended ≡ false }
    requires stage { stage.old ≡ ListenStage.CheckTold addr }
    ensures polled { PollsFor (λ done. Nothing) Nothing (listen_operation asker wildcard backlog
        stage.old) (listen_operation asker wildcard backlog stage.new) (W.seen world.old)
        (W.seen world.new) result }
    ensures going { is_going (listen_operation asker wildcard backlog stage.new)
        ≡ stays_going result }
{
    let verdict = asks::check(world, asker.op, asker.maker, addr, SocketAddrUse::TcpListen)?;
    match verdict {
        Verdict::Pending => return Ok(Answer::Pending),
        Verdict::No => {
            *stage = ListenStage::Close(ErrorCode::AccessDenied);
            return poll_close(
                world,
                asker,
                wildcard,
                backlog,
                stage,
                ErrorCode::AccessDenied,
            );
        }
        Verdict::Yes => {}
    }
    *stage = ListenStage::Listen;
    poll_listen(world, asker, wildcard, backlog, stage)
}

fn poll_check_bind<W: World>(
    world: &mut W,
    asker: Asker,
    wildcard: IpSocketAddress,
    backlog: u32,
    stage: &mut ListenStage,
) -> Result<Answer<()>, Refusal>
    requires open { (W.seen world.old).ended ≡ false }
    requires stage { stage.old ≡ ListenStage.CheckBind }
    ensures polled { PollsFor (λ done. Nothing) Nothing (listen_operation asker wildcard backlog
        stage.old) (listen_operation asker wildcard backlog stage.new) (W.seen world.old)
        (W.seen world.new) result }
    ensures going { is_going (listen_operation asker wildcard backlog stage.new)
        ≡ stays_going result }
{
    let verdict = asks::check(
        world,
        asker.op,
        asker.maker,
        wildcard,
        SocketAddrUse::TcpBind,
    )?;
    match verdict {
        Verdict::Pending => return Ok(Answer::Pending),
        Verdict::No => {
            *stage = ListenStage::Close(ErrorCode::AccessDenied);
            return poll_close(
                world,
                asker,
                wildcard,
                backlog,
                stage,
                ErrorCode::AccessDenied,
            );
        }
        Verdict::Yes => {}
    }
    *stage = ListenStage::CheckListen;
    poll_check_listen(world, asker, wildcard, backlog, stage)
}

fn poll_check_listen<W: World>(
    world: &mut W,
    asker: Asker,
    wildcard: IpSocketAddress,
    backlog: u32,
    stage: &mut ListenStage,
) -> Result<Answer<()>, Refusal>
    requires open { (W.seen world.old).ended ≡ false }
    requires stage { stage.old ≡ ListenStage.CheckListen }
    ensures polled { PollsFor (λ done. Nothing) Nothing (listen_operation asker wildcard backlog
        stage.old) (listen_operation asker wildcard backlog stage.new) (W.seen world.old)
        (W.seen world.new) result }
    ensures going { is_going (listen_operation asker wildcard backlog stage.new)
        ≡ stays_going result }
{
    let verdict = asks::check(
        world,
        asker.op,
        asker.maker,
        wildcard,
        SocketAddrUse::TcpListen,
    )?;
    match verdict {
        Verdict::Pending => return Ok(Answer::Pending),
        Verdict::No => {
            *stage = ListenStage::Close(ErrorCode::AccessDenied);
            return poll_close(
                world,
                asker,
                wildcard,
                backlog,
                stage,
                ErrorCode::AccessDenied,
            );
        }
        Verdict::Yes => {}
    }
    *stage = ListenStage::Bind;
    poll_bind(world, asker, wildcard, backlog, stage)
}

fn poll_bind<W: World>(
    world: &mut W,
    asker: Asker,
    wildcard: IpSocketAddress,
    backlog: u32,
    stage: &mut ListenStage,
) -> Result<Answer<()>, Refusal>
    requires open { (W.seen world.old).ended ≡ false }
    requires stage { stage.old ≡ ListenStage.Bind }
    ensures polled { PollsFor (λ done. Nothing) Nothing (listen_operation asker wildcard backlog
        stage.old) (listen_operation asker wildcard backlog stage.new) (W.seen world.old)
        (W.seen world.new) result }
    ensures going { is_going (listen_operation asker wildcard backlog stage.new)
        ≡ stays_going result }
{
    let told = asks::bind(world, asker.op, asker.side, wildcard)?;
    match told {
        Err(code) => {
            *stage = ListenStage::Close(code);
            return poll_close(world, asker, wildcard, backlog, stage, code);
        }
        Ok(()) => {}
    }
    *stage = ListenStage::Listen;
    poll_listen(world, asker, wildcard, backlog, stage)
}

fn poll_listen<W: World>(
    world: &mut W,
    asker: Asker,
    wildcard: IpSocketAddress,
    backlog: u32,
    stage: &mut ListenStage,
) -> Result<Answer<()>, Refusal>
    requires open { (W.seen world.old).ended ≡ false }
    requires stage { stage.old ≡ ListenStage.Listen }
    ensures polled { PollsFor (λ done. Nothing) Nothing (listen_operation asker wildcard backlog
        stage.old) (listen_operation asker wildcard backlog stage.new) (W.seen world.old)
        (W.seen world.new) result }
    ensures going { is_going (listen_operation asker wildcard backlog stage.new)
        ≡ stays_going result }
{
    let told = asks::listen(world, asker.op, asker.side, backlog)?;
    match told {
        Err(code) => {
            *stage = ListenStage::Close(code);
            return poll_close(world, asker, wildcard, backlog, stage, code);
        }
        Ok(()) => {}
    }
    *stage = ListenStage::Over;
    Ok(Answer::Ready(()))
}

fn poll_close<W: World>(
    world: &mut W,
    asker: Asker,
    wildcard: IpSocketAddress,
    backlog: u32,
    stage: &mut ListenStage,
    code: ErrorCode,
) -> Result<Answer<()>, Refusal>
    requires open { (W.seen world.old).ended ≡ false }
    requires stage { stage.old ≡ ListenStage.Close code }
    ensures polled { PollsFor (λ done. Nothing) Nothing (listen_operation asker wildcard backlog
        stage.old) (listen_operation asker wildcard backlog stage.new) (W.seen world.old)
        (W.seen world.new) result }
    ensures going { is_going (listen_operation asker wildcard backlog stage.new)
        ≡ stays_going result }
{
    asks::close(world, asker.op, asker.side)?;
    *stage = ListenStage::Over;
    Err(Refusal::Code(code))
}
