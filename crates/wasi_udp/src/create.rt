//! A create that is polled. Where it is refused it closes its network socket last.

ghost use Rattle.std.specs.Prelude.{◌≡◌, true, false, OnErr, IfOk};
ghost use Rattle.wasi_world.specs.Asks.{AsksFor, Reaches, outcome};
ghost use Rattle.wasi_world.specs.Operation.{PollsFor, Nothing};
ghost use Rattle.socket_common.specs.Rounds.{is_going, stays_going};
ghost use Rattle.wasi_udp.specs.Create.{create_operation, create_at, new_asks, create_told};
ghost use Rattle.wasi_udp.specs.Create.{create_poll_asks, create_cancel_asks, IsCreate};

use crate::socket::UdpSocket;
use socket_common::Asker;
use std::alloc::AllocError;
use std::marker::Model;
use wasi_addr::{ErrorCode, SocketAddressFamily};
use wasi_world::asks::Polled;
use wasi_world::{Answer, OpId, Refusal, Sock, WasiSocketsCtx, World, asks};

/// The next call of a create.
#[derive(Clone, Copy, Debug, PartialEq, Eq)]
pub enum CreateStage {
    /// Whether the network socket can send.
    Writable,
    /// The close of the network socket: the create was refused with this code.
    Close(ErrorCode),
    /// None: it ended, with a socket or with a code.
    Over,
}

/// A create in progress (`create-udp-socket`): the network socket was made, and is waited for until
/// it can send.
#[derive(Drop)]
pub struct CreateOp {
    asker: Asker,
    family: SocketAddressFamily,
    stage: CreateStage,
}

impl Model for CreateOp {
    ghost use Rattle.wasi_udp.specs.Create.{Create, create_at};

    ghost Value = { Create };

    ghost view = { λ o. create_at o.asker o.family o.stage };
}

impl UdpSocket {
    /// Begins to create a socket, for a context that may use UDP; another gets `AccessDenied`, and
    /// nothing is asked. The network socket is made now, and `CreateOp::poll` waits for it. A code
    /// that the network reports is returned. Out of memory nothing was asked.
    pub fn new<W: World>(
        world: &mut W,
        op: OpId,
        ctx: &WasiSocketsCtx,
        family: SocketAddressFamily,
    ) -> Result<CreateOp, Refusal>
        requires { (W.seen world.old).ended ≡ false }
        ensures asked { AsksFor (new_asks op ctx.now family) (W.seen world.old) (W.seen world.new)
            (λ begun. begun) (outcome result) }
        ensures side { IfOk result (λ begun. begun.operation.who.side ≡ op) }
        ensures going { IfOk result (λ begun. is_going begun.operation ≡ true) }
        ensures unasked { OnErr (outcome result) (W.seen world.new ≡ W.seen world.old) }
    {
        if !ctx.udp {
            return Err(Refusal::Code(ErrorCode::AccessDenied));
        }
        let told = asks::udp_create(world, op, ctx.name, family)?;
        match told {
            Ok(()) => Ok(CreateOp {
                asker: Asker {
                    op,
                    side: op,
                    maker: ctx.name,
                },
                family,
                stage: CreateStage::Writable,
            }),
            Err(code) => Err(Refusal::Code(code)),
        }
    }
}

impl CreateOp {
    /// The network socket that it made; takes no memory.
    pub fn side(&self) -> Sock
        ensures side { result ≡ self.now.operation.who.side }
        ensures create { IsCreate self.now.operation }
    {
        self.asker.side
    }

    /// Whether an ask is left.
    fn is_going(&self) -> bool
        ensures going { result ≡ is_going self.now.operation }
        ensures create { IsCreate self.now.operation }
    {
        match self.stage {
            CreateStage::Writable | CreateStage::Close(_) => true,
            CreateStage::Over => false,
        }
    }

    /// Waits until the network socket can send, and returns the socket then.
    ///
    /// - A code is returned, after the network socket was closed.
    /// - Out of memory it stays after its last answered call, and may be polled again.
    /// - One that has ended is `InvalidState`, and nothing is asked.
    pub fn poll<W: World>(&mut self, world: &mut W) -> Result<Answer<UdpSocket>, Refusal>
        requires { (W.seen world.old).ended ≡ false }
        ensures asked { AsksFor (create_poll_asks self.old) (W.seen world.old) (W.seen world.new)
            (λ answer. (answer, self.new)) (outcome result) }
        ensures err { OnErr (outcome result) (Reaches (create_poll_asks self.old)
            (create_poll_asks self.new) (W.seen world.old) (W.seen world.new)) }
        ensures going { is_going self.new.operation ≡ stays_going result }
        ensures before { IsCreate self.old.operation }
        ensures after { IsCreate self.new.operation }
    {
        if !self.is_going() {
            return Err(Refusal::Code(ErrorCode::InvalidState));
        }
        let polled = self.poll_stage(world);
        self.made(polled)
    }

    /// Asks what comes next.
    fn poll_stage<W: World>(&mut self, world: &mut W) -> Result<Answer<()>, Refusal>
        requires open { (W.seen world.old).ended ≡ false }
        requires going { is_going self.old.operation ≡ true }
        ensures polled { PollsFor (λ done. Nothing) Nothing self.old.operation self.new.operation
            (W.seen world.old) (W.seen world.new) result }
        ensures family { self.new.family ≡ self.old.family }
        ensures going { is_going self.new.operation ≡ stays_going result }
        ensures before { IsCreate self.old.operation }
        ensures after { IsCreate self.new.operation }
    {
        let asker = self.asker;
        match self.stage {
            CreateStage::Writable => poll_writable(world, asker, &mut self.stage),
            CreateStage::Close(code) => poll_close(world, asker, &mut self.stage, code),
            CreateStage::Over => unreachable!(),
        }
    }

    /// The socket, where it is done.
    fn made(&self, polled: Result<Answer<()>, Refusal>) -> Result<Answer<UdpSocket>, Refusal>
        ensures { result ≡ create_told self.now polled }
    {
        match polled {
            Ok(Answer::Ready(())) => Ok(Answer::Ready(UdpSocket::made(
                self.asker.side,
                self.family,
                self.asker.maker,
            ))),
            Ok(Answer::Pending) => Ok(Answer::Pending),
            Err(refusal) => Err(refusal),
        }
    }

    /// Gives the create up: its network socket is closed, by the operation's own name. One that has
    /// ended asks nothing: a refusal has closed the network socket already, and else the socket has
    /// it. It isn't polled after that. Out of memory nothing was asked, and the network socket
    /// isn't closed.
    pub fn cancel<W: World>(&self, world: &mut W) -> Result<(), AllocError>
        requires { (W.seen world.old).ended ≡ false }
        ensures asked { AsksFor (create_cancel_asks self.now) (W.seen world.old) (W.seen world.new)
            (λ done. done) result }
        ensures unasked { OnErr result (W.seen world.new ≡ W.seen world.old) }
    {
        if !self.is_going() {
            return Ok(());
        }
        asks::close(world, self.asker.op, self.asker.side)
    }
}

fn poll_writable<W: World>(
    world: &mut W,
    asker: Asker,
    stage: &mut CreateStage,
) -> Result<Answer<()>, Refusal>
    requires open { (W.seen world.old).ended ≡ false }
    requires stage { stage.old ≡ CreateStage.Writable }
    ensures polled { PollsFor (λ done. Nothing) Nothing (create_operation asker stage.old)
        (create_operation asker stage.new) (W.seen world.old) (W.seen world.new) result }
    ensures going { is_going (create_operation asker stage.new) ≡ stays_going result }
{
    let told = asks::udp_writable(world, asker.op, asker.side)?;
    match told {
        Polled::Pending => return Ok(Answer::Pending),
        Polled::Code(code) => {
            *stage = CreateStage::Close(code);
            return poll_close(world, asker, stage, code);
        }
        Polled::Ready(()) => {}
    }
    *stage = CreateStage::Over;
    Ok(Answer::Ready(()))
}

fn poll_close<W: World>(
    world: &mut W,
    asker: Asker,
    stage: &mut CreateStage,
    code: ErrorCode,
) -> Result<Answer<()>, Refusal>
    requires open { (W.seen world.old).ended ≡ false }
    requires stage { stage.old ≡ CreateStage.Close code }
    ensures polled { PollsFor (λ done. Nothing) Nothing (create_operation asker stage.old)
        (create_operation asker stage.new) (W.seen world.old) (W.seen world.new) result }
    ensures going { is_going (create_operation asker stage.new) ≡ stays_going result }
{
    asks::close(world, asker.op, asker.side)?;
    *stage = CreateStage::Over;
    Err(Refusal::Code(code))
}
