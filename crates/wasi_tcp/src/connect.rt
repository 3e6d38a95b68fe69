//! A connect that is polled. Where it is refused it closes its network socket last.

ghost use Rattle.std.specs.Prelude.{◌≡◌, false, Some};
ghost use Rattle.wasi_world.specs.Operation.{PollsFor, Nothing};
ghost use Rattle.wasi_tcp.specs.Connect.{connect_operation, connect_first, IsConnect};

use socket_common::Asker;
use std::marker::Model;
use wasi_addr::{ErrorCode, IpSocketAddress, SocketAddrUse};
use wasi_world::asks::{Polled, Verdict};
use wasi_world::{Answer, Refusal, Sock, World, asks};

/// The next call of a connect.
#[derive(Clone, Copy, Debug, PartialEq, Eq)]
pub enum ConnectStage {
    /// The check of the wildcard, for the bind of a socket that wasn't bound.
    CheckWildcard,
    /// The check of the remote address.
    Check,
    /// The connect.
    Connect,
    /// The close of the network socket: the connect was refused with this code.
    Close(ErrorCode),
    /// None: it ended, connected or with a code.
    Over,
}

/// A connect in progress: the check of the wildcard where the socket wasn't bound, the check of the
/// address, and then the connect.
#[derive(Drop)]
pub struct ConnectOp {
    asker: Asker,
    wildcard: IpSocketAddress,
    addr: IpSocketAddress,
    stage: ConnectStage,
}

impl Model for ConnectOp {
    ghost use Rattle.wasi_world.specs.Operation.{Operation};

    ghost Value = { Operation };

    ghost use Rattle.wasi_tcp.specs.Connect.{connect_operation};

    ghost view = { λ o. connect_operation o.asker o.wildcard o.addr o.stage };
}

impl ConnectOp {
    pub(crate) fn new(
        asker: Asker,
        wildcard: IpSocketAddress,
        addr: IpSocketAddress,
        bound: bool,
    ) -> ConnectOp
        ensures { result ≡ connect_operation asker wildcard addr (connect_first bound) }
    {
        let stage = if bound {
            ConnectStage::Check
        } else {
            ConnectStage::CheckWildcard
        };
        ConnectOp {
            asker,
            wildcard,
            addr,
            stage,
        }
    }

    /// The network socket that it works on.
    pub fn side(&self) -> Sock
        ensures { result ≡ self.now.who.side }
    {
        self.asker.side
    }

    /// Makes the calls that are left, until one is pending. A no of the check is `AccessDenied`,
    /// and a code is returned; both close the network socket first. Out of memory it may be polled
    /// again.
    pub(crate) fn poll<W: World>(&mut self, world: &mut W) -> Result<Answer<()>, Refusal>
        requires { (W.seen world.old).ended ≡ false }
        ensures polled { PollsFor (λ done. Nothing) Nothing self.old self.new (W.seen world.old)
            (W.seen world.new) result }
        ensures before { IsConnect self.old }
        ensures after { IsConnect self.new }
    {
        let (asker, wildcard, addr) = (self.asker, self.wildcard, self.addr);
        match self.stage {
            ConnectStage::CheckWildcard => {
                poll_wildcard(world, asker, wildcard, addr, &mut self.stage)
            }
            ConnectStage::Check => poll_check(world, asker, wildcard, addr, &mut self.stage),
            ConnectStage::Connect => poll_connect(world, asker, wildcard, addr, &mut self.stage),
            ConnectStage::Close(code) => {
                poll_close(world, asker, wildcard, addr, &mut self.stage, code)
            }
            ConnectStage::Over => Ok(Answer::Ready(())),
        }
    }
}

fn poll_wildcard<W: World>(
    world: &mut W,
    asker: Asker,
    wildcard: IpSocketAddress,
    addr: IpSocketAddress,
    stage: &mut ConnectStage,
) -> Result<Answer<()>, Refusal>
    requires open { (W.seen world.old).ended ≡ false }
    requires stage { stage.old ≡ ConnectStage.CheckWildcard }
    ensures polled { PollsFor (λ done. Nothing) Nothing (connect_operation asker wildcard addr
        stage.old) (connect_operation asker wildcard addr stage.new) (W.seen world.old)
        (W.seen world.new) result }
{
    let verdict = asks::check(
        world,
        asker.op,
        asker.maker,
        wildcard,
        SocketAddrUse::TcpBind,
    )?;
    match verdict {
        Verdict::Pending => return Ok(Answer::Pending),
        Verdict::No => {
            *stage = ConnectStage::Close(ErrorCode::AccessDenied);
            return poll_close(world, asker, wildcard, addr, stage, ErrorCode::AccessDenied);
        }
        Verdict::Yes => {}
    }
    *stage = ConnectStage::Check;
    poll_check(world, asker, wildcard, addr, stage)
}

fn poll_check<W: World>(
    world: &mut W,
    asker: Asker,
    wildcard: IpSocketAddress,
    addr: IpSocketAddress,
    stage: &mut ConnectStage,
) -> Result<Answer<()>, Refusal>
    requires open { (W.seen world.old).ended ≡ false }
    requires stage { stage.old ≡ ConnectStage.Check }
    ensures polled { PollsFor (λ done. Nothing) Nothing (connect_operation asker wildcard addr
        stage.old) (connect_operation asker wildcard addr stage.new) (W.seen world.old)
        (W.seen world.new) result }
{
    let verdict = asks::check(
        world,
        asker.op,
        asker.maker,
        addr,
        SocketAddrUse::TcpConnect,
    )?;
    match verdict {
        Verdict::Pending => return Ok(Answer::Pending),
        Verdict::No => {
            *stage = ConnectStage::Close(ErrorCode::AccessDenied);
            return poll_close(world, asker, wildcard, addr, stage, ErrorCode::AccessDenied);
        }
        Verdict::Yes => {}
    }
    *stage = ConnectStage::Connect;
    poll_connect(world, asker, wildcard, addr, stage)
}

fn poll_connect<W: World>(
    world: &mut W,
    asker: Asker,
    wildcard: IpSocketAddress,
    addr: IpSocketAddress,
    stage: &mut ConnectStage,
) -> Result<Answer<()>, Refusal>
    requires open { (W.seen world.old).ended ≡ false }
    requires stage { stage.old ≡ ConnectStage.Connect }
    ensures polled { PollsFor (λ done. Nothing) Nothing (connect_operation asker wildcard addr
        stage.old) (connect_operation asker wildcard addr stage.new) (W.seen world.old)
        (W.seen world.new) result }
{
    let told = asks::connect(world, asker.op, asker.side, addr)?;
    match told {
        Polled::Pending => return Ok(Answer::Pending),
        Polled::Code(code) => {
            *stage = ConnectStage::Close(code);
            return poll_close(world, asker, wildcard, addr, stage, code);
        }
        Polled::Ready(()) => {}
    }
    *stage = ConnectStage::Over;
    Ok(Answer::Ready(()))
}

fn poll_close<W: World>(
    world: &mut W,
    asker: Asker,
    wildcard: IpSocketAddress,
    addr: IpSocketAddress,
    stage: &mut ConnectStage,
    code: ErrorCode,
) -> Result<Answer<()>, Refusal>
    requires open { (W.seen world.old).ended ≡ false }
    requires stage { stage.old ≡ ConnectStage.Close code }
    ensures polled { PollsFor (λ done. Nothing) Nothing (connect_operation asker wildcard addr
        stage.old) (connect_operation asker wildcard addr stage.new) (W.seen world.old)
        (W.seen world.new) result }
{
    asks::close(world, asker.op, asker.side)?;
    *stage = ConnectStage::Over;
    Err(Refusal::Code(code))
}
