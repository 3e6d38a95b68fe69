//! A bind that is polled.

ghost use Rattle.std.specs.Prelude.{◌≡◌, true, false, Err};
ghost use Rattle.wasi_world.specs.Operation.{PollsFor, Nothing};
ghost use Rattle.socket_common.specs.Rounds.{is_going, stays_going};
ghost use Rattle.wasi_tcp.specs.Bind.{bind_operation, IsBind};

use crate::socket::TcpSocket;
use socket_common::Asker;
use std::marker::Model;
use wasi_addr::{ErrorCode, IpSocketAddress, SocketAddrUse};
use wasi_world::asks::Verdict;
use wasi_world::{Answer, OpId, Refusal, Sock, World, asks};

/// The next call of a bind.
#[derive(Clone, Copy, Debug, PartialEq, Eq)]
pub enum BindStage {
    /// The check of the address.
    Check,
    /// The bind.
    Bind,
    /// None: it ended, bound or with a code.
    Over,
}

/// A bind in progress: the check of the address, and then the bind.
#[derive(Drop)]
pub struct BindOp {
    asker: Asker,
    addr: IpSocketAddress,
    stage: BindStage,
}

impl Model for BindOp {
    ghost use Rattle.wasi_world.specs.Operation.{Operation};
    ghost use Rattle.wasi_tcp.specs.Bind.{bind_operation, IsBind};

    ghost Value = { Operation };

    ghost view = { λ o. bind_operation o.asker o.addr o.stage };
}

impl BindOp {
    pub(crate) fn new(op: OpId, side: Sock, maker: u32, addr: IpSocketAddress) -> BindOp
        ensures { result ≡ bind_operation (record { op = op; side = side; maker = maker }) addr
            BindStage.Check }
    {
        BindOp {
            asker: Asker { op, side, maker },
            addr,
            stage: BindStage::Check,
        }
    }

    /// Makes the calls that are left, until one is pending. No socket is changed: the one that
    /// began it stays in the state Default.
    ///
    /// - A no of the check is `AccessDenied`, and a code is returned.
    /// - Out of memory it stays after its last answered call, and may be polled again.
    /// - One that has ended is `InvalidState`, and nothing is asked.
    pub fn poll<W: World>(
        &mut self,
        world: &mut W,
        socket: &mut TcpSocket,
    ) -> Result<Answer<()>, Refusal>
        requires { (W.seen world.old).ended ≡ false }
        ensures polled { is_going self.old ≡ true
            → PollsFor (λ done. Nothing) Nothing self.old self.new (W.seen world.old)
            (W.seen world.new) result }
        ensures going { is_going self.new ≡ stays_going result }
        ensures over { is_going self.old ≡ false
            → result ≡ Err (Refusal.Code ErrorCode.InvalidState) }
        ensures unasked { is_going self.old ≡ false → W.seen world.new ≡ W.seen world.old }
        ensures stays { is_going self.old ≡ false → self.new ≡ self.old }
        ensures same { socket.new ≡ socket.old }
        ensures bind { IsBind self.old }
    {
        match self.stage {
            BindStage::Check => poll_check(world, self.asker, self.addr, &mut self.stage),
            BindStage::Bind => poll_bind(world, self.asker, self.addr, &mut self.stage),
            BindStage::Over => Err(Refusal::Code(ErrorCode::InvalidState)),
        }
    }
}

fn poll_check<W: World>(
    world: &mut W,
    asker: Asker,
    addr: IpSocketAddress,
    stage: &mut BindStage,
) -> Result<Answer<()>, Refusal>
    requires open { (W.seen world.old).ended ≡ false }
    requires stage { stage.old ≡ BindStage.Check }
    ensures polled { PollsFor (λ done. Nothing) Nothing (bind_operation asker addr stage.old)
        (bind_operation asker addr stage.new) (W.seen world.old) (W.seen world.new) result }
    ensures going { is_going (bind_operation asker addr stage.new) ≡ stays_going result }
{
    let verdict = asks::check(world, asker.op, asker.maker, addr, SocketAddrUse::TcpBind)?;
    match verdict {
        Verdict::Pending => return Ok(Answer::Pending),
        Verdict::No => {
            *stage = BindStage::Over;
            return Err(Refusal::Code(ErrorCode::AccessDenied));
        }
        Verdict::Yes => {}
    }
    *stage = BindStage::Bind;
    poll_bind(world, asker, addr, stage)
}

fn poll_bind<W: World>(
    world: &mut W,
    asker: Asker,
    addr: IpSocketAddress,
    stage: &mut BindStage,
) -> Result<Answer<()>, Refusal>
    requires open { (W.seen world.old).ended ≡ false }
    requires stage { stage.old ≡ BindStage.Bind }
    ensures polled { PollsFor (λ done. Nothing) Nothing (bind_operation asker addr stage.old)
        (bind_operation asker addr stage.new) (W.seen world.old) (W.seen world.new) result }
    ensures going { is_going (bind_operation asker addr stage.new) ≡ stays_going result }
{
    let told = asks::bind(world, asker.op, asker.side, addr)?;
    *stage = BindStage::Over;
    match told {
        Ok(()) => Ok(Answer::Ready(())),
        Err(code) => Err(Refusal::Code(code)),
    }
}
