//! A bind that is polled.

ghost use Rattle.std.specs.Prelude.{◌≡◌, true, false, Err, Ok, OnErr, IfOk};
ghost use Rattle.wasi_world.specs.Asks.{AsksFor, outcome};
ghost use Rattle.wasi_world.specs.Operation.{PollsFor, Nothing};
ghost use Rattle.socket_common.specs.Rounds.{is_going, stays_going};
ghost use Rattle.wasi_udp.specs.Bind.{bind_operation, bind_start, bind_asks, IsOf, IsBind};

use crate::socket::UdpSocket;
use socket_common::Asker;
use std::marker::Model;
use wasi_addr::{ErrorCode, IpSocketAddress, SocketAddrUse, is_valid_address_family};
use wasi_world::asks::Verdict;
use wasi_world::{Answer, OpId, Refusal, World, asks};

/// The next call of a bind.
#[derive(Clone, Copy, Debug, PartialEq, Eq)]
pub enum UdpBindStage {
    /// The check of the address.
    Check,
    /// The bind.
    Bind,
    /// None: it ended, bound or with a code.
    Over,
}

/// A bind in progress: the check of the address, and then the bind.
#[derive(Drop)]
pub struct UdpBindOp {
    asker: Asker,
    addr: IpSocketAddress,
    stage: UdpBindStage,
}

impl Model for UdpBindOp {
    ghost use Rattle.wasi_world.specs.Operation.{Operation};
    ghost use Rattle.wasi_udp.specs.Bind.{bind_operation};

    ghost Value = { Operation };

    ghost view = { λ o. bind_operation o.asker o.addr o.stage };
}

impl UdpSocket {
    /// Begins a bind to the address (`udp-socket.start-bind`), which `UdpBindOp::poll` continues;
    /// nothing is checked yet. Bound already: `InvalidState`. Not of the socket's family:
    /// `InvalidArgument`. An address that isn't unicast is not refused here. Out of memory nothing
    /// was asked, and the socket stays as it was.
    pub fn bind<W: World>(
        &mut self,
        world: &mut W,
        op: OpId,
        addr: IpSocketAddress,
    ) -> Result<UdpBindOp, Refusal>
        requires { (W.seen world.old).ended ≡ false }
        ensures asked { AsksFor (bind_asks op self.old addr) (W.seen world.old) (W.seen world.new)
            (λ begun. (begun, self.new)) (outcome result) }
        ensures its_socket { IfOk result (λ begun. IsOf begun self.new) }
        ensures going { IfOk result (λ begun. is_going begun ≡ true) }
        ensures err { OnErr (outcome result) (self.new ≡ self.old) }
        ensures unasked { OnErr (outcome result) (W.seen world.new ≡ W.seen world.old) }
        ensures side { self.new.side ≡ self.old.side }
    {
        let bound = self.is_bound(world, op)?;
        self.begin_bind(op, addr, bound)
    }

    /// The tests of a bind.
    fn begin_bind(&self, op: OpId, addr: IpSocketAddress, bound: bool) -> Result<UdpBindOp, Refusal>
        ensures begun { outcome result ≡ Ok (bind_start op self.now addr bound) }
        ensures its_socket { IfOk result (λ begun. IsOf begun self.now) }
        ensures going { IfOk result (λ begun. is_going begun ≡ true) }
    {
        if bound {
            return Err(Refusal::Code(ErrorCode::InvalidState));
        }
        if !is_valid_address_family(addr.ip(), self.address_family()) {
            return Err(Refusal::Code(ErrorCode::InvalidArgument));
        }
        Ok(UdpBindOp {
            asker: self.asker(op),
            addr,
            stage: UdpBindStage::Check,
        })
    }
}

impl UdpBindOp {
    /// Makes the calls that are left, until one is pending. The socket stays as it was: its next
    /// call asks whether it is bound now.
    ///
    /// - A no of the check is `AccessDenied`, and a code is returned.
    /// - Out of memory it stays after its last answered call, and may be polled again.
    /// - One that has ended is `InvalidState`, and nothing is asked.
    pub fn poll<W: World>(&mut self, world: &mut W) -> Result<Answer<()>, Refusal>
        requires { (W.seen world.old).ended ≡ false }
        ensures polled { is_going self.old ≡ true
            → PollsFor (λ done. Nothing) Nothing self.old self.new (W.seen world.old)
            (W.seen world.new) result }
        ensures going { is_going self.new ≡ stays_going result }
        ensures over { is_going self.old ≡ false
            → result ≡ Err (Refusal.Code ErrorCode.InvalidState) }
        ensures unasked { is_going self.old ≡ false → W.seen world.new ≡ W.seen world.old }
        ensures stays { is_going self.old ≡ false → self.new ≡ self.old }
        ensures before { IsBind self.old }
        ensures after { IsBind self.new }
    {
        match self.stage {
            UdpBindStage::Check => poll_check(world, self.asker, self.addr, &mut self.stage),
            UdpBindStage::Bind => poll_bind(world, self.asker, self.addr, &mut self.stage),
            UdpBindStage::Over => Err(Refusal::Code(ErrorCode::InvalidState)),
        }
    }
}

fn poll_check<W: World>(
    world: &mut W,
    asker: Asker,
    addr: IpSocketAddress,
    stage: &mut UdpBindStage,
) -> Result<Answer<()>, Refusal>
    requires open { (W.seen world.old).ended ≡ false }
    requires stage { stage.old ≡ UdpBindStage.Check }
    ensures polled { PollsFor (λ done. Nothing) Nothing (bind_operation asker addr stage.old)
        (bind_operation asker addr stage.new) (W.seen world.old) (W.seen world.new) result }
    ensures going { is_going (bind_operation asker addr stage.new) ≡ stays_going result }
{
    let verdict = asks::check(world, asker.op, asker.maker, addr, SocketAddrUse::UdpBind)?;
    match verdict {
        Verdict::Pending => return Ok(Answer::Pending),
        Verdict::No => {
            *stage = UdpBindStage::Over;
            return Err(Refusal::Code(ErrorCode::AccessDenied));
        }
        Verdict::Yes => {}
    }
    *stage = UdpBindStage::Bind;
    poll_bind(world, asker, addr, stage)
}

fn poll_bind<W: World>(
    world: &mut W,
    asker: Asker,
    addr: IpSocketAddress,
    stage: &mut UdpBindStage,
) -> Result<Answer<()>, Refusal>
    requires open { (W.seen world.old).ended ≡ false }
    requires stage { stage.old ≡ UdpBindStage.Bind }
    ensures polled { PollsFor (λ done. Nothing) Nothing (bind_operation asker addr stage.old)
        (bind_operation asker addr stage.new) (W.seen world.old) (W.seen world.new) result }
    ensures going { is_going (bind_operation asker addr stage.new) ≡ stays_going result }
{
    let told = asks::udp_bind(world, asker.op, asker.side, addr)?;
    *stage = UdpBindStage::Over;
    match told {
        Ok(()) => Ok(Answer::Ready(())),
        Err(code) => Err(Refusal::Code(code)),
    }
}
