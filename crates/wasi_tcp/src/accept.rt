//! An accept that is polled, in rounds: one poll refuses at most 64 arrivals.

ghost use Rattle.std.specs.Prelude.{◌≡◌, true, false, OnErr};
ghost use Rattle.wasi_world.specs.Asks.{AsksFor};
ghost use Rattle.wasi_world.specs.Operation.{Nothing};
ghost use Rattle.socket_common.specs.Rounds.{PollsRounds, RoundFor, is_going};
ghost use Rattle.wasi_tcp.specs.Accept.{accept_operation, connection_of, in_hand};
ghost use Rattle.wasi_tcp.specs.Accept.{accept_give_up_asks, IsAccept};

use socket_common::{Asker, InRounds, poll_rounds};
use std::alloc::AllocError;
use std::marker::Model;
use wasi_addr::{IpSocketAddress, SocketAddrUse};
use wasi_world::asks::{Polled, Verdict};
use wasi_world::{Answer, Refusal, Sock, World, asks};

/// The next call of an accept, with the arrival that is in hand.
#[derive(Clone, Copy, Debug, PartialEq, Eq)]
pub enum AcceptStage {
    /// The accept: no arrival is in hand.
    Accept,
    /// The check of the arrival's peer.
    Check(IpSocketAddress),
    /// The hand-over of the arrival: the check said yes.
    Hand(IpSocketAddress),
    /// The refusal of the arrival: the check said no.
    Refuse(IpSocketAddress),
    /// None: it ended, with a connection or a code.
    Over,
}

/// An accept in progress: an arrival is checked and handed over, or refused, and then the next one
/// is waited for.
#[derive(Drop)]
pub struct AcceptOp {
    asker: Asker,
    stage: AcceptStage,
}

impl Model for AcceptOp {
    ghost use Rattle.wasi_world.specs.Operation.{Operation};

    ghost Value = { Operation };

    ghost use Rattle.wasi_tcp.specs.Accept.{accept_operation};

    ghost view = { λ o. accept_operation o.asker o.stage };
}

impl AcceptOp {
    pub(crate) fn new(asker: Asker) -> AcceptOp
        ensures { result ≡ accept_operation asker AcceptStage.Accept }
    {
        AcceptOp {
            asker,
            stage: AcceptStage::Accept,
        }
    }

    /// Makes the calls that are left, until one is pending.
    ///
    /// - No arrival is in hand: one accept. Pending ends the poll, and a code is returned.
    /// - An arrival is checked for the context that created the listener. A yes hands it over: the
    ///   answer is the new network socket, which has the accept's name, and the peer's address. A
    ///   no refuses it, and the next arrival is waited for.
    /// - After the 64th refusal in one poll the answer is pending.
    /// - Out of memory it may be polled again.
    pub(crate) fn poll<W: World>(
        &mut self,
        world: &mut W,
    ) -> Result<Answer<(Sock, IpSocketAddress)>, Refusal>
        requires open { (W.seen world.old).ended ≡ false }
        requires going { is_going self.old ≡ true }
        ensures polled { PollsRounds connection_of Nothing self.old self.new (W.seen world.old)
            (W.seen world.new) result }
        ensures before { IsAccept self.old }
        ensures after { IsAccept self.new }
        ensures open { (W.seen world.new).ended ≡ false }
    {
        // No effect at run time: the proof reads from the uses of `stage` that this is an accept,
        // before and after.
        let _ = &self.stage;
        let polled = poll_rounds(world, self);
        let _ = &self.stage;
        polled
    }

    /// The arrival that is in hand.
    fn in_hand(&self) -> Option<IpSocketAddress>
        ensures { result ≡ in_hand self.now.left }
    {
        match self.stage {
            AcceptStage::Check(peer) | AcceptStage::Hand(peer) | AcceptStage::Refuse(peer) => {
                Some(peer)
            }
            AcceptStage::Accept | AcceptStage::Over => None,
        }
    }

    /// Refuses the arrival that is in hand, where there is one. After running out of memory nothing
    /// was asked.
    pub(crate) fn give_up<W: World>(&self, world: &mut W) -> Result<(), AllocError>
        requires { (W.seen world.old).ended ≡ false }
        ensures asked { AsksFor (accept_give_up_asks self.now) (W.seen world.old) (W.seen world.new)
            (λ done. done) result }
        ensures err { OnErr result (W.seen world.new ≡ W.seen world.old) }
    {
        match self.in_hand() {
            Some(peer) => asks::refuse(world, self.asker.op, self.asker.side, peer),
            None => Ok(()),
        }
    }
}

impl InRounds for AcceptOp {
    ghost use Rattle.socket_common.specs.Rounds.{RoundFor, is_going};
    ghost use Rattle.wasi_tcp.specs.Accept.{connection_of};

    type Out = (Sock, IpSocketAddress);

    ghost operation = { λ op. op };

    ghost gives = { connection_of };

    fn round<W: World>(
        &mut self,
        world: &mut W,
    ) -> Result<Option<Answer<(Sock, IpSocketAddress)>>, Refusal> {
        poll_round(world, self.asker, &mut self.stage)
    }
}

/// One round, which ends the poll or refuses an arrival.
fn poll_round<W: World>(
    world: &mut W,
    asker: Asker,
    stage: &mut AcceptStage,
) -> Result<Option<Answer<(Sock, IpSocketAddress)>>, Refusal>
    requires open { (W.seen world.old).ended ≡ false }
    requires going { is_going (accept_operation asker stage.old) ≡ true }
    ensures round { RoundFor connection_of Nothing (accept_operation asker stage.old)
        (accept_operation asker stage.new) (W.seen world.old) (W.seen world.new) result }
    ensures open { (W.seen world.new).ended ≡ false }
{
    match *stage {
        AcceptStage::Accept => poll_accept(world, asker, stage),
        AcceptStage::Check(peer) => poll_check(world, asker, stage, peer),
        AcceptStage::Hand(peer) => poll_hand(world, asker, stage, peer),
        AcceptStage::Refuse(peer) => poll_refuse(world, asker, stage, peer),
        AcceptStage::Over => unreachable!(),
    }
}

fn poll_accept<W: World>(
    world: &mut W,
    asker: Asker,
    stage: &mut AcceptStage,
) -> Result<Option<Answer<(Sock, IpSocketAddress)>>, Refusal>
    requires open { (W.seen world.old).ended ≡ false }
    requires stage { stage.old ≡ AcceptStage.Accept }
    ensures round { RoundFor connection_of Nothing (accept_operation asker stage.old)
        (accept_operation asker stage.new) (W.seen world.old) (W.seen world.new) result }
    ensures open { (W.seen world.new).ended ≡ false }
{
    let told = asks::accept(world, asker.op, asker.side)?;
    match told {
        Polled::Pending => return Ok(Some(Answer::Pending)),
        Polled::Code(code) => {
            *stage = AcceptStage::Over;
            return Err(Refusal::Code(code));
        }
        Polled::Ready(peer) => {
            *stage = AcceptStage::Check(peer);
            return poll_check(world, asker, stage, peer);
        }
    }
}

fn poll_check<W: World>(
    world: &mut W,
    asker: Asker,
    stage: &mut AcceptStage,
    peer: IpSocketAddress,
) -> Result<Option<Answer<(Sock, IpSocketAddress)>>, Refusal>
    requires open { (W.seen world.old).ended ≡ false }
    requires stage { stage.old ≡ AcceptStage.Check peer }
    ensures round { RoundFor connection_of Nothing (accept_operation asker stage.old)
        (accept_operation asker stage.new) (W.seen world.old) (W.seen world.new) result }
    ensures open { (W.seen world.new).ended ≡ false }
{
    let verdict = asks::check(world, asker.op, asker.maker, peer, SocketAddrUse::TcpAccept)?;
    match verdict {
        Verdict::Pending => return Ok(Some(Answer::Pending)),
        Verdict::No => {
            *stage = AcceptStage::Refuse(peer);
            return poll_refuse(world, asker, stage, peer);
        }
        Verdict::Yes => {}
    }
    *stage = AcceptStage::Hand(peer);
    poll_hand(world, asker, stage, peer)
}

fn poll_hand<W: World>(
    world: &mut W,
    asker: Asker,
    stage: &mut AcceptStage,
    peer: IpSocketAddress,
) -> Result<Option<Answer<(Sock, IpSocketAddress)>>, Refusal>
    requires open { (W.seen world.old).ended ≡ false }
    requires stage { stage.old ≡ AcceptStage.Hand peer }
    ensures round { RoundFor connection_of Nothing (accept_operation asker stage.old)
        (accept_operation asker stage.new) (W.seen world.old) (W.seen world.new) result }
    ensures open { (W.seen world.new).ended ≡ false }
{
    asks::hand(world, asker.op, asker.side, peer)?;
    *stage = AcceptStage::Over;
    Ok(Some(Answer::Ready((asker.op, peer))))
}

fn poll_refuse<W: World>(
    world: &mut W,
    asker: Asker,
    stage: &mut AcceptStage,
    peer: IpSocketAddress,
) -> Result<Option<Answer<(Sock, IpSocketAddress)>>, Refusal>
    requires open { (W.seen world.old).ended ≡ false }
    requires stage { stage.old ≡ AcceptStage.Refuse peer }
    ensures round { RoundFor connection_of Nothing (accept_operation asker stage.old)
        (accept_operation asker stage.new) (W.seen world.old) (W.seen world.new) result }
    ensures open { (W.seen world.new).ended ≡ false }
{
    asks::refuse(world, asker.op, asker.side, peer)?;
    *stage = AcceptStage::Accept;
    Ok(None)
}
