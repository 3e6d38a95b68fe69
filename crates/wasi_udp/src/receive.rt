//! A datagram that is received, in rounds: one poll drops at most 64.

ghost use Rattle.std.specs.Prelude.{◌≡◌, true, false, Err, OnErr, IfOk};
ghost use Rattle.wasi_world.specs.Asks.{AsksFor};
ghost use Rattle.wasi_world.specs.Operation.{Nothing, is_wanted};
ghost use Rattle.socket_common.specs.Rounds.{PollsRounds, RoundFor, is_going, stays_going};
ghost use Rattle.wasi_udp.specs.Bind.{IsOf};
ghost use Rattle.wasi_udp.specs.Receive.{receive_operation, datagram_of, wanting, bytes_in};
ghost use Rattle.wasi_udp.specs.Receive.{receive_start, receive_asks, IsReceive, receive_first};

use crate::address::same_address;
use crate::socket::UdpSocket;
use socket_common::{Asker, InRounds, poll_rounds};
use std::alloc::AllocError;
use std::marker::Model;
use std::mem;
use wasi_addr::{ErrorCode, IpSocketAddress, SocketAddrUse};
use wasi_world::asks::{Polled, Verdict};
use wasi_world::{Answer, Octets, OpId, Refusal, World, asks};

/// The next call of a receive, with the datagram that is in hand.
#[derive(Drop)]
pub enum RecvStage {
    /// None: the socket wasn't bound at the start, and the next poll returns this code.
    Refused(ErrorCode),
    /// The receive: no datagram is in hand.
    Receive,
    /// The check of the sender; the datagram's bytes, and its sender.
    Check(Octets, IpSocketAddress),
    /// None: it ended, with a datagram or with a code.
    Over,
}

/// A receive in progress: the sender of each datagram is checked; then the datagram is handed out,
/// or it is dropped and the next one is waited for. Its bytes are never copied.
#[derive(Drop)]
pub struct RecvOp {
    asker: Asker,
    /// The sender that the last poll wanted.
    only: Option<IpSocketAddress>,
    stage: RecvStage,
}

impl Model for RecvOp {
    ghost use Rattle.wasi_world.specs.Operation.{Operation};
    ghost use Rattle.wasi_udp.specs.Receive.{receive_operation};

    ghost Value = { Operation };

    ghost view = { λ o. receive_operation o.asker o.only o.stage };
}

impl UdpSocket {
    /// Begins to receive a datagram (`incoming-datagram-stream.receive`): asks whether the socket
    /// is bound, and `RecvOp::poll` continues. A socket that isn't bound is refused by the first
    /// poll, with `InvalidState`. Out of memory nothing was asked, and the socket stays as it was.
    pub fn recv<W: World>(&mut self, world: &mut W, op: OpId) -> Result<RecvOp, AllocError>
        requires { (W.seen world.old).ended ≡ false }
        ensures asked { AsksFor (receive_asks op self.old) (W.seen world.old) (W.seen world.new)
            (λ begun. (begun, self.new)) result }
        ensures its_socket { IfOk result (λ begun. IsOf begun self.new) }
        ensures going { IfOk result (λ begun. is_going begun ≡ true) }
        ensures err { OnErr result (self.new ≡ self.old) }
        ensures unasked { OnErr result (W.seen world.new ≡ W.seen world.old) }
        ensures side { self.new.side ≡ self.old.side }
    {
        let bound = self.is_bound(world, op)?;
        Ok(self.begin_recv(op, bound))
    }

    /// The receive, from its first stage on.
    fn begin_recv(&self, op: OpId, bound: bool) -> RecvOp
        ensures begun { result ≡ receive_start op self.now bound }
        ensures its_socket { IsOf result self.now }
        ensures going { is_going result ≡ true }
    {
        let stage = if bound {
            RecvStage::Receive
        } else {
            RecvStage::Refused(ErrorCode::InvalidState)
        };
        RecvOp {
            asker: self.asker(op),
            only: None,
            stage,
        }
    }
}

impl RecvOp {
    /// Makes the calls that are left, until one is pending.
    ///
    /// - No datagram is in hand: one receive. Pending ends the poll, and a code is returned.
    /// - The sender of a datagram is checked for the context that created the socket. A yes hands
    ///   the datagram out, with its sender.
    /// - The datagram is dropped after a no, and where only another sender is wanted. Then the next
    ///   one is waited for; after the 64th in one poll the answer is pending.
    /// - Out of memory it stays after its last answered call, and may be polled again.
    /// - One that has ended is `InvalidState`, and nothing is asked.
    pub fn poll<W: World>(
        &mut self,
        world: &mut W,
        only: Option<IpSocketAddress>,
    ) -> Result<Answer<(Octets, IpSocketAddress)>, Refusal>
        requires { (W.seen world.old).ended ≡ false }
        ensures polled { is_going self.old ≡ true
            → PollsRounds datagram_of Nothing (wanting only self.old) self.new (W.seen world.old)
            (W.seen world.new) result }
        ensures going { is_going self.new ≡ stays_going result }
        ensures over { is_going self.old ≡ false
            → result ≡ Err (Refusal.Code ErrorCode.InvalidState) }
        ensures unasked { is_going self.old ≡ false → W.seen world.new ≡ W.seen world.old }
        ensures stays { is_going self.old ≡ false → self.new ≡ self.old }
        ensures who { self.new.who ≡ self.old.who }
        ensures before { IsReceive self.old }
        ensures after { IsReceive self.new }
        ensures open { (W.seen world.new).ended ≡ false }
    {
        if !self.is_going() {
            return Err(Refusal::Code(ErrorCode::InvalidState));
        }
        self.want(only);
        let polled = poll_rounds(world, self);
        // No effect at run time: the proof reads from this that it is a receive still.
        let _ = self.is_going();
        polled
    }

    /// Whether an ask is left.
    fn is_going(&self) -> bool
        ensures going { result ≡ is_going self.now }
        ensures receive { IsReceive self.now }
    {
        match &self.stage {
            RecvStage::Refused(_) | RecvStage::Receive | RecvStage::Check(_, _) => true,
            RecvStage::Over => false,
        }
    }

    /// From here on only this sender is wanted, or any.
    fn want(&mut self, only: Option<IpSocketAddress>)
        ensures wanting { self.new ≡ wanting only self.old }
        ensures going { is_going self.new ≡ is_going self.old }
        ensures who { self.new.who ≡ self.old.who }
    {
        self.only = only;
    }
}

impl InRounds for RecvOp {
    ghost use Rattle.socket_common.specs.Rounds.{RoundFor, is_going};
    ghost use Rattle.wasi_udp.specs.Receive.{datagram_of};

    type Out = (Octets, IpSocketAddress);

    ghost operation = { λ op. op };

    ghost gives = { datagram_of };

    fn round<W: World>(
        &mut self,
        world: &mut W,
    ) -> Result<Option<Answer<(Octets, IpSocketAddress)>>, Refusal> {
        poll_round(world, self.asker, self.only, &mut self.stage)
    }
}

/// One round, which ends the poll or drops a datagram.
fn poll_round<W: World>(
    world: &mut W,
    asker: Asker,
    only: Option<IpSocketAddress>,
    stage: &mut RecvStage,
) -> Result<Option<Answer<(Octets, IpSocketAddress)>>, Refusal>
    requires open { (W.seen world.old).ended ≡ false }
    requires going { is_going (receive_operation asker only stage.old) ≡ true }
    ensures round { RoundFor datagram_of Nothing (receive_operation asker only stage.old)
        (receive_operation asker only stage.new) (W.seen world.old) (W.seen world.new) result }
    ensures open { (W.seen world.new).ended ≡ false }
{
    match stage {
        RecvStage::Refused(code) => {
            let code = *code;
            *stage = RecvStage::Over;
            Err(Refusal::Code(code))
        }
        RecvStage::Receive => poll_receive(world, asker, only, stage),
        RecvStage::Check(_, peer) => {
            let peer = *peer;
            poll_check(world, asker, only, stage, peer)
        }
        RecvStage::Over => unreachable!(),
    }
}

fn poll_receive<W: World>(
    world: &mut W,
    asker: Asker,
    only: Option<IpSocketAddress>,
    stage: &mut RecvStage,
) -> Result<Option<Answer<(Octets, IpSocketAddress)>>, Refusal>
    requires open { (W.seen world.old).ended ≡ false }
    requires stage { stage.old ≡ RecvStage.Receive }
    ensures round { RoundFor datagram_of Nothing (receive_operation asker only stage.old)
        (receive_operation asker only stage.new) (W.seen world.old) (W.seen world.new) result }
    ensures open { (W.seen world.new).ended ≡ false }
{
    let told = asks::recv(world, asker.op, asker.side)?;
    match told {
        Polled::Pending => return Ok(Some(Answer::Pending)),
        Polled::Code(code) => {
            *stage = RecvStage::Over;
            return Err(Refusal::Code(code));
        }
        Polled::Ready((bytes, peer)) => {
            *stage = RecvStage::Check(bytes, peer);
            return poll_check(world, asker, only, stage, peer);
        }
    }
}

fn poll_check<W: World>(
    world: &mut W,
    asker: Asker,
    only: Option<IpSocketAddress>,
    stage: &mut RecvStage,
    peer: IpSocketAddress,
) -> Result<Option<Answer<(Octets, IpSocketAddress)>>, Refusal>
    requires open { (W.seen world.old).ended ≡ false }
    requires stage { stage.old ≡ RecvStage.Check (bytes_in stage.old) peer }
    ensures round { RoundFor datagram_of Nothing (receive_operation asker only stage.old)
        (receive_operation asker only stage.new) (W.seen world.old) (W.seen world.new) result }
    ensures open { (W.seen world.new).ended ≡ false }
{
    let verdict = asks::check(
        world,
        asker.op,
        asker.maker,
        peer,
        SocketAddrUse::UdpReceive,
    )?;
    match verdict {
        Verdict::Pending => return Ok(Some(Answer::Pending)),
        Verdict::No => {
            *stage = RecvStage::Receive;
            return Ok(None);
        }
        Verdict::Yes => {}
    }
    if !is_wanted(only, peer) {
        *stage = RecvStage::Receive;
        return Ok(None);
    }
    Ok(Some(Answer::Ready((take_bytes(stage, peer), peer))))
}

/// Whether a datagram of this sender is wanted: all are where `only` is `None`.
fn is_wanted(only: Option<IpSocketAddress>, peer: IpSocketAddress) -> bool
    ensures { result ≡ is_wanted only peer }
{
    match only {
        Some(wanted) => same_address(peer, wanted),
        None => true,
    }
}

/// Takes the bytes in hand out: the receive is over.
fn take_bytes(stage: &mut RecvStage, peer: IpSocketAddress) -> Octets
    requires stage { stage.old ≡ RecvStage.Check (bytes_in stage.old) peer }
    ensures bytes { result ≡ bytes_in stage.old }
    ensures over { stage.new ≡ RecvStage.Over }
{
    match mem::replace(stage, RecvStage::Over) {
        RecvStage::Check(bytes, _) => bytes,
        _ => unreachable!(),
    }
}
