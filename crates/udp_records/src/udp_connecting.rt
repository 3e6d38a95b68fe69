//! How a UDP socket is connected, and how its datagram streams are made: after a connect, or a
//! disconnect.

ghost use Rattle.std.specs.Prelude.{◌≡◌, true, false, None, OnErr, Some};
ghost use Rattle.wasi_world.specs.Asks.{AsksFor, Reaches, outcome};
ghost use Rattle.socket_common.specs.Rounds.{is_going, stays_going};
ghost use Rattle.udp_records.specs.Datagrams.{with_streams, udp_connect_settled};
ghost use Rattle.udp_records.specs.Datagrams.{poll_udp_connect_asks, streams_to};
ghost use Rattle.udp_records.specs.Datagrams.{begin_streams_asks};
ghost use Rattle.udp_records.specs.Datagrams.{udp_connect_asks, udp_reconnect_asks};
ghost use Rattle.udp_records.specs.Datagrams.{udp_reconnect_settled};
ghost use Rattle.record_common.specs.Sides.{MakesNone};

use crate::datagrams::{Incoming, Outgoing, Receiving};
use crate::udp::OpenUdp;
use std::marker::Model;
use wasi_addr::{ErrorCode, IpSocketAddress};
use wasi_udp::UdpConnectOp;
use wasi_world::{Answer, OpId, Refusal, World};

/// A connect in progress. It has a call left to make, so a poll of it asks the network.
#[derive(Drop)]
pub struct PendingUdpConnect {
    connect: UdpConnectOp,
}

impl Model for PendingUdpConnect {
    ghost use Rattle.std.specs.Prelude.{◌≡◌, true};
    ghost use Rattle.socket_common.specs.Rounds.{is_going};
    ghost use Rattle.wasi_world.specs.Operation.{Operation};

    ghost Value = { Operation };

    ghost view = { λ p. p.connect };

    ghost invariant = { λ p. is_going p.connect ≡ true };
}

impl PendingUdpConnect {
    fn new(connect: UdpConnectOp) -> PendingUdpConnect
        requires { is_going connect ≡ true }
        ensures { result ≡ connect }
    {
        PendingUdpConnect { connect }
    }

    fn into_inner(self) -> UdpConnectOp
        ensures connect { result ≡ self }
        ensures going { is_going result ≡ true }
    {
        self.connect
    }
}

impl OpenUdp {
    /// Makes both datagram streams. The incoming one keeps the remote address that the socket has
    /// now.
    fn open_streams(&mut self)
        ensures { self.new ≡ with_streams self.old }
    {
        self.incoming = Some(Incoming {
            remote: self.inner.remote(),
            receiving: Receiving::Nothing,
        });
        self.outgoing = Some(Outgoing::new());
    }

    /// Begins to make both datagram streams (`udp-socket.stream`). A socket that isn't bound:
    /// `InvalidState`. With an address a connect to it is begun and polled first; without one a
    /// connected socket is disconnected.
    pub fn begin_streams<W: World>(
        &mut self,
        world: &mut W,
        op: OpId,
        remote: Option<IpSocketAddress>,
    ) -> Result<Answer<()>, Refusal>
        requires { (W.seen world.old).ended ≡ false }
        ensures asked { AsksFor (begin_streams_asks op self.old remote) (W.seen world.old)
            (W.seen world.new) (λ answer. (answer, self.new)) (outcome result) }
        ensures none { MakesNone (W.seen world.old) (W.seen world.new) }
        ensures side { self.new.inner.side ≡ self.old.inner.side }
    {
        if !self.inner.is_bound(world, op)? {
            return Err(Refusal::Code(ErrorCode::InvalidState));
        }
        match remote {
            Some(addr) => self.begin_connect(world, op, addr),
            None => self.disconnect(world, op),
        }
    }

    /// Begins a connect and polls it once.
    fn begin_connect<W: World>(
        &mut self,
        world: &mut W,
        op: OpId,
        addr: IpSocketAddress,
    ) -> Result<Answer<()>, Refusal>
        requires { (W.seen world.old).ended ≡ false }
        ensures asked { AsksFor (streams_to op self.old (Some addr)) (W.seen world.old)
            (W.seen world.new) (λ answer. (answer, self.new)) (outcome result) }
        ensures none { MakesNone (W.seen world.old) (W.seen world.new) }
        ensures side { self.new.inner.side ≡ self.old.inner.side }
    {
        let connect = self.inner.connect(world, op, addr)?;
        self.connecting = Some(PendingUdpConnect::new(connect));
        self.poll_connect(world)
    }

    /// Takes the remote address away, if the socket has one, and makes the streams.
    fn disconnect<W: World>(&mut self, world: &mut W, op: OpId) -> Result<Answer<()>, Refusal>
        requires { (W.seen world.old).ended ≡ false }
        ensures asked { AsksFor (streams_to op self.old None) (W.seen world.old) (W.seen world.new)
            (λ answer. (answer, self.new)) (outcome result) }
        ensures none { MakesNone (W.seen world.old) (W.seen world.new) }
        ensures side { self.new.inner.side ≡ self.old.inner.side }
    {
        if self.inner.is_connected() {
            self.inner.disconnect(world, op)?;
        }
        self.open_streams();
        Ok(Answer::Ready(()))
    }

    /// Polls the connect in progress once. Done: the streams are made. Pending: it is kept.
    /// Refused: there are no streams. None in progress: `InvalidState`. Out of memory it is kept
    /// after its last answered call, and the next poll goes on from there.
    pub fn poll_connect<W: World>(&mut self, world: &mut W) -> Result<Answer<()>, Refusal>
        requires { (W.seen world.old).ended ≡ false }
        ensures asked { AsksFor (poll_udp_connect_asks self.old) (W.seen world.old)
            (W.seen world.new) (λ answer. (answer, self.new)) (outcome result) }
        ensures left { OnErr (outcome result) (Reaches (poll_udp_connect_asks self.old)
            (poll_udp_connect_asks self.new) (W.seen world.old) (W.seen world.new)) }
        ensures none { MakesNone (W.seen world.old) (W.seen world.new) }
        ensures side { self.new.inner.side ≡ self.old.inner.side }
    {
        match self.connecting.take() {
            Some(connect) => {
                let mut connect = connect.into_inner();
                let polled = connect.poll(world, &mut self.inner);
                self.settle_connect(connect, polled)
            }
            None => Err(Refusal::Code(ErrorCode::InvalidState)),
        }
    }

    /// Keeps in the record what a poll of its connect came to.
    fn settle_connect(
        &mut self,
        connect: UdpConnectOp,
        polled: Result<Answer<()>, Refusal>,
    ) -> Result<Answer<()>, Refusal>
        requires none { self.old.connecting ≡ None }
        requires going { is_going connect ≡ stays_going polled }
        ensures told { result ≡ polled }
        ensures settled { self.new ≡ udp_connect_settled connect self.old polled }
    {
        match polled {
            Ok(Answer::Ready(())) => {
                self.open_streams();
                Ok(Answer::Ready(()))
            }
            Ok(Answer::Pending) => {
                self.connecting = Some(PendingUdpConnect::new(connect));
                Ok(Answer::Pending)
            }
            Err(Refusal::Code(code)) => Err(Refusal::Code(code)),
            Err(Refusal::Memory(e)) => {
                self.connecting = Some(PendingUdpConnect::new(connect));
                Err(Refusal::Memory(e))
            }
        }
    }

    /// Begins a connect of 0.3 and polls it once (`udp-socket.connect`). A socket that isn't bound
    /// has the wildcard checked for the bind first. No streams are made.
    pub fn connect<W: World>(
        &mut self,
        world: &mut W,
        op: OpId,
        addr: IpSocketAddress,
    ) -> Result<Answer<()>, Refusal>
        requires { (W.seen world.old).ended ≡ false }
        ensures asked { AsksFor (udp_connect_asks op self.old addr) (W.seen world.old)
            (W.seen world.new) (λ answer. (answer, self.new)) (outcome result) }
        ensures none { MakesNone (W.seen world.old) (W.seen world.new) }
        ensures side { self.new.inner.side ≡ self.old.inner.side }
    {
        let connect = self.inner.connect(world, op, addr)?;
        self.connecting = Some(PendingUdpConnect::new(connect));
        self.reconnect(world)
    }

    /// Polls the connect of 0.3 in progress once. Pending: it is kept. None in progress:
    /// `InvalidState`. Out of memory it is kept after its last answered call, and the next poll goes
    /// on from there.
    pub fn reconnect<W: World>(&mut self, world: &mut W) -> Result<Answer<()>, Refusal>
        requires { (W.seen world.old).ended ≡ false }
        ensures asked { AsksFor (udp_reconnect_asks self.old) (W.seen world.old)
            (W.seen world.new) (λ answer. (answer, self.new)) (outcome result) }
        ensures left { OnErr (outcome result) (Reaches (udp_reconnect_asks self.old)
            (udp_reconnect_asks self.new) (W.seen world.old) (W.seen world.new)) }
        ensures none { MakesNone (W.seen world.old) (W.seen world.new) }
        ensures side { self.new.inner.side ≡ self.old.inner.side }
    {
        match self.connecting.take() {
            Some(connect) => {
                let mut connect = connect.into_inner();
                let polled = connect.poll(world, &mut self.inner);
                self.settle_reconnect(connect, polled)
            }
            None => Err(Refusal::Code(ErrorCode::InvalidState)),
        }
    }

    /// Keeps in the record what a poll of its connect of 0.3 came to.
    fn settle_reconnect(
        &mut self,
        connect: UdpConnectOp,
        polled: Result<Answer<()>, Refusal>,
    ) -> Result<Answer<()>, Refusal>
        requires none { self.old.connecting ≡ None }
        requires going { is_going connect ≡ stays_going polled }
        ensures told { result ≡ polled }
        ensures settled { self.new ≡ udp_reconnect_settled connect self.old polled }
    {
        match polled {
            Ok(Answer::Ready(())) => Ok(Answer::Ready(())),
            Ok(Answer::Pending) => {
                self.connecting = Some(PendingUdpConnect::new(connect));
                Ok(Answer::Pending)
            }
            Err(Refusal::Code(code)) => Err(Refusal::Code(code)),
            Err(Refusal::Memory(e)) => {
                self.connecting = Some(PendingUdpConnect::new(connect));
                Err(Refusal::Memory(e))
            }
        }
    }
}
