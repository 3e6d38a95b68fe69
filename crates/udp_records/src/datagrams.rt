//! The datagram streams of a UDP socket, and how datagrams are sent.

ghost use Rattle.std.specs.Prelude.{◌≡◌, ◌+◌, ◌<◌, ◌^◌, true, false, Ok, length};
ghost use Rattle.wasi_world.specs.Asks.{AsksFor, outcome};
ghost use Rattle.socket_common.specs.Rounds.{is_going, stays_going};
ghost use Rattle.udp_records.specs.Datagrams.{has_streams, new_outgoing, is_sending, sends};
ghost use Rattle.udp_records.specs.Datagrams.{permit_of, permitted, send_settled, send_counted};
ghost use Rattle.udp_records.specs.Datagrams.{send_one_asks, refusal_told, send_next_asks};
ghost use Rattle.udp_records.specs.Datagrams.{send_all, send_datagrams_asks, turn_sending};
ghost use Rattle.udp_records.specs.Datagrams.{turn_outgoing, send_turned, turn_told, with_sending};
ghost use Rattle.record_common.specs.Stops.{host_outcome};
ghost use Rattle.record_common.specs.Names.{RoseUpTo, next_name, names_after};
ghost use Rattle.record_common.specs.Sides.{MakesNone};

use crate::udp::OpenUdp;
use record_common::SocketError;
use std::alloc::AllocError;
use std::marker::Model;
use std::mem;
use wasi_addr::{ErrorCode, IpSocketAddress, p2};
use wasi_udp::{RecvOp, SendOp, UdpSocket};
use wasi_world::{Answer, Ids, IncomingDatagram, OpId, OutgoingDatagram, Refusal, TrapKind, World};

/// A send in progress. It hasn't ended, so a poll of it asks the network, or refuses the datagram.
#[derive(Drop)]
pub struct PendingSend {
    send: SendOp,
}

impl Model for PendingSend {
    ghost use Rattle.std.specs.Prelude.{◌≡◌, true};
    ghost use Rattle.socket_common.specs.Rounds.{is_going};
    ghost use Rattle.wasi_world.specs.Operation.{Operation};

    ghost Value = { Operation };

    ghost view = { λ p. p.send };

    ghost invariant = { λ p. is_going p.send ≡ true };
}

impl PendingSend {
    /// The send, which hasn't ended.
    pub fn new(send: SendOp) -> PendingSend
        requires { is_going send ≡ true }
        ensures { result ≡ send }
    {
        PendingSend { send }
    }

    /// The send itself.
    pub fn into_inner(self) -> SendOp
        ensures send { result ≡ self }
        ensures going { is_going result ≡ true }
    {
        self.send
    }
}

/// A receive in progress. It hasn't ended, so a poll of it asks the network, or refuses the
/// receive.
#[derive(Drop)]
pub struct PendingReceive {
    receive: RecvOp,
}

impl Model for PendingReceive {
    ghost use Rattle.std.specs.Prelude.{◌≡◌, true};
    ghost use Rattle.socket_common.specs.Rounds.{is_going};
    ghost use Rattle.wasi_world.specs.Operation.{Operation};

    ghost Value = { Operation };

    ghost view = { λ p. p.receive };

    ghost invariant = { λ p. is_going p.receive ≡ true };
}

impl PendingReceive {
    /// The receive, which hasn't ended.
    pub fn new(receive: RecvOp) -> PendingReceive
        requires { is_going receive ≡ true }
        ensures { result ≡ receive }
    {
        PendingReceive { receive }
    }

    /// The receive itself.
    pub fn into_inner(self) -> RecvOp
        ensures receive { result ≡ self }
        ensures going { is_going result ≡ true }
    {
        self.receive
    }
}

/// How far an incoming datagram stream is with its next datagram.
#[derive(Drop)]
pub enum Receiving {
    /// No receive was begun since the last datagram was taken.
    Nothing,
    /// A receive was begun, and is polled in the background.
    InProgress(PendingReceive),
    /// A datagram has come, and isn't taken yet.
    Came(IncomingDatagram),
    /// The receive failed; the code isn't taken yet.
    Failed(ErrorCode),
}

/// The incoming datagram stream of a socket (`incoming-datagram-stream`).
#[derive(Drop)]
pub struct Incoming {
    /// The remote address that the socket had when the stream was made; with one, datagrams are
    /// received from there alone.
    pub remote: Option<IpSocketAddress>,
    pub receiving: Receiving,
}

/// How far an outgoing datagram stream is with the last datagram that it sent.
#[derive(Drop)]
pub enum Sending {
    /// It was sent or refused, or there was none yet.
    Nothing,
    /// It isn't sent yet, and is polled in the background.
    InProgress(PendingSend),
    /// It failed in the background; the next send returns this code.
    Failed(ErrorCode),
}

/// The outgoing datagram stream of a socket (`outgoing-datagram-stream`).
#[derive(Drop)]
pub struct Outgoing {
    /// How many datagrams the next send may have: 16 after a `check-send` that allowed them, until
    /// the next send.
    pub permit: u8,
    pub sending: Sending,
}

impl Sending {
    /// Whether a datagram isn't sent yet.
    fn is_in_progress(&self) -> bool
        ensures { result ≡ is_sending self.now }
    {
        matches!(self, Sending::InProgress(_))
    }
}

impl Outgoing {
    /// A stream that has sent nothing yet, and permits nothing.
    pub(crate) fn new() -> Outgoing
        ensures { result ≡ new_outgoing }
    {
        Outgoing {
            permit: 0,
            sending: Sending::Nothing,
        }
    }

    /// Permits 16 datagrams, or none while the last one isn't sent yet, and returns how many
    /// (`outgoing-datagram-stream.check-send`).
    pub fn check_send(&mut self) -> u8
        ensures told { result ≡ permit_of self.old.sending }
        ensures state { self.new ≡ permitted self.old }
    {
        self.permit = if self.sending.is_in_progress() { 0 } else { 16 };
        self.permit
    }

    /// Begins to send a datagram and polls it once. Pending, it goes on in the background, and
    /// counts as sent.
    fn send_one<W: World>(
        &mut self,
        world: &mut W,
        socket: &mut UdpSocket,
        op: OpId,
        datagram: OutgoingDatagram,
    ) -> Result<(), Refusal>
        requires { (W.seen world.old).ended ≡ false }
        ensures asked { AsksFor (send_one_asks op socket.old self.old datagram) (W.seen world.old)
            (W.seen world.new) (λ done. (done, (socket.new, self.new))) (outcome result) }
        ensures none { MakesNone (W.seen world.old) (W.seen world.new) }
        ensures side { socket.new.side ≡ socket.old.side }
    {
        let mut send = socket.send(world, op, datagram.bytes, datagram.remote_address)?;
        let polled = send.poll(world, socket);
        self.settle_send(send, polled)
    }

    /// Keeps in the stream what the first poll of a datagram came to.
    fn settle_send(
        &mut self,
        send: SendOp,
        polled: Result<Answer<()>, Refusal>,
    ) -> Result<(), Refusal>
        requires { is_going send ≡ stays_going polled }
        ensures told { result ≡ send_counted polled }
        ensures settled { self.new ≡ send_settled send self.old polled }
    {
        match polled {
            Ok(Answer::Ready(())) => {
                self.sending = Sending::Nothing;
                Ok(())
            }
            Ok(Answer::Pending) => {
                self.sending = Sending::InProgress(PendingSend::new(send));
                Ok(())
            }
            Err(Refusal::Code(code)) => {
                self.sending = Sending::Nothing;
                Err(Refusal::Code(code))
            }
            Err(Refusal::Memory(e)) => {
                self.sending = Sending::InProgress(PendingSend::new(send));
                Err(Refusal::Memory(e))
            }
        }
    }

    /// Sends the next datagram of a list, under the next name of the line. Pending: the one before
    /// isn't sent yet, and this one isn't begun. The code of one that failed in the background is
    /// returned in place of this one.
    fn send_next<W: World>(
        &mut self,
        world: &mut W,
        socket: &mut UdpSocket,
        ids: &mut Ids,
        datagram: OutgoingDatagram,
    ) -> Result<Answer<()>, Refusal>
        requires open { (W.seen world.old).ended ≡ false }
        requires names { ids.old.next_part + 1 < 2 ^ 64 }
        ensures asked { AsksFor (send_next_asks (next_name ids.old) socket.old self.old datagram
            self.old.sending) (W.seen world.old) (W.seen world.new)
            (λ answer. (answer, (socket.new, self.new))) (outcome result) }
        ensures line { ids.new.line ≡ ids.old.line }
        ensures names { result ≡ Ok (Answer.Ready tt) → ids.new ≡ names_after ids.old }
        ensures parts { RoseUpTo 1 ids.old ids.new }
        ensures none { MakesNone (W.seen world.old) (W.seen world.new) }
        ensures side { socket.new.side ≡ socket.old.side }
    {
        match mem::replace(&mut self.sending, Sending::Nothing) {
            Sending::Nothing => {
                self.send_one(world, socket, ids.begin(), datagram)?;
                Ok(Answer::Ready(()))
            }
            Sending::InProgress(send) => {
                self.sending = Sending::InProgress(send);
                Ok(Answer::Pending)
            }
            Sending::Failed(code) => Err(Refusal::Code(code)),
        }
    }

    /// Sends datagrams one after another, and returns how many are sent or in the background now.
    /// The list ends where the one before isn't sent yet, and at a code; the code is returned where
    /// none was counted.
    fn send_all<W: World>(
        &mut self,
        world: &mut W,
        socket: &mut UdpSocket,
        ids: &mut Ids,
        datagrams: Vec<OutgoingDatagram>,
    ) -> Result<u64, Refusal>
        requires open { (W.seen world.old).ended ≡ false }
        requires names { ids.old.next_part + length datagrams.items < 2 ^ 64 }
        ensures asked { AsksFor (send_all 0 ids.old datagrams.items (socket.old, self.old))
            (W.seen world.old) (W.seen world.new) (λ sent. (sent, (socket.new, self.new)))
            (outcome result) }
        ensures line { ids.new.line ≡ ids.old.line }
        ensures parts { RoseUpTo (length datagrams.items) ids.old ids.new }
        ensures none { MakesNone (W.seen world.old) (W.seen world.new) }
        ensures side { socket.new.side ≡ socket.old.side }
    {
        let mut sent = 0;
        for datagram in datagrams {
            match self.send_next(world, socket, ids, datagram) {
                Ok(Answer::Ready(())) => sent += 1,
                Ok(Answer::Pending) => return Ok(sent),
                Err(why) => return refusal_told(sent, why),
            }
        }
        Ok(sent)
    }

    /// Polls the datagram in the background once, if there is one. Its code is kept for the next
    /// send.
    fn turn<W: World>(&mut self, world: &mut W, socket: &UdpSocket) -> Result<(), AllocError>
        requires { (W.seen world.old).ended ≡ false }
        ensures asked { AsksFor (turn_sending socket.now self.old self.old.sending)
            (W.seen world.old) (W.seen world.new) (λ done. self.new) result }
        ensures none { MakesNone (W.seen world.old) (W.seen world.new) }
    {
        match mem::replace(&mut self.sending, Sending::Nothing) {
            Sending::InProgress(send) => {
                let mut send = send.into_inner();
                let polled = send.poll(world, socket);
                self.settle_turn(send, polled)
            }
            sending => {
                self.sending = sending;
                Ok(())
            }
        }
    }

    /// Keeps in the stream what a poll of the datagram in the background came to.
    fn settle_turn(
        &mut self,
        send: SendOp,
        polled: Result<Answer<()>, Refusal>,
    ) -> Result<(), AllocError>
        requires { is_going send ≡ stays_going polled }
        ensures told { result ≡ turn_told polled }
        ensures settled { self.new ≡ send_turned send self.old polled }
    {
        match polled {
            Ok(Answer::Ready(())) => {
                self.sending = Sending::Nothing;
                Ok(())
            }
            Ok(Answer::Pending) => {
                self.sending = Sending::InProgress(PendingSend::new(send));
                Ok(())
            }
            Err(Refusal::Code(code)) => {
                self.sending = Sending::Failed(code);
                Ok(())
            }
            Err(Refusal::Memory(e)) => {
                self.sending = Sending::InProgress(PendingSend::new(send));
                Err(e)
            }
        }
    }
}

/// What is returned where a list ends at an error: the count, or the code where nothing was
/// counted.
fn refusal_told(sent: u64, why: Refusal) -> Result<u64, Refusal>
    ensures { result ≡ refusal_told sent why }
{
    match why {
        Refusal::Code(_) if sent > 0 => Ok(sent),
        why => Err(why),
    }
}

impl OpenUdp {
    /// Whether one of its datagram streams is live.
    pub fn has_streams(&self) -> bool
        ensures { result ≡ has_streams self.now }
    {
        self.incoming.is_some() || self.outgoing.is_some()
    }

    /// Whether its outgoing stream has a datagram that isn't sent yet.
    pub fn sends(&self) -> bool
        ensures { result ≡ sends self.now.outgoing }
    {
        match &self.outgoing {
            Some(outgoing) => outgoing.sending.is_in_progress(),
            None => false,
        }
    }

    /// Sends datagrams on the outgoing stream (`outgoing-datagram-stream.send`). More than its
    /// permit: `NotPermitted`. The permit is used up; an empty list sends nothing and keeps it.
    pub fn send_datagrams<W: World>(
        &mut self,
        world: &mut W,
        ids: &mut Ids,
        datagrams: Vec<OutgoingDatagram>,
    ) -> Result<u64, SocketError>
        requires open { (W.seen world.old).ended ≡ false }
        requires names { ids.old.next_part + 255 < 2 ^ 64 }
        ensures asked { AsksFor (send_datagrams_asks ids.old self.old self.old.outgoing
            datagrams.items) (W.seen world.old) (W.seen world.new) (λ sent. (sent, self.new))
            (host_outcome result) }
        ensures line { ids.new.line ≡ ids.old.line }
        ensures parts { RoseUpTo 255 ids.old ids.new }
        ensures none { MakesNone (W.seen world.old) (W.seen world.new) }
        ensures side { self.new.inner.side ≡ self.old.inner.side }
    {
        let Some(outgoing) = &mut self.outgoing else {
            return Err(SocketError::Trap(TrapKind::NoSuchHandle));
        };
        if datagrams.is_empty() {
            return Ok(0);
        }
        if datagrams.len() > usize::from(outgoing.permit) {
            return Err(SocketError::Trap(TrapKind::NotPermitted));
        }
        outgoing.permit = 0;
        let sent = outgoing.send_all(world, &mut self.inner, ids, datagrams)?;
        Ok(sent)
    }

    /// Polls the datagram in the background once, if there is one.
    pub fn turn_outgoing<W: World>(&mut self, world: &mut W) -> Result<(), AllocError>
        requires { (W.seen world.old).ended ≡ false }
        ensures asked { AsksFor (turn_outgoing self.old self.old.outgoing) (W.seen world.old)
            (W.seen world.new) (λ done. self.new) result }
        ensures none { MakesNone (W.seen world.old) (W.seen world.new) }
        ensures side { self.new.inner.side ≡ self.old.inner.side }
    {
        match &mut self.outgoing {
            Some(outgoing) => outgoing.turn(world, &self.inner),
            None => Ok(()),
        }
    }
}
