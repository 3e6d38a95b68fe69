//! How datagrams are received on the incoming stream of a UDP socket.

ghost use Rattle.std.specs.Prelude.{◌≡◌, ◌+◌, ◌<◌, ◌^◌, false, [], OnErr, IfSome, min};
ghost use Rattle.wasi_world.specs.Asks.{AsksFor, outcome};
ghost use Rattle.socket_common.specs.Rounds.{is_going, stays_going};
ghost use Rattle.record_common.specs.Stops.{host_outcome};
ghost use Rattle.record_common.specs.Names.{RoseUpTo, next_name};
ghost use Rattle.udp_records.specs.Receiving.{would_receive, is_receiving, receives, fetch_asks};
ghost use Rattle.udp_records.specs.Receiving.{fetch_names, taken, receive_next_asks, receive_all};
ghost use Rattle.udp_records.specs.Receiving.{receive_datagrams_asks, look_incoming, look_names};
ghost use Rattle.udp_records.specs.Receiving.{turn_receiving, turn_incoming, receive_settled};
ghost use Rattle.udp_records.specs.Receiving.{LosesTaken, StreamLoses, StaysPending, receive_wants};
ghost use Rattle.record_common.specs.Sides.{MakesNone};

use crate::datagrams::{Incoming, PendingReceive, Receiving};
use crate::udp::OpenUdp;
use record_common::SocketError;
use std::alloc::{AllocError, Global};
use std::mem;
use wasi_addr::{ErrorCode, IpSocketAddress};
use wasi_udp::{RecvOp, UdpSocket};
use wasi_world::{
    Answer, Ids, IncomingDatagram, IncomingDatagrams, Octets, Refusal, TrapKind, World,
};

/// How many datagrams one call takes at most.
const MOST: u64 = 16;

/// A call takes datagrams until their lengths, with one more for each, reach this many bytes.
const ROOM: usize = 65_536;

impl Receiving {
    fn is_in_progress(&self) -> bool
        ensures { result ≡ is_receiving self.now }
    {
        matches!(self, Receiving::InProgress(_))
    }

    /// Takes the datagram that has come, or the code of the receive that failed. Neither: pending.
    fn take(&mut self) -> Result<Answer<IncomingDatagram>, ErrorCode>
        ensures { (result, self.new) ≡ taken self.old }
    {
        match mem::replace(self, Receiving::Nothing) {
            Receiving::Came(datagram) => Ok(Answer::Ready(datagram)),
            Receiving::Failed(code) => Err(code),
            receiving => {
                *self = receiving;
                Ok(Answer::Pending)
            }
        }
    }
}

impl Incoming {
    /// Begins a receive and polls it once, where none was begun. Out of memory it wasn't begun, or
    /// it stays in progress.
    fn fetch<W: World>(
        &mut self,
        world: &mut W,
        socket: &mut UdpSocket,
        ids: &mut Ids,
    ) -> Result<(), AllocError>
        requires open { (W.seen world.old).ended ≡ false }
        requires names { ids.old.next_part + 1 < 2 ^ 64 }
        ensures asked { AsksFor (fetch_asks (next_name ids.old) self.old.receiving
            (socket.old, self.old)) (W.seen world.old) (W.seen world.new)
            (λ done. (socket.new, self.new)) result }
        ensures names { ids.new ≡ fetch_names self.old.receiving ids.old }
        ensures stays { OnErr result (StaysPending self.old self.new) }
        ensures none { MakesNone (W.seen world.old) (W.seen world.new) }
        ensures side { socket.new.side ≡ socket.old.side }
    {
        match self.receiving {
            Receiving::Nothing => {
                let mut receive = socket.recv(world, ids.begin())?;
                let polled = receive.poll(world, self.remote);
                self.settle(receive, polled)
            }
            _ => Ok(()),
        }
    }

    /// Keeps in the stream what a poll of the receive came to.
    fn settle(
        &mut self,
        receive: RecvOp,
        polled: Result<Answer<(Octets, IpSocketAddress)>, Refusal>,
    ) -> Result<(), AllocError>
        requires { is_going receive ≡ stays_going polled }
        ensures told { result ≡ receive_wants polled }
        ensures settled { self.new ≡ receive_settled receive self.old polled }
    {
        match polled {
            Ok(Answer::Ready((bytes, remote_address))) => {
                self.receiving = Receiving::Came(IncomingDatagram {
                    bytes,
                    remote_address,
                });
                Ok(())
            }
            Ok(Answer::Pending) => {
                self.receiving = Receiving::InProgress(PendingReceive::new(receive));
                Ok(())
            }
            Err(Refusal::Code(code)) => {
                self.receiving = Receiving::Failed(code);
                Ok(())
            }
            Err(Refusal::Memory(e)) => {
                self.receiving = Receiving::InProgress(PendingReceive::new(receive));
                Err(e)
            }
        }
    }

    /// Takes the next datagram: one that has come, or that of a receive that is begun now. Not
    /// there yet: pending.
    fn receive_next<W: World>(
        &mut self,
        world: &mut W,
        socket: &mut UdpSocket,
        ids: &mut Ids,
    ) -> Result<Answer<IncomingDatagram>, Refusal>
        requires open { (W.seen world.old).ended ≡ false }
        requires names { ids.old.next_part + 1 < 2 ^ 64 }
        ensures asked { AsksFor (receive_next_asks (next_name ids.old) (socket.old, self.old))
            (W.seen world.old) (W.seen world.new) (λ answer. (answer, (socket.new, self.new)))
            (outcome result) }
        ensures names { ids.new ≡ fetch_names self.old.receiving ids.old }
        ensures stays { OnErr (outcome result) (StaysPending self.old self.new) }
        ensures none { MakesNone (W.seen world.old) (W.seen world.new) }
        ensures side { socket.new.side ≡ socket.old.side }
    {
        self.fetch(world, socket, ids)?;
        match self.receiving.take() {
            Ok(answer) => Ok(answer),
            Err(code) => Err(Refusal::Code(code)),
        }
    }

    /// Takes at most this many datagrams, while there is room for them. The list ends at one that
    /// hasn't come, and at a code; the code is returned where no datagram comes before it. Out of
    /// memory the datagrams that it took are lost, and the next one's receive stays in progress.
    fn receive_all<W: World>(
        &mut self,
        alloc: Global,
        world: &mut W,
        socket: &mut UdpSocket,
        ids: &mut Ids,
        most: u64,
    ) -> Result<IncomingDatagrams, Refusal>
        requires open { (W.seen world.old).ended ≡ false }
        requires names { ids.old.next_part + most < 2 ^ 64 }
        ensures asked { AsksFor (receive_all most 65536 ids.old [] (socket.old, self.old))
            (W.seen world.old) (W.seen world.new) (λ received. (received, (socket.new, self.new)))
            (outcome result) }
        ensures line { ids.new.line ≡ ids.old.line }
        ensures parts { RoseUpTo most ids.old ids.new }
        ensures lost { OnErr (outcome result) (LosesTaken most 65536 ids.old (socket.old, self.old)
            (socket.new, self.new) (W.seen world.old) (W.seen world.new)) }
        ensures none { MakesNone (W.seen world.old) (W.seen world.new) }
        ensures side { socket.new.side ≡ socket.old.side }
    {
        // Room for the list comes first, so that no datagram is taken where there is none for it.
        let mut datagrams = Vec::with_capacity(alloc, most as usize)?;
        let mut room = ROOM;
        for _ in 0..most {
            if room == 0 {
                break;
            }
            match self.receive_next(world, socket, ids) {
                Ok(Answer::Ready(datagram)) => {
                    room = room.saturating_sub(1).saturating_sub(datagram.bytes.len());
                    datagrams.push_reserved(datagram);
                }
                Ok(Answer::Pending) => break,
                Err(Refusal::Code(code)) => {
                    if datagrams.is_empty() {
                        return Err(Refusal::Code(code));
                    }
                    break;
                }
                Err(Refusal::Memory(e)) => return Err(Refusal::Memory(e)),
            }
        }
        Ok(IncomingDatagrams::from_vec(datagrams))
    }

    /// Polls the receive in progress once, if there is one.
    fn turn<W: World>(&mut self, world: &mut W) -> Result<(), AllocError>
        requires { (W.seen world.old).ended ≡ false }
        ensures asked { AsksFor (turn_receiving self.old self.old.receiving) (W.seen world.old)
            (W.seen world.new) (λ done. self.new) result }
        ensures none { MakesNone (W.seen world.old) (W.seen world.new) }
    {
        match mem::replace(&mut self.receiving, Receiving::Nothing) {
            Receiving::InProgress(receive) => {
                let mut receive = receive.into_inner();
                let polled = receive.poll(world, self.remote);
                self.settle(receive, polled)
            }
            receiving => {
                self.receiving = receiving;
                Ok(())
            }
        }
    }
}

impl OpenUdp {
    /// Whether a receive is in progress on its incoming stream.
    pub fn receives(&self) -> bool
        ensures { result ≡ receives self.now.incoming }
    {
        match &self.incoming {
            Some(incoming) => incoming.receiving.is_in_progress(),
            None => false,
        }
    }

    /// Takes datagrams from the incoming stream (`incoming-datagram-stream.receive`): at most this
    /// many, at most 16, and until their lengths, with one more for each, reach 65,536. A code is
    /// returned where no datagram comes before it.
    ///
    /// Takes memory for as many datagrams as it may hand out, before the first. Out of memory later
    /// on, the datagrams that this call took are lost, and no others; the next one's receive wasn't
    /// begun, or it stays in progress.
    pub fn receive_datagrams<W: World>(
        &mut self,
        alloc: Global,
        world: &mut W,
        ids: &mut Ids,
        most: u64,
    ) -> Result<IncomingDatagrams, SocketError>
        requires open { (W.seen world.old).ended ≡ false }
        requires names { ids.old.next_part + 16 < 2 ^ 64 }
        ensures asked { AsksFor (receive_datagrams_asks ids.old most self.old self.old.incoming)
            (W.seen world.old) (W.seen world.new) (λ received. (received, self.new))
            (host_outcome result) }
        ensures line { ids.new.line ≡ ids.old.line }
        ensures parts { RoseUpTo 16 ids.old ids.new }
        ensures lost { OnErr (host_outcome result) (StreamLoses most ids.old self.old self.new
            self.old.incoming (W.seen world.old) (W.seen world.new)) }
        ensures none { MakesNone (W.seen world.old) (W.seen world.new) }
        ensures side { self.new.inner.side ≡ self.old.inner.side }
    {
        let Some(incoming) = &mut self.incoming else {
            return Err(SocketError::Trap(TrapKind::NoSuchHandle));
        };
        let datagrams = incoming.receive_all(alloc, world, &mut self.inner, ids, most.min(MOST))?;
        Ok(datagrams)
    }

    /// Begins a receive on the incoming stream and polls it once, where none was begun. What has
    /// come isn't taken.
    pub fn look_incoming<W: World>(
        &mut self,
        world: &mut W,
        ids: &mut Ids,
    ) -> Result<(), AllocError>
        requires open { (W.seen world.old).ended ≡ false }
        requires names { ids.old.next_part + 1 < 2 ^ 64 }
        ensures asked { AsksFor (look_incoming ids.old self.old self.old.incoming)
            (W.seen world.old) (W.seen world.new) (λ done. self.new) result }
        ensures names { ids.new ≡ look_names ids.old self.old.incoming }
        ensures none { MakesNone (W.seen world.old) (W.seen world.new) }
        ensures side { self.new.inner.side ≡ self.old.inner.side }
    {
        match &mut self.incoming {
            Some(incoming) => incoming.fetch(world, &mut self.inner, ids),
            None => Ok(()),
        }
    }

    /// Polls the receive in progress on its incoming stream once, if there is one.
    pub fn turn_incoming<W: World>(&mut self, world: &mut W) -> Result<(), AllocError>
        requires { (W.seen world.old).ended ≡ false }
        ensures asked { AsksFor (turn_incoming self.old self.old.incoming) (W.seen world.old)
            (W.seen world.new) (λ done. self.new) result }
        ensures none { MakesNone (W.seen world.old) (W.seen world.new) }
        ensures side { self.new.inner.side ≡ self.old.inner.side }
    {
        match &mut self.incoming {
            Some(incoming) => incoming.turn(world),
            None => Ok(()),
        }
    }

    /// Whether a look at its incoming stream would begin a receive.
    pub fn would_receive(&self) -> bool
        ensures { result ≡ would_receive self.now.incoming }
    {
        match &self.incoming {
            Some(incoming) => matches!(incoming.receiving, Receiving::Nothing),
            None => false,
        }
    }
}
