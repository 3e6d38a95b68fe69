//! Sockets that listen: how far one is with it, its listen, and what it accepts.

ghost use Rattle.std.specs.Prelude.{◌≡◌, ◌+◌, ◌<◌, ◌^◌, true, false, IfOk, Ok, OnErr};
ghost use Rattle.wasi_world.specs.Asks.{AsksFor, outcome};
ghost use Rattle.tcp_records.specs.Listening.{with_listening, listen_told, listen_settled};
ghost use Rattle.tcp_records.specs.Listening.{poll_listen_asks, listen_once, begin_listen_asks};
ghost use Rattle.tcp_records.specs.Listening.{accept_record_asks, ids_of};
ghost use Rattle.tcp_records.specs.Listening.{side_in, give_up_asks, unclosed, Accepted, TakesOne};
ghost use Rattle.tcp_records.specs.Listening.{look_accept_asks};
ghost use Rattle.tcp_records.specs.Sides.{Balances, given_by};
ghost use Rattle.record_common.specs.Sides.{no_socket};

use crate::socket::TcpRecord;
use crate::tcp_binding::{AsyncOperation, InProgress};
use std::alloc::AllocError;
use std::mem;
use wasi_addr::ErrorCode;
use wasi_tcp::{ListenOp, TcpListenStream, TcpSocket};
use wasi_world::{Answer, Ids, OpId, Refusal, Sock, World, asks};

/// How far a socket is with listening.
#[derive(Drop)]
pub enum Listening {
    /// It doesn't listen.
    Not,
    /// A listen is in progress, which holds the network socket.
    Begins(ListenOp),
    /// It listens.
    Accepts(TcpListenStream),
    /// It was released, and memory ran out before this network socket was closed.
    Unclosed(Sock),
}

impl Listening {
    /// The network socket that it holds beside the socket's own: that of a listen in progress, or
    /// of a connection that isn't taken.
    pub fn side(&self) -> Option<Sock>
        ensures { result ≡ side_in self.now }
    {
        match self {
            Listening::Not => None,
            Listening::Begins(listen) => listen.held(),
            Listening::Accepts(listener) => listener.untaken(),
            Listening::Unclosed(side) => Some(*side),
        }
    }

    /// What stays of it where its release ran out of memory.
    fn unclosed(&self) -> Listening
        ensures { result ≡ unclosed (side_in self.now) }
    {
        match self.side() {
            Some(side) => Listening::Unclosed(side),
            None => Listening::Not,
        }
    }

    /// Releases it: a listen in progress closes its network socket; a listener refuses an arrival
    /// in hand, and closes a connection that isn't taken. Out of memory nothing was asked.
    fn give_up<W: World>(self, world: &mut W) -> Result<(), AllocError>
        requires { (W.seen world.old).ended ≡ false }
        ensures asked { AsksFor (give_up_asks self) (W.seen world.old) (W.seen world.new)
            (λ done. done) result }
        ensures unasked { OnErr result (W.seen world.new ≡ W.seen world.old) }
    {
        match self {
            Listening::Not => Ok(()),
            Listening::Begins(listen) => listen.cancel(world),
            Listening::Accepts(listener) => listener.give_up(world),
            Listening::Unclosed(side) => asks::close(world, side, side),
        }
    }
}

impl TcpRecord {
    /// Begins a listen (`tcp-socket.start-listen`) and polls it once. A socket that isn't bound, or
    /// that listens already: `InvalidState`.
    pub fn begin_listen<W: World>(&mut self, world: &mut W, op: OpId) -> Result<Answer<()>, Refusal>
        requires { (W.seen world.old).ended ≡ false }
        ensures asked { AsksFor (begin_listen_asks op self.old) (W.seen world.old)
            (W.seen world.new) (λ answer. (answer, self.new)) (outcome result) }
        ensures sides { Balances (W.seen world.old) (W.seen world.new) no_socket self.old
            self.new }
    {
        if !self.inner.is_bound(world, op)? {
            return Err(Refusal::Code(ErrorCode::InvalidState));
        }
        self.listen_once(world, op)
    }

    /// Begins a listen, and polls it once (`tcp-socket.listen` of 0.3). A socket that isn't in its
    /// first state, or that listens already: `InvalidState`.
    pub fn listen_once<W: World>(&mut self, world: &mut W, op: OpId) -> Result<Answer<()>, Refusal>
        requires { (W.seen world.old).ended ≡ false }
        ensures asked { AsksFor (listen_once op self.old self.old.listening) (W.seen world.old)
            (W.seen world.new) (λ answer. (answer, self.new)) (outcome result) }
        ensures sides { Balances (W.seen world.old) (W.seen world.new) no_socket self.old
            self.new }
    {
        match &self.listening {
            Listening::Not => {}
            Listening::Begins(_) => return Err(Refusal::Code(ErrorCode::InvalidState)),
            Listening::Accepts(_) => return Err(Refusal::Code(ErrorCode::InvalidState)),
            Listening::Unclosed(_) => return Err(Refusal::Code(ErrorCode::InvalidState)),
        }
        let listen = self.inner.listen(world, op)?;
        self.listening = Listening::Begins(listen);
        self.poll_listen(world)
    }

    /// Polls the listen in progress once. Done: the socket listens, and `finish-listen` ends the
    /// operation. No listen in progress, or a socket that has a network socket: `InvalidState`.
    pub fn poll_listen<W: World>(&mut self, world: &mut W) -> Result<Answer<()>, Refusal>
        requires { (W.seen world.old).ended ≡ false }
        ensures asked { AsksFor (poll_listen_asks self.old) (W.seen world.old) (W.seen world.new)
            (λ answer. (answer, self.new)) (outcome result) }
        ensures sides { Balances (W.seen world.old) (W.seen world.new) no_socket self.old
            self.new }
    {
        // The socket has no network socket of its own while its listen is in progress.
        if self.inner.side().is_some() {
            return Err(Refusal::Code(ErrorCode::InvalidState));
        }
        match &mut self.listening {
            Listening::Begins(listen) => {
                let polled = listen.poll(world, &mut self.inner);
                self.settle_listen(polled)
            }
            Listening::Not => Err(Refusal::Code(ErrorCode::InvalidState)),
            Listening::Accepts(_) => Err(Refusal::Code(ErrorCode::InvalidState)),
            Listening::Unclosed(_) => Err(Refusal::Code(ErrorCode::InvalidState)),
        }
    }

    /// Keeps in the record what a poll of its listen came to, and gives the answer.
    fn settle_listen(
        &mut self,
        polled: Result<Answer<TcpListenStream>, Refusal>,
    ) -> Result<Answer<()>, Refusal>
        ensures told { result ≡ listen_told polled }
        ensures settled { self.new ≡ listen_settled self.old polled }
    {
        match polled {
            Ok(Answer::Ready(listener)) => {
                self.in_progress = InProgress::Started(AsyncOperation::Listen);
                self.listening = Listening::Accepts(listener);
                Ok(Answer::Ready(()))
            }
            Ok(Answer::Pending) => Ok(Answer::Pending),
            Err(Refusal::Code(code)) => {
                self.listening = Listening::Not;
                Err(Refusal::Code(code))
            }
            Err(Refusal::Memory(e)) => Err(Refusal::Memory(e)),
        }
    }

    /// Accepts a connection (`tcp-socket.accept`), or takes the code of a fault. Nothing has
    /// arrived yet: pending. Not a listener: `InvalidState`.
    pub fn poll_accept<W: World>(
        &mut self,
        world: &mut W,
        ids: &mut Ids,
    ) -> Result<Answer<TcpSocket>, Refusal>
        requires open { (W.seen world.old).ended ≡ false }
        requires names { ids.old.next_part + 1 < 2 ^ 64 }
        ensures asked { AsksFor (accept_record_asks ids.old self.old) (W.seen world.old)
            (W.seen world.new) (λ answer. (answer, self.new)) (outcome result) }
        ensures ids { ids.new ≡ ids_of self.old.listening ids.old }
        ensures sides { Balances (W.seen world.old) (W.seen world.new) (given_by result) self.old
            self.new }
        ensures accepted { Accepted result }
    {
        match &mut self.listening {
            Listening::Accepts(listener) => {
                let answer = listener.poll_accept(world, ids)?;
                Ok(answer)
            }
            Listening::Not => Err(Refusal::Code(ErrorCode::InvalidState)),
            Listening::Begins(_) => Err(Refusal::Code(ErrorCode::InvalidState)),
            Listening::Unclosed(_) => Err(Refusal::Code(ErrorCode::InvalidState)),
        }
    }

    /// Looks whether [`poll_accept`](TcpRecord::poll_accept) would give something, which the
    /// listener keeps. Nothing yet: pending. Not a listener: `InvalidState`.
    pub fn look_accept<W: World>(
        &mut self,
        world: &mut W,
        ids: &mut Ids,
    ) -> Result<Answer<()>, Refusal>
        requires open { (W.seen world.old).ended ≡ false }
        requires names { ids.old.next_part + 1 < 2 ^ 64 }
        ensures asked { AsksFor (look_accept_asks ids.old self.old) (W.seen world.old)
            (W.seen world.new) (λ answer. (answer, self.new)) (outcome result) }
        ensures ids { ids.new ≡ ids_of self.old.listening ids.old }
        ensures sides { Balances (W.seen world.old) (W.seen world.new) no_socket self.old
            self.new }
    {
        match &mut self.listening {
            Listening::Accepts(listener) => {
                let answer = listener.poll_ready(world, ids)?;
                Ok(answer)
            }
            Listening::Not => Err(Refusal::Code(ErrorCode::InvalidState)),
            Listening::Begins(_) => Err(Refusal::Code(ErrorCode::InvalidState)),
            Listening::Unclosed(_) => Err(Refusal::Code(ErrorCode::InvalidState)),
        }
    }

    /// Releases its listener or its listen in progress. Out of memory the record keeps a network
    /// socket that isn't closed yet.
    pub fn give_listening_up<W: World>(&mut self, world: &mut W) -> Result<(), AllocError>
        requires { (W.seen world.old).ended ≡ false }
        ensures asked { AsksFor (give_up_asks self.old.listening) (W.seen world.old)
            (W.seen world.new) (λ done. done) result }
        ensures ok { IfOk result (λ done. self.new ≡ with_listening self.old Listening.Not) }
        ensures err { OnErr result (self.new ≡ with_listening self.old
            (unclosed (side_in self.old.listening))) }
        ensures unasked { OnErr result (W.seen world.new ≡ W.seen world.old) }
    {
        let left = self.listening.unclosed();
        let listening = mem::replace(&mut self.listening, left);
        listening.give_up(world)?;
        self.listening = Listening::Not;
        Ok(())
    }
}
