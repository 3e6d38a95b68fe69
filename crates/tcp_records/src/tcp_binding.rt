//! Which operation a socket has in progress, and how it is bound.

ghost use Rattle.std.specs.Prelude.{◌≡◌, false, Ok, OnErr, true};
ghost use Rattle.wasi_world.specs.Asks.{AsksFor, Reaches, outcome};
ghost use Rattle.socket_common.specs.Rounds.{is_going, stays_going};
ghost use Rattle.wasi_tcp.specs.Socket.{side_of};
ghost use Rattle.tcp_records.specs.InProgress.{is_nothing, is_started};
ghost use Rattle.tcp_records.specs.Binding.{begin_bind_asks, poll_bind_asks, bind_settled};
ghost use Rattle.tcp_records.specs.Sockets.{with_progress};
ghost use Rattle.record_common.specs.Sides.{MakesNone};

use crate::socket::TcpRecord;
use std::marker::Model;
use std::mem;
use wasi_addr::{ErrorCode, IpSocketAddress};
use wasi_tcp::BindOp;
use wasi_world::{Answer, OpId, Refusal, World};

/// An operation that one call starts and another one finishes.
#[derive(Clone, Copy, Debug, PartialEq, Eq)]
pub enum AsyncOperation {
    /// `start-bind` and `finish-bind`.
    Bind,
    /// `start-connect` and `finish-connect`.
    Connect,
    /// `start-listen` and `finish-listen`.
    Listen,
}

/// A bind in progress. It has a call left to make, so a poll of it asks the network.
#[derive(Drop)]
pub struct PendingBind {
    bind: BindOp,
}

impl Model for PendingBind {
    ghost use Rattle.std.specs.Prelude.{◌≡◌, true};
    ghost use Rattle.socket_common.specs.Rounds.{is_going};
    ghost use Rattle.wasi_world.specs.Operation.{Operation};

    ghost Value = { Operation };

    ghost view = { λ p. p.bind };

    ghost invariant = { λ p. is_going p.bind ≡ true };
}

impl PendingBind {
    pub(crate) fn new(bind: BindOp) -> PendingBind
        requires { is_going bind ≡ true }
        ensures { result ≡ bind }
    {
        PendingBind { bind }
    }

    pub(crate) fn into_inner(self) -> BindOp
        ensures bind { result ≡ self }
        ensures going { is_going result ≡ true }
    {
        self.bind
    }
}

/// The operation that a TCP socket has in progress.
#[derive(Drop)]
pub enum InProgress {
    /// None was started, or it was finished.
    Nothing,
    /// A bind, whose start is pending.
    Binding(PendingBind),
    /// This one was started, and isn't finished.
    Started(AsyncOperation),
}

impl InProgress {
    /// Whether nothing is in progress. Takes no memory.
    pub fn is_nothing(&self) -> bool
        ensures { result ≡ is_nothing self.now }
    {
        matches!(self, InProgress::Nothing)
    }

    /// Whether this operation was started and isn't finished.
    pub fn is_started(&self, operation: AsyncOperation) -> bool
        ensures { result ≡ is_started operation self.now }
    {
        match self {
            InProgress::Started(started) => *started == operation,
            InProgress::Nothing | InProgress::Binding(_) => false,
        }
    }
}

impl TcpRecord {
    /// Begins a bind (`tcp-socket.start-bind`) and polls it once.
    pub fn begin_bind<W: World>(
        &mut self,
        world: &mut W,
        op: OpId,
        addr: IpSocketAddress,
    ) -> Result<Answer<()>, Refusal>
        requires { (W.seen world.old).ended ≡ false }
        ensures asked { AsksFor (begin_bind_asks op self.old addr) (W.seen world.old)
            (W.seen world.new) (λ answer. (answer, self.new)) (outcome result) }
        ensures none { MakesNone (W.seen world.old) (W.seen world.new) }
        ensures side { side_of self.new.inner ≡ side_of self.old.inner }
        ensures listening { self.new.listening ≡ self.old.listening }
    {
        let bind = self.inner.bind(world, op, addr)?;
        self.in_progress = InProgress::Binding(PendingBind::new(bind));
        self.poll_bind(world)
    }

    /// Polls the bind in progress once. Done: it is started, and `finish-bind` ends it. Pending: it
    /// is kept. Refused: nothing is in progress. None in progress: `InvalidState`. Out of memory it
    /// is kept after its last answered call, and the next poll goes on from there.
    pub fn poll_bind<W: World>(&mut self, world: &mut W) -> Result<Answer<()>, Refusal>
        requires { (W.seen world.old).ended ≡ false }
        ensures asked { AsksFor (poll_bind_asks self.old) (W.seen world.old) (W.seen world.new)
            (λ answer. (answer, self.new)) (outcome result) }
        ensures left { OnErr (outcome result) (Reaches (poll_bind_asks self.old)
            (poll_bind_asks self.new) (W.seen world.old) (W.seen world.new)) }
        ensures none { MakesNone (W.seen world.old) (W.seen world.new) }
        ensures side { side_of self.new.inner ≡ side_of self.old.inner }
        ensures listening { self.new.listening ≡ self.old.listening }
    {
        match mem::replace(&mut self.in_progress, InProgress::Nothing) {
            InProgress::Binding(bind) => {
                let mut bind = bind.into_inner();
                let polled = bind.poll(world, &mut self.inner);
                self.settle_bind(bind, polled)
            }
            InProgress::Nothing => Err(Refusal::Code(ErrorCode::InvalidState)),
            InProgress::Started(operation) => {
                self.in_progress = InProgress::Started(operation);
                Err(Refusal::Code(ErrorCode::InvalidState))
            }
        }
    }

    /// Keeps in the record what a poll of its bind came to.
    fn settle_bind(
        &mut self,
        bind: BindOp,
        polled: Result<Answer<()>, Refusal>,
    ) -> Result<Answer<()>, Refusal>
        requires nothing { self.old.in_progress ≡ InProgress.Nothing }
        requires going { is_going bind ≡ stays_going polled }
        ensures told { result ≡ polled }
        ensures settled { self.new ≡ bind_settled (with_progress self.old (InProgress.Binding bind))
            polled }
    {
        match polled {
            Ok(Answer::Ready(())) => {
                self.in_progress = InProgress::Started(AsyncOperation::Bind);
                Ok(Answer::Ready(()))
            }
            Ok(Answer::Pending) => {
                self.in_progress = InProgress::Binding(PendingBind::new(bind));
                Ok(Answer::Pending)
            }
            Err(Refusal::Code(code)) => Err(Refusal::Code(code)),
            Err(Refusal::Memory(e)) => {
                self.in_progress = InProgress::Binding(PendingBind::new(bind));
                Err(Refusal::Memory(e))
            }
        }
    }
}
