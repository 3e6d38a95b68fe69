//! A UDP socket as a guest of the 0.2 interface has it: how it is created, which operation it has
//! in progress, and how it is closed.

ghost use Rattle.std.specs.Prelude.{◌≡◌, true, false, option_map, Some, IfOk, OnErr};
ghost use Rattle.std.specs.Borrow.{LendsIf, sem};
ghost use Rattle.wasi_world.specs.Asks.{AsksFor, Reaches, outcome};
ghost use Rattle.socket_common.specs.Rounds.{is_going, stays_going};
ghost use Rattle.udp_records.specs.Udp.{open_of};
ghost use Rattle.udp_records.specs.Rows.{udp_row, open_row};
ghost use Rattle.wasi_udp.specs.Create.{create_cancel_asks};
ghost use Rattle.record_common.specs.Sides.{HoldsFewer, MakesNone, no_socket, one_socket, tally};
ghost use Rattle.udp_records.specs.Udp.{udp_side, udp_holds, poll_create_asks, udp_create_settled};
ghost use Rattle.udp_records.specs.Udp.{udp_create_done, is_udp_idle, is_udp_bound};
ghost use Rattle.udp_records.specs.Udp.{begin_udp_bind_asks, poll_udp_bind_asks, udp_bind_settled};
ghost use Rattle.udp_records.specs.Udp.{with_udp_progress, udp_local_asks, close_udp_asks};
ghost use Rattle.udp_records.specs.Udp.{opened_udp};
ghost use Rattle.udp_records.specs.declared.udp.UdpRecord.TheVariants.{Open};

use crate::datagrams::{Incoming, Outgoing};
use crate::udp_connecting::PendingUdpConnect;
use std::alloc::AllocError;
use std::marker::Model;
use std::mem;
use wasi_addr::{ErrorCode, IpSocketAddress};
use wasi_udp::{CreateOp, UdpBindOp, UdpSocket};
use wasi_world::{Answer, OpId, Refusal, Sock, World, asks};

/// A create in progress. It has a call left to make, so a poll of it asks the network.
#[derive(Drop)]
pub struct PendingCreate {
    create: CreateOp,
}

impl Model for PendingCreate {
    ghost use Rattle.std.specs.Prelude.{◌≡◌, true};
    ghost use Rattle.socket_common.specs.Rounds.{is_going};
    ghost use Rattle.wasi_udp.specs.Create.{Create};

    ghost Value = { Create };

    ghost view = { λ p. p.create };

    ghost invariant = { λ p. is_going p.create.operation ≡ true };
}

impl PendingCreate {
    /// Keeps a create that hasn't ended. Takes no memory.
    pub fn new(create: CreateOp) -> PendingCreate
        requires { is_going create.operation ≡ true }
        ensures { result ≡ create }
    {
        PendingCreate { create }
    }

    fn side(&self) -> Sock
        ensures { result ≡ self.now.operation.who.side }
    {
        self.create.side()
    }

    /// Gives the create up: its network socket is closed. Out of memory nothing was asked.
    pub fn cancel<W: World>(&self, world: &mut W) -> Result<(), AllocError>
        requires { (W.seen world.old).ended ≡ false }
        ensures asked { AsksFor (create_cancel_asks self.now) (W.seen world.old) (W.seen world.new)
            (λ done. done) result }
        ensures closed { IfOk result (λ done. HoldsFewer (W.seen world.old) (W.seen world.new)
            (one_socket self.now.operation.who.side) no_socket) }
        ensures unasked { OnErr result (W.seen world.new ≡ W.seen world.old) }
    {
        self.create.cancel(world)
    }

    fn into_inner(self) -> CreateOp
        ensures create { result ≡ self }
        ensures going { is_going result.operation ≡ true }
    {
        self.create
    }
}

/// A bind in progress. It has a call left to make, so a poll of it asks the network.
#[derive(Drop)]
pub struct PendingUdpBind {
    bind: UdpBindOp,
}

impl Model for PendingUdpBind {
    ghost use Rattle.std.specs.Prelude.{◌≡◌, true};
    ghost use Rattle.socket_common.specs.Rounds.{is_going};
    ghost use Rattle.wasi_world.specs.Operation.{Operation};

    ghost Value = { Operation };

    ghost view = { λ p. p.bind };

    ghost invariant = { λ p. is_going p.bind ≡ true };
}

impl PendingUdpBind {
    fn new(bind: UdpBindOp) -> PendingUdpBind
        requires { is_going bind ≡ true }
        ensures { result ≡ bind }
    {
        PendingUdpBind { bind }
    }

    fn into_inner(self) -> UdpBindOp
        ensures bind { result ≡ self }
        ensures going { is_going result ≡ true }
    {
        self.bind
    }
}

/// The operation that a UDP socket has in progress.
#[derive(Drop)]
pub enum UdpInProgress {
    /// None was started, or it was finished.
    Nothing,
    /// A bind, whose start is pending.
    Binding(PendingUdpBind),
    /// A bind that was started, and isn't finished.
    Bound,
}

impl UdpInProgress {
    /// Whether nothing is in progress. Takes no memory.
    pub fn is_nothing(&self) -> bool
        ensures { result ≡ is_udp_idle self.now }
    {
        matches!(self, UdpInProgress::Nothing)
    }

    /// Whether a bind was started and isn't finished.
    pub fn is_bound(&self) -> bool
        ensures { result ≡ is_udp_bound self.now }
    {
        matches!(self, UdpInProgress::Bound)
    }
}

/// A UDP socket that was created and isn't dropped, with its operation in progress and its datagram
/// streams.
#[derive(Drop)]
pub struct OpenUdp {
    // These come first, since each turn looks here: fields lie in this order, and a record is
    // several cache lines long.
    pub inner: UdpSocket,
    /// Its incoming datagram stream, while that one is live.
    pub incoming: Option<Incoming>,
    /// Its outgoing datagram stream, while that one is live.
    pub outgoing: Option<Outgoing>,
    pub in_progress: UdpInProgress,
    /// The connect in progress, while it is pending: of 0.3, or before its datagram streams.
    pub connecting: Option<PendingUdpConnect>,
    /// Its handle is gone, and datagrams in progress alone hold it. Of 0.3 only: a socket of 0.2 goes
    /// with its handle.
    pub dropped: bool,
}

/// A UDP socket of the 0.2 interface.
#[derive(Drop)]
pub enum UdpRecord {
    /// Its network socket was made, and is waited for until it can send; it has no handle yet.
    Creating(PendingCreate),
    /// It was created, and isn't dropped.
    Open(OpenUdp),
    /// It was dropped, and this network socket was closed; its handles are logged with it.
    Closed(Sock),
}

impl UdpRecord {
    /// The network socket that it was made with, also after that is closed.
    pub fn side(&self) -> Sock
        ensures { result ≡ udp_side self.now }
    {
        match self {
            UdpRecord::Creating(create) => create.side(),
            UdpRecord::Open(open) => open.inner.side(),
            UdpRecord::Closed(side) => *side,
        }
    }

    /// The network socket that it holds; `None` once that is closed.
    pub fn held(&self) -> Option<Sock>
        ensures { tally result ≡ udp_holds self.now }
    {
        match self {
            UdpRecord::Creating(create) => Some(create.side()),
            UdpRecord::Open(open) => Some(open.inner.side()),
            UdpRecord::Closed(_) => None,
        }
    }

    /// The socket, where it is open.
    pub fn as_open(&self) -> Option<&OpenUdp>
        ensures { option_map (λ o. o.now) result ≡ open_of (Some self.now) }
    {
        match self {
            UdpRecord::Open(open) => Some(open),
            UdpRecord::Creating(_) | UdpRecord::Closed(_) => None,
        }
    }

    /// The socket, to be changed, where it is open.
    pub fn as_open_mut(&mut self) -> Option<&mut OpenUdp>
        ensures* writes_back { sem 𝓛 (LendsIf udp_row open_row self.entry result Open self.old) }
        ensures value { option_map (λ o. o.now) result ≡ open_of (Some self.old) }
    {
        match self {
            UdpRecord::Open(open) => Some(open),
            UdpRecord::Creating(_) | UdpRecord::Closed(_) => None,
        }
    }

    /// Polls the create in progress once. Done: the socket is open. Pending: it is kept. Refused:
    /// the network socket was closed. None in progress: `InvalidState`. Out of memory it is kept
    /// after its last answered call, and the next poll goes on from there.
    pub fn poll_create<W: World>(&mut self, world: &mut W) -> Result<Answer<()>, Refusal>
        requires { (W.seen world.old).ended ≡ false }
        ensures asked { AsksFor (poll_create_asks self.old) (W.seen world.old) (W.seen world.new)
            (λ answer. (answer, self.new)) (outcome result) }
        ensures left { OnErr (outcome result) (Reaches (poll_create_asks self.old)
            (poll_create_asks self.new) (W.seen world.old) (W.seen world.new)) }
        ensures held { HoldsFewer (W.seen world.old) (W.seen world.new) (udp_holds self.old)
            (udp_holds self.new) }
    {
        let side = self.side();
        match mem::replace(self, UdpRecord::Closed(side)) {
            UdpRecord::Creating(create) => {
                let mut create = create.into_inner();
                let polled = create.poll(world);
                self.settle_create(create, polled)
            }
            UdpRecord::Open(open) => {
                *self = UdpRecord::Open(open);
                Err(Refusal::Code(ErrorCode::InvalidState))
            }
            UdpRecord::Closed(_) => Err(Refusal::Code(ErrorCode::InvalidState)),
        }
    }

    /// Keeps in the record what a poll of its create came to.
    fn settle_create(
        &mut self,
        create: CreateOp,
        polled: Result<Answer<UdpSocket>, Refusal>,
    ) -> Result<Answer<()>, Refusal>
        requires going { is_going create.operation ≡ stays_going polled }
        ensures told { result ≡ udp_create_done polled }
        ensures settled { self.new ≡ udp_create_settled create polled }
    {
        match polled {
            Ok(Answer::Ready(inner)) => {
                *self = UdpRecord::Open(OpenUdp {
                    inner,
                    in_progress: UdpInProgress::Nothing,
                    connecting: None,
                    incoming: None,
                    outgoing: None,
                    dropped: false,
                });
                Ok(Answer::Ready(()))
            }
            Ok(Answer::Pending) => {
                *self = UdpRecord::Creating(PendingCreate::new(create));
                Ok(Answer::Pending)
            }
            Err(Refusal::Code(code)) => {
                *self = UdpRecord::Closed(create.side());
                Err(Refusal::Code(code))
            }
            Err(Refusal::Memory(e)) => {
                *self = UdpRecord::Creating(PendingCreate::new(create));
                Err(Refusal::Memory(e))
            }
        }
    }

    /// Closes the network socket of an open socket, as its drop does. Out of memory nothing was
    /// asked, and it stays as it was.
    pub fn close<W: World>(&mut self, world: &mut W, op: OpId) -> Result<(), AllocError>
        requires { (W.seen world.old).ended ≡ false }
        ensures asked { AsksFor (close_udp_asks op self.old) (W.seen world.old) (W.seen world.new)
            (λ done. (done, self.new)) result }
        ensures held { HoldsFewer (W.seen world.old) (W.seen world.new) (udp_holds self.old)
            (udp_holds self.new) }
        ensures err { OnErr result (self.new ≡ self.old) }
        ensures unasked { OnErr result (W.seen world.new ≡ W.seen world.old) }
    {
        let Some(open) = self.as_open() else {
            return Ok(());
        };
        let side = open.inner.side();
        asks::close(world, op, side)?;
        *self = UdpRecord::Closed(side);
        Ok(())
    }
}

impl OpenUdp {
    /// Begins a bind (`udp-socket.start-bind`) and polls it once.
    pub fn begin_bind<W: World>(
        &mut self,
        world: &mut W,
        op: OpId,
        addr: IpSocketAddress,
    ) -> Result<Answer<()>, Refusal>
        requires { (W.seen world.old).ended ≡ false }
        ensures asked { AsksFor (begin_udp_bind_asks op self.old addr) (W.seen world.old)
            (W.seen world.new) (λ answer. (answer, self.new)) (outcome result) }
        ensures none { MakesNone (W.seen world.old) (W.seen world.new) }
        ensures side { self.new.inner.side ≡ self.old.inner.side }
    {
        let bind = self.inner.bind(world, op, addr)?;
        self.in_progress = UdpInProgress::Binding(PendingUdpBind::new(bind));
        self.poll_bind(world)
    }

    /// Polls the bind in progress once. Done: it is started, and `finish-bind` ends it. Pending: it
    /// is kept. Refused: nothing is in progress. None in progress: `InvalidState`. Out of memory it
    /// is kept after its last answered call, and the next poll goes on from there.
    pub fn poll_bind<W: World>(&mut self, world: &mut W) -> Result<Answer<()>, Refusal>
        requires { (W.seen world.old).ended ≡ false }
        ensures asked { AsksFor (poll_udp_bind_asks self.old) (W.seen world.old) (W.seen world.new)
            (λ answer. (answer, self.new)) (outcome result) }
        ensures left { OnErr (outcome result) (Reaches (poll_udp_bind_asks self.old)
            (poll_udp_bind_asks self.new) (W.seen world.old) (W.seen world.new)) }
        ensures none { MakesNone (W.seen world.old) (W.seen world.new) }
        ensures side { self.new.inner.side ≡ self.old.inner.side }
    {
        match mem::replace(&mut self.in_progress, UdpInProgress::Nothing) {
            UdpInProgress::Binding(bind) => {
                let mut bind = bind.into_inner();
                let polled = bind.poll(world);
                self.settle_bind(bind, polled)
            }
            UdpInProgress::Nothing => Err(Refusal::Code(ErrorCode::InvalidState)),
            UdpInProgress::Bound => {
                self.in_progress = UdpInProgress::Bound;
                Err(Refusal::Code(ErrorCode::InvalidState))
            }
        }
    }

    /// Keeps in the record what a poll of its bind came to.
    fn settle_bind(
        &mut self,
        bind: UdpBindOp,
        polled: Result<Answer<()>, Refusal>,
    ) -> Result<Answer<()>, Refusal>
        requires nothing { self.old.in_progress ≡ UdpInProgress.Nothing }
        requires going { is_going bind ≡ stays_going polled }
        ensures told { result ≡ polled }
        ensures settled { self.new ≡ udp_bind_settled (with_udp_progress self.old
            (UdpInProgress.Binding bind)) polled }
    {
        match polled {
            Ok(Answer::Ready(())) => {
                self.in_progress = UdpInProgress::Bound;
                Ok(Answer::Ready(()))
            }
            Ok(Answer::Pending) => {
                self.in_progress = UdpInProgress::Binding(PendingUdpBind::new(bind));
                Ok(Answer::Pending)
            }
            Err(Refusal::Code(code)) => Err(Refusal::Code(code)),
            Err(Refusal::Memory(e)) => {
                self.in_progress = UdpInProgress::Binding(PendingUdpBind::new(bind));
                Err(Refusal::Memory(e))
            }
        }
    }

    /// The local address (`udp-socket.local-address`); errors are those of
    /// `UdpSocket::local_address`.
    pub fn local_address<W: World>(
        &mut self,
        world: &mut W,
        op: OpId,
    ) -> Result<IpSocketAddress, Refusal>
        requires { (W.seen world.old).ended ≡ false }
        ensures asked { AsksFor (udp_local_asks op self.old) (W.seen world.old) (W.seen world.new)
            (λ told. (told, self.new)) (outcome result) }
        ensures side { self.new.inner.side ≡ self.old.inner.side }
    {
        self.inner.local_address(world, op)
    }
}
