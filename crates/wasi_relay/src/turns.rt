//! The turns of a relay: in each an arrival is accepted and begins to be connected to the target,
//! and each pair is served.

ghost use Rattle.std.specs.Prelude.{◌≡◌, ◌<◌, None};
ghost use Rattle.wasi_relay.specs.Went.{Went, given};
ghost use Rattle.wasi_relay.specs.Turns.{course_of, is_served, may_accept, has_pair};
ghost use Rattle.wasi_relay.specs.Turns.{is_lack, tells_lack, may_wait, taken_lacking};
ghost use Rattle.wasi_relay.specs.Turns.{taken_refused, taken_after};
ghost use Rattle.wasi_relay.specs.Turns.{turned, accepted, accepted_beside, after_accept};
ghost use Rattle.wasi_relay.specs.Turns.{paired, unpaired, begun};
ghost use Rattle.wasi_relay.specs.Turns.{rounds, served_end, last_end, finished};

use crate::calls::{call, handle_at, step};
use crate::idle::Idle;
use crate::order::{Order, family_of};
use crate::pair::Peer;
use crate::pairs::PairList;
use crate::service::RelayEnd;
use crate::serving::close;
use crate::setup::Listener;
use std::alloc::Global;
use wasi_session::{GuestCall, Reply, Session, Step, StepError, TcpCall};
use wasi_steps::CodeWord;
use wasi_world::{Handle, World};

/// How many pairs are open at most.
const MOST_OPEN: usize = 16;

/// Where a relay is between two turns.
#[derive(Drop)]
pub(crate) struct Progress {
    /// How many arrivals were taken.
    pub taken: u32,
    /// The pairs of those that have one, in order of arrival.
    pub pairs: PairList,
    /// The arrival that waits for a socket for its target.
    pub waiting: Option<Peer>,
}

/// Whether a code may be of a lack of descriptors or memory. That of descriptors has no code of its
/// own in 0.2, and is `unknown`.
fn is_lack(code: CodeWord) -> bool
    ensures { result ≡ is_lack code }
{
    match code {
        CodeWord::Unknown | CodeWord::OutOfMemory | CodeWord::NewSocketLimit => true,
        _ => false,
    }
}

/// Whether a reply is a refusal for such a lack.
fn tells_lack(reply: &Reply) -> bool
    ensures { result ≡ tells_lack reply.now }
{
    match reply {
        Reply::Err(code) => is_lack(*code),
        _ => false,
    }
}

impl Progress {
    /// Whether all arrivals are over.
    fn is_served(&self, order: &Order) -> bool
        ensures { result ≡ is_served order.now (course_of self.now) }
    {
        self.taken == order.connections && self.pairs.open_count() == 0 && self.waiting.is_none()
    }

    /// Whether one more may be accepted.
    fn may_accept(&self, order: &Order) -> bool
        ensures { result ≡ may_accept order.now (course_of self.now) }
    {
        self.taken < order.connections && self.pairs.open_count() < MOST_OPEN
    }

    /// Whether a pair is open, which gives descriptors and memory back once it is over.
    fn has_pair(&self) -> bool
        ensures { result ≡ has_pair (course_of self.now) }
    {
        self.pairs.open_count() != 0
    }

    /// Whether an arrival that got this reply in place of a socket for its target waits for one.
    fn may_wait(&self, reply: &Reply) -> bool
        ensures { result ≡ may_wait (course_of self.now) reply.now }
    {
        tells_lack(reply) && self.has_pair()
    }

    /// How many arrivals are taken after an accept that was refused for lack of descriptors or
    /// memory: no more while a pair is open, else all, since nothing would give some back.
    fn taken_lacking(&self, order: &Order) -> u32
        ensures { result ≡ taken_lacking order.now (course_of self.now) }
    {
        if self.has_pair() {
            self.taken
        } else {
            order.connections
        }
    }

    /// How many arrivals are taken after an accept that was refused: one more, which is over without
    /// a pair, unless something was lacking.
    fn taken_refused(&self, order: &Order, reply: &Reply) -> u32
        requires { self.now.taken < order.now.connections }
        ensures { result ≡ taken_refused order.now (course_of self.now) reply.now }
    {
        if tells_lack(reply) {
            return self.taken_lacking(order);
        }
        self.taken + 1
    }

    /// How many arrivals are taken after an accept that gave none: `would-block` takes none.
    fn taken_after(&self, order: &Order, reply: &Reply) -> u32
        requires { self.now.taken < order.now.connections }
        ensures { result ≡ taken_after order.now (course_of self.now) reply.now }
    {
        match reply {
            Reply::Err(CodeWord::WouldBlock) => self.taken,
            _ => self.taken_refused(order, reply),
        }
    }

    /// How it ends once all arrivals are over.
    fn served_end(&self, order: &Order) -> RelayEnd
        ensures { result ≡ served_end order.now (course_of self.now) }
    {
        if self.pairs.as_slice().len() == order.connections as usize {
            RelayEnd::Served
        } else {
            RelayEnd::Unserved
        }
    }
}

/// Makes turns until all arrivals are over or no turn is left, and what is to be done after each.
pub(crate) fn make_turns<W: World, I: Idle<W>>(
    alloc: Global,
    session: &mut Session<W>,
    order: Order,
    listener: Listener,
    at: &mut Progress,
    idle: &mut I,
) -> Result<RelayEnd, StepError>
    ensures { Went (rounds order listener listener.turns (course_of at.old)) session.old
        session.new (finished (course_of at.new) result) }
{
    let mut left = listener.turns;
    while left > 0 {
        if at.is_served(&order) {
            return Ok(at.served_end(&order));
        }
        left -= 1;
        let moved = make_turn(alloc, session, order, listener, at)?;
        idle.after_turn(session, moved, at.pairs.as_slice());
    }
    Ok(last_end(at, &order))
}

/// How it ends where no turn is left.
fn last_end(at: &Progress, order: &Order) -> RelayEnd
    ensures { result ≡ last_end order.now (course_of at.now) }
{
    if at.is_served(order) {
        return at.served_end(order);
    }
    RelayEnd::Budget
}

/// Makes a turn; and whether it took an arrival, a byte or an end.
fn make_turn<W: World>(
    alloc: Global,
    session: &mut Session<W>,
    order: Order,
    listener: Listener,
    at: &mut Progress,
) -> Result<bool, StepError>
    ensures { Went (turned order listener (course_of at.old)) session.old session.new
        (given (course_of at.new) result) }
{
    step(session, Step::Turn)?;
    let (taken, waited) = (at.taken, at.waiting.is_some());
    accept(session, order, listener, at)?;
    let arrived = at.taken != taken || at.waiting.is_some() != waited;
    let moved = at.pairs.serve_each(alloc, session)?;
    Ok(moved | arrived)
}

/// Accepts an arrival, if one may be; but one that waits for a socket for its target goes first.
fn accept<W: World>(
    session: &mut Session<W>,
    order: Order,
    listener: Listener,
    at: &mut Progress,
) -> Result<(), StepError>
    ensures { Went (accepted order listener (course_of at.old)) session.old session.new
        (given (course_of at.new) result) }
{
    match at.waiting {
        Some(client) => pair_up(session, order, listener, at, client),
        None => accept_next(session, order, listener, at),
    }
}

/// Accepts an arrival, if one may be.
fn accept_next<W: World>(
    session: &mut Session<W>,
    order: Order,
    listener: Listener,
    at: &mut Progress,
) -> Result<(), StepError>
    ensures { Went (accepted_beside None order listener (course_of at.old)) session.old
        session.new (given (course_of at.new) result) }
{
    if !at.may_accept(&order) {
        return Ok(());
    }
    let socket = listener.socket;
    let reply = call(session, GuestCall::Tcp(TcpCall::Accept { socket }))?;
    after_accept(session, order, listener, at, &reply)
}

/// Goes on by the reply of an accept.
fn after_accept<W: World>(
    session: &mut Session<W>,
    order: Order,
    listener: Listener,
    at: &mut Progress,
    reply: &Reply,
) -> Result<(), StepError>
    requires { at.old.taken < order.connections }
    ensures { Went (after_accept order listener (course_of at.old) reply.now) session.old
        session.new (given (course_of at.new) result) }
{
    match reply {
        Reply::Ok(fields) => {
            let client = Peer {
                socket: handle_at(fields.as_slice(), 0),
                input: handle_at(fields.as_slice(), 1),
                output: handle_at(fields.as_slice(), 2),
            };
            at.taken += 1;
            pair_up(session, order, listener, at, client)
        }
        _ => {
            at.taken = at.taken_after(&order, reply);
            Ok(())
        }
    }
}

/// Begins to connect an arrival to the target, if there is a socket for that.
fn pair_up<W: World>(
    session: &mut Session<W>,
    order: Order,
    listener: Listener,
    at: &mut Progress,
    client: Peer,
) -> Result<(), StepError>
    ensures { Went (paired order listener client (course_of at.old)) session.old session.new
        (given (course_of at.new) result) }
{
    at.pairs.reserve()?;
    let family = family_of(order.target);
    let reply = call(session, GuestCall::Tcp(TcpCall::Create { family }))?;
    match &reply {
        Reply::Ok(fields) => {
            let target = handle_at(fields.as_slice(), 0);
            begin_connect(session, order, listener, target)?;
            at.pairs.push_reserved(client, target);
            at.waiting = None;
            Ok(())
        }
        _ => leave_unpaired(session, at, client, &reply),
    }
}

/// Has an arrival wait that got no socket for its target, if an open pair may give one back. Else it
/// is closed.
fn leave_unpaired<W: World>(
    session: &mut Session<W>,
    at: &mut Progress,
    client: Peer,
    reply: &Reply,
) -> Result<(), StepError>
    ensures { Went (unpaired client (course_of at.old) reply.now) session.old session.new
        (given (course_of at.new) result) }
{
    if at.may_wait(reply) {
        at.waiting = Some(client);
        return Ok(());
    }
    close(session, client)?;
    at.waiting = None;
    Ok(())
}

/// Begins to connect a socket to the target.
fn begin_connect<W: World>(
    session: &mut Session<W>,
    order: Order,
    listener: Listener,
    socket: Handle,
) -> Result<Reply, StepError>
    ensures { Went (begun order listener socket) session.old session.new result }
{
    let connect = GuestCall::Tcp(TcpCall::StartConnect {
        socket,
        network: listener.network,
        addr: order.target,
    });
    call(session, connect)
}
