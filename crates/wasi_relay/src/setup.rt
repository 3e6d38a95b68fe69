//! The setup of a relay, which makes its listener.

ghost use Rattle.std.specs.Prelude.{◌≡◌, Ok};
ghost use Rattle.wasi_relay.specs.Went.{Went};
ghost use Rattle.wasi_relay.specs.Setup.{setup, settled, after_call, polled, after_poll};
ghost use Rattle.wasi_relay.specs.Setup.{at_turns_end, outcome, with_left, as_is, stop_end};

use crate::calls::{call, handle_in, step};
use crate::order::{Order, family_of};
use crate::service::RelayEnd;
use wasi_session::{GuestCall, NameCall, Reply, Session, Step, StepError, TcpCall};
use wasi_world::{Handle, World};

/// What the setup made.
#[derive(Clone, Copy, Debug, PartialEq, Eq)]
pub(crate) struct Listener {
    /// The handle of the network.
    pub network: Handle,
    /// The socket that listens.
    pub socket: Handle,
    /// How many turns are left.
    pub turns: u32,
}

/// Why the setup made no listener.
#[derive(Clone, Copy, Debug, PartialEq, Eq)]
pub(crate) enum Stop {
    /// The relay ended.
    Ended(RelayEnd),
    /// A step had no reply.
    Step(StepError),
}

impl Stop {
    /// How the relay ended.
    pub(crate) fn end(self) -> Result<RelayEnd, StepError>
        ensures { result ≡ stop_end self }
    {
        match self {
            Stop::Ended(end) => Ok(end),
            Stop::Step(e) => Err(e),
        }
    }
}

impl From<StepError> for Stop {
    ghost use Rattle.std.specs.Prelude.{◌≡◌};
    ghost use Rattle.wasi_relay.specs.declared.setup.Stop.TheVariants.{Step};

    ghost from_gives = { λ e stop. stop ≡ Step e };

    fn from(e: StepError) -> Stop {
        Stop::Step(e)
    }
}

/// Makes a socket that listens on the order's address.
pub(crate) fn set_up<W: World>(session: &mut Session<W>, order: Order) -> Result<Listener, Stop>
    ensures { Went (setup order) session.old session.new (outcome as_is result) }
{
    let mut turns = order.turns;
    let addr = order.listen;
    let network = settle(session, GuestCall::Names(NameCall::Network), &mut turns)?;
    let family = family_of(addr);
    let socket = settle(
        session,
        GuestCall::Tcp(TcpCall::Create { family }),
        &mut turns,
    )?;
    let bind = GuestCall::Tcp(TcpCall::StartBind {
        socket,
        network,
        addr,
    });
    settle(session, bind, &mut turns)?;
    settle(
        session,
        GuestCall::Tcp(TcpCall::FinishBind { socket }),
        &mut turns,
    )?;
    settle(
        session,
        GuestCall::Tcp(TcpCall::StartListen { socket }),
        &mut turns,
    )?;
    settle(
        session,
        GuestCall::Tcp(TcpCall::FinishListen { socket }),
        &mut turns,
    )?;
    Ok(Listener {
        network,
        socket,
        turns,
    })
}

/// Makes a call of the setup, and polls it while it is pending.
fn settle<W: World>(
    session: &mut Session<W>,
    request: GuestCall,
    left: &mut u32,
) -> Result<Handle, Stop>
    ensures { Went (settled left.old request) session.old session.new
        (outcome (with_left left.new) result) }
{
    let reply = call(session, request)?;
    match reply {
        Reply::Err(code) => Err(Stop::Ended(RelayEnd::SetupRefused(code))),
        Reply::Pending(line) => poll(session, line, left),
        other => Ok(handle_in(&other)),
    }
}

/// Polls a pending call once in each turn, while there are turns left.
fn poll<W: World>(session: &mut Session<W>, line: u32, left: &mut u32) -> Result<Handle, Stop>
    ensures { Went (polled line left.old) session.old session.new
        (outcome (with_left left.new) result) }
{
    while *left > 0 {
        *left -= 1;
        step(session, Step::Turn)?;
        let reply = step(session, Step::Poll { line })?;
        match reply {
            Reply::Err(code) => return Err(Stop::Ended(RelayEnd::SetupRefused(code))),
            Reply::Pending(_) => {}
            other => return after_turn(*left, &other),
        }
    }
    Err(Stop::Ended(RelayEnd::Budget))
}

/// What a poll gave, if a turn is left.
fn after_turn(left: u32, reply: &Reply) -> Result<Handle, Stop>
    ensures { outcome (with_left left) result ≡ Ok (at_turns_end left reply.now) }
{
    if left == 0 {
        return Err(Stop::Ended(RelayEnd::Budget));
    }
    Ok(handle_in(reply))
}
