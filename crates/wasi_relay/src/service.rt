//! The relay, whole.

ghost use Rattle.std.specs.Prelude.{◌≡◌, false, true};
ghost use Rattle.wasi_records.specs.Closing.{HasClosedAll, IsFresh};
ghost use Rattle.wasi_relay.specs.Went.{Went};
ghost use Rattle.wasi_relay.specs.Turns.{course_of, finished};
ghost use Rattle.wasi_relay.specs.RelaySteps.{Relays, relayed, no_course};

use crate::idle::Idle;
use crate::order::Order;
use crate::pair::Pair;
use crate::pairs::PairList;
use crate::setup::set_up;
use crate::turns::{Progress, make_turns};
use std::alloc::Global;
use wasi_session::{Session, StepError};
use wasi_steps::CodeWord;
use wasi_world::{WasiSocketsCtx, World};

/// How a relay ends.
#[derive(Clone, Copy, Debug, PartialEq, Eq)]
pub enum RelayEnd {
    /// All arrivals that were ordered are over, and each had a pair.
    Served,
    /// All arrivals are over that could be taken, of which some had no pair; or no descriptor or
    /// memory was left to take one, while no pair was open that would give some back.
    Unserved,
    /// All turns that were ordered were made.
    Budget,
    /// A call of the setup was refused with this code.
    SetupRefused(CodeWord),
}

/// What a relay leaves.
#[derive(Drop)]
pub struct Relayed<W: World> {
    /// How it ended, unless a step had no reply.
    pub end: Result<RelayEnd, StepError>,
    /// The pairs, in order of arrival.
    pub pairs: Vec<Pair>,
    /// The world, which is ended.
    pub world: W,
}

/// Serves an order by a guest of context 0, over a world whose end mark isn't set, and ends it.
///
/// The guest's steps are those of the definition, whatever the world answers; `idle` is done after
/// each turn that follows the setup. Takes memory for each pair, and for what its calls take.
pub fn relay<W: World, I: Idle<W>>(
    alloc: Global,
    world: W,
    contexts: Vec<WasiSocketsCtx>,
    order: Order,
    idle: &mut I,
) -> Relayed<W>
    requires { (W.seen world).ended ≡ false }
    ensures ended { (W.seen result.world).ended ≡ true }
    ensures closed { IsFresh (W.seen world) → HasClosedAll (W.seen result.world) }
    ensures went { Relays order contexts.items (W.seen world) (W.seen result.world) result.end
        result.pairs.items }
{
    let mut session = Session::new(alloc, world, contexts);
    let mut at = Progress {
        taken: 0,
        pairs: PairList::new(alloc),
        waiting: None,
    };
    let end = serve(alloc, &mut session, order, &mut at, idle);
    Relayed {
        end,
        pairs: at.pairs.into_vec(),
        world: session.finish(),
    }
}

/// Sets the relay up and makes its turns.
fn serve<W: World, I: Idle<W>>(
    alloc: Global,
    session: &mut Session<W>,
    order: Order,
    at: &mut Progress,
    idle: &mut I,
) -> Result<RelayEnd, StepError>
    requires { course_of at.old ≡ no_course }
    ensures { Went (relayed order) session.old session.new (finished (course_of at.new) result) }
{
    match set_up(session, order) {
        Ok(listener) => make_turns(alloc, session, order, listener, at, idle),
        Err(stop) => stop.end(),
    }
}
