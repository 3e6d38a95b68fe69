//! What is done between the turns of a relay.

ghost use Rattle.std.specs.Prelude.{◌≡◌};

use crate::pair::Pair;
use wasi_session::Session;
use wasi_world::World;

/// What is done after each turn, beside the guest's calls: nothing that is known of the session
/// changes.
pub trait Idle<W: World> {
    /// After a turn: whether it took an arrival, a byte or an end, and the pairs so far.
    fn after_turn(&mut self, session: &mut Session<W>, moved: bool, pairs: &[Pair])
        ensures { session.new ≡ session.old };
}

/// Turn follows turn, as over a world that goes by a plan.
#[derive(Clone, Copy, Debug, PartialEq, Eq)]
pub struct NoWait;

impl<W: World> Idle<W> for NoWait {
    fn after_turn(&mut self, _: &mut Session<W>, _: bool, _: &[Pair]) {}
}
