//! What a run does before each of its steps.

ghost use Rattle.std.specs.Prelude.{◌≡◌, false};

use host_store::Machine;
use wasi_steps::Step;
use wasi_world::World;

/// What a run does before each step, where its host has something to do then, as to wait until one
/// of the network sockets may go on that the step will look at.
///
/// It is shown the step, and is lent the world and the state that the step finds, of which it
/// changes nothing. It asks the world for nothing: what is known of the world stays, and so do the
/// names of what was closed.
pub trait BeforeStep<W: World> {
    /// Is called once for each step, right before that is done.
    fn before(&mut self, world: &mut W, machine: &mut Machine, step: &Step)
        requires open { (W.seen world.old).ended ≡ false }
        ensures seen { W.seen world.new ≡ W.seen world.old }
        ensures closed { W.closed world.new ≡ W.closed world.old }
        ensures machine { machine.new ≡ machine.old };
}

/// Nothing is done before a step.
#[derive(Clone, Copy, Debug, PartialEq, Eq)]
pub struct AtOnce;

impl<W: World> BeforeStep<W> for AtOnce {
    fn before(&mut self, _: &mut W, _: &mut Machine, _: &Step) {}
}
