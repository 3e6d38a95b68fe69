//! A world whose checks may be answered from outside, after they were asked.
#![tactic(auto)]

use wasi_world::World;

/// A world that may leave a check pending until its owner answers it.
pub trait Decides: World {
    ghost use Rattle.std.specs.Prelude.{◌≡◌};

    /// Answers the check of this number; and whether it waited for an answer. The check says so
    /// when it is asked again, and nothing that is known of the world changes until then.
    fn decide(&mut self, ask: u64, yes: bool) -> bool
        ensures { Self.seen self.new ≡ Self.seen self.old };
}
