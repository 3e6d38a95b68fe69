//! A world that can be waited for before a line.

use crate::look::Look;
use wasi_world::World;

/// A world whose host waits before a line for all that the line will look at, so that no look
/// waits.
pub trait WaitsForLooks: World {
    ghost use Rattle.std.specs.Prelude.{◌≡◌};

    /// Waits until one of these looks may go on, as long as the world's patience has it; and
    /// whether one may. Asks nothing: what is known of the world stays.
    fn wait_for(&mut self, looks: &[Look]) -> bool
        ensures seen { Self.seen self.new ≡ Self.seen self.old }
        ensures closed { Self.closed self.new ≡ Self.closed self.old };

    /// From now on a look waits by itself where it is pending, or it doesn't.
    fn let_looks_wait(&mut self, waits: bool)
        ensures seen { Self.seen self.new ≡ Self.seen self.old }
        ensures closed { Self.closed self.new ≡ Self.closed self.old };
}
