//! A world that can be waited for.

use crate::world::World;

/// A world that can wait until what it answered pending may go on, so that a host need not ask
/// again and again.
pub trait Waits: World {
    ghost use Rattle.std.specs.Prelude.{◌≡◌};

    /// Waits until a call that was answered pending may go on, for at most so many milliseconds,
    /// or without limit where they are negative; and whether one may. A world that can't tell
    /// returns `false` at once. Asks nothing: what is known of the world stays.
    fn wait(&mut self, timeout: i32) -> bool
        ensures { Self.seen self.new ≡ Self.seen self.old };
}
