//! The plain spawner.

ghost use Rattle.std.specs.Prelude.{◌≡◌};

use crate::spawner::{Spawner, one_more};

/// Starts each job in a new thread of the system.
#[derive(Drop)]
pub struct ThreadSpawner {
    starts: u64,
    refusals: u64,
}

impl ThreadSpawner {
    /// A spawner that has started and refused nothing.
    pub fn new() -> ThreadSpawner
        ensures { (result.starts ≡ 0) × (result.refusals ≡ 0) }
    {
        ThreadSpawner {
            starts: 0,
            refusals: 0,
        }
    }

    /// How many jobs it has started.
    pub fn starts(&self) -> u64
        ensures { result ≡ self.now.starts }
    {
        self.starts
    }

    /// How many starts it has refused.
    pub fn refusals(&self) -> u64
        ensures { result ≡ self.now.refusals }
    {
        self.refusals
    }
}

impl Spawner for ThreadSpawner {
    ghost refusals = { λ spawner. spawner.refusals };

    ghost starts = { λ spawner. spawner.starts };

    ghost refuses = { λ spawner. ⊥ };

    fn admits(&mut self) -> bool {
        true
    }

    fn refused(&mut self) {
        self.refusals = one_more(self.refusals);
    }

    fn started(&mut self) {
        self.starts = one_more(self.starts);
    }
}
