//! A spawner that refuses some starts.

ghost use Rattle.std.specs.Prelude.{◌≡◌, ◌≤◌, ◌↔◌, IsFalse};
ghost use Rattle.std.specs.Bool.{OnTrue, OnFalse};
ghost use Rattle.wasi_world.specs.Seen.{Rose, one_more};
ghost use Rattle.wasi_spawn.specs.Start.{IsRefused};

use crate::spawner::{Spawner, one_more};

/// Refuses the starts of these numbers, counted from 1, and starts the others as
/// [`ThreadSpawner`](crate::ThreadSpawner) does.
#[derive(Drop)]
pub struct FakeSpawner {
    refuse: Vec<u32>,
    tried: u64,
    starts: u64,
    refusals: u64,
}

impl FakeSpawner {
    /// A spawner that refuses the starts of these numbers, counted from 1.
    pub fn new(refuse: Vec<u32>) -> FakeSpawner
        ensures { result ≡ record { refuse = refuse; tried = 0; starts = 0; refusals = 0 } }
    {
        FakeSpawner {
            refuse,
            tried: 0,
            starts: 0,
            refusals: 0,
        }
    }

    /// How many jobs it has started.
    pub fn starts(&self) -> u64
        ensures { result ≡ self.now.starts }
    {
        self.starts
    }

    /// How many starts it has refused.
    pub fn refusals(&self) -> u64
        ensures { result ≡ self.now.refusals }
    {
        self.refusals
    }
}

impl Spawner for FakeSpawner {
    ghost refusals = { λ spawner. spawner.refusals };

    ghost starts = { λ spawner. spawner.starts };

    ghost refuses = { λ spawner. IsRefused spawner.refuse.items spawner.tried };

    /// Counts the start, and returns whether its number isn't one of those that are refused.
    fn admits(&mut self) -> bool
        ensures answer { IsFalse result ↔ IsRefused self.old.refuse.items self.old.tried }
        ensures yes { OnTrue result (self.new ≡ record self.old
            { tried = one_more self.old.tried }) }
        ensures no { OnFalse result (self.new ≡ record self.old
            { tried = one_more self.old.tried; refusals = one_more self.old.refusals }) }
        ensures never_falls { self.old.refusals ≤ self.new.refusals }
    {
        self.tried = one_more(self.tried);
        let number = self.tried;
        if self
            .refuse
            .iter()
            .any(|refused| number == u64::from(*refused))
        {
            self.refusals = one_more(self.refusals);
            return false;
        }
        true
    }

    fn refused(&mut self)
        ensures counted { self.new ≡ record self.old { refusals = one_more self.old.refusals } }
        ensures never_falls { self.old.refusals ≤ self.new.refusals }
    {
        self.refusals = one_more(self.refusals);
    }

    fn started(&mut self)
        ensures counted { self.new ≡ record self.old { starts = one_more self.old.starts } }
        ensures never_falls { self.old.starts ≤ self.new.starts }
    {
        self.starts = one_more(self.starts);
    }
}
