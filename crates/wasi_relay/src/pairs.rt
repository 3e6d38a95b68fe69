//! The pairs of a relay, in order of arrival.

ghost use Rattle.std.specs.Prelude.{◌≡◌, ◌++◌, ◌∷◌, [], true, OnOk};
ghost use Rattle.wasi_relay.specs.Went.{Went, given};
ghost use Rattle.wasi_relay.specs.Pair.{first_pair, open_pairs};
ghost use Rattle.wasi_relay.specs.OpenPairs.{is_open_at};
ghost use Rattle.wasi_relay.specs.Serving.{served_each};

use crate::pair::{Pair, Peer};
use crate::serving::serve_open;
use std::alloc::{AllocError, Global};
use std::marker::Model;
use wasi_session::{Session, StepError};
use wasi_world::{Handle, World};

/// Pairs in order of arrival. A turn takes no time for those that are over, however many they are.
#[derive(Drop)]
pub(crate) struct PairList {
    all: Vec<Pair>,
    /// The places of those that aren't over, in order.
    open: Vec<usize>,
}

impl Model for PairList {
    ghost use Rattle.std.specs.Prelude.{◌≡◌, ◌&&◌, nat_lt, vec_len, vec_capacity};
    ghost use Rattle.wasi_relay.specs.OpenPairs.{Pairs, open_places};

    ghost Value = { Pairs };

    ghost view = { λ p. record {
      items = p.all.items;
      room = nat_lt (vec_len p.all) (vec_capacity p.all)
          && nat_lt (vec_len p.open) (vec_capacity p.open);
    } };

    ghost invariant = { λ p. p.open.items ≡ open_places p.all.items };
}

impl PairList {
    /// No pair. Takes no memory.
    pub(crate) fn new(alloc: Global) -> PairList
        ensures { result.items ≡ [] }
    {
        PairList {
            all: Vec::new(alloc),
            open: Vec::new(alloc),
        }
    }

    /// The pairs.
    pub(crate) fn as_slice(&self) -> &[Pair]
        ensures { result.now ≡ self.now.items }
    {
        self.all.as_slice()
    }

    /// The pairs, as a vector.
    pub(crate) fn into_vec(self) -> Vec<Pair>
        ensures { result.items ≡ self.items }
    {
        self.all
    }

    /// How many aren't over.
    pub(crate) fn open_count(&self) -> usize
        ensures { result ≡ open_pairs self.now.items }
    {
        self.open.len()
    }

    /// Makes room for one more.
    pub(crate) fn reserve(&mut self) -> Result<(), AllocError>
        ensures items { self.new.items ≡ self.old.items }
        ensures room { OnOk result (self.new.room ≡ true) }
    {
        self.all.reserve(1)?;
        self.open.reserve(1)
    }

    /// Adds a pair whose target begins to be connected.
    pub(crate) fn push_reserved(&mut self, client: Peer, target: Handle)
        requires { self.old.room ≡ true }
        ensures { self.new.items ≡ self.old.items ++ first_pair client target ∷ [] }
    {
        self.open.push_reserved(self.all.len());
        self.all.push_reserved(Pair::new(client, target));
    }

    /// Each pair's part of a turn, in order; and whether one of them moved.
    pub(crate) fn serve_each<W: World>(
        &mut self,
        alloc: Global,
        session: &mut Session<W>,
    ) -> Result<bool, StepError>
        ensures { Went (served_each self.old.items) session.old session.new
            (given self.new.items result) }
    {
        let moved = serve_open(
            alloc,
            session,
            self.all.as_mut_slice(),
            self.open.as_slice(),
        );
        let pairs = self.all.as_slice();
        self.open.retain(|place| is_open_at(pairs, *place));
        moved
    }
}

/// Whether there is a pair at this place that isn't over.
fn is_open_at(pairs: &[Pair], place: usize) -> bool
    ensures { result ≡ is_open_at pairs.now place }
{
    match pairs.get(place) {
        Some(pair) => !pair.is_over(),
        None => false,
    }
}
