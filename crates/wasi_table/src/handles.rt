//! The handles of a handle's children.

ghost use Rattle.std.specs.Prelude.{◌≡◌, ℕ, ◌↔◌, [], length, OnOk, OnErr, IsTrue, Contains};
ghost use Rattle.std.specs.Ordering.{nat_cmp};
ghost use Rattle.std.specs.BTreeMap.{is_at};
ghost use Rattle.std.specs.BTreeSet.{insert_key};
ghost use Rattle.std.specs.Map.Iter.{ShowsInOrder, deref};
ghost use Rattle.std.specs.Set.{remove_key};

use std::alloc::{AllocError, Global};
use std::collections::BTreeSet;
use std::collections::btree_set::Iter;
use std::marker::Model;

/// Handles in rising order, which is the order of their making. Each call's time grows with the
/// logarithm of their number, but for a walk of them all.
#[derive(Drop)]
pub struct Handles {
    set: BTreeSet<u32>,
}

impl Model for Handles {
    ghost use Rattle.std.specs.Prelude.{List, ℕ};
    ghost use Rattle.std.specs.Coded.{coded_list, coded_ℕ};

    ghost Value = { List ℕ };

    ghost coded = { coded_list coded_ℕ };

    ghost view = { λ h. h.set.keys };
}

impl Handles {
    /// No handles. Takes no memory.
    pub fn new(alloc: Global) -> Handles
        ensures { result ≡ [] }
    {
        Handles {
            set: BTreeSet::new(alloc),
        }
    }

    /// How many there are. Takes no memory.
    pub fn len(&self) -> usize
        ensures { result ≡ length self.now }
    {
        self.set.len()
    }

    /// Whether there is none. Takes no memory.
    pub fn is_empty(&self) -> bool
        ensures { IsTrue result ↔ (self.now ≡ []) }
    {
        self.set.is_empty()
    }

    /// Whether a handle is among them. Takes no memory.
    pub fn contains(&self, handle: u32) -> bool
        ensures { IsTrue result ↔ Contains self.now handle }
    {
        self.set.contains(&handle)
    }

    /// Goes over them in order. Takes no memory.
    pub fn iter(&self) -> Iter<'_, u32>
        ensures rest { result ≡ self.now }
        ensures runs { ShowsInOrder (deref {X = ℕ}) }
    {
        self.set.iter()
    }

    /// Puts a handle at its place in the order. Where memory ran out, nothing changes.
    pub(crate) fn add(&mut self, handle: u32) -> Result<(), AllocError>
        ensures ok { OnOk result (self.new ≡ insert_key nat_cmp self.old handle) }
        ensures err { OnErr result (self.new ≡ self.old) }
    {
        match self.set.insert(handle) {
            Ok(_) => Ok(()),
            Err(_) => Err(AllocError),
        }
    }

    /// Takes a handle out, if it is there. Takes no memory.
    pub(crate) fn take_out(&mut self, handle: u32)
        ensures { self.new ≡ remove_key (is_at (nat_cmp handle)) self.old }
    {
        self.set.remove(&handle);
    }
}
