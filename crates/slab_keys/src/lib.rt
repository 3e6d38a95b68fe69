//! Which key of a slab belongs to each number.
#![tactic(auto)]

ghost use Rattle.std.specs.Prelude.{◌≡◌, ◌↔◌, ◌<◌, ◌^◌, ℕ, [], length, Some, None, IsSome, IsTrue};
ghost use Rattle.std.specs.Prelude.{OnOk, OnErr};
ghost use Rattle.std.specs.Ordering.{nat_cmp};
ghost use Rattle.std.specs.BTreeMap.{insert_entry, is_at};
ghost use Rattle.std.specs.List.Sorted.{IsStrictlySortedBy};
ghost use Rattle.std.specs.Map.{keys_of, remove_entry};
ghost use Rattle.std.specs.Map.Iter.{ShowsInOrder, deref_pair};
ghost use Rattle.slab_keys.specs.Keys.{key_at, Rekeys};

use std::alloc::{AllocError, Global};
use std::collections::btree_map::Iter;
use std::collections::{BTreeMap, HashMap};
use std::marker::Model;

/// Leads from numbers to keys of a slab. A look-up goes by the number's hash, so its time doesn't
/// grow with how many numbers there are; an ordered map beside it gives them in rising order.
#[derive(Drop)]
pub struct SlabKeys {
    ordered: BTreeMap<usize, usize>,
    hashed: HashMap<usize, usize>,
}

impl Model for SlabKeys {
    ghost use Rattle.std.specs.Prelude.{◌≡◌, ℕ, List, nat_eq};
    ghost use Rattle.std.specs.Coded.{coded_list, coded×, coded_ℕ};
    ghost use Rattle.std.specs.HashMap.{get};
    ghost use Rattle.slab_keys.specs.Keys.{key_at};

    ghost Value = { List (ℕ × ℕ) };

    ghost coded = { coded_list (coded× coded_ℕ coded_ℕ) };

    ghost view = { λ k. k.ordered.entries };

    ghost invariant = { λ k. (number : ℕ) → get nat_eq k.hashed number
        ≡ key_at k.ordered.entries number };
}

impl SlabKeys {
    /// No number. Takes no memory.
    pub fn new(alloc: Global) -> SlabKeys
        ensures { result ≡ [] }
    {
        SlabKeys {
            ordered: BTreeMap::new(alloc),
            hashed: HashMap::new(alloc),
        }
    }

    /// How many numbers there are. Takes no memory.
    pub fn len(&self) -> usize
        ensures { result ≡ length self.now }
    {
        self.ordered.len()
    }

    /// Whether there is no number. Takes no memory.
    pub fn is_empty(&self) -> bool
        ensures { IsTrue result ↔ (self.now ≡ []) }
    {
        self.ordered.is_empty()
    }

    /// The key of a number, if it is there. Takes no memory, and the same time however many there
    /// are.
    pub fn get(&self, number: usize) -> Option<usize>
        ensures { result ≡ key_at self.now number }
    {
        self.hashed.get(&number).copied()
    }

    /// Goes over the numbers and their keys, in rising order of the numbers. Takes no memory.
    pub fn iter(&self) -> Iter<'_, usize, usize>
        ensures rest { result ≡ self.now }
        ensures runs { ShowsInOrder (deref_pair {K = ℕ} {X = ℕ}) }
        ensures ordered { IsStrictlySortedBy nat_cmp (keys_of self.now) }
        ensures fits { length self.now < 2 ^ 63 }
    {
        self.ordered.iter()
    }

    /// Gives a number this key, in place of the one that it has. Where memory ran out, nothing
    /// changes.
    pub fn insert(&mut self, number: usize, key: usize) -> Result<(), AllocError>
        ensures entries { OnOk result (self.new ≡ insert_entry nat_cmp self.old number key) }
        ensures found { OnOk result (Rekeys self.old self.new number (Some key)) }
        ensures err { OnErr result (self.new ≡ self.old) }
    {
        self.hashed.reserve(1)?;
        self.ordered.insert(number, key)?;
        // There is room, so it can't fail once the other has the number.
        self.hashed.insert(number, key)?;
        Ok(())
    }

    /// Gives a number that is there another key. Takes no memory.
    pub fn set(&mut self, number: usize, key: usize)
        requires { IsSome (key_at self.old number) }
        ensures { Rekeys self.old self.new number (Some key) }
    {
        *self.ordered.get_mut(&number).unwrap() = key;
        *self.hashed.get_mut(&number).unwrap() = key;
    }

    /// Takes a number out, if it is there. Takes no memory.
    pub fn remove(&mut self, number: usize)
        ensures entries { self.new ≡ remove_entry (is_at (nat_cmp number)) self.old }
        ensures found { Rekeys self.old self.new number None }
    {
        self.ordered.remove(&number);
        self.hashed.remove(&number);
    }
}
