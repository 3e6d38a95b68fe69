//! The table of handles: what a guest holds by number, and what is a child of what.
//!
//! Each live handle has a slot in a slab, under a key that the slab picks, and a map leads from the
//! handle to the key, by the handle's hash: so a value is found in the same time however many
//! handles are live. The map has an order as well, and a slot the ordered set of its handle's
//! children, so a push's and a delete's time grows with the logarithm of their number (a push's on
//! average, since room is taken ahead), and memory with the most that were live at a time, however
//! many were made.

ghost use Rattle.std.specs.Prelude.{◌≡◌, ◌≢◌, ◌↔◌, ◌⊎◌, ◌+◌, ◌<◌, ◌^◌, [], false, true, IfOk};
ghost use Rattle.std.specs.Prelude.{IfErr, OnOk, OnErr, IsSome, Some, None, Err};
ghost use Rattle.std.specs.Borrow.{sem};
ghost use Rattle.slab.specs.Slab.{get};
ghost use Rattle.slab_keys.specs.Keys.{key_at};
ghost use Rattle.wasi_table.specs.Table.{empty, is_full, pushed, value_at, children_of, without};
ghost use Rattle.wasi_table.specs.Table.{number_of};
ghost use Rattle.wasi_table.specs.Slots.{AreOfLive, HasEach, HasOnce};
ghost use Rattle.wasi_table.specs.Keys.{IsLed, IsFilled, IsPut, IsOut, IsKept, IsParentAt};
ghost use Rattle.wasi_table.specs.Keys.{IsWithoutChild};

use crate::handles::Handles;
use crate::slot::Slot;
use slab::Slab;
use slab_keys::SlabKeys;
use std::alloc::{AllocError, Global};
use std::marker::Model;
use thiserror::Error;

/// How many handles are live at a time at most.
const MOST_LIVE: usize = 65536;

/// Why a table refused a call (`ResourceTableError` of the crate wasmtime, with out of memory
/// beside it). A call that is refused leaves the table as it was.
#[derive(Clone, Copy, Debug, PartialEq, Eq, Error)]
pub enum TableError {
    /// The handle isn't live; at a push, the handle of the parent.
    #[error("no such handle")]
    NoSuchHandle,
    /// The handle has live children.
    #[error("the handle has live children")]
    HasChildren,
    /// 65,536 handles are live, or 4,294,967,294 were made.
    #[error("the table of handles is full")]
    Full,
    /// Memory ran out.
    #[error("out of memory")]
    Memory,
}

impl TableError {
    /// The number of the error: 1 and up, in the order of the variants.
    pub fn number(self) -> u8
        ensures { result ≡ number_of self }
    {
        match self {
            TableError::NoSuchHandle => 1,
            TableError::HasChildren => 2,
            TableError::Full => 3,
            TableError::Memory => 4,
        }
    }
}

/// A map from handles to values, where a handle may be a child of another (`ResourceTable` of the
/// crate wasmtime). Handles are numbered from 1 on, and no number is given twice.
#[derive(Drop)]
pub struct Table<K> {
    alloc: Global,
    slots: Slab<Slot<K>>,
    /// From each live handle to the key of its slot.
    keys: SlabKeys,
    next: u32,
}

impl<K> Model for Table<K> {
    ghost use Rattle.wasi_table.specs.Table.{Shown, shown_code};

    ghost Value = { Shown K };

    ghost coded = { shown_code K.code };

    ghost use Rattle.wasi_table.specs.Keys.{live_of, AreSound};

    ghost view = { λ t. record { next = t.next; live = live_of t.keys t.slots } };

    ghost invariant = { λ t. AreSound t.keys t.next t.slots };
}

impl<K> Table<K> {
    /// No handle is live, and the next is 1. Takes no memory.
    pub fn new(alloc: Global) -> Table<K>
        ensures { result ≡ empty }
    {
        Table {
            alloc,
            slots: Slab::new(alloc),
            keys: SlabKeys::new(alloc),
            next: 1,
        }
    }

    /// The number of the next handle.
    pub fn next(&self) -> u32
        ensures { result ≡ self.now.next }
    {
        self.next
    }

    /// Whether no handle can be made: 65,536 are live, or 4,294,967,294 were made.
    pub fn is_full(&self) -> bool
        ensures full { result ≡ is_full self.now }
        ensures room { result ≡ false → self.now.next + 1 < 2 ^ 32 }
    {
        self.keys.len() >= MOST_LIVE || self.next == u32::MAX
    }

    /// Makes a handle that is no child. `Full`: the table is full. `Memory`: memory for the slot
    /// ran out.
    pub fn push(&mut self, value: K) -> Result<u32, TableError>
    where
        K: Drop,
        ensures ok { IfOk result (λ h. (h ≡ self.old.next) × (self.new
            ≡ pushed self.old value None)) }
        ensures fresh { OnOk result (value_at self.old.live self.old.next ≡ None) }
        ensures err { OnErr result (self.new ≡ self.old) }
        ensures full { (result ≡ Err TableError.Full) ↔ (is_full self.old ≡ true) }
        ensures error { IfErr result (λ e. (e ≡ TableError.Full) ⊎ (e ≡ TableError.Memory)) }
    {
        if self.is_full() {
            return Err(TableError::Full);
        }
        let slot = Slot::new(self.alloc, self.next, value, None);
        match put(&mut self.slots, &mut self.keys, slot) {
            Err(_) => Err(TableError::Memory),
            Ok(()) => Ok(take_number(&mut self.next)),
        }
    }

    /// Makes a handle that is a child of another. `NoSuchHandle`: the parent isn't live, which is
    /// tested first. `Full`: the table is full. `Memory`: memory for the slot ran out.
    pub fn push_child(&mut self, value: K, parent: u32) -> Result<u32, TableError>
    where
        K: Drop,
        ensures ok { IfOk result (λ h. (h ≡ self.old.next) × (self.new
            ≡ pushed self.old value (Some parent))) }
        ensures fresh { OnOk result (value_at self.old.live self.old.next ≡ None) }
        ensures err { OnErr result (self.new ≡ self.old) }
        ensures missing { (result ≡ Err TableError.NoSuchHandle)
            ↔ (value_at self.old.live parent ≡ None) }
        ensures full { (result ≡ Err TableError.Full)
            ↔ (IsSome (value_at self.old.live parent) × (is_full self.old ≡ true)) }
        ensures error { IfErr result (λ e. e ≢ TableError.HasChildren) }
    {
        let Some(at) = key_of(&self.keys, parent) else {
            return Err(TableError::NoSuchHandle);
        };
        if self.is_full() {
            return Err(TableError::Full);
        }
        let slot = Slot::new(self.alloc, self.next, value, Some(parent));
        match put_child(&mut self.slots, &mut self.keys, at, slot) {
            Err(_) => Err(TableError::Memory),
            Ok(()) => Ok(take_number(&mut self.next)),
        }
    }

    /// The value of a live handle. `NoSuchHandle`: the handle isn't live. Takes no memory.
    pub fn get(&self, handle: u32) -> Result<&K, TableError>
        ensures found { IfOk result (λ v. value_at self.now.live handle ≡ Some v.now) }
        ensures missing { IfErr result (λ e. (e ≡ TableError.NoSuchHandle)
            × (value_at self.now.live handle ≡ None)) }
    {
        match key_of(&self.keys, handle) {
            Some(key) => Ok(&self.slots[key].value),
            None => Err(TableError::NoSuchHandle),
        }
    }

    /// The live children of a live handle, in the order of their making. `NoSuchHandle`: the handle
    /// isn't live. Takes no memory.
    pub fn children(&self, handle: u32) -> Result<&Handles, TableError>
        ensures listed { IfOk result (λ ids. ids.now ≡ children_of self.now.live handle) }
        ensures live { OnOk result (IsSome (value_at self.now.live handle)) }
        ensures missing { IfErr result (λ e. (e ≡ TableError.NoSuchHandle)
            × (value_at self.now.live handle ≡ None)) }
    {
        match key_of(&self.keys, handle) {
            Some(key) => Ok(&self.slots[key].children),
            None => Err(TableError::NoSuchHandle),
        }
    }

    /// The slots of the live handles, one each, with its value, its parent and its live children;
    /// the slab's keys have no meaning. Takes no memory.
    pub fn slots(&self) -> &Slab<Slot<K>>
        ensures live { AreOfLive self.now.live result.now }
        ensures each { HasEach self.now.live result.now }
        ensures once { HasOnce result.now }
    {
        &self.slots
    }

    /// Ends a live handle: takes it out from among its parent's children and returns its value.
    /// `NoSuchHandle`: the handle isn't live. `HasChildren`: it has a live child. Takes no memory.
    pub fn delete(&mut self, handle: u32) -> Result<K, TableError>
        ensures value { IfOk result (λ v. value_at self.old.live handle ≡ Some v) }
        ensures childless { OnOk result (children_of self.old.live handle ≡ []) }
        ensures gone { OnOk result (self.new ≡ record self.old
            { live = without self.old.live handle }) }
        ensures err { OnErr result (self.new ≡ self.old) }
        ensures missing { (result ≡ Err TableError.NoSuchHandle)
            ↔ (value_at self.old.live handle ≡ None) }
        ensures has_children { (result ≡ Err TableError.HasChildren)
            ↔ (IsSome (value_at self.old.live handle) × (children_of self.old.live handle ≢ [])) }
        ensures error { IfErr result (λ e. (e ≡ TableError.NoSuchHandle)
            ⊎ (e ≡ TableError.HasChildren)) }
    {
        let Some(key) = key_of(&self.keys, handle) else {
            return Err(TableError::NoSuchHandle);
        };
        if !self.slots[key].children.is_empty() {
            return Err(TableError::HasChildren);
        }
        Ok(take_out(&mut self.slots, &mut self.keys, key))
    }
}

impl<K> Table<K> {
    ghost use Rattle.wasi_table.specs.Lends.{lends_get, lends_value};

    /// The value of a live handle, to be changed. `NoSuchHandle`: the handle isn't live. Takes no
    /// memory.
    pub fn get_mut(&mut self, handle: u32) -> Result<&mut K, TableError>
        ensures* lends { sem 𝓛 (lends_get K.row self.entry handle result) }
        ensures found { IfOk result (λ v. value_at self.old.live handle ≡ Some v.now) }
        ensures missing { IfErr result (λ e. (e ≡ TableError.NoSuchHandle)
            × (value_at self.old.live handle ≡ None)) }
    {
        match key_of(&self.keys, handle) {
            Some(_) => Ok(self.value_mut(handle)),
            None => Err(TableError::NoSuchHandle),
        }
    }

    fn value_mut(&mut self, handle: u32) -> &mut K
        requires { IsSome (value_at self.old.live handle) }
        ensures* lends { sem 𝓛 (lends_value K.row self.entry handle result) }
        ensures found { value_at self.old.live handle ≡ Some result.now }
    {
        let key = key_of(&self.keys, handle).unwrap();
        &mut self.slots[key].value
    }
}

/// The key of a live handle's slot.
fn key_of(keys: &SlabKeys, handle: u32) -> Option<usize>
    ensures { result ≡ key_at keys.now handle }
{
    keys.get(handle as usize)
}

/// Takes the number of the next handle.
fn take_number(next: &mut u32) -> u32
    requires { next.old + 1 < 2 ^ 32 }
    ensures number { result ≡ next.old }
    ensures risen { next.new ≡ next.old + 1 }
{
    let number = *next;
    *next += 1;
    number
}

/// Puts a slot that is no child under a key. Room for both is taken first, so that either both come
/// or neither does.
fn put<K: Drop>(
    slots: &mut Slab<Slot<K>>,
    keys: &mut SlabKeys,
    slot: Slot<K>,
) -> Result<(), AllocError>
    requires { slot.parent ≡ None }
    ensures ok { OnOk result (IsPut slots.old slots.new keys.old keys.new slot) }
    ensures err { OnErr result (IsKept slots.old slots.new keys.old keys.new) }
{
    slots.reserve(1)?;
    keys.insert(slot.handle as usize, slots.vacant_key())?;
    slots.insert_reserved(slot);
    Ok(())
}

/// Puts a slot under a key, and its handle among the children of its parent, whose slot is at `at`.
/// Where there is no room for one of these, none of them comes.
fn put_child<K: Drop>(
    slots: &mut Slab<Slot<K>>,
    keys: &mut SlabKeys,
    at: usize,
    slot: Slot<K>,
) -> Result<(), AllocError>
    requires led { IsLed keys.old slots.old }
    requires parent { IsParentAt slots.old at slot.parent }
    requires fresh { key_at keys.old slot.handle ≡ None }
    ensures ok { OnOk result (IsPut slots.old slots.new keys.old keys.new slot) }
    ensures err { OnErr result (IsKept slots.old slots.new keys.old keys.new) }
{
    slots.reserve(1)?;
    keys.insert(slot.handle as usize, slots.vacant_key())?;
    if let Err(error) = slots[at].children.add(slot.handle) {
        keys.remove(slot.handle as usize);
        return Err(error);
    }
    slots.insert_reserved(slot);
    Ok(())
}

/// Takes out the slot at `key`, its handle's key, and its handle from among its parent's children,
/// and gives its value.
fn take_out<K>(slots: &mut Slab<Slot<K>>, keys: &mut SlabKeys, key: usize) -> K
    requires led { IsLed keys.old slots.old }
    requires filled { IsFilled keys.old slots.old }
    requires there { IsSome (get slots.old key) }
    ensures { IsOut slots.old slots.new keys.old keys.new key result }
{
    let Slot {
        handle,
        value,
        parent,
        ..
    } = slots.remove(key);
    keys.remove(handle as usize);
    forget_child(slots, keys, parent, handle);
    value
}

/// Takes a child out from among its parent's children, if the parent is live.
fn forget_child<K>(slots: &mut Slab<Slot<K>>, keys: &SlabKeys, parent: Option<u32>, child: u32)
    requires led { IsLed keys.now slots.old }
    requires filled { IsFilled keys.now slots.old }
    ensures { IsWithoutChild slots.old slots.new parent child }
{
    let Some(parent) = parent else {
        return;
    };
    let Some(at) = key_of(keys, parent) else {
        return;
    };
    slots[at].children.take_out(child);
}
