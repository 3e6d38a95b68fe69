//! The records of a store, by number.

ghost use Rattle.std.specs.Prelude.{◌≡◌, ◌∷◌, [], ◌++◌, true, is_some, length, option_map, None};
ghost use Rattle.std.specs.Prelude.{◌-◌, ◌^◌, ℕ, min, IfSome, IfNone, OnOk};
ghost use Rattle.std.specs.List.Sorted.{IsStrictlySortedBy};
ghost use Rattle.std.specs.Map.{keys_of};
ghost use Rattle.std.specs.Ordering.{nat_cmp};
ghost use Rattle.std.specs.Borrow.{LendsIf, sem};
ghost use Rattle.slab.specs.Slab.{get};
ghost use Rattle.wasi_records.specs.Numbered.{record_gone, no_items, item_at, or_gone, with_item};
ghost use Rattle.wasi_records.specs.RecordMap.{key_at, of_number, record_in};
ghost use Rattle.wasi_records.specs.RecordMap.{IsLed};
ghost use Rattle.wasi_records.specs.Totals.{Leaves, Moves, share_by, used_beside, used_under};
ghost use Rattle.wasi_records.specs.Used.{used, used_in};

use crate::records::Record;
use crate::totals::{Share, Totals};
use slab::Slab;
use slab_keys::SlabKeys;
use std::alloc::{AllocError, Global};
use std::marker::Model;

/// The number of a record, by which handles, jobs and calls name it. Numbers rise in the order of
/// making, and none is given again.
pub type RecordId = usize;

/// The key of the slot in which a record stands. A caller that keeps it has a hint: the record may
/// have been given back since, and another one have come in its place, so it is tested where it is
/// used.
pub type SlotKey = usize;

/// A record in the slab, with its number.
#[derive(Drop)]
pub(crate) struct NumberedRecord {
    number: RecordId,
    value: Record,
}

/// Records by number. They are numbered from 0 on in the order of making, and no number is given
/// twice. The memory follows the most records that were there at a time, however many were made. A
/// caller that knows the slot of a record finds it without a search.
#[derive(Drop)]
pub struct RecordList {
    pub(crate) slots: Slab<NumberedRecord>,
    /// Leads from the number of each record to the key of its slot.
    pub(crate) keys: SlabKeys,
    next: RecordId,
    /// What the records count for, but the one that was lent last: that one may have been changed
    /// since.
    totals: Totals,
    /// The number of the record that was lent last, and a hint of its slot.
    lent: RecordId,
    lent_slot: SlotKey,
}

impl Model for RecordList {
    ghost use Rattle.wasi_records.specs.Numbered.{Numbered};

    ghost Value = { Numbered };

    ghost use Rattle.wasi_records.specs.RecordMap.{numbered, record_in, has_room, IsSound};
    ghost use Rattle.wasi_records.specs.Totals.{IsCounted};

    ghost view = { λ l. record {
      items = numbered (record_in l.slots l.keys) l.next;
      room = has_room l.slots l.keys l.next;
    } };

    ghost invariant = { λ l. IsSound l.slots l.keys l.next
        × IsCounted l.totals l.lent (numbered (record_in l.slots l.keys) l.next) };
}

impl RecordList {
    ghost use Rattle.wasi_records.specs.Rows.{record_row, records_row};

    /// No record was made. Takes no memory.
    pub fn new(alloc: Global) -> RecordList
        ensures { result ≡ no_items }
    {
        RecordList {
            slots: Slab::new(alloc),
            keys: SlabKeys::new(alloc),
            next: 0,
            totals: Totals::new(alloc),
            lent: 0,
            lent_slot: 0,
        }
    }

    /// How many records were made, which is the number of the next.
    pub fn len(&self) -> usize
        ensures { result ≡ length self.now.items }
    {
        self.next
    }

    /// Takes room for one more record. Out of memory, or with no number left, the records stay as
    /// they are.
    pub fn reserve(&mut self) -> Result<(), AllocError>
        ensures items { self.new.items ≡ self.old.items }
        ensures room { OnOk result (self.new.room ≡ true) }
    {
        if self.next == usize::MAX {
            return Err(AllocError);
        }
        self.slots.reserve(1)?;
        // The map has no reserve, so an entry keeps the room of the next record. It goes into this
        // slot, unless one is given back first.
        self.keys.insert(self.next, self.slots.vacant_key())?;
        Ok(())
    }

    /// Adds a record, for which `reserve` took room. Takes no memory.
    pub fn push_reserved(&mut self, added: Record)
        requires { self.old.room ≡ true }
        ensures items { self.new.items ≡ self.old.items ++ added ∷ [] }
    {
        let before = share_of(&self.slots, &self.keys, self.lent_slot, self.lent);
        self.totals.add(before);
        let record = NumberedRecord {
            number: self.next,
            value: added,
        };
        let slot = self.slots.insert_reserved(record);
        self.keys.set(self.next, slot);
        self.lent = self.next;
        self.lent_slot = slot;
        self.next += 1;
    }

    /// The record of this number. One that was given back or wasn't made is `None` or `Gone`. Takes
    /// no memory.
    pub fn get(&self, place: RecordId) -> Option<&Record>
        ensures { or_gone (option_map (λ r. r.now) result) ≡ item_at self.now.items place }
    {
        record_of(&self.slots, key_of(&self.keys, place), place)
    }

    /// The slot of the record of this number, as a hint for `find_mut_in`; any slot where there is
    /// no such record. Takes no memory.
    pub fn slot_of(&self, place: RecordId) -> SlotKey {
        key_of(&self.keys, place)
    }

    /// The record of this number, to be changed, with a slot hint that saves the search where the
    /// record is in that slot. One that was given back or wasn't made is `None`. Takes no memory.
    pub(crate) fn get_mut_in(&mut self, slot: SlotKey, place: RecordId) -> Option<&mut Record>
        ensures* writes_back { sem 𝓛 (LendsIf records_row record_row self.entry result
            (with_item self.old place) self.old) }
        ensures item { or_gone (option_map (λ r. r.now) result) ≡ item_at self.old.items place }
    {
        let found = find(&self.slots, &self.keys, slot, place)?;
        settle(
            &mut self.totals,
            &self.slots,
            &self.keys,
            self.lent_slot,
            self.lent,
            found,
            place,
        );
        self.lent = place;
        self.lent_slot = found;
        Some(&mut self.slots[found].value)
    }

    /// How many bytes the writers of a context hold or are permitted, as far as a `u64` tells.
    /// Takes no memory, and the same time however many records there are.
    pub fn used(&self, context: u32) -> u64
        ensures { result ≡ min (used context self.now.items) (2 ^ 64 - 1) }
    {
        let lent = share_of(&self.slots, &self.keys, self.lent_slot, self.lent);
        self.used_but(self.lent_slot, self.lent, context)
            .saturating_add(lent.of(context))
    }

    /// How many of them the records of other numbers than this one hold or are permitted, with a
    /// slot hint. Takes no memory, and the same time however many records there are.
    pub fn used_but(&self, slot: SlotKey, place: RecordId, context: u32) -> u64
        ensures { result ≡ min (used context self.now.items - used_in context
            (item_at self.now.items place)) (2 ^ 64 - 1) }
    {
        if !self.totals.exact {
            return count_but(&self.slots, &self.keys, context, place);
        }
        let total = self.totals.of(context);
        if place == self.lent {
            return total;
        }
        let own = share_of(&self.slots, &self.keys, slot, place);
        let lent = share_of(&self.slots, &self.keys, self.lent_slot, self.lent);
        (total - own.of(context)).saturating_add(lent.of(context))
    }

    /// Takes room for the total of a context. Out of memory, the records stay as they are.
    pub fn reserve_total(&mut self, context: u32) -> Result<(), AllocError>
        ensures { self.new ≡ self.old }
    {
        self.totals.reserve(context)
    }

    /// Drops the record of this number and its slot. Takes no memory.
    pub fn give_back(&mut self, place: RecordId)
        ensures { self.new.items ≡ record_gone self.old.items place }
    {
        let slot = key_of(&self.keys, place);
        settle(
            &mut self.totals,
            &self.slots,
            &self.keys,
            self.lent_slot,
            self.lent,
            slot,
            place,
        );
        self.lent = place;
        self.keys.remove(place);
        if is_in(&self.slots, slot, place) {
            drop(self.slots.remove(slot));
        }
    }
}

/// The key to which a number leads, or 0 where it leads nowhere.
fn key_of(keys: &SlabKeys, number: RecordId) -> SlotKey
    ensures { result ≡ key_at keys.now number }
{
    keys.get(number).unwrap_or(0)
}

/// The record in a slot, if it has this number.
pub(crate) fn record_of(
    slots: &Slab<NumberedRecord>,
    slot: SlotKey,
    number: RecordId,
) -> Option<&Record>
    ensures { option_map (λ r. r.now) result ≡ of_number number (get slots.now slot) }
{
    match slots.get(slot) {
        Some(found) if found.number == number => Some(&found.value),
        _ => None,
    }
}

/// Whether the record in a slot has this number.
fn is_in(slots: &Slab<NumberedRecord>, slot: SlotKey, number: RecordId) -> bool
    ensures { result ≡ is_some (of_number number (get slots.now slot)) }
{
    record_of(slots, slot, number).is_some()
}

/// The slot of the record of this number: the hint, where it is right, and else the slot to which
/// the number leads.
fn find(
    slots: &Slab<NumberedRecord>,
    keys: &SlabKeys,
    first: SlotKey,
    number: RecordId,
) -> Option<SlotKey>
    ensures found { IfSome result (λ slot. is_some (of_number number (get slots.now slot)) ≡ true) }
    ensures none { IfNone result (of_number number (get slots.now (key_at keys.now number))
        ≡ None) }
{
    if is_in(slots, first, number) {
        return Some(first);
    }
    let led = key_of(keys, number);
    if is_in(slots, led, number) {
        Some(led)
    } else {
        None
    }
}

/// What the record of this number counts for, with a slot hint.
fn share_of(slots: &Slab<NumberedRecord>, keys: &SlabKeys, slot: SlotKey, number: RecordId) -> Share
    requires { IsLed slots.now keys.now }
    ensures { (context : ℕ) → share_by result context
        ≡ used_in context (record_in slots.now keys.now number) }
{
    match find(slots, keys, slot, number) {
        Some(found) => slots[found].value.share(),
        None => Share::none(),
    }
}

/// Adds to the totals what the record that was lent before counts for now, and takes out what the
/// one that is lent next does.
fn settle(
    totals: &mut Totals,
    slots: &Slab<NumberedRecord>,
    keys: &SlabKeys,
    before_slot: SlotKey,
    before: RecordId,
    slot: SlotKey,
    next: RecordId,
)
    requires led { IsLed slots.now keys.now }
    requires counted { Leaves totals.old (record_in slots.now keys.now before)
        (record_in slots.now keys.now next) }
    ensures { Moves totals.old totals.new (record_in slots.now keys.now before)
        (record_in slots.now keys.now next) }
{
    if before == next {
        return;
    }
    totals.add(share_of(slots, keys, before_slot, before));
    totals.take(share_of(slots, keys, slot, next));
}

/// How many bytes the writers of a context hold or are permitted, record by record, but for the
/// record of this number.
fn count_but(slots: &Slab<NumberedRecord>, keys: &SlabKeys, context: u32, place: RecordId) -> u64
    ensures counted { result ≡ min (used_under slots.now place context keys.now) (2 ^ 64 - 1) }
    ensures ordered { IsStrictlySortedBy nat_cmp (keys_of keys.now) }
{
    let mut bytes: u64 = 0;
    for (number, slot) in keys.iter() {
        bytes = bytes.saturating_add(count_in(slots, *slot, *number, place, context));
    }
    bytes
}

/// How many of them the record of this number holds, where it is in this slot and of another number
/// than the one left out.
fn count_in(
    slots: &Slab<NumberedRecord>,
    slot: SlotKey,
    number: RecordId,
    left_out: RecordId,
    context: u32,
) -> u64
    ensures { result ≡ used_beside slots.now left_out context (number, slot) }
{
    if number == left_out {
        return 0;
    }
    match record_of(slots, slot, number) {
        Some(record) => record.share().of(context),
        None => 0,
    }
}
