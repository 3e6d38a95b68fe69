//! Closes network sockets after the end mark.

ghost use Rattle.std.specs.Prelude.{◌≡◌, true};
ghost use Rattle.std.specs.List.Sorted.{IsStrictlySortedBy};
ghost use Rattle.std.specs.Map.{keys_of};
ghost use Rattle.std.specs.Ordering.{nat_cmp};
ghost use Rattle.wasi_records.specs.Sides.{held_by, held_in};
ghost use Rattle.record_common.specs.Sides.{tally};
ghost use Rattle.wasi_records.specs.Closing.{ClosesMore, ClosesSides, NamesThese};
ghost use Rattle.wasi_records.specs.RecordMap.{record_under, records_of};

use crate::record_list::{NumberedRecord, RecordId, RecordList, SlotKey, record_of};
use crate::records::Record;
use slab::Slab;
use slab_keys::SlabKeys;
use wasi_world::{Sock, World};

/// Closes a network socket, where there is one.
fn close_one<W: World>(world: &mut W, side: Option<Sock>)
    requires { (W.seen world.old).ended ≡ true }
    ensures counted { ClosesMore (W.seen world.old) (W.seen world.new) (tally side) }
    ensures named { NamesThese (W.closed world.old) (tally side) (W.closed world.new) }
{
    if let Some(side) = side {
        world.close_after_end(side);
    }
}

/// Closes the network sockets that a record holds.
fn close_record<W: World>(world: &mut W, closed: &Record)
    requires { (W.seen world.old).ended ≡ true }
    ensures counted { ClosesMore (W.seen world.old) (W.seen world.new) (held_by closed.now) }
    ensures named { NamesThese (W.closed world.old) (held_by closed.now) (W.closed world.new) }
{
    match closed {
        Record::Tcp(socket) => {
            close_one(world, socket.inner.side());
            close_one(world, socket.listening.side());
        }
        Record::Udp(socket) => close_one(world, socket.held()),
        Record::Lookup(_)
        | Record::InputPipe(_)
        | Record::OutputPipe(_)
        | Record::Slot(_)
        | Record::Gone => (),
    }
}

/// Closes every network socket that a record holds, after the end mark. Takes no memory.
pub fn close_sides<W: World>(world: &mut W, records: &RecordList)
    requires { (W.seen world.old).ended ≡ true }
    ensures counted { ClosesSides (W.seen world.old) (W.seen world.new)
        (held_in records.now.items) }
    ensures named { NamesThese (W.closed world.old) (held_in records.now.items)
        (W.closed world.new) }
{
    close_live(world, &records.slots, &records.keys);
}

/// Closes the network sockets that the records of these numbers hold.
fn close_live<W: World>(world: &mut W, slots: &Slab<NumberedRecord>, keys: &SlabKeys)
    requires { (W.seen world.old).ended ≡ true }
    ensures closed { ClosesSides (W.seen world.old) (W.seen world.new)
        (held_in (records_of slots.now keys.now)) }
    ensures named { NamesThese (W.closed world.old) (held_in (records_of slots.now keys.now))
        (W.closed world.new) }
    ensures ordered { IsStrictlySortedBy nat_cmp (keys_of keys.now) }
{
    for (number, slot) in keys.iter() {
        close_in(world, slots, *slot, *number);
    }
}

/// Closes the network sockets that the record of this number holds, where it is in this slot.
fn close_in<W: World>(world: &mut W, slots: &Slab<NumberedRecord>, slot: SlotKey, number: RecordId)
    requires { (W.seen world.old).ended ≡ true }
    ensures counted { ClosesMore (W.seen world.old) (W.seen world.new)
        (held_by (record_under slots.now slot number)) }
    ensures named { NamesThese (W.closed world.old) (held_by (record_under slots.now slot number))
        (W.closed world.new) }
{
    if let Some(record) = record_of(slots, slot, number) {
        close_record(world, record);
    }
}
