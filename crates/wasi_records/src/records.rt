//! What the numbers of a store name, and how it is looked up.

ghost use Rattle.std.specs.Prelude.{◌≡◌, ℕ, Option, option_map, Some, None, refl};
ghost use Rattle.std.specs.Borrow.{LendsIf, sem};
ghost use Rattle.wasi_records.specs.Records.{stored_at, with_stored};
ghost use Rattle.wasi_records.specs.Rows.{record_row, records_row};
ghost use Rattle.wasi_records.specs.Totals.{share_by};
ghost use Rattle.wasi_records.specs.Used.{used_in};
ghost use Rattle.wasi_records.specs.declared.records.Record.{Record};
ghost use Rattle.wasi_records.specs.declared.records.Record.TheVariants.{Gone};

use crate::record_list::{RecordId, RecordList, SlotKey};
use crate::totals::Share;
use lookup_records::Lookup;
use memory_streams::{InputPipeCore, OutputPipe};
use tcp_records::{Slot, TcpRecord};
use udp_records::{OpenUdp, UdpRecord};

/// What a record number in a handle stands for, a case for each kind.
#[derive(Drop)]
pub enum Record {
    /// A TCP socket, with its listener and its streams.
    Tcp(TcpRecord),
    /// A UDP socket.
    Udp(UdpRecord),
    /// A lookup of a host name.
    Lookup(Lookup),
    /// A pipe that a guest reads.
    InputPipe(InputPipeCore),
    /// A pipe that a guest writes.
    OutputPipe(OutputPipe),
    /// The result slot of an end of a 0.3 connection's stream.
    Slot(Slot),
    /// Nothing: the record was given back, since nothing refers to it any more, or its number
    /// wasn't given yet.
    Gone,
}

impl Record {
    /// What it counts for: the bytes that the writer of a TCP socket holds or is permitted.
    pub(crate) fn share(&self) -> Share
        ensures { (context : ℕ) → share_by result context ≡ used_in context self.now }
    {
        match self {
            Record::Tcp(socket) => Share {
                context: socket.maker,
                bytes: socket.held(),
            },
            Record::Udp(_)
            | Record::Lookup(_)
            | Record::InputPipe(_)
            | Record::OutputPipe(_)
            | Record::Slot(_)
            | Record::Gone => Share::none(),
        }
    }
}

/// What a store has records of: each implementing type is found in the list by [`find`], and to be
/// changed by [`find_mut`].
pub trait Stored {
    /// Such a record.
    ghost into: { Self → Record };

    /// What of this type a record is, if any.
    ghost of: { Option Record → Option Self };

    /// What of this type a record is, if any.
    fn of_record(one: &Record) -> Option<&Self>
        ensures { option_map (λ r. r.now) result ≡ of (Some one.now) };

    /// What of this type a record is, if any, to be changed.
    fn of_record_mut(one: &mut Record) -> Option<&mut Self>
        ensures* writes_back { sem 𝓛 (LendsIf record_row Self.row one.entry result into one.old) }
        ensures value { option_map (λ r. r.now) result ≡ of (Some one.old) };

    /// Where there is no record, there is none of this type.
    ghost none: { of None ≡ None };

    /// Nor where one was given back.
    ghost gone: { of (Some Gone) ≡ None };
}

impl Stored for TcpRecord {
    ghost use Rattle.std.specs.Prelude.{refl};
    ghost use Rattle.wasi_records.specs.Records.{tcp2_of};
    ghost use Rattle.wasi_records.specs.declared.records.Record.TheVariants.{Tcp};

    ghost into = { λ r. Tcp r };

    ghost of = { tcp2_of };

    fn of_record(one: &Record) -> Option<&TcpRecord> {
        match one {
            Record::Tcp(socket) => Some(socket),
            _ => None,
        }
    }

    fn of_record_mut(one: &mut Record) -> Option<&mut TcpRecord> {
        match one {
            Record::Tcp(socket) => Some(socket),
            _ => None,
        }
    }

    ghost none = { refl };

    ghost gone = { refl };
}

impl Stored for UdpRecord {
    ghost use Rattle.std.specs.Prelude.{refl};
    ghost use Rattle.wasi_records.specs.Records.{udp2_of};
    ghost use Rattle.wasi_records.specs.declared.records.Record.TheVariants.{Udp};

    ghost into = { λ r. Udp r };

    ghost of = { udp2_of };

    fn of_record(one: &Record) -> Option<&UdpRecord> {
        match one {
            Record::Udp(socket) => Some(socket),
            _ => None,
        }
    }

    fn of_record_mut(one: &mut Record) -> Option<&mut UdpRecord> {
        match one {
            Record::Udp(socket) => Some(socket),
            _ => None,
        }
    }

    ghost none = { refl };

    ghost gone = { refl };
}

impl Stored for OpenUdp {
    ghost use Rattle.std.specs.Prelude.{refl};
    ghost use Rattle.wasi_records.specs.Records.{open_record_of};
    ghost use Rattle.wasi_records.specs.declared.records.Record.TheVariants.{Udp};
    ghost use Rattle.udp_records.specs.declared.udp.UdpRecord.TheVariants.{Open};

    ghost into = { λ o. Udp (Open o) };

    ghost of = { open_record_of };

    fn of_record(one: &Record) -> Option<&OpenUdp> {
        match one {
            Record::Udp(socket) => socket.as_open(),
            _ => None,
        }
    }

    fn of_record_mut(one: &mut Record) -> Option<&mut OpenUdp> {
        match one {
            Record::Udp(socket) => socket.as_open_mut(),
            _ => None,
        }
    }

    ghost none = { refl };

    ghost gone = { refl };
}

impl Stored for Lookup {
    ghost use Rattle.std.specs.Prelude.{refl};
    ghost use Rattle.wasi_records.specs.Records.{lookup_of};
    ghost use Rattle.wasi_records.specs.declared.records.Record.TheVariants.{Lookup as LookupRecord};

    ghost into = { λ r. LookupRecord r };

    ghost of = { lookup_of };

    fn of_record(one: &Record) -> Option<&Lookup> {
        match one {
            Record::Lookup(lookup) => Some(lookup),
            _ => None,
        }
    }

    fn of_record_mut(one: &mut Record) -> Option<&mut Lookup> {
        match one {
            Record::Lookup(lookup) => Some(lookup),
            _ => None,
        }
    }

    ghost none = { refl };

    ghost gone = { refl };
}

impl Stored for InputPipeCore {
    ghost use Rattle.wasi_records.specs.Records.{input_pipe_of};
    ghost use Rattle.wasi_records.specs.declared.records.Record.TheVariants.{InputPipe};

    ghost into = { λ r. InputPipe r };

    ghost of = { input_pipe_of };

    fn of_record(one: &Record) -> Option<&InputPipeCore> {
        match one {
            Record::InputPipe(pipe) => Some(pipe),
            _ => None,
        }
    }

    fn of_record_mut(one: &mut Record) -> Option<&mut InputPipeCore> {
        match one {
            Record::InputPipe(pipe) => Some(pipe),
            _ => None,
        }
    }

    ghost none = { refl };

    ghost gone = { refl };
}

impl Stored for OutputPipe {
    ghost use Rattle.wasi_records.specs.Records.{output_pipe_of};
    ghost use Rattle.wasi_records.specs.declared.records.Record.TheVariants.{OutputPipe as OutputPipeRecord};

    ghost into = { λ r. OutputPipeRecord r };

    ghost of = { output_pipe_of };

    fn of_record(one: &Record) -> Option<&OutputPipe> {
        match one {
            Record::OutputPipe(pipe) => Some(pipe),
            _ => None,
        }
    }

    fn of_record_mut(one: &mut Record) -> Option<&mut OutputPipe> {
        match one {
            Record::OutputPipe(pipe) => Some(pipe),
            _ => None,
        }
    }

    ghost none = { refl };

    ghost gone = { refl };
}

impl Stored for Slot {
    ghost use Rattle.std.specs.Prelude.{refl};
    ghost use Rattle.wasi_records.specs.Records.{slot_of};
    ghost use Rattle.wasi_records.specs.declared.records.Record.TheVariants.{Slot as SlotRecord};

    ghost into = { λ s. SlotRecord s };

    ghost of = { slot_of };

    fn of_record(one: &Record) -> Option<&Slot> {
        match one {
            Record::Slot(slot) => Some(slot),
            _ => None,
        }
    }

    fn of_record_mut(one: &mut Record) -> Option<&mut Slot> {
        match one {
            Record::Slot(slot) => Some(slot),
            _ => None,
        }
    }

    ghost none = { refl };

    ghost gone = { refl };
}

/// What of this type the record of this number is, if any. Takes no memory.
pub fn find<T: Stored>(records: &RecordList, place: RecordId) -> Option<&T>
    ensures item { option_map (λ r. r.now) result ≡ stored_at T.of records.now.items place }
{
    T::of_record(records.get(place)?)
}

/// The same, to be changed. Takes no memory.
pub fn find_mut<T: Stored>(records: &mut RecordList, place: RecordId) -> Option<&mut T>
    ensures* writes_back { sem 𝓛 (LendsIf records_row T.row records.entry result
        (with_stored T.into records.old place) records.old) }
    ensures item { option_map (λ r. r.now) result ≡ stored_at T.of records.old.items place }
{
    let slot = records.slot_of(place);
    find_mut_in(records, slot, place)
}

/// [`find_mut`], with a slot hint that saves the search.
pub fn find_mut_in<T: Stored>(
    records: &mut RecordList,
    slot: SlotKey,
    place: RecordId,
) -> Option<&mut T>
    ensures* writes_back { sem 𝓛 (LendsIf records_row T.row records.entry result
        (with_stored T.into records.old place) records.old) }
    ensures item { option_map (λ r. r.now) result ≡ stored_at T.of records.old.items place }
{
    T::of_record_mut(records.get_mut_in(slot, place)?)
}
