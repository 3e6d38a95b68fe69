//! The records that handles name, and the pending calls.

ghost use Rattle.std.specs.Prelude.{◌≡◌, false, take, Some, IfNone, IsSome, None, ◌≤◌, ◌-◌, ◌^◌, min, true, is_some, option_map};
ghost use Rattle.wasi_world.specs.declared.outcome.Answer.TheVariants.{Pending};
ghost use Rattle.wasi_world.specs.Seen.{Seen};
ghost use Rattle.wasi_records.specs.Records.{tcp2_at, stored_at};
ghost use Rattle.host_store.specs.KnownSides.{KnowsSides};
ghost use Rattle.host_store.specs.Standing.{standing_as, call_of, unstood, exclusive_of, stands_as, stood};
ghost use Rattle.wasi_jobs.specs.Jobs.{other_than_receive};
ghost use Rattle.host_store.specs.GivingBack.{given_back};
ghost use Rattle.wasi_records.specs.Numbered.{item_at};
ghost use Rattle.wasi_records.specs.Sides.{held_by, held_in};
ghost use Rattle.record_common.specs.Sides.{no_socket};
ghost use Rattle.host_store.specs.Beside.{beside_of, stands_under};
ghost use Rattle.std.specs.Borrow.{LendsIf, sem};
ghost use Rattle.host_store.specs.Rows.{store_row};
ghost use Rattle.host_store.specs.Store.{no_records, with_stored};
ghost use Rattle.wasi_records.specs.Used.{used};
ghost use Rattle.host_store.specs.Machine.{side_at};
ghost use Rattle.wasi_records.specs.Closing.{ClosesSides, NamesThese};

use crate::beside::{Beside, BesideList};
use crate::kind::Interface;
use crate::limits::Limit;
use std::alloc::Global;
use std::marker::Model;
use tcp_records::TcpRecord;
use wasi_addr::lookup;
use wasi_jobs::JobList;
use wasi_records::{RecordId, RecordList, Stored, close_sides, find, find_mut};
use wasi_world::{Answer, Handle, Ids, NumberList, Octets, Sock, World};

/// A pending call that blocks, with what is left of it.
#[derive(Drop)]
pub enum BlockingCall {
    /// Reads at most this many bytes.
    Read {
        input: Handle,
        len: u64,
    },
    /// Reads and discards at most this many bytes.
    Skip {
        input: Handle,
        len: u64,
    },
    /// Writes these bytes, the rest of all, and then flushes.
    Write {
        output: Handle,
        rest: Octets,
    },
    /// Waits until what was written is flushed.
    Finish {
        output: Handle,
    },
    /// Flushes, and waits until that is done.
    Flush {
        output: Handle,
    },
    /// Reads at most this many bytes from an input, and writes them to an output.
    Splice {
        output: Handle,
        input: Handle,
        len: u64,
    },
    /// Waits until a pollable is ready.
    Block {
        pollable: Handle,
    },
    /// Waits until one of these pollables is ready.
    Poll {
        pollables: NumberList,
    },
}

/// An exclusive pending call, with what it needs to go on.
#[derive(Drop)]
pub enum StandingCall {
    /// Binds the TCP socket with this record number, for this interface; its record has the
    /// operation.
    Bind {
        socket: RecordId,
        interface: Interface,
    },
    /// Makes the TCP socket with this record number listen; its record has the operation. Of 0.3
    /// there is the handle of the socket, under which its listener is marked.
    Listen {
        socket: RecordId,
        handle: Option<Handle>,
    },
    /// Drops the output of the TCP socket with this record number, and waits until its writer is
    /// ready.
    DropOutput {
        socket: RecordId,
    },
    /// Creates the UDP socket with this record number, and then its handle in this interface; its
    /// record has the operation.
    UdpCreate {
        socket: RecordId,
        interface: Interface,
    },
    /// Binds the UDP socket with this record number, for this interface; its record has the
    /// operation.
    UdpBind {
        socket: RecordId,
        interface: Interface,
    },
    /// Connects the UDP socket with this record number, whose record has the operation, and then
    /// makes its datagram streams under this handle.
    UdpConnect {
        socket: RecordId,
        handle: Handle,
    },
    /// Connects the 0.3 UDP socket with this record number; its record has the operation.
    UdpConnect3 {
        socket: RecordId,
    },
    /// Drops the outgoing datagram stream of the UDP socket with this record number, and waits
    /// until its datagram is sent or has failed.
    DropOutgoing {
        socket: RecordId,
    },
    /// A call of a stream or of pollables that blocks.
    Blocking(BlockingCall),
}

/// An exclusive pending call. While it is pending every other guest call answers `busy`.
#[derive(Drop)]
pub struct Standing {
    /// The names of the line that began it. Its calls on the network have the line's own name, also
    /// when it is polled again. It begins no operation then, so the next part of the line isn't
    /// taken.
    pub ids: Ids,
    pub call: StandingCall,
}

/// The records by number, the background jobs in the order of making, the exclusive pending call,
/// and the pending calls that stand beside others.
///
/// A record is given back once nothing refers to it any more, so memory follows how many sockets,
/// lookups and pipes there are, and not how many were made. Where no handle can be made, a lookup's
/// record is given back, but a socket's stays.
#[derive(Drop)]
pub struct Store {
    pub records: RecordList,
    pub jobs: JobList,
    pub standing: Option<Standing>,
    pub beside: BesideList,
    /// Of each context that room was made for a TCP socket of, once.
    pub limits: Vec<Limit>,
}

impl Model for Store {
    ghost use Rattle.host_store.specs.Store.{Records};

    ghost Value = { Records };

    ghost view = { λ s. record {
      records = s.records.items;
      jobs = s.jobs.items;
      standing = s.standing;
      beside = s.beside;
      limits = s.limits.items;
    } };
}

impl Store {
    /// Stores the call as pending, under its line's number.
    pub fn block_as<T>(&mut self, ids: Ids, call: BlockingCall) -> Answer<T>
        ensures answer { result ≡ Pending }
        ensures state { self.new ≡ record self.old {
          standing = Some
              (standing_as ids (StandingCall.Blocking call));
        } }
        ensures sides { (s : Seen) → KnowsSides s self.old → KnowsSides s self.new }
    {
        let call = StandingCall::Blocking(call);
        self.standing = Some(Standing { ids, call });
        Answer::Pending
    }

    /// Takes the receives of this record out of the jobs.
    pub fn forget_receives(&mut self, place: RecordId)
        ensures { self.new ≡ record self.old { jobs = other_than_receive place self.old.jobs } }
    {
        self.jobs.forget_receives(place);
    }

    /// Gives back the record with this number, to which nothing refers any more, and takes its jobs
    /// out.
    pub fn give_back(&mut self, place: RecordId)
        ensures state { self.new ≡ given_back place self.old }
        ensures sides { (s : Seen) → held_by (item_at self.old.records place) ≡ no_socket
            → KnowsSides s self.old → KnowsSides s self.new }
    {
        self.records.give_back(place);
        self.jobs.forget(place);
    }

    /// Takes the exclusive pending call out, if it has this number.
    pub fn take(&mut self, line: u32) -> Option<Standing>
        ensures taken { result ≡ call_of self.old.standing line }
        ensures some { IsSome result → self.new ≡ unstood self.old }
        ensures none { IfNone result (self.new ≡ self.old) }
    {
        if !self.is_exclusive(line) {
            return None;
        }
        self.standing.take()
    }

    /// From here on no exclusive call is pending.
    pub fn forget_call(&mut self)
        ensures { self.new ≡ unstood self.old }
    {
        self.standing = None;
    }

    /// A store with no record, no job and no pending call. Takes no memory.
    pub fn new(alloc: Global) -> Store
        ensures { result ≡ no_records }
    {
        Store {
            records: RecordList::new(alloc),
            jobs: JobList::new(alloc),
            standing: None,
            beside: BesideList::new(alloc),
            limits: Vec::new(alloc),
        }
    }

    /// How many bytes the writers of a context's TCP sockets of 0.2 hold or are permitted, as far
    /// as a `u64` tells. Takes no memory, and the same time however many sockets there are.
    pub fn used(&self, ctx: u32) -> u64
        ensures { result ≡ min (used ctx self.now.records) (2 ^ 64 - 1) }
    {
        self.records.used(ctx)
    }

    /// How many bytes the other writers of a context leave to one that has so many of its own, where
    /// this is the context's limit. Takes no memory.
    pub fn left(&self, ctx: u32, own: u64, limit: u64) -> u64
        requires own { own ≤ used ctx self.now.records }
        requires within { used ctx self.now.records ≤ limit }
        ensures { result ≡ limit - (used ctx self.now.records - own) }
    {
        limit - (self.used(ctx) - own)
    }

    /// What of this type the record with this number is, if any. Takes no memory.
    pub fn find<T: Stored>(&self, place: RecordId) -> Option<&T>
        ensures item { option_map (λ r. r.now) result ≡ stored_at T.of self.now.records place }
    {
        find(&self.records, place)
    }

    /// The same, to be changed. Takes no memory.
    pub fn find_mut<T: Stored>(&mut self, place: RecordId) -> Option<&mut T>
        ensures* writes_back { sem 𝓛 (LendsIf store_row T.row self.entry result
            (with_stored T.into self.old place) self.old) }
        ensures item { option_map (λ r. r.now) result ≡ stored_at T.of self.old.records place }
    {
        find_mut(&mut self.records, place)
    }

    /// The network socket that the TCP socket with this record number was made with; `None` where
    /// there is no such socket, or it had none.
    pub fn side(&self, place: RecordId) -> Option<Sock>
        ensures { result ≡ side_at (tcp2_at self.now.records place) }
    {
        find::<TcpRecord>(&self.records, place)?.side
    }

    /// Closes every network socket that a record holds, after the end mark. Takes no memory.
    pub fn close_all<W: World>(self, world: &mut W)
        requires { (W.seen world.old).ended ≡ true }
        ensures counted { ClosesSides (W.seen world.old) (W.seen world.new) (held_in self.records) }
        ensures named { NamesThese (W.closed world.old) (held_in self.records)
            (W.closed world.new) }
    {
        close_sides(world, &self.records);
    }

    /// The number of the exclusive pending call, that of the line that began it. Takes no memory.
    ///
    /// While it is pending every guest call has to answer `busy`, and so has the resumption of a
    /// call that [stands beside others](Store::stands_beside). The caller has to see to that: the
    /// calls of this crate, of `wasi_p2` and of `wasi_p3` don't test it, and one that becomes the
    /// exclusive call replaces the one before.
    pub fn exclusive(&self) -> Option<u32>
        ensures { result ≡ exclusive_of self.now.standing }
    {
        match &self.standing {
            Some(standing) => Some(standing.ids.line),
            None => None,
        }
    }

    /// Whether a call is pending under this number, be it exclusive or beside others. Takes no
    /// memory.
    pub fn stands(&self, line: u32) -> bool
        ensures { result ≡ stands_under self.now line }
    {
        self.is_exclusive(line) || self.stands_beside(line)
    }

    /// Whether the call with this number is pending and stands beside others. Takes no memory.
    pub fn stands_beside(&self, line: u32) -> bool
        ensures { result ≡ is_some (beside_of self.now line) }
    {
        self.find_beside(line).is_some()
    }

    /// The call with this number that is pending and stands beside others.
    pub fn find_beside(&self, line: u32) -> Option<&Beside>
        ensures { option_map (λ call. call.now) result ≡ beside_of self.now line }
    {
        self.beside.get(line)
    }

    /// Whether the exclusive pending call has this number. Takes no memory.
    pub fn is_exclusive(&self, line: u32) -> bool
        ensures { result ≡ stands_as self.now.standing line }
    {
        match &self.standing {
            Some(standing) => standing.ids.line == line,
            None => false,
        }
    }

    /// Keeps an exclusive call that is pending, under its line's number and with the names of its
    /// line.
    pub fn stand(&mut self, ids: Ids, call: StandingCall, answer: Answer<()>) -> Answer<()>
        ensures { (result, self.new) ≡ stood self.old ids call answer }
    {
        match answer {
            Answer::Ready(()) => Answer::Ready(()),
            Answer::Pending => {
                self.standing = Some(Standing { ids, call });
                Answer::Pending
            }
        }
    }
}
