//! A world that answers from a recorded log.

ghost use Rattle.std.specs.Prelude.{◌≡◌, ◌<◌, ◌≤◌, List, [], Some, None, IfOk, OnErr, false};
ghost use Rattle.std.specs.Prelude.{length, take, slice_get, option_copied, IsTrue, ◌↔◌, ◌∷◌};
ghost use Rattle.std.specs.Prelude.{◌++◌, ◌^◌, unwrap_or};
ghost use Rattle.std.specs.Prelude.{◌⊎◌, OnOk, IfSome, Ok, true};
ghost use Rattle.std.specs.List.{list_all};
ghost use Rattle.wasi_world.specs.declared.call.Entry.{Entry};
ghost use Rattle.wasi_world.specs.Asks.{IsFront};
ghost use Rattle.wasi_world.specs.Fits.{Fits, IsWritten};
ghost use Rattle.wasi_world.specs.Seen.{Counts, Passes};
ghost use Rattle.wasi_replay.specs.Recorded.{fits_entry};
ghost use Rattle.wasi_replay.specs.Replayed.{StandsTo, Follows, TookOthers, IsRecorded};
ghost use Rattle.wasi_replay.specs.Replayed.{seen_of, unrecorded, entry};

use crate::same::same_call;
use std::alloc::{AllocError, Global};
use std::marker::{Brand, PhantomData};
use wasi_addr::{ErrorCode, IpSocketAddress};
use wasi_world::{Call, ClosedSockets, Entry, Octets, OpId, Sock, Told, World};

/// What proofs know of a [`ReplayWorld`] besides its own log: the log that it answers from. A
/// caller calls a function that is generic in `Recorded`, at [`Brand`], for which its proof picks
/// that log; the function makes the world and uses it.
pub trait Recorded {
    ghost use Rattle.std.specs.Prelude.{List};
    ghost use Rattle.wasi_world.specs.declared.call.Entry.{Entry};

    ghost recorded: { List Entry };
}

impl Recorded for Brand {
    ghost use Rattle.std.specs.Prelude.{[]};

    ghost recorded = { [] };
}

/// A world that answers as recorded, as long as each call is the next that is recorded. A write
/// whose recorded answer took bytes is that call only where it offers those bytes first.
///
/// At the first call that isn't the recorded one, and from there on, a check is told no, a call
/// that is never refused is pending or done, and every other call fails with the code `other`; but
/// a write that only offers other bytes than were recorded takes as many of them, so that the own
/// log tells the difference.
#[derive(Drop)]
pub struct ReplayWorld<R: Recorded> {
    /// What is recorded; from the first call that differs on its own log.
    entries: Vec<Entry>,
    /// How many calls were made: the own log is as much of the entries.
    made: usize,
    differs: Option<u32>,
    ended: bool,
    closings: u64,
    closed: ClosedSockets,
    faults: u64,
    of: PhantomData<R>,
    ghost within: { made ≤ length entries.items },
    ghost few: { length R.recorded < 4294967295 },
    ghost fits: { list_all fits_entry R.recorded ≡ true },
    ghost follows: { Follows R.recorded entries.items made differs },
}

/// What a call is answered that isn't recorded.
fn unrecorded(call: &Call) -> Told
    ensures value { result ≡ unrecorded call.now }
    ensures fits { Fits call.now result }
{
    match call {
        Call::Check { .. } => Told::No,
        Call::ReadReady { .. } | Call::WriteReady { .. } => Told::Pending,
        Call::Hand { .. }
        | Call::Refuse { .. }
        | Call::Shutdown { .. }
        | Call::Close { .. }
        | Call::Made { .. } => Told::Done,
        Call::Lookup { .. }
        | Call::TcpCreate { .. }
        | Call::UdpCreate { .. }
        | Call::UdpWritable { .. }
        | Call::Local { .. }
        | Call::Peer { .. }
        | Call::Bind { .. }
        | Call::UdpBind { .. }
        | Call::UdpConnect { .. }
        | Call::Listen { .. }
        | Call::SetBacklog { .. }
        | Call::Connect { .. }
        | Call::Accept { .. }
        | Call::Read { .. }
        | Call::Write { .. }
        | Call::UdpDisconnect { .. }
        | Call::Send { .. }
        | Call::Recv { .. }
        | Call::GetOption { .. }
        | Call::SetOption { .. } => Told::Code(ErrorCode::Other),
    }
}

/// A copy of the answer at this place. Takes memory for it.
fn answer_at(entries: &[Entry], place: usize) -> Result<Told, AllocError>
    requires { place < length entries.now }
    ensures { IfOk result (λ told. IfSome (slice_get entries.now place) (λ e. e.answer ≡ told)) }
{
    entries[place].answer.try_clone()
}

/// What a write takes in place of what is recorded at this place, where it doesn't offer those
/// bytes first. Takes memory for it.
fn other_front(
    alloc: Global,
    entries: &[Entry],
    place: usize,
    bytes: &[u8],
) -> Result<Option<Told>, AllocError>
    requires { IfSome (slice_get entries.now place) (λ e. IsWritten (length bytes.now) e.answer) }
    ensures none { result ≡ Ok None → IfSome (slice_get entries.now place) (λ e. IsFront e.answer
        bytes.now) }
    ensures other { IfOk result (λ o. IfSome o (λ told. IfSome (slice_get entries.now place) (λ e.
        TookOthers e.answer told))) }
    ensures front { IfOk result (λ o. IfSome o (λ told. IsFront told bytes.now)) }
    ensures fits { IfOk result (λ o. IfSome o (λ told. IsWritten (length bytes.now) told)) }
{
    match entries.get(place) {
        Some(entry) => other_taken(alloc, &entry.answer, bytes),
        None => Ok(None),
    }
}

/// The same, of a recorded answer.
fn other_taken(alloc: Global, recorded: &Told, bytes: &[u8]) -> Result<Option<Told>, AllocError>
    requires { IsWritten (length bytes.now) recorded.now }
    ensures none { result ≡ Ok None → IsFront recorded.now bytes.now }
    ensures other { IfOk result (λ o. IfSome o (λ told. TookOthers recorded.now told)) }
    ensures front { IfOk result (λ o. IfSome o (λ told. IsFront told bytes.now)) }
    ensures fits { IfOk result (λ o. IfSome o (λ told. IsWritten (length bytes.now) told)) }
{
    match recorded {
        Told::Took(taken) => {
            let front = &bytes[..taken.len()];
            if taken.as_slice() == front {
                return Ok(None);
            }
            let front = Octets::copy_of(alloc, front)?;
            Ok(Some(Told::Took(front)))
        }
        _ => Ok(None),
    }
}

/// Where a log differs that has another call at this place: there, if it didn't before.
fn first_place(differs: Option<u32>, place: usize) -> u32
    requires { differs ≡ None → place < 2 ^ 32 }
    ensures { result ≡ unwrap_or differs place }
{
    match differs {
        Some(first) => first,
        None => place as u32,
    }
}

/// Puts an entry at this place, after which there is none. Takes memory for it.
fn put_last(entries: &mut Vec<Entry>, place: usize, entry: Entry) -> Result<(), AllocError>
    ensures ok { OnOk result (entries.new.items ≡ take place entries.old.items ++ entry ∷ []) }
    ensures err { OnErr result (entries.new.items ≡ entries.old.items) }
{
    entries.reserve(1)?;
    entries.truncate(place);
    entries.push_reserved(entry);
    Ok(())
}

/// Whether this entry is of this call.
fn is_recorded(recorded: Option<&Entry>, op: OpId, call: &Call) -> bool
    ensures { IsTrue result ↔ IsRecorded (option_copied recorded.entry) op call.now }
{
    match recorded {
        Some(recorded) => recorded.op == op && same_call(&recorded.call, call),
        None => false,
    }
}

/// Counts an answer that is a code.
pub(crate) fn count_code(faults: &mut u64, told: &Told)
    ensures { Counts told.now faults.old faults.new }
{
    if let Told::Code(_) = told {
        *faults = faults.saturating_add(1);
    }
}

impl<R: Recorded> ReplayWorld<R> {
    /// A world that answers from these entries, each of which fits. Takes no memory.
    pub fn new(recorded: Vec<Entry>) -> ReplayWorld<R>
        requires recorded { recorded.items ≡ R.recorded }
        requires few { length recorded.items < 4294967295 }
        requires fits { list_all fits_entry recorded.items ≡ true }
        ensures { seen_of (take result.made result.entries.items) result.ended result.closings
            result.faults ≡ seen_of [] false 0 0 }
    {
        let closed = ClosedSockets::new(*recorded.allocator());
        ReplayWorld {
            entries: recorded,
            made: 0,
            differs: None,
            ended: false,
            closings: 0,
            closed,
            faults: 0,
            of: PhantomData,
        }
    }

    /// The calls that were made, with their answers: its own log.
    pub fn entries(&self) -> &[Entry]
        ensures { result.now ≡ take self.now.made self.now.entries.items }
    {
        &self.entries[..self.made]
    }

    /// The place, counted from 0, of the first call that isn't the recorded one. Where there is
    /// none, all calls that were made are the first that are recorded.
    pub fn differs(&self) -> Option<u32>
        ensures { StandsTo R.recorded (take self.now.made self.now.entries.items) result }
    {
        self.differs
    }

    /// Whether the next call that is recorded is this one.
    fn is_next(&self, op: OpId, call: &Call) -> bool
        ensures yes { IsTrue result → (self.now.differs ≡ None)
            × IsRecorded (slice_get self.now.entries.items self.now.made) op call.now }
        ensures no { IsTrue result ⊎ (self.now.differs ≡ None
            → IsRecorded (slice_get self.now.entries.items self.now.made) op call.now → ⊥) }
    {
        self.differs.is_none() && is_recorded(self.entries.get(self.made), op, call)
    }

    /// Answers the next call as recorded. Takes memory for the answer.
    fn follow(&mut self, op: OpId, call: &Call) -> Result<Told, AllocError>
        requires none { self.old.differs ≡ None }
        requires next { IsRecorded (slice_get self.old.entries.items self.old.made) op call.now }
        ensures told { IfOk result (λ told. slice_get self.old.entries.items self.old.made
            ≡ Some (entry op call.now told)) }
        ensures passed { IfOk result (λ told. Passes (seen_of (take self.old.made
            self.old.entries.items) self.old.ended self.old.closings self.old.faults)
            (entry op call.now told ∷ []) (seen_of (take self.new.made self.new.entries.items)
            self.new.ended self.new.closings self.new.faults)) }
        ensures fits { IfOk result (λ told. Fits call.now told) }
        ensures err { OnErr result (seen_of (take self.new.made self.new.entries.items)
            self.new.ended self.new.closings self.new.faults ≡ seen_of (take self.old.made
            self.old.entries.items) self.old.ended self.old.closings self.old.faults) }
    {
        let told = answer_at(self.entries.as_slice(), self.made)?;
        count_code(&mut self.faults, &told);
        self.made += 1;
        Ok(told)
    }

    /// Answers a call that isn't the recorded one. Takes memory for it and its answer.
    fn depart(&mut self, op: OpId, call: Call, told: Told) -> Result<Told, AllocError>
        requires other { (r : Entry) → self.old.differs ≡ None → slice_get self.old.entries.items
            self.old.made ≡ Some r → op ≡ r.op → call ≡ r.call → TookOthers r.answer told }
        requires fits { Fits call told }
        ensures told { IfOk result (λ answer. answer ≡ told) }
        ensures passed { IfOk result (λ answer. Passes (seen_of (take self.old.made
            self.old.entries.items) self.old.ended self.old.closings self.old.faults)
            (entry op call answer ∷ []) (seen_of (take self.new.made self.new.entries.items)
            self.new.ended self.new.closings self.new.faults)) }
        ensures fits { IfOk result (λ answer. Fits call answer) }
        ensures err { OnErr result (seen_of (take self.new.made self.new.entries.items)
            self.new.ended self.new.closings self.new.faults ≡ seen_of (take self.old.made
            self.old.entries.items) self.old.ended self.old.closings self.old.faults) }
    {
        let answer = told.try_clone()?;
        let place = self.made;
        put_last(&mut self.entries, place, Entry { op, call, answer })?;
        count_code(&mut self.faults, &told);
        self.differs = Some(first_place(self.differs, place));
        self.made = place + 1;
        Ok(told)
    }
}

impl<R: Recorded> World for ReplayWorld<R> {
    ghost use Rattle.std.specs.Prelude.{Some, take};
    ghost use Rattle.wasi_world.specs.Script.{without_plan};
    ghost use Rattle.wasi_replay.specs.Replayed.{seen_of};

    ghost seen = { λ world. seen_of (take world.made world.entries.items) world.ended
        world.closings world.faults };

    ghost closed = { λ world. world.closed };

    ghost scripted = { λ world. without_plan (Some (take world.made world.entries.items)) };

    fn call(&mut self, op: OpId, call: Call) -> Result<Told, AllocError> {
        if self.is_next(op, &call) {
            return self.follow(op, &call);
        }
        let told = unrecorded(&call);
        self.depart(op, call, told)
    }

    fn write(&mut self, op: OpId, sock: Sock, bytes: &[u8]) -> Result<Told, AllocError> {
        let offered = bytes.len() as u32;
        let call = Call::Write { sock, offered };
        if !self.is_next(op, &call) {
            let told = unrecorded(&call);
            return self.depart(op, call, told);
        }
        let alloc = *self.entries.allocator();
        match other_front(alloc, self.entries.as_slice(), self.made, bytes) {
            Ok(Some(told)) => self.depart(op, call, told),
            Ok(None) => self.follow(op, &call),
            Err(e) => Err(e),
        }
    }

    fn send(
        &mut self,
        op: OpId,
        sock: Sock,
        addr: IpSocketAddress,
        bytes: &[u8],
    ) -> Result<Told, AllocError> {
        let bytes = Octets::copy_of(*self.entries.allocator(), bytes)?;
        let call = Call::Send { sock, addr, bytes };
        if self.is_next(op, &call) {
            return self.follow(op, &call);
        }
        let told = unrecorded(&call);
        self.depart(op, call, told)
    }

    fn end(&mut self) {
        self.ended = true;
        self.closed = ClosedSockets::new(*self.entries.allocator());
    }

    fn close_after_end(&mut self, sock: Sock) {
        self.closings = self.closings.saturating_add(1);
        self.closed.close(sock);
    }
}
