//! Waiting for pollables (`wasi:io/poll`). A call that finds none of them ready is pending, and
//! looks again when it is [resumed](crate::resume).

ghost use Rattle.std.specs.Prelude.{◌≡◌, ◌+◌, ◌<◌, ◌^◌, false, true, length, IfOk, OnOk, OnErr, [], ◌∷◌, ◌++◌, ◌≤◌};
ghost use Rattle.wasi_world.specs.Asks.{AsksFor};
ghost use Rattle.wasi_world.specs.Seen.{Seen};
ghost use Rattle.record_common.specs.Stops.{fault_outcome};
ghost use Rattle.tcp_records.specs.Listening.{TakesOne};
ghost use Rattle.wasi_host.specs.Polling.{begins_on, look_at_pollable, ids_after_look, found_of, is_ready, look_each, ready_places, poll_by, pollables_in, poll_asks, block_by, blocked_answer, blocked_store};
ghost use Rattle.host_store.specs.KnownSides.{KnowsSides};
ghost use Rattle.host_store.specs.Views.{SameView, state_of};

use crate::pollables::ready;
use host_store::{BlockingCall, Kind, Store, WasiSocketsCtxView, Watched, handles};
use std::alloc::{AllocError, Global};
use std::collections::BTreeMap;
use std::marker::Model;
use tcp_records::TcpRecord;
use udp_records::OpenUdp;
use wasi_records::find;
use wasi_streams::{Fault, TrapKind};
use wasi_table::Table;
use wasi_world::{Answer, Handle, Ids, NumberList, World};

/// When a call looks at its pollables.
#[derive(Clone, Copy)]
pub enum Look {
    /// In the line that makes the call. It begins an accept or a receive where none was begun.
    First,
    /// In a line that polls the call. It begins nothing: where an accept or a receive would have to
    /// begin, another call took what was waited for, and the pollable counts as ready.
    Later,
}

/// What the looks at pollables found, in their order. A map beside them finds a pollable in a time
/// that grows with the logarithm of how many were looked at.
#[derive(Drop)]
pub struct Found {
    looks: Vec<(Handle, bool)>,
    /// What the first look at each pollable found.
    first: BTreeMap<Handle, bool>,
}

impl Model for Found {
    ghost use Rattle.std.specs.Prelude.{List, ℕ, Bool};

    ghost Value = { List (ℕ × Bool) };

    ghost use Rattle.wasi_host.specs.FoundMap.{KeepsFirst};

    ghost view = { λ found. found.looks.items };

    ghost invariant = { λ found. KeepsFirst found.looks.items found.first.entries };
}

impl Found {
    fn new(alloc: Global) -> Found
        ensures { result ≡ [] }
    {
        Found {
            looks: Vec::new(alloc),
            first: BTreeMap::new(alloc),
        }
    }

    /// Whether a pollable was found ready; `None` where it wasn't looked at.
    fn of(&self, pollable: Handle) -> Option<bool>
        ensures { result ≡ found_of self.now pollable }
    {
        self.first.get(&pollable).copied()
    }

    /// Adds a look. Takes memory for it; out of memory what was found stays as it is.
    fn push(&mut self, pollable: Handle, ready: bool) -> Result<(), AllocError>
        ensures ok { OnOk result (self.new ≡ self.old ++ (pollable, ready) ∷ []) }
        ensures err { OnErr result (self.new ≡ self.old) }
    {
        self.looks.reserve(1)?;
        // What the first look found stays.
        if !self.first.contains_key(&pollable) {
            self.first.insert(pollable, ready)?;
        }
        self.looks.push_reserved((pollable, ready));
        Ok(())
    }

    /// Whether a pollable was looked at and found ready.
    fn is_ready(&self, pollable: Handle) -> bool
        ensures { result ≡ is_ready (found_of self.now pollable) }
    {
        matches!(self.of(pollable), Some(true))
    }

    /// The places in this list of those that were found ready. Takes memory for them.
    fn ready_places(&self, alloc: Global, pollables: &[Handle]) -> Result<NumberList, AllocError>
        requires { length pollables.now < 2 ^ 32 }
        ensures { IfOk result (λ places. places ≡ ready_places self.now 0 pollables.now) }
    {
        let mut places = Vec::new(alloc);
        for (place, pollable) in pollables.iter().enumerate() {
            if self.is_ready(*pollable) {
                places.push(place as u32)?;
            }
        }
        Ok(NumberList::from_vec(places))
    }
}

/// Whether a look at what is watched would begin an accept or a receive.
fn would_begin(store: &Store, watched: Watched) -> bool
    ensures { result ≡ begins_on store.now (Some watched) }
{
    match watched {
        Watched::Socket(place) => match find::<TcpRecord>(&store.records, place) {
            Some(record) => record.would_accept(),
            None => false,
        },
        Watched::Incoming(place) => match find::<OpenUdp>(&store.records, place) {
            Some(socket) => socket.would_receive(),
            None => false,
        },
        Watched::Input(_)
        | Watched::Output(_)
        | Watched::Udp(_)
        | Watched::Outgoing(_)
        | Watched::Lookup(_)
        | Watched::Plain => false,
    }
}

/// Answers a wait for one pollable after a look at it: ready, or the call is stored as pending.
fn block_unless(store: &mut Store, ids: Ids, pollable: Handle, ready: bool) -> Answer<()>
    ensures answer { result ≡ blocked_answer ready }
    ensures state { store.new ≡ blocked_store store.old ids pollable ready }
    ensures sides { (s : Seen) → KnowsSides s store.old → KnowsSides s store.new }
{
    if ready {
        return Answer::Ready(());
    }
    store.block_as(ids, BlockingCall::Block { pollable })
}

/// A look in a line that polls a call: what would begin an accept or a receive is ready.
fn look_again<W: World>(
    view: &mut WasiSocketsCtxView<'_>,
    world: &mut W,
    ids: Ids,
    pollable: Handle,
) -> Result<bool, Fault>
    requires open { (W.seen world.old).ended ≡ false }
    requires names { ids.next_part + 1 < 2 ^ 64 }
    ensures asked { AsksFor (look_at_pollable Look.Later (state_of view.old) ids pollable)
        (W.seen world.old) (W.seen world.new) (λ ready. (ready, state_of view.new))
        (fault_outcome result) }
    ensures sides { KnowsSides (W.seen world.old) view.old.store.now
        → KnowsSides (W.seen world.new) view.new.store.now }
    ensures view { SameView view.old view.new }
{
    let watched = handles::watch(view.table, pollable)?;
    if would_begin(view.store, watched) {
        return Ok(true);
    }
    let mut ids = ids;
    ready(view, world, &mut ids, pollable)
}

/// Looks once at a pollable.
fn look_at<W: World>(
    view: &mut WasiSocketsCtxView<'_>,
    world: &mut W,
    ids: &mut Ids,
    look: Look,
    pollable: Handle,
) -> Result<bool, Fault>
    requires open { (W.seen world.old).ended ≡ false }
    requires names { ids.old.next_part + 1 < 2 ^ 64 }
    ensures asked { AsksFor (look_at_pollable look (state_of view.old) ids.old pollable)
        (W.seen world.old) (W.seen world.new) (λ ready. (ready, state_of view.new))
        (fault_outcome result) }
    ensures sides { KnowsSides (W.seen world.old) view.old.store.now
        → KnowsSides (W.seen world.new) view.new.store.now }
    ensures view { SameView view.old view.new }
    ensures taken { TakesOne ids.old ids.new }
    ensures names { IfOk (fault_outcome result) (λ ready. ids.new
        ≡ ids_after_look look (state_of view.old) ids.old pollable) }
{
    match look {
        Look::First => ready(view, world, ids, pollable),
        Look::Later => look_again(view, world, *ids, pollable),
    }
}

/// Looks once at each of the pollables, in the order of their first places.
fn look_each<W: World>(
    alloc: Global,
    view: &mut WasiSocketsCtxView<'_>,
    world: &mut W,
    ids: &mut Ids,
    look: Look,
    pollables: &[Handle],
) -> Result<Found, Fault>
    requires open { (W.seen world.old).ended ≡ false }
    requires names { ids.old.next_part + length pollables.now < 2 ^ 64 }
    ensures asked { AsksFor (look_each look pollables.now (state_of view.old) ids.old [])
        (W.seen world.old) (W.seen world.new) (λ found. (found, state_of view.new))
        (fault_outcome result) }
    ensures sides { KnowsSides (W.seen world.old) view.old.store.now
        → KnowsSides (W.seen world.new) view.new.store.now }
    ensures view { SameView view.old view.new }
    ensures line { ids.new.line ≡ ids.old.line }
    ensures forth { ids.old.next_part ≤ ids.new.next_part }
    ensures few { ids.new.next_part ≤ ids.old.next_part + length pollables.now }
{
    let mut found = Found::new(alloc);
    for pollable in pollables {
        if found.of(*pollable).is_none() {
            let ready = look_at(view, world, ids, look, *pollable)?;
            found.push(*pollable, ready)?;
        }
    }
    Ok(found)
}

/// Tests that each handle is a pollable's.
fn test_pollables(table: &Table<Kind>, pollables: &[Handle]) -> Result<(), Fault>
    ensures ok { OnOk result (pollables_in table.now pollables.now ≡ true) }
    ensures err { OnErr result ((pollables_in table.now pollables.now ≡ false)
        × (result ≡ Err (Fault.Trap TrapKind.NoSuchHandle))) }
{
    for pollable in pollables {
        handles::watch(table, *pollable)?;
    }
    Ok(())
}

/// Looks once at each pollable, and returns the places of those that are ready; the call is pending
/// where none is.
pub(crate) fn poll_by<W: World>(
    alloc: Global,
    view: &mut WasiSocketsCtxView<'_>,
    world: &mut W,
    ids: &mut Ids,
    look: Look,
    pollables: NumberList,
) -> Result<Answer<NumberList>, Fault>
    requires open { (W.seen world.old).ended ≡ false }
    requires names { ids.old.next_part + 2 ^ 32 < 2 ^ 64 }
    ensures asked { AsksFor (poll_by look (state_of view.old) ids.old pollables) (W.seen world.old)
        (W.seen world.new) (λ answer. (answer, state_of view.new)) (fault_outcome result) }
    ensures sides { KnowsSides (W.seen world.old) view.old.store.now
        → KnowsSides (W.seen world.new) view.new.store.now }
    ensures view { SameView view.old view.new }
    ensures line { ids.new.line ≡ ids.old.line }
    ensures forth { ids.old.next_part ≤ ids.new.next_part }
    ensures few { ids.new.next_part ≤ ids.old.next_part + length pollables }
{
    if pollables.len() > u32::MAX as usize {
        return Err(Fault::Memory(AllocError));
    }
    let names = *ids;
    let found = look_each(alloc, view, world, ids, look, pollables.as_slice())?;
    let places = found.ready_places(alloc, pollables.as_slice())?;
    if places.is_empty() {
        let call = BlockingCall::Poll { pollables };
        return Ok(view.store.block_as(names, call));
    }
    Ok(Answer::Ready(places))
}

/// Looks once at a pollable; the call is pending where it isn't ready.
pub(crate) fn block_by<W: World>(
    view: &mut WasiSocketsCtxView<'_>,
    world: &mut W,
    ids: &mut Ids,
    look: Look,
    pollable: Handle,
) -> Result<Answer<()>, Fault>
    requires open { (W.seen world.old).ended ≡ false }
    requires names { ids.old.next_part + 1 < 2 ^ 64 }
    ensures asked { AsksFor (block_by look (state_of view.old) ids.old pollable) (W.seen world.old)
        (W.seen world.new) (λ answer. (answer, state_of view.new)) (fault_outcome result) }
    ensures sides { KnowsSides (W.seen world.old) view.old.store.now
        → KnowsSides (W.seen world.new) view.new.store.now }
    ensures view { SameView view.old view.new }
    ensures line { ids.new.line ≡ ids.old.line }
    ensures taken { TakesOne ids.old ids.new }
{
    let names = *ids;
    let ready = look_at(view, world, ids, look, pollable)?;
    Ok(block_unless(view.store, names, pollable, ready))
}

/// Waits until a pollable is ready (`pollable.block`): looks at it once as [`ready`](crate::ready)
/// does, and is pending where it isn't ready. An accept or a receive that the look begins goes on,
/// whatever becomes of the call.
pub fn block<W: World>(
    view: &mut WasiSocketsCtxView<'_>,
    world: &mut W,
    ids: &mut Ids,
    pollable: Handle,
) -> Result<Answer<()>, Fault>
    requires open { (W.seen world.old).ended ≡ false }
    requires names { ids.old.next_part + 1 < 2 ^ 64 }
    ensures asked { AsksFor (block_by Look.First (state_of view.old) ids.old pollable)
        (W.seen world.old) (W.seen world.new) (λ answer. (answer, state_of view.new))
        (fault_outcome result) }
    ensures sides { KnowsSides (W.seen world.old) view.old.store.now
        → KnowsSides (W.seen world.new) view.new.store.now }
    ensures view { SameView view.old view.new }
    ensures line { ids.new.line ≡ ids.old.line }
    ensures taken { TakesOne ids.old ids.new }
{
    block_by(view, world, ids, Look::First, pollable)
}

/// Waits until one of the pollables is ready (`poll`), and returns the places of those that are,
/// counted from 0 and rising.
///
/// - Each pollable is looked at once, though it may stand in the list more than once.
/// - Where none is ready the call is pending.
/// - An empty list: `Trap(EmptyList)`. Every handle is tested before anything is asked.
/// - Takes memory for what the looks find, and for the places. A list of 4,294,967,296 pollables or
///   more is out of memory.
pub fn poll<W: World>(
    alloc: Global,
    view: &mut WasiSocketsCtxView<'_>,
    world: &mut W,
    ids: &mut Ids,
    pollables: NumberList,
) -> Result<Answer<NumberList>, Fault>
    requires open { (W.seen world.old).ended ≡ false }
    requires names { ids.old.next_part + 2 ^ 32 < 2 ^ 64 }
    ensures asked { AsksFor (poll_asks (state_of view.old) ids.old pollables) (W.seen world.old)
        (W.seen world.new) (λ answer. (answer, state_of view.new)) (fault_outcome result) }
    ensures sides { KnowsSides (W.seen world.old) view.old.store.now
        → KnowsSides (W.seen world.new) view.new.store.now }
    ensures view { SameView view.old view.new }
    ensures line { ids.new.line ≡ ids.old.line }
    ensures forth { ids.old.next_part ≤ ids.new.next_part }
    ensures few { ids.new.next_part ≤ ids.old.next_part + length pollables }
{
    if pollables.is_empty() {
        return Err(Fault::Trap(TrapKind::EmptyList));
    }
    test_pollables(view.table, pollables.as_slice())?;
    poll_by(alloc, view, world, ids, Look::First, pollables)
}
