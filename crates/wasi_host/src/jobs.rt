//! The host's background work, and its turn.

ghost use Rattle.std.specs.Prelude.{◌≡◌, [], false, IfOk};
ghost use Rattle.wasi_world.specs.Asks.{AsksFor};
ghost use Rattle.wasi_records.specs.Records.{tcp2_at, open_at, lookup_at};
ghost use Rattle.lookup_records.specs.NameLookup.{looks_on};
ghost use Rattle.wasi_records.specs.Records.{turn_lookup_at};
ghost use Rattle.wasi_jobs.specs.declared.job.HostJob.{HostJob};
ghost use Rattle.host_store.specs.Jobs.{turn_at, turn_datagram_at, turn_receive_at, sends_on, receives_on, turn_job, turn_jobs, turn_store_asks, is_going};
ghost use Rattle.tcp_records.specs.Halves.{has_job};
ghost use Rattle.wasi_host.specs.Turns.{turn_machine_asks};
ghost use Rattle.host_store.specs.KnownSides.{KnowsSides};
ghost use Rattle.record_common.specs.Sides.{MakesNone};
ghost use Rattle.wasi_records.specs.Sides.{held_in};
ghost use Rattle.host_store.specs.Views.{SameView, state_of};

use host_store::{Store, WasiSocketsCtxView};
use lookup_records::Lookup;
use std::alloc::AllocError;
use tcp_records::TcpRecord;
use udp_records::OpenUdp;
use wasi_jobs::{HostJob, JobList, Listed};
use wasi_records::{RecordId, RecordList, SlotKey, find_mut_in};
use wasi_world::World;

/// Polls the write of the TCP socket with this record number once, if one is in progress. Returns
/// whether it still is.
fn turn_socket<W: World>(
    records: &mut RecordList,
    world: &mut W,
    slot: SlotKey,
    place: RecordId,
) -> Result<bool, AllocError>
    requires { (W.seen world.old).ended ≡ false }
    ensures asked { AsksFor (turn_at records.old.items place (tcp2_at records.old.items place))
        (W.seen world.old) (W.seen world.new) (λ goes_on. records.new.items) result }
    ensures goes_on { IfOk result (λ goes_on. goes_on ≡ has_job (tcp2_at records.new.items place)) }
    ensures held { held_in records.new.items ≡ held_in records.old.items }
    ensures none { MakesNone (W.seen world.old) (W.seen world.new) }
{
    let Some(record) = find_mut_in::<TcpRecord>(records, slot, place) else {
        return Ok(false);
    };
    record.turn(world)?;
    Ok(record.has_job())
}

/// Polls the send in the background of the UDP socket with this record number once, if there is
/// one. Returns whether it is still in progress.
fn turn_datagram<W: World>(
    records: &mut RecordList,
    world: &mut W,
    slot: SlotKey,
    place: RecordId,
) -> Result<bool, AllocError>
    requires { (W.seen world.old).ended ≡ false }
    ensures asked { AsksFor (turn_datagram_at records.old.items place
        (open_at records.old.items place)) (W.seen world.old) (W.seen world.new)
        (λ goes_on. records.new.items) result }
    ensures goes_on { IfOk result (λ goes_on. goes_on ≡ sends_on
        (open_at records.new.items place)) }
    ensures held { held_in records.new.items ≡ held_in records.old.items }
    ensures none { MakesNone (W.seen world.old) (W.seen world.new) }
{
    let Some(socket) = find_mut_in::<OpenUdp>(records, slot, place) else {
        return Ok(false);
    };
    socket.turn_outgoing(world)?;
    Ok(socket.sends())
}

/// Polls the receive of the UDP socket with this record number once, if one is in progress. Returns
/// whether it still is.
fn turn_receive<W: World>(
    records: &mut RecordList,
    world: &mut W,
    slot: SlotKey,
    place: RecordId,
) -> Result<bool, AllocError>
    requires { (W.seen world.old).ended ≡ false }
    ensures asked { AsksFor (turn_receive_at records.old.items place
        (open_at records.old.items place)) (W.seen world.old) (W.seen world.new)
        (λ goes_on. records.new.items) result }
    ensures goes_on { IfOk result (λ goes_on. goes_on ≡ receives_on
        (open_at records.new.items place)) }
    ensures held { held_in records.new.items ≡ held_in records.old.items }
    ensures none { MakesNone (W.seen world.old) (W.seen world.new) }
{
    let Some(socket) = find_mut_in::<OpenUdp>(records, slot, place) else {
        return Ok(false);
    };
    socket.turn_incoming(world)?;
    Ok(socket.receives())
}

/// Asks the network again about the lookup with this record number, if it is in progress. Returns
/// whether it still is.
fn turn_lookup<W: World>(
    records: &mut RecordList,
    world: &mut W,
    slot: SlotKey,
    place: RecordId,
) -> Result<bool, AllocError>
    requires { (W.seen world.old).ended ≡ false }
    ensures asked { AsksFor (turn_lookup_at records.old.items place
        (lookup_at records.old.items place)) (W.seen world.old) (W.seen world.new)
        (λ goes_on. records.new.items) result }
    ensures goes_on { IfOk result (λ goes_on. goes_on ≡ looks_on
        (lookup_at records.new.items place)) }
    ensures held { held_in records.new.items ≡ held_in records.old.items }
    ensures none { MakesNone (W.seen world.old) (W.seen world.new) }
{
    let Some(lookup) = find_mut_in::<Lookup>(records, slot, place) else {
        return Ok(false);
    };
    lookup.turn(world)?;
    Ok(lookup.is_in_progress())
}

/// Polls a job once, and returns whether it goes on. Its record is looked for in its slot first.
fn turn_job<W: World>(
    records: &mut RecordList,
    world: &mut W,
    listed: Listed,
) -> Result<bool, AllocError>
    requires { (W.seen world.old).ended ≡ false }
    ensures asked { AsksFor (turn_job records.old.items listed.job) (W.seen world.old)
        (W.seen world.new) (λ goes_on. records.new.items) result }
    ensures goes_on { IfOk result (λ goes_on. goes_on ≡ is_going records.new.items listed.job) }
    ensures held { held_in records.new.items ≡ held_in records.old.items }
    ensures none { MakesNone (W.seen world.old) (W.seen world.new) }
{
    let slot = listed.slot;
    match listed.job {
        HostJob::Write { socket } => turn_socket(records, world, slot, socket),
        HostJob::Datagram { socket } => turn_datagram(records, world, slot, socket),
        HostJob::Receive { socket } => turn_receive(records, world, slot, socket),
        HostJob::Lookup { lookup } => turn_lookup(records, world, slot, lookup),
    }
}

/// Polls each of these jobs once, in the order of making, and takes out those that are over.
fn turn_jobs<W: World>(
    records: &mut RecordList,
    world: &mut W,
    jobs: &mut JobList,
) -> Result<(), AllocError>
    requires { (W.seen world.old).ended ≡ false }
    ensures asked { AsksFor (turn_jobs [] jobs.old.items records.old.items) (W.seen world.old)
        (W.seen world.new) (λ done. (jobs.new.items, records.new.items)) result }
    ensures held { held_in records.new.items ≡ held_in records.old.items }
    ensures none { MakesNone (W.seen world.old) (W.seen world.new) }
{
    let mut next = 0;
    while let Some(listed) = jobs.first_from(next) {
        let goes_on = turn_job(records, world, listed)?;
        if !goes_on {
            jobs.remove(listed.number);
        }
        next = listed.number + 1;
    }
    Ok(())
}

/// Polls each job once, in the order of making, and takes out those that are over.
pub(crate) fn turn_store<W: World>(store: &mut Store, world: &mut W) -> Result<(), AllocError>
    requires { (W.seen world.old).ended ≡ false }
    ensures asked { AsksFor (turn_store_asks store.old) (W.seen world.old) (W.seen world.new)
        (λ done. (done, store.new)) result }
    ensures sides { KnowsSides (W.seen world.old) store.old
        → KnowsSides (W.seen world.new) store.new }
{
    turn_jobs(&mut store.records, world, &mut store.jobs)
}

/// Lets the host's background work go on: polls each job once, in the order of making. It begins no
/// operation: what a job asks has the job's name.
pub fn turn<W: World>(view: &mut WasiSocketsCtxView<'_>, world: &mut W) -> Result<(), AllocError>
    requires { (W.seen world.old).ended ≡ false }
    ensures asked { AsksFor (turn_machine_asks (state_of view.old)) (W.seen world.old)
        (W.seen world.new) (λ done. (done, state_of view.new)) result }
    ensures sides { KnowsSides (W.seen world.old) view.old.store.now
        → KnowsSides (W.seen world.new) view.new.store.now }
    ensures view { SameView view.old view.new }
{
    turn_store(view.store, world)
}
