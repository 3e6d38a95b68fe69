//! The table of handles: what one stands for, and how one is made. A handle that isn't live, or is
//! of another kind, is the trap `NoSuchHandle`.

ghost use Rattle.std.specs.Prelude.{◌≡◌, ℕ, IfErr, IfOk, IfSome, IsSome, Ok, OnErr, OnOk, false, true};
ghost use Rattle.wasi_world.specs.Asks.{AsksFor};
ghost use Rattle.wasi_table.specs.Table.{is_full, pushed};
ghost use Rattle.record_common.specs.Stops.{fault_outcome};
ghost use Rattle.host_store.specs.Store.{Records};
ghost use Rattle.host_store.specs.KnownSides.{KnowsSides};
ghost use Rattle.host_store.specs.Kinds.{kind_at, place_of, udp_of, tcp3_of, udp3_of, incoming_of, outgoing_of, lookup_of, is_network, is_error, listen3_of, receive3_of, send3_of, result3_of, plain_output_of, watched_by, watch_of, table_parent, make_asks, taken_out, Names};

use crate::kind::{ConnectionEnd, Kind, PlainOutput, Watched};
use std::alloc::AllocError;
use wasi_records::RecordId;
use wasi_streams::{Fault, TrapKind};
use wasi_table::{Table, TableError};
use wasi_world::{Handle, OpId, Sock, World, asks};

/// What a live handle stands for; `None` where it isn't live.
pub fn kind(table: &Table<Kind>, handle: Handle) -> Option<Kind>
    ensures { result ≡ kind_at table.now handle }
{
    match table.get(handle) {
        Ok(kind) => Some(*kind),
        Err(_) => None,
    }
}

/// The record number of a TCP socket.
pub fn tcp_socket(table: &Table<Kind>, handle: Handle) -> Result<RecordId, Fault>
    ensures { Names result (place_of (kind_at table.now handle)) }
{
    match kind(table, handle) {
        Some(Kind::Tcp2(place)) => Ok(place),
        _ => Err(Fault::Trap(TrapKind::NoSuchHandle)),
    }
}

/// The record number of a UDP socket.
pub fn udp_socket(table: &Table<Kind>, handle: Handle) -> Result<RecordId, Fault>
    ensures { Names result (udp_of (kind_at table.now handle)) }
{
    match kind(table, handle) {
        Some(Kind::Udp2(place)) => Ok(place),
        _ => Err(Fault::Trap(TrapKind::NoSuchHandle)),
    }
}

/// The record number of a TCP socket of 0.3.
pub fn tcp3_socket(table: &Table<Kind>, handle: Handle) -> Result<RecordId, Fault>
    ensures { Names result (tcp3_of (kind_at table.now handle)) }
{
    match kind(table, handle) {
        Some(Kind::Tcp3(place)) => Ok(place),
        _ => Err(Fault::Trap(TrapKind::NoSuchHandle)),
    }
}

/// The record number of a UDP socket of 0.3.
pub fn udp3_socket(table: &Table<Kind>, handle: Handle) -> Result<RecordId, Fault>
    ensures { Names result (udp3_of (kind_at table.now handle)) }
{
    match kind(table, handle) {
        Some(Kind::Udp3(place)) => Ok(place),
        _ => Err(Fault::Trap(TrapKind::NoSuchHandle)),
    }
}

/// The record number of a listener's socket, of 0.3.
pub fn listener3(table: &Table<Kind>, handle: Handle) -> Result<RecordId, Fault>
    ensures { Names result (listen3_of (kind_at table.now handle)) }
{
    match kind(table, handle) {
        Some(Kind::Listen3(place)) => Ok(place),
        _ => Err(Fault::Trap(TrapKind::NoSuchHandle)),
    }
}

/// A read end of 0.3.
pub fn receive3(table: &Table<Kind>, handle: Handle) -> Result<ConnectionEnd, Fault>
    ensures { Names result (receive3_of (kind_at table.now handle)) }
{
    match kind(table, handle) {
        Some(Kind::Receive3(end)) => Ok(end),
        _ => Err(Fault::Trap(TrapKind::NoSuchHandle)),
    }
}

/// A write end of 0.3.
pub fn send3(table: &Table<Kind>, handle: Handle) -> Result<ConnectionEnd, Fault>
    ensures { Names result (send3_of (kind_at table.now handle)) }
{
    match kind(table, handle) {
        Some(Kind::Send3(end)) => Ok(end),
        _ => Err(Fault::Trap(TrapKind::NoSuchHandle)),
    }
}

/// The record number of a result slot of 0.3.
pub fn result3(table: &Table<Kind>, handle: Handle) -> Result<RecordId, Fault>
    ensures { Names result (result3_of (kind_at table.now handle)) }
{
    match kind(table, handle) {
        Some(Kind::Result3(slot)) => Ok(slot),
        _ => Err(Fault::Trap(TrapKind::NoSuchHandle)),
    }
}

/// Tests that the handle is the network's.
pub fn network(table: &Table<Kind>, handle: Handle) -> Result<(), Fault>
    ensures ok { OnOk result (is_network (kind_at table.now handle) ≡ true) }
    ensures err { IfErr result (λ fault. (fault ≡ Fault.Trap TrapKind.NoSuchHandle)
        × (is_network (kind_at table.now handle) ≡ false)) }
{
    match kind(table, handle) {
        Some(Kind::Network) => Ok(()),
        _ => Err(Fault::Trap(TrapKind::NoSuchHandle)),
    }
}

/// What an output in memory writes to; `None` where the handle is of another kind.
pub fn plain_output(table: &Table<Kind>, handle: Handle) -> Option<PlainOutput>
    ensures { result ≡ plain_output_of (kind_at table.now handle) }
{
    match kind(table, handle) {
        Some(Kind::PlainOutput(output)) => Some(output),
        _ => None,
    }
}

/// The record number of the UDP socket of an incoming datagram stream.
pub fn incoming(table: &Table<Kind>, handle: Handle) -> Result<RecordId, Fault>
    ensures { Names result (incoming_of (kind_at table.now handle)) }
{
    match kind(table, handle) {
        Some(Kind::Incoming(place)) => Ok(place),
        _ => Err(Fault::Trap(TrapKind::NoSuchHandle)),
    }
}

/// The record number of the UDP socket of an outgoing datagram stream.
pub fn outgoing(table: &Table<Kind>, handle: Handle) -> Result<RecordId, Fault>
    ensures { Names result (outgoing_of (kind_at table.now handle)) }
{
    match kind(table, handle) {
        Some(Kind::Outgoing(place)) => Ok(place),
        _ => Err(Fault::Trap(TrapKind::NoSuchHandle)),
    }
}

/// The record number of a lookup.
pub fn lookup(table: &Table<Kind>, handle: Handle) -> Result<RecordId, Fault>
    ensures { Names result (lookup_of (kind_at table.now handle)) }
{
    match kind(table, handle) {
        Some(Kind::Lookup(place)) => Ok(place),
        _ => Err(Fault::Trap(TrapKind::NoSuchHandle)),
    }
}

/// Tests that the handle is an error's.
pub fn error_value(table: &Table<Kind>, handle: Handle) -> Result<(), Fault>
    ensures ok { OnOk result (is_error (kind_at table.now handle) ≡ true) }
    ensures err { IfErr result (λ fault. (fault ≡ Fault.Trap TrapKind.NoSuchHandle)
        × (is_error (kind_at table.now handle) ≡ false)) }
{
    match kind(table, handle) {
        Some(Kind::ErrorValue) => Ok(()),
        _ => Err(Fault::Trap(TrapKind::NoSuchHandle)),
    }
}

/// What a pollable made for this handle watches.
pub fn watched(table: &Table<Kind>, handle: Handle) -> Result<Watched, Fault>
    ensures { Names result (watched_by (kind_at table.now handle)) }
{
    match kind(table, handle) {
        Some(Kind::Tcp2(place)) => Ok(Watched::Socket(place)),
        Some(Kind::Udp2(place)) => Ok(Watched::Udp(place)),
        Some(Kind::Input(place)) => Ok(Watched::Input(place)),
        Some(Kind::Output(place)) => Ok(Watched::Output(place)),
        Some(Kind::Incoming(place)) => Ok(Watched::Incoming(place)),
        Some(Kind::Outgoing(place)) => Ok(Watched::Outgoing(place)),
        Some(Kind::Lookup(place)) => Ok(Watched::Lookup(place)),
        Some(Kind::PlainInput(_) | Kind::PlainOutput(_)) => Ok(Watched::Plain),
        _ => Err(Fault::Trap(TrapKind::NoSuchHandle)),
    }
}

/// What the pollable with this handle watches.
pub fn watch(table: &Table<Kind>, handle: Handle) -> Result<Watched, Fault>
    ensures { Names result (watch_of (kind_at table.now handle)) }
{
    match kind(table, handle) {
        Some(Kind::Pollable(watched)) => Ok(watched),
        _ => Err(Fault::Trap(TrapKind::NoSuchHandle)),
    }
}

/// Takes a handle out of the table. A handle that has a live child: `HasChildren`.
pub fn remove(table: &mut Table<Kind>, handle: Handle) -> Result<Kind, Fault>
    ensures told { fault_outcome result ≡ Ok (taken_out table.old handle
        (kind_at table.old handle)).0 }
    ensures table { table.new ≡ (taken_out table.old handle (kind_at table.old handle)).1 }
{
    match table.delete(handle) {
        Ok(kind) => Ok(kind),
        Err(TableError::HasChildren) => Err(Fault::Trap(TrapKind::HasChildren)),
        Err(_) => Err(Fault::Trap(TrapKind::NoSuchHandle)),
    }
}

/// Puts a new handle into the table, under its parent, if it has one. There must be room and the
/// parent live, so that only running out of memory refuses it.
fn put(table: &mut Table<Kind>, kind: Kind, parent: Option<Handle>) -> Result<Handle, AllocError>
    requires room { is_full table.old ≡ false }
    requires parent { IfSome parent (λ p. IsSome (kind_at table.old p)) }
    ensures ok { IfOk result (λ h. (h ≡ table.old.next) × (table.new
        ≡ pushed table.old kind parent)) }
    ensures err { OnErr result (table.new ≡ table.old) }
{
    let pushed = match parent {
        Some(parent) => table.push_child(kind, parent),
        None => table.push(kind),
    };
    match pushed {
        Ok(handle) => Ok(handle),
        Err(TableError::Memory) => Err(AllocError),
        Err(_) => unreachable!(),
    }
}

/// Makes a handle, and logs it. A full table: `Trap(Full)`, and nothing is asked. A parent in the
/// table must be live.
pub fn make<W: World>(
    table: &mut Table<Kind>,
    world: &mut W,
    op: OpId,
    kind: Kind,
    parent: Option<Handle>,
    side: Option<Sock>,
) -> Result<Handle, Fault>
    requires open { (W.seen world.old).ended ≡ false }
    requires parent { IfSome (table_parent kind parent) (λ p. IsSome (kind_at table.old p)) }
    ensures asked { AsksFor (make_asks table.old op kind parent side) (W.seen world.old)
        (W.seen world.new) (λ made. (made, table.new)) (fault_outcome result) }
    ensures stay { (h : ℕ) → IsSome (kind_at table.old h) → IsSome (kind_at table.new h) }
    ensures live { IfOk result (λ h. IsSome (kind_at table.new h)) }
    ensures sides { (store : Records) → KnowsSides (W.seen world.old) store
        → KnowsSides (W.seen world.new) store }
{
    if table.is_full() {
        return Err(Fault::Trap(TrapKind::Full));
    }
    asks::made(world, op, table.next(), kind.name(), parent, side)?;
    let handle = put(table, kind, kind.table_parent(parent))?;
    Ok(handle)
}
