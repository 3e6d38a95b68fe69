//! Pollables, and whether what they watch is ready.

ghost use Rattle.std.specs.Prelude.{◌≡◌, ◌+◌, ◌<◌, ◌^◌, false, IfOk};
ghost use Rattle.wasi_world.specs.Asks.{AsksFor};
ghost use Rattle.wasi_records.specs.Records.{tcp2_at};
ghost use Rattle.tcp_records.specs.Listening.{TakesOne};
ghost use Rattle.record_common.specs.Stops.{fault_outcome};
ghost use Rattle.host_store.specs.Machine.{own_of};
ghost use Rattle.wasi_host.specs.Pollables.{subscribe_asks, ready_asks, ids_after_ready, watches_incoming, watched_side};
ghost use Rattle.host_store.specs.Readiness.{ready_at, ready_ids_at, ready_record, ready_ids};
ghost use Rattle.tcp_records.specs.Sides.{Balances};
ghost use Rattle.record_common.specs.Sides.{no_socket};
ghost use Rattle.host_store.specs.KnownSides.{KnowsSides};
ghost use Rattle.host_store.specs.Views.{SameView, state_of, HostKept};

use host_lookups::lookup_ready;
use host_store::{Kind, Store, WasiSocketsCtxView, Watched, handles};
use host_udp::{incoming_ready, outgoing_ready, udp_side};
use tcp_records::TcpRecord;
use wasi_records::find_mut;
use wasi_streams::{Fault, TrapKind};
use wasi_world::{Handle, Ids, Sock, World};

/// Looks once at what a pollable watches of a TCP socket.
fn poll_ready<W: World>(
    record: &mut TcpRecord,
    world: &mut W,
    ids: &mut Ids,
    watched: Watched,
) -> Result<bool, Fault>
    requires open { (W.seen world.old).ended ≡ false }
    requires names { ids.old.next_part + 1 < 2 ^ 64 }
    ensures asked { AsksFor (ready_record (own_of ids.old.line) ids.old watched record.old)
        (W.seen world.old) (W.seen world.new) (λ ready. (ready, record.new))
        (fault_outcome result) }
    ensures ids { ids.new ≡ ready_ids ids.old watched record.old }
    ensures sides { Balances (W.seen world.old) (W.seen world.new) no_socket record.old
        record.new }
{
    match watched {
        Watched::Socket(_) => record.socket_ready(world, ids),
        Watched::Input(_) => record.input_ready(world, ids.own()),
        Watched::Output(_) => record.output_ready(world, ids.own()),
        Watched::Udp(_)
        | Watched::Incoming(_)
        | Watched::Outgoing(_)
        | Watched::Lookup(_)
        | Watched::Plain => { Err(Fault::Trap(TrapKind::NoSuchHandle)) }
    }
}

/// The network socket of what is watched.
fn watched_side(store: &Store, watched: Watched) -> Option<Sock>
    ensures { result ≡ watched_side store.now watched }
{
    match watched {
        Watched::Udp(place) | Watched::Incoming(place) | Watched::Outgoing(place) => {
            udp_side(store, place)
        }
        Watched::Socket(place) | Watched::Input(place) | Watched::Output(place) => {
            store.side(place)
        }
        Watched::Lookup(_) | Watched::Plain => None,
    }
}

/// Looks once at what a pollable watches of the TCP socket with this record number.
pub(crate) fn poll_watched<W: World>(
    store: &mut Store,
    world: &mut W,
    ids: &mut Ids,
    watched: Watched,
    place: usize,
) -> Result<bool, Fault>
    requires open { (W.seen world.old).ended ≡ false }
    requires names { ids.old.next_part + 1 < 2 ^ 64 }
    ensures asked { AsksFor (ready_at store.old (own_of ids.old.line) ids.old watched place
        (tcp2_at store.old.records place)) (W.seen world.old) (W.seen world.new)
        (λ ready. (ready, store.new)) (fault_outcome result) }
    ensures sides { KnowsSides (W.seen world.old) store.old
        → KnowsSides (W.seen world.new) store.new }
    ensures ids { ids.new ≡ ready_ids_at ids.old watched (tcp2_at store.old.records place) }
{
    let Some(record) = find_mut::<TcpRecord>(&mut store.records, place) else {
        return Err(Fault::Trap(TrapKind::NoSuchHandle));
    };
    poll_ready(record, world, ids, watched)
}

/// Makes a pollable for a socket, a stream or a lookup, as its child in the table (`subscribe`).
pub fn subscribe<W: World>(
    view: &mut WasiSocketsCtxView<'_>,
    world: &mut W,
    ids: &mut Ids,
    this: Handle,
) -> Result<Handle, Fault>
    requires { (W.seen world.old).ended ≡ false }
    ensures asked { AsksFor (subscribe_asks (state_of view.old) (own_of ids.old.line) this)
        (W.seen world.old) (W.seen world.new) (λ made. (made, state_of view.new))
        (fault_outcome result) }
    ensures kept { HostKept view.old view.new ids.old ids.new (W.seen world.old)
        (W.seen world.new) }
{
    let watched = handles::watched(view.table, this)?;
    let side = watched_side(view.store, watched);
    let kind = Kind::Pollable(watched);
    handles::make(view.table, world, ids.own(), kind, Some(this), side)
}

/// Looks once whether what a pollable watches is ready (`pollable.ready`).
///
/// - A TCP socket: its connect in progress is polled, or the accept of a listener, whose result is
///   left to [`accept`](Store::accept).
/// - A stream of a connection: whether it can be read or written; an error is ready, too.
/// - An incoming datagram stream: a receive is begun where there is none, and its datagram is left
///   to [`receive`](Store::receive_datagrams).
/// - An outgoing datagram stream is ready unless its last datagram isn't sent yet, and a lookup
///   unless it is in progress.
/// - A UDP socket and a stream in memory are always ready.
///
/// An accept or a receive that begins takes the next name of the line.
pub fn ready<W: World>(
    view: &mut WasiSocketsCtxView<'_>,
    world: &mut W,
    ids: &mut Ids,
    pollable: Handle,
) -> Result<bool, Fault>
    requires open { (W.seen world.old).ended ≡ false }
    requires names { ids.old.next_part + 1 < 2 ^ 64 }
    ensures asked { AsksFor (ready_asks (state_of view.old) ids.old pollable) (W.seen world.old)
        (W.seen world.new) (λ ready. (ready, state_of view.new)) (fault_outcome result) }
    ensures sides { KnowsSides (W.seen world.old) view.old.store.now
        → KnowsSides (W.seen world.new) view.new.store.now }
    ensures view { SameView view.old view.new }
    ensures taken { TakesOne ids.old ids.new }
    ensures ids { watches_incoming (state_of view.old) pollable ≡ false
        → ids.new ≡ ids_after_ready (state_of view.old) ids.old pollable }
    ensures names { IfOk (fault_outcome result) (λ ready. ids.new
        ≡ ids_after_ready (state_of view.old) ids.old pollable) }
{
    let watched = handles::watch(view.table, pollable)?;
    match watched {
        Watched::Udp(_) | Watched::Plain => Ok(true),
        Watched::Incoming(place) => incoming_ready(view.store, world, ids, place),
        Watched::Outgoing(place) => Ok(outgoing_ready(view.store, place)),
        Watched::Lookup(place) => Ok(lookup_ready(view.store, place)),
        Watched::Socket(place) | Watched::Input(place) | Watched::Output(place) => {
            poll_watched(view.store, world, ids, watched, place)
        }
    }
}
