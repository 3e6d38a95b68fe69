//! How a TCP socket is made, with its record and its handle.

ghost use Rattle.std.specs.Prelude.{◌≡◌, ◌-◌, false, OnOk, Ok};
ghost use Rattle.wasi_world.specs.Asks.{AsksFor, outcome};
ghost use Rattle.record_common.specs.Stops.{host_outcome};
ghost use Rattle.host_tcp.specs.Making.{MakesTcp};
ghost use Rattle.host_store.specs.Limits.{with_limit};
ghost use Rattle.host_tcp.specs.Creates.{create_asks};
ghost use Rattle.host_store.specs.KnownSides.{KnowsSides};

use host_store::{Kind, Store, handles, keep_limit};
use record_common::SocketError;
use std::alloc::AllocError;
use tcp_records::TcpRecord;
use wasi_addr::SocketAddressFamily;
use wasi_records::{Record, RecordId};
use wasi_table::Table;
use wasi_tcp::TcpSocket;
use wasi_world::{Handle, OpId, Refusal, WasiSocketsCtx, World};

/// Creates a TCP socket, its record and its handle (`create-tcp-socket`). Takes memory for the
/// record before the network socket is made, so that every network socket has a record, also
/// where no handle can be made for it.
pub fn tcp_create_socket<W: World>(
    store: &mut Store,
    table: &mut Table<Kind>,
    world: &mut W,
    own: OpId,
    ctx: &WasiSocketsCtx,
    family: SocketAddressFamily,
) -> Result<Handle, SocketError>
    requires { (W.seen world.old).ended ≡ false }
    ensures asked { AsksFor (create_asks (record { table = table.old; store = store.old }) own
        ctx.now family) (W.seen world.old) (W.seen world.new)
        (λ made. (made, record { table = table.new; store = store.new })) (host_outcome result) }
    ensures sides { KnowsSides (W.seen world.old) store.old
        → KnowsSides (W.seen world.new) store.new }
{
    make_room(store, ctx)?;
    let place = make_tcp(store, world, own, ctx, family)?;
    let side = store.side(place);
    let handle = handles::make(table, world, own, Kind::Tcp2(place), None, side)?;
    Ok(handle)
}

/// Makes room for what the writers of a context hold, and keeps its limit from then on.
fn make_room(store: &mut Store, ctx: &WasiSocketsCtx) -> Result<(), AllocError>
    ensures room { OnOk result (store.new ≡ with_limit store.old ctx.now) }
    ensures records { store.new.records ≡ store.old.records }
{
    keep_limit(&mut store.limits, ctx)?;
    store.records.reserve_total(ctx.name)?;
    Ok(())
}

/// Creates a TCP socket and its record, which has no handle yet, and returns the number of the
/// record. Takes memory for the record before the network socket is made, so that every network
/// socket has a record. A context that may not use TCP: `AccessDenied`, and nothing is asked.
/// Where there is no socket the store stays as it was.
pub fn make_tcp<W: World>(
    store: &mut Store,
    world: &mut W,
    own: OpId,
    ctx: &WasiSocketsCtx,
    family: SocketAddressFamily,
) -> Result<RecordId, Refusal>
    requires { (W.seen world.old).ended ≡ false }
    ensures made { MakesTcp own ctx.now family (W.seen world.old) (W.seen world.new) store.old
        store.new (outcome result) }
    ensures sides { KnowsSides (W.seen world.old) store.old
        → KnowsSides (W.seen world.new) store.new }
{
    store.records.reserve()?;
    let socket = TcpSocket::new(world, own, ctx, family)?;
    let place = store.records.len();
    store
        .records
        .push_reserved(Record::Tcp(TcpRecord::new(socket)));
    Ok(place)
}
