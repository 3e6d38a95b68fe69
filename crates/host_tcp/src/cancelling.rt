//! How the pending calls of TCP sockets are given up.

ghost use Rattle.std.specs.Prelude.{◌≡◌, false, OnErr};
ghost use Rattle.wasi_world.specs.Asks.{AsksFor};
ghost use Rattle.wasi_world.specs.Seen.{Seen};
ghost use Rattle.host_tcp.specs.TcpCancels.{cancel_bind_at, cancel_listen_at, listen_kept};
ghost use Rattle.wasi_records.specs.Records.{tcp2_at};
ghost use Rattle.host_store.specs.KnownSides.{KnowsSides};

use host_store::Store;
use std::alloc::AllocError;
use tcp_records::{InProgress, TcpRecord};
use wasi_records::{RecordId, find_mut};
use wasi_world::World;

/// Gives up the bind of the TCP socket with this record number: the socket stays as it was,
/// with nothing in progress.
pub fn tcp_cancel_bind(store: &mut Store, place: RecordId)
    ensures state { store.new ≡ cancel_bind_at store.old place (tcp2_at store.old.records place) }
    ensures sides { (s : Seen) → KnowsSides s store.old → KnowsSides s store.new }
{
    let Some(record) = find_mut::<TcpRecord>(&mut store.records, place) else {
        return;
    };
    record.in_progress = InProgress::Nothing;
}

/// Gives up the listen of the TCP socket with this record number: its network socket is closed,
/// and the socket stays closed. Out of memory nothing was asked, and the record keeps the network
/// socket.
pub fn cancel_listen<W: World>(
    store: &mut Store,
    world: &mut W,
    place: RecordId,
) -> Result<(), AllocError>
    requires { (W.seen world.old).ended ≡ false }
    ensures asked { AsksFor (cancel_listen_at store.old place (tcp2_at store.old.records place))
        (W.seen world.old) (W.seen world.new) (λ done. store.new) result }
    ensures left { OnErr result (store.new ≡ listen_kept store.old place
        (tcp2_at store.old.records place)) }
    ensures unasked { OnErr result (W.seen world.new ≡ W.seen world.old) }
    ensures sides { KnowsSides (W.seen world.old) store.old
        → KnowsSides (W.seen world.new) store.new }
{
    let Some(record) = find_mut::<TcpRecord>(&mut store.records, place) else {
        return Ok(());
    };
    record.give_listening_up(world)
}
