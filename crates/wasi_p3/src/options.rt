//! The options of a TCP socket, and its backlog: the getters and setters of
//! `wasi:sockets/types@0.3` as one call each. Each call tests its handle first: one that isn't
//! live, or is of another kind, is the trap `NoSuchHandle`. A set leaves the records as they were.

ghost use Rattle.std.specs.Prelude.{◌≡◌, ◌≤◌, IfOk, false};
ghost use Rattle.wasi_world.specs.Asks.{AsksFor};
ghost use Rattle.socket_common.specs.Options.{largest_value, option_of, number_of};
ghost use Rattle.host_store.specs.Machine.{own_of};
ghost use Rattle.host_store.specs.Views.{state_of, HostKept};
ghost use Rattle.wasi_p3.specs.Stops.{ends_as};
ghost use Rattle.wasi_p3.specs.Tcp.{get_option, set_option, set_backlog};

use crate::error::{SocketError, answered};
use host_store::{WasiSocketsCtxView, handles};
use tcp_records::TcpRecord;
use wasi_tcp::Setting;
use wasi_world::{Handle, Ids, Opt, TrapKind, World};

/// Reads an option: yes is 1 and no is 0, a time is in nanoseconds, a size in bytes.
///
/// - `get-keep-alive-enabled`: whether probes are sent on a connection that is idle. Any reported
///   number but 0 is yes.
/// - `get-keep-alive-idle-time`: how long a connection is idle before the first probe.
/// - `get-keep-alive-interval`: the time from one probe to the next.
/// - `get-keep-alive-count`: how many probes without an answer end a connection.
/// - `get-hop-limit`: how many hops a packet lives.
/// - `get-receive-buffer-size`, `get-send-buffer-size`: the size of the buffer for what comes in, and
///   for what goes out: half of what is reported.
///
/// Refused, it answers:
///
/// - Connecting: `InvalidState`. Closed: its code.
/// - A code that the network reports is returned.
/// - A reported value above the option's `largest_value` is `NotSupported`.
pub fn get_option<W: World>(
    view: &mut WasiSocketsCtxView<'_>,
    world: &mut W,
    ids: &mut Ids,
    socket: Handle,
    option: Opt,
) -> Result<u64, SocketError>
    requires { (W.seen world.old).ended ≡ false }
    ensures asked { AsksFor (get_option (own_of ids.old.line) socket option (state_of view.old))
        (W.seen world.old) (W.seen world.new) (λ told. (told, state_of view.new)) (ends_as result) }
    ensures within { IfOk result (λ value. value ≤ largest_value option) }
    ensures kept { HostKept view.old view.new ids.old ids.new (W.seen world.old)
        (W.seen world.new) }
{
    let place = handles::tcp3_socket(view.table, socket)?;
    let Some(record) = view.store.find_mut::<TcpRecord>(place) else {
        return Err(SocketError::Trap(TrapKind::NoSuchHandle));
    };
    answered(record.inner.get_option(world, ids.own(), option))
}

/// Sets an option.
///
/// - `set-keep-alive-enabled`: whether probes are to be sent on a connection that is idle.
/// - `set-keep-alive-idle-time`, `set-keep-alive-interval`: in nanoseconds, brought into one second
///   to 32,767 seconds. 0: `InvalidArgument`, in any state.
/// - `set-keep-alive-count`: brought into 1 to 127. 0: `InvalidArgument`, in any state.
/// - `set-hop-limit`: set as it is. 0: `InvalidArgument`, where the state allows a set.
/// - `set-receive-buffer-size`, `set-send-buffer-size`: in bytes, brought into 1 to 2,147,483,647.
///   0: `InvalidArgument`, where the state allows a set.
///
/// Refused, it answers:
///
/// - Connecting: `InvalidState`. Closed: its code.
/// - A code that the network reports is returned.
pub fn set_option<W: World>(
    view: &mut WasiSocketsCtxView<'_>,
    world: &mut W,
    ids: &mut Ids,
    socket: Handle,
    setting: Setting,
) -> Result<(), SocketError>
    requires { (W.seen world.old).ended ≡ false }
    ensures asked { AsksFor (set_option (own_of ids.old.line) socket (option_of setting)
        (number_of setting) (state_of view.old)) (W.seen world.old) (W.seen world.new)
        (λ done. (done, state_of view.new)) (ends_as result) }
    ensures kept { HostKept view.old view.new ids.old ids.new (W.seen world.old)
        (W.seen world.new) }
{
    let place = handles::tcp3_socket(view.table, socket)?;
    let Some(record) = view.store.find_mut::<TcpRecord>(place) else {
        return Err(SocketError::Trap(TrapKind::NoSuchHandle));
    };
    answered(record.inner.set_option(world, ids.own(), setting))
}

/// Sets how many connections may wait to be accepted (`set-listen-backlog-size`); the number is
/// brought into 1 to 2,147,483,647.
///
/// - 0: `InvalidArgument`, in any state.
/// - Before the socket listens the number is kept for the listen to come, and nothing is asked.
/// - A listener asks the network; where that returns a code the old number stays: `NotSupported`.
/// - Closed: its code. In any other state: `InvalidState`.
pub fn set_listen_backlog_size<W: World>(
    view: &mut WasiSocketsCtxView<'_>,
    world: &mut W,
    ids: &mut Ids,
    socket: Handle,
    value: u64,
) -> Result<(), SocketError>
    requires { (W.seen world.old).ended ≡ false }
    ensures asked { AsksFor (set_backlog (own_of ids.old.line) socket value (state_of view.old))
        (W.seen world.old) (W.seen world.new) (λ done. (done, state_of view.new)) (ends_as result) }
    ensures kept { HostKept view.old view.new ids.old ids.new (W.seen world.old)
        (W.seen world.new) }
{
    let place = handles::tcp3_socket(view.table, socket)?;
    let Some(record) = view.store.find_mut::<TcpRecord>(place) else {
        return Err(SocketError::Trap(TrapKind::NoSuchHandle));
    };
    answered(
        record
            .inner
            .set_listen_backlog_size(world, ids.own(), value),
    )
}
