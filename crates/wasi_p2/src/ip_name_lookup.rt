//! The calls of name lookup (`wasi:sockets/ip-name-lookup`). Each tests its handle first: one that
//! isn't live, or is of another kind, is the trap `NoSuchHandle`.

ghost use Rattle.std.specs.Prelude.{◌≡◌, Ok, false};
ghost use Rattle.wasi_world.specs.Asks.{AsksFor};
ghost use Rattle.wasi_world.specs.Seen.{Seen};
ghost use Rattle.record_common.specs.Stops.{host_outcome};
ghost use Rattle.host_store.specs.Machine.{own_of, lookup_number};
ghost use Rattle.host_store.specs.KnownSides.{KnowsSides};
ghost use Rattle.host_store.specs.Views.{SameView, state_of, HostKept};
ghost use Rattle.wasi_p2.specs.Lookup.{resolve_asks, resolved_host, next_address_on};

use crate::SocketError;
use host_store::{WasiSocketsCtxView, handles};
use std::alloc::Global;
use wasi_addr::{IpAddress, lookup, p2};
use wasi_names::{HostName, host_for};
use wasi_world::{Handle, Ids, NameText, World};

/// Looks up the addresses of a host name, and makes the handle of the lookup (`resolve-addresses`).
/// The handle of the network is tested first.
///
/// - A context that may look nothing up: `PermanentResolverFailure`. A name that is refused:
///   `InvalidArgument`. Nothing is asked.
/// - A name that is an address is found without asking the network.
/// - For a domain, as the library `url` reads it, the network is asked once. Where it answers with
///   a code at once: `NameUnresolvable`, and no handle is made.
///
/// Takes memory for the name and for the addresses.
pub fn resolve_addresses<W: World>(
    alloc: Global,
    view: &mut WasiSocketsCtxView<'_>,
    world: &mut W,
    ids: &mut Ids,
    network: Handle,
    name: NameText,
) -> Result<Handle, SocketError>
    requires { (W.seen world.old).ended ≡ false }
    ensures asked { AsksFor (resolve_asks (state_of view.old) (own_of ids.old.line) view.old.ctx.now
        network name) (W.seen world.old) (W.seen world.new) (λ made. (made, state_of view.new))
        (host_outcome result) }
    ensures kept { HostKept view.old view.new ids.old ids.new (W.seen world.old)
        (W.seen world.new) }
{
    handles::network(view.table, network)?;
    let host = host_for(alloc, view.ctx, &name)?;
    resolve(alloc, view, world, ids, network, host)
}

/// Looks up a host, where the context and the name allow it.
fn resolve<W: World>(
    alloc: Global,
    view: &mut WasiSocketsCtxView<'_>,
    world: &mut W,
    ids: &mut Ids,
    network: Handle,
    host: Result<HostName, lookup::ErrorCode>,
) -> Result<Handle, SocketError>
    requires { (W.seen world.old).ended ≡ false }
    ensures asked { AsksFor (resolved_host (state_of view.old) (own_of ids.old.line) network host)
        (W.seen world.old) (W.seen world.new) (λ made. (made, state_of view.new))
        (host_outcome result) }
    ensures kept { HostKept view.old view.new ids.old ids.new (W.seen world.old)
        (W.seen world.new) }
{
    match host {
        Ok(host) => host_lookups::resolve(
            view.store,
            alloc,
            view.table,
            world,
            ids.own(),
            network,
            host,
        ),
        Err(code) => Err(SocketError::Code(p2::ErrorCode::from_lookup(code))),
    }
}

/// Takes the next address that a lookup found (`resolve-next-address`), in the network's order,
/// each once, and a mapped IPv4 address as IPv4; `None` once all were handed out. Not answered yet:
/// `WouldBlock`. Answered with a code: `NameUnresolvable`, each time. Asks nothing.
pub fn resolve_next_address(
    view: &mut WasiSocketsCtxView<'_>,
    this: Handle,
) -> Result<Option<IpAddress>, SocketError>
    ensures answer { host_outcome result ≡ Ok (next_address_on (state_of view.old)
        (lookup_number (state_of view.old) this)).0 }
    ensures state { state_of view.new ≡ (next_address_on (state_of view.old)
        (lookup_number (state_of view.old) this)).1 }
    ensures sides { (s : Seen) → KnowsSides s view.old.store.now → KnowsSides s view.new.store.now }
    ensures view { SameView view.old view.new }
{
    let place = handles::lookup(view.table, this)?;
    host_lookups::next_address(view.store, place)
}
