//! The 0.3 call of name lookup (`wasi:sockets/ip-name-lookup`).

ghost use Rattle.std.specs.Prelude.{◌≡◌, [], ◌∷◌, IfOk, false};
ghost use Rattle.wasi_world.specs.Asks.{AsksFor};
ghost use Rattle.host_store.specs.Views.{state_of, HostKept};
ghost use Rattle.wasi_p3.specs.Lookup.{resolve, resolve_host};
ghost use Rattle.wasi_p3.specs.Stops.{ends_as};

use host_store::{LookupError, WasiSocketsCtxView};
use std::alloc::{AllocError, Global};
use wasi_addr::{IpAddress, lookup};
use wasi_names::{HostName, host_for};
use wasi_world::{Answer, Ids, IpList, NameText, World};

/// Looks up the addresses of a host name (`resolve-addresses`), in the network's order, a mapped
/// IPv4 address as IPv4.
///
/// - A context that may look nothing up: `PermanentResolverFailure`. A name that is refused:
///   `InvalidArgument`. Nothing is asked.
/// - A name that is an address is its own answer, and nothing is asked.
/// - For a domain, as the library `url` reads it, the network is asked. Where it answers with a
///   code: `NameUnresolvable`.
///
/// The call is pending while the network's answer is, beside other calls, and
/// `wasi_host::resume` continues it. Takes memory for the name and for the addresses.
pub fn resolve_addresses<W: World>(
    alloc: Global,
    view: &mut WasiSocketsCtxView<'_>,
    world: &mut W,
    ids: &mut Ids,
    name: NameText,
) -> Result<Answer<IpList>, LookupError>
    requires { (W.seen world.old).ended ≡ false }
    ensures asked { AsksFor (resolve ids.old.line view.old.ctx.now name (state_of view.old))
        (W.seen world.old) (W.seen world.new) (λ answer. (answer, state_of view.new))
        (ends_as result) }
    ensures kept { HostKept view.old view.new ids.old ids.new (W.seen world.old)
        (W.seen world.new) }
{
    let host = host_for(alloc, view.ctx, &name)?;
    resolve(alloc, view, world, ids, host)
}

/// A list of this address alone. Takes memory for it.
fn one_address(alloc: Global, address: IpAddress) -> Result<IpList, AllocError>
    ensures { IfOk result (λ addresses. addresses ≡ address ∷ []) }
{
    let addresses = vec![in alloc; address]?;
    Ok(IpList::from_vec(addresses))
}

/// Looks up a host, where the context and the name allow it.
fn resolve<W: World>(
    alloc: Global,
    view: &mut WasiSocketsCtxView<'_>,
    world: &mut W,
    ids: &mut Ids,
    host: Result<HostName, lookup::ErrorCode>,
) -> Result<Answer<IpList>, LookupError>
    requires { (W.seen world.old).ended ≡ false }
    ensures asked { AsksFor (resolve_host ids.old.line host (state_of view.old))
        (W.seen world.old) (W.seen world.new) (λ answer. (answer, state_of view.new))
        (ends_as result) }
    ensures kept { HostKept view.old view.new ids.old ids.new (W.seen world.old)
        (W.seen world.new) }
{
    match host {
        Ok(HostName::Address(address)) => {
            let addresses = one_address(alloc, address)?;
            Ok(Answer::Ready(addresses))
        }
        Ok(HostName::Domain(host)) => host_lookups::resolve_host(view.store, world, *ids, host),
        Err(code) => Err(LookupError::Code(code)),
    }
}
