//! The calls of the 0.2 interface, one function each, over a view of a context, a table and a
//! store.
#![tactic(auto)]

ghost use Rattle.std.specs.Prelude.{◌≡◌, IfErr, IfOk, Ok, false};
ghost use Rattle.wasi_world.specs.Asks.{AsksFor};
ghost use Rattle.record_common.specs.Stops.{host_outcome};
ghost use Rattle.host_store.specs.Machine.{own_of};
ghost use Rattle.host_store.specs.Views.{state_of, HostKept};
ghost use Rattle.wasi_streams.specs.HostError.{of_fault};
ghost use Rattle.wasi_p2.specs.Lookup.{error_code_on};
ghost use Rattle.wasi_p2.specs.Tcp.{network_asks};

pub mod ip_name_lookup;
mod options;
pub mod tcp;
pub mod udp;

use host_store::{Kind, WasiSocketsCtxView, handles};
pub use record_common::SocketError;
use wasi_addr::p2;
use wasi_streams::{Fault, HostError};
use wasi_world::{Handle, Ids, World};

/// Makes a handle of the network (`instance-network`).
pub fn instance_network<W: World>(
    view: &mut WasiSocketsCtxView<'_>,
    world: &mut W,
    ids: &mut Ids,
) -> Result<Handle, SocketError>
    requires { (W.seen world.old).ended ≡ false }
    ensures asked { AsksFor (network_asks (state_of view.old) (own_of ids.old.line))
        (W.seen world.old) (W.seen world.new) (λ made. (made, state_of view.new))
        (host_outcome result) }
    ensures kept { HostKept view.old view.new ids.old ids.new (W.seen world.old)
        (W.seen world.new) }
{
    let handle = handles::make(view.table, world, ids.own(), Kind::Network, None, None)?;
    Ok(handle)
}

/// The network's code in the error of a stream (`network-error-code`). Always `None` in 0.2: the
/// code was already returned when the stream failed.
pub fn network_error_code(
    view: &WasiSocketsCtxView<'_>,
    error: Handle,
) -> Result<Option<p2::ErrorCode>, SocketError>
    ensures { host_outcome result ≡ Ok (error_code_on (state_of view.now) error) }
{
    handles::error_value(view.table, error)?;
    Ok(None)
}

/// The code that the error of a call returns to the guest (`convert_error_code` of the crate
/// wasmtime-wasi). A trap and out of memory have no code, and are handed back as the error.
pub fn convert_error_code(error: SocketError) -> Result<p2::ErrorCode, Fault>
    ensures code { IfOk result (λ code. error ≡ HostError.Code code) }
    ensures fault { IfErr result (λ fault. error ≡ of_fault fault) }
{
    match error {
        HostError::Code(code) => Ok(code),
        HostError::Trap(kind) => Err(Fault::Trap(kind)),
        HostError::Memory(e) => Err(Fault::Memory(e)),
    }
}
