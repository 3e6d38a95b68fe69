//! The default answers, of a world whose lists are used up.

ghost use Rattle.std.specs.Prelude.{◌≡◌, IfOk, true, length, List, ℕ};
ghost use Rattle.wasi_world.specs.declared.call.Told.{Told};
ghost use Rattle.wasi_world.specs.declared.ids.OpId.{OpId};
ghost use Rattle.wasi_world.specs.declared.plan.Planned.{Planned};
ghost use Rattle.wasi_world.specs.declared.sides.Side.{Side};
ghost use Rattle.wasi_world.specs.Asks.{IsFront};
ghost use Rattle.wasi_world.specs.Script.{offered, default, default_peer, as_planned};
ghost use Rattle.world_scripted.specs.Known.{known};

use crate::sides::{Sides, local_of, option_of, peer_of};
use std::alloc::{AllocError, Global};
use wasi_addr::ErrorCode;
use wasi_world::{Call, Octets, Sock, Told};

/// The default answer to a `peer`.
fn tell_peer(sides: &Sides, sock: Sock) -> Told
    ensures told { as_planned result ≡ default_peer (known sides.now sock).peer }
    ensures front { (bytes : List ℕ) → IsFront result bytes }
{
    match peer_of(sides, sock) {
        Some(addr) => Told::Addr(addr),
        None => Told::Code(ErrorCode::InvalidState),
    }
}

/// Takes all of a write's bytes.
fn take_all(alloc: Global, bytes: &[u8]) -> Result<Told, AllocError>
    ensures { IfOk result (λ told. told ≡ Told.Took bytes.now) }
{
    let taken = Octets::copy_of(alloc, bytes)?;
    Ok(Told::Took(taken))
}

/// The default answer to a call. `bytes` are those that a write offers, of which it takes all.
pub(crate) fn tell_default(
    alloc: Global,
    sides: &Sides,
    call: &Call,
    bytes: &[u8],
) -> Result<Told, AllocError>
    requires { length bytes.now ≡ offered call.now }
    ensures told { IfOk result (λ told. as_planned told ≡ default (known sides.now) call.now) }
    ensures front { IfOk result (λ told. IsFront told bytes.now) }
{
    match call {
        Call::Check { .. } => Ok(Told::Yes),
        Call::Lookup { .. } => Ok(Told::Code(ErrorCode::Other)),
        Call::Local { sock } => Ok(Told::Addr(local_of(sides, *sock))),
        Call::Peer { sock } => Ok(tell_peer(sides, *sock)),
        Call::Accept { .. } | Call::Read { .. } | Call::ReadReady { .. } | Call::Recv { .. } => {
            Ok(Told::Pending)
        }
        Call::Write { .. } => take_all(alloc, bytes),
        Call::GetOption { sock, option } => Ok(Told::Value(option_of(sides, *sock, *option))),
        _ => Ok(Told::Done),
    }
}

/// Whether the default answer to a call is that it is done.
pub(crate) fn is_done_by_default(call: &Call) -> bool
    ensures { result ≡ true → (sides : OpId → Side) → default sides call.now ≡ Planned.Done }
{
    match call {
        Call::Check { .. }
        | Call::Lookup { .. }
        | Call::Local { .. }
        | Call::Peer { .. }
        | Call::Accept { .. }
        | Call::Read { .. }
        | Call::ReadReady { .. }
        | Call::Recv { .. }
        | Call::Write { .. }
        | Call::GetOption { .. } => false,
        _ => true,
    }
}

/// Whether the default answer to a call is that there is none yet.
pub(crate) fn is_pending_by_default(call: &Call) -> bool
    ensures { result ≡ true → (sides : OpId → Side) → default sides call.now ≡ Planned.Pending }
{
    match call {
        Call::Accept { .. } | Call::Read { .. } | Call::ReadReady { .. } | Call::Recv { .. } => {
            true
        }
        _ => false,
    }
}
