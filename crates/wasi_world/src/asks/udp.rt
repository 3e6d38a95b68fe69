//! The asks of UDP sockets.

ghost use Rattle.std.specs.Prelude.{◌≡◌, OnErr, false};
ghost use Rattle.wasi_world.specs.Asks.{AsksFor};
ghost use Rattle.wasi_world.specs.Typed.{ask_udp_create, ask_udp_writable, ask_udp_bind};
ghost use Rattle.wasi_world.specs.Typed.{ask_udp_connect, ask_udp_disconnect, ask_recv, ask_send};

use crate::asks::Polled;
use crate::asks::told::{told_datagram, told_done, told_polled};
use crate::call::Call;
use crate::ids::{OpId, Sock};
use crate::octets::Octets;
use crate::world::World;
use std::alloc::AllocError;
use wasi_addr::{ErrorCode, IpSocketAddress, SocketAddressFamily};

/// Creates a UDP socket of this family for the context numbered `ctx`; `op` is its name from then
/// on. A code: no socket was made. Out of memory the call wasn't made.
pub fn udp_create<W: World>(
    world: &mut W,
    op: OpId,
    ctx: u32,
    family: SocketAddressFamily,
) -> Result<Result<(), ErrorCode>, AllocError>
    requires { (W.seen world.old).ended ≡ false }
    ensures asked { AsksFor (ask_udp_create op ctx family) (W.seen world.old) (W.seen world.new)
        (λ answer. answer) result }
    ensures err { OnErr result (W.seen world.new ≡ W.seen world.old) }
{
    let told = world.call(op, Call::UdpCreate { ctx, family })?;
    Ok(told_done(told))
}

/// Whether a UDP socket can send now: pending, done, or a code. Out of memory the call wasn't made.
pub fn udp_writable<W: World>(world: &mut W, op: OpId, sock: Sock) -> Result<Polled<()>, AllocError>
    requires { (W.seen world.old).ended ≡ false }
    ensures asked { AsksFor (ask_udp_writable op sock) (W.seen world.old) (W.seen world.new)
        (λ answer. answer) result }
    ensures err { OnErr result (W.seen world.new ≡ W.seen world.old) }
{
    let told = world.call(op, Call::UdpWritable { sock })?;
    Ok(told_polled(told))
}

/// Binds a UDP socket to a local address, or fails with a code. Out of memory the call wasn't made.
pub fn udp_bind<W: World>(
    world: &mut W,
    op: OpId,
    sock: Sock,
    addr: IpSocketAddress,
) -> Result<Result<(), ErrorCode>, AllocError>
    requires { (W.seen world.old).ended ≡ false }
    ensures asked { AsksFor (ask_udp_bind op sock addr) (W.seen world.old) (W.seen world.new)
        (λ answer. answer) result }
    ensures err { OnErr result (W.seen world.new ≡ W.seen world.old) }
{
    let told = world.call(op, Call::UdpBind { sock, addr })?;
    Ok(told_done(told))
}

/// Connects a UDP socket to a remote address, or fails with a code. Out of memory the call wasn't
/// made.
pub fn udp_connect<W: World>(
    world: &mut W,
    op: OpId,
    sock: Sock,
    addr: IpSocketAddress,
) -> Result<Result<(), ErrorCode>, AllocError>
    requires { (W.seen world.old).ended ≡ false }
    ensures asked { AsksFor (ask_udp_connect op sock addr) (W.seen world.old) (W.seen world.new)
        (λ answer. answer) result }
    ensures err { OnErr result (W.seen world.new ≡ W.seen world.old) }
{
    let told = world.call(op, Call::UdpConnect { sock, addr })?;
    Ok(told_done(told))
}

/// Takes its remote address from a connected UDP socket, or fails with a code. Out of memory the
/// call wasn't made.
pub fn udp_disconnect<W: World>(
    world: &mut W,
    op: OpId,
    sock: Sock,
) -> Result<Result<(), ErrorCode>, AllocError>
    requires { (W.seen world.old).ended ≡ false }
    ensures asked { AsksFor (ask_udp_disconnect op sock) (W.seen world.old) (W.seen world.new)
        (λ answer. answer) result }
    ensures err { OnErr result (W.seen world.new ≡ W.seen world.old) }
{
    let told = world.call(op, Call::UdpDisconnect { sock })?;
    Ok(told_done(told))
}

/// Receives one datagram: pending, its bytes and its sender's address, or a code. Out of memory the
/// call wasn't made.
pub fn recv<W: World>(
    world: &mut W,
    op: OpId,
    sock: Sock,
) -> Result<Polled<(Octets, IpSocketAddress)>, AllocError>
    requires { (W.seen world.old).ended ≡ false }
    ensures asked { AsksFor (ask_recv op sock) (W.seen world.old) (W.seen world.new)
        (λ answer. answer) result }
    ensures err { OnErr result (W.seen world.new ≡ W.seen world.old) }
{
    let told = world.call(op, Call::Recv { sock })?;
    Ok(told_datagram(told))
}

/// Sends `bytes` as one datagram to `addr`: pending, done, or a code. Out of memory the call wasn't
/// made.
pub fn send<W: World>(
    world: &mut W,
    op: OpId,
    sock: Sock,
    addr: IpSocketAddress,
    bytes: &[u8],
) -> Result<Polled<()>, AllocError>
    requires { (W.seen world.old).ended ≡ false }
    ensures asked { AsksFor (ask_send op sock addr bytes.now) (W.seen world.old) (W.seen world.new)
        (λ answer. answer) result }
    ensures err { OnErr result (W.seen world.new ≡ W.seen world.old) }
{
    let told = world.send(op, sock, addr, bytes)?;
    Ok(told_polled(told))
}
