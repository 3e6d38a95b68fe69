//! Each kind of ask, with a type that has just the answers that fit. Those of UDP are in `udp`;
//! only `told` looks at what a world answered.

ghost use Rattle.std.specs.Prelude.{◌≡◌, ◌<◌, ◌≤◌, ◌^◌, OnErr, IfOk, length, false};
ghost use Rattle.wasi_world.specs.Asks.{AsksFor};
ghost use Rattle.wasi_world.specs.Typed.{ask_check, ask_lookup, ask_tcp_create, ask_local};
ghost use Rattle.wasi_world.specs.Typed.{ask_peer, ask_bind, ask_listen, ask_set_backlog};
ghost use Rattle.wasi_world.specs.Typed.{ask_connect, ask_accept, ask_hand, ask_refuse, ask_read};
ghost use Rattle.wasi_world.specs.Typed.{ask_read_ready, ask_write_ready, ask_shutdown};
ghost use Rattle.wasi_world.specs.Typed.{ask_get_option, ask_set_option, ask_close, ask_made};
ghost use Rattle.wasi_world.specs.Typed.{ask_write, IsTakenOf, IsReadOf};

mod told;
mod udp;

use crate::call::{Call, HandleKind, Opt};
use crate::ids::{OpId, Sock};
use crate::octets::{IpList, NameText, Octets};
use crate::outcome::Answer;
use crate::world::World;
use std::alloc::AllocError;
use told::{
    told_addr, told_arrival, told_bytes, told_done, told_names, told_polled, told_ready,
    told_taken, told_value, told_verdict,
};
pub use udp::{recv, send, udp_bind, udp_connect, udp_create, udp_disconnect, udp_writable};
use wasi_addr::{ErrorCode, IpSocketAddress, ShutdownType, SocketAddrUse, SocketAddressFamily};

/// What the embedder's check says of an address and a use.
#[derive(Clone, Copy, Debug, PartialEq, Eq)]
pub enum Verdict {
    /// No answer yet: the check is asked again, with equal arguments, at the next poll of its
    /// operation.
    Pending,
    /// The use is allowed.
    Yes,
    /// The use is denied.
    No,
}

/// The answer of a call that can be pending.
#[derive(Drop)]
pub enum Polled<T> {
    /// No answer yet: the call is asked again, with equal arguments, at the next poll of its
    /// operation.
    Pending,
    /// The call is done and gave this value.
    Ready(T),
    /// The call failed with this code.
    Code(ErrorCode),
}

/// Asks the embedder's check whether the context numbered `ctx` may use `addr` in this way
/// (`socket_addr_check` of `wasmtime-wasi`). Out of memory the check wasn't asked.
pub fn check<W: World>(
    world: &mut W,
    op: OpId,
    ctx: u32,
    addr: IpSocketAddress,
    usage: SocketAddrUse,
) -> Result<Verdict, AllocError>
    requires { (W.seen world.old).ended ≡ false }
    ensures asked { AsksFor (ask_check op ctx addr usage) (W.seen world.old) (W.seen world.new)
        (λ answer. answer) result }
    ensures err { OnErr result (W.seen world.new ≡ W.seen world.old) }
{
    let told = world.call(op, Call::Check { ctx, addr, usage })?;
    Ok(told_verdict(told))
}

/// Looks up the IP addresses of a host name: pending, the addresses, or a code. Out of memory the
/// call wasn't made.
pub fn lookup<W: World>(
    world: &mut W,
    op: OpId,
    host: NameText,
) -> Result<Polled<IpList>, AllocError>
    requires { (W.seen world.old).ended ≡ false }
    ensures asked { AsksFor (ask_lookup op host) (W.seen world.old) (W.seen world.new)
        (λ answer. answer) result }
    ensures err { OnErr result (W.seen world.new ≡ W.seen world.old) }
{
    let told = world.call(op, Call::Lookup { host })?;
    Ok(told_names(told))
}

/// Creates a TCP socket of this family for the context numbered `ctx`; `op` is its name from then
/// on. A code: no socket was made. Out of memory the call wasn't made.
pub fn tcp_create<W: World>(
    world: &mut W,
    op: OpId,
    ctx: u32,
    family: SocketAddressFamily,
) -> Result<Result<(), ErrorCode>, AllocError>
    requires { (W.seen world.old).ended ≡ false }
    ensures asked { AsksFor (ask_tcp_create op ctx family) (W.seen world.old) (W.seen world.new)
        (λ answer. answer) result }
    ensures err { OnErr result (W.seen world.new ≡ W.seen world.old) }
{
    let told = world.call(op, Call::TcpCreate { ctx, family })?;
    Ok(told_done(told))
}

/// The local address of a socket (`getsockname`), or a code. Out of memory the call wasn't made.
pub fn local<W: World>(
    world: &mut W,
    op: OpId,
    sock: Sock,
) -> Result<Result<IpSocketAddress, ErrorCode>, AllocError>
    requires { (W.seen world.old).ended ≡ false }
    ensures asked { AsksFor (ask_local op sock) (W.seen world.old) (W.seen world.new)
        (λ answer. answer) result }
    ensures err { OnErr result (W.seen world.new ≡ W.seen world.old) }
{
    let told = world.call(op, Call::Local { sock })?;
    Ok(told_addr(told))
}

/// The remote address of a connected socket (`getpeername`), or a code. Out of memory the call
/// wasn't made.
pub fn peer<W: World>(
    world: &mut W,
    op: OpId,
    sock: Sock,
) -> Result<Result<IpSocketAddress, ErrorCode>, AllocError>
    requires { (W.seen world.old).ended ≡ false }
    ensures asked { AsksFor (ask_peer op sock) (W.seen world.old) (W.seen world.new)
        (λ answer. answer) result }
    ensures err { OnErr result (W.seen world.new ≡ W.seen world.old) }
{
    let told = world.call(op, Call::Peer { sock })?;
    Ok(told_addr(told))
}

/// Binds a TCP socket to a local address, or fails with a code. Out of memory the call wasn't made.
pub fn bind<W: World>(
    world: &mut W,
    op: OpId,
    sock: Sock,
    addr: IpSocketAddress,
) -> Result<Result<(), ErrorCode>, AllocError>
    requires { (W.seen world.old).ended ≡ false }
    ensures asked { AsksFor (ask_bind op sock addr) (W.seen world.old) (W.seen world.new)
        (λ answer. answer) result }
    ensures err { OnErr result (W.seen world.new ≡ W.seen world.old) }
{
    let told = world.call(op, Call::Bind { sock, addr })?;
    Ok(told_done(told))
}

/// Makes a TCP socket listen, with a queue of `backlog` arrivals, or fails with a code. Out of
/// memory the call wasn't made.
pub fn listen<W: World>(
    world: &mut W,
    op: OpId,
    sock: Sock,
    backlog: u32,
) -> Result<Result<(), ErrorCode>, AllocError>
    requires { (W.seen world.old).ended ≡ false }
    ensures asked { AsksFor (ask_listen op sock backlog) (W.seen world.old) (W.seen world.new)
        (λ answer. answer) result }
    ensures err { OnErr result (W.seen world.new ≡ W.seen world.old) }
{
    let told = world.call(op, Call::Listen { sock, backlog })?;
    Ok(told_done(told))
}

/// Sets the backlog of a listener, the length of its queue of arrivals, or fails with a code. Out
/// of memory the call wasn't made.
pub fn set_backlog<W: World>(
    world: &mut W,
    op: OpId,
    sock: Sock,
    backlog: u32,
) -> Result<Result<(), ErrorCode>, AllocError>
    requires { (W.seen world.old).ended ≡ false }
    ensures asked { AsksFor (ask_set_backlog op sock backlog) (W.seen world.old) (W.seen world.new)
        (λ answer. answer) result }
    ensures err { OnErr result (W.seen world.new ≡ W.seen world.old) }
{
    let told = world.call(op, Call::SetBacklog { sock, backlog })?;
    Ok(told_done(told))
}

/// Connects a TCP socket to a remote address: pending, done, or a code. Out of memory the call
/// wasn't made.
pub fn connect<W: World>(
    world: &mut W,
    op: OpId,
    sock: Sock,
    addr: IpSocketAddress,
) -> Result<Polled<()>, AllocError>
    requires { (W.seen world.old).ended ≡ false }
    ensures asked { AsksFor (ask_connect op sock addr) (W.seen world.old) (W.seen world.new)
        (λ answer. answer) result }
    ensures err { OnErr result (W.seen world.new ≡ W.seen world.old) }
{
    let told = world.call(op, Call::Connect { sock, addr })?;
    Ok(told_polled(told))
}

/// Takes the next arrival of a listener: pending, the address of the peer, or a code. The
/// connection is handed over by [`hand`] or closed by [`refuse`]. Out of memory the call wasn't
/// made.
pub fn accept<W: World>(
    world: &mut W,
    op: OpId,
    sock: Sock,
) -> Result<Polled<IpSocketAddress>, AllocError>
    requires { (W.seen world.old).ended ≡ false }
    ensures asked { AsksFor (ask_accept op sock) (W.seen world.old) (W.seen world.new)
        (λ answer. answer) result }
    ensures err { OnErr result (W.seen world.new ≡ W.seen world.old) }
{
    let told = world.call(op, Call::Accept { sock })?;
    Ok(told_arrival(told))
}

/// Hands over the arrival from `peer` at the listener `sock`: its connection is a socket named `op`
/// from then on. Out of memory the call wasn't made.
pub fn hand<W: World>(
    world: &mut W,
    op: OpId,
    sock: Sock,
    peer: IpSocketAddress,
) -> Result<(), AllocError>
    requires { (W.seen world.old).ended ≡ false }
    ensures asked { AsksFor (ask_hand op sock peer) (W.seen world.old) (W.seen world.new)
        (λ answer. answer) result }
    ensures err { OnErr result (W.seen world.new ≡ W.seen world.old) }
{
    world.call(op, Call::Hand { sock, peer })?;
    Ok(())
}

/// Closes the arrival from `peer` at the listener `sock`, which the check denied. Out of memory the
/// call wasn't made.
pub fn refuse<W: World>(
    world: &mut W,
    op: OpId,
    sock: Sock,
    peer: IpSocketAddress,
) -> Result<(), AllocError>
    requires { (W.seen world.old).ended ≡ false }
    ensures asked { AsksFor (ask_refuse op sock peer) (W.seen world.old) (W.seen world.new)
        (λ answer. answer) result }
    ensures err { OnErr result (W.seen world.new ≡ W.seen world.old) }
{
    world.call(op, Call::Refuse { sock, peer })?;
    Ok(())
}

/// Reads at most `size` bytes from a connection: pending, the bytes (none at the end), or a code.
/// Out of memory the call wasn't made.
pub fn read<W: World>(
    world: &mut W,
    op: OpId,
    sock: Sock,
    size: u32,
) -> Result<Polled<Octets>, AllocError>
    requires { (W.seen world.old).ended ≡ false }
    ensures asked { AsksFor (ask_read op sock size) (W.seen world.old) (W.seen world.new)
        (λ answer. answer) result }
    ensures within { IfOk result (λ answer. IsReadOf size answer) }
    ensures err { OnErr result (W.seen world.new ≡ W.seen world.old) }
{
    let told = world.call(op, Call::Read { sock, size })?;
    Ok(told_bytes(told))
}

/// Whether a read of a connection would be answered now, with bytes, its end or a code. Out of
/// memory the call wasn't made.
pub fn read_ready<W: World>(world: &mut W, op: OpId, sock: Sock) -> Result<Answer<()>, AllocError>
    requires { (W.seen world.old).ended ≡ false }
    ensures asked { AsksFor (ask_read_ready op sock) (W.seen world.old) (W.seen world.new)
        (λ answer. answer) result }
    ensures err { OnErr result (W.seen world.new ≡ W.seen world.old) }
{
    let told = world.call(op, Call::ReadReady { sock })?;
    Ok(told_ready(told))
}

/// Whether a connection would take bytes now, or answer a write with a code. Out of memory the call
/// wasn't made.
pub fn write_ready<W: World>(world: &mut W, op: OpId, sock: Sock) -> Result<Answer<()>, AllocError>
    requires { (W.seen world.old).ended ≡ false }
    ensures asked { AsksFor (ask_write_ready op sock) (W.seen world.old) (W.seen world.new)
        (λ answer. answer) result }
    ensures err { OnErr result (W.seen world.new ≡ W.seen world.old) }
{
    let told = world.call(op, Call::WriteReady { sock })?;
    Ok(told_ready(told))
}

/// Shuts down one half of a connection, the one that is received or the one that is sent; the call
/// can't fail but for memory, and then it wasn't made.
pub fn shutdown<W: World>(
    world: &mut W,
    op: OpId,
    sock: Sock,
    how: ShutdownType,
) -> Result<(), AllocError>
    requires { (W.seen world.old).ended ≡ false }
    ensures asked { AsksFor (ask_shutdown op sock how) (W.seen world.old) (W.seen world.new)
        (λ answer. answer) result }
    ensures err { OnErr result (W.seen world.new ≡ W.seen world.old) }
{
    world.call(op, Call::Shutdown { sock, how })?;
    Ok(())
}

/// Reads an option of a socket, in the unit of [`Opt`], or fails with a code. Out of memory the
/// call wasn't made.
pub fn get_option<W: World>(
    world: &mut W,
    op: OpId,
    sock: Sock,
    option: Opt,
) -> Result<Result<u64, ErrorCode>, AllocError>
    requires { (W.seen world.old).ended ≡ false }
    ensures asked { AsksFor (ask_get_option op sock option) (W.seen world.old) (W.seen world.new)
        (λ answer. answer) result }
    ensures err { OnErr result (W.seen world.new ≡ W.seen world.old) }
{
    let told = world.call(op, Call::GetOption { sock, option })?;
    Ok(told_value(told))
}

/// Sets an option of a socket to a value in the unit of [`Opt`], or fails with a code. Out of
/// memory the call wasn't made.
pub fn set_option<W: World>(
    world: &mut W,
    op: OpId,
    sock: Sock,
    option: Opt,
    value: u64,
) -> Result<Result<(), ErrorCode>, AllocError>
    requires { (W.seen world.old).ended ≡ false }
    ensures asked { AsksFor (ask_set_option op sock option value) (W.seen world.old)
        (W.seen world.new) (λ answer. answer) result }
    ensures err { OnErr result (W.seen world.new ≡ W.seen world.old) }
{
    let told = world.call(
        op,
        Call::SetOption {
            sock,
            option,
            value,
        },
    )?;
    Ok(told_done(told))
}

/// Closes a socket; the call can't fail but for memory, and then it wasn't made.
pub fn close<W: World>(world: &mut W, op: OpId, sock: Sock) -> Result<(), AllocError>
    requires { (W.seen world.old).ended ≡ false }
    ensures asked { AsksFor (ask_close op sock) (W.seen world.old) (W.seen world.new)
        (λ answer. answer) result }
    ensures err { OnErr result (W.seen world.new ≡ W.seen world.old) }
{
    world.call(op, Call::Close { sock })?;
    Ok(())
}

/// Logs that a handle was made: its kind, the handle that it is a child of, and the socket that it
/// belongs to. Out of memory it isn't logged.
pub fn made<W: World>(
    world: &mut W,
    op: OpId,
    handle: u32,
    kind: HandleKind,
    parent: Option<u32>,
    sock: Option<Sock>,
) -> Result<(), AllocError>
    requires { (W.seen world.old).ended ≡ false }
    ensures asked { AsksFor (ask_made op handle kind parent sock) (W.seen world.old)
        (W.seen world.new) (λ answer. answer) result }
    ensures err { OnErr result (W.seen world.new ≡ W.seen world.old) }
{
    world.call(
        op,
        Call::Made {
            handle,
            kind,
            parent,
            sock,
        },
    )?;
    Ok(())
}

/// Offers bytes to a connection: pending, how many of them were taken, from the front, or a code.
/// Out of memory the call wasn't made.
pub fn write<W: World>(
    world: &mut W,
    op: OpId,
    sock: Sock,
    bytes: &[u8],
) -> Result<Polled<usize>, AllocError>
    requires open { (W.seen world.old).ended ≡ false }
    requires some { 1 ≤ length bytes.now }
    requires short { length bytes.now < 2 ^ 32 }
    ensures asked { AsksFor (ask_write op sock bytes.now) (W.seen world.old) (W.seen world.new)
        (λ answer. answer) result }
    ensures within { IfOk result (λ answer. IsTakenOf (length bytes.now) answer) }
    ensures err { OnErr result (W.seen world.new ≡ W.seen world.old) }
{
    let told = world.write(op, sock, bytes)?;
    Ok(told_taken(told))
}
