//! Finds the yes of the embedder's check that allows a call: one that the licence asks for.

ghost use Rattle.std.specs.Prelude.{◌≡◌, IsTrue, IfSome, Some, slice_get};
ghost use Rattle.wasi_world.specs.declared.call.Call.TheVariants.{Check};
ghost use Rattle.wasi_world.specs.declared.call.Told.TheVariants.{Yes};
ghost use Rattle.wasi_walks.specs.Licence.{IsMaker, entry};
ghost use Rattle.log_picture.specs.Yes.{IsYesAt, WasLocal, IsListenAt, IsAllowedAt};

use wasi_addr::{IpSocketAddress, SocketAddrUse, SocketAddressFamily, unspecified_addr};
use wasi_world::{Call, Entry, OpId, Sock, Told};

/// The creator of a network socket.
#[derive(Clone, Copy)]
pub struct Maker {
    pub ctx: u32,
    pub family: SocketAddressFamily,
}

/// The context that created a network socket and its family: those in its create, or where it was
/// handed over those of the listener.
pub fn maker_of(log: &[Entry], side: Sock) -> Option<Maker>
    ensures { IfSome result (λ maker. IsMaker log.now maker.ctx maker.family side) }
{
    let mut side = side;
    for place in (0..log.len()).rev() {
        let entry = log.get(place)?;
        if entry.op == side {
            match &entry.call {
                Call::TcpCreate { ctx, family } => {
                    return Some(Maker {
                        ctx: *ctx,
                        family: *family,
                    });
                }
                Call::UdpCreate { ctx, family } => {
                    return Some(Maker {
                        ctx: *ctx,
                        family: *family,
                    });
                }
                Call::Hand { sock, .. } => side = *sock,
                _ => {}
            }
        }
    }
    None
}

/// Whether the entry is a check of this operation that was answered yes for the address and use.
fn is_yes(found: &Entry, op: OpId, ctx: u32, addr: IpSocketAddress, usage: SocketAddrUse) -> bool
    ensures { IsTrue result → found.now ≡ entry op (Check ctx addr usage) Yes }
{
    match (&found.call, &found.answer) {
        (
            Call::Check {
                ctx: c,
                addr: a,
                usage: u,
            },
            Told::Yes,
        ) => found.op == op && *c == ctx && *a == addr && *u == usage,
        _ => false,
    }
}

/// The place of the last yes, among the entries, that the operation had for this address and use
/// from this context.
fn last_yes(
    before: &[Entry],
    op: OpId,
    ctx: u32,
    addr: IpSocketAddress,
    usage: SocketAddrUse,
) -> Option<usize>
    ensures { IfSome result (λ place. slice_get before.now place ≡ Some (entry op (Check ctx addr
        usage) Yes)) }
{
    for place in (0..before.len()).rev() {
        let found = before.get(place)?;
        if is_yes(found, op, ctx, addr, usage) {
            return Some(place);
        }
    }
    None
}

/// The place of the last yes, among the entries, that the operation had for this address and use
/// from the creator of the network socket.
pub fn find_yes(
    before: &[Entry],
    op: OpId,
    side: Sock,
    addr: IpSocketAddress,
    usage: SocketAddrUse,
) -> Option<usize>
    ensures { IfSome result (λ place. IsYesAt before.now op side addr usage place) }
{
    let maker = maker_of(before, side)?;
    last_yes(before, op, maker.ctx, addr, usage)
}

/// The local address of a network socket, as it was last reported.
fn last_local(before: &[Entry], side: Sock) -> Option<IpSocketAddress>
    ensures { IfSome result (λ addr. WasLocal before.now side addr) }
{
    for place in (0..before.len()).rev() {
        let found = before.get(place)?;
        if let (Call::Local { sock }, Told::Addr(addr)) = (&found.call, &found.answer) {
            if *sock == side {
                return Some(*addr);
            }
        }
    }
    None
}

/// The yes for a `listen` that was asked for the local address.
fn find_local_listen(before: &[Entry], op: OpId, side: Sock) -> Option<usize>
    ensures { IfSome result (λ place. IsListenAt before.now op side place) }
{
    let addr = last_local(before, side)?;
    find_yes(before, op, side, addr, SocketAddrUse::TcpListen)
}

/// The yes for a `listen` that was asked for the wildcard.
fn find_wildcard_listen(before: &[Entry], op: OpId, side: Sock) -> Option<usize>
    ensures { IfSome result (λ place. IsListenAt before.now op side place) }
{
    let Maker { family, .. } = maker_of(before, side)?;
    let wildcard = unspecified_addr(family);
    find_yes(before, op, side, wildcard, SocketAddrUse::TcpListen)
}

/// The yes that allows a `listen`: for the local address, or for the wildcard.
fn find_listen(before: &[Entry], op: OpId, side: Sock) -> Option<usize>
    ensures { IfSome result (λ place. IsListenAt before.now op side place) }
{
    match find_local_listen(before, op, side) {
        Some(place) => Some(place),
        None => find_wildcard_listen(before, op, side),
    }
}

/// The place of the yes that allows the call, among the entries before it; none for a call that
/// needs none. A `udp-connect` needs two, of which this is the one for sending.
pub fn allowed_by(before: &[Entry], op: OpId, call: &Call) -> Option<usize>
    ensures { IfSome result (λ place. IsAllowedAt before.now op call.now place) }
{
    match call {
        Call::Bind { sock, addr } => find_yes(before, op, *sock, *addr, SocketAddrUse::TcpBind),
        Call::UdpBind { sock, addr } => find_yes(before, op, *sock, *addr, SocketAddrUse::UdpBind),
        Call::Connect { sock, addr } => {
            find_yes(before, op, *sock, *addr, SocketAddrUse::TcpConnect)
        }
        Call::UdpConnect { sock, addr } => {
            find_yes(before, op, *sock, *addr, SocketAddrUse::UdpSend)
        }
        Call::Send { sock, addr, .. } => find_yes(before, op, *sock, *addr, SocketAddrUse::UdpSend),
        Call::Hand { sock, peer } => find_yes(before, op, *sock, *peer, SocketAddrUse::TcpAccept),
        Call::Listen { sock, .. } => find_listen(before, op, *sock),
        _ => None,
    }
}
