//! A datagram that is sent, and polled until it is.

ghost use Rattle.std.specs.Prelude.{◌≡◌, true, false, Err, OnErr, IfOk};
ghost use Rattle.wasi_world.specs.Asks.{AsksFor};
ghost use Rattle.wasi_world.specs.Operation.{PollsFor, Nothing, is_now};
ghost use Rattle.socket_common.specs.Rounds.{is_going, stays_going};
ghost use Rattle.wasi_udp.specs.Bind.{IsOf};
ghost use Rattle.wasi_udp.specs.Send.{send_operation, where_to, send_to, send_first, send_start};
ghost use Rattle.wasi_udp.specs.Send.{send_asks, at_remote, IsSend};

use crate::address::same_address;
use crate::socket::UdpSocket;
use socket_common::Asker;
use std::alloc::AllocError;
use std::marker::Model;
use wasi_addr::{
    ErrorCode, IpSocketAddress, SocketAddrUse, SocketAddressFamily, is_valid_address_family,
    is_valid_remote_address, unspecified_addr,
};
use wasi_world::asks::{Polled, Verdict};
use wasi_world::{Answer, Octets, OpId, Refusal, World, asks};

/// How many bytes a datagram has at most.
const MOST_BYTES: usize = 65_535;

/// Where a datagram goes, and whether that is the remote address that the socket had when the send
/// began.
#[derive(Clone, Copy, Debug, PartialEq, Eq)]
pub struct Destination {
    pub addr: IpSocketAddress,
    pub kept: bool,
}

/// The next call of a send.
#[derive(Clone, Copy, Debug, PartialEq, Eq)]
pub enum SendStage {
    /// None: the datagram can't be sent, and the next poll returns this code.
    Refused(ErrorCode),
    /// The check of the wildcard, for the bind of a socket that wasn't bound.
    CheckWildcard(Destination),
    /// The check of the address.
    Check(Destination),
    /// The send.
    Send(Destination),
    /// None: it ended, sent or with a code.
    Over,
}

/// The send of one datagram, in progress: the check of the wildcard where the socket wasn't bound,
/// the check of the address, and then the send. It keeps the bytes, which are never copied.
#[derive(Drop)]
pub struct SendOp {
    asker: Asker,
    family: SocketAddressFamily,
    bytes: Octets,
    stage: SendStage,
}

impl Model for SendOp {
    ghost use Rattle.wasi_world.specs.Operation.{Operation};
    ghost use Rattle.wasi_udp.specs.Send.{send_operation};

    ghost Value = { Operation };

    ghost view = { λ o. send_operation o.asker o.family o.bytes o.stage };
}

impl UdpSocket {
    /// Begins to send a datagram (`outgoing-datagram-stream.send`), to the address or, where none
    /// is given, to the socket's remote address. It is asked whether the socket is bound;
    /// `SendOp::poll` continues. A datagram that can't be sent is refused by the first poll:
    ///
    /// - more than 65,535 bytes: `DatagramTooLarge`;
    /// - an address that isn't remote, or not of the socket's family: `InvalidArgument`;
    /// - another address than the socket's remote address, or no address and no remote address:
    ///   `InvalidArgument`.
    ///
    /// Out of memory nothing was asked, and the socket stays as it was.
    pub fn send<W: World>(
        &mut self,
        world: &mut W,
        op: OpId,
        bytes: Octets,
        addr: Option<IpSocketAddress>,
    ) -> Result<SendOp, AllocError>
        requires { (W.seen world.old).ended ≡ false }
        ensures asked { AsksFor (send_asks op self.old bytes addr) (W.seen world.old)
            (W.seen world.new) (λ begun. (begun, self.new)) result }
        ensures its_socket { IfOk result (λ begun. IsOf begun self.new) }
        ensures going { IfOk result (λ begun. is_going begun ≡ true) }
        ensures err { OnErr result (self.new ≡ self.old) }
        ensures unasked { OnErr result (W.seen world.new ≡ W.seen world.old) }
        ensures side { self.new.side ≡ self.old.side }
    {
        let bound = self.is_bound(world, op)?;
        Ok(self.begin_send(op, bytes, addr, bound))
    }

    /// The send, from its first stage on.
    fn begin_send(
        &self,
        op: OpId,
        bytes: Octets,
        addr: Option<IpSocketAddress>,
        bound: bool,
    ) -> SendOp
        ensures begun { result ≡ send_start op self.now bytes addr bound }
        ensures its_socket { IsOf result self.now }
        ensures going { is_going result ≡ true }
    {
        let stage = first_stage(self.send_to(&bytes, addr), bound);
        SendOp {
            asker: self.asker(op),
            family: self.address_family(),
            bytes,
            stage,
        }
    }

    /// Where the bytes go, or why they can't be sent.
    fn send_to(
        &self,
        bytes: &Octets,
        addr: Option<IpSocketAddress>,
    ) -> Result<Destination, ErrorCode>
        ensures { result ≡ send_to self.now bytes.now addr }
    {
        if bytes.len() > MOST_BYTES {
            return Err(ErrorCode::DatagramTooLarge);
        }
        where_to(self.address_family(), self.remote(), addr)
    }
}

/// The stage that a send begins with.
fn first_stage(to: Result<Destination, ErrorCode>, bound: bool) -> SendStage
    ensures { result ≡ send_first to bound }
{
    match to {
        Ok(to) => {
            if bound {
                SendStage::Check(to)
            } else {
                SendStage::CheckWildcard(to)
            }
        }
        Err(code) => SendStage::Refused(code),
    }
}

/// Where a datagram goes: to the address, which has to be the remote address where there is one, or
/// without an address to the remote address.
fn where_to(
    family: SocketAddressFamily,
    remote: Option<IpSocketAddress>,
    addr: Option<IpSocketAddress>,
) -> Result<Destination, ErrorCode>
    ensures { result ≡ where_to family remote addr }
{
    match (remote, addr) {
        (None, None) => Err(ErrorCode::InvalidArgument),
        (Some(addr), None) => Ok(Destination { addr, kept: true }),
        (None, Some(addr)) => {
            if is_valid_remote_address(addr) && is_valid_address_family(addr.ip(), family) {
                Ok(Destination { addr, kept: false })
            } else {
                Err(ErrorCode::InvalidArgument)
            }
        }
        (Some(remote), Some(addr)) => {
            if is_valid_remote_address(addr)
                && is_valid_address_family(addr.ip(), family)
                && same_address(addr, remote)
            {
                Ok(Destination { addr, kept: true })
            } else {
                Err(ErrorCode::InvalidArgument)
            }
        }
    }
}

impl SendOp {
    /// Makes the calls that are left, until one is pending, for the socket that began it.
    ///
    /// - A check or a send that is pending is asked again by the next poll.
    /// - A no is `AccessDenied`, and a code is returned.
    /// - A datagram to the remote address that the socket had at the start is `InvalidState`, and
    ///   not sent, once the socket's remote address is another, or none.
    /// - Out of memory it stays after its last answered call, and may be polled again.
    /// - One that has ended is `InvalidState`, and nothing is asked.
    pub fn poll<W: World>(
        &mut self,
        world: &mut W,
        socket: &UdpSocket,
    ) -> Result<Answer<()>, Refusal>
        requires { (W.seen world.old).ended ≡ false }
        ensures polled { is_going self.old ≡ true
            → PollsFor (λ done. Nothing) Nothing (at_remote socket.now.remote self.old)
            (at_remote socket.now.remote self.new) (W.seen world.old) (W.seen world.new) result }
        ensures going { is_going self.new ≡ stays_going result }
        ensures over { is_going self.old ≡ false
            → result ≡ Err (Refusal.Code ErrorCode.InvalidState) }
        ensures unasked { is_going self.old ≡ false → W.seen world.new ≡ W.seen world.old }
        ensures stays { is_going self.old ≡ false → self.new ≡ self.old }
        ensures who { self.new.who ≡ self.old.who }
        ensures before { IsSend self.old }
        ensures after { IsSend self.new }
    {
        let (asker, family, remote) = (self.asker, self.family, socket.remote());
        let bytes = self.bytes.as_slice();
        match self.stage {
            SendStage::Refused(code) => {
                self.stage = SendStage::Over;
                Err(Refusal::Code(code))
            }
            SendStage::CheckWildcard(to) => {
                poll_wildcard(world, asker, family, remote, bytes, &mut self.stage, to)
            }
            SendStage::Check(to) => {
                poll_check(world, asker, family, remote, bytes, &mut self.stage, to)
            }
            SendStage::Send(to) => {
                poll_send(world, asker, family, remote, bytes, &mut self.stage, to)
            }
            SendStage::Over => Err(Refusal::Code(ErrorCode::InvalidState)),
        }
    }
}

fn poll_wildcard<W: World>(
    world: &mut W,
    asker: Asker,
    family: SocketAddressFamily,
    remote: Option<IpSocketAddress>,
    bytes: &[u8],
    stage: &mut SendStage,
    to: Destination,
) -> Result<Answer<()>, Refusal>
    requires open { (W.seen world.old).ended ≡ false }
    requires stage { stage.old ≡ SendStage.CheckWildcard to }
    ensures polled { PollsFor (λ done. Nothing) Nothing (at_remote remote
        (send_operation asker family bytes.now stage.old))
        (at_remote remote (send_operation asker family bytes.now stage.new)) (W.seen world.old)
        (W.seen world.new) result }
    ensures going { is_going (send_operation asker family bytes.now stage.new)
        ≡ stays_going result }
{
    let wildcard = unspecified_addr(family);
    let verdict = asks::check(
        world,
        asker.op,
        asker.maker,
        wildcard,
        SocketAddrUse::UdpBind,
    )?;
    match verdict {
        Verdict::Pending => return Ok(Answer::Pending),
        Verdict::No => {
            *stage = SendStage::Over;
            return Err(Refusal::Code(ErrorCode::AccessDenied));
        }
        Verdict::Yes => {}
    }
    *stage = SendStage::Check(to);
    poll_check(world, asker, family, remote, bytes, stage, to)
}

fn poll_check<W: World>(
    world: &mut W,
    asker: Asker,
    family: SocketAddressFamily,
    remote: Option<IpSocketAddress>,
    bytes: &[u8],
    stage: &mut SendStage,
    to: Destination,
) -> Result<Answer<()>, Refusal>
    requires open { (W.seen world.old).ended ≡ false }
    requires stage { stage.old ≡ SendStage.Check to }
    ensures polled { PollsFor (λ done. Nothing) Nothing (at_remote remote
        (send_operation asker family bytes.now stage.old))
        (at_remote remote (send_operation asker family bytes.now stage.new)) (W.seen world.old)
        (W.seen world.new) result }
    ensures going { is_going (send_operation asker family bytes.now stage.new)
        ≡ stays_going result }
{
    let verdict = asks::check(
        world,
        asker.op,
        asker.maker,
        to.addr,
        SocketAddrUse::UdpSend,
    )?;
    match verdict {
        Verdict::Pending => return Ok(Answer::Pending),
        Verdict::No => {
            *stage = SendStage::Over;
            return Err(Refusal::Code(ErrorCode::AccessDenied));
        }
        Verdict::Yes => {}
    }
    *stage = SendStage::Send(to);
    poll_send(world, asker, family, remote, bytes, stage, to)
}

fn poll_send<W: World>(
    world: &mut W,
    asker: Asker,
    family: SocketAddressFamily,
    remote: Option<IpSocketAddress>,
    bytes: &[u8],
    stage: &mut SendStage,
    to: Destination,
) -> Result<Answer<()>, Refusal>
    requires open { (W.seen world.old).ended ≡ false }
    requires stage { stage.old ≡ SendStage.Send to }
    ensures polled { PollsFor (λ done. Nothing) Nothing (at_remote remote
        (send_operation asker family bytes.now stage.old))
        (at_remote remote (send_operation asker family bytes.now stage.new)) (W.seen world.old)
        (W.seen world.new) result }
    ensures going { is_going (send_operation asker family bytes.now stage.new)
        ≡ stays_going result }
{
    if to.is_late(remote) {
        *stage = SendStage::Over;
        return Err(Refusal::Code(ErrorCode::InvalidState));
    }
    let told = asks::send(world, asker.op, asker.side, to.addr, bytes)?;
    match told {
        Polled::Pending => return Ok(Answer::Pending),
        Polled::Code(code) => {
            *stage = SendStage::Over;
            return Err(Refusal::Code(code));
        }
        Polled::Ready(()) => {}
    }
    *stage = SendStage::Over;
    Ok(Answer::Ready(()))
}

impl Destination {
    ghost use Rattle.wasi_udp.specs.Send.{is_late};

    /// Whether it goes to the remote address that the socket had at the start, and that is another
    /// now, or none.
    fn is_late(self, remote: Option<IpSocketAddress>) -> bool
        ensures { result ≡ is_late self remote }
    {
        match remote {
            Some(now) => self.kept && !same_address(self.addr, now),
            None => self.kept,
        }
    }
}
