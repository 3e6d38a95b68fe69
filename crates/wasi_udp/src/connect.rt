//! A connect that is polled. Its last ask is for the remote address, whatever the network answered
//! before.

ghost use Rattle.std.specs.Prelude.{◌≡◌, true, false, OnErr, IfOk};
ghost use Rattle.wasi_world.specs.Asks.{AsksFor, Reaches, outcome};
ghost use Rattle.socket_common.specs.Rounds.{is_going, stays_going};
ghost use Rattle.wasi_udp.specs.Bind.{IsOf};
ghost use Rattle.wasi_udp.specs.Connect.{connect_operation, connect_start, connect_asks};
ghost use Rattle.wasi_udp.specs.Connect.{connect_poll_asks, is_connectable, connect_told};
ghost use Rattle.wasi_udp.specs.Connect.{connect_settled, connect_going, PollsConnect, IsConnect};
ghost use Rattle.wasi_udp.specs.Connect.{connect_first};

use crate::address::remote_told;
use crate::socket::UdpSocket;
use socket_common::Asker;
use std::alloc::AllocError;
use std::marker::Model;
use wasi_addr::{
    ErrorCode, IpSocketAddress, SocketAddrUse, SocketAddressFamily, is_valid_address_family,
    is_valid_remote_address, unspecified_addr,
};
use wasi_world::asks::Verdict;
use wasi_world::{Answer, OpId, Refusal, World, asks};

/// The next call of a connect.
#[derive(Clone, Copy, Debug, PartialEq, Eq)]
pub enum UdpConnectStage {
    /// The check of the wildcard, for the bind of a socket that wasn't bound.
    CheckWildcard,
    /// The check of the address for what is sent.
    CheckSend,
    /// The check of the address for what is received.
    CheckReceive,
    /// The connect.
    Connect,
    /// The question for the remote address; the network answered the connect with this.
    Peer(Result<(), ErrorCode>),
    /// None: it ended, connected or with a code.
    Over,
}

/// How a connect ended.
#[derive(Clone, Copy, Debug, PartialEq, Eq)]
pub(crate) enum ConnectEnd {
    /// With this code, before the network was asked to connect.
    Refused(ErrorCode),
    /// With this answer of the network, and the remote address that it reported then.
    Told(Result<(), ErrorCode>, Option<IpSocketAddress>),
}

/// A connect in progress: the check of the wildcard where the socket wasn't bound, two checks of
/// the address, the connect, and then the question for the remote address.
#[derive(Drop)]
pub struct UdpConnectOp {
    asker: Asker,
    family: SocketAddressFamily,
    addr: IpSocketAddress,
    stage: UdpConnectStage,
}

impl Model for UdpConnectOp {
    ghost use Rattle.wasi_world.specs.Operation.{Operation};
    ghost use Rattle.wasi_udp.specs.Connect.{connect_operation};

    ghost Value = { Operation };

    ghost view = { λ o. connect_operation o.asker o.family o.addr o.stage };
}

impl UdpSocket {
    /// Begins a connect to the address, as `udp-socket.stream` with an address does; nothing is
    /// checked yet, and `UdpConnectOp::poll` continues it. Not of the socket's family, or not a
    /// remote address: `InvalidArgument`, and nothing is asked. Else it is asked whether the socket
    /// is bound. Out of memory nothing was asked, and the socket stays as it was.
    pub fn connect<W: World>(
        &mut self,
        world: &mut W,
        op: OpId,
        addr: IpSocketAddress,
    ) -> Result<UdpConnectOp, Refusal>
        requires { (W.seen world.old).ended ≡ false }
        ensures asked { AsksFor (connect_asks op self.old addr) (W.seen world.old)
            (W.seen world.new) (λ begun. (begun, self.new)) (outcome result) }
        ensures its_socket { IfOk result (λ begun. IsOf begun self.new) }
        ensures going { IfOk result (λ begun. is_going begun ≡ true) }
        ensures err { OnErr (outcome result) (self.new ≡ self.old) }
        ensures unasked { OnErr (outcome result) (W.seen world.new ≡ W.seen world.old) }
        ensures side { self.new.side ≡ self.old.side }
    {
        if !self.is_connectable(addr) {
            return Err(Refusal::Code(ErrorCode::InvalidArgument));
        }
        let bound = self.is_bound(world, op)?;
        Ok(self.begin_connect(op, addr, bound))
    }

    /// Whether it may connect to the address: of its family, and remote.
    fn is_connectable(&self, addr: IpSocketAddress) -> bool
        ensures { result ≡ is_connectable self.now addr }
    {
        is_valid_address_family(addr.ip(), self.address_family()) && is_valid_remote_address(addr)
    }

    /// The connect, from its first stage on.
    fn begin_connect(&self, op: OpId, addr: IpSocketAddress, bound: bool) -> UdpConnectOp
        ensures begun { result ≡ connect_start op self.now addr bound }
        ensures its_socket { IsOf result self.now }
        ensures going { is_going result ≡ true }
    {
        let stage = if bound {
            UdpConnectStage::CheckSend
        } else {
            UdpConnectStage::CheckWildcard
        };
        UdpConnectOp {
            asker: self.asker(op),
            family: self.address_family(),
            addr,
            stage,
        }
    }

    /// Keeps in the socket what a poll of its connect came to, and gives the answer.
    fn settle_connect(
        &mut self,
        polled: Result<Answer<ConnectEnd>, AllocError>,
    ) -> Result<Answer<()>, Refusal>
        ensures told { result ≡ connect_told polled }
        ensures socket { self.new ≡ connect_settled self.old polled }
        ensures side { self.new.side ≡ self.old.side }
    {
        match polled {
            Ok(Answer::Pending) => Ok(Answer::Pending),
            Ok(Answer::Ready(ConnectEnd::Refused(code))) => Err(Refusal::Code(code)),
            Ok(Answer::Ready(ConnectEnd::Told(told, remote))) => {
                self.set_remote(remote);
                match told {
                    Ok(()) => Ok(Answer::Ready(())),
                    Err(code) => Err(Refusal::Code(code)),
                }
            }
            Err(error) => Err(Refusal::Memory(error)),
        }
    }
}

impl UdpConnectOp {
    /// Continues the connect of the socket that began it, until a call is pending.
    ///
    /// - A check that is pending is asked again by the next poll.
    /// - A no is `AccessDenied`, and the remote address stays as it was.
    /// - After the connect the network is asked for the remote address: what it reports is kept,
    ///   and a code or the wildcard is kept as none. Then the connect's code is returned.
    /// - Out of memory it stays after its last answered call, and may be polled again.
    /// - One that has ended is `InvalidState`, and nothing is asked.
    pub fn poll<W: World>(
        &mut self,
        world: &mut W,
        socket: &mut UdpSocket,
    ) -> Result<Answer<()>, Refusal>
        requires { (W.seen world.old).ended ≡ false }
        ensures asked { AsksFor (connect_poll_asks self.old socket.old) (W.seen world.old)
            (W.seen world.new) (λ answer. (answer, (self.new, socket.new))) (outcome result) }
        ensures err { OnErr (outcome result) (Reaches (connect_poll_asks self.old socket.old)
            (connect_poll_asks self.new socket.new) (W.seen world.old) (W.seen world.new)) }
        ensures going { is_going self.new ≡ stays_going result }
        ensures side { socket.new.side ≡ socket.old.side }
        ensures before { IsConnect self.old }
        ensures after { IsConnect self.new }
    {
        if !self.is_going() {
            return Err(Refusal::Code(ErrorCode::InvalidState));
        }
        let polled = self.poll_stage(world);
        socket.settle_connect(polled)
    }

    /// Whether an ask is left.
    fn is_going(&self) -> bool
        ensures going { result ≡ is_going self.now }
        ensures connect { IsConnect self.now }
    {
        match self.stage {
            UdpConnectStage::CheckWildcard
            | UdpConnectStage::CheckSend
            | UdpConnectStage::CheckReceive
            | UdpConnectStage::Connect
            | UdpConnectStage::Peer(_) => true,
            UdpConnectStage::Over => false,
        }
    }

    /// Makes the next calls, until one is pending or none is left.
    fn poll_stage<W: World>(&mut self, world: &mut W) -> Result<Answer<ConnectEnd>, AllocError>
        requires open { (W.seen world.old).ended ≡ false }
        requires going { is_going self.old ≡ true }
        ensures polled { PollsConnect self.old self.new (W.seen world.old) (W.seen world.new)
            result }
        ensures going { is_going self.new ≡ connect_going result }
        ensures after { IsConnect self.new }
        ensures open { (W.seen world.new).ended ≡ false }
    {
        let (asker, family, addr) = (self.asker, self.family, self.addr);
        match self.stage {
            UdpConnectStage::CheckWildcard => {
                poll_wildcard(world, asker, family, addr, &mut self.stage)
            }
            UdpConnectStage::CheckSend => {
                poll_check_send(world, asker, family, addr, &mut self.stage)
            }
            UdpConnectStage::CheckReceive => {
                poll_check_receive(world, asker, family, addr, &mut self.stage)
            }
            UdpConnectStage::Connect => poll_connect(world, asker, family, addr, &mut self.stage),
            UdpConnectStage::Peer(told) => {
                poll_peer(world, asker, family, addr, &mut self.stage, told)
            }
            UdpConnectStage::Over => unreachable!(),
        }
    }
}

fn poll_wildcard<W: World>(
    world: &mut W,
    asker: Asker,
    family: SocketAddressFamily,
    addr: IpSocketAddress,
    stage: &mut UdpConnectStage,
) -> Result<Answer<ConnectEnd>, AllocError>
    requires open { (W.seen world.old).ended ≡ false }
    requires stage { stage.old ≡ UdpConnectStage.CheckWildcard }
    ensures polled { PollsConnect (connect_operation asker family addr stage.old)
        (connect_operation asker family addr stage.new) (W.seen world.old) (W.seen world.new)
        result }
    ensures going { is_going (connect_operation asker family addr stage.new)
        ≡ connect_going result }
    ensures open { (W.seen world.new).ended ≡ false }
{
    let wildcard = unspecified_addr(family);
    let verdict = asks::check(
        world,
        asker.op,
        asker.maker,
        wildcard,
        SocketAddrUse::UdpBind,
    )?;
    match verdict {
        Verdict::Pending => return Ok(Answer::Pending),
        Verdict::No => return Ok(refused(stage)),
        Verdict::Yes => {}
    }
    *stage = UdpConnectStage::CheckSend;
    poll_check_send(world, asker, family, addr, stage)
}

fn poll_check_send<W: World>(
    world: &mut W,
    asker: Asker,
    family: SocketAddressFamily,
    addr: IpSocketAddress,
    stage: &mut UdpConnectStage,
) -> Result<Answer<ConnectEnd>, AllocError>
    requires open { (W.seen world.old).ended ≡ false }
    requires stage { stage.old ≡ UdpConnectStage.CheckSend }
    ensures polled { PollsConnect (connect_operation asker family addr stage.old)
        (connect_operation asker family addr stage.new) (W.seen world.old) (W.seen world.new)
        result }
    ensures going { is_going (connect_operation asker family addr stage.new)
        ≡ connect_going result }
    ensures open { (W.seen world.new).ended ≡ false }
{
    let verdict = asks::check(world, asker.op, asker.maker, addr, SocketAddrUse::UdpSend)?;
    match verdict {
        Verdict::Pending => return Ok(Answer::Pending),
        Verdict::No => return Ok(refused(stage)),
        Verdict::Yes => {}
    }
    *stage = UdpConnectStage::CheckReceive;
    poll_check_receive(world, asker, family, addr, stage)
}

fn poll_check_receive<W: World>(
    world: &mut W,
    asker: Asker,
    family: SocketAddressFamily,
    addr: IpSocketAddress,
    stage: &mut UdpConnectStage,
) -> Result<Answer<ConnectEnd>, AllocError>
    requires open { (W.seen world.old).ended ≡ false }
    requires stage { stage.old ≡ UdpConnectStage.CheckReceive }
    ensures polled { PollsConnect (connect_operation asker family addr stage.old)
        (connect_operation asker family addr stage.new) (W.seen world.old) (W.seen world.new)
        result }
    ensures going { is_going (connect_operation asker family addr stage.new)
        ≡ connect_going result }
    ensures open { (W.seen world.new).ended ≡ false }
{
    let verdict = asks::check(
        world,
        asker.op,
        asker.maker,
        addr,
        SocketAddrUse::UdpReceive,
    )?;
    match verdict {
        Verdict::Pending => return Ok(Answer::Pending),
        Verdict::No => return Ok(refused(stage)),
        Verdict::Yes => {}
    }
    *stage = UdpConnectStage::Connect;
    poll_connect(world, asker, family, addr, stage)
}

/// A check said no: nothing is left to be asked.
fn refused(stage: &mut UdpConnectStage) -> Answer<ConnectEnd>
    ensures end { result ≡ Answer.Ready (ConnectEnd.Refused ErrorCode.AccessDenied) }
    ensures stage { stage.new ≡ UdpConnectStage.Over }
{
    *stage = UdpConnectStage::Over;
    Answer::Ready(ConnectEnd::Refused(ErrorCode::AccessDenied))
}

fn poll_connect<W: World>(
    world: &mut W,
    asker: Asker,
    family: SocketAddressFamily,
    addr: IpSocketAddress,
    stage: &mut UdpConnectStage,
) -> Result<Answer<ConnectEnd>, AllocError>
    requires open { (W.seen world.old).ended ≡ false }
    requires stage { stage.old ≡ UdpConnectStage.Connect }
    ensures polled { PollsConnect (connect_operation asker family addr stage.old)
        (connect_operation asker family addr stage.new) (W.seen world.old) (W.seen world.new)
        result }
    ensures going { is_going (connect_operation asker family addr stage.new)
        ≡ connect_going result }
    ensures open { (W.seen world.new).ended ≡ false }
{
    let told = asks::udp_connect(world, asker.op, asker.side, addr)?;
    *stage = UdpConnectStage::Peer(told);
    poll_peer(world, asker, family, addr, stage, told)
}

fn poll_peer<W: World>(
    world: &mut W,
    asker: Asker,
    family: SocketAddressFamily,
    addr: IpSocketAddress,
    stage: &mut UdpConnectStage,
    told: Result<(), ErrorCode>,
) -> Result<Answer<ConnectEnd>, AllocError>
    requires open { (W.seen world.old).ended ≡ false }
    requires stage { stage.old ≡ UdpConnectStage.Peer told }
    ensures polled { PollsConnect (connect_operation asker family addr stage.old)
        (connect_operation asker family addr stage.new) (W.seen world.old) (W.seen world.new)
        result }
    ensures going { is_going (connect_operation asker family addr stage.new)
        ≡ connect_going result }
    ensures open { (W.seen world.new).ended ≡ false }
{
    let peer = asks::peer(world, asker.op, asker.side)?;
    *stage = UdpConnectStage::Over;
    let remote = remote_told(peer, family);
    Ok(Answer::Ready(ConnectEnd::Told(told, remote)))
}
