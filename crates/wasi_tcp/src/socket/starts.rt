//! The calls that bind a socket, connect it or let it listen.

ghost use Rattle.std.specs.Prelude.{◌≡◌, true, false, OnErr, IfOk, Ok, Some, None};
ghost use Rattle.wasi_world.specs.Asks.{AsksFor, Reaches, outcome};
ghost use Rattle.socket_common.specs.Rounds.{is_going};
ghost use Rattle.wasi_tcp.specs.Bind.{IsOf};

use crate::bind::BindOp;
use crate::connect::ConnectOp;
use crate::listen::ListenOp;
use crate::listener::TcpListenStream;
use crate::socket::{TcpSocket, TcpState};
use socket_common::Asker;
use wasi_addr::{
    ErrorCode, IpSocketAddress, is_valid_address_family, is_valid_remote_address,
    is_valid_unicast_address, unspecified_addr,
};
use wasi_world::{Answer, OpId, Refusal, Sock, World};

impl TcpSocket {
    ghost use Rattle.wasi_tcp.specs.Socket.{side_of, bind_asks, bind_start};
    ghost use Rattle.wasi_tcp.specs.Connecting.{start_connect_asks, connect_start};
    ghost use Rattle.wasi_tcp.specs.Connecting.{finish_connect_asks, HoldsConnect};
    ghost use Rattle.wasi_tcp.specs.Listening.{listen_asks, listen_start, listen_told};
    ghost use Rattle.wasi_tcp.specs.Listening.{listen_settled};

    /// Begins a bind to the address. Bound, or not in the state Default: `InvalidState`. Not
    /// unicast, or not of the socket's family: `InvalidArgument`. After running out of memory
    /// nothing was asked, and the socket is as it was.
    pub fn bind<W: World>(
        &mut self,
        world: &mut W,
        op: OpId,
        addr: IpSocketAddress,
    ) -> Result<BindOp, Refusal>
        requires { (W.seen world.old).ended ≡ false }
        ensures asked { AsksFor (bind_asks op self.old addr) (W.seen world.old) (W.seen world.new)
            (λ begun. (begun, self.new)) (outcome result) }
        ensures its_socket { IfOk result (λ begun. IsOf begun self.new) }
        ensures going { IfOk result (λ begun. is_going begun ≡ true) }
        ensures err { OnErr (outcome result) (self.new ≡ self.old) }
        ensures unasked { OnErr (outcome result) (W.seen world.new ≡ W.seen world.old) }
        ensures side { side_of self.new ≡ side_of self.old }
    {
        let bound = self.is_bound(world, op)?;
        self.begin_bind(op, addr, bound)
    }

    /// The tests of a bind.
    fn begin_bind(&self, op: OpId, addr: IpSocketAddress, bound: bool) -> Result<BindOp, Refusal>
        ensures begun { outcome result ≡ Ok (bind_start op self.now addr bound) }
        ensures its_socket { IfOk result (λ begun. IsOf begun self.now) }
        ensures going { IfOk result (λ begun. is_going begun ≡ true) }
    {
        if bound {
            return Err(Refusal::Code(ErrorCode::InvalidState));
        }
        match self.state {
            TcpState::Default(side) => {
                if !is_valid_unicast_address(addr.ip())
                    || !is_valid_address_family(addr.ip(), self.family)
                {
                    return Err(Refusal::Code(ErrorCode::InvalidArgument));
                }
                Ok(BindOp::new(op, side, self.maker, addr))
            }
            _ => Err(Refusal::Code(ErrorCode::InvalidState)),
        }
    }

    /// Begins a connect to the address, which `poll_finish_connect` polls; nothing is checked yet.
    /// Not in the state Default: `InvalidState`, without an ask. Not unicast, not remote, or not of
    /// the socket's family: `InvalidArgument`, and the socket stays in the state Default. After
    /// running out of memory nothing was asked, and the socket is as it was.
    pub fn start_connect<W: World>(
        &mut self,
        world: &mut W,
        op: OpId,
        addr: IpSocketAddress,
    ) -> Result<(), Refusal>
        requires { (W.seen world.old).ended ≡ false }
        ensures asked { AsksFor (start_connect_asks op self.old addr) (W.seen world.old)
            (W.seen world.new) (λ answer. (answer, self.new)) (outcome result) }
        ensures err { OnErr (outcome result) (self.new ≡ self.old) }
        ensures unasked { OnErr (outcome result) (W.seen world.new ≡ W.seen world.old) }
        ensures side { side_of self.new ≡ side_of self.old }
    {
        let TcpState::Default(side) = self.state else {
            return Err(Refusal::Code(ErrorCode::InvalidState));
        };
        let bound = self.is_bound(world, op)?;
        self.begin_connect(op, side, addr, bound)
    }

    /// The tests of a connect.
    fn begin_connect(
        &mut self,
        op: OpId,
        side: Sock,
        addr: IpSocketAddress,
        bound: bool,
    ) -> Result<(), Refusal>
        requires { side_of self.old ≡ Some side }
        ensures answer { outcome result ≡ Ok (connect_start op side self.old addr bound).0 }
        ensures socket { self.new ≡ (connect_start op side self.old addr bound).1 }
        ensures side { side_of self.new ≡ side_of self.old }
    {
        if !is_valid_unicast_address(addr.ip())
            || !is_valid_remote_address(addr)
            || !is_valid_address_family(addr.ip(), self.family)
        {
            return Err(Refusal::Code(ErrorCode::InvalidArgument));
        }
        let asker = Asker {
            op,
            side,
            maker: self.maker,
        };
        let wildcard = unspecified_addr(self.family);
        self.state = TcpState::Connecting(ConnectOp::new(asker, wildcard, addr, bound));
        Ok(())
    }

    /// Polls the connect that was started: done, the socket is Connected; refused, its network
    /// socket is closed, and it is Closed with the code that is answered. Connected already: ready.
    /// Closed: its code. Default: `InvalidState`. After running out of memory the connect is as
    /// after its last answered ask, and may be polled again.
    pub fn poll_finish_connect<W: World>(&mut self, world: &mut W) -> Result<Answer<()>, Refusal>
        requires { (W.seen world.old).ended ≡ false }
        ensures asked { AsksFor (finish_connect_asks self.old) (W.seen world.old) (W.seen world.new)
            (λ answer. (answer, self.new)) (outcome result) }
        ensures err { OnErr (outcome result) (Reaches (finish_connect_asks self.old)
            (finish_connect_asks self.new) (W.seen world.old) (W.seen world.new)) }
        ensures side { OnErr (outcome result) (side_of self.new ≡ side_of self.old) }
        ensures before { HoldsConnect self.old.state }
        ensures after { HoldsConnect self.new.state }
    {
        self.state.poll_finish_connect(world)
    }

    /// Begins to listen (`tcp-socket.start-listen`); `ListenOp::poll` continues with it. Not in the
    /// state Default: `InvalidState`. The operation takes the network socket with it: from here on
    /// the socket is Closed, with the code `Other`, until the listen is done. Nothing is checked
    /// yet. After running out of memory nothing was asked, and the socket is as it was.
    pub fn listen<W: World>(&mut self, world: &mut W, op: OpId) -> Result<ListenOp, Refusal>
        requires { (W.seen world.old).ended ≡ false }
        ensures asked { AsksFor (listen_asks op self.old) (W.seen world.old) (W.seen world.new)
            (λ begun. (begun, self.new)) (outcome result) }
        ensures taken { IfOk result (λ begun. (side_of self.old ≡ Some begun.who.side)
            × (side_of self.new ≡ None)) }
        ensures refused { OnErr result (side_of self.new ≡ side_of self.old) }
        ensures err { OnErr (outcome result) (self.new ≡ self.old) }
        ensures unasked { OnErr (outcome result) (W.seen world.new ≡ W.seen world.old) }
    {
        let bound = self.is_bound(world, op)?;
        self.begin_listen(op, bound)
    }

    /// The test of a listen, and what it makes of the socket.
    fn begin_listen(&mut self, op: OpId, bound: bool) -> Result<ListenOp, Refusal>
        ensures begun { outcome result ≡ Ok (listen_start op self.old bound self.old.state).0 }
        ensures socket { self.new ≡ (listen_start op self.old bound self.old.state).1 }
        ensures taken { IfOk result (λ begun. (side_of self.old ≡ Some begun.who.side)
            × (side_of self.new ≡ None)) }
        ensures refused { OnErr result (side_of self.new ≡ side_of self.old) }
    {
        let TcpState::Default(side) = self.state else {
            return Err(Refusal::Code(ErrorCode::InvalidState));
        };
        let asker = Asker {
            op,
            side,
            maker: self.maker,
        };
        let wildcard = unspecified_addr(self.family);
        self.state = TcpState::Closed(ErrorCode::Other);
        Ok(ListenOp::new(asker, wildcard, self.backlog, bound))
    }

    /// What a poll of its listen makes of it, and of the answer.
    pub(crate) fn settle_listen(
        &mut self,
        side: Sock,
        maker: u32,
        polled: Result<Answer<()>, Refusal>,
    ) -> Result<Answer<TcpListenStream>, Refusal>
        ensures told { result ≡ listen_told side maker self.old polled }
        ensures socket { self.new ≡ listen_settled side self.old polled }
    {
        match polled {
            Ok(Answer::Ready(())) => {
                self.state = TcpState::Listening(side);
                Ok(Answer::Ready(TcpListenStream::new(side, maker, self.family)))
            }
            Ok(Answer::Pending) => Ok(Answer::Pending),
            Err(refusal) => Err(refusal),
        }
    }
}
