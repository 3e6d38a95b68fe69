//! A TCP socket as the guest of the 0.2 interface has it: its record, its connect and its
//! addresses.

ghost use Rattle.std.specs.Prelude.{◌≡◌, false, Ok};
ghost use Rattle.wasi_world.specs.Asks.{AsksFor, outcome};
ghost use Rattle.wasi_tcp.specs.Socket.{side_of};
ghost use Rattle.record_common.specs.Stops.{host_outcome};
ghost use Rattle.tcp_records.specs.Sides.{Balances};
ghost use Rattle.record_common.specs.Sides.{no_socket};
ghost use Rattle.tcp_records.specs.Sockets.{begin_connect_asks, poll_connect_asks, connect_told};
ghost use Rattle.tcp_records.specs.Sockets.{connect_settled, opened, tell_local_asks};
ghost use Rattle.tcp_records.specs.Sockets.{tell_remote_asks, new_record};

use crate::tcp_binding::{AsyncOperation, InProgress};
use crate::tcp_listening::Listening;
use record_common::SocketError;
use wasi_addr::{IpSocketAddress, p2};
use wasi_tcp::{ReadState, TcpSocket, WriteState};
use wasi_world::{Answer, OpId, Refusal, Sock, World};

/// The two ends of a connection: what the guest reads from, and what it writes to.
#[derive(Drop)]
pub struct Streams {
    pub reader: ReadState,
    pub writer: WriteState,
}

/// The record of a TCP socket: the socket, its operation in progress, how far it is with listening,
/// and its streams once they were made.
#[derive(Drop)]
pub struct TcpRecord {
    // First, since each turn looks here: fields lie in this order, and a record is several cache
    // lines long.
    pub streams: Option<Streams>,
    pub inner: TcpSocket,
    /// The network socket that it was made with, also once that is closed: its handles are marked
    /// with it.
    pub side: Option<Sock>,
    pub in_progress: InProgress,
    pub listening: Listening,
    /// Its handle of 0.3 is gone, and the record stays for what else holds its network socket.
    pub dropped: bool,
    /// The context that made its network socket, also once that is closed: what its writer holds
    /// counts for this context.
    pub maker: u32,
}

impl TcpRecord {
    /// The record of a socket with no operation in progress and no streams. Takes no memory.
    pub fn new(inner: TcpSocket) -> TcpRecord
        ensures { result ≡ new_record inner }
    {
        let side = inner.side();
        let maker = inner.maker();
        TcpRecord {
            inner,
            side,
            in_progress: InProgress::Nothing,
            listening: Listening::Not,
            streams: None,
            dropped: false,
            maker,
        }
    }

    /// Begins a connect (`tcp-socket.start-connect`), which is in progress from then on.
    pub fn begin_connect<W: World>(
        &mut self,
        world: &mut W,
        op: OpId,
        addr: IpSocketAddress,
    ) -> Result<(), Refusal>
        requires { (W.seen world.old).ended ≡ false }
        ensures asked { AsksFor (begin_connect_asks op self.old addr) (W.seen world.old)
            (W.seen world.new) (λ done. (done, self.new)) (outcome result) }
        ensures side { side_of self.new.inner ≡ side_of self.old.inner }
        ensures listening { self.new.listening ≡ self.old.listening }
    {
        self.inner.start_connect(world, op, addr)?;
        self.in_progress = InProgress::Started(AsyncOperation::Connect);
        Ok(())
    }

    /// Polls the connect in progress once (`tcp-socket.finish-connect`). Pending: `WouldBlock`.
    /// Connected or refused, it is in progress no more.
    pub fn poll_connect<W: World>(&mut self, world: &mut W) -> Result<(), SocketError>
        requires { (W.seen world.old).ended ≡ false }
        ensures asked { AsksFor (poll_connect_asks self.old) (W.seen world.old) (W.seen world.new)
            (λ done. (done, self.new)) (host_outcome result) }
        ensures sides { Balances (W.seen world.old) (W.seen world.new) no_socket self.old
            self.new }
    {
        let polled = self.inner.poll_finish_connect(world);
        self.settle_connect(polled)
    }

    /// Keeps in the record what a poll of its connect came to, and gives the answer.
    fn settle_connect(&mut self, polled: Result<Answer<()>, Refusal>) -> Result<(), SocketError>
        ensures told { host_outcome result ≡ connect_told self.old polled }
        ensures settled { self.new ≡ connect_settled self.old polled }
    {
        match polled {
            Ok(Answer::Pending) => Err(SocketError::Code(p2::ErrorCode::WouldBlock)),
            Ok(Answer::Ready(())) => {
                self.in_progress = InProgress::Nothing;
                self.open_streams()
            }
            Err(Refusal::Code(code)) => {
                self.in_progress = InProgress::Nothing;
                Err(SocketError::Code(p2::ErrorCode::from_code(code)))
            }
            Err(Refusal::Memory(e)) => Err(SocketError::Memory(e)),
        }
    }

    /// Takes the two halves of the connection as its streams, once no operation is in progress.
    pub fn open_streams(&mut self) -> Result<(), SocketError>
        requires { self.old.in_progress ≡ InProgress.Nothing }
        ensures told { host_outcome result ≡ Ok (opened self.old self.old.inner).0 }
        ensures record { self.new ≡ (opened self.old self.old.inner).1 }
    {
        let receive = match self.inner.take_receive_stream() {
            Ok(receive) => receive,
            Err(code) => return Err(SocketError::Code(p2::ErrorCode::from_code(code))),
        };
        let send = match self.inner.take_send_stream() {
            Ok(send) => send,
            Err(code) => return Err(SocketError::Code(p2::ErrorCode::from_code(code))),
        };
        self.streams = Some(Streams {
            reader: ReadState::Open(receive),
            writer: WriteState::Ready {
                half: send,
                permit: 0,
            },
        });
        Ok(())
    }

    /// The local address (`tcp-socket.local-address`); errors are those of
    /// `TcpSocket::local_address`.
    pub fn local_address<W: World>(
        &mut self,
        world: &mut W,
        op: OpId,
    ) -> Result<IpSocketAddress, Refusal>
        requires { (W.seen world.old).ended ≡ false }
        ensures asked { AsksFor (tell_local_asks op self.old) (W.seen world.old) (W.seen world.new)
            (λ told. (told, self.new)) (outcome result) }
        ensures side { side_of self.new.inner ≡ side_of self.old.inner }
        ensures listening { self.new.listening ≡ self.old.listening }
    {
        self.inner.local_address(world, op)
    }

    /// The remote address (`tcp-socket.remote-address`); errors are those of
    /// `TcpSocket::remote_address`.
    pub fn remote_address<W: World>(
        &mut self,
        world: &mut W,
        op: OpId,
    ) -> Result<IpSocketAddress, Refusal>
        requires { (W.seen world.old).ended ≡ false }
        ensures asked { AsksFor (tell_remote_asks op self.old) (W.seen world.old) (W.seen world.new)
            (λ told. (told, self.new)) (outcome result) }
        ensures side { side_of self.new.inner ≡ side_of self.old.inner }
        ensures listening { self.new.listening ≡ self.old.listening }
    {
        self.inner.remote_address(world, op)
    }
}
