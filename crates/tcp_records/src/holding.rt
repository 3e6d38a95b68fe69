//! What holds the network socket of a TCP socket of 0.3, and how it goes with the last holder.

ghost use Rattle.std.specs.Prelude.{◌≡◌, true, false, IfOk};
ghost use Rattle.wasi_world.specs.Asks.{AsksFor};
ghost use Rattle.tcp_records.specs.Holding.{is_reading, is_writing, has_end, has_listener, is_held};
ghost use Rattle.tcp_records.specs.Holding.{let_go_asks, drop_socket_asks, drop_listener_asks};
ghost use Rattle.tcp_records.specs.Sides.{Balances, holds};
ghost use Rattle.record_common.specs.Sides.{no_socket};

use crate::socket::TcpRecord;
use crate::tcp_listening::Listening;
use std::alloc::AllocError;
use wasi_tcp::{ReadState, WriteState};
use wasi_world::{OpId, World};

/// Whether the receiving half is open.
pub(crate) fn is_reading(reader: &ReadState) -> bool
    ensures { result ≡ is_reading reader.now }
{
    match reader {
        ReadState::Open(_) => true,
        ReadState::Closed => false,
    }
}

/// Whether the sending half is open.
pub(crate) fn is_writing(writer: &WriteState) -> bool
    ensures { result ≡ is_writing writer.now }
{
    match writer {
        WriteState::Ready { .. } => true,
        WriteState::Writing(_) | WriteState::Closing(_) | WriteState::Closed(_) => false,
    }
}

impl Listening {
    /// Whether there is a listener.
    pub fn has_listener(&self) -> bool
        ensures { result ≡ has_listener self.now }
    {
        match self {
            Listening::Accepts(_) => true,
            Listening::Not | Listening::Begins(_) | Listening::Unclosed(_) => false,
        }
    }
}

impl TcpRecord {
    /// Whether one of its halves is open.
    fn has_end(&self) -> bool
        ensures { result ≡ has_end self.now.streams }
    {
        match &self.streams {
            Some(streams) => is_reading(&streams.reader) || is_writing(&streams.writer),
            None => false,
        }
    }

    /// Whether something holds its network socket: its handle of 0.3, an open half, a listener.
    pub fn is_held(&self) -> bool
        ensures { result ≡ is_held self.now }
    {
        !self.dropped || self.has_end() || self.listening.has_listener()
    }

    /// Releases all that it has, where nothing holds its network socket any more. Says whether it
    /// did.
    pub fn let_go<W: World>(&mut self, world: &mut W, op: OpId) -> Result<bool, AllocError>
        requires { (W.seen world.old).ended ≡ false }
        ensures asked { AsksFor (let_go_asks op self.old) (W.seen world.old) (W.seen world.new)
            (λ went. (went, self.new)) result }
        ensures sides { Balances (W.seen world.old) (W.seen world.new) no_socket self.old
            self.new }
        ensures none { IfOk result (λ went. went ≡ true → holds self.new ≡ no_socket) }
    {
        if self.is_held() {
            return Ok(false);
        }
        self.release(world, op)?;
        Ok(true)
    }

    /// Its handle of 0.3 goes. Says whether all that it has was released with it.
    pub fn drop_socket<W: World>(&mut self, world: &mut W, op: OpId) -> Result<bool, AllocError>
        requires { (W.seen world.old).ended ≡ false }
        ensures asked { AsksFor (drop_socket_asks op self.old) (W.seen world.old)
            (W.seen world.new) (λ went. (went, self.new)) result }
        ensures sides { Balances (W.seen world.old) (W.seen world.new) no_socket self.old
            self.new }
        ensures none { IfOk result (λ went. went ≡ true → holds self.new ≡ no_socket) }
    {
        self.dropped = true;
        self.let_go(world, op)
    }

    /// Its listener goes: it refuses an arrival in hand, or closes a connection that isn't taken.
    /// Says whether all else that the record has was released with it. Out of memory the record may
    /// keep a network socket that isn't closed yet.
    pub fn drop_listener<W: World>(&mut self, world: &mut W, op: OpId) -> Result<bool, AllocError>
        requires { (W.seen world.old).ended ≡ false }
        ensures asked { AsksFor (drop_listener_asks op self.old) (W.seen world.old)
            (W.seen world.new) (λ went. (went, self.new)) result }
        ensures sides { Balances (W.seen world.old) (W.seen world.new) no_socket self.old
            self.new }
        ensures none { IfOk result (λ went. went ≡ true → holds self.new ≡ no_socket) }
    {
        self.give_listening_up(world)?;
        self.let_go(world, op)
    }
}
