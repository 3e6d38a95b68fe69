//! What a TCP socket releases when it is dropped.

ghost use Rattle.std.specs.Prelude.{◌≡◌, not, OnOk, OnErr, false, None};
ghost use Rattle.wasi_world.specs.Asks.{AsksFor};
ghost use Rattle.tcp_records.specs.Releasing.{give_streams_up, close_record, release_asks};
ghost use Rattle.tcp_records.specs.Releasing.{release_connection};
ghost use Rattle.tcp_records.specs.Sides.{Balances, holds};
ghost use Rattle.record_common.specs.Sides.{no_socket};
ghost use Rattle.tcp_records.specs.declared.tcp_listening.Listening.{Listening};

use crate::socket::TcpRecord;
use crate::tcp_binding::InProgress;
use std::alloc::AllocError;
use wasi_world::{OpId, World};

impl TcpRecord {
    /// Releases its listener or listen in progress, then the open halves, the receiving one first,
    /// and then its network socket. A write in progress ends with its rest unwritten.
    pub fn release<W: World>(&mut self, world: &mut W, op: OpId) -> Result<(), AllocError>
        requires { (W.seen world.old).ended ≡ false }
        ensures asked { AsksFor (release_asks op self.old) (W.seen world.old) (W.seen world.new)
            (λ done. (done, self.new)) result }
        ensures sides { Balances (W.seen world.old) (W.seen world.new) no_socket self.old
            self.new }
        ensures none { OnOk result (holds self.new ≡ no_socket) }
    {
        self.give_listening_up(world)?;
        self.release_connection(world, op)
    }

    /// Releases the open halves, the receiving one first, and then the network socket, of a socket
    /// that doesn't listen.
    fn release_connection<W: World>(&mut self, world: &mut W, op: OpId) -> Result<(), AllocError>
        requires open { (W.seen world.old).ended ≡ false }
        requires not { self.old.listening ≡ Listening.Not }
        ensures asked { AsksFor (release_connection op self.old) (W.seen world.old)
            (W.seen world.new) (λ done. (done, self.new)) result }
        ensures sides { Balances (W.seen world.old) (W.seen world.new) no_socket self.old
            self.new }
        ensures none { OnOk result (holds self.new ≡ no_socket) }
    {
        self.give_streams_up(world, op)?;
        self.close(world, op)
    }

    /// Releases the open halves.
    fn give_streams_up<W: World>(&mut self, world: &mut W, op: OpId) -> Result<(), AllocError>
        requires { (W.seen world.old).ended ≡ false }
        ensures asked { AsksFor (give_streams_up op self.old.streams) (W.seen world.old)
            (W.seen world.new) (λ done. done) result }
        ensures state { self.new ≡ record self.old { streams = None } }
    {
        match self.streams.take() {
            Some(streams) => streams.give_up(world, op),
            None => Ok(()),
        }
    }

    /// Closes the network socket, if it has one.
    fn close<W: World>(&mut self, world: &mut W, op: OpId) -> Result<(), AllocError>
        requires open { (W.seen world.old).ended ≡ false }
        requires not { self.old.listening ≡ Listening.Not }
        ensures asked { AsksFor (close_record op self.old) (W.seen world.old) (W.seen world.new)
            (λ done. (done, self.new)) result }
        ensures err { OnErr result (self.new ≡ self.old) }
        ensures unasked { OnErr result (W.seen world.new ≡ W.seen world.old) }
        ensures none { OnOk result (holds self.new ≡ no_socket) }
    {
        self.inner.close(world, op)?;
        self.in_progress = InProgress::Nothing;
        self.streams = None;
        Ok(())
    }
}
