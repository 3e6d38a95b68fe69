//! What a guest reads and writes through the halves of a connection, and how it shuts them down.

ghost use Rattle.std.specs.Prelude.{◌≡◌, ◌≤◌, ◌&&◌, not, false, Some};
ghost use Rattle.wasi_streams.specs.StreamStop.{stream_outcome};
ghost use Rattle.wasi_tcp.specs.Reader.{read_state_asks};
ghost use Rattle.wasi_tcp.specs.Writer.{check_write_asks, write_state_asks};
ghost use Rattle.tcp_records.specs.Used.{held_in};
ghost use Rattle.wasi_world.specs.Asks.{AsksFor};
ghost use Rattle.wasi_tcp.specs.Socket.{side_of};
ghost use Rattle.tcp_records.specs.Releasing.{give_streams_up};
ghost use Rattle.record_common.specs.Stops.{host_outcome};
ghost use Rattle.tcp_records.specs.Halves.{is_working, works_in, turn_record, reader_asks};
ghost use Rattle.tcp_records.specs.Halves.{writer_asks, flush_asks};
ghost use Rattle.tcp_records.specs.Shutdowns.{shut_receive, shut_send, shut_streams, shut_record};
ghost use Rattle.record_common.specs.Sides.{MakesNone};

use crate::socket::{Streams, TcpRecord};
use record_common::SocketError;
use std::alloc::{AllocError, Global};
use wasi_addr::{ShutdownType, p2};
use wasi_streams::StreamError;
use wasi_tcp::WriteState;
use wasi_world::{Octets, OpId, TrapKind, World};

/// Whether a write is in progress.
fn is_working(writer: &WriteState) -> bool
    ensures { result ≡ is_working writer.now }
{
    match writer {
        WriteState::Writing(job) | WriteState::Closing(job) => match job.end() {
            None => true,
            Some(_) => false,
        },
        WriteState::Ready { .. } | WriteState::Closed(_) => false,
    }
}

impl Streams {
    fn shut_receive<W: World>(&mut self, world: &mut W, op: OpId) -> Result<(), AllocError>
        requires { (W.seen world.old).ended ≡ false }
        ensures asked { AsksFor (shut_receive op self.old) (W.seen world.old) (W.seen world.new)
            (λ done. (done, self.new)) result }
    {
        self.reader.shutdown(world, op)
    }

    fn shut_send<W: World>(&mut self, world: &mut W, op: OpId) -> Result<(), AllocError>
        requires { (W.seen world.old).ended ≡ false }
        ensures asked { AsksFor (shut_send op self.old) (W.seen world.old) (W.seen world.new)
            (λ done. (done, self.new)) result }
    {
        self.writer.shutdown(world, op)
    }

    /// Releases the receiving half, the sending half, or both, the receiving one first.
    pub fn shutdown<W: World>(
        &mut self,
        world: &mut W,
        op: OpId,
        how: ShutdownType,
    ) -> Result<(), AllocError>
        requires { (W.seen world.old).ended ≡ false }
        ensures asked { AsksFor (shut_streams op how self.old) (W.seen world.old) (W.seen world.new)
            (λ done. (done, self.new)) result }
    {
        match how {
            ShutdownType::Receive => self.shut_receive(world, op),
            ShutdownType::Send => self.shut_send(world, op),
            ShutdownType::Both => {
                self.shut_receive(world, op)?;
                self.shut_send(world, op)
            }
        }
    }

    /// Releases the halves that are open, the receiving one first. A write in progress ends with
    /// its rest unwritten.
    pub(crate) fn give_up<W: World>(self, world: &mut W, op: OpId) -> Result<(), AllocError>
        requires { (W.seen world.old).ended ≡ false }
        ensures asked { AsksFor (give_streams_up op (Some self)) (W.seen world.old)
            (W.seen world.new) (λ done. done) result }
    {
        let Streams { mut reader, writer } = self;
        reader.shutdown(world, op)?;
        writer.give_up(world, op)
    }
}

impl TcpRecord {
    /// Reads from the connection. A record without streams traps; no handle of a stream leads to
    /// one.
    pub fn read<W: World>(
        &mut self,
        alloc: Global,
        world: &mut W,
        op: OpId,
        len: usize,
    ) -> Result<Octets, StreamError>
        requires { (W.seen world.old).ended ≡ false }
        ensures asked { AsksFor (reader_asks (λ r. read_state_asks op r len) self.old)
            (W.seen world.old) (W.seen world.new) (λ answer. (answer, self.new))
            (stream_outcome result) }
        ensures side { side_of self.new.inner ≡ side_of self.old.inner }
        ensures listening { self.new.listening ≡ self.old.listening }
    {
        match &mut self.streams {
            Some(streams) => streams.reader.read(alloc, world, op, len),
            None => Err(StreamError::Trap(TrapKind::NoSuchHandle)),
        }
    }

    /// How many bytes its writer may be given, or still has to write. Takes no memory.
    pub fn held(&self) -> u64
        ensures { result ≡ held_in self.now.streams }
    {
        match &self.streams {
            Some(streams) => streams.writer.held(),
            None => 0,
        }
    }

    /// The permit: how many bytes may be written to the connection, `most` at most.
    pub fn check_write<W: World>(
        &mut self,
        world: &mut W,
        op: OpId,
        most: usize,
    ) -> Result<usize, StreamError>
        requires open { (W.seen world.old).ended ≡ false }
        requires most { most ≤ 65536 }
        ensures asked { AsksFor (writer_asks (check_write_asks most op) self.old)
            (W.seen world.old) (W.seen world.new) (λ answer. (answer, self.new))
            (stream_outcome result) }
        ensures side { side_of self.new.inner ≡ side_of self.old.inner }
        ensures listening { self.new.listening ≡ self.old.listening }
    {
        match &mut self.streams {
            Some(streams) => streams.writer.check_write(world, op, most),
            None => Err(StreamError::Trap(TrapKind::NoSuchHandle)),
        }
    }

    /// Writes bytes to the connection, no more than its permit.
    pub fn write<W: World>(
        &mut self,
        world: &mut W,
        op: OpId,
        bytes: Octets,
    ) -> Result<(), StreamError>
        requires { (W.seen world.old).ended ≡ false }
        ensures asked { AsksFor (writer_asks (λ w. write_state_asks op w bytes) self.old)
            (W.seen world.old) (W.seen world.new) (λ answer. (answer, self.new))
            (stream_outcome result) }
        ensures side { side_of self.new.inner ≡ side_of self.old.inner }
        ensures listening { self.new.listening ≡ self.old.listening }
    {
        match &mut self.streams {
            Some(streams) => streams.writer.write(world, op, bytes),
            None => Err(StreamError::Trap(TrapKind::NoSuchHandle)),
        }
    }

    /// Writes bytes to the connection, and returns whether the write is in progress now.
    pub fn write_noting<W: World>(
        &mut self,
        world: &mut W,
        op: OpId,
        bytes: Octets,
    ) -> (Result<(), StreamError>, bool)
        requires { (W.seen world.old).ended ≡ false }
        ensures asked { AsksFor (writer_asks (λ w. write_state_asks op w bytes) self.old)
            (W.seen world.old) (W.seen world.new) (λ answer. (answer, self.new))
            (stream_outcome result.0) }
        ensures begins { result.1 ≡ (not (works_in self.old.streams) && works_in self.new.streams) }
        ensures side { side_of self.new.inner ≡ side_of self.old.inner }
        ensures listening { self.new.listening ≡ self.old.listening }
    {
        let before = self.has_job();
        let written = self.write(world, op, bytes);
        let begins = !before && self.has_job();
        (written, begins)
    }

    /// Returns the error with which the writer is closed, if it is; asks nothing.
    pub fn flush<W: World>(&mut self, world: &mut W) -> Result<(), StreamError>
        requires { (W.seen world.old).ended ≡ false }
        ensures asked { AsksFor (writer_asks flush_asks self.old) (W.seen world.old)
            (W.seen world.new) (λ answer. (answer, self.new)) (stream_outcome result) }
        ensures side { side_of self.new.inner ≡ side_of self.old.inner }
        ensures listening { self.new.listening ≡ self.old.listening }
    {
        match &mut self.streams {
            Some(streams) => streams.writer.flush(),
            None => Err(StreamError::Trap(TrapKind::NoSuchHandle)),
        }
    }

    /// Whether a write is in progress.
    pub fn has_job(&self) -> bool
        ensures { result ≡ works_in self.now.streams }
    {
        match &self.streams {
            Some(streams) => is_working(&streams.writer),
            None => false,
        }
    }

    /// Polls the write in progress once, if there is one.
    pub fn turn<W: World>(&mut self, world: &mut W) -> Result<(), AllocError>
        requires { (W.seen world.old).ended ≡ false }
        ensures asked { AsksFor (turn_record self.old) (W.seen world.old) (W.seen world.new)
            (λ done. self.new) result }
        ensures inner { self.new.inner ≡ self.old.inner }
        ensures listening { self.new.listening ≡ self.old.listening }
        ensures none { MakesNone (W.seen world.old) (W.seen world.new) }
    {
        match &mut self.streams {
            Some(streams) => streams.writer.turn(world),
            None => Ok(()),
        }
    }

    /// Releases one half of the connection, or both (`tcp-socket.shutdown`). A socket without
    /// streams: `InvalidState`.
    pub fn shutdown<W: World>(
        &mut self,
        world: &mut W,
        op: OpId,
        how: ShutdownType,
    ) -> Result<(), SocketError>
        requires { (W.seen world.old).ended ≡ false }
        ensures asked { AsksFor (shut_record op how self.old self.old.streams) (W.seen world.old)
            (W.seen world.new) (λ done. (done, self.new)) (host_outcome result) }
        ensures side { side_of self.new.inner ≡ side_of self.old.inner }
        ensures listening { self.new.listening ≡ self.old.listening }
    {
        let Some(streams) = &mut self.streams else {
            return Err(SocketError::Code(p2::ErrorCode::InvalidState));
        };
        streams.shutdown(world, op, how)?;
        Ok(())
    }
}
