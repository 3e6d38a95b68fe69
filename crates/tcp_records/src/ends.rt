//! The halves of a connection as ends of 0.3 streams.

ghost use Rattle.std.specs.Prelude.{◌≡◌, ◌≤◌, ◌<◌, ◌^◌, length, false};
ghost use Rattle.wasi_world.specs.Asks.{AsksFor, outcome};
ghost use Rattle.wasi_tcp.specs.Socket.{side_of};
ghost use Rattle.tcp_records.specs.Ends.{ends_of, take_receive_end, take_send_end, has_half};
ghost use Rattle.tcp_records.specs.Ends.{receive_in, send_in, receive_half, send_half};
ghost use Rattle.tcp_records.specs.Ends.{look_to_read, look_to_write};
ghost use Rattle.tcp_records.specs.Ends.{read_by_half, write_by_half, shut_half};
ghost use Rattle.tcp_records.specs.Halves.{with_reader, with_writer};

use crate::holding::{is_reading, is_writing};
use crate::socket::{Streams, TcpRecord};
use std::alloc::{AllocError, Global};
use wasi_addr::{ErrorCode, ShutdownType};
use wasi_tcp::{ReadState, TcpReceiveStream, TcpSendStream, WriteError, WriteState};
use wasi_world::{Answer, Octets, OpId, Refusal, World};

/// Whether there is something to read by the half; `None` where it isn't open.
fn look_to_read<W: World>(
    reader: &mut ReadState,
    world: &mut W,
    op: OpId,
) -> Result<Option<Answer<()>>, AllocError>
    requires { (W.seen world.old).ended ≡ false }
    ensures asked { AsksFor (look_to_read op (receive_in reader.old)) (W.seen world.old)
        (W.seen world.new) (λ answer. answer) result }
    ensures same { reader.new ≡ reader.old }
{
    match reader {
        ReadState::Open(half) => {
            let answer = half.poll_ready(world, op)?;
            Ok(Some(answer))
        }
        ReadState::Closed => Ok(None),
    }
}

/// Reads at most `size` bytes by the half; `None` where it isn't open.
fn read_by_half<W: World>(
    reader: &mut ReadState,
    alloc: Global,
    world: &mut W,
    op: OpId,
    size: usize,
) -> Result<Option<Answer<Octets>>, Refusal>
    requires { (W.seen world.old).ended ≡ false }
    ensures asked { AsksFor (read_by_half op size (receive_in reader.old)) (W.seen world.old)
        (W.seen world.new) (λ answer. answer) (outcome result) }
    ensures same { reader.new ≡ reader.old }
{
    match reader {
        ReadState::Open(half) => {
            let answer = half.poll_read(alloc, world, op, size)?;
            Ok(Some(answer))
        }
        ReadState::Closed => Ok(None),
    }
}

/// Whether something may be written by the half; `None` where it isn't open.
fn look_to_write<W: World>(
    writer: &mut WriteState,
    world: &mut W,
    op: OpId,
) -> Result<Option<Answer<()>>, AllocError>
    requires { (W.seen world.old).ended ≡ false }
    ensures asked { AsksFor (look_to_write op (send_in writer.old)) (W.seen world.old)
        (W.seen world.new) (λ answer. answer) result }
    ensures same { writer.new ≡ writer.old }
{
    match writer {
        WriteState::Ready { half, .. } => {
            let answer = half.poll_ready(world, op)?;
            Ok(Some(answer))
        }
        WriteState::Writing(_) | WriteState::Closing(_) | WriteState::Closed(_) => Ok(None),
    }
}

/// Offers bytes, at least one, to the half; `None` where it isn't open.
fn write_by_half<W: World>(
    writer: &mut WriteState,
    world: &mut W,
    op: OpId,
    bytes: &[u8],
) -> Result<Option<Answer<usize>>, Refusal>
    requires open { (W.seen world.old).ended ≡ false }
    requires some { 1 ≤ length bytes.now }
    requires short { length bytes.now < 2 ^ 32 }
    ensures asked { AsksFor (write_by_half op bytes.now (send_in writer.old)) (W.seen world.old)
        (W.seen world.new) (λ answer. answer) (outcome result) }
    ensures same { writer.new ≡ writer.old }
{
    match writer {
        WriteState::Ready { half, .. } => {
            let answer = half.poll_write(world, op, bytes)?;
            Ok(Some(answer))
        }
        WriteState::Writing(_) | WriteState::Closing(_) | WriteState::Closed(_) => Ok(None),
    }
}

impl TcpRecord {
    /// Takes the receiving half of the connection, which is open from then on. Taken before, or not
    /// connected: `InvalidState`. Closed: its code. Takes no memory.
    pub fn take_receive_end(&mut self) -> Result<(), ErrorCode>
        ensures told { result ≡ (take_receive_end self.old).0 }
        ensures record { self.new ≡ (take_receive_end self.old).1 }
        ensures side { side_of self.new.inner ≡ side_of self.old.inner }
        ensures listening { self.new.listening ≡ self.old.listening }
    {
        let half = self.inner.take_receive_stream()?;
        self.open_receive(half);
        Ok(())
    }

    fn open_receive(&mut self, half: TcpReceiveStream)
        ensures { self.new ≡ with_reader self.old (ends_of self.old.streams) (ReadState.Open half) }
    {
        let reader = ReadState::Open(half);
        match &mut self.streams {
            Some(streams) => streams.reader = reader,
            None => {
                let writer = WriteState::Closed(WriteError::Closed);
                self.streams = Some(Streams { reader, writer });
            }
        }
    }

    /// Takes the sending half of the connection, likewise.
    pub fn take_send_end(&mut self) -> Result<(), ErrorCode>
        ensures told { result ≡ (take_send_end self.old).0 }
        ensures record { self.new ≡ (take_send_end self.old).1 }
        ensures side { side_of self.new.inner ≡ side_of self.old.inner }
        ensures listening { self.new.listening ≡ self.old.listening }
    {
        let half = self.inner.take_send_stream()?;
        self.open_send(half);
        Ok(())
    }

    fn open_send(&mut self, half: TcpSendStream)
        ensures { self.new ≡ with_writer self.old (ends_of self.old.streams)
            (WriteState.Ready half 0) }
    {
        let writer = WriteState::Ready { half, permit: 0 };
        match &mut self.streams {
            Some(streams) => streams.writer = writer,
            None => {
                let reader = ReadState::Closed;
                self.streams = Some(Streams { reader, writer });
            }
        }
    }

    /// Whether this half of the connection is open; of both, whether one is.
    pub fn has_half(&self, how: ShutdownType) -> bool
        ensures { result ≡ has_half how self.now }
    {
        let Some(streams) = &self.streams else {
            return false;
        };
        match how {
            ShutdownType::Receive => is_reading(&streams.reader),
            ShutdownType::Send => is_writing(&streams.writer),
            ShutdownType::Both => is_reading(&streams.reader) || is_writing(&streams.writer),
        }
    }

    /// Releases a half of the connection, where it is open.
    pub fn shut_half<W: World>(
        &mut self,
        world: &mut W,
        op: OpId,
        how: ShutdownType,
    ) -> Result<(), AllocError>
        requires { (W.seen world.old).ended ≡ false }
        ensures asked { AsksFor (shut_half op how self.old self.old.streams) (W.seen world.old)
            (W.seen world.new) (λ done. (done, self.new)) result }
        ensures side { side_of self.new.inner ≡ side_of self.old.inner }
        ensures listening { self.new.listening ≡ self.old.listening }
    {
        match &mut self.streams {
            Some(streams) => streams.shutdown(world, op, how),
            None => Ok(()),
        }
    }

    /// Whether there is something to read by the receiving half; `None` where it isn't open.
    pub fn look_to_read<W: World>(
        &mut self,
        world: &mut W,
        op: OpId,
    ) -> Result<Option<Answer<()>>, AllocError>
        requires { (W.seen world.old).ended ≡ false }
        ensures asked { AsksFor (look_to_read op (receive_half self.old)) (W.seen world.old)
            (W.seen world.new) (λ answer. answer) result }
        ensures same { self.new ≡ self.old }
    {
        match &mut self.streams {
            Some(streams) => look_to_read(&mut streams.reader, world, op),
            None => Ok(None),
        }
    }

    /// Reads at most `size` bytes by the receiving half; `None` where it isn't open.
    pub fn read_by_half<W: World>(
        &mut self,
        alloc: Global,
        world: &mut W,
        op: OpId,
        size: usize,
    ) -> Result<Option<Answer<Octets>>, Refusal>
        requires { (W.seen world.old).ended ≡ false }
        ensures asked { AsksFor (read_by_half op size (receive_half self.old)) (W.seen world.old)
            (W.seen world.new) (λ answer. answer) (outcome result) }
        ensures same { self.new ≡ self.old }
    {
        match &mut self.streams {
            Some(streams) => read_by_half(&mut streams.reader, alloc, world, op, size),
            None => Ok(None),
        }
    }

    /// Whether something may be written by the sending half; `None` where it isn't open.
    pub fn look_to_write<W: World>(
        &mut self,
        world: &mut W,
        op: OpId,
    ) -> Result<Option<Answer<()>>, AllocError>
        requires { (W.seen world.old).ended ≡ false }
        ensures asked { AsksFor (look_to_write op (send_half self.old)) (W.seen world.old)
            (W.seen world.new) (λ answer. answer) result }
        ensures same { self.new ≡ self.old }
    {
        match &mut self.streams {
            Some(streams) => look_to_write(&mut streams.writer, world, op),
            None => Ok(None),
        }
    }

    /// Offers bytes, at least one, to the sending half; `None` where it isn't open.
    pub fn write_by_half<W: World>(
        &mut self,
        world: &mut W,
        op: OpId,
        bytes: &[u8],
    ) -> Result<Option<Answer<usize>>, Refusal>
        requires open { (W.seen world.old).ended ≡ false }
        requires some { 1 ≤ length bytes.now }
        requires short { length bytes.now < 2 ^ 32 }
        ensures asked { AsksFor (write_by_half op bytes.now (send_half self.old))
            (W.seen world.old) (W.seen world.new) (λ answer. answer) (outcome result) }
        ensures same { self.new ≡ self.old }
    {
        match &mut self.streams {
            Some(streams) => write_by_half(&mut streams.writer, world, op, bytes),
            None => Ok(None),
        }
    }
}
