//! The writing end of a connection as a stream.

ghost use Rattle.std.specs.Prelude.{◌≡◌, ◌≤◌, true, false, Ok, Err, OnErr, option_map};
ghost use Rattle.wasi_world.specs.Asks.{AsksFor, Reaches};
ghost use Rattle.wasi_streams.specs.StreamStop.{stream_outcome};
ghost use Rattle.wasi_tcp.specs.Writer.{error_of_code, stop_of, collected, look_in, look_asks};
ghost use Rattle.wasi_tcp.specs.Writer.{with_permit, drop_permit, check_write_asks, turn_asks};
ghost use Rattle.wasi_tcp.specs.Writer.{write_on_asks};
ghost use Rattle.wasi_tcp.specs.Writer.{write_state_asks, flush_of, writer_side, is_ready};
ghost use Rattle.wasi_tcp.specs.Writer.{now_closing, writer_shutdown_asks, writer_give_up_asks};
ghost use Rattle.wasi_tcp.specs.Bounds.{HoldsWrite, rest_of, held};

use crate::halves::TcpSendStream;
use crate::job::WriteJob;
use std::alloc::AllocError;
use std::mem;
use wasi_addr::{ErrorCode, ShutdownType};
use wasi_streams::{StreamError, TrapKind};
use wasi_world::{Answer, Octets, OpId, Sock, World, asks};

/// Why a writing end is closed.
#[derive(Clone, Copy, Debug, PartialEq, Eq)]
pub enum WriteError {
    /// The half was released, or the other end broke the connection.
    Closed,
    /// A write was refused with this code.
    LastOperationFailed(ErrorCode),
}

impl WriteError {
    /// The error of a write that was refused with a code.
    fn of_code(code: ErrorCode) -> WriteError
        ensures { result ≡ error_of_code code }
    {
        match code {
            ErrorCode::ConnectionBroken => WriteError::Closed,
            _ => WriteError::LastOperationFailed(code),
        }
    }
}

impl From<WriteError> for StreamError {
    ghost use Rattle.std.specs.Prelude.{◌≡◌};
    ghost use Rattle.wasi_tcp.specs.Writer.{stream_error};

    ghost from_gives = { λ kept error. error ≡ stream_error kept };

    fn from(kept: WriteError) -> StreamError {
        match kept {
            WriteError::Closed => StreamError::Closed,
            WriteError::LastOperationFailed(code) => StreamError::LastOperationFailed(code),
        }
    }
}

/// The answer of a closed writing end.
fn refused<T: Drop>(error: WriteError) -> Result<T, StreamError>
    ensures { stream_outcome result ≡ Ok (Err (stop_of error)) }
{
    Err(StreamError::from(error))
}

/// What a guest writes to: the sending half of a connection, until it is released.
#[derive(Drop)]
pub enum WriteState {
    /// A write of at most `permit` bytes may begin.
    Ready { half: TcpSendStream, permit: u32 },
    /// A write is in progress, or its end isn't collected yet.
    Writing(WriteJob),
    /// A write is in progress after which the half is released, or its end isn't collected yet.
    Closing(WriteJob),
    Closed(WriteError),
}

impl WriteState {
    /// The network socket of the half, none where it was released.
    pub fn side(&self) -> Option<Sock>
        ensures { result ≡ writer_side self.now }
    {
        match self {
            WriteState::Ready { half, .. } => Some(half.side),
            WriteState::Writing(job) => match job.end() {
                None | Some(Ok(())) => Some(job.side()),
                Some(Err(_)) => None,
            },
            WriteState::Closing(job) => match job.end() {
                None => Some(job.side()),
                Some(_) => None,
            },
            WriteState::Closed(_) => None,
        }
    }

    /// What is not taken yet of a write that is in progress. Its bytes aren't copied, however often
    /// the network takes a part. Takes no memory.
    pub fn rest(&self) -> Option<&[u8]>
        ensures { option_map (λ rest. rest.now) result ≡ rest_of self.now }
    {
        match self {
            WriteState::Writing(job) | WriteState::Closing(job) => job.rest(),
            WriteState::Ready { .. } | WriteState::Closed(_) => None,
        }
    }

    /// How many bytes may be written, or are not taken yet of a write that is in progress. Takes no
    /// memory.
    pub fn held(&self) -> u64
        ensures { result ≡ held self.now }
    {
        match self {
            WriteState::Ready { permit, .. } => u64::from(*permit),
            WriteState::Writing(job) | WriteState::Closing(job) => match job.rest() {
                Some(rest) => rest.len() as u64,
                None => 0,
            },
            WriteState::Closed(_) => 0,
        }
    }

    /// Collects a job that ended.
    fn collect(&mut self)
        ensures { self.new ≡ collected self.old }
    {
        match self {
            WriteState::Writing(job) => match job.end() {
                None => {}
                Some(Ok(())) => {
                    let half = TcpSendStream { side: job.side() };
                    *self = WriteState::Ready { half, permit: 0 };
                }
                Some(Err(code)) => *self = WriteState::Closed(WriteError::of_code(code)),
            },
            WriteState::Closing(job) => match job.end() {
                None => {}
                Some(Ok(())) => *self = WriteState::Closed(WriteError::Closed),
                Some(Err(code)) => *self = WriteState::Closed(WriteError::of_code(code)),
            },
            WriteState::Ready { .. } | WriteState::Closed(_) => {}
        }
    }

    /// Whether something may be written. A write that ended is collected first: where it ended well
    /// the half is ready again, with no permit, unless it was to be released. One that is in
    /// progress is pending. Closed: its error. After running out of memory only the collecting is
    /// done.
    pub fn poll_ready<W: World>(
        &mut self,
        world: &mut W,
        op: OpId,
    ) -> Result<Answer<()>, StreamError>
        requires { (W.seen world.old).ended ≡ false }
        ensures asked { AsksFor (look_asks op self.old) (W.seen world.old) (W.seen world.new)
            (λ answer. (answer, self.new)) (stream_outcome result) }
        ensures state { self.new ≡ collected self.old }
        ensures err { OnErr (stream_outcome result) (W.seen world.new ≡ W.seen world.old) }
        ensures ready { OnErr (stream_outcome result) (is_ready self.new ≡ true) }
    {
        self.collect();
        self.look(world, op)
    }

    /// The look, where a job that ended was collected.
    fn look<W: World>(&self, world: &mut W, op: OpId) -> Result<Answer<()>, StreamError>
        requires { (W.seen world.old).ended ≡ false }
        ensures asked { AsksFor (look_in op self.now) (W.seen world.old) (W.seen world.new)
            (λ answer. (answer, self.now)) (stream_outcome result) }
        ensures err { OnErr (stream_outcome result) (W.seen world.new ≡ W.seen world.old) }
        ensures ready { OnErr (stream_outcome result) (is_ready self.now ≡ true) }
    {
        match self {
            WriteState::Ready { half, .. } => {
                let answer = asks::write_ready(world, op, half.side)?;
                Ok(answer)
            }
            WriteState::Writing(_) | WriteState::Closing(_) => Ok(Answer::Pending),
            WriteState::Closed(error) => refused(*error),
        }
    }

    /// Permits so many bytes, where the half is ready.
    fn permit(&mut self, most: u32)
        ensures { self.new ≡ with_permit most self.old }
    {
        if let WriteState::Ready { permit, .. } = self {
            *permit = most;
        }
    }

    /// Permits no bytes any more. Takes no memory.
    pub fn drop_permit(&mut self)
        ensures { self.new ≡ drop_permit self.old }
    {
        self.permit(0);
    }

    /// How many bytes may be written: `most` where a look is ready, none where it is pending, and
    /// the permit stays then. After running out of memory only the collecting of the look is done.
    pub fn check_write<W: World>(
        &mut self,
        world: &mut W,
        op: OpId,
        most: usize,
    ) -> Result<usize, StreamError>
        requires open { (W.seen world.old).ended ≡ false }
        requires most { most ≤ 65536 }
        ensures asked { AsksFor (check_write_asks most op self.old) (W.seen world.old)
            (W.seen world.new) (λ count. (count, self.new)) (stream_outcome result) }
        ensures state { OnErr (stream_outcome result) (self.new ≡ collected self.old) }
        ensures err { OnErr (stream_outcome result) (W.seen world.new ≡ W.seen world.old) }
    {
        match self.poll_ready(world, op)? {
            Answer::Pending => Ok(0),
            Answer::Ready(()) => {
                self.permit(most as u32);
                Ok(most)
            }
        }
    }

    /// Begins a background write, polls it once and looks; an error that the look answers is
    /// answered. No bytes to a half that is ready: nothing is done. More than the permit, or a
    /// write is in progress: `NotPermitted`. After running out of memory the write has begun: what
    /// is left of the call is a poll of its job, where it is in progress, and a look.
    pub fn write<W: World>(
        &mut self,
        world: &mut W,
        op: OpId,
        bytes: Octets,
    ) -> Result<(), StreamError>
        requires { (W.seen world.old).ended ≡ false }
        ensures asked { AsksFor (write_state_asks op self.old bytes) (W.seen world.old)
            (W.seen world.new) (λ done. (done, self.new)) (stream_outcome result) }
        ensures err { OnErr (stream_outcome result) (Reaches (write_state_asks op self.old bytes)
            (write_on_asks op self.new) (W.seen world.old) (W.seen world.new)) }
    {
        match self {
            WriteState::Ready { half, permit } => {
                if bytes.is_empty() {
                    return Ok(());
                }
                if bytes.len() > *permit as usize {
                    return Err(StreamError::Trap(TrapKind::NotPermitted));
                }
                let side = half.side;
                *self = WriteState::Writing(WriteJob::new(op, side, bytes));
                self.write_on(world, op)
            }
            WriteState::Writing(_) | WriteState::Closing(_) => {
                Err(StreamError::Trap(TrapKind::NotPermitted))
            }
            WriteState::Closed(error) => refused(*error),
        }
    }

    /// Polls the job once, where it is in progress, and looks.
    fn write_on<W: World>(&mut self, world: &mut W, op: OpId) -> Result<(), StreamError>
        requires { (W.seen world.old).ended ≡ false }
        ensures asked { AsksFor (write_on_asks op self.old) (W.seen world.old) (W.seen world.new)
            (λ done. (done, self.new)) (stream_outcome result) }
        ensures err { OnErr (stream_outcome result) (Reaches (write_on_asks op self.old)
            (write_on_asks op self.new) (W.seen world.old) (W.seen world.new)) }
    {
        self.turn(world)?;
        self.poll_ready(world, op)?;
        Ok(())
    }

    /// Reports the error of a writing end that is closed; asks nothing. Takes no memory.
    pub fn flush(&mut self) -> Result<(), StreamError>
        ensures told { stream_outcome result ≡ Ok (flush_of self.old) }
        ensures same { self.new ≡ self.old }
    {
        match self {
            WriteState::Closed(error) => refused(*error),
            WriteState::Ready { .. } | WriteState::Writing(_) | WriteState::Closing(_) => Ok(()),
        }
    }

    /// Polls a write in progress, once. After running out of memory it is as after its last
    /// answered ask.
    pub fn turn<W: World>(&mut self, world: &mut W) -> Result<(), AllocError>
        requires { (W.seen world.old).ended ≡ false }
        ensures asked { AsksFor (turn_asks self.old) (W.seen world.old) (W.seen world.new)
            (λ done. (done, self.new)) result }
        ensures err { OnErr result (Reaches (turn_asks self.old) (turn_asks self.new)
            (W.seen world.old) (W.seen world.new)) }
        ensures write { HoldsWrite self.old }
    {
        match self {
            WriteState::Writing(job) => job.poll(world),
            WriteState::Closing(job) => job.poll(world),
            WriteState::Ready { .. } | WriteState::Closed(_) => Ok(()),
        }
    }

    /// Releases the half: at once where no write is in progress, else once it has ended. After
    /// running out of memory the state is as it was.
    pub fn shutdown<W: World>(&mut self, world: &mut W, op: OpId) -> Result<(), AllocError>
        requires { (W.seen world.old).ended ≡ false }
        ensures asked { AsksFor (writer_shutdown_asks op self.old) (W.seen world.old)
            (W.seen world.new) (λ done. (done, self.new)) result }
        ensures err { OnErr result (self.new ≡ self.old) }
        ensures unasked { OnErr result (W.seen world.new ≡ W.seen world.old) }
    {
        match self {
            WriteState::Ready { half, .. } => {
                half.shut_down(world, op)?;
                *self = WriteState::Closed(WriteError::Closed);
                Ok(())
            }
            WriteState::Writing(job) => {
                job.finish(world, op)?;
                self.begin_closing();
                Ok(())
            }
            WriteState::Closing(_) | WriteState::Closed(_) => Ok(()),
        }
    }

    /// Has the half released after the write in progress.
    fn begin_closing(&mut self)
        ensures { self.new ≡ now_closing self.old }
    {
        let before = mem::replace(self, WriteState::Closed(WriteError::Closed));
        *self = match before {
            WriteState::Writing(job) => WriteState::Closing(job),
            other => other,
        };
    }

    /// Releases the half now, unless it was released before. A write in progress ends with its rest
    /// unwritten. Out of memory the half isn't released.
    pub fn give_up<W: World>(self, world: &mut W, op: OpId) -> Result<(), AllocError>
        requires { (W.seen world.old).ended ≡ false }
        ensures asked { AsksFor (writer_give_up_asks op self) (W.seen world.old) (W.seen world.new)
            (λ done. done) result }
        ensures err { OnErr result (W.seen world.new ≡ W.seen world.old) }
    {
        match self.side() {
            Some(side) => asks::shutdown(world, op, side, ShutdownType::Send),
            None => Ok(()),
        }
    }
}
