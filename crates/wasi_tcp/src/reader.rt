//! The reading end of a connection as a stream.

ghost use Rattle.std.specs.Prelude.{◌≡◌, false, [], OnErr};
ghost use Rattle.wasi_world.specs.Asks.{AsksFor};
ghost use Rattle.wasi_streams.specs.StreamStop.{stream_outcome};
ghost use Rattle.wasi_tcp.specs.Reader.{reader_side, reader_ready_asks, reader_shutdown_asks};
ghost use Rattle.wasi_tcp.specs.Reader.{read_state_asks, after_read};

use crate::halves::{TcpReceiveStream, answered};
use std::alloc::{AllocError, Global};
use wasi_addr::ErrorCode;
use wasi_streams::StreamError;
use wasi_world::{Answer, Octets, OpId, Sock, World};

/// What a guest reads from: the receiving half of a connection, until it is released.
#[derive(Debug, Drop)]
pub enum ReadState {
    Open(TcpReceiveStream),
    /// The half was released: at its end, after a code, or because it was asked for.
    Closed,
}

/// No bytes.
fn nothing(alloc: Global) -> Octets
    ensures { result ≡ [] }
{
    Octets::from_vec(Vec::new(alloc))
}

impl ReadState {
    /// The network socket of the half, none where it was released.
    pub fn side(&self) -> Option<Sock>
        ensures { result ≡ reader_side self.now }
    {
        match self {
            ReadState::Open(half) => Some(half.side),
            ReadState::Closed => None,
        }
    }

    /// Reads at most `size` bytes, and at most 65536. No bytes: there is nothing yet, or `size` is
    /// 0, where nothing is asked. At the end, and after a code, the half is released, and the
    /// answer is `Closed` or that the last operation failed. Released before: `Closed`. After
    /// running out of memory the state is as it was; so where it ran out at the shutdown after an
    /// end or a code, the next read asks the network again.
    pub fn read<W: World>(
        &mut self,
        alloc: Global,
        world: &mut W,
        op: OpId,
        size: usize,
    ) -> Result<Octets, StreamError>
        requires { (W.seen world.old).ended ≡ false }
        ensures asked { AsksFor (read_state_asks op self.old size) (W.seen world.old)
            (W.seen world.new) (λ answer. (answer, self.new)) (stream_outcome result) }
        ensures err { OnErr (stream_outcome result) (self.new ≡ self.old) }
    {
        let ReadState::Open(half) = self else {
            return Err(StreamError::Closed);
        };
        if size == 0 {
            return Ok(nothing(alloc));
        }
        let answer = answered(half.poll_read(alloc, world, op, size))?;
        self.after_read(alloc, world, op, answer)
    }

    /// What a read makes of its answer.
    fn after_read<W: World>(
        &mut self,
        alloc: Global,
        world: &mut W,
        op: OpId,
        answer: Result<Answer<Octets>, ErrorCode>,
    ) -> Result<Octets, StreamError>
        requires { (W.seen world.old).ended ≡ false }
        ensures asked { AsksFor (after_read op self.old answer) (W.seen world.old)
            (W.seen world.new) (λ answer. (answer, self.new)) (stream_outcome result) }
        ensures err { OnErr (stream_outcome result) (self.new ≡ self.old) }
    {
        match answer {
            Ok(Answer::Pending) => Ok(nothing(alloc)),
            Ok(Answer::Ready(bytes)) => {
                if bytes.is_empty() {
                    self.shutdown(world, op)?;
                    return Err(StreamError::Closed);
                }
                Ok(bytes)
            }
            Err(code) => {
                self.shutdown(world, op)?;
                Err(StreamError::LastOperationFailed(code))
            }
        }
    }

    /// Whether there is something to read; ready where the half was released.
    pub fn poll_ready<W: World>(
        &mut self,
        world: &mut W,
        op: OpId,
    ) -> Result<Answer<()>, AllocError>
        requires { (W.seen world.old).ended ≡ false }
        ensures asked { AsksFor (reader_ready_asks op self.old) (W.seen world.old)
            (W.seen world.new) (λ answer. (answer, self.new)) result }
        ensures err { OnErr result (W.seen world.new ≡ W.seen world.old) }
        ensures same { self.new ≡ self.old }
    {
        match self {
            ReadState::Open(half) => half.poll_ready(world, op),
            ReadState::Closed => Ok(Answer::Ready(())),
        }
    }

    /// Releases the half, where it wasn't; after running out of memory the state is as it was.
    pub fn shutdown<W: World>(&mut self, world: &mut W, op: OpId) -> Result<(), AllocError>
        requires { (W.seen world.old).ended ≡ false }
        ensures asked { AsksFor (reader_shutdown_asks op self.old) (W.seen world.old)
            (W.seen world.new) (λ done. (done, self.new)) result }
        ensures err { OnErr result (self.new ≡ self.old) }
        ensures unasked { OnErr result (W.seen world.new ≡ W.seen world.old) }
    {
        match self {
            ReadState::Open(half) => {
                half.shut_down(world, op)?;
                *self = ReadState::Closed;
                Ok(())
            }
            ReadState::Closed => Ok(()),
        }
    }
}
