//! The two ends of a connection, as streams.

ghost use Rattle.std.specs.Prelude.{◌≡◌, IfOk, IsErr, IsOkAnd, OnErr};
ghost use Rattle.wasi_streams.specs.StreamStop.{stream_outcome};
ghost use Rattle.wasi_tcp.specs.Waiting.{is_told};

use crate::reader::ReadState;
use crate::writer::WriteState;
use std::alloc::{AllocError, Global};
use wasi_streams::{InputStream, OutputStream, Pollable, StreamError};
use wasi_world::{Answer, Octets, OpId, World};

/// Whether a look reports something: room, or an error.
fn told(answer: Result<Answer<()>, StreamError>) -> Result<bool, AllocError>
    ensures told { IfOk result (λ told. IsOkAnd (stream_outcome answer)
        (λ answer. told ≡ is_told answer)) }
    ensures memory { OnErr result (IsErr (stream_outcome answer)) }
{
    match answer {
        Ok(Answer::Ready(())) => Ok(true),
        Ok(Answer::Pending) => Ok(false),
        Err(StreamError::Memory(e)) => Err(e),
        Err(StreamError::LastOperationFailed(_)) => Ok(true),
        Err(StreamError::Closed) => Ok(true),
        Err(StreamError::Trap(_)) => Ok(true),
    }
}

impl InputStream for ReadState {
    ghost use Rattle.wasi_tcp.specs.Reader.{read_state_asks};

    ghost reading = { λ op state size. read_state_asks op state size };

    fn read<W: World>(
        &mut self,
        alloc: Global,
        world: &mut W,
        op: OpId,
        size: usize,
    ) -> Result<Octets, StreamError> {
        ReadState::read(self, alloc, world, op, size)
    }
}

impl Pollable for ReadState {
    ghost use Rattle.wasi_tcp.specs.Waiting.{reader_waits};

    ghost looking = { λ op state. reader_waits op state };

    fn poll_ready<W: World>(&mut self, world: &mut W, op: OpId) -> Result<bool, AllocError> {
        match ReadState::poll_ready(self, world, op)? {
            Answer::Ready(()) => Ok(true),
            Answer::Pending => Ok(false),
        }
    }
}

impl OutputStream for WriteState {
    ghost use Rattle.wasi_tcp.specs.Writer.{check_write_asks, write_state_asks};
    ghost use Rattle.wasi_tcp.specs.Waiting.{flush_asks};

    ghost checking = { λ op state. check_write_asks 65536 op state };

    ghost writing = { λ op state bytes. write_state_asks op state bytes };

    ghost flushing = { λ op state. flush_asks op state };

    fn check_write<W: World>(&mut self, world: &mut W, op: OpId) -> Result<usize, StreamError> {
        WriteState::check_write(self, world, op, 65536)
    }

    fn write<W: World>(
        &mut self,
        world: &mut W,
        op: OpId,
        bytes: Octets,
    ) -> Result<(), StreamError> {
        WriteState::write(self, world, op, bytes)
    }

    fn flush<W: World>(&mut self, _world: &mut W, _op: OpId) -> Result<(), StreamError> {
        WriteState::flush(self)
    }
}

impl Pollable for WriteState {
    ghost use Rattle.wasi_tcp.specs.Waiting.{writer_waits};

    ghost looking = { λ op state. writer_waits op state };

    fn poll_ready<W: World>(&mut self, world: &mut W, op: OpId) -> Result<bool, AllocError> {
        told(WriteState::poll_ready(self, world, op))
    }
}
