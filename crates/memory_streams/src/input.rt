//! Bytes in memory that are read.

ghost use Rattle.std.specs.Prelude.{◌≡◌, ◌↔◌, ◌++◌, [], IfOk, IsTrue, OnErr, length, min, take};
ghost use Rattle.std.specs.Prelude.{drop};
ghost use Rattle.wasi_streams.specs.StreamStop.{stream_outcome};
ghost use Rattle.memory_streams.specs.Pipes.{HasRead};
ghost use Rattle.memory_streams.specs.Plain.{pipe_read};

use bytes::Bytes;
use std::alloc::{AllocError, Global};
use std::marker::Model;
use wasi_streams::{InputStream, Pollable, StreamError};
use wasi_world::{Octets, OpId, World};

/// Bytes in memory that are read from their front (`MemoryInputPipe` of the crate wasmtime-wasi,
/// for one owner). It is always ready. Contracts see the bytes that are left.
#[derive(Drop)]
pub struct InputPipeCore {
    bytes: Bytes,
}

impl Model for InputPipeCore {
    ghost use Rattle.std.specs.Prelude.{List, ℕ};

    ghost Value = { List ℕ };

    ghost view = { λ pipe. pipe.bytes };
}

impl InputPipeCore {
    /// A pipe of these bytes. Takes no memory.
    pub fn new(bytes: Bytes) -> InputPipeCore
        ensures { result ≡ bytes }
    {
        InputPipeCore { bytes }
    }

    /// Whether no bytes are left.
    pub fn is_empty(&self) -> bool
        ensures { IsTrue result ↔ (self.now ≡ []) }
    {
        self.bytes.is_empty()
    }

    /// Takes the first `size` bytes out, or all where fewer are left, without copying a byte.
    /// `Closed` exactly where none is left.
    ///
    /// Takes memory to hand out a part of what is left; out of memory all stays in the pipe.
    pub fn read(&mut self, size: usize) -> Result<Bytes, StreamError>
        ensures { HasRead self.old size result self.new }
    {
        if self.bytes.is_empty() {
            return Err(StreamError::Closed);
        }
        let count = size.min(self.bytes.len());
        Ok(self.bytes.split_to(count)?)
    }

    /// Takes the first `size` bytes out, or all where fewer are left, as a copy. `Closed` exactly
    /// where none is left.
    ///
    /// Takes memory for the copy; out of memory all stays in the pipe.
    pub fn read_octets(&mut self, alloc: Global, size: usize) -> Result<Octets, StreamError>
        ensures given { IfOk (stream_outcome result) (λ answer. (answer, self.new)
            ≡ pipe_read size self.old) }
        ensures memory { OnErr (stream_outcome result) (self.new ≡ self.old) }
    {
        if self.bytes.is_empty() {
            return Err(StreamError::Closed);
        }
        let count = size.min(self.bytes.len());
        let given = Octets::copy_of(alloc, &self.bytes.as_slice()[..count])?;
        self.bytes.advance(count);
        Ok(given)
    }

    /// Moves as many of the first bytes as fit into the front of `buf`, and returns how many. Takes
    /// no memory.
    pub fn take_into(&mut self, buf: &mut [u8]) -> usize
        ensures count { result ≡ min (length buf.old) (length self.old) }
        ensures given { buf.new ≡ take result self.old ++ drop result buf.old }
        ensures left { self.new ≡ drop result self.old }
    {
        let count = buf.len().min(self.bytes.len());
        buf[..count].copy_from_slice(&self.bytes.as_slice()[..count]);
        self.bytes.advance(count);
        count
    }
}

impl InputStream for InputPipeCore {
    ghost use Rattle.wasi_world.specs.Asks.{Give};
    ghost use Rattle.memory_streams.specs.Plain.{pipe_read};

    ghost reading = { λ op pipe size. Give (pipe_read size pipe) };

    fn read<W: World>(
        &mut self,
        alloc: Global,
        _world: &mut W,
        _op: OpId,
        size: usize,
    ) -> Result<Octets, StreamError> {
        self.read_octets(alloc, size)
    }
}

impl Pollable for InputPipeCore {
    ghost use Rattle.std.specs.Prelude.{true};
    ghost use Rattle.wasi_world.specs.Asks.{Give};

    ghost looking = { λ op pipe. Give (true, pipe) };

    fn poll_ready<W: World>(&mut self, _world: &mut W, _op: OpId) -> Result<bool, AllocError> {
        Ok(true)
    }
}
