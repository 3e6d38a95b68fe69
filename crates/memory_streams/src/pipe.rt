//! A pipe in memory that a guest writes to.

ghost use Rattle.std.specs.Prelude.{◌≡◌, IfOk, OnErr, Ok};
ghost use Rattle.wasi_streams.specs.StreamStop.{stream_outcome};
ghost use Rattle.memory_streams.specs.Plain.{left_in, no_contents, pipe_check, pipe_write};

use crate::output::OutputPipeCore;
use std::alloc::{AllocError, Global};
use std::marker::Model;
use wasi_streams::{OutputStream, Pollable, StreamError};
use wasi_world::{Octets, OpId, World};

/// An [`OutputPipeCore`] of which contracts see what was written and the capacity, but not how much
/// memory it has: so what was written before fixes what its calls answer.
#[derive(Drop)]
pub struct OutputPipe {
    core: OutputPipeCore,
}

impl Model for OutputPipe {
    ghost use Rattle.memory_streams.specs.Plain.{Contents};

    ghost Value = { Contents };

    ghost view = { λ pipe. record { held = pipe.core.held; capacity = pipe.core.capacity } };
}

impl OutputPipe {
    /// An empty pipe that holds at most this many bytes. Takes no memory yet.
    pub fn new(alloc: Global, capacity: usize) -> OutputPipe
        ensures { result ≡ no_contents capacity }
    {
        OutputPipe {
            core: OutputPipeCore::new(alloc, capacity),
        }
    }

    /// The bytes that were written.
    pub fn contents(&self) -> &[u8]
        ensures { result.now ≡ self.now.held }
    {
        self.core.contents()
    }

    /// Writes the bytes. More than it can still hold are `Trap(Capacity)`, and nothing changes.
    /// Takes memory for them; out of memory nothing changes.
    pub fn write(&mut self, bytes: &[u8]) -> Result<(), StreamError>
        ensures given { IfOk (stream_outcome result) (λ answer. (answer, self.new)
            ≡ pipe_write self.old bytes.now) }
        ensures memory { OnErr (stream_outcome result) (self.new ≡ self.old) }
    {
        self.core.write(bytes)
    }

    /// Drops what was written and its memory; the pipe holds nothing from now on. Takes no memory.
    pub fn discard(&mut self)
        ensures { self.new ≡ no_contents 0 }
    {
        self.core.discard();
    }

    /// How many bytes may be written: as many as it can still hold. `Closed` where it is full.
    pub fn check_write(&self) -> Result<usize, StreamError>
        ensures { stream_outcome result ≡ Ok (pipe_check self.now) }
    {
        self.core.check_write()
    }
}

impl OutputStream for OutputPipe {
    ghost use Rattle.std.specs.Prelude.{Ok};
    ghost use Rattle.wasi_world.specs.Asks.{Give};
    ghost use Rattle.memory_streams.specs.Plain.{pipe_check, pipe_write};

    ghost checking = { λ op pipe. Give (pipe_check pipe, pipe) };

    ghost writing = { λ op pipe bytes. Give (pipe_write pipe bytes) };

    ghost flushing = { λ op pipe. Give (Ok tt, pipe) };

    fn check_write<W: World>(&mut self, _world: &mut W, _op: OpId) -> Result<usize, StreamError> {
        OutputPipe::check_write(self)
    }

    fn write<W: World>(
        &mut self,
        _world: &mut W,
        _op: OpId,
        bytes: Octets,
    ) -> Result<(), StreamError> {
        OutputPipe::write(self, bytes.as_slice())
    }

    fn flush<W: World>(&mut self, _world: &mut W, _op: OpId) -> Result<(), StreamError> {
        Ok(())
    }
}

impl Pollable for OutputPipe {
    ghost use Rattle.std.specs.Prelude.{true};
    ghost use Rattle.wasi_world.specs.Asks.{Give};

    ghost looking = { λ op pipe. Give (true, pipe) };

    fn poll_ready<W: World>(&mut self, _world: &mut W, _op: OpId) -> Result<bool, AllocError> {
        Ok(true)
    }
}
