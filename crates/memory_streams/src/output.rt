//! Bytes that are written to memory.

ghost use Rattle.std.specs.Prelude.{◌≡◌, ◌≤◌, ◌-◌, [], IfOk, IsOk, length};
ghost use Rattle.memory_streams.specs.Pipes.{HasWritten, HasChecked};

use bytes::BytesMut;
use std::alloc::{AllocError, Global};
use std::marker::Model;
use wasi_streams::StreamError;
use wasi_world::TrapKind;

/// Bytes that are written to memory, and no more than a capacity (`MemoryOutputPipe` of the crate
/// wasmtime-wasi, for one owner). It is always ready. Contracts see the bytes that it holds, its
/// capacity, and the memory that it has for more.
#[derive(Drop)]
pub struct OutputPipeCore {
    bytes: BytesMut,
    capacity: usize,
}

impl Model for OutputPipeCore {
    ghost use Rattle.std.specs.Prelude.{◌≤◌, length};
    ghost use Rattle.memory_streams.specs.Pipes.{OutputPipe};

    ghost Value = { OutputPipe };

    ghost view = { λ pipe. record {
      held = pipe.bytes.items;
      capacity = pipe.capacity;
      room = pipe.bytes.spare;
    } };

    ghost invariant = { λ pipe. length pipe.bytes.items ≤ pipe.capacity };
}

impl OutputPipeCore {
    /// An empty pipe that holds at most this many bytes. Takes no memory yet.
    pub fn new(alloc: Global, capacity: usize) -> OutputPipeCore
        ensures held { result.held ≡ [] }
        ensures capacity { result.capacity ≡ capacity }
    {
        OutputPipeCore {
            bytes: BytesMut::new(alloc),
            capacity,
        }
    }

    /// An empty pipe that holds at most this many bytes. Takes memory for all of them at once, so
    /// that no write takes any.
    pub fn with_room(alloc: Global, capacity: usize) -> Result<OutputPipeCore, AllocError>
        ensures held { IfOk result (λ pipe. pipe.held ≡ []) }
        ensures capacity { IfOk result (λ pipe. pipe.capacity ≡ capacity) }
        ensures room { IfOk result (λ pipe. capacity ≤ pipe.room) }
    {
        Ok(OutputPipeCore {
            bytes: BytesMut::with_capacity(alloc, capacity)?,
            capacity,
        })
    }

    /// The bytes that were written.
    pub fn contents(&self) -> &[u8]
        ensures { result.now ≡ self.now.held }
    {
        self.bytes.as_slice()
    }

    /// How many more bytes it holds.
    pub fn free(&self) -> usize
        ensures { result ≡ self.now.capacity - length self.now.held }
    {
        self.capacity - self.bytes.len()
    }

    /// Writes the bytes. More than are [`free`](OutputPipeCore::free) are `Trap(Capacity)`, and
    /// nothing changes.
    ///
    /// Takes memory where the pipe hasn't enough; out of memory what it holds stays as it was.
    pub fn write(&mut self, bytes: &[u8]) -> Result<(), StreamError>
        ensures { HasWritten self.old bytes.now result self.new }
    {
        if bytes.len() > self.free() {
            return Err(StreamError::Trap(TrapKind::Capacity));
        }
        Ok(self.bytes.extend_from_slice(bytes)?)
    }

    /// How many bytes may be written: as many as are free. `Closed` where none are.
    pub fn check_write(&self) -> Result<usize, StreamError>
        ensures { HasChecked self.now result }
    {
        match self.free() {
            0 => Err(StreamError::Closed),
            free => Ok(free),
        }
    }

    /// Does nothing: what was written lies in memory.
    pub fn flush(&self) -> Result<(), StreamError>
        ensures { IsOk result }
    {
        Ok(())
    }

    /// Drops what was written and its memory; the pipe holds nothing from now on. Takes no memory.
    pub fn discard(&mut self)
        ensures held { self.new.held ≡ [] }
        ensures capacity { self.new.capacity ≡ 0 }
    {
        let alloc = *self.bytes.allocator();
        self.bytes = BytesMut::new(alloc);
        self.capacity = 0;
    }

    /// The bytes that were written, with their memory. Takes no memory.
    pub fn into_bytes(self) -> BytesMut
        ensures { result.items ≡ self.held }
    {
        self.bytes
    }
}
