//! What the owners of an output pipe share.

ghost use Rattle.std.specs.Prelude.{◌≡◌, ◌≤◌, ◌+◌, IfOk, length, min};
ghost use Rattle.locked_pipes.specs.Shares.{MayWrite, MayCheck};

use bytes::BytesMut;
use memory_streams::OutputPipeCore;
use std::alloc::{AllocError, Global};
use wasi_streams::StreamError;

/// A pipe that has memory for all that it may hold. It never holds more than its capacity.
#[derive(Drop)]
pub struct Room {
    pipe: OutputPipeCore,
    ghost reserved: { pipe.capacity ≤ length pipe.held + pipe.room },
}

impl Room {
    /// An empty one. The memory for all of its capacity is taken here, and none later.
    pub fn new(alloc: Global, capacity: usize) -> Result<Room, AllocError> {
        Ok(Room {
            pipe: OutputPipeCore::with_room(alloc, capacity)?,
        })
    }

    /// The bytes that were written.
    pub fn contents(&self) -> &[u8]
        ensures { result.now ≡ self.now.pipe.held }
    {
        self.pipe.contents()
    }

    /// Writes the bytes, where they are no more than are free. It takes no memory.
    pub fn write(&mut self, bytes: &[u8]) -> Result<(), StreamError>
        ensures { MayWrite result }
    {
        self.pipe.write(bytes)
    }

    /// How many bytes may be written, or `Closed` where none may.
    pub fn check_write(&self) -> Result<usize, StreamError>
        ensures { MayCheck result }
    {
        self.pipe.check_write()
    }

    /// Writes the front of the bytes, as many as are free, and returns how many. It takes no
    /// memory.
    pub fn put(&mut self, bytes: &[u8]) -> usize
        ensures { result ≤ length bytes.now }
    {
        let count = bytes.len().min(self.pipe.free());
        match self.pipe.write(&bytes[..count]) {
            Ok(()) => count,
            Err(_) => unreachable!(),
        }
    }

    /// What was written. Takes no memory.
    pub fn into_bytes(self) -> BytesMut
        ensures { result.items ≡ self.pipe.held }
    {
        self.pipe.into_bytes()
    }
}
