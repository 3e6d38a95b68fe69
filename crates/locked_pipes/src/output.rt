//! Bytes that several owners write to memory.

ghost use Rattle.std.specs.Prelude.{◌≡◌, ◌≤◌, IfOk, IsOk};
ghost use Rattle.world_io.specs.Io.{HasWritten, HasFlushed};
ghost use Rattle.locked_pipes.specs.Shares.{MayWrite, MayCheck, writing_of};

use crate::room::Room;
use bytes::{Bytes, BytesMut};
use std::alloc::{AllocError, Global};
use std::sync::{Arc, Mutex, Wait};
use wasi_streams::StreamError;
use world_io::{Failed, Sink};

/// Bytes that are written to memory, and no more than a capacity, each by one of the owners
/// (`MemoryOutputPipe` of the crate wasmtime-wasi). The memory for the whole capacity is taken at
/// the start. Each call takes the lock of the pipe, so it may wait for another owner's.
///
/// As a sink it reports no bytes; contracts see how many pieces of this owner it took nothing of.
#[derive(Drop)]
pub struct MemoryOutputPipe<R: Wait + Copy> {
    rt: R,
    alloc: Global,
    pipe: Arc<Mutex<Room>, Global>,
    refused: u64,
}

impl<R: Wait + Copy> MemoryOutputPipe<R> {
    /// An empty pipe that holds at most so many bytes. Takes memory for all of them.
    pub fn new(rt: &R, alloc: Global, capacity: usize) -> Result<MemoryOutputPipe<R>, AllocError>
        ensures { IfOk result (λ pipe. pipe.refused ≡ 0) }
    {
        let pipe = Arc::new(alloc, Mutex::new(Room::new(alloc, capacity)?))?;
        Ok(MemoryOutputPipe {
            rt: *rt,
            alloc,
            pipe,
            refused: 0,
        })
    }

    /// A further owner of this pipe, of whom no piece was refused yet. Takes memory for it.
    pub fn share(&self) -> Result<MemoryOutputPipe<R>, AllocError>
        ensures { IfOk result (λ pipe. pipe.refused ≡ 0) }
    {
        Ok(MemoryOutputPipe {
            rt: self.rt,
            alloc: self.alloc,
            pipe: Arc::try_clone(&self.pipe)?,
            refused: 0,
        })
    }

    /// A copy of what was written by all owners. Takes memory for it.
    pub fn contents(&self) -> Result<Bytes, AllocError> {
        Bytes::copy_from_slice(self.alloc, self.pipe.lock(&self.rt).contents())
    }

    /// Writes the bytes. More than are free are `Trap(Capacity)`, and nothing changes. It may wait
    /// for another owner's call. Takes no memory.
    pub fn write(&self, bytes: &[u8]) -> Result<(), StreamError>
        ensures { MayWrite result }
    {
        self.pipe.lock(&self.rt).write(bytes)
    }

    /// How many bytes are free; `Closed` where none are.
    pub fn check_write(&self) -> Result<usize, StreamError>
        ensures { MayCheck result }
    {
        self.pipe.lock(&self.rt).check_write()
    }

    /// Does nothing: what was written lies in memory.
    pub fn flush(&self) -> Result<(), StreamError>
        ensures { IsOk result }
    {
        Ok(())
    }

    /// What was written, where this is the last owner. Takes no memory.
    pub fn try_into_inner(self) -> Option<BytesMut> {
        let pipe = Arc::into_inner(self.pipe)?;
        Some(pipe.into_inner().into_bytes())
    }
}

impl<R: Wait + Copy> Sink for MemoryOutputPipe<R> {
    ghost use Rattle.locked_pipes.specs.Shares.{writing_of};

    ghost writing = { λ pipe. writing_of pipe.refused };

    /// Takes a prefix of the bytes, as many as are free: none where the pipe is full. It never
    /// fails, and takes no memory.
    fn write(&mut self, bytes: &[u8]) -> Result<usize, Failed>
        ensures written { HasWritten (writing_of self.old.refused) (writing_of self.new.refused)
            bytes.now result }
        ensures ok { IsOk result }
    {
        let count = self.pipe.lock(&self.rt).put(bytes);
        if count == 0 && !bytes.is_empty() {
            self.refused = self.refused.saturating_add(1);
        }
        Ok(count)
    }

    fn flush(&mut self) -> Result<(), Failed>
        ensures flushed { HasFlushed (writing_of self.old.refused) (writing_of self.new.refused)
            result }
        ensures ok { IsOk result }
    {
        Ok(())
    }
}
