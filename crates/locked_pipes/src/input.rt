//! Bytes in memory that several owners read.

ghost use Rattle.std.specs.Prelude.{◌≡◌, ◌≤◌, IfOk, IsOk, false, length};
ghost use Rattle.world_io.specs.Io.{HasRead};
ghost use Rattle.locked_pipes.specs.Shares.{MayRead, reading_of};

use bytes::Bytes;
use memory_streams::InputPipeCore;
use std::alloc::{AllocError, Global};
use std::sync::{Arc, Mutex, Wait};
use wasi_streams::StreamError;
use world_io::{Failed, Source};

/// Bytes in memory that are read from their front, each by one of the owners (`MemoryInputPipe` of
/// the crate wasmtime-wasi). Each call takes the lock of the pipe, so it may wait for another
/// owner's.
///
/// As a source it reports no bytes; contracts see whether this owner was told the end.
#[derive(Drop)]
pub struct MemoryInputPipe<R: Wait + Copy> {
    rt: R,
    pipe: Arc<Mutex<InputPipeCore>, Global>,
    ended: bool,
}

impl<R: Wait + Copy> MemoryInputPipe<R> {
    /// A pipe of these bytes. Takes memory for what its owners share.
    pub fn new(rt: &R, alloc: Global, bytes: Bytes) -> Result<MemoryInputPipe<R>, AllocError>
        ensures { IfOk result (λ pipe. pipe.ended ≡ false) }
    {
        let pipe = Arc::new(alloc, Mutex::new(InputPipeCore::new(bytes)))?;
        Ok(MemoryInputPipe {
            rt: *rt,
            pipe,
            ended: false,
        })
    }

    /// A further owner of this pipe, who wasn't told the end yet. Takes memory for it.
    pub fn share(&self) -> Result<MemoryInputPipe<R>, AllocError>
        ensures { IfOk result (λ pipe. pipe.ended ≡ false) }
    {
        Ok(MemoryInputPipe {
            rt: self.rt,
            pipe: Arc::try_clone(&self.pipe)?,
            ended: false,
        })
    }

    /// Whether no bytes are left.
    pub fn is_empty(&self) -> bool {
        self.pipe.lock(&self.rt).is_empty()
    }

    /// Takes the first `size` bytes out, or all where fewer are left. `Closed` where none is left.
    /// It may wait for another owner's call.
    ///
    /// Takes memory to hand out a part of what is left; out of memory all stays in the pipe.
    pub fn read(&self, size: usize) -> Result<Bytes, StreamError>
        ensures { MayRead size result }
    {
        self.pipe.lock(&self.rt).read(size)
    }
}

impl<R: Wait + Copy> Source for MemoryInputPipe<R> {
    ghost use Rattle.locked_pipes.specs.Shares.{reading_of};

    ghost reading = { λ pipe. reading_of pipe.ended };

    /// Moves as many of the bytes that are left as fit. It never fails, and takes no memory.
    fn read(&mut self, buf: &mut [u8]) -> Result<usize, Failed>
        ensures read { HasRead (reading_of self.old.ended) (reading_of self.new.ended)
            (length buf.old) buf.new result }
        ensures ok { IsOk result }
    {
        let count = self.pipe.lock(&self.rt).take_into(buf);
        if count == 0 && !buf.is_empty() {
            self.ended = true;
        }
        Ok(count)
    }
}
