//! The buffer that the worker of a read stream reads into.

ghost use Rattle.std.specs.Prelude.{◌≡◌, ◌<◌, ◌≤◌, length, take, IfOk, IfSome, IfNone};
ghost use Rattle.world_io.specs.Io.{HasRead};

use bytes::{Bytes, BytesMut};
use std::alloc::{AllocError, Global};
use std::marker::Model;
use std::mem;
use world_io::{Failed, Source};

/// The most bytes of one read.
pub const MOST_READ: usize = 65536;

/// A buffer for reads. One that is full becomes a chunk, with no byte copied, and another takes its
/// place: that of a chunk that was made so before and is held no more, where there is one.
/// Contracts see its bytes.
#[derive(Drop)]
pub struct ReadBuffer {
    bytes: BytesMut,
    /// The last chunks that were full buffers.
    chunks: [Bytes; 3],
    /// Which of them was made first.
    oldest: usize,
    ghost room: { 0 < length bytes.items },
    ghost within: { oldest < 3 },
}

impl Model for ReadBuffer {
    ghost use Rattle.std.specs.Prelude.{ℕ, List};

    ghost Value = { List ℕ };

    ghost view = { λ buffer. buffer.bytes.items };
}

impl ReadBuffer {
    /// A buffer for reads of at most 65536 bytes.
    pub fn new(alloc: Global) -> Result<ReadBuffer, AllocError> {
        Ok(ReadBuffer {
            bytes: BytesMut::zeroed(alloc, MOST_READ)?,
            chunks: [Bytes::new(), Bytes::new(), Bytes::new()],
            oldest: 0,
        })
    }

    /// Reads once into the buffer, which has room.
    pub fn fill<S: Source>(&mut self, source: &mut S) -> Result<usize, Failed>
        ensures read { HasRead (S.reading source.old) (S.reading source.new) (length self.old)
            self.new result }
        ensures room { 0 < length self.old }
        ensures size { length self.new ≡ length self.old }
    {
        source.read(self.bytes.as_mut_slice())
    }

    /// A chunk of the first bytes. It copies them, but where they are the whole buffer.
    pub fn chunk(&mut self, alloc: Global, count: usize) -> Result<Bytes, AllocError>
        requires { count ≤ length self.old }
        ensures bytes { IfOk result (λ chunk. chunk ≡ take count self.old) }
        ensures size { IfOk result (λ chunk. length chunk ≡ count) }
    {
        if count == self.bytes.len() {
            if let Some(chunk) = self.hand_over(alloc) {
                return Ok(chunk);
            }
        }
        Bytes::copy_from_slice(alloc, &self.bytes.as_slice()[..count])
    }

    /// The whole buffer as a chunk. None where there is no memory for another buffer, and then its
    /// bytes stay.
    fn hand_over(&mut self, alloc: Global) -> Option<Bytes>
        ensures some { IfSome result (λ chunk. chunk ≡ self.old) }
        ensures none { IfNone result (self.new ≡ self.old) }
    {
        let next = self.next(alloc)?;
        match mem::replace(&mut self.bytes, next).freeze() {
            Ok(chunk) => {
                self.remember(&chunk);
                Some(chunk)
            }
            Err(refused) => {
                self.bytes = refused.value;
                None
            }
        }
    }

    /// A buffer for the next read.
    fn next(&mut self, alloc: Global) -> Option<BytesMut>
        ensures some { IfSome result (λ next. 0 < length next.items) }
        ensures same { self.new ≡ self.old }
    {
        let oldest = mem::replace(&mut self.chunks[self.oldest], Bytes::new());
        if let Ok(bytes) = oldest.try_into_mut() {
            if !bytes.is_empty() {
                return Some(bytes);
            }
        }
        BytesMut::zeroed(alloc, MOST_READ).ok()
    }

    /// Keeps a hold of the chunk, in place of the one that was made first.
    fn remember(&mut self, chunk: &Bytes)
        ensures { self.new ≡ self.old }
    {
        if let Ok(again) = chunk.clone() {
            self.chunks[self.oldest] = again;
            self.oldest = (self.oldest + 1) % 3;
        }
    }
}
