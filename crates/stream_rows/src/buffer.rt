//! What a pipe holds.

ghost use Rattle.std.specs.Prelude.{◌≡◌, ◌-◌, ◌++◌, [], IfOk, true, false, length, min, take, drop};

use std::alloc::{AllocError, Global};
use std::marker::Model;

/// The bytes that were written and not read, and which ends are gone. It never holds more than its
/// capacity.
#[derive(Drop)]
pub struct Buffer {
    bytes: Vec<u8>,
    capacity: usize,
    reader_gone: bool,
    writer_gone: bool,
}

impl Model for Buffer {
    ghost use Rattle.std.specs.Prelude.{◌≤◌, length, vec_capacity};
    ghost use Rattle.stream_rows.specs.Buffer.{BufferView};

    ghost Value = { BufferView };

    ghost view = { λ b. record {
      held = b.bytes.items;
      capacity = b.capacity;
      reader_gone = b.reader_gone;
      writer_gone = b.writer_gone;
    } };

    ghost invariant = { λ b. (length b.bytes.items ≤ b.capacity)
        × (b.capacity ≤ vec_capacity b.bytes) };
}

impl Buffer {
    /// An empty one. The memory for all of its capacity is taken here, and none later.
    pub fn new(alloc: Global, capacity: usize) -> Result<Buffer, AllocError>
        ensures { IfOk result (λ buffer. buffer ≡ record {
          held = [];
          capacity = capacity;
          reader_gone = false;
          writer_gone = false;
        }) }
    {
        Ok(Buffer {
            bytes: Vec::with_capacity(alloc, capacity)?,
            capacity,
            reader_gone: false,
            writer_gone: false,
        })
    }

    /// Takes in as much of the front of the bytes as there is room for, and returns how much.
    pub fn put(&mut self, bytes: &[u8]) -> usize
        ensures count { result ≡ min (length bytes.now) (self.old.capacity - length self.old.held) }
        ensures held { self.new ≡ record self.old {
          held = self.old.held ++ take result bytes.now;
        } }
    {
        let count = bytes.len().min(self.capacity - self.bytes.len());
        self.bytes.extend_from_slice(&bytes[..count]).unwrap();
        count
    }

    /// Moves as many bytes as fit to the front of `buf`, and returns how many.
    pub fn take(&mut self, buf: &mut [u8]) -> usize
        ensures count { result ≡ min (length buf.old) (length self.old.held) }
        ensures given { buf.new ≡ take result self.old.held ++ drop result buf.old }
        ensures held { self.new ≡ record self.old { held = drop result self.old.held } }
    {
        let held = self.bytes.len();
        let count = buf.len().min(held);
        buf[..count].copy_from_slice(&self.bytes.as_slice()[..count]);
        self.bytes.copy_within(count..held, 0);
        self.bytes.truncate(held - count);
        count
    }

    /// Whether nothing will be read any more.
    pub fn is_reader_gone(&self) -> bool
        ensures { result ≡ self.now.reader_gone }
    {
        self.reader_gone
    }

    /// Whether nothing will be written any more.
    pub fn is_writer_gone(&self) -> bool
        ensures { result ≡ self.now.writer_gone }
    {
        self.writer_gone
    }

    /// The reading end is gone.
    pub fn close_reader(&mut self)
        ensures { self.new ≡ record self.old { reader_gone = true } }
    {
        self.reader_gone = true;
    }

    /// The writing end is gone.
    pub fn close_writer(&mut self)
        ensures { self.new ≡ record self.old { writer_gone = true } }
    {
        self.writer_gone = true;
    }
}
