//! A source and a sink in memory.

ghost use Rattle.std.specs.Prelude.{◌≡◌, ◌≤◌, ◌+◌, ◌++◌, [], false, length, min, take, drop, IfOk};
ghost use Rattle.std.specs.Prelude.{OnOk, OnErr, IsErr, IsTrue, ◌↔◌};
ghost use Rattle.world_io.specs.Io.{HasRead, HasWritten, HasFlushed};
ghost use Rattle.wasi_world.specs.Seen.{one_more};
ghost use Rattle.world_io.specs.Memory.{reading_of, writing_of, IsFailing, ended_after};
ghost use Rattle.world_io.specs.Memory.{refused_after, after_read, after_failed_read, after_write};
ghost use Rattle.world_io.specs.Memory.{after_failed_write, after_flush, after_failed_flush};

use crate::io::{Failed, Sink, Source};
use std::alloc::{AllocError, Global};
use std::marker::Model;

/// Counts a fault, which the answer reports.
pub(crate) fn count_fault(faults: &mut u64) -> Failed
    ensures { faults.new ≡ one_more faults.old }
{
    *faults = faults.saturating_add(1);
    Failed
}

/// Whether the end was given, after a read into a buffer of this size gave so many bytes.
pub(crate) fn ended_after(ended: bool, count: usize, size: usize) -> bool
    ensures { result ≡ ended_after ended count size }
{
    ended || (count == 0 && size > 0)
}

/// The count of refused pieces, after a write took so many bytes of a piece of this size.
pub(crate) fn refused_after(refused: u64, count: usize, size: usize) -> u64
    ensures { result ≡ refused_after refused count size }
{
    if count == 0 && size > 0 {
        refused.saturating_add(1)
    } else {
        refused
    }
}

/// How many calls were made, and the numbers of those that fail, counted from 1.
#[derive(Drop)]
struct Calls {
    fails: Vec<u32>,
    made: u64,
}

impl Calls {
    /// Counts the next call and returns whether it fails.
    fn next_fails(&mut self) -> bool
        ensures fails { IsTrue result ↔ IsFailing self.old.fails.items self.old.made }
        ensures made { self.new ≡ record self.old { made = one_more self.old.made } }
    {
        self.made = self.made.saturating_add(1);
        let call = self.made;
        self.fails.iter().any(|number| call == u64::from(*number))
    }
}

/// A source that gives the bytes that it was made of, some at a time, and fails at some calls. Its
/// reads take no memory.
#[derive(Drop)]
pub struct MemorySource {
    bytes: Vec<u8>,
    given: usize,
    most: usize,
    calls: Calls,
    ended: bool,
    faults: u64,
}

impl Model for MemorySource {
    ghost use Rattle.std.specs.Prelude.{◌≤◌, length, drop};
    ghost use Rattle.world_io.specs.Memory.{MemoryReading};

    ghost Value = { MemoryReading };

    ghost view = { λ s. record {
      left = drop s.given s.bytes.items;
      most = s.most;
      fails = s.calls.fails.items;
      calls = s.calls.made;
      ended = s.ended;
      faults = s.faults;
    } };

    ghost invariant = { λ s. (s.given ≤ length s.bytes.items) × (1 ≤ s.most) };
}

impl MemorySource {
    /// A source of these bytes, that gives at most `most` of them at a time. The reads whose
    /// numbers, counted from 1, are in `fails` fail.
    pub fn new(bytes: Vec<u8>, most: usize, fails: Vec<u32>) -> MemorySource
        requires { 1 ≤ most }
        ensures { result ≡ record {
          left = bytes.items;
          most = most;
          fails = fails.items;
          calls = 0;
          ended = false;
          faults = 0;
        } }
    {
        MemorySource {
            bytes,
            given: 0,
            most,
            calls: Calls { fails, made: 0 },
            ended: false,
            faults: 0,
        }
    }

    /// The bytes that it didn't give.
    pub fn left(&self) -> &[u8]
        ensures { result.now ≡ self.now.left }
    {
        &self.bytes[self.given..]
    }

    /// Whether it gave its end.
    pub fn has_ended(&self) -> bool
        ensures { result ≡ self.now.ended }
    {
        self.ended
    }

    /// How many of its calls failed.
    pub fn faults(&self) -> u64
        ensures { result ≡ self.now.faults }
    {
        self.faults
    }
}

impl Source for MemorySource {
    ghost reading = { reading_of };

    /// Gives the least of `most`, the buffer's length and the number of bytes left.
    fn read(&mut self, buf: &mut [u8]) -> Result<usize, Failed>
        ensures read { HasRead (reading_of self.old) (reading_of self.new) (length buf.old) buf.new
            result }

        // The answer, and what lies in the buffer.
        ensures fails { IsErr result ↔ IsFailing self.old.fails self.old.calls }
        ensures count { IfOk result (λ count. count ≡ min self.old.most
            (min (length buf.old) (length self.old.left))) }
        ensures buffer { IfOk result (λ count. buf.new ≡ take count self.old.left ++ drop count
            buf.old) }
        ensures untouched { OnErr result (buf.new ≡ buf.old) }

        // The source afterwards.
        ensures ok { IfOk result (λ count. self.new ≡ after_read self.old count (length buf.old)) }
        ensures err { OnErr result (self.new ≡ after_failed_read self.old) }
    {
        if self.calls.next_fails() {
            return Err(count_fault(&mut self.faults));
        }
        let size = buf.len();
        let left = self.left();
        let count = self.most.min(size).min(left.len());
        buf[..count].copy_from_slice(&left[..count]);
        self.given += count;
        self.ended = ended_after(self.ended, count, size);
        Ok(count)
    }
}

/// A sink that keeps the bytes it takes, some at a time and as many as it has room for, and fails
/// at some calls.
#[derive(Drop)]
pub struct MemorySink {
    bytes: Vec<u8>,
    room: usize,
    most: usize,
    calls: Calls,
    flushed: bool,
    faults: u64,
    refused: u64,
}

impl Model for MemorySink {
    ghost use Rattle.std.specs.Prelude.{◌≤◌, ◌+◌, length, vec_capacity};
    ghost use Rattle.world_io.specs.Memory.{MemoryWriting};

    ghost Value = { MemoryWriting };

    ghost view = { λ s. record {
      written = s.bytes.items;
      room = s.room;
      most = s.most;
      fails = s.calls.fails.items;
      calls = s.calls.made;
      flushed = s.flushed;
      faults = s.faults;
      refused = s.refused;
    } };

    ghost invariant = { λ s. length s.bytes.items + s.room ≤ vec_capacity s.bytes };
}

impl MemorySink {
    /// An empty sink with room for so many bytes, that takes at most `most` of them at a time. The
    /// calls whose numbers are in `fails` fail: writes and flushes are counted together, from 1.
    /// The memory for all the room is taken here, and none later, so a write never fails for lack
    /// of it.
    pub fn new(
        alloc: Global,
        most: usize,
        room: usize,
        fails: Vec<u32>,
    ) -> Result<MemorySink, AllocError>
        ensures { IfOk result (λ sink. sink ≡ record {
          written = [];
          room = room;
          most = most;
          fails = fails.items;
          calls = 0;
          flushed = false;
          faults = 0;
          refused = 0;
        }) }
    {
        let mut bytes = Vec::new(alloc);
        bytes.reserve(room)?;
        Ok(MemorySink {
            bytes,
            room,
            most,
            calls: Calls { fails, made: 0 },
            flushed: false,
            faults: 0,
            refused: 0,
        })
    }

    /// The bytes that it took.
    pub fn bytes(&self) -> &[u8]
        ensures { result.now ≡ self.now.written }
    {
        self.bytes.as_slice()
    }

    /// Whether a flush was answered Ok after the last write.
    pub fn is_flushed(&self) -> bool
        ensures { result ≡ self.now.flushed }
    {
        self.flushed
    }

    /// How many of its calls failed.
    pub fn faults(&self) -> u64
        ensures { result ≡ self.now.faults }
    {
        self.faults
    }

    /// Of how many pieces that weren't empty it took nothing.
    pub fn refused(&self) -> u64
        ensures { result ≡ self.now.refused }
    {
        self.refused
    }
}

impl Sink for MemorySink {
    ghost writing = { writing_of };

    /// Takes the least of `most`, the piece's length and the room left, and no memory.
    fn write(&mut self, bytes: &[u8]) -> Result<usize, Failed>
        ensures written { HasWritten (writing_of self.old) (writing_of self.new) bytes.now result }

        // The answer.
        ensures fails { IsErr result ↔ IsFailing self.old.fails self.old.calls }
        ensures count { IfOk result (λ count. count ≡ min self.old.most
            (min (length bytes.now) self.old.room)) }

        // The sink afterwards.
        ensures ok { IfOk result (λ count. self.new ≡ after_write self.old count bytes.now) }
        ensures err { OnErr result (self.new ≡ after_failed_write self.old) }
    {
        self.flushed = false;
        if self.calls.next_fails() {
            return Err(count_fault(&mut self.faults));
        }
        let count = self.most.min(bytes.len()).min(self.room);
        self.bytes.extend_from_slice(&bytes[..count]).unwrap();
        self.room -= count;
        self.refused = refused_after(self.refused, count, bytes.len());
        Ok(count)
    }

    fn flush(&mut self) -> Result<(), Failed>
        ensures flushed { HasFlushed (writing_of self.old) (writing_of self.new) result }
        ensures fails { IsErr result ↔ IsFailing self.old.fails self.old.calls }
        ensures ok { OnOk result (self.new ≡ after_flush self.old) }
        ensures err { OnErr result (self.new ≡ after_failed_flush self.old) }
    {
        if self.calls.next_fails() {
            return Err(count_fault(&mut self.faults));
        }
        self.flushed = true;
        Ok(())
    }
}

/// A sink that keeps all bytes it is given, for which it takes memory. A write that finds none is a
/// fault and takes nothing; no other call fails, and no piece is refused.
#[derive(Drop)]
pub struct GrowingSink {
    bytes: Vec<u8>,
    flushed: bool,
    faults: u64,
}

impl Model for GrowingSink {
    ghost use Rattle.std.specs.Prelude.{Some};
    ghost use Rattle.world_io.specs.Io.{Writing};

    ghost Value = { Writing };

    ghost view = { λ s. record {
      written = Some s.bytes.items;
      flushed = Some s.flushed;
      faults = s.faults;
      refused = 0;
    } };
}

impl GrowingSink {
    /// An empty sink. Takes no memory.
    pub fn new(alloc: Global) -> GrowingSink
        ensures { result ≡ record {
          written = Some [];
          flushed = Some false;
          faults = 0;
          refused = 0;
        } }
    {
        GrowingSink {
            bytes: Vec::new(alloc),
            flushed: false,
            faults: 0,
        }
    }

    /// The bytes that it was given.
    pub fn bytes(&self) -> &[u8]
        ensures { self.now.written ≡ Some result.now }
    {
        self.bytes.as_slice()
    }

    /// The bytes themselves; takes no memory.
    pub fn into_bytes(self) -> Vec<u8>
        ensures { self.written ≡ Some result.items }
    {
        self.bytes
    }
}

impl Sink for GrowingSink {
    ghost writing = { λ s. s };

    /// Takes the whole piece.
    fn write(&mut self, bytes: &[u8]) -> Result<usize, Failed>
        ensures written { HasWritten self.old self.new bytes.now result }
        ensures whole { IfOk result (λ count. count ≡ length bytes.now) }
    {
        self.flushed = false;
        match self.bytes.extend_from_slice(bytes) {
            Ok(()) => Ok(bytes.len()),
            Err(_) => Err(count_fault(&mut self.faults)),
        }
    }

    fn flush(&mut self) -> Result<(), Failed> {
        self.flushed = true;
        Ok(())
    }
}
