//! The two ends of a pipe.

ghost use Rattle.std.specs.Prelude.{◌≡◌, ◌<◌, ◌≤◌, IfSome, length};

use crate::buffer::Buffer;
use std::alloc::{AllocError, Global};
use std::sync::{Arc, Condvar, Mutex, Wait};
use world_io::{Failed, Sink, Source};

/// What the ends share.
#[derive(Drop)]
struct Pipe {
    buffer: Mutex<Buffer>,
    /// Where the reader waits for bytes.
    bytes: Condvar,
    /// Where the writer waits for room.
    room: Condvar,
}

impl Pipe {
    /// Waits for bytes, and moves them to the front of `buf`, which isn't empty. None once the
    /// writer is gone.
    fn read<R: Wait>(&self, rt: &R, buf: &mut [u8]) -> usize
        ensures fits { result ≤ length buf.old }
        ensures len { length buf.new ≡ length buf.old }
    {
        let mut buffer = self.buffer.lock(rt);
        for _ in rt.forever() {
            let count = buffer.take(buf);
            if count > 0 {
                self.room.notify_one();
                return count;
            }
            if buffer.is_writer_gone() {
                return 0;
            }
            buffer = self.bytes.wait(rt, buffer);
        }
        unreachable!()
    }

    /// Waits for room, and takes in as much of the bytes, which are some, as there is room for.
    /// None once the reader is gone.
    fn write<R: Wait>(&self, rt: &R, bytes: &[u8]) -> Option<usize>
        ensures { IfSome result (λ count. (0 < count) × (count ≤ length bytes.now)) }
    {
        let mut buffer = self.buffer.lock(rt);
        for _ in rt.forever() {
            if buffer.is_reader_gone() {
                return None;
            }
            let count = buffer.put(bytes);
            if count > 0 {
                self.bytes.notify_one();
                return Some(count);
            }
            buffer = self.room.wait(rt, buffer);
        }
        unreachable!()
    }
}

/// A pipe that holds at most so many bytes, which are at least 1: its ends. The memory for all of
/// them is taken here.
pub fn simplex<R: Wait + Copy>(
    rt: &R,
    alloc: Global,
    capacity: usize,
) -> Result<(SimplexReader<R>, SimplexWriter<R>), AllocError>
    requires { 0 < capacity }
{
    let pipe = Arc::new(
        alloc,
        Pipe {
            buffer: Mutex::new(Buffer::new(alloc, capacity)?),
            bytes: Condvar::new(),
            room: Condvar::new(),
        },
    )?;
    let theirs = Arc::try_clone(&pipe)?;
    let reader = SimplexReader {
        rt: *rt,
        pipe,
        ended: false,
    };
    let writer = SimplexWriter {
        rt: *rt,
        pipe: theirs,
        faults: 0,
    };
    Ok((reader, writer))
}

/// The reading end. A read waits for bytes; it gives the end once the writer is gone and all was
/// read. None fails.
pub struct SimplexReader<R: Wait + Copy> {
    rt: R,
    pipe: Arc<Pipe, Global>,
    ended: bool,
}

impl<R: Wait + Copy> Drop for SimplexReader<R> {
    fn drop(self) {
        let SimplexReader { rt, pipe, ended: _ } = self;
        pipe.buffer.lock(&rt).close_reader();
        pipe.room.notify_one();
    }
}

impl<R: Wait + Copy> Source for SimplexReader<R> {
    ghost use Rattle.std.specs.Prelude.{None};

    ghost reading = { λ end. record { left = None; ended = end.ended; faults = 0 } };

    fn read(&mut self, buf: &mut [u8]) -> Result<usize, Failed> {
        if buf.is_empty() {
            return Ok(0);
        }
        let count = self.pipe.read(&self.rt, buf);
        if count == 0 {
            self.ended = true;
        }
        Ok(count)
    }
}

/// The writing end. A write waits for room, and fails once the reader is gone.
pub struct SimplexWriter<R: Wait + Copy> {
    rt: R,
    pipe: Arc<Pipe, Global>,
    faults: u64,
}

impl<R: Wait + Copy> Drop for SimplexWriter<R> {
    fn drop(self) {
        let SimplexWriter {
            rt,
            pipe,
            faults: _,
        } = self;
        pipe.buffer.lock(&rt).close_writer();
        pipe.bytes.notify_one();
    }
}

impl<R: Wait + Copy> Sink for SimplexWriter<R> {
    ghost use Rattle.std.specs.Prelude.{None};

    ghost writing = { λ end. record {
      written = None;
      flushed = None;
      faults = end.faults;
      refused = 0;
    } };

    fn write(&mut self, bytes: &[u8]) -> Result<usize, Failed> {
        if bytes.is_empty() {
            return Ok(0);
        }
        let Some(count) = self.pipe.write(&self.rt, bytes) else {
            self.faults = self.faults.saturating_add(1);
            return Err(Failed);
        };
        Ok(count)
    }

    fn flush(&mut self) -> Result<(), Failed> {
        Ok(())
    }
}
