//! Cases of readers and writers of std as a source and a sink.

use crate::streams::{flush_text, push_answer, text_of};
use std::alloc::AllocError;
use std::fmt::Write;
use std::io::{self, Error, ErrorKind, Read};
use world_io::{Sink, Source, StdSink, StdSource};

/// A device that fails at each call.
#[derive(Drop)]
struct Broken;

impl Read for Broken {
    fn read(&mut self, _buf: &mut [u8]) -> io::Result<usize> {
        Err(Error::from(ErrorKind::Interrupted))
    }
}

impl io::Write for Broken {
    fn write(&mut self, _buf: &[u8]) -> io::Result<usize> {
        Err(Error::from(ErrorKind::BrokenPipe))
    }

    fn flush(&mut self) -> io::Result<()> {
        Err(Error::from(ErrorKind::BrokenPipe))
    }
}

/// A writer that takes two bytes at a time, four in all, and counts its flushes.
#[derive(Drop)]
struct Narrow {
    room: usize,
    flushes: u64,
}

impl io::Write for &mut Narrow {
    fn write(&mut self, buf: &[u8]) -> io::Result<usize> {
        let count = buf.len().min(2).min(self.room);
        self.room -= count;
        Ok(count)
    }

    fn flush(&mut self) -> io::Result<()> {
        self.flushes = self.flushes.saturating_add(1);
        Ok(())
    }
}

/// Adds the answers to reads into buffers of these sizes, what was given, and what the source says
/// then.
fn reads<I: Read + Drop>(text: &mut String, reader: I, sizes: &[usize]) -> Result<(), AllocError> {
    let mut source = StdSource::new(reader);
    let mut buf = [0; 8];
    for size in sizes {
        let told = source.read(&mut buf[..(*size).min(8)]);
        push_answer(text, told)?;
        text.push_str(text_of(&buf[..told.unwrap_or(0)]))?;
        text.push_str(if source.has_ended() {
            "ended "
        } else {
            "open "
        })?;
    }
    write!(text, "faults {}\n", source.faults())
}

/// Adds the answers to these writes, and to a flush where there is none, and what the sink says then.
fn writes<O: io::Write + Drop>(
    text: &mut String,
    writer: O,
    pieces: &[Option<&[u8]>],
) -> Result<(), AllocError> {
    let mut sink = StdSink::new(writer);
    for piece in pieces {
        match piece {
            Some(bytes) => push_answer(text, sink.write(bytes))?,
            None => text.push_str(flush_text(sink.flush()))?,
        }
    }
    let (refused, faults) = (sink.refused(), sink.faults());
    write!(text, "refused {refused} faults {faults}\n")
}

/// `devices`: what is read from a device that fails and from bytes; and what is written to such a
/// device, and to a narrow one, which counts its flushes.
pub fn devices(text: &mut String) -> Result<(), AllocError> {
    reads(text, Broken, &[4, 4])?;
    reads(text, b"hello".as_slice(), &[3, 3, 3])?;
    writes(text, Broken, &[Some(b"hello"), None])?;
    let mut narrow = Narrow {
        room: 4,
        flushes: 0,
    };
    let pieces: [Option<&[u8]>; 5] = [Some(b"abc"), Some(b"c"), None, Some(b"de"), Some(b"e")];
    writes(text, &mut narrow, &pieces)?;
    write!(text, "flushes {}\n", narrow.flushes)
}

/// Writes to the standard output; and reads from the standard input, which is over.
pub fn streams(rt: &HostRuntime, text: &mut String) -> Result<(), AllocError> {
    writes(text, rt.stdout(), &[Some(b"hello\n"), Some(b""), None])?;
    reads(text, rt.stdin(), &[0, 4])
}
