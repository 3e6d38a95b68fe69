//! Readers and writers of std as sources and sinks, among them the standard streams, and files.

ghost use Rattle.std.specs.Prelude.{◌≡◌, false, length, IfOk};
ghost use Rattle.std.specs.Io.KnownBytes.{Keeps, ReadConsumes, WriteAppends};
ghost use Rattle.world_io.specs.Io.{HasRead, HasWritten, HasFlushed, Reading};
ghost use Rattle.world_io.specs.Memory.{ended_after, refused_after};
ghost use Rattle.world_io.specs.Standard.{reading_by, reading_of_file, left_in, writing_by};

use crate::io::{Failed, Sink, Source};
use crate::memory::{count_fault, ended_after, refused_after};
use std::fs;
use std::io::{Read, Write};
use std::rt::Files;

/// A reader as a source, which it keeps: the standard input, say. It reports no bytes of its own;
/// what each read gives is what the reader gave.
///
/// ```
/// fn main(rt: HostRuntime) {
///     let mut source = StdSource::new(rt.stdin());
///     let mut buf = [0; 4096];
///     let answer = source.read(&mut buf);
/// }
/// ```
#[derive(Drop)]
pub struct StdSource<I> {
    reader: I,
    ended: bool,
    faults: u64,
}

impl<I> StdSource<I> {
    /// The reader from where it stands, with no fault yet.
    pub fn new(reader: I) -> StdSource<I>
        ensures { result ≡ record { reader = reader; ended = false; faults = 0 } }
    {
        StdSource {
            reader,
            ended: false,
            faults: 0,
        }
    }

    /// Whether it gave its end.
    pub fn has_ended(&self) -> bool
        ensures { result ≡ self.now.ended }
    {
        self.ended
    }

    /// How many of its reads failed.
    pub fn faults(&self) -> u64
        ensures { result ≡ self.now.faults }
    {
        self.faults
    }
}

impl<I: Read> Source for StdSource<I> {
    ghost reading = { reading_by };

    /// One read of the reader. Whatever error it has, an interrupted call too, is a fault and not
    /// the end.
    fn read(&mut self, buf: &mut [u8]) -> Result<usize, Failed>
        ensures read { HasRead (reading_by self.old) (reading_by self.new) (length buf.old) buf.new
            result }

        // The bytes are those that the reader gave, and none were lost.
        ensures bytes { ReadConsumes (I.remaining self.old.reader) (I.remaining self.new.reader)
            result buf.new }
        ensures end { IfOk result (λ count. self.new.ended ≡ ended_after self.old.ended count
            (length buf.old)) }
    {
        match self.reader.read(buf) {
            Ok(count) => {
                self.ended = ended_after(self.ended, count, buf.len());
                Ok(count)
            }
            Err(_) => Err(count_fault(&mut self.faults)),
        }
    }
}

/// A file that is read from its start. One that can't be opened fails at each read. It reports no
/// bytes of its own; what each read gives is what the file gave.
#[derive(Drop)]
pub struct FileSource<F> {
    file: Option<F>,
    ended: bool,
    faults: u64,
}

impl<F> FileSource<F> {
    /// Opens the file at the path; that it can't be opened shows at the first read. No clause
    /// speaks of the path.
    pub fn open<R: Files<File = F>>(rt: &R, path: &str) -> FileSource<F>
        ensures { reading_of_file result ≡ record { left = None; ended = false; faults = 0 } }
    {
        FileSource {
            file: fs::open(rt, path).ok(),
            ended: false,
            faults: 0,
        }
    }
}

impl<F: Read> Source for FileSource<F> {
    ghost reading = { reading_of_file };

    /// One read of the file. Whatever error it has is a fault and not the end.
    fn read(&mut self, buf: &mut [u8]) -> Result<usize, Failed>
        ensures read { HasRead (reading_of_file self.old) (reading_of_file self.new)
            (length buf.old) buf.new result }

        // The bytes are those that the file gave, and none were lost.
        ensures bytes { ReadConsumes (left_in F.remaining self.old.file)
            (left_in F.remaining self.new.file) result buf.new }
    {
        let Some(file) = &mut self.file else {
            return Err(count_fault(&mut self.faults));
        };
        let Ok(count) = file.read(buf) else {
            return Err(count_fault(&mut self.faults));
        };
        self.ended = ended_after(self.ended, count, buf.len());
        Ok(count)
    }
}

/// A writer as a sink, which it keeps: the standard output, say. Each piece is passed on at once,
/// and each flush. It reports no bytes and no flush of its own; what each write takes is what the
/// writer took.
///
/// ```
/// fn main(rt: HostRuntime) {
///     let mut sink = StdSink::new(rt.stdout());
///     let answer = sink.write(b"hello");
/// }
/// ```
#[derive(Drop)]
pub struct StdSink<O> {
    writer: O,
    faults: u64,
    refused: u64,
}

impl<O> StdSink<O> {
    /// The writer as it is, with no fault and no refused piece yet.
    pub fn new(writer: O) -> StdSink<O>
        ensures { result ≡ record { writer = writer; faults = 0; refused = 0 } }
    {
        StdSink {
            writer,
            faults: 0,
            refused: 0,
        }
    }

    /// How many of its writes and flushes failed.
    pub fn faults(&self) -> u64
        ensures { result ≡ self.now.faults }
    {
        self.faults
    }

    /// Of how many pieces that weren't empty it took nothing.
    pub fn refused(&self) -> u64
        ensures { result ≡ self.now.refused }
    {
        self.refused
    }
}

impl<O: Write> Sink for StdSink<O> {
    ghost writing = { writing_by };

    /// One write to the writer, which may take a part. Whatever error it has, an interrupted call
    /// too, is a fault.
    fn write(&mut self, bytes: &[u8]) -> Result<usize, Failed>
        ensures written { HasWritten (writing_by self.old) (writing_by self.new) bytes.now result }

        // The writer took the first of the bytes, as many as are told.
        ensures bytes { WriteAppends (O.contents self.old.writer) (O.contents self.new.writer)
            result bytes.now }
        ensures refused { IfOk result (λ count. self.new.refused
            ≡ refused_after self.old.refused count (length bytes.now)) }
    {
        match self.writer.write(bytes) {
            Ok(count) => {
                self.refused = refused_after(self.refused, count, bytes.len());
                Ok(count)
            }
            Err(_) => Err(count_fault(&mut self.faults)),
        }
    }

    /// Flushes the writer. Whatever error it has is a fault.
    fn flush(&mut self) -> Result<(), Failed>
        ensures flushed { HasFlushed (writing_by self.old) (writing_by self.new) result }
        ensures bytes { Keeps (O.contents self.old.writer) (O.contents self.new.writer) }
    {
        match self.writer.flush() {
            Ok(()) => Ok(()),
            Err(_) => Err(count_fault(&mut self.faults)),
        }
    }
}
