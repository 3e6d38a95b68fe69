//! The file that a log is written to.

use std::fs::OpenOptions;
use std::io::{ErrorKind, Write};
use std::rt::Files;
use std::{fs, io};
use wasi_replay::MOST_BYTES;

/// How many bytes a log's file takes: with the line `end` behind them, as a log that was cut is
/// read, they are no more than a log that is read may have.
const MOST_WRITTEN: usize = MOST_BYTES - 4;

/// A file that takes at most so many bytes that what it has of a log can be read, whole or cut. A
/// write that would pass them fails, and writes nothing.
#[derive(Drop)]
pub struct LogFile<F> {
    file: F,
    /// How many more bytes it takes.
    left: usize,
}

impl<F> LogFile<F> {
    /// The file, which is empty.
    pub fn new(file: F) -> LogFile<F> {
        LogFile {
            file,
            left: MOST_WRITTEN,
        }
    }
}

/// Why there is no file for a log.
#[derive(Clone, Copy, Debug, PartialEq, Eq)]
pub enum NoLogFile {
    /// There is a file at the path, and it may not be overwritten.
    Exists,
    /// It can't be opened for writing.
    Fault,
}

/// Makes the file at the path. One that is there is overwritten where `overwrites` says so, and
/// else stays as it is.
pub fn create_log<R: Files>(
    rt: &R,
    path: &str,
    overwrites: bool,
) -> Result<LogFile<R::File>, NoLogFile> {
    let opened = if overwrites {
        fs::create(rt, path)
    } else {
        OpenOptions::new()
            .write(true)
            .create_new(true)
            .open(rt, path)
    };
    match opened {
        Ok(file) => Ok(LogFile::new(file)),
        Err(error) if error.kind() == ErrorKind::AlreadyExists => Err(NoLogFile::Exists),
        Err(_) => Err(NoLogFile::Fault),
    }
}

impl<F: Write> Write for LogFile<F> {
    fn write(&mut self, bytes: &[u8]) -> io::Result<usize> {
        if bytes.len() > self.left {
            return Err(io::Error::from(ErrorKind::FileTooLarge));
        }
        let count = self.file.write(bytes)?;
        self.left = self.left.saturating_sub(count);
        Ok(count)
    }

    fn flush(&mut self) -> io::Result<()> {
        self.file.flush()
    }
}
