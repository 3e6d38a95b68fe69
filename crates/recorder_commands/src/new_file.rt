//! A file that is made when it is written.

use crate::log_file::LogFile;
use std::io::Write;
use std::rt::Files;
use std::{fs, io};

/// A log's file that the first write to it makes, or makes empty, so that where nothing is written
/// all stays as it was. One that can't be opened fails at each write.
#[derive(Drop)]
pub struct NewFile<'a, R: Files> {
    rt: &'a R,
    path: &'a str,
    file: Option<LogFile<R::File>>,
}

impl<'a, R: Files> NewFile<'a, R> {
    /// The file at the path, before its first write.
    pub fn new(rt: &'a R, path: &'a str) -> NewFile<'a, R> {
        NewFile {
            rt,
            path,
            file: None,
        }
    }
}

impl<R: Files> Write for NewFile<'_, R> {
    fn write(&mut self, bytes: &[u8]) -> io::Result<usize> {
        if self.file.is_none() {
            self.file = Some(LogFile::new(fs::create(self.rt, self.path)?));
        }
        match &mut self.file {
            Some(file) => file.write(bytes),
            None => Ok(0),
        }
    }

    fn flush(&mut self) -> io::Result<()> {
        match &mut self.file {
            Some(file) => file.flush(),
            None => Ok(()),
        }
    }
}
