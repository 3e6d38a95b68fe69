//! Why a file can't be read.

use std::rt::Files;
use std::{fs, io};

/// Whether there is a folder at this path.
pub fn is_folder<R: Files>(rt: &R, path: &str) -> bool {
    match fs::metadata(rt, path) {
        Ok(metadata) => metadata.is_dir(),
        Err(_) => false,
    }
}

/// Whether the file at this path is longer than so many bytes.
pub fn is_longer<R: Files>(rt: &R, path: &str, most: u64) -> bool {
    match fs::metadata(rt, path) {
        Ok(metadata) => metadata.len() > most,
        Err(_) => false,
    }
}

/// What is wrong with the file at this path, which couldn't be opened and read.
pub fn why_unread<R: Files>(rt: &R, path: &str) -> &'static str {
    if is_folder(rt, path) {
        return "is a folder, and no file";
    }
    match fs::open(rt, path) {
        Ok(_) => "can't be read",
        Err(error) => why_unopened(error.kind()),
    }
}

fn why_unopened(kind: io::ErrorKind) -> &'static str {
    match kind {
        io::ErrorKind::NotFound => "is missing",
        io::ErrorKind::PermissionDenied => "may not be read by this user",
        io::ErrorKind::NotADirectory => "can't be there: a part of its path is no folder",
        _ => "can't be opened",
    }
}
