//! What a program prints on standard error when it stops at a log.

ghost use Rattle.std.specs.Prelude.{◌≡◌};
ghost use Rattle.std.specs.Process.{exit_status};

use crate::log::log_path;
use std::process::ExitCode;
use std::rt::Files;
use wasi_console::{end_at_line, end_too_long, is_longer, line_of};
use wasi_replay::MOST_BYTES;
use world_io::FileSource;

/// What a line of a log may be.
const LOG_LINES: &str =
    "`context yes yes yes 100`, an entry such as `3 0 bind 2 0 4 127 0 0 1 80 = done`, or the last line `end`, ended by a newline, in a file of at most 4294967294 bytes";

/// Prints that the log has this bad line. Returns the status as the program's.
pub fn end_at_log_line<R: Eprint + Files>(rt: &R, number: u8, line: u32) -> ExitCode
    ensures { exit_status result ≡ number }
{
    let path = log_path();
    let most = MOST_BYTES as u64;
    if is_longer(rt, path, most) {
        return end_too_long(rt, number, path, line, most);
    }
    let front = line_of(FileSource::open(rt, path), u64::from(line));
    end_at_line(rt, number, path, line, front, LOG_LINES)
}

/// Prints that the log at this path can't be read or written. Returns the status as the program's.
pub fn end_without_log<R: Eprint>(rt: &R, number: u8, path: &str) -> ExitCode
    ensures { exit_status result ≡ number }
{
    let printed = eprintln!(rt; "status {number}\n{path} can't be opened, read or written");
    let _ = printed;
    ExitCode::from(number)
}

/// Prints that there is a file at this path, which isn't overwritten. Returns the status as the
/// program's.
pub fn end_at_log_file<R: Eprint>(rt: &R, number: u8, path: &str) -> ExitCode
    ensures { exit_status result ≡ number }
{
    let printed = eprintln!(rt;
        "status {number}\n{path} is there, and was left as it is; --force behind it overwrites it"
    );
    let _ = printed;
    ExitCode::from(number)
}

/// Prints that the log was cut, and that the replies up to there were written. Returns the status as
/// the program's.
pub fn end_at_cut<R: Eprint>(rt: &R, number: u8) -> ExitCode
    ensures { exit_status result ≡ number }
{
    let path = log_path();
    let printed = eprintln!(rt;
        "status {number}\n{path} was cut and has no last line `end`; the replies to the lines of the script up to there were written"
    );
    let _ = printed;
    ExitCode::from(number)
}

/// Prints that the run isn't the recorded one from this entry on. Returns the status as the
/// program's.
pub fn end_at_difference<R: Eprint>(rt: &R, number: u8, place: u32) -> ExitCode
    ensures { exit_status result ≡ number }
{
    let path = log_path();
    let printed = eprintln!(rt;
        "status {number} line {place}\nthe script doesn't ask next what {path} has as entry {place}, counted from 0, or one of the two ends there; nothing was written"
    );
    let _ = printed;
    ExitCode::from(number)
}
