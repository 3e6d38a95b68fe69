//! The words of a command line.

ghost use Rattle.std.specs.Prelude.{IfErr};
ghost use Rattle.std.specs.Process.{exit_status};
ghost use Rattle.wasi_program.specs.Choices.{IsEndWithoutCommand, IsWantOfWords};

use crate::report::{end, print};
use std::env::Env;
use std::process::ExitCode;
use std::{env, io};
use wasi_program::{Choice, Status, choice_in};

/// The words of a command, which are those after the program's name; or the status that the program
/// ends with in its place. For `--help` and `--version` that is after these texts were printed.
pub fn command_words<R: Env + AllocGlobal + Print + Eprint>(
    rt: &R,
    help: &[&str],
    version: &str,
) -> Result<Vec<String>, ExitCode>
    ensures { IfErr result (λ code. IsEndWithoutCommand (exit_status code)) }
{
    let words = match words(rt) {
        Ok(words) => words,
        Err(status) => return Err(end(rt, status, 0, None)),
    };
    match choice_in(words.as_slice()) {
        Choice::Help => Err(print(rt, help)),
        Choice::Version => Err(print(rt, &[version])),
        Choice::Command => Ok(words),
    }
}

/// The words after the program's name, in order. A word that isn't UTF-8 is a faulty command line:
/// `BadWords`. Takes memory for the words; where it runs out: `Memory`.
fn words<R: Env + AllocGlobal>(rt: &R) -> Result<Vec<String>, Status>
    ensures { IfErr result IsWantOfWords }
{
    let mut words = Vec::new(rt.alloc());
    let args = env::args(rt).map_err(status_of)?;
    for word in args.skip(1) {
        words.push(word).map_err(|_| Status::Memory)?;
    }
    Ok(words)
}

fn status_of(error: io::Error) -> Status
    ensures { IsWantOfWords result }
{
    match error.kind() {
        io::ErrorKind::OutOfMemory => Status::Memory,
        _ => Status::BadWords,
    }
}
