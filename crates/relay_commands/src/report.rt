//! What the program prints on standard error when it stops.

ghost use Rattle.std.specs.Prelude.{◌≡◌};
ghost use Rattle.std.specs.Process.{exit_status};
ghost use Rattle.relay_commands.specs.Status.{number_of};

use crate::live::LiveEnd;
use crate::status::RelayStatus;
use std::process::ExitCode;
use std::rt::Files;
use wasi_console::{end, line_of};
use wasi_program::{Status, scenario_path};
use wasi_steps::CodeWord;
use world_io::FileSource;

/// Prints the status of a setup that was refused, with its code where that is known. Returns the
/// status as the program's.
fn end_at_setup<R: Eprint>(rt: &R, number: u8, code: Option<CodeWord>) -> ExitCode
    ensures { exit_status result ≡ number }
{
    let printed = match code {
        Some(code) => eprintln!(rt; "status {number}\nthe relay can't listen: {code}"),
        None => eprintln!(rt;
            "status {number}\nthe relay can't listen: a call of its setup was refused"
        ),
    };
    let _ = printed;
    ExitCode::from(number)
}

/// Prints that the relay made all its turns, or as many steps as have a number. Returns the status
/// as the program's.
fn end_at_budget<R: Eprint>(rt: &R, number: u8) -> ExitCode
    ensures { exit_status result ≡ number }
{
    let printed = eprintln!(rt;
        "status {number}\nthe relay ended before its connections: it made TURNS turns, or 4294967295 steps"
    );
    let _ = printed;
    ExitCode::from(number)
}

/// Prints that not every connection had a pair, with how many of how many had one where that is
/// known. Returns the status as the program's.
fn end_unserved<R: Eprint>(rt: &R, number: u8, counts: Option<(usize, u32)>) -> ExitCode
    ensures { exit_status result ≡ number }
{
    let printed = match counts {
        Some((paired, ordered)) => eprintln!(rt;
            "status {number}\nof {ordered} connections {paired} were relayed: the others weren't accepted, or had no socket for their target (see ulimit -n)"
        ),
        None => eprintln!(rt;
            "status {number}\nnot all connections were relayed: some weren't accepted, or had no socket for their target"
        ),
    };
    let _ = printed;
    ExitCode::from(number)
}

/// Prints the status that a program that reads a scenario ends with, with the scenario's bad line.
/// Returns the status as the program's.
fn end_of_status<R: Eprint + Files>(rt: &R, number: u8, line: u32) -> ExitCode
    ensures { exit_status result ≡ number }
{
    let Some(status) = Status::of_number(number) else {
        return ExitCode::from(number);
    };
    let front = match status {
        Status::BadScenario => line_of(FileSource::open(rt, scenario_path()), u64::from(line)),
        _ => None,
    };
    end(rt, status, line, front)
}

/// Prints how a relay over a scenario ended, by its number. Returns that as the program's status.
pub fn end_of_relay<R: Eprint + Files>(rt: &R, number: u8, line: u32) -> ExitCode
    ensures { exit_status result ≡ number }
{
    match number {
        18 => end_at_setup(rt, number, None),
        19 => end_at_budget(rt, number),
        26 => end_unserved(rt, number, None),
        _ => end_of_status(rt, number, line),
    }
}

/// Prints how a relay over the system's sockets ended. Returns its number as the program's status.
pub fn end_of_live<R: Eprint>(rt: &R, ended: LiveEnd) -> ExitCode
    ensures { exit_status result ≡ number_of ended.status }
{
    let number = ended.status.number();
    match ended.status {
        RelayStatus::Of(status) => end(rt, status, 0, None),
        RelayStatus::SetupRefused => end_at_setup(rt, number, ended.refused),
        RelayStatus::Budget => end_at_budget(rt, number),
        RelayStatus::Unserved => end_unserved(rt, number, Some((ended.paired, ended.ordered))),
    }
}
