//! What a program prints on standard error when it stops: its status, for programs, and what is
//! wrong, for a person.

ghost use Rattle.std.specs.Prelude.{◌≡◌};
ghost use Rattle.std.specs.Process.{exit_status};
ghost use Rattle.wasi_program.specs.Status.{number_of};
ghost use Rattle.wasi_program.specs.Choices.{IsEndOfPrint};

use crate::files::{is_folder, is_longer, why_unread};
use crate::lines::{Front, LineSource, line_of};
use std::process::ExitCode;
use std::rt::Files;
use std::{io, str};
use wasi_program::{ShownLine, Status, scenario_path, shown_line};
use wasi_steps::STEP_FORMS;
use world_io::FileSource;

/// What a line of a scenario may be.
const SCENARIO_LINES: &str =
    "a line such as `check no`, `read bytes 0102` or `context yes yes no 65536`, ended by a newline, in a file of at most 1048576 bytes";

/// How many bytes a scenario has at most.
const MOST_SCENARIO: u64 = 1_048_576;

/// What a line of a script may be.
const SCRIPT_LINES: &str =
    "a call such as `0 network`, `turn` or `poll 3`, with the number of a context in front where it is a guest's, ended by a newline (--help lists the calls)";

/// Writes texts to standard output, one after another, and ends with status 0, or with that of a
/// failed write.
pub fn print<R: Print + Eprint>(rt: &R, texts: &[&str]) -> ExitCode
    ensures { IsEndOfPrint (exit_status result) }
{
    for text in texts {
        if rt.print(text).is_err() {
            return end(rt, Status::WriteFault, 0, None);
        }
    }
    ExitCode::from(Status::Ok.number())
}

/// Prints the status on standard error, unless it is Ok, with the line of a bad scenario or script;
/// then, on a line of its own, what is wrong in a person's words, with the front of that line.
/// Returns the status as the program's.
pub fn end<R: Eprint>(rt: &R, status: Status, line: u32, front: Option<Front>) -> ExitCode
    ensures { exit_status result ≡ number_of status }
{
    let number = status.number();
    let printed = match status {
        Status::Ok => Ok(()),
        Status::BadScenario => {
            bad_line(rt, number, scenario_path(), line, front, SCENARIO_LINES)
        }
        Status::BadStep => {
            let expected = expected_of(&front);
            bad_line(rt, number, "the script", line, front, expected)
        }
        other => eprintln!(rt; "status {number}\n{}", reason(other)),
    };
    let _ = printed;
    ExitCode::from(number)
}

/// Ends as [`end`] does, for the number of a program that ran a script: a status' number, with the
/// bad line of the scenario or of the script, whose front is looked up there.
pub fn end_of_run<R: Eprint + Files, I>(
    rt: &R,
    number: u8,
    line: u32,
    script: &LineSource<I>,
) -> ExitCode
    ensures { exit_status result ≡ number }
{
    let Some(status) = Status::of_number(number) else {
        return ExitCode::from(number);
    };
    match status {
        Status::ScenarioFault => return end_unread(rt, number, scenario_path()),
        Status::ReadFault | Status::SourceFault => return end_without_input(rt, number),
        Status::BadScenario if is_longer(rt, scenario_path(), MOST_SCENARIO) => {
            return end_too_long(rt, number, scenario_path(), line, MOST_SCENARIO);
        }
        _ => {}
    }
    let front = match shown_line(status) {
        ShownLine::OfScenario => line_of(FileSource::open(rt, scenario_path()), u64::from(line)),
        ShownLine::OfScript => script.line(u64::from(line)),
        ShownLine::Neither => None,
    };
    end(rt, status, line, front)
}

/// The word of a step's line, behind the number of its context.
fn word_of(line: &str) -> Option<&str> {
    line.trim_start()
        .split(' ')
        .find(|word| !word.bytes().all(|b| b.is_ascii_digit()))
}

/// The form of the line's step as `--help` lists it, where its word is that of a step.
fn form_of(front: &Front) -> Option<&'static str> {
    let line = str::from_utf8(front.bytes()).ok()?;
    let word = word_of(line)?;
    STEP_FORMS.lines().find(|form| word_of(form) == Some(word))
}

/// What the line of a script may be: the form of the step that it names, or any call.
fn expected_of(front: &Option<Front>) -> &'static str {
    match front {
        Some(front) => form_of(front).unwrap_or(SCRIPT_LINES).trim_start(),
        None => SCRIPT_LINES,
    }
}

/// Prints the status with its line, which this input has, and what was expected of that line. Returns
/// the status as the program's.
pub fn end_at_line<R: Eprint>(
    rt: &R,
    number: u8,
    input: &str,
    line: u32,
    front: Option<Front>,
    expected: &str,
) -> ExitCode
    ensures { exit_status result ≡ number }
{
    let _ = bad_line(rt, number, input, line, front, expected);
    ExitCode::from(number)
}

/// What is said behind the front of a line that has no newline.
fn want_of_newline(front: Front) -> &'static str {
    if front.is_ended() {
        ""
    } else {
        ", and the newline that ends a line is missing"
    }
}

/// Prints the status with its line, and what was expected of that line.
fn bad_line<R: Eprint>(
    rt: &R,
    number: u8,
    input: &str,
    line: u32,
    front: Option<Front>,
    expected: &str,
) -> io::Result<()> {
    let Some(front) = front else {
        return eprintln!(rt;
            "status {number} line {line}\nline {line} of {input} is not {expected}"
        );
    };
    let want = want_of_newline(front);
    eprintln!(rt;
        "status {number} line {line}\nline {line} of {input} is `{front}`{want}; expected {expected}"
    )
}

/// Prints the status, and why this file can't be used. Returns the status as the program's.
pub fn end_unread<R: Eprint + Files>(rt: &R, number: u8, path: &str) -> ExitCode
    ensures { exit_status result ≡ number }
{
    let why = why_unread(rt, path);
    let printed = eprintln!(rt; "status {number}\n{path} {why}");
    let _ = printed;
    ExitCode::from(number)
}

/// Prints the status with its line, and that this input is longer than it may be. Returns the status
/// as the program's.
pub fn end_too_long<R: Eprint>(rt: &R, number: u8, input: &str, line: u32, most: u64) -> ExitCode
    ensures { exit_status result ≡ number }
{
    let printed = eprintln!(rt;
        "status {number} line {line}\n{input} has more than {most} bytes, which is the most that it may have; line {line} is bad, or the first that goes beyond"
    );
    let _ = printed;
    ExitCode::from(number)
}

/// Prints how a reading of standard input failed.
fn end_without_input<R: Eprint + Files>(rt: &R, number: u8) -> ExitCode
    ensures { exit_status result ≡ number }
{
    let why = if is_folder(rt, "/dev/stdin") {
        "it is a folder"
    } else {
        "a read failed"
    };
    let printed = eprintln!(rt; "status {number}\nstandard input can't be read: {why}");
    let _ = printed;
    ExitCode::from(number)
}

/// What is wrong, where it is no line.
fn reason(status: Status) -> &'static str {
    match status {
        Status::Ok => "nothing is wrong",
        Status::BadWords => "the words of the command line are in no order that --help lists",
        Status::BadScenario => "scenario.txt has a bad line",
        Status::BadStep => "the script has a bad line",
        Status::TooLong =>
            "the script is longer than LIMIT bytes; its whole lines within them were done",
        Status::ReadFault => "a read of standard input failed",
        Status::WriteFault => "a write to standard output failed",
        Status::Memory => "out of memory",
        Status::ScenarioFault => {
            "scenario.txt in this folder can't be opened and read (an empty file is a network that plans nothing)"
        }
        Status::NoBudget => "BUDGET is 0; a pump needs at least 1",
        Status::NoWorker => "no worker thread could be started; nothing was copied",
        Status::SourceFault =>
            "a read of standard input failed; what was read before may not all be written",
        Status::SinkFault => "a write to standard output failed",
    }
}
