//! How a program ends: its status, and the number of a bad line.

ghost use Rattle.std.specs.Prelude.{◌≡◌, ◌<◌, IfSome, IfNone};
ghost use Rattle.wasi_program.specs.Status.{number_of, status_of, bad_line_of};

use wasi_run::{RunEnd, RunError};

/// How the program ended.
#[derive(Clone, Copy, Debug, PartialEq, Eq)]
pub enum Status {
    /// All was done, or a step of the script trapped.
    Ok,
    /// The words aren't one of the forms.
    BadWords,
    /// A line of the scenario isn't in its grammar.
    BadScenario,
    /// A line of the script is no step.
    BadStep,
    /// The script is longer than its limit.
    TooLong,
    /// A read of the script failed.
    ReadFault,
    /// A write of the replies failed.
    WriteFault,
    /// Memory ran out.
    Memory,
    /// A read of the scenario failed.
    ScenarioFault,
    /// A pump's budget is 0.
    NoBudget,
    /// A worker of a pump couldn't be started.
    NoWorker,
    /// A read of a pump failed.
    SourceFault,
    /// A write or a flush of a pump failed, or its sink took nothing of a piece.
    SinkFault,
}

impl Status {
    /// The number that the program ends with.
    pub fn number(self) -> u8
        ensures { result ≡ number_of self }
    {
        match self {
            Status::Ok => 0,
            Status::BadWords => 1,
            Status::BadScenario => 2,
            Status::BadStep => 3,
            Status::TooLong => 4,
            Status::ReadFault => 5,
            Status::WriteFault => 6,
            Status::Memory => 7,
            Status::ScenarioFault => 8,
            Status::NoBudget => 9,
            Status::NoWorker => 10,
            Status::SourceFault => 11,
            Status::SinkFault => 12,
        }
    }

    /// The status with this number.
    pub fn of_number(number: u8) -> Option<Status>
        ensures some { IfSome result (λ s. number_of s ≡ number) }
        ensures none { IfNone result (12 < number) }
    {
        match number {
            0 => Some(Status::Ok),
            1 => Some(Status::BadWords),
            2 => Some(Status::BadScenario),
            3 => Some(Status::BadStep),
            4 => Some(Status::TooLong),
            5 => Some(Status::ReadFault),
            6 => Some(Status::WriteFault),
            7 => Some(Status::Memory),
            8 => Some(Status::ScenarioFault),
            9 => Some(Status::NoBudget),
            10 => Some(Status::NoWorker),
            11 => Some(Status::SourceFault),
            12 => Some(Status::SinkFault),
            _ => None,
        }
    }

    /// How a run's end is reported.
    pub fn of_run(outcome: Result<RunEnd, RunError>) -> Status
        ensures { result ≡ status_of outcome }
    {
        match outcome {
            Ok(_) => Status::Ok,
            Err(RunError::Memory) => Status::Memory,
            Err(RunError::BadStep(_)) => Status::BadStep,
            Err(RunError::TooLong) => Status::TooLong,
            Err(RunError::ReadFault) => Status::ReadFault,
            Err(RunError::WriteFault) => Status::WriteFault,
        }
    }
}

/// The line of a step that is none, counted from 1, else 0.
pub fn bad_line(outcome: Result<RunEnd, RunError>) -> u32
    ensures { result ≡ bad_line_of outcome }
{
    match outcome {
        Err(RunError::BadStep(line)) => line,
        _ => 0,
    }
}
