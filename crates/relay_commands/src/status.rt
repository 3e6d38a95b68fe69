//! How the program ends.

ghost use Rattle.std.specs.Prelude.{◌≡◌};
ghost use Rattle.relay_commands.specs.Status.{number_of, status_of, status_after};

use wasi_program::Status;
use wasi_relay::RelayEnd;
use wasi_session::StepError;

/// How the program ended.
#[derive(Clone, Copy, Debug, PartialEq, Eq)]
pub enum RelayStatus {
    /// As `kaxtubor run` ends.
    Of(Status),
    /// A call of the setup was refused.
    SetupRefused,
    /// All turns were made, or no further step could be.
    Budget,
    /// Not every connection that was ordered had a pair.
    Unserved,
}

/// Why the lines of pairs weren't all written.
#[derive(Clone, Copy, Debug, PartialEq, Eq)]
pub enum Unwritten {
    /// A write failed.
    Fault,
    /// Memory ran out, and nothing was written.
    Memory,
}

impl RelayStatus {
    /// The number that the program ends with.
    pub fn number(self) -> u8
        ensures { result ≡ number_of self }
    {
        match self {
            RelayStatus::Of(status) => status.number(),
            RelayStatus::SetupRefused => 18,
            RelayStatus::Budget => 19,
            RelayStatus::Unserved => 26,
        }
    }
}

/// How a relay's end is reported.
fn status_of(end: Result<RelayEnd, StepError>) -> RelayStatus
    ensures { result ≡ status_of end }
{
    match end {
        Ok(RelayEnd::Served) => RelayStatus::Of(Status::Ok),
        Ok(RelayEnd::Unserved) => RelayStatus::Unserved,
        Ok(RelayEnd::SetupRefused(_)) => RelayStatus::SetupRefused,
        Ok(RelayEnd::Budget) => RelayStatus::Budget,
        Err(StepError::Memory) => RelayStatus::Of(Status::Memory),
        Err(_) => RelayStatus::Budget,
    }
}

/// How a relay is reported whose lines were written so.
pub fn status_after(end: Result<RelayEnd, StepError>, written: Result<(), Unwritten>) -> RelayStatus
    ensures { result ≡ status_after end written }
{
    match written {
        Ok(()) => status_of(end),
        Err(Unwritten::Fault) => RelayStatus::Of(Status::WriteFault),
        Err(Unwritten::Memory) => RelayStatus::Of(Status::Memory),
    }
}
