//! What a pump gives back.

ghost use Rattle.std.specs.Prelude.{◌≡◌};
ghost use Rattle.wasi_pump.specs.Pumped.{outcome_of};

use crate::error::PumpError;
use worker_shared::Ended;

/// What a pump gives back.
#[derive(Debug, PartialEq, Eq, Drop)]
pub struct Pumped<S, K> {
    pub source: S,
    pub sink: K,
    /// How many bytes were moved, or 18446744073709551615 where it is more.
    pub outcome: Result<u64, PumpError>,
}

/// How a pump ends, whose streams ended so. The count is there where the source's end was read and
/// a flush was accepted.
///
/// A source's fault goes first. Where neither stream met a fault and yet not all was moved, memory
/// ran out.
pub fn outcome_of(
    moved: Option<u64>,
    read: Result<(), Ended>,
    written: Result<(), Ended>,
) -> Result<u64, PumpError>
    ensures { result ≡ outcome_of moved read written }
{
    match (read, written, moved) {
        (Err(Ended::Fault), _, _) => Err(PumpError::SourceFault),
        (_, Err(Ended::Fault), _) => Err(PumpError::SinkFault),
        (Ok(()), Ok(()), Some(count)) => Ok(count),
        _ => Err(PumpError::Memory),
    }
}
