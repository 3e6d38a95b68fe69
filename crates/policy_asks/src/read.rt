//! Reads a text within a limit.

ghost use Rattle.std.specs.Prelude.{◌≡◌, IfOk};
ghost use Rattle.policy_asks.specs.Io.{HasReadText};

use std::alloc::{AllocError, Global};
use world_io::Source;

/// How many bytes are read at a time.
const PIECE_SIZE: usize = 4096;

/// How a reading ended.
#[derive(Clone, Copy, Debug, PartialEq, Eq)]
pub enum ReadEnd {
    /// At the end of what there was.
    Whole,
    /// One byte behind the limit.
    TooLong,
    /// At a read that failed.
    Fault,
}

/// Reads to the end, or to one byte behind the limit, or to a read that fails. Takes memory for
/// what was read.
pub fn read_text<S: Source>(
    alloc: Global,
    source: &mut S,
    limit: u32,
) -> Result<(Vec<u8>, ReadEnd), AllocError>
    ensures { IfOk result (λ read. HasReadText limit (S.reading source.old) (S.reading source.new)
        read.0.items read.1) }
{
    let most = limit as usize;
    let mut text = Vec::new(alloc);
    let mut piece = [0u8; PIECE_SIZE];
    'reading: while text.len() <= most {
        let room = (most + 1 - text.len()).min(PIECE_SIZE);
        let Ok(count) = source.read(&mut piece[..room]) else {
            return Ok((text, ReadEnd::Fault));
        };
        if count == 0 {
            return Ok((text, ReadEnd::Whole));
        }
        text.extend_from_slice(&piece[..count])?;
    }
    Ok((text, ReadEnd::TooLong))
}
