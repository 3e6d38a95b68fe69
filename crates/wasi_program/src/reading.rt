//! Reads a source to its end.

ghost use Rattle.std.specs.Prelude.{◌≡◌, ◌<◌, ◌^◌, IfOk};
ghost use Rattle.wasi_world.specs.Seen.{Rose};
ghost use Rattle.wasi_program.specs.Reading.{ReadWithin};

use std::alloc::{AllocError, Global};
use world_io::Source;

/// How many bytes are read at a time.
const PIECE_SIZE: usize = 4096;

/// Why a source wasn't read.
#[derive(Clone, Copy, Debug, PartialEq, Eq)]
pub enum Unread {
    /// A read failed.
    Fault,
    /// Memory ran out.
    Memory(AllocError),
}

/// Reads a source to its end, or to one byte past so many. Takes memory for its bytes.
pub fn read_within<C: Source>(alloc: Global, source: &mut C, most: usize) -> Result<Vec<u8>, Unread>
    requires { most < 2 ^ 32 }
    ensures read { IfOk result (λ text. ReadWithin most (C.reading source.old)
        (C.reading source.new) text.items) }
    ensures fault { result ≡ Err Unread.Fault
        → Rose (C.reading source.old).faults (C.reading source.new).faults }
{
    let mut text = Vec::new(alloc);
    let mut piece = [0u8; PIECE_SIZE];
    'reading: while text.len() <= most {
        let room = (most + 1 - text.len()).min(PIECE_SIZE);
        let Ok(count) = source.read(&mut piece[..room]) else {
            return Err(Unread::Fault);
        };
        if count == 0 {
            return Ok(text);
        }
        let Ok(()) = text.extend_from_slice(&piece[..count]) else {
            return Err(Unread::Memory(AllocError));
        };
    }
    Ok(text)
}
